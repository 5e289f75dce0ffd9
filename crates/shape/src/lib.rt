// The shape of unit legs.
#![tactic(auto)]

ghost use Rattle.std.specs.Prelude.{◌≡◌, false, [], ◌∷◌, ℕ, length};
ghost use Rattle.rules.specs.Pairing.{one_expiry};
ghost use Rattle.rules.specs.Class.{opposite, is_vertical, between, is_butterfly, is_true_butterfly, is_box, shape_of};
ghost use Rattle.answers.specs.Answers.{shape_number};
ghost use Rattle.keys.specs.Tags.{legs_from};

use answers::Shape;
use keys::leg_at;
use rules::{Leg, Series};
use strikes::{above_lower, below_higher};

// The same type and expiry.
#[tactic(auto, using(rules::proofs::Tests::beq_same))]
fn one_expiry(s: Series, t: Series) -> bool
    ensures { result ≡ one_expiry s t }
{
    s.call == t.call && s.expiry == t.expiry
}

// One is bought and the other sold.
#[tactic(auto, using(rules::proofs::Tests::beq_same))]
fn opposite(a: Leg, b: Leg) -> bool
    ensures { result ≡ opposite a b }
{
    a.bought != b.bought
}

#[tactic(auto, unfolding(rules::specs::Class::is_vertical, rules::specs::Lists::every))]
fn is_vertical(a: Leg, b: Leg) -> bool
    ensures { result ≡ is_vertical a b }
{
    one_expiry(a.series, b.series) && a.size == 1 && b.size == 1 && opposite(a, b)
}

fn between(a: u64, m: u64, b: u64) -> bool
    ensures { result ≡ between a m b }
{
    a < m && m < b || b < m && m < a
}

// `m` has the middle strike.
#[tactic(auto, unfolding(rules::specs::Class::is_butterfly, rules::specs::Lists::every))]
pub fn is_butterfly(a: Leg, m: Leg, b: Leg) -> bool
    ensures { result ≡ is_butterfly a m b }
{
    one_expiry(a.series, m.series)
        && one_expiry(m.series, b.series)
        && a.size == 1
        && m.size == 2
        && b.size == 1
        && opposite(a, m)
        && opposite(m, b)
        && between(a.series.strike.0, m.series.strike.0, b.series.strike.0)
}

// The middle strike is as far from one outer strike as from the other.
#[tactic(auto, using(crate::proofs::Laws::true_read))]
fn is_true_butterfly(a: Leg, m: Leg, b: Leg) -> bool
    ensures { result ≡ is_true_butterfly a m b }
{
    let low = above_lower(a.series.strike.0, m.series.strike.0, b.series.strike.0);
    let high = below_higher(a.series.strike.0, m.series.strike.0, b.series.strike.0);
    low == high
}

// `p` and `c` are the put and the call of the lower strike, `q` and `d` those of the higher.
#[tactic(auto, unfolding(rules::specs::Class::is_box, rules::specs::Lists::every))]
fn is_box(p: Leg, q: Leg, d: Leg, c: Leg) -> bool
    ensures { result ≡ is_box p q d c }
{
    one_expiry(p.series, q.series)
        && one_expiry(c.series, d.series)
        && c.series.expiry == p.series.expiry
        && c.series.call
        && !p.series.call
        && c.series.strike.0 == p.series.strike.0
        && d.series.strike.0 == q.series.strike.0
        && c.series.strike.0 < d.series.strike.0
        && p.size == 1
        && q.size == 1
        && c.size == 1
        && d.size == 1
        && opposite(c, d)
        && opposite(c, p)
        && opposite(d, q)
}

#[tactic(auto, unfolding(rules::specs::Class::shape_of))]
fn shape_of_two(a: Leg, b: Leg) -> Shape
    ensures { shape_number result ≡ shape_of (a ∷ b ∷ []) }
{
    if is_vertical(a, b) {
        Shape::Vertical
    } else {
        Shape::Other
    }
}

#[tactic(auto, unfolding(rules::specs::Class::shape_of))]
fn shape_of_three(a: Leg, m: Leg, b: Leg) -> Shape
    ensures { shape_number result ≡ shape_of (a ∷ m ∷ b ∷ []) }
{
    if !is_butterfly(a, m, b) {
        Shape::Other
    } else if is_true_butterfly(a, m, b) {
        Shape::TrueButterfly
    } else {
        Shape::SkewedButterfly
    }
}

#[tactic(auto, unfolding(rules::specs::Class::shape_of))]
fn shape_of_four(p: Leg, q: Leg, d: Leg, c: Leg) -> Shape
    ensures { shape_number result ≡ shape_of (p ∷ q ∷ d ∷ c ∷ []) }
{
    if is_box(p, q, d, c) {
        Shape::Box
    } else {
        Shape::Other
    }
}

// The shape of unit legs in the first walk's sequence. Every shape has two to four legs.
#[tactic(auto, using(crate::proofs::Laws::shape_other, crate::proofs::Laws::shape_two))]
pub fn shape_of(tags: &[u64], units: &[u64]) -> Shape
    requires { length tags.now ≡ length units.now }
    ensures { (root : ℕ) → shape_number result ≡ shape_of (legs_from root false tags.now units.now) }
{
    match (tags, units) {
        ([a, b], [x, y]) => shape_of_two(leg_at(*a, *x), leg_at(*b, *y)),
        ([a, m, b], [x, y, z]) => shape_of_three(leg_at(*a, *x), leg_at(*m, *y), leg_at(*b, *z)),
        ([p, q, d, c], [w, x, y, z]) => shape_of_four(
            leg_at(*p, *w),
            leg_at(*q, *x),
            leg_at(*d, *y),
            leg_at(*c, *z),
        ),
        _ => Shape::Other,
    }
}
