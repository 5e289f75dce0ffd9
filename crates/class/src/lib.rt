// The class of unit legs.
#![tactic(auto)]

ghost use Rattle.std.specs.Prelude.{◌≡◌, false, [], ◌∷◌, ℕ, length};
ghost use Rattle.std.specs.Option.{option_map_or};
ghost use Rattle.rules.specs.Class.{has_own_class, class_with};
ghost use Rattle.answers.specs.Answers.{class_number};
ghost use Rattle.keys.specs.Tags.{legs_from};

use answers::Class;
use keys::leg_at;
use rules::Leg;
use shape::is_butterfly;
use strikes::{above_lower, below_higher};

// The middle strike of calls is no nearer to the lower outer strike than to the higher, that of puts no nearer to the
// higher.
#[tactic(auto, using(crate::proofs::Laws::own_class_read))]
fn has_own_class(a: Leg, m: Leg, b: Leg) -> bool
    ensures { result ≡ has_own_class a m b }
{
    let low = above_lower(a.series.strike.0, m.series.strike.0, b.series.strike.0);
    let high = below_higher(a.series.strike.0, m.series.strike.0, b.series.strike.0);
    let leans = if m.series.call {
        high <= low
    } else {
        low <= high
    };
    is_butterfly(a, m, b) && leans
}

// A butterfly with a class of its own is a debit if the middle is sold, a credit if it is bought.
#[tactic(auto, unfolding(rules::specs::Class::class_with))]
fn class_of_three(a: Leg, m: Leg, b: Leg) -> Option<Class>
    ensures { (pairs : ℕ) → option_map_or class_number result pairs ≡ class_with (a ∷ m ∷ b ∷ []) pairs }
{
    if !has_own_class(a, m, b) {
        None
    } else if m.bought {
        Some(Class::Credit)
    } else {
        Some(Class::Debit)
    }
}

// The class that unit legs in the first walk's sequence have of their own.
#[tactic(auto, using(crate::proofs::Laws::class_three, crate::proofs::Laws::class_other))]
fn own_class(tags: &[u64], units: &[u64]) -> Option<Class>
    requires { length tags.now ≡ length units.now }
    ensures { (root pairs : ℕ)
        → option_map_or class_number result pairs ≡ class_with (legs_from root false tags.now units.now) pairs }
{
    match (tags, units) {
        ([a, m, b], [x, y, z]) => class_of_three(leg_at(*a, *x), leg_at(*m, *y), leg_at(*b, *z)),
        _ => None,
    }
}

// The number of unit legs' class. `pairs` is the number that the pairs and loners of a walk give.
pub fn class_of(tags: &[u64], units: &[u64], pairs: u64) -> u64
    requires { length tags.now ≡ length units.now }
    ensures { (root : ℕ) → result ≡ class_with (legs_from root false tags.now units.now) pairs }
{
    own_class(tags, units).map_or(pairs, u64::from)
}

// The class of unit legs. `pairs` is the class that the pairs and loners of a walk give.
#[tactic(auto, using(crate::proofs::Laws::class_known))]
pub fn class_by(tags: &[u64], units: &[u64], pairs: Class) -> Class
    requires { length tags.now ≡ length units.now }
    ensures { (root : ℕ) → class_number result ≡ class_with (legs_from root false tags.now units.now) (class_number pairs) }
{
    own_class(tags, units).unwrap_or(pairs)
}
