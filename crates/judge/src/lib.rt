// A valid order: its class, shape and pairings, and the first check that rejects it.
#![tactic(auto)]

ghost use Rattle.std.specs.Prelude.{◌≡◌, [], ◌∷◌, true, false, ℕ, ◌≤◌};
ghost use Rattle.rules.specs.declared.Market.{Market};
ghost use Rattle.rules.specs.Order.{is_simple, is_complex};
ghost use Rattle.rules.specs.Numbers.{judged};
ghost use Rattle.answers.specs.Answers.{judged_said};
ghost use Rattle.keys.specs.Tags.{leg_at, legs_in, ValidTags};

use answers::{Class, Judged, Shape};
use classify::classify;
use keys::leg_at;
use limits::Held;
use rules::Terms;
use terms::is_simple;

// A simple order has nothing to divide or to pair: one unit of it is judged, whatever its contracts.
fn judge_simple(h: &Held, t: Terms, tag: u64) -> Judged
    requires { is_simple t (leg_at 0 false tag 1 ∷ []) ≡ true }
    ensures { (root size : ℕ) → 1 ≤ size
        → judged_said result ≡ judged h.now.settings h.now.market t (leg_at root false tag size ∷ []) }
{
    let unit = leg_at(tag, 1);
    Judged {
        verdict: simple_checks::rejection(h, t, unit),
        class: if unit.bought {
            Class::Debit
        } else {
            Class::Credit
        },
        shape: Shape::Other,
        pairings: 0,
    }
}

// No check of a complex order asks for the market.
fn judge_complex(h: &Held, t: Terms, tags: &[u64; 16], left: &mut [u64; 16], n: usize) -> Judged
    requires { ValidTags n tags.now left.old
        × (1 ≤ n)
        × (is_complex t (legs_in 0 false n tags.now left.old) ≡ true) }
    ensures { (root : ℕ) (m : Market) → judged_said result ≡ judged h.now.settings m t (legs_in root false n tags.now left.old) }
{
    let mut units = [0u64; 16];
    let c = classify(tags, left, n, h.settings.european != 0, &mut units);
    let class = u64::from(c.class);
    Judged {
        verdict: complex_checks::rejection(h.settings, t, &tags[..n], &units[..n], class, c.shape),
        class: c.class,
        shape: c.shape,
        pairings: c.pairings,
    }
}

// The legs come in the first walk's sequence; the walks take contracts off `left`. No check asks for the legs' root.
#[tactic(auto, using(crate::proofs::Laws::simple_unit, crate::proofs::Laws::complex_legs))]
pub fn judge(h: &Held, t: Terms, tags: &[u64; 16], left: &mut [u64; 16], n: usize) -> Judged
    requires { ValidTags n tags.now left.old × (1 ≤ n) }
    ensures { (root : ℕ)
        → judged_said result ≡ judged h.now.settings h.now.market t (legs_in root false n tags.now left.old) }
{
    if is_simple(t, n) {
        judge_simple(h, t, tags[0])
    } else {
        judge_complex(h, t, tags, left, n)
    }
}
