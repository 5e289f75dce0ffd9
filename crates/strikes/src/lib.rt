// Strikes by their differences, and M, the most that the shape of unit legs can be worth.
// A sum of two strikes could pass 64 bits, so differences are compared in its place: any strikes will do.
#![tactic(auto)]

ghost use Rattle.std.specs.Prelude.{◌≡◌, false, List, ℕ, ◌+◌, ◌-◌, ◌≤◌, min, max, length};
ghost use Rattle.rules.specs.Class.{strike_of};
ghost use Rattle.rules.specs.Checks.{maximum_of};
ghost use Rattle.keys.specs.Tags.{leg_at, legs_from};

use keys::leg_at;

// How far `m` is above the lower of `a` and `b`, and 0 where it is below.
pub fn above_lower(a: u64, m: u64, b: u64) -> u64
    ensures { result ≡ m - min a b }
{
    m.saturating_sub(a.min(b))
}

// How far `m` is below the higher of `a` and `b`, and 0 where it is above.
pub fn below_higher(a: u64, m: u64, b: u64) -> u64
    ensures { result ≡ max a b - m }
{
    a.max(b).saturating_sub(m)
}

// The strike that a tag says, whatever the leg's contracts.
fn strike_at(tag: u64) -> u64
    ensures { result ≡ strike_of (leg_at 0 false tag 0) }
{
    let leg = leg_at(tag, 0);
    leg.series.strike.0
}

// M of check 24, of unit legs in the first walk's sequence. Three legs are taken for a butterfly, more for a box with
// its calls last, from the highest strike down.
#[tactic(auto, using(crate::proofs::Laws::maximum_none, crate::proofs::Laws::maximum_two, crate::proofs::Laws::maximum_three, crate::proofs::Laws::maximum_four))]
pub fn maximum_of(tags: &[u64]) -> u64
    ensures { (root : ℕ) (units : List ℕ) → length units ≡ length tags.now → result ≡ maximum_of (legs_from root false tags.now units) }
{
    match *tags {
        [a, b] => strike_at(a).abs_diff(strike_at(b)),
        [a, m, b] => above_lower(strike_at(a), strike_at(m), strike_at(b)),
        [_, _, d, c, ..] => strike_at(d).saturating_sub(strike_at(c)),
        _ => 0,
    }
}
