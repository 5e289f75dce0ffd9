// What a crossing quote fills of the resting list, and what becomes of the remainder of its size.
#![tactic(auto)]

ghost use Rattle.std.specs.Prelude.{◌≡◌, ◌++◌, ◌-◌, ◌≤◌, length, drop};
ghost use Rattle.rules.specs.Lists.{total};
ghost use Rattle.rules.specs.Market.{at_or_past};
ghost use Rattle.rules.specs.Crossing.{fills_of, is_booked};
ghost use Rattle.execution.specs.Bounds.{furthest};

use resting::Crossing;
use rules::Mills;
use sides::at_or_past;

// Whether the remainder is booked: the quote's price is short of the away price, or there is none.
#[tactic(auto, unfolding(rules::specs::Crossing::is_booked))]
pub fn is_booked(bought: bool, price: Mills, away: Mills) -> bool
    ensures { result ≡ is_booked bought price away }
{
    away.0 == 0 || !at_or_past(bought, price, away)
}

// The furthest price that the quote may fill: its own where the remainder is booked, else the away price, which is then
// the nearer one.
pub fn furthest(booked: bool, price: Mills, away: Mills) -> Mills
    ensures { result ≡ furthest booked price away }
{
    if booked { price } else { away }
}

// The best first: each resting price fills what it can of the size that is left, up to the furthest price. Gives what is
// left in the end.
#[tactic(auto, using(crate::proofs::Laws::fill_fits, crate::proofs::Laws::filled_left, crate::proofs::Laws::filled_all))]
pub fn fill(bought: bool, furthest: Mills, c: Crossing, fills: &mut [u64]) -> u64
    requires { (length c.sizes.now ≡ length c.prices.now) × (length c.prices.now ≤ length fills.old) }
    ensures value { result ≡ c.entry.size - total (fills_of (at_or_past bought furthest.0) c.entry.size c.entry.prices.now c.entry.sizes.now) }
    ensures fills_after { fills.new ≡ fills_of (at_or_past bought furthest.0) c.entry.size c.entry.prices.now c.entry.sizes.now ++ drop (length c.entry.prices.now) fills.old }
{
    let mut left = c.size;
    for i in 0..c.prices.len() {
        let may_fill = at_or_past(bought, furthest, Mills(c.prices[i]));
        let f = if may_fill { left.min(c.sizes[i]) } else { 0 };
        fills[i] = f;
        left -= f;
    }
    left
}
