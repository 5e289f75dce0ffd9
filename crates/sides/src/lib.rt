// What a buy meets, or a sell: each rule with a side is one function. A quote's bid buys, its offer sells.
#![tactic(auto)]

ghost use Rattle.std.specs.Prelude.{◌≡◌, ◌≤◌};
ghost use Rattle.rules.specs.Market.{national, own, at_or_past, is_beyond};

use rules::{Market, Mills};

// The prices of a quote.
#[derive(Clone, Copy)]
pub struct Quote {
    pub bid: Mills,
    pub offer: Mills,
}

// The national best of the other side.
pub fn national(bought: bool, m: Market) -> Mills
    ensures { result ≡ national bought m }
{
    if bought { m.nbo } else { m.nbb }
}

// The own price of the other side.
pub fn own(bought: bool, m: Market) -> Mills
    ensures { result ≡ own bought m }
{
    if bought { m.ownoffer } else { m.ownbid }
}

// Whether a buy's price is not below the other, or a sell's not above it.
pub fn at_or_past(bought: bool, x: Mills, y: Mills) -> bool
    ensures { result ≡ at_or_past bought x.0 y.0 }
{
    if bought { y.0 <= x.0 } else { x.0 <= y.0 }
}

// An amount received is compared with the reference less D: an amount may be as large as its type allows, and the
// sum with D could pass that. A D above the reference rejects no sell.
pub fn is_beyond(bought: bool, amount: Mills, reference: Mills, d: Mills) -> bool
    requires { (reference.0 ≤ 1000000000) × (d.0 ≤ 1000000) }
    ensures { result ≡ is_beyond bought amount.0 reference.0 d.0 }
{
    if bought {
        reference.0 + d.0 < amount.0
    } else {
        amount.0 < reference.0.saturating_sub(d.0)
    }
}
