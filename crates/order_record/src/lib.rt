// The host's slices as an order record.
#![tactic(auto)]

ghost use Rattle.std.specs.Prelude.{◌≡◌, ◌*◌, ◌≤◌, length};
ghost use Rattle.rules.specs.Order.{raw_legs, Recorded};
ghost use Rattle.rules.specs.Numbers.{are_whole};

use leg_bytes::raw_leg;
use rules::{Order, RawLeg, Terms};

// Whether the counts are 8 bytes each, with 21 symbol bytes to each count. 21 bytes for each count of the longest slice
// would not fit 64 bits: the symbol bytes are divided instead.
#[tactic(auto, using(crate::proofs::Laws::by_21))]
pub fn are_whole(symbols: &[u8], counts: &[u8]) -> bool
    ensures { result ≡ are_whole symbols.now counts.now }
{
    counts.len() % 8 == 0 && symbols.len() % 21 == 0 && symbols.len() / 21 == counts.len() / 8
}

// The order record of `n` legs. Each leg is stored in place: a record that is handed on is copied whole.
#[tactic(auto, using(crate::proofs::Laws::none_stored, crate::proofs::Laws::stored, crate::proofs::Laws::all_stored))]
pub fn order_of(symbols: &[u8], counts: &[u8], n: usize, terms: Terms) -> Order
    requires { (n ≤ 16) × (length symbols.now ≡ 21 * n) × (length counts.now ≡ 8 * n) }
    ensures { Recorded n (raw_legs n symbols.now counts.now) terms result }
{
    let blank = RawLeg {
        bought: false,
        size: 0,
        symbol: [0; 21],
    };
    let mut order = Order {
        legs: [blank; 16],
        len: n,
        terms,
    };
    for i in 0..n {
        let symbol = &symbols[21 * i..21 * i + 21];
        let count = &counts[8 * i..8 * i + 8];
        order.legs[i] = raw_leg(symbol, count);
    }
    order
}
