// An order's terms: made of the host's numbers, and what they say.
#![tactic(auto)]

ghost use Rattle.std.specs.Prelude.{◌≡◌, List, length};
ghost use Rattle.rules.specs.declared.Leg.{Leg};
ghost use Rattle.rules.specs.Order.{price_of, shares_of, terms_of, has_shares, is_simple};
ghost use Rattle.rules.specs.Checks.{is_positive, is_negative};

use rules::{Mills, Price, Shares, Terms};

// The price's sign and size.
#[tactic(auto, unfolding(rules::specs::Order::price_of))]
pub fn price_of(price: i64) -> Price
    ensures { result ≡ price_of price }
{
    Price {
        received: price < 0,
        size: Mills(price.unsigned_abs()),
    }
}

// The share count's side and size.
#[tactic(auto, unfolding(rules::specs::Order::shares_of))]
pub fn shares_of(shares: i64) -> Shares
    ensures { result ≡ shares_of shares }
{
    Shares {
        bought: 0 <= shares,
        size: shares.unsigned_abs(),
    }
}

// What an order says beside its legs, as the host hands it in.
pub fn terms_of(price: i64, kind: u64, stop: u64, manual: u64, opening: u64, shares: i64) -> Terms
    ensures { result ≡ terms_of price kind stop manual opening shares }
{
    Terms {
        price: price_of(price),
        kind,
        stop,
        manual,
        opening,
        shares: shares_of(shares),
    }
}

pub fn is_positive(p: Price) -> bool
    ensures { result ≡ is_positive p }
{
    !p.received && 0 < p.size.0
}

pub fn is_negative(p: Price) -> bool
    ensures { result ≡ is_negative p }
{
    p.received && 0 < p.size.0
}

// Whether shares are attached.
#[tactic(auto, unfolding(rules::specs::Order::has_shares))]
pub fn has_shares(t: Terms) -> bool
    ensures { result ≡ has_shares t }
{
    t.shares.size != 0
}

// Whether an order of so many legs is simple. It is complex otherwise.
#[tactic(auto, unfolding(rules::specs::Order::is_simple))]
pub fn is_simple(t: Terms, legs: usize) -> bool
    ensures { (ls : List Leg) → length ls ≡ legs → result ≡ is_simple t ls }
{
    !has_shares(t) && legs == 1
}
