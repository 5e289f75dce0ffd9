// The tests of refusals 8 and 33: the price and the shares.
#![tactic(auto)]

ghost use Rattle.std.specs.Prelude.{◌≡◌, List, length, get_or};
ghost use Rattle.rules.specs.declared.Leg.{Leg};
ghost use Rattle.rules.specs.Order.{no_leg};
ghost use Rattle.rules.specs.Numbers.{is_bad_price, is_bad_shares};

use rules::Terms;
use terms::{is_negative, is_positive, is_simple};

// A simple order has one leg, and `bought` is its side; of a complex one no sign is asked.
#[tactic(auto, using(crate::proofs::Laws::price_of_one, laws::proofs::Simple::simple_length))]
pub fn is_bad_price(t: Terms, bought: bool, legs: usize) -> bool
    ensures { (ls : List Leg) → length ls ≡ legs → (legs ≡ 1 → (get_or ls 0 no_leg).bought ≡ bought) → result ≡ is_bad_price t ls }
{
    let signed = if bought {
        is_positive(t.price)
    } else {
        is_negative(t.price)
    };
    1000000000000 < t.price.size.0 || is_simple(t, legs) && !signed
}

#[tactic(auto, unfolding(rules::specs::Numbers::is_bad_shares))]
pub fn is_bad_shares(t: Terms) -> bool
    ensures { result ≡ is_bad_shares t }
{
    1000000 < t.shares.size
}
