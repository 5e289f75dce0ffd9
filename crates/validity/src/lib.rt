// The refusals of an order record whose legs are read: the first that applies.
#![tactic(auto)]

ghost use Rattle.std.specs.Prelude.{◌≡◌, ◌≤◌, IfOk};
ghost use Rattle.rules.specs.Numbers.{first_of};
ghost use Rattle.answers.specs.Answers.{refusal_number, number_of};
ghost use Rattle.validity.specs.Orders.{later, Refuses};

use answers::{Refusal, fail_if};
use keys::is_bought;
use limits::{Held, within_limits};
use reading::Read;
use refusals::{is_bad_price, is_bad_shares};
use rules::{Market, Settings, Terms};
use series_refusals::sorted_twice;

// The first test that applies of those behind the legs' own.
#[tactic(auto, unfolding(rules::specs::Numbers::first_of))]
fn later(
    twice: bool,
    other: bool,
    price: bool,
    t: Terms,
    st: Settings,
    m: Market,
) -> Result<Held, Refusal>
    ensures number { number_of refusal_number result ≡ first_of (later twice other price t st m) }
    ensures kept { IfOk result (λ h. (h.settings ≡ st) × (h.market ≡ m)) }
{
    fail_if(twice, Refusal::SeriesTwice)?;
    fail_if(other, Refusal::RootsDiffer)?;
    fail_if(price, Refusal::BadPrice)?;
    fail_if(is_bad_shares(t), Refusal::BadShares)?;
    within_limits(st, m)
}

// Sorts the places of an order that is not refused. A simple order has one place, which says its side; of a complex one
// no side is asked.
pub fn refusal(
    read: Read,
    t: Terms,
    places: &mut [u64; 16],
    roots: &[u64; 16],
    st: Settings,
    m: Market,
) -> Result<Held, Refusal>
    requires { read.len ≤ 16 }
    ensures refuses { Refuses st m t read places.old roots.now places.new result }
    ensures kept { IfOk result (λ h. (h.settings ≡ st) × (h.market ≡ m)) }
{
    let bought = is_bought(places[0] / 16);
    let len = read.len;
    let twice = sorted_twice(&mut places[..len], &roots[..len], read.other);
    let price = is_bad_price(t, bought, len);
    later(twice, read.other, price, t, st, m)
}
