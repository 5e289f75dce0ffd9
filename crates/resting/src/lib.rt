// What comes with a crossing quote, within its limits: the resting list, the quote's size and the away price.
#![tactic(auto)]

ghost use Rattle.std.specs.Prelude.{◌≡◌, not, ◌+◌, ◌<◌, length};
ghost use Rattle.rules.specs.Limits.{within};
ghost use Rattle.rules.specs.Lists.{all};
ghost use Rattle.rules.specs.Order.{is_yes};
ghost use Rattle.rules.specs.Crossing.{in_sequence, list_holds, are_bad_lengths, is_bad_crossing};
ghost use Rattle.resting.specs.Lent.{lent};

use amounts::within;
use rules::Mills;

// What comes with the quote, as the host lends it: a resting quote of the other side at each place of prices and sizes.
// Sell: 0 is no, any other value yes. Away: 0 is missing.
#[derive(Clone, Copy)]
pub struct Crossing<'a> {
    pub sell: u64,
    pub size: u64,
    pub prices: &'a [u64],
    pub sizes: &'a [u64],
    pub away: Mills,
}

// Which side of the quote crosses: the bid where no sell is named.
pub fn is_bought(sell: u64) -> bool
    ensures { result ≡ not (is_yes sell) }
{
    sell == 0
}

// A fill is lent for each of at most 64, and each has a price and a size.
#[tactic(auto, unfolding(rules::specs::Crossing::are_bad_lengths))]
fn are_bad_lengths(room: usize, prices: &[u64], sizes: &[u64]) -> bool
    ensures { result ≡ are_bad_lengths room prices.now sizes.now }
{
    let n = prices.len();
    n != sizes.len() || 64 < n || room < n
}

// Whether each is from 1 to the most.
fn are_within(most: u64, numbers: &[u64]) -> bool
    ensures { result ≡ all (within 1 most) numbers.now }
{
    numbers.iter().all(|n| within(1, most, *n))
}

// Whether the prices of a buy rise, or those of a sell fall.
fn are_in_sequence(bought: bool, prices: &[u64]) -> bool
    ensures { result ≡ in_sequence bought prices.now }
{
    if bought {
        prices.is_sorted_by(|p, q| p < q)
    } else {
        prices.is_sorted_by(|p, q| p > q)
    }
}

// Each price and size within its limits, and the prices in sequence.
fn list_holds(bought: bool, prices: &[u64], sizes: &[u64]) -> bool
    ensures { result ≡ list_holds bought prices.now sizes.now }
{
    are_within(1000000000, prices) && are_within(1000000, sizes) && are_in_sequence(bought, prices)
}

// Whether a crossing quote gets 36 where the quote check does not refuse it. `room` is the number of fills lent.
#[tactic(auto, unfolding(rules::specs::Crossing::is_bad_crossing))]
pub fn is_bad_crossing(room: usize, c: Crossing) -> bool
    ensures { result ≡ is_bad_crossing room (lent c.entry) }
{
    are_bad_lengths(room, c.prices, c.sizes)
        || !list_holds(is_bought(c.sell), c.prices, c.sizes)
        || !within(1, 1000000, c.size)
        || !(c.away.0 == 0 || within(1, 1000000000, c.away.0))
}
