// Both walks of an order's legs: how many pairings they make, and the class that pairs and loners give.
#![tactic(auto)]

ghost use Rattle.std.specs.Prelude.{◌≡◌, ◌≤◌, ◌<◌, map, false, ℕ, length};
ghost use Rattle.rules.specs.Lists.{All};
ghost use Rattle.rules.specs.Pairing.{one_strike, by_expiry};
ghost use Rattle.rules.specs.Pairing as pairing;
ghost use Rattle.sorting.specs.Keys.{with_places};
ghost use Rattle.keys.specs.Tags.{second_tag, legs_from};
ghost use Rattle.tagged.specs.Tags.{InSequence};
ghost use Rattle.answers.specs.Answers.{class_number};
ghost use Rattle.loners.specs.Tallies.{tally_class};
ghost use Rattle.walks.specs.Both.{tallied, BothWalks};

use answers::Class;
use keys::{arrange, place_of, second_tag};
use loners::{joined, loners, pair_class};
use sorting::sort;
use tagged::PairTally;
use walk::walk;

#[derive(Clone, Copy)]
pub struct Paired {
    pub pairings: u64,
    pub class: Class,
}

// The legs' tags of the second walk, each with its leg's place.
fn second_places(tags: &[u64], places: &mut [u64])
    requires few { length tags.now ≤ 16 }
    requires small { All (λ t. t < 40000000000000000) tags.now }
    requires long { length places.old ≡ length tags.now }
    ensures { places.new ≡ with_places 0 (map second_tag tags.now) }
{
    for (i, tag) in tags.iter().enumerate() {
        places[i] = place_of(second_tag(*tag), i);
    }
}

// Pairs and loners of the second walk, which takes what the first left of every leg.
fn second_walk(tags: &[u64], left: &[u64]) -> PairTally
    requires { InSequence tags.now left.now }
    ensures { (root : ℕ) → result ≡ tallied (pairing.walk one_strike (by_expiry (legs_from root false tags.now left.now))) }
{
    let n = tags.len();
    let mut places = [0u64; 16];
    let places = &mut places[..n];
    second_places(tags, places);
    sort(places);
    let mut rest = [0u64; 16];
    let rest = &mut rest[..n];
    arrange(places, left, rest);
    let pairs = walk(places, rest);
    loners(pairs, places, rest)
}

// Pairs and loners of both walks. Where the first leaves contracts of one side alone, the second would match none.
fn tally(tags: &[u64], left: &mut [u64], european: bool) -> PairTally
    requires { InSequence tags.now left.old }
    ensures { (root : ℕ) → BothWalks european (legs_from root false tags.now left.old) result.pairs (tally_class result) }
{
    let pairs = walk(tags, left);
    let none = PairTally {
        pairs: 0,
        debit: false,
        credit: false,
    };
    let alone = loners(none, tags, left);
    if european || !(alone.debit && alone.credit) {
        return joined(pairs, alone);
    }
    joined(pairs, second_walk(tags, left))
}

// The legs are listed latest walked first. The second walk takes what the first left, unless the class is European.
pub fn both_walks(tags: &[u64], left: &mut [u64], european: bool) -> Paired
    requires { InSequence tags.now left.old }
    ensures { (root : ℕ) → BothWalks european (legs_from root false tags.now left.old) result.pairings (class_number result.class) }
{
    let t = tally(tags, left, european);
    Paired {
        pairings: t.pairs,
        class: pair_class(t),
    }
}
