// The test of refusal 6: a series twice.
#![tactic(auto)]

ghost use Rattle.std.specs.Prelude.{◌≡◌, ◌≤◌, length};
ghost use Rattle.rules.specs.Lists.{any, some_pair};
ghost use Rattle.series_refusals.specs.Twice.{some_next, with_root, keys_of, is_same_key, SortedTwice};

use keys::key_in;
use sorting::sort;

// Whether two neighbours have one key.
fn some_next(places: &[u64]) -> bool
    ensures { result ≡ some_next places.now }
{
    places
        .iter()
        .zip(places.iter().skip(1))
        .any(|(&place, &next)| key_in(place) == key_in(next))
}

// Whether the series of a place stands again among others, with its root.
fn stands_again(place: u64, root: u64, places: &[u64], roots: &[u64]) -> bool
    ensures { result ≡ any (is_same_key (with_root place root)) (keys_of places.now roots.now) }
{
    let key = key_in(place);
    places.iter().zip(roots).any(|(&other, &other_root)| key == key_in(other) && root == other_root)
}

// Whether some two have one key and one root.
#[tactic(auto, using(crate::proofs::Laws::two_none))]
fn some_two(places: &[u64], roots: &[u64]) -> bool
    requires { length roots.now ≡ length places.now }
    ensures { result ≡ some_pair is_same_key (keys_of places.now roots.now) }
{
    for i in 0..places.len() {
        if stands_again(places[i], roots[i], &places[i + 1..], &roots[i + 1..]) {
            return true;
        }
    }
    false
}

// Sorts the places, unless roots differ, and says whether a series stands twice. Once sorted, a series that stands
// twice stands in neighbours. A place does not say its root: where roots differ every two legs are compared.
#[tactic(auto, using(crate::proofs::Laws::of_several, crate::proofs::Laws::of_one))]
pub fn sorted_twice(places: &mut [u64], roots: &[u64], other: bool) -> bool
    requires { (length places.old ≤ 16) × (length roots.now ≡ length places.old) }
    ensures { SortedTwice other places.old roots.now places.new result }
{
    if other {
        some_two(places, roots)
    } else {
        sort(places);
        some_next(places)
    }
}
