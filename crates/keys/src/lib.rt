// A leg as one number, its tag, and the legs of an order as arrays of numbers. Sorted by their tags they stand in the
// first walk's sequence; groups, sides and series are read off the tags.
#![tactic(auto)]

ghost use Rattle.std.specs.Prelude.{◌≡◌, false, ◌+◌, ◌*◌, ◌%◌, ◌≤◌, ◌<◌, length};
ghost use Rattle.rules.specs.Lists.{All};
ghost use Rattle.rules.specs.Pairing.{digit};
ghost use Rattle.rules.specs.OpenContracts.{sign};
ghost use Rattle.rules.specs.Valid.{InRange};
ghost use Rattle.keys.specs.Tags.{packed, key_of, series_at, is_bought, group_of, leg_at, second_tag, place_of, key_in, Arranged};

use rules::{Leg, Mills, Series};

// A type and two numbers of eight digits as one number, which is in their order.
fn packed(call: bool, middle: u64, low: u64) -> u64
    requires { (middle ≤ 99999999) × (low ≤ 99999999) }
    ensures { result ≡ packed (digit call) middle low }
{
    (u64::from(call) * 100000000 + middle) * 100000000 + low
}

// The tag of the first walk.
pub fn tag_of(s: Series, bought: bool) -> u64
    requires { InRange s }
    ensures { (result ≡ key_of false s * 2 + digit bought) × (result < 40000000000000000) }
{
    let low = if s.call {
        99999999 - s.strike.0
    } else {
        s.strike.0
    };
    packed(s.call, s.expiry, low) * 2 + u64::from(bought)
}

// Whether the leg of a tag is bought.
pub fn is_bought(tag: u64) -> bool
    ensures { result ≡ is_bought tag }
{
    tag % 2 == 1
}

// The sign of a tag's side: 1 for bought, -1 for sold.
pub fn sign_of(tag: u64) -> i64
    ensures { result ≡ sign (is_bought tag) }
{
    if is_bought(tag) { 1 } else { -1 }
}

// What the legs that are walked together have in common.
pub fn group_of(tag: u64) -> u64
    ensures { result ≡ group_of tag }
{
    tag / 200000000
}

// The series that a key of the first walk says.
#[tactic(auto, unfolding(crate::specs::Tags::series_at))]
fn series_at(key: u64) -> Series
    ensures series { result ≡ series_at false key }
    ensures in_range { InRange result }
{
    let call = key / 10000000000000000 == 1;
    let low = key % 100000000;
    Series {
        call,
        expiry: key / 100000000 % 100000000,
        strike: Mills(if call { 99999999 - low } else { low }),
    }
}

// The tag of the second walk, from that of the first. Of one strike the nearest expiry, which is walked last, has the
// least.
#[tactic(auto, using(crate::proofs::Keys::side_says))]
pub fn second_tag(tag: u64) -> u64
    requires { tag < 40000000000000000 }
    ensures { (result ≡ second_tag tag) × (result < 40000000000000000) }
{
    let s = series_at(tag / 2);
    packed(s.call, s.strike.0, s.expiry) * 2 + tag % 2
}

// The leg of a tag of the first walk. No check asks for its root.
pub fn leg_at(tag: u64, size: u64) -> Leg
    ensures { result ≡ leg_at 0 false tag size }
{
    Leg {
        root: 0,
        series: series_at(tag / 2),
        bought: is_bought(tag),
        size,
    }
}

// A place: a tag, and in the lowest four bits where its leg came. Sorting places sorts the legs.
pub fn place_of(tag: u64, at: usize) -> u64
    requires { (tag < 40000000000000000) × (at < 16) }
    ensures { result ≡ place_of tag at }
{
    tag * 16 + at as u64
}

// The key of a place's series, whatever the side.
pub fn key_in(place: u64) -> u64
    ensures { result ≡ key_in place }
{
    place / 32
}

// Tags and contracts in the sequence of sorted places: each place becomes its tag, and the contracts of its leg are put
// beside it.
pub fn arrange(places: &mut [u64], sizes: &[u64], left: &mut [u64])
    requires beside { length left.old ≡ length places.old }
    requires within { All (λ p. p % 16 < length sizes.now) places.old }
    ensures { Arranged places.old sizes.now places.new left.new }
{
    for (i, place) in places.iter_mut().enumerate() {
        left[i] = sizes[(*place % 16) as usize];
        *place /= 16;
    }
}
