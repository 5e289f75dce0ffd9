// The legs of an order record as arrays of numbers, and the refusals that reading finds.
#![tactic(auto)]

ghost use Rattle.std.specs.Prelude.{◌≡◌, take, IfOk};
ghost use Rattle.rules.specs.Numbers.{first_of};
ghost use Rattle.answers.specs.Answers.{refusal_number, number_of};
ghost use Rattle.reading.specs.Legs.{read_refusals, GoodRead};

use amounts::within;
use answers::{Refusal, fail_if};
use keys::place_of;
use leg_tag::tag_at;
use root_number::root_of;
use rules::RawLeg;

// What reading an order's legs says beside the arrays.
#[derive(Clone, Copy)]
pub struct Read {
    // A root is not the first leg's.
    pub other: bool,
    pub len: usize,
}

// Each symbol is read once, and a root that is the first leg's is not tested again. A bad count does not end the loop,
// since a symbol that stands behind it may be outside the layout, which is the lower number.
#[tactic(auto, unfolding(rules::specs::Numbers::first_of))]
pub fn read_legs(
    legs: &[RawLeg; 16],
    n: usize,
    places: &mut [u64; 16],
    sizes: &mut [u64; 16],
    roots: &mut [u64; 16],
) -> Result<Read, Refusal>
    ensures number { number_of refusal_number result ≡ first_of (read_refusals n (take n legs.now)) }
    ensures good { IfOk result (GoodRead legs.now n places.new sizes.new roots.new) }
{
    fail_if(!within(1, 16, n as u64), Refusal::BadLegCount)?;
    let some = &legs[..n];
    let mut known = None;
    let mut other = false;
    let mut bad = false;
    for (i, raw) in some.iter().enumerate() {
        let root = root_of(&raw.symbol[..6]);
        let tag = tag_at(known, root, &raw.symbol, raw.bought).ok_or(Refusal::BadSymbol)?;
        places[i] = place_of(tag, i);
        sizes[i] = raw.size;
        roots[i] = root;
        known = Some(roots[0]);
        other |= roots[0] != root;
        bad |= !within(1, 10000, raw.size);
    }
    fail_if(bad, Refusal::BadCount)?;
    Ok(Read { other, len: n })
}
