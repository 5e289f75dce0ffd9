// One walk over legs that are listed latest walked first, each by its tag in the walk's sequence (crate `keys`). A signed
// figure says what is open in the group being walked, bought less sold: it leads the search for a match.
#![tactic(auto)]

ghost use Rattle.std.specs.Prelude.{◌≡◌, true, ◌+◌, ◌<◌, length, get_or};
ghost use Rattle.rules.specs.OpenContracts.{sign, shows_other};
ghost use Rattle.keys.specs.Tags.{is_bought};
ghost use Rattle.tagged.specs.Tags.{tally_of, InSequence, Counts, OneSideOpen, Stands, Reaches, Walks};

use figure::{adjusted, begun, shows_other};
use keys::{group_of, sign_of};
use matching::meet;
use tagged::{PairTally, Step};

// The leg at i is matched with those behind it, while it has contracts left and the figure shows the other side: the
// next of them is then of its group, and what that has open is of the other side.
fn search(tags: &[u64], left: &mut [u64], i: usize, s: Step) -> Step
    requires in_sequence { InSequence tags.now left.old × (i < length tags.now) × (s.debits + s.credits < 900) }
    requires counts { Counts tags.now left.old i (i + 1) s.figure × OneSideOpen tags.now left.old i
        × (shows_other s.figure (sign (is_bought (get_or tags.now i 0))) ≡ true) }
    ensures reaches { Reaches tags.now left.old left.new i (tally_of s) (tally_of result) }
    ensures counts_after { Counts tags.now left.new i (i + 1) result.figure × (result.group ≡ s.group) }
{
    let sign = sign_of(tags[i]);
    let mut x = left[i];
    let mut r = s;
    for at in i + 1..tags.len() {
        if x == 0 || !shows_other(r.figure, sign) {
            break;
        }
        let m = x.min(left[at]);
        // A leg of the group that has nothing left is passed.
        if m != 0 {
            r = meet(tags, left, i, at, m, r);
            x -= m;
        }
    }
    left[i] = x;
    r
}

// What the leg at i finds: it searches where the figure shows the other side, and else finds nothing.
fn find(tags: &[u64], left: &mut [u64], i: usize, s: Step) -> Step
    requires in_sequence { InSequence tags.now left.old × (i < length tags.now) × (s.debits + s.credits < 900) }
    requires counts { Counts tags.now left.old i (i + 1) s.figure × OneSideOpen tags.now left.old i }
    ensures reaches { Reaches tags.now left.old left.new i (tally_of s) (tally_of result) }
    ensures counts_after { Counts tags.now left.new i (i + 1) result.figure × (result.group ≡ s.group) }
{
    if shows_other(s.figure, sign_of(tags[i])) {
        search(tags, left, i, s)
    } else {
        s
    }
}

// The leg at i is reached, after all that stand behind it. What it has left is open from then on.
fn reach(tags: &[u64], left: &mut [u64], i: usize, s: Step) -> Step
    requires in_sequence { InSequence tags.now left.old × (i < length tags.now) × (s.debits + s.credits < 900) }
    requires stands { Stands tags.now left.old (i + 1) s × OneSideOpen tags.now left.old i }
    ensures reaches { Reaches tags.now left.old left.new i (tally_of s) (tally_of result) }
    ensures stands_after { Stands tags.now left.new i result }
{
    let tx = tags[i];
    let sign = sign_of(tx);
    let group = group_of(tx);
    let f = begun(s.figure, s.group, group);
    let first = Step {
        group,
        figure: f,
        ..s
    };
    let r = find(tags, left, i, first);
    Step {
        figure: adjusted(r.figure, sign, left[i]),
        ..r
    }
}

// The walk over the legs: from the last to the first.
pub fn walk(tags: &[u64], left: &mut [u64]) -> PairTally
    requires { InSequence tags.now left.old }
    ensures { Walks tags.now left.old left.new result }
{
    let mut s = Step {
        debits: 0,
        credits: 0,
        group: 0,
        figure: 0,
    };
    for i in (0..tags.len()).rev() {
        s = reach(tags, left, i, s);
    }
    PairTally {
        pairs: s.debits + s.credits,
        debit: 0 < s.debits,
        credit: 0 < s.credits,
    }
}
