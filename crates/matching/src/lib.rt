// One match of two legs of a group: what it leaves, the pair that it makes, and the figure.
#![tactic(auto)]

ghost use Rattle.std.specs.Prelude.{◌≡◌, true, ◌+◌, ◌≤◌, ◌<◌, length, get_or};
ghost use Rattle.rules.specs.OpenContracts.{sign, shows_other};
ghost use Rattle.keys.specs.Tags.{is_bought};
ghost use Rattle.tagged.specs.Tags.{matched_at, after_match, InSequence, Counts, Meets};

use figure::adjusted;
use keys::{is_bought, sign_of};
use tagged::Step;

// The step after a match.
fn after_match(s: Step, debit: bool, figure: i64) -> Step
    requires { s.debits + s.credits < 1000 }
    ensures { result ≡ after_match s debit figure }
{
    Step {
        debits: s.debits + u64::from(debit),
        credits: s.credits + u64::from(!debit),
        figure,
        ..s
    }
}

// The leg at i is matched with the one at `at`, m contracts of each. No match is made but where the figure shows the
// other side: the code has no use for that, the contract asks for it. Both walks go from the dearer series to the
// cheaper, so the leg at i is the cheaper one, and the pair is a debit where it is sold.
pub fn meet(tags: &[u64], left: &mut [u64], i: usize, at: usize, m: u64, s: Step) -> Step
    requires in_sequence { InSequence tags.now left.old × (i < at) × (at < length tags.now) × (s.debits + s.credits < 1000) }
    requires matched { (1 ≤ m)
        × (matched_at (get_or tags.now i 0) m (get_or tags.now at 0) (get_or left.old at 0) ≡ m)
        × Counts tags.now left.old i (i + 1) s.figure
        × (shows_other s.figure (sign (is_bought (get_or tags.now i 0))) ≡ true) }
    ensures { Meets tags.now left.old left.new i at m s result }
{
    let tx = tags[i];
    let y = left[at];
    left[at] = y - m;
    let f = adjusted(s.figure, sign_of(tx), m);
    after_match(s, !is_bought(tx), f)
}
