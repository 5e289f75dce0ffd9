// Loners beside pairs, and the class that both give.
#![tactic(auto)]

ghost use Rattle.std.specs.Prelude.{◌≡◌, ◌≤◌};
ghost use Rattle.answers.specs.Answers.{class_number};
ghost use Rattle.loners.specs.Tallies.{alone_at, tally_class, joined_tallies, alone_in};

use answers::Class;
use keys::is_bought;
use tagged::PairTally;

// The tally after a leg that is left with some contracts, or none.
#[tactic(auto, unfolding(crate::specs::Tallies::alone_at))]
fn lone(t: PairTally, tag: u64, left: u64) -> PairTally
    ensures { result ≡ alone_at t tag left }
{
    let open = left != 0;
    let bought = is_bought(tag);
    PairTally {
        debit: t.debit || open && bought,
        credit: t.credit || open && !bought,
        ..t
    }
}

// The tally with the loners among the legs.
pub fn loners(t: PairTally, tags: &[u64], left: &[u64]) -> PairTally
    ensures { result ≡ alone_in t tags.now left.now }
{
    tags.iter()
        .zip(left)
        .fold(t, |r, (tag, n)| lone(r, *tag, *n))
}

// Two tallies as one.
pub fn joined(a: PairTally, b: PairTally) -> PairTally
    requires { (a.pairs ≤ 1000) × (b.pairs ≤ 1000) }
    ensures { result ≡ joined_tallies a b }
{
    PairTally {
        pairs: a.pairs + b.pairs,
        debit: a.debit || b.debit,
        credit: a.credit || b.credit,
    }
}

// The class that pairs and loners give: a debit where there is no credit.
pub fn pair_class(t: PairTally) -> Class
    ensures { class_number result ≡ tally_class t }
{
    if !t.credit {
        Class::Debit
    } else if t.debit {
        Class::Undetermined
    } else {
        Class::Credit
    }
}
