// Which of the two orders of an auction pair pass: document 02, S-2.
#![tactic(auto)]

ghost use Rattle.std.specs.Prelude.{◌≡◌};
ghost use Rattle.rules.specs.Kinds.{is_accepted};
ghost use Rattle.rules.specs.Pair.{paired};
ghost use Rattle.answers.specs.Answers.{answer_said};

use answers::{Answer, said};
use rules::{PairAnswer, PairSide};

// Neither refused nor rejected.
fn is_accepted(number: u64) -> bool
    ensures { result ≡ is_accepted number }
{
    number == 0
}

// By the two orders' own numbers, and the mark to continue unpaired.
#[tactic(auto, unfolding(rules::specs::Pair::paired))]
pub fn paired(unpaired: u64, agency: u64, contra: u64) -> PairAnswer
    ensures { result ≡ paired unpaired agency contra }
{
    let pass = is_accepted(agency) && is_accepted(contra);
    let alone = unpaired != 0 && is_accepted(agency) && !is_accepted(contra);
    PairAnswer {
        agency: PairSide {
            number: agency,
            passes: u64::from(pass || alone),
        },
        contra: PairSide {
            number: contra,
            passes: u64::from(pass),
        },
    }
}

// By the two orders' own answers.
pub fn paired_answers(unpaired: u64, agency: Answer, contra: Answer) -> PairAnswer
    ensures { result ≡ paired unpaired (answer_said agency).number (answer_said contra).number }
{
    paired(unpaired, said(agency).number, said(contra).number)
}
