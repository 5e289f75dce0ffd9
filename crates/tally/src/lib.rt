// A tally: its own test, and what it makes of the answer to an order.
#![tactic(auto)]

ghost use Rattle.std.specs.Prelude.{◌≡◌, false};
ghost use Rattle.rules.specs.Kinds.{is_rejected};
ghost use Rattle.rules.specs.Tally.{is_broken, is_bad_tally, counted, tallied};
ghost use Rattle.answers.specs.Answers.{answer_said};

use answers::{Answer, Refusal, fail_if, said};
use rules::{OrderAnswer, TalliedAnswer, Tally};

// Not the sum of its parts. The three together might not fit a word, so they are taken from what was seen.
#[tactic(auto, unfolding(rules::specs::Tally::is_broken))]
pub fn is_broken(t: Tally) -> bool
    ensures { result ≡ is_broken t }
{
    let unrefused = t.seen.checked_sub(t.refused);
    unrefused.and_then(|n| n.checked_sub(t.accepted)) != Some(t.rejected)
}

// Full, or broken.
#[tactic(auto, unfolding(rules::specs::Tally::is_bad_tally))]
fn is_bad_tally(t: Tally) -> bool
    ensures { result ≡ is_bad_tally t }
{
    1000000 <= t.seen || is_broken(t)
}

// Whether a number is a price check's.
pub fn is_rejected(number: u64) -> bool
    ensures { result ≡ is_rejected number }
{
    matches!(number, 20..=26)
}

// Whether a price check rejects.
pub fn is_rejected_answer(answer: Answer) -> bool
    ensures { result ≡ is_rejected (answer_said answer).number }
{
    is_rejected(said(answer).number)
}

// One more seen, and one more of the number's kind.
#[tactic(auto, unfolding(rules::specs::Tally::is_bad_tally, rules::specs::Tally::is_broken, rules::specs::Tally::counted))]
pub fn counted(mut t: Tally, number: u64) -> Tally
    requires { is_bad_tally t ≡ false }
    ensures { result ≡ counted t number }
{
    t.seen += 1;
    match number {
        0 => t.accepted += 1,
        n if is_rejected(n) => t.rejected += 1,
        _ => t.refused += 1,
    }
    t
}

// One more seen, and one more of the answer's kind.
pub fn counted_answer(t: Tally, answer: Answer) -> Tally
    requires { is_bad_tally t ≡ false }
    ensures { result ≡ counted t (answer_said answer).number }
{
    counted(t, said(answer).number)
}

// The answer, counted. A tally that is full, or not the sum of its parts, stays as it came.
#[tactic(auto, unfolding(rules::specs::Tally::tallied))]
pub fn tallied(tally: Tally, answer: OrderAnswer) -> TalliedAnswer
    ensures { result ≡ tallied tally answer }
{
    if is_bad_tally(tally) {
        TalliedAnswer {
            answer: said(Err(Refusal::BadTally)),
            tally,
        }
    } else {
        TalliedAnswer {
            answer,
            tally: counted(tally, answer.number),
        }
    }
}

// The same in the code's own terms, and of a tally that is lent.
#[tactic(auto, unfolding(rules::specs::Tally::tallied))]
pub fn tally_answer(tally: &mut Tally, answer: Answer) -> Answer
    ensures { record { answer = answer_said result; tally = tally.new } ≡ tallied tally.old (answer_said answer) }
{
    fail_if(is_bad_tally(*tally), Refusal::BadTally)?;
    *tally = counted_answer(*tally, answer);
    answer
}

// The answer, counted in a tally that is lent number by number, and lent itself: the number is the result.
pub fn lend_tallied(
    answer: Answer,
    class: &mut u64,
    shape: &mut u64,
    pairings: &mut u64,
    seen: &mut u64,
    refused: &mut u64,
    accepted: &mut u64,
    rejected: &mut u64,
) -> u64
    ensures { record { answer = record { number = result; class = class.new; shape = shape.new; pairings = pairings.new }; tally = record { seen = seen.new; refused = refused.new; accepted = accepted.new; rejected = rejected.new } } ≡ tallied (record { seen = seen.old; refused = refused.old; accepted = accepted.old; rejected = rejected.old }) (answer_said answer) }
{
    let before = Tally {
        seen: *seen,
        refused: *refused,
        accepted: *accepted,
        rejected: *rejected,
    };
    let after = tallied(before, said(answer));
    *class = after.answer.class;
    *shape = after.answer.shape;
    *pairings = after.answer.pairings;
    *seen = after.tally.seen;
    *refused = after.tally.refused;
    *accepted = after.tally.accepted;
    *rejected = after.tally.rejected;
    after.answer.number
}
