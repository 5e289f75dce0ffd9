// A crossing quote, by the quote check's answer: its number, and what it would execute.
#![tactic(auto)]

ghost use Rattle.std.specs.Prelude.{◌≡◌, not, ◌≤◌, length, replicate};
ghost use Rattle.rules.specs.Order.{is_yes};
ghost use Rattle.rules.specs.Crossing.{crossing_price, unexecuted, execution};
ghost use Rattle.answers.specs.Answers.{quote_said};
ghost use Rattle.resting.specs.Lent.{lent};
ghost use Rattle.crossing.specs.ByQuote.{crossed_by};
ghost use Rattle.crossing.specs.Said.{crossed_said};

use answers::{AnswerToQuote, Check, Refusal, fail_if};
use execution::{fill, furthest, is_booked};
use resting::{Crossing, is_bad_crossing, is_bought};
use rules::{CrossingAnswer, Mills, QuoteAnswer};
use sides::Quote;

// The parts of an accepted crossing quote's size.
#[derive(Clone, Copy)]
pub struct Parts {
    pub executed: u64,
    pub booked: u64,
    pub cancelled: u64,
}

// A valid crossing quote as judged. With the check that rejects it, whether the resting quote is to be cancelled.
#[derive(Clone, Copy)]
pub enum Crossed {
    Accepted(Parts),
    Rejected(Check, bool),
}

// What the check on a crossing quote answers.
pub type AnswerToCrossing = Result<Crossed, Refusal>;

// Nothing executes.
fn unexecuted(number: u64, cancel: u64) -> CrossingAnswer
    ensures { result ≡ unexecuted number cancel }
{
    CrossingAnswer {
        number,
        cancel,
        executed: 0,
        booked: 0,
        cancelled: 0,
    }
}

// A crossing quote's answer in numbers. A refusal cancels nothing, and what is not accepted executes nothing.
pub fn said_of_crossing(answer: AnswerToCrossing) -> CrossingAnswer
    ensures { result ≡ crossed_said answer }
{
    match answer {
        Ok(Crossed::Accepted(parts)) => CrossingAnswer {
            number: 0,
            cancel: 0,
            executed: parts.executed,
            booked: parts.booked,
            cancelled: parts.cancelled,
        },
        Ok(Crossed::Rejected(check, cancel)) => unexecuted(u64::from(check), u64::from(cancel)),
        Err(refusal) => unexecuted(u64::from(refusal), 0),
    }
}

// The price of the side that crosses.
fn crossing_price(bought: bool, q: Quote) -> Mills
    ensures { result ≡ crossing_price bought q.bid q.offer }
{
    if bought { q.bid } else { q.offer }
}

// Fills the list, of which nothing is filled yet; the remainder of the size is booked or cancelled.
fn execute(q: Quote, c: Crossing, fills: &mut [u64]) -> Parts
    requires { (length c.sizes.now ≡ length c.prices.now) × (length c.prices.now ≤ length fills.old) × (fills.old ≡ replicate (length fills.old) 0) }
    ensures { record { answer = crossed_said (Ok (Crossed.Accepted result)); fills = fills.new } ≡ execution (length fills.old) (crossing_price (not (is_yes c.entry.sell)) q.bid q.offer) (lent c.entry) }
{
    let bought = is_bought(c.sell);
    let price = crossing_price(bought, q);
    let booked = is_booked(bought, price, c.away);
    let left = fill(bought, furthest(booked, price, c.away), c, fills);
    let (booked, cancelled) = if booked { (left, 0) } else { (0, left) };
    Parts {
        executed: c.size - left,
        booked,
        cancelled,
    }
}

// Every fill 0.
fn clear(fills: &mut [u64])
    ensures { fills.new ≡ replicate (length fills.old) 0 }
{
    fills.fill(0);
}

// What a crossing quote gets, by the quote check's answer. What comes with it counts only where that check does not
// refuse, and it executes only where that check accepts.
#[tactic(auto, using(rules::proofs::Executing::good_lengths), unfolding(crate::specs::ByQuote::crossed_by))]
pub fn cross(answer: QuoteAnswer, q: Quote, c: Crossing, fills: &mut [u64]) -> CrossingAnswer
    ensures { record { answer = result; fills = fills.new } ≡ crossed_by answer q.bid q.offer (lent c.entry) (length fills.old) }
{
    clear(fills);
    match answer.number {
        0 | 20..=26 if is_bad_crossing(fills.len(), c) => unexecuted(36, 0),
        0 => said_of_crossing(Ok(Crossed::Accepted(execute(q, c, fills)))),
        number => unexecuted(number, answer.cancel),
    }
}

// The same in the code's own terms.
#[tactic(auto, using(rules::proofs::Executing::good_lengths, answers::proofs::Laws::refusal_refuses, answers::proofs::Laws::check_rejects), unfolding(crate::specs::ByQuote::crossed_by))]
pub fn cross_answer(
    answer: AnswerToQuote,
    q: Quote,
    c: Crossing,
    fills: &mut [u64],
) -> AnswerToCrossing
    ensures { record { answer = crossed_said result; fills = fills.new } ≡ crossed_by (quote_said answer) q.bid q.offer (lent c.entry) (length fills.old) }
{
    clear(fills);
    let judged = answer?;
    fail_if(is_bad_crossing(fills.len(), c), Refusal::BadCrossing)?;
    Ok(match judged.verdict {
        Ok(()) => Crossed::Accepted(execute(q, c, fills)),
        Err(check) => Crossed::Rejected(check, judged.cancel),
    })
}
