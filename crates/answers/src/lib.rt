// What the checks answer, in the code's own terms: why a call is refused, which price check rejects, class and shape.
// Each has the number that document 01 or 02 gives it.
#![tactic(auto)]

ghost use Rattle.std.specs.Prelude.{◌≡◌, cond, Ok, Err, MatchResult};
ghost use Rattle.answers.specs.Answers.{refusal_number, check_number, class_number, shape_number, answer_said, quote_said};

use rules::{OrderAnswer, QuoteAnswer};

// Why a call is refused.
#[derive(Clone, Copy, PartialEq, Eq, Drop)]
pub enum Refusal {
    Not21Bytes = 1,
    ShortBuffer = 2,
    BadLegCount = 3,
    BadSymbol = 4,
    BadCount = 5,
    SeriesTwice = 6,
    RootsDiffer = 7,
    BadPrice = 8,
    BadSetting = 9,
    BadMarket = 10,
    BadQuote = 11,
    BadTally = 12,
    BadFrame = 30,
    BadTag = 31,
    BadValue = 32,
    BadShares = 33,
    BadLogin = 34,
    RestrictedLogin = 35,
    BadCrossing = 36,
}

// A price check.
#[derive(Clone, Copy, PartialEq, Eq, Drop)]
pub enum Check {
    Put = 20,
    Call = 21,
    BuyBuy = 22,
    DebitCredit = 23,
    MaximumValue = 24,
    TickDistance = 25,
    QuoteInversion = 26,
}

#[derive(Clone, Copy, PartialEq, Eq, Drop)]
pub enum Class {
    Undetermined = 0,
    Debit = 1,
    Credit = 2,
}

#[derive(Clone, Copy, PartialEq, Eq, Drop)]
pub enum Shape {
    Other = 0,
    Vertical = 1,
    TrueButterfly = 2,
    SkewedButterfly = 3,
    Box = 4,
}

impl From<Refusal> for u64 {
    ghost from_gives = { λ e n. n ≡ refusal_number e };

    fn from(refusal: Refusal) -> u64 {
        refusal as u64
    }
}

impl From<Check> for u64 {
    ghost from_gives = { λ c n. n ≡ check_number c };

    fn from(check: Check) -> u64 {
        check as u64
    }
}

impl From<Class> for u64 {
    ghost from_gives = { λ c n. n ≡ class_number c };

    fn from(class: Class) -> u64 {
        class as u64
    }
}

impl From<Shape> for u64 {
    ghost from_gives = { λ s n. n ≡ shape_number s };

    fn from(shape: Shape) -> u64 {
        shape as u64
    }
}

// A valid order as judged. The verdict's error is the first check that rejects it.
#[derive(Clone, Copy)]
pub struct Judged {
    pub verdict: Result<(), Check>,
    pub class: Class,
    pub shape: Shape,
    pub pairings: u64,
}

// What an order check answers.
pub type Answer = Result<Judged, Refusal>;

// A valid quote as judged, and whether the resting quote is to be cancelled.
#[derive(Clone, Copy)]
pub struct JudgedQuote {
    pub verdict: Result<(), Check>,
    pub cancel: bool,
}

// What the quote check answers.
pub type AnswerToQuote = Result<JudgedQuote, Refusal>;

// The number of what failed, 0 where nothing did.
pub fn number<E: Into<u64>>(r: Result<(), E>) -> u64
    ensures { MatchResult r (λ _. result ≡ 0) (λ e. E.converts e result) }
{
    match r {
        Ok(()) => 0,
        Err(e) => e.into(),
    }
}

// An answer in numbers. A refusal has no class, shape or pairings.
pub fn said(answer: Answer) -> OrderAnswer
    ensures { result ≡ answer_said answer }
{
    match answer {
        Ok(j) => OrderAnswer {
            number: number(j.verdict),
            class: u64::from(j.class),
            shape: u64::from(j.shape),
            pairings: j.pairings,
        },
        Err(e) => OrderAnswer {
            number: u64::from(e),
            class: 0,
            shape: 0,
            pairings: 0,
        },
    }
}

// An answer in numbers, lent to a host: the number is the result.
pub fn lend(answer: Answer, class: &mut u64, shape: &mut u64, pairings: &mut u64) -> u64
    ensures { record { number = result; class = class.new; shape = shape.new; pairings = pairings.new } ≡ answer_said answer }
{
    let said = said(answer);
    *class = said.class;
    *shape = said.shape;
    *pairings = said.pairings;
    said.number
}

// A quote's answer in numbers. A refusal cancels nothing.
pub fn said_of_quote(answer: AnswerToQuote) -> QuoteAnswer
    ensures { result ≡ quote_said answer }
{
    match answer {
        Ok(j) => QuoteAnswer {
            number: number(j.verdict),
            cancel: u64::from(j.cancel),
        },
        Err(refusal) => QuoteAnswer {
            number: u64::from(refusal),
            cancel: 0,
        },
    }
}

// The error where a test applies: of refusals and of checks alike.
pub fn fail_if<E: Drop>(test: bool, e: E) -> Result<(), E>
    ensures { result ≡ cond test (Err e) (Ok tt) }
{
    if test { Err(e) } else { Ok(()) }
}
