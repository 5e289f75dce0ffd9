// The types of documents 01 and 02. What they mean is in specs/.
#![tactic(auto)]

// A price, a strike or another amount of money, in thousandths of a dollar.
#[derive(Clone, Copy)]
pub struct Mills(pub u64);

// A distance, as a number of ticks. A tick's size is in Mills.
#[derive(Clone, Copy)]
pub struct Ticks(pub u64);

// The parts of an option symbol. Any value may stand in a field: what is in the layout is said by `in_layout`.
#[derive(Clone, Copy)]
pub struct SymbolParts {
    // The root's six bytes as one number, the first byte highest.
    pub root: u64,
    pub year: u64,
    pub month: u64,
    pub day: u64,
    // The option's type: the byte C for a call, P for a put.
    pub right: u64,
    pub strike: Mills,
}

// What the symbol reader answers: the number, and the parts where it is 0, else zeros.
#[derive(Clone, Copy)]
pub struct SymbolRead {
    pub number: u64,
    pub parts: SymbolParts,
}

// One leg as it arrives: the count's size and side, and 21 symbol bytes, whatever they hold. A count of 0
// in the host's slices is bought, of size 0.
#[derive(Clone, Copy)]
pub struct RawLeg {
    pub size: u64,
    pub bought: bool,
    pub symbol: [u8; 21],
}

// The price for one unit: paid, or received where it is negative. A size of 0 is zero either way.
#[derive(Clone, Copy)]
pub struct Price {
    pub received: bool,
    pub size: Mills,
}

// The shares attached to an order: the share count's size and side. A size of 0 is no shares, on either side.
#[derive(Clone, Copy)]
pub struct Shares {
    pub size: u64,
    pub bought: bool,
}

// What an order says beside its legs. Kind: 0 is limit, any other value market. Flags: 0 is no, any other value yes.
#[derive(Clone, Copy)]
pub struct Terms {
    pub price: Price,
    pub kind: u64,
    pub stop: u64,
    pub manual: u64,
    pub opening: u64,
    pub shares: Shares,
}

// An order record: up to 16 legs. A greater length is an input like any other.
#[derive(Clone, Copy)]
pub struct Order {
    pub legs: [RawLeg; 16],
    pub len: usize,
    pub terms: Terms,
}

// An option series of one root: its type, its expiry as one number (year, month, day), and its strike.
#[derive(Clone, Copy)]
pub struct Series {
    pub call: bool,
    pub expiry: u64,
    pub strike: Mills,
}

// A leg as read.
#[derive(Clone, Copy)]
pub struct Leg {
    pub root: u64,
    pub series: Series,
    pub bought: bool,
    pub size: u64,
}

// The exchange's settings. Switches and the last two: 0 is no, any other value yes.
#[derive(Clone, Copy)]
pub struct Settings {
    pub check20: u64,
    pub check21: u64,
    pub check22: u64,
    pub check23: u64,
    pub check24: u64,
    pub check25: u64,
    pub check26: u64,
    // The tick where the reference is below 3,000, and from there.
    pub lowtick: Mills,
    pub hightick: Mills,
    pub increment: Mills,
    // The acceptable tick distances for a reference below 1,000, to 2,999, to 9,999, and from 10,000.
    pub atd0: Ticks,
    pub atd1: Ticks,
    pub atd2: Ticks,
    pub atd3: Ticks,
    pub percentage: u64,
    // The presets of check 24.
    pub presetminimum: Mills,
    pub presetmaximum: Mills,
    pub setticks: Ticks,
    pub adjusted: u64,
    pub european: u64,
}

// The market's values. Phase: 0 pre-opening, 1 open, 2 halt. Open elsewhere, extended hours: 0 is no, any other value
// yes. Amounts: 0 is missing.
#[derive(Clone, Copy)]
pub struct Market {
    pub phase: u64,
    pub elsewhere: u64,
    pub extended: u64,
    pub underlying: Mills,
    pub nbb: Mills,
    pub nbo: Mills,
    pub ownbid: Mills,
    pub ownoffer: Mills,
    pub close: Mills,
}

// What the order check answers. Class: 1 debit, 2 credit, 0 undetermined. Shape: 1 to 4, 0 other.
#[derive(Clone, Copy)]
pub struct OrderAnswer {
    pub number: u64,
    pub class: u64,
    pub shape: u64,
    pub pairings: u64,
}

// What the quote check answers. Cancel: 1 where the resting quote is to be cancelled, else 0.
#[derive(Clone, Copy)]
pub struct QuoteAnswer {
    pub number: u64,
    pub cancel: u64,
}

// What a crossing quote gets beside its fills: the quote check's answer, and of its size the part that executes, the
// part that is booked and the part that is cancelled.
#[derive(Clone, Copy)]
pub struct CrossingAnswer {
    pub number: u64,
    pub cancel: u64,
    pub executed: u64,
    pub booked: u64,
    pub cancelled: u64,
}

// A tally of order checks.
#[derive(Clone, Copy)]
pub struct Tally {
    pub seen: u64,
    pub refused: u64,
    pub accepted: u64,
    pub rejected: u64,
}

// What the tallied check answers, and the tally after it.
#[derive(Clone, Copy)]
pub struct TalliedAnswer {
    pub answer: OrderAnswer,
    pub tally: Tally,
}

// A login of a session: its limit of rejections, its tally, and its rejections since the start or its last release.
#[derive(Clone, Copy)]
pub struct Login {
    pub limit: u64,
    pub tally: Tally,
    pub running: u64,
}

// One order of a pair: its own number, and 1 where it passes, else 0.
#[derive(Clone, Copy)]
pub struct PairSide {
    pub number: u64,
    pub passes: u64,
}

// What the check on a pair answers.
#[derive(Clone, Copy)]
pub struct PairAnswer {
    pub agency: PairSide,
    pub contra: PairSide,
}
