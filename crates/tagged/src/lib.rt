// A walk on numbers, for the code that walks: a tag and the open contracts stand for a leg, a tally for the pairs. Laws
// only; the functions are in the crates that use them.
#![tactic(auto)]

// What is known of the pairs: their number, and whether one was a debit or a credit.
#[derive(Clone, Copy)]
pub struct PairTally {
    pub pairs: u64,
    pub debit: bool,
    pub credit: bool,
}

// What is known after a leg: the pairs of each class, and of the group being walked the open contracts, bought less sold.
#[derive(Clone, Copy)]
pub struct Step {
    pub debits: u64,
    pub credits: u64,
    pub group: u64,
    pub figure: i64,
}
