// The entries for a host in C: numbers and slices in, every lent number set on every call.
#![tactic(auto)]

pub mod crossings;
pub mod messages;
pub mod orders;
pub mod pairs;
pub mod quotes;
pub mod session_messages;
pub mod session_orders;
pub mod sessions;
pub mod symbols;
pub mod tallied_messages;
pub mod tallies;
