//! What can be said of a file's bids beside its canonical text: why each is kept or dropped, how two auctions differ, the
//! greatest revenue of a file, and its winner determination problem as a text.
#![tactic(auto)]

pub mod differences;
pub mod laws;
pub mod reasons;
pub mod winners;
pub mod worked;
