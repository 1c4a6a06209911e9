//! All differences of the auctions of two canonical files.

mod auctions;
mod bidder_changes;
mod change;
mod excess;
mod holders;
mod partners;

pub use auctions::all_differences;
pub use change::{BidderChange, Differences};
