//! Tests of `valuation` and `prune`, on worked rows.

mod auctions;
pub mod bids;
mod fates;
mod pruning;
mod values;
