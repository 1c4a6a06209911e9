//! The first difference of two canonical files, and what their bids differ in.

mod bid_order;
mod bid_run;
mod bundles;
pub(crate) mod comparison;
mod file_bidders;
mod price_walk;
mod xor_bidders;

pub use bid_order::order_of_bundles;
pub use bid_run::BidRun;
pub use file_bidders::FileBidders;
pub use price_walk::{PriceChange, price_changes};
