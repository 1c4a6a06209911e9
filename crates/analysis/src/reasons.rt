//! Which bids are dropped from a canonical file, and why.

mod best;
mod explanation;
mod reason;
mod starts;
mod walk;

pub use best::{NumberedBid, bids_in_order, number_of};
pub use explanation::explain;
pub use reason::Reason;
