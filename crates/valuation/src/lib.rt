//! What atomic bids are worth. The bidding languages are Nisan's XOR and OR, over bundles of goods.
#![tactic(auto)]

mod atom;
mod auction;
mod from_file;
pub mod laws;
mod packing;
pub mod search;
mod set_choice;
pub mod worked;
mod xor;

pub use atom::Atom;
pub use auction::Auction;
pub use from_file::auction_of;
pub use packing::{Packing, ValueFault, or_value};
pub use set_choice::has_sparse_bids;
pub use xor::xor_value;
