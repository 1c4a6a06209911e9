//! CATS 2.0 bid files as text. The crate reads and writes them, in memory and on streams.
#![tactic(auto)]

mod bid_lines;
mod bids_by_number;
mod eight;
pub mod fault_finder;
pub mod fault_place;
mod good_list;
mod history;
mod keep;
pub mod laws;
mod layout;
mod leading_token;
mod limits;
pub mod packed;
mod parser;
pub mod price;
mod push_reader;
mod read_fault;
mod reader;
mod scanner;
mod sending;
mod stream;
mod word;
pub mod worked;

pub use bid_file::limits::{MAX_BIDS, MAX_DUMMY, MAX_GOODS, MAX_PRICE};
pub use bid_file::{Bid, BidFile};
pub use layout::write;
pub use limits::MAX_STREAM;
pub use read_fault::{Kind, ReadFault, SendFault};
pub use reader::{Reader, read};
pub use sending::send;
pub use stream::{Watched, read_from};
