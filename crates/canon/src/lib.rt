//! The canonical auction, file and text of a file. The crate also decides whether two files are the same
//! auction.
#![tactic(auto)]

mod auction_index;
mod canon_fault;
pub mod comparing;
pub mod laws;
pub mod normal;
mod verdict;
mod which;
pub mod worked;

pub use auction_index::AuctionIndex;
pub use canon_fault::CanonFault;
pub use comparing::comparison::{compare, compare_files};
pub use normal::auction::canonical;
pub use normal::file::file_of;
pub use normal::normal_file;
pub use normal::text::normalise;
pub use verdict::{Side, Verdict};
pub use which::Which;
