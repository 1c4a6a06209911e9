//! The calls on packed files, which take little memory: to check, to read and to send one.

pub use crate::keep::{BidCount, Keep};
pub use crate::parser::Header;
pub use crate::push_reader::{PushReader, finish_header, finish_packed};
pub use crate::reader::{check, read_packed};
pub use crate::sending::send_file;
pub use crate::stream::{check_from, read_packed_from};
