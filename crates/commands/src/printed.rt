//! What several commands print: cells of tables, pieces of lines, and faults.

pub(crate) mod cells;
pub(crate) mod pieces;
pub(crate) mod report;

pub use pieces::Piece;
pub use report::{WANT_OF_MEMORY, fault_line, fault_pieces, status};
