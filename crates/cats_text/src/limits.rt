//! How much is read.

/// The most bytes that are read from a stream.
pub const MAX_STREAM: u64 = 2_147_483_648;
