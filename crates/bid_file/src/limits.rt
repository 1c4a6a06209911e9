//! The greatest sizes of a bid file.

/// The most goods that a file may have.
pub const MAX_GOODS: u16 = 4_096;

/// The most bids that a file may have.
pub const MAX_BIDS: u32 = 65_536;

/// The most dummy goods that a file may have.
pub const MAX_DUMMY: u32 = 65_536;

/// The greatest price, in millionths.
pub const MAX_PRICE: u64 = 1_000_000_000_000_000_000;
