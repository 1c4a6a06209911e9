//! The statuses of the program and of the library.

/// A run did what its request says.
pub const DONE: u8 = 0;

/// Two files are different auctions.
pub const DIFFERENT: u8 = 1;

/// A file is not a bid file.
pub const FILE_REFUSED: u8 = 2;

/// A search took more steps than its limit.
pub const STEPS_EXCEEDED: u8 = 3;

/// Memory was refused.
pub const NO_MEMORY: u8 = 4;

/// A file could not be opened, read or written.
pub const DEVICE_FAILED: u8 = 5;

/// The command line names nothing that the program does.
pub const WRONG_USAGE: u8 = 64;
