//! `NoRequest`: what a command line means that is no request.

pub use crate::parser::parse;

/// Why a command line is not a request. A text is empty if memory for it was refused.
#[derive(Debug, Drop)]
pub enum NoRequest {
    /// It names help or the version: this text, for standard output.
    Help(String),
    /// It is wrong: this says why, for standard error.
    WrongUsage(String),
    /// Each word of it is one that its command takes, but it is wrong.
    Misused(Misuse),
    /// Memory was refused.
    NoMemory,
}

/// Why a command line is wrong whose words are such as its command takes.
#[derive(Clone, Copy, PartialEq, Eq, Debug)]
pub enum Misuse {
    /// A number begins with a sign.
    SignedNumber,
    /// It has a second file, and its command reads one.
    MoreThanOneFile,
    /// It has a third file, and its command reads two.
    MoreThanTwoFiles,
    /// It has both a list of bids and bids.
    BidsTwice,
    /// It has a limit of all searches together, and not the bounded search, which alone has such a limit.
    UnboundedTotal,
    /// The factor of prices is not a power of ten.
    WrongTimes,
    /// A word that ought to name goods is not a list of numbers and ranges.
    WrongGoods,
    /// Nor is one that ought to name bids.
    WrongBids,
    /// It has neither paths nor a list of paths.
    NoFiles,
    /// It has both.
    FilesTwice,
}
