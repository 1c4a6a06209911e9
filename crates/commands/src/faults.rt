//! `RunFault`: why a command has no answer.

mod heavy_bid;

ghost use Rattle.std.specs.Prelude.{◌≡◌};
ghost use Rattle.commands.specs.Internal.Pairs.{of_file};

use canon::{CanonFault, Which};
use cats_text::SendFault;
pub use heavy_bid::name_bid;
use std::alloc::AllocError;

/// A limit of steps.
#[derive(Clone, Copy, PartialEq, Eq, Debug)]
pub enum Limit {
    /// The most steps of each search.
    OfEach(u64),
    /// The most steps of all searches together.
    OfAll(u64),
}

/// The bundle of a bid on which a search takes more steps than its limits leave.
#[derive(PartialEq, Eq, Debug, Drop)]
pub struct HeavyBid {
    /// The number of the first bid of the OR bidder on this bundle.
    pub number: u64,
    pub goods: Vec<u16>,
    /// The limit that is met.
    pub limit: Limit,
}

/// Why a file could not be opened.
#[derive(Clone, Copy, PartialEq, Eq, Debug)]
pub enum Unopened {
    NoSuchFile,
    PermissionDenied,
    IsFolder,
    /// It is neither a regular file nor a folder.
    NotAFile,
    /// For a reason that has no name here, or that is not reported.
    Other,
}

/// Why a text could not be written.
#[derive(Clone, Copy, PartialEq, Eq, Debug)]
pub enum Unwritten {
    /// Something is at its path, which is not replaced.
    Exists,
    PermissionDenied,
    NoSpace,
    /// What should be a folder on its path is none, or is a link.
    NotAFolder,
    /// For a reason that has no name here.
    Other,
}

/// Why a run failed.
#[derive(PartialEq, Eq, Debug, Drop)]
pub enum RunFault {
    /// A file could not be opened.
    NotOpened(Which, Unopened),
    /// A file was refused.
    Refused(Which, CanonFault),
    /// A file was refused for a step limit, by a command that names the bid.
    TooHeavy(Which, HeavyBid),
    /// The bundle names a good that the file does not have.
    GoodRange(u16),
    /// A bid was named that the file does not have.
    BidRange(u32),
    /// The output failed.
    Sent(SendFault),
    /// The text of a file could not be written.
    NotWritten(Unwritten),
}

/// The fault of a run of one file.
impl From<CanonFault> for RunFault {
    ghost use Rattle.std.specs.Prelude.{◌≡◌};
    ghost use Rattle.commands.specs.declared.faults.RunFault.TheVariants.{Refused};
    ghost use Rattle.canon.specs.declared.which.Which.TheVariants.{Only};

    ghost from_gives = { λ why fault. fault ≡ Refused Only why };

    fn from(why: CanonFault) -> RunFault {
        RunFault::Refused(Which::Only, why)
    }
}

/// Want of memory in a run of one file.
impl From<AllocError> for RunFault {
    ghost use Rattle.std.specs.Prelude.{◌≡◌};
    ghost use Rattle.commands.specs.declared.faults.RunFault.TheVariants.{Refused};
    ghost use Rattle.canon.specs.declared.which.Which.TheVariants.{Only};
    ghost use Rattle.canon.specs.declared.canon_fault.CanonFault.TheVariants.{Memory};

    ghost from_gives = { λ _ fault. fault ≡ Refused Only Memory };

    fn from(_refused: AllocError) -> RunFault {
        RunFault::Refused(Which::Only, CanonFault::Memory)
    }
}

/// Says which file a fault is of.
pub(crate) fn of<T>(which: Which, answer: Result<T, CanonFault>) -> Result<T, RunFault>
    ensures { result ≡ of_file which answer }
{
    match answer {
        Ok(given) => Ok(given),
        Err(fault) => Err(RunFault::Refused(which, fault)),
    }
}
