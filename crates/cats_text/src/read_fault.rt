//! Why reading or sending a text failed. The text may not be a bid file, or a stream may have failed.

ghost use Rattle.std.specs.Prelude.{◌≡◌};
ghost use Rattle.cats_text.specs.Faults.{fault_at};
ghost use Rattle.cats_text.specs.Internal.Reading.{placed_fault};

use std::alloc::AllocError;
use thiserror::Error;

/// What is wrong. The first fourteen kinds are faults of the text itself; a text's fault is the first of its places
/// that has one, and there the first test that holds. The last three come from outside the text.
#[derive(Clone, Copy, PartialEq, Eq, Debug, Drop)]
pub enum Kind {
    /// A header line is not its keyword and one number.
    Header,
    /// A word that has to be a number, or a price, is none.
    NotANumber,
    /// A number of the header, or a price, is above its limit.
    TooLarge,
    /// More bid lines are there than the header says.
    ExtraBid,
    /// A bid's number is not below the number of bids.
    BidNumber,
    /// An earlier bid line has this number.
    RepeatedNumber,
    /// A price has more than six decimal places.
    TooFine,
    /// A good is neither a real good nor a dummy good of the file.
    GoodRange,
    /// A bid names a good twice.
    RepeatedGood,
    /// A bid names two dummy goods.
    TwoDummies,
    /// A bid names no real good.
    EmptyBundle,
    /// A bid line ends without `#`.
    NoEnd,
    /// A word is after a bid's `#`.
    AfterEnd,
    /// The text ends where a header line or a bid line is still due.
    Missing,
    /// The text is longer than its reader takes.
    TooLong,
    /// A read failed.
    Device,
    /// Memory was refused.
    Memory,
}

impl From<AllocError> for Kind {
    ghost use Rattle.std.specs.Prelude.{◌≡◌};
    ghost use Rattle.cats_text.specs.declared.read_fault.Kind.TheVariants.{Memory};

    ghost from_gives = { λ _ kind. kind ≡ Memory };

    fn from(_refused: AllocError) -> Kind {
        Kind::Memory
    }
}

/// Why a text is not a bid file. `line` counts the text's lines from 1; it is 0 for the kinds `TooLong`, `Device` and
/// `Memory`, which belong to no line.
#[derive(Clone, Copy, PartialEq, Eq, Debug, Drop, Error)]
#[error("line {line}: {kind:?}")]
pub struct ReadFault {
    pub line: u64,
    pub kind: Kind,
}

impl ReadFault {
    /// A fault of a text or a stream as a whole.
    pub fn whole(kind: Kind) -> ReadFault
        ensures { result ≡ fault_at 0 kind }
    {
        ReadFault { line: 0, kind }
    }

    /// The fault of this kind at this line. Want of memory is on no line.
    pub(crate) fn at(line: u64, kind: Kind) -> ReadFault
        ensures { result ≡ placed_fault line kind }
    {
        match kind {
            Kind::Memory => ReadFault::whole(kind),
            _ => ReadFault { line, kind },
        }
    }
}

impl From<AllocError> for ReadFault {
    ghost use Rattle.std.specs.Prelude.{◌≡◌};
    ghost use Rattle.cats_text.specs.Faults.{fault_at};
    ghost use Rattle.cats_text.specs.declared.read_fault.Kind.TheVariants.{Memory};

    ghost from_gives = { λ _ fault. fault ≡ fault_at 0 Memory };

    fn from(_refused: AllocError) -> ReadFault {
        ReadFault::whole(Kind::Memory)
    }
}

/// A writer failed. It took the first `written` bytes of what was sent to it, which is all of them where only the last
/// flush failed.
#[derive(Clone, Copy, PartialEq, Eq, Debug, Drop, Error)]
#[error("the writer failed after {written} bytes")]
pub struct SendFault {
    pub written: u64,
}
