//! Why a file has no canonical file.

use cats_text::{Kind, ReadFault};
use std::alloc::AllocError;

/// Why a file has no canonical file.
#[derive(PartialEq, Eq, Debug, Drop)]
pub enum CanonFault {
    /// It is not a bid file, or could not be read.
    Read(ReadFault),
    /// A search on the bundle of these goods, which rise, takes more steps than the limit.
    StepLimit { goods: Vec<u16> },
    /// Memory was refused.
    Memory,
}

impl From<AllocError> for CanonFault {
    ghost use Rattle.std.specs.Prelude.{◌≡◌};
    ghost use Rattle.canon.specs.declared.canon_fault.CanonFault.TheVariants.{Memory};

    ghost from_gives = { λ _ fault. fault ≡ Memory };

    fn from(_refused: AllocError) -> CanonFault {
        CanonFault::Memory
    }
}

/// What a reader is refused in memory is want of memory.
impl From<ReadFault> for CanonFault {
    ghost use Rattle.std.specs.Prelude.{◌≡◌};
    ghost use Rattle.canon.specs.Refusals.{refusal_of};

    ghost from_gives = { λ why fault. fault ≡ refusal_of why };

    fn from(why: ReadFault) -> CanonFault {
        match why.kind {
            Kind::Memory => CanonFault::Memory,
            _ => CanonFault::Read(why),
        }
    }
}
