//! Why a pruning gave up.
use std::alloc::{AllocError, AllocFailed};

/// Why OR bids were not pruned.
#[derive(Debug, Drop)]
pub enum PruneFault<S> {
    /// The search on a bundle would take more steps than the limit. It is the first such bundle, in order.
    StepLimit {
        /// The goods of the bundle.
        bundle: S,
    },
    /// Memory was refused.
    Memory,
}

impl<S> From<AllocError> for PruneFault<S> {
    ghost use Rattle.std.specs.Prelude.{◌≡◌};
    ghost use Rattle.prune.specs.declared.prune_fault.PruneFault.TheVariants.{Memory};

    ghost from_gives = { λ _ fault. fault ≡ Memory };

    fn from(_refused: AllocError) -> PruneFault<S> {
        PruneFault::Memory
    }
}

impl<S, T: Drop> From<AllocFailed<T>> for PruneFault<S> {
    ghost use Rattle.std.specs.Prelude.{◌≡◌};
    ghost use Rattle.prune.specs.declared.prune_fault.PruneFault.TheVariants.{Memory};

    ghost from_gives = { λ _ fault. fault ≡ Memory };

    fn from(_refused: AllocFailed<T>) -> PruneFault<S> {
        PruneFault::Memory
    }
}
