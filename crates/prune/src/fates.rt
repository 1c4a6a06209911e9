//! What became of the best bids of a bidder, noted as it is decided.

ghost use Rattle.std.specs.Prelude.{◌≡◌, true, false, [], ◌∷◌, ◌++◌, OnOk};

pub use crate::or::prune_or_by;
pub use crate::xor::prune_xor_noting;
use std::alloc::{AllocError, Global};

/// A list of what became of a bidder's best bids, in order, if it is wanted. If not, nothing is stored, and no memory is
/// taken.
#[derive(Drop)]
pub struct FateLog<F> {
    wanted: bool,
    /// What became of the best bids so far.
    fates: Vec<F>,
}

impl<F: Drop> FateLog<F> {
    /// An empty log.
    pub fn new(alloc: Global, wanted: bool) -> FateLog<F>
        ensures wanted { result.wanted ≡ wanted }
        ensures empty { result.fates.items ≡ [] }
    {
        FateLog {
            wanted,
            fates: Vec::new(alloc),
        }
    }

    /// Whether the fates are wanted.
    pub fn is_wanted(&self) -> bool
        ensures { result ≡ self.now.wanted }
    {
        self.wanted
    }

    /// What was noted.
    pub fn into_fates(self) -> Vec<F>
        ensures { result ≡ self.fates }
    {
        let FateLog { wanted: _, fates } = self;
        fates
    }

    /// Notes what became of the next best bid.
    pub fn note(&mut self, fate: F) -> Result<(), AllocError>
        ensures wanted { self.new.wanted ≡ self.old.wanted }
        ensures unwanted { self.old.wanted ≡ false → self.new ≡ self.old }
        ensures noted { OnOk result (self.old.wanted ≡ true → self.new.fates.items ≡ self.old.fates.items ++ fate ∷ []) }
    {
        if self.wanted {
            self.fates.push(fate)?;
        }
        Ok(())
    }
}
