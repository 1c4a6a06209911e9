//! The bytes that a reader was fed. Only contracts see them, so they take no memory.

ghost use Rattle.std.specs.Prelude.{◌≡◌, ℕ, List, [], ◌++◌};
ghost use Rattle.std.specs.Borrow.{ftrue};

use std::marker::{Model, PhantomData};

/// Bytes that no code holds.
#[derive(Drop)]
pub struct History {
    marker: PhantomData<u8>,
    pub ghost bytes: { List ℕ },
}

impl Model for History {
    ghost also_owns = { λ _. ftrue };
}

impl History {
    /// No bytes.
    pub fn new() -> History
        ensures { result.bytes ≡ [] }
    {
        History {
            marker: PhantomData,
        }
    }

    /// These bytes came.
    pub fn note(&mut self, _bytes: &[u8])
        ensures { self.new.bytes ≡ self.old.bytes ++ _bytes.now }
    {}
}
