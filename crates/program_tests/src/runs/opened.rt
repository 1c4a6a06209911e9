//! What a source has opened. Only contracts see it, so it takes no memory.

ghost use Rattle.std.specs.Prelude.{◌≡◌, List, [], ◌++◌, map};
ghost use Rattle.std.specs.Borrow.{ftrue};
ghost use Rattle.cats_cmd.specs.Opening.{Opening};

use cats_cmd::source::Way;
use std::marker::{Model, PhantomData};

/// Openings that no code holds.
#[derive(Drop)]
pub(super) struct Openings {
    marker: PhantomData<u8>,
    pub ghost list: { List Opening },
}

impl Model for Openings {
    ghost also_owns = { λ _. ftrue };
}

impl Openings {
    pub(super) fn new() -> Openings
        ensures { result.list ≡ [] }
    {
        Openings {
            marker: PhantomData,
        }
    }

    /// The path of these bytes was opened, in each of these ways.
    pub(super) fn note(&mut self, _ways: &[Way], _path: &[u8])
        ensures { self.new.list ≡ self.old.list ++ map (λ way. (_path.now, way)) _ways.now }
    {}
}
