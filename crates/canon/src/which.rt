//! Which file a fault belongs to.

/// The file that a fault belongs to.
#[derive(Clone, Copy, PartialEq, Eq, Debug, Drop)]
pub enum Which {
    /// The only file of a run.
    Only,
    /// The first of two files.
    First,
    /// The second of two files.
    Second,
    /// Neither of two files alone: memory was refused while the two were compared.
    Both,
}
