//! `Reason`: why a bid is kept or dropped.

/// Why a bid of a file is in the canonical file, or is not. Bids are named by their numbers in the file.
#[derive(PartialEq, Eq, Debug, Drop)]
pub enum Reason {
    /// It is this bid of the canonical file.
    Keep(u32),
    /// Its price is 0.
    Zero,
    /// This bid of the same bidder is the best on the same goods.
    Same(u32),
    /// This bid of the same XOR bidder is kept, on fewer of its goods, and its price is at least as high.
    Inside(u32),
    /// These bids of the OR bidder are kept, share no good, are inside its goods, and their prices add up to at least its
    /// own.
    Packing(Vec<u32>),
}
