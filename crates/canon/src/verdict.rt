//! What comparing two files answers.

/// The first difference of two auctions, or that they are the same.
#[derive(Debug, PartialEq, Eq, Drop)]
pub enum Verdict {
    /// They are the same auction.
    Same,
    /// The numbers of goods of the left and of the right auction, which differ.
    Goods(u16, u16),
    /// The first bundle on which the OR values differ.
    Or {
        /// The goods of the bundle.
        bundle: Vec<u16>,
        /// The value on it in the left auction.
        left: Side,
        /// The value on it in the right auction.
        right: Side,
    },
    /// The least XOR bidder that the auctions do not have equally often.
    Xor {
        /// Its bids, each with its goods and its price, in order.
        bidder: Vec<(Vec<u16>, u64)>,
        /// How often the left auction has it.
        left: u32,
        /// How often the right auction has it.
        right: u32,
    },
}

/// What is reported of one auction's OR value on a bundle, in millionths.
#[derive(Debug, PartialEq, Eq, Clone, Copy)]
pub enum Side {
    /// The value, which is the price of the auction's bid on the bundle.
    Exactly(u64),
    /// A number that the value is below: what the other auction's bid on the bundle offers.
    Below(u64),
}
