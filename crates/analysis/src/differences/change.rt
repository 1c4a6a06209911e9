//! What differs between two auctions.

use canon::comparing::PriceChange;

/// An XOR bidder that one canonical file has more often than the other, or two such bidders, one of each file, that are
/// shown beside each other.
#[derive(Drop)]
pub struct BidderChange<'a> {
    /// The dummy good of the bidder in the left canonical file, counted from 0.
    pub left: Option<u32>,
    /// The dummy good of the bidder in the right canonical file, counted from 0.
    pub right: Option<u32>,
    /// The bids that only one of the two has, or whose prices differ, in the order of their bundles. Beside no bidder all
    /// bids differ.
    pub bids: Vec<PriceChange<'a>>,
}

/// All differences of two auctions. There are none exactly if they are the same.
#[derive(Drop)]
pub struct Differences<'a> {
    /// The numbers of goods of the left and of the right auction, if they differ.
    pub goods: Option<(u16, u16)>,
    /// The bundles on which the OR bidders' bids differ, in order.
    pub bundles: Vec<PriceChange<'a>>,
    /// The XOR bidders that differ: those of the left file in its order, each alone or beside one of the right file, and
    /// then the others of the right file in its order.
    pub bidders: Vec<BidderChange<'a>>,
}

impl Differences<'_> {
    ghost use Rattle.std.specs.Prelude.{◌≡◌};
    ghost use Rattle.analysis.specs.Differences.{is_none_at_all};
    ghost use Rattle.analysis.specs.Views.{plain_differences};

    /// Whether there are none.
    pub fn is_empty(&self) -> bool
        ensures { result ≡ is_none_at_all (plain_differences self.now) }
    {
        self.goods.is_none() && self.bundles.is_empty() && self.bidders.is_empty()
    }
}
