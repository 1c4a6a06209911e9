//! Atomic bids.
ghost use Rattle.std.specs.Prelude.{◌↔◌, IsTrue};
ghost use Rattle.valuation.specs.Auctions.{IsAtom};
ghost use Rattle.valuation.specs.Values.{plain_atom};

use bid_file::limits::MAX_PRICE;
use goods_set::GoodsSet;

/// An atomic bid: it offers its price for every bundle that contains its own.
#[derive(Debug, Drop)]
pub struct Atom<S> {
    /// The goods of the bid.
    pub bundle: S,
    /// What it offers, in millionths.
    pub price: u64,
}

impl<S: GoodsSet> Atom<S> {
    /// Whether it may be in an auction with that many goods: it is on some goods, all of the auction, at a price
    /// within the limit.
    pub fn keeps_limits(&self, goods: u16) -> bool
        ensures { IsTrue result ↔ IsAtom goods (plain_atom S.goods self.now) }
    {
        if self.price > MAX_PRICE {
            return false;
        }
        match self.bundle.next_from(u32::from(goods)) {
            Some(_) => false,
            None => self.bundle.size() > 0,
        }
    }
}
