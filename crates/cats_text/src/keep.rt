//! The trait `Keep`: what a reader keeps of the bids. It keeps them packed, or only counts them.

ghost use Rattle.std.specs.Prelude.{◌≡◌, ◌<◌, [], ◌∷◌, ◌++◌, List, Some, length, slice_get, replicate, OnOk, OnErr};
ghost use Rattle.bid_file.specs.Files.{PlainBid};
ghost use Rattle.cats_text.specs.FileLines.{rising_of};
ghost use Rattle.cats_text.specs.Keeps.{whole, number_alone, with_goods};

use crate::good_list::GoodList;
use crate::parser::Draft;
use bid_file::PackedBids;
use std::alloc::{AllocError, Global};

/// What is kept of the bids, in the order in which they come.
pub trait Keep: Sized + Drop {
    ghost keep: { PlainBid → PlainBid };

    ghost bids: { Self → List PlainBid };

    /// No bids.
    fn empty(alloc: Global) -> Self
        ensures { bids result ≡ [] };

    /// How many there are.
    fn count(&self) -> usize
        ensures { result ≡ length (bids self.now) };

    /// Brings the goods of a bid into rising order, if goods are kept.
    fn sort(goods: &mut GoodList)
        ensures { (draft : Draft) → keep (with_goods draft goods.new) ≡ keep (with_goods draft (rising_of goods.old)) };

    /// Keeps a bid behind the others. At the first one, memory is reserved for so many.
    fn add(&mut self, draft: &Draft, goods: &[u16], count: u32) -> Result<(), AllocError>
        ensures kept { OnOk result (bids self.new ≡ bids self.old ++ keep (with_goods draft.now goods.now) ∷ []) }
        ensures same { OnErr result (bids self.new ≡ bids self.old) };

    /// Keeps one of other bids behind the others.
    fn add_from(&mut self, other: &Self, index: usize) -> Result<(), AllocError>
        requires { index < length (bids other.now) }
        ensures { (bid : PlainBid) → slice_get (bids other.now) index ≡ Some bid
            → OnOk result (bids self.new ≡ bids self.old ++ bid ∷ []) };
}

/// The bids of a `PackedFile`: the goods of all of them are in one vector.
impl Keep for PackedBids {
    ghost keep = { whole };

    ghost bids = { λ kept. kept };

    fn empty(alloc: Global) -> PackedBids {
        PackedBids::new(alloc)
    }

    fn count(&self) -> usize {
        self.len()
    }

    #[inline(always)]
    fn sort(goods: &mut GoodList) {
        goods.sort();
    }

    #[inline(always)]
    fn add(&mut self, draft: &Draft, goods: &[u16], count: u32) -> Result<(), AllocError> {
        if self.len() == 0 {
            self.reserve(count as usize)?;
        }
        PackedBids::push(self, draft.price, goods, draft.dummy)
    }

    fn add_from(&mut self, other: &PackedBids, index: usize) -> Result<(), AllocError> {
        let (price, goods, dummy) = other.at(index);
        PackedBids::push(self, price, goods, dummy)
    }
}

/// How many bids there are, of which nothing else is kept.
#[derive(Drop)]
pub struct BidCount {
    pub count: usize,
}

impl Keep for BidCount {
    ghost keep = { λ _. number_alone };

    ghost bids = { λ kept. replicate kept.count number_alone };

    fn empty(_alloc: Global) -> BidCount {
        BidCount { count: 0 }
    }

    fn count(&self) -> usize {
        self.count
    }

    fn sort(_goods: &mut GoodList) {}

    /// Memory is refused too if there would be 2 to the power 64 bids, as no file has.
    #[inline(always)]
    fn add(&mut self, _draft: &Draft, _goods: &[u16], _count: u32) -> Result<(), AllocError> {
        let Some(count) = self.count.checked_add(1) else {
            return Err(AllocError);
        };
        self.count = count;
        Ok(())
    }

    fn add_from(&mut self, _other: &BidCount, _index: usize) -> Result<(), AllocError> {
        let Some(count) = self.count.checked_add(1) else {
            return Err(AllocError);
        };
        self.count = count;
        Ok(())
    }
}
