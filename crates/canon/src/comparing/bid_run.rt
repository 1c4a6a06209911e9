//! Adjacent bids of a file. The walks that compare two files use them.

ghost use Rattle.std.specs.Prelude.{◌≡◌, ◌<◌, ◌≤◌, ◌∷◌, [], MatchOption, length, take, drop, slice_get, Some};
ghost use Rattle.bid_file.specs.Files.{IsPlainFile};
ghost use Rattle.bid_file.specs.Views.{seen_bid};
ghost use Rattle.valuation.specs.Orders.{bidder_cmp};
ghost use Rattle.canon.specs.Bidders.{offers};
ghost use Rattle.canon.specs.Internal.BidderBids.{leading};

use crate::comparing::bid_order::canonical_order;
use bid_file::{BidRef, Bids};
use std::cmp::Ordering;
use std::marker::Model;

/// The bids of a file from the number `first` up to `end`, without the bid `end`.
#[derive(Drop)]
pub struct BidRun<'a, B: Bids> {
    file: &'a B,
    first: usize,
    end: usize,
}

impl<'a, B: Bids> Model for BidRun<'a, B> {
    ghost use Rattle.std.specs.Prelude.{List, ◌≤◌, length, slice_range};
    ghost use Rattle.bid_file.specs.Files.{PlainBid};
    ghost use Rattle.bid_file.specs.declared.limits.TheConstants.{MAX_BIDS};

    ghost Value = { List PlainBid };

    ghost view = { λ r. slice_range (B.file r.file.now).bids r.first r.end };

    ghost invariant = { λ r. (r.first ≤ r.end) × (r.end ≤ length (B.file r.file.now).bids) × (r.end ≤ MAX_BIDS) };
}

impl<'a, B: Bids> BidRun<'a, B> {
    /// All bids of a file.
    pub(crate) fn all(file: &'a B) -> BidRun<'a, B>
        requires { IsPlainFile (B.file file.now) }
        ensures { result ≡ (B.file file.now).bids }
    {
        BidRun {
            file,
            first: 0,
            end: file.len(),
        }
    }

    /// How many there are.
    #[inline(always)]
    pub fn len(&self) -> usize
        ensures { result ≡ length self.now }
    {
        self.end - self.first
    }

    /// The bid at this index.
    #[inline(always)]
    pub fn at(&self, index: usize) -> BidRef<'a>
        requires { index < length self.now }
        ensures { slice_get self.now index ≡ Some (seen_bid result) }
    {
        self.file.at(self.first + index)
    }

    /// The first one, if there is one.
    pub(crate) fn first(&self) -> Option<BidRef<'a>>
        ensures { MatchOption result (self.now ≡ []) (λ first. self.now ≡ seen_bid first ∷ drop 1 self.now) }
    {
        if self.len() == 0 {
            return None;
        }
        Some(self.at(0))
    }

    /// The bids before an index.
    pub fn up_to(&self, index: usize) -> BidRun<'a, B>
        requires { index ≤ length self.now }
        ensures { result ≡ take index self.now }
    {
        BidRun {
            file: self.file,
            first: self.first,
            end: self.first + index,
        }
    }

    /// The bids from an index on.
    pub fn from(&self, index: usize) -> BidRun<'a, B>
        requires { index ≤ length self.now }
        ensures { result ≡ drop index self.now }
    {
        BidRun {
            file: self.file,
            first: self.first + index,
            end: self.end,
        }
    }

    /// How many bids, from the first on, have this dummy good, or have none.
    pub(crate) fn count_leading(&self, dummy: Option<u32>) -> usize
        ensures { result ≡ leading dummy self.now }
    {
        let mut count = 0;
        while count < self.len() && self.at(count).dummy == dummy {
            count += 1;
        }
        count
    }

    /// The order of the bidders that have these bids, which is lexicographic.
    pub fn order(&self, other: &BidRun<'_, B>) -> Ordering
        ensures { result ≡ bidder_cmp (offers self.now) (offers other.now) }
    {
        let both = self.len().min(other.len());
        for i in 0..both {
            let bids = canonical_order(&self.at(i), &other.at(i));
            if bids.is_ne() {
                return bids;
            }
        }
        self.len().cmp(&other.len())
    }
}
