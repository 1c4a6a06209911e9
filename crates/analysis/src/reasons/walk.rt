//! The reasons of all bids, by one walk over them in order: bidder by bidder, and of one bidder bundle by bundle.

ghost use Rattle.std.specs.Prelude.{◌≡◌, ◌≢◌, ◌+◌, ◌++◌, ◌<◌, All, IfOk, OnOk, Some, [], ◌∷◌, length, map};
ghost use Rattle.std.specs.Ordering.{nat_cmp};
ghost use Rattle.valuation.specs.Packings.{numbers_at};
ghost use Rattle.valuation.specs.Sorting.{sort_by};
ghost use Rattle.analysis.specs.Reasons.{Keep, plain_reason, reason_of, reasons_of};
ghost use Rattle.analysis.specs.Internal.Walks.{HasPassed, IsAt, IsKnown, IsNext, IsNextBest, best_after, dummy_of};
ghost use Rattle.analysis.specs.declared.reasons.best.NumberedBid.{NumberedBid};

use crate::reasons::best::{NumberedBid, order_of_keys};
use crate::reasons::reason::Reason;
use bid_file::{Bids, PackedFile};
use canon::normal::BidderFates;
use std::alloc::{AllocError, Global};

/// What is known of a file's bids.
#[derive(Drop)]
pub(crate) struct Known<'a> {
    pub(crate) file: &'a PackedFile,
    /// In order.
    pub(crate) bids: Vec<NumberedBid<'a>>,
    /// What became of the best bids of each bidder.
    pub(crate) fates: BidderFates,
    /// Of each dummy good where the bids of its bidder begin in the canonical file.
    pub(crate) starts: Vec<u32>,
}

/// How far the walk has come.
#[derive(Drop)]
struct Walk<'a> {
    /// The best bid of the last bid's bidder on its goods.
    best: Option<NumberedBid<'a>>,
    /// How many best bids of that bidder the walk has passed, of those with a price above 0.
    passed: usize,
    /// The numbers of those that are kept. They are the bidder's points so far.
    points: Vec<u32>,
}

/// The best bid of the next bid's bidder on its goods: the last best bid, or the next one itself.
fn best_after<'a>(best: Option<NumberedBid<'a>>, next: &NumberedBid<'a>) -> NumberedBid<'a>
    ensures { result ≡ best_after best.entry next.now }
{
    match best {
        None => *next,
        Some(best) => {
            if order_of_keys(&best.bid, &next.bid).is_eq() {
                best
            } else {
                *next
            }
        }
    }
}

/// The dummy good of its bidder.
fn dummy_of(best: Option<NumberedBid<'_>>) -> Option<u32>
    ensures { result ≡ dummy_of best.entry }
{
    match best {
        None => None,
        Some(best) => best.bid.dummy,
    }
}

impl<'a> Walk<'a> {
    /// Takes the next bid in, and gives the best bid of its bidder on its goods.
    fn turn_to(&mut self, next: &NumberedBid<'a>) -> NumberedBid<'a>
        ensures best { result ≡ best_after self.old.best next.now }
        ensures held { self.new.best ≡ Some result }
        ensures same { dummy_of self.old.best ≡ next.now.bid.dummy
            → (self.new.passed ≡ self.old.passed) × (self.new.points.items ≡ self.old.points.items) }
        ensures other { dummy_of self.old.best ≢ next.now.bid.dummy
            → (self.new.passed ≡ 0) × (self.new.points.items ≡ []) }
    {
        if dummy_of(self.best) != next.bid.dummy {
            self.passed = 0;
            self.points.clear();
        }
        let best = best_after(self.best, next);
        self.best = Some(best);
        best
    }

    /// The bid of this number is kept, the next of its bidder's, which begin at `start` in the canonical file.
    fn keep(&mut self, start: u32, number: u32) -> Result<Reason, AllocError>
        requires { start + length self.old.points.items < 4294967296 }
        ensures reason { IfOk result (λ reason. plain_reason reason ≡ Keep (start + length self.old.points.items)) }
        ensures points { OnOk result (self.new.points.items ≡ self.old.points.items ++ number ∷ []) }
        ensures passed { self.new.passed ≡ self.old.passed }
        ensures best { self.new.best ≡ self.old.best }
    {
        let index = start + self.points.len() as u32;
        self.points.push(number)?;
        Ok(Reason::Keep(index))
    }

    /// The reason of a best bid with a price above 0, the next of its bidder's.
    fn reason_of_best(
        &mut self,
        alloc: Global,
        known: &Known<'a>,
        index: usize,
        bid: &NumberedBid<'a>,
    ) -> Result<Reason, AllocError>
        requires best { IsNextBest known.now index bid.now }
        requires passed { HasPassed known.now.file.now known.now.bids.items bid.now.bid.dummy index self.old }
        ensures reason { IfOk result (λ reason. plain_reason reason ≡ reason_of known.now.file.now bid.now.number) }
        ensures passed { OnOk result
            (HasPassed known.now.file.now known.now.bids.items bid.now.bid.dummy (index + 1) self.new) }
        ensures best { self.new.best ≡ self.old.best }
    {
        let passed = self.passed;
        self.passed += 1;
        match bid.bid.dummy {
            None => match &known.fates.or[passed] {
                None => self.keep(0, bid.number),
                Some(indices) => Ok(Reason::Packing(numbers_at(alloc, &self.points, indices)?)),
            },
            Some(dummy) => match known.fates.xor[dummy as usize][passed] {
                None => self.keep(known.starts[dummy as usize], bid.number),
                Some(index) => Ok(Reason::Inside(self.points[index])),
            },
        }
    }

    /// The reason of the next bid.
    fn reason_at(
        &mut self,
        alloc: Global,
        known: &Known<'a>,
        index: usize,
        bid: &NumberedBid<'a>,
    ) -> Result<Reason, AllocError>
        requires next { IsNext known.now index bid.now }
        requires at { IsAt known.now.file.now known.now.bids.items index self.old }
        ensures reason { IfOk result (λ reason. plain_reason reason ≡ reason_of known.now.file.now bid.now.number) }
        ensures at { OnOk result (IsAt known.now.file.now known.now.bids.items (index + 1) self.new) }
    {
        let best = self.turn_to(bid);
        if bid.bid.price == 0 {
            return Ok(Reason::Zero);
        }
        if best.number != bid.number {
            return Ok(Reason::Same(best.number));
        }
        self.reason_of_best(alloc, known, index, bid)
    }
}

/// The numbers at these indices, rising.
fn numbers_at(alloc: Global, numbers: &[u32], indices: &[usize]) -> Result<Vec<u32>, AllocError>
    requires { All (λ index. index < length numbers.now) indices.now }
    ensures { IfOk result (λ found. found.items ≡ sort_by nat_cmp (numbers_at numbers.now indices.now)) }
{
    let mut found = Vec::with_capacity(alloc, indices.len())?;
    for index in indices {
        found.push(numbers[*index])?;
    }
    found.sort_unstable();
    Ok(found)
}

/// The reason of each bid.
pub(crate) fn all_reasons(alloc: Global, known: &Known<'_>) -> Result<Vec<Reason>, AllocError>
    requires { IsKnown known.now }
    ensures { IfOk result (λ reasons. map plain_reason reasons.items ≡ reasons_of known.now.file.now) }
{
    let mut reasons = Vec::new(alloc);
    reasons.resize_with(Bids::len(known.file), || Reason::Zero)?;
    let mut walk = Walk {
        best: None,
        passed: 0,
        points: Vec::new(alloc),
    };
    for index in 0..known.bids.len() {
        let bid = &known.bids[index];
        let reason = walk.reason_at(alloc, known, index, bid)?;
        reasons[bid.number as usize] = reason;
    }
    Ok(reasons)
}
