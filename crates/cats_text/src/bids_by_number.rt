//! `BidsByNumber`: the bids that have come, each at its number.

ghost use Rattle.std.specs.Prelude.{◌≡◌, ◌<◌, ℕ, [], length, slice_get, IfOk, OnOk, OnErr};
ghost use Rattle.std.specs.Bool.{OnTrue};
ghost use Rattle.cats_text.specs.FileLines.{put_slot, filled};
ghost use Rattle.cats_text.specs.Internal.Kept.{is_some_bid, arrivals_to, AreWithin, IsPadded};
ghost use Rattle.cats_text.specs.Keeps.{with_goods};

use crate::keep::Keep;
use crate::parser::Draft;
use std::alloc::{AllocError, Global};
use std::marker::Model;

/// Bids by number. They are kept in the order in which they come.
#[derive(Drop)]
pub struct BidsByNumber<K: Keep> {
    came: K,
    /// At each number how many had come with its bid, or 0 if it has not come: its arrival.
    arrivals: Vec<usize>,
}

impl<K: Keep> Model for BidsByNumber<K> {
    ghost use Rattle.std.specs.Prelude.{List, Option, length};
    ghost use Rattle.bid_file.specs.Files.{PlainBid};
    ghost use Rattle.cats_text.specs.Internal.Kept.{arrived, AreWithin};

    ghost Value = { List (Option PlainBid) };

    ghost view = { λ s. arrived (K.bids s.came) s.arrivals.items };

    ghost invariant = { λ s. AreWithin (length (K.bids s.came)) s.arrivals.items };
}

/// Puts a 0 at each number up to this one that has no arrival.
fn pad(arrivals: &mut Vec<usize>, number: usize) -> Result<(), AllocError>
    ensures within { (n : ℕ) → AreWithin n arrivals.old.items → AreWithin n arrivals.new.items }
    ensures padded { OnOk result (IsPadded arrivals.old.items arrivals.new.items number) }
    ensures there { OnOk result (number < length arrivals.new.items) }
{
    while arrivals.len() <= number {
        arrivals.push(0)?;
    }
    Ok(())
}

/// Whether the bids came in the order of their numbers, from 0 on.
fn came_in_order(arrivals: &[usize]) -> bool
    ensures { OnTrue result (arrivals.now ≡ arrivals_to (length arrivals.now)) }
{
    for (number, arrival) in arrivals.iter().enumerate() {
        if *arrival != number + 1 {
            return false;
        }
    }
    true
}

impl<K: Keep> BidsByNumber<K> {
    /// No bids.
    pub fn new(alloc: Global) -> BidsByNumber<K>
        ensures { result ≡ [] }
    {
        BidsByNumber {
            came: K::empty(alloc),
            arrivals: Vec::new(alloc),
        }
    }

    /// Whether the bid of this number has come.
    pub fn has(&self, number: u32) -> bool
        ensures { result ≡ is_some_bid (slice_get self.now number) }
    {
        matches!(self.arrivals.get(number as usize), Some(arrival) if *arrival > 0)
    }

    /// Puts what is kept of a bid of a file with so many at its number.
    #[inline(always)]
    pub fn put(&mut self, draft: &Draft, goods: &[u16], count: u32) -> Result<(), AllocError>
        ensures { let bid = K.keep (with_goods draft.now goods.now) in
            OnOk result (self.new ≡ put_slot self.old draft.now.number bid) }
    {
        let number = draft.number as usize;
        pad(&mut self.arrivals, number)?;
        self.came.add(draft, goods, count)?;
        self.arrivals[number] = self.came.count();
        Ok(())
    }

    /// What is kept of the bids, in order of their numbers.
    pub fn into_kept(self, alloc: Global) -> Result<K, AllocError>
        ensures bids { IfOk result (λ kept. K.bids kept ≡ filled self) }
        ensures memory { OnErr result (0 < length self) }
    {
        let BidsByNumber { came, arrivals } = self;
        if arrivals.len() == came.count() && came_in_order(&arrivals) {
            return Ok(came);
        }
        let mut kept = K::empty(alloc);
        for arrival in arrivals.iter() {
            if *arrival > 0 {
                kept.add_from(&came, *arrival - 1)?;
            }
        }
        Ok(kept)
    }
}
