//! `PackedBids` and `PackedFile`: bids in little memory.

ghost use Rattle.std.specs.Prelude.{
  ◌≡◌,
  ◌+◌,
  ◌<◌,
  ◌≤◌,
  [],
  ◌∷◌,
  ◌++◌,
  length,
  slice_get,
  vec_len,
  vec_capacity,
  Some,
  OnOk,
  OnErr,
  IfOk,
};
ghost use Rattle.bid_file.specs.Files.{PlainBid, IsBidFile};
ghost use Rattle.bid_file.specs.Views.{plain_file};

use crate::bid::{Bid, BidFile};
use std::alloc::{AllocError, Global};
use std::marker::Model;

/// A bid, whose goods are in a list from one index to another.
#[derive(Clone, Copy)]
pub struct BidSpan {
    price: u64,
    start: u32,
    end: u32,
    dummy: Option<u32>,
}

/// Bids by number. The goods of all of them are in one vector.
#[derive(Drop)]
pub struct PackedBids {
    spans: Vec<BidSpan>,
    goods: Vec<u16>,
}

impl Model for PackedBids {
    ghost use Rattle.std.specs.Prelude.{List, length, map};
    ghost use Rattle.bid_file.specs.Files.{PlainBid};
    ghost use Rattle.bid_file.specs.Views.{spanned};
    ghost use Rattle.bid_file.specs.Internal.Packed.{AreHeld};

    ghost Value = { List PlainBid };

    ghost view = { λ b. map (spanned b.goods.items) b.spans.items };

    ghost invariant = { λ b. AreHeld (length b.goods.items) b.spans.items };
}

/// Appends goods, and answers from which index to which they are. Memory is also refused if there would be 2 to the
/// power 32 goods, which no file has.
#[inline(always)]
fn append(all: &mut Vec<u16>, goods: &[u16]) -> Result<(u32, u32), AllocError>
    ensures goods { OnOk result (all.new.items ≡ all.old.items ++ goods.now) }
    ensures same { OnErr result (all.new.items ≡ all.old.items) }
    ensures start { IfOk result (λ span. span.0 ≡ length all.old.items) }
    ensures end { IfOk result (λ span. span.1 ≡ length all.new.items) }
{
    let start = all.len();
    let end = start + goods.len();
    if end > u32::MAX as usize {
        return Err(AllocError);
    }
    all.extend_from_slice(goods)?;
    Ok((start as u32, end as u32))
}

impl PackedBids {
    /// No bids.
    pub fn new(alloc: Global) -> PackedBids
        ensures { result ≡ [] }
    {
        PackedBids {
            spans: Vec::new(alloc),
            goods: Vec::new(alloc),
        }
    }

    /// How many there are.
    #[inline(always)]
    pub fn len(&self) -> usize
        ensures { result ≡ length self.now }
    {
        self.spans.len()
    }

    /// Reserves memory for so many more bids, without their goods.
    pub fn reserve(&mut self, count: usize) -> Result<(), AllocError>
        ensures { self.new ≡ self.old }
    {
        self.spans.reserve(count)?;
        Ok(())
    }

    /// Appends a bid. If memory is refused, the bids are those that were there.
    #[inline(always)]
    pub fn push(&mut self, price: u64, goods: &[u16], dummy: Option<u32>) -> Result<(), AllocError>
        ensures bids { let bid : PlainBid = record { price = price; goods = goods.now; dummy = dummy } in
            OnOk result (self.new ≡ self.old ++ bid ∷ []) }
        ensures same { OnErr result (self.new ≡ self.old) }
    {
        let (start, end) = append(&mut self.goods, goods)?;
        let span = BidSpan {
            price,
            start,
            end,
            dummy,
        };
        self.spans.push(span)?;
        Ok(())
    }

    /// The price, the goods and the dummy good of the bid at this index.
    #[inline(always)]
    pub fn at(&self, index: usize) -> (u64, &[u16], Option<u32>)
        requires { index < length self.now }
        ensures { let bid : PlainBid = record { price = result.0; goods = result.1.now; dummy = result.2 } in
            slice_get self.now index ≡ Some bid }
    {
        let span = self.spans[index];
        let goods = &self.goods[span.start as usize..span.end as usize];
        (span.price, goods, span.dummy)
    }
}

/// A bid file in little memory: the goods of all bids are in one vector. The bid at index i has the number i.
#[derive(Drop)]
pub struct PackedFile {
    goods: u16,
    dummy: u32,
    bids: PackedBids,
}

impl Model for PackedFile {
    ghost use Rattle.bid_file.specs.Files.{PlainFile, IsBidFile};

    ghost Value = { PlainFile };

    ghost view = { λ f. record { goods = f.goods; dummy = f.dummy; bids = f.bids } };

    ghost invariant = { λ f. IsBidFile f.goods f.dummy f.bids };
}

impl PackedFile {
    ghost use Rattle.bid_file.specs.Files.{IsPlainFile};

    /// The file of these parts.
    pub fn new(goods: u16, dummy: u32, bids: PackedBids) -> PackedFile
        requires { IsBidFile goods dummy bids }
        ensures { result ≡ record { goods = goods; dummy = dummy; bids = bids } }
    {
        PackedFile { goods, dummy, bids }
    }

    /// How many real goods there are.
    pub fn goods(&self) -> u16
        ensures value { result ≡ self.now.goods }
        ensures file { IsPlainFile self.now }
    {
        self.goods
    }

    /// How many dummy goods there are.
    pub fn dummy(&self) -> u32
        ensures { result ≡ self.now.dummy }
    {
        self.dummy
    }

    /// The bids, in order of their numbers.
    #[inline(always)]
    pub fn bids(&self) -> &PackedBids
        ensures { result.now ≡ self.now.bids }
    {
        &self.bids
    }

    /// The same file with a vector for each bid. No memory is requested if there are no bids.
    pub fn to_file(&self, alloc: Global) -> Result<BidFile, AllocError>
        ensures file { IfOk result (λ f. plain_file f ≡ self.now) }
        ensures memory { OnErr result (0 < length self.now.bids) }
    {
        let goods = self.goods();
        let dummy = self.dummy();
        let held = self.bids();
        let mut bids = Vec::with_capacity(alloc, held.len())?;
        for number in 0..held.len() {
            let (price, goods, dummy) = held.at(number);
            let goods = goods.to_vec(alloc)?;
            bids.push(Bid {
                price,
                goods,
                dummy,
            })?;
        }
        Ok(BidFile::new(goods, dummy, bids))
    }
}
