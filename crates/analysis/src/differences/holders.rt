//! The right bidders in excess, by the bundles of their bids.

ghost use Rattle.std.specs.Prelude.{◌≡◌, ◌++◌, ◌∷◌, [], ◌<◌, ℕ, List, cond, length, map, filter, All, IfOk, OnOk};
ghost use Rattle.std.specs.Ordering.{is_eq};
ghost use Rattle.goods_set.specs.Orders.{bundle_cmp};
ghost use Rattle.prune.specs.InOrder.{IsInOrder};
ghost use Rattle.canon.specs.Bidders.{offers};
ghost use Rattle.analysis.specs.BidderChanges.{bidders_on};
ghost use Rattle.analysis.specs.Internal.Holders.{found_at, holders_at, is_on, passed_in, waits_at};

use bid_file::Bids;
use canon::comparing::BidRun;
use std::alloc::{AllocError, Global};
use std::collections::BTreeMap;

/// The right bidders that have a bid on a bundle, in order.
#[derive(Drop)]
pub(crate) struct Holders {
    indices: Vec<u32>,
    /// So many of the first ones wait no more. This is only for speed.
    passed: usize,
}

/// A right bidder that waits, and how many in excess have a bid on the bundle on which it was found.
#[derive(Clone, Copy)]
pub(crate) struct Candidate {
    pub(crate) index: u32,
    pub(crate) count: usize,
}

/// Whether the right bidder of this index waits.
pub(crate) fn waits(waits: &[bool], index: u32) -> bool
    ensures { result ≡ waits_at waits.now index }
{
    match waits.get(index as usize) {
        Some(waits) => *waits,
        None => false,
    }
}

impl Holders {
    ghost use Rattle.std.specs.Prelude.{◌≡◌, filter, slice_get, MatchOption, Some, []};
    ghost use Rattle.analysis.specs.Internal.Holders.{ArePassed, waits_at};

    /// The first of them that waits, and how many they are.
    pub(crate) fn first_waiting(&mut self, waiting: &[bool]) -> Option<Candidate>
        ensures indices { self.new.indices ≡ self.old.indices }
        ensures passed { ArePassed waiting.now (Some self.old) → ArePassed waiting.now (Some self.new) }
        ensures first { ArePassed waiting.now (Some self.old)
            → MatchOption result (filter (waits_at waiting.now) self.old.indices.items ≡ [])
            (λ c. (slice_get (filter (waits_at waiting.now) self.old.indices.items) 0 ≡ Some c.index)
            × (c.count ≡ length self.old.indices.items)) }
    {
        while self.passed < self.indices.len() {
            let index = self.indices[self.passed];
            if waits(waiting, index) {
                return Some(Candidate {
                    index,
                    count: self.indices.len(),
                });
            }
            self.passed += 1;
        }
        None
    }
}

/// Adds a bidder to those that have a bid on the bundle with these goods.
fn add<'a>(
    alloc: Global,
    holders: &mut BTreeMap<&'a [u16], Holders>,
    goods: &'a [u16],
    index: u32,
) -> Result<(), AllocError>
    ensures indices { OnOk result ((bundle : List ℕ) → holders_at holders.new bundle
        ≡ holders_at holders.old bundle ++ cond (is_eq (bundle_cmp goods.now bundle)) (index ∷ []) []) }
    ensures passed { OnOk result ((bundle : List ℕ) → passed_in (found_at holders.new bundle)
        ≡ passed_in (found_at holders.old bundle)) }
{
    if let Some(known) = holders.get_mut(&goods) {
        known.indices.push(index)?;
        return Ok(());
    }
    let mut indices = Vec::new(alloc);
    indices.push(index)?;
    holders.insert(goods, Holders { indices, passed: 0 })?;
    Ok(())
}

/// Adds a bidder to those that have a bid on the bundle of each of its bids.
fn add_bids<'a, B: Bids>(
    alloc: Global,
    holders: &mut BTreeMap<&'a [u16], Holders>,
    bidder: &BidRun<'a, B>,
    index: u32,
) -> Result<(), AllocError>
    ensures indices { OnOk result ((bundle : List ℕ) → holders_at holders.new bundle
        ≡ holders_at holders.old bundle ++ map (λ _. index) (filter (is_on bundle) (offers bidder.now))) }
    ensures passed { OnOk result ((bundle : List ℕ) → passed_in (found_at holders.new bundle)
        ≡ passed_in (found_at holders.old bundle)) }
{
    for i in 0..bidder.len() {
        add(alloc, holders, bidder.at(i).goods, index)?;
    }
    Ok(())
}

/// The bidders with these indices, by the bundles of their bids.
pub(crate) fn holders_of<'a, B: Bids>(
    alloc: Global,
    bidders: &[BidRun<'a, B>],
    indices: &[u32],
) -> Result<BTreeMap<&'a [u16], Holders>, AllocError>
    requires in_order { All IsInOrder (map offers bidders.now) }
    requires within { All (λ index. index < length bidders.now) indices.now }
    ensures indices { IfOk result (λ holders. (bundle : List ℕ) → holders_at holders bundle
        ≡ bidders_on (map offers bidders.now) indices.now bundle) }
    ensures passed { IfOk result (λ holders. (bundle : List ℕ) → passed_in (found_at holders bundle) ≡ 0) }
{
    let mut holders = BTreeMap::new(alloc);
    for index in indices {
        add_bids(alloc, &mut holders, &bidders[*index as usize], *index)?;
    }
    Ok(holders)
}
