//! The XOR bidders that differ. They are those that the two files do not have equally often, each beside its partner.

ghost use Rattle.std.specs.Prelude.{◌≡◌, ◌<◌, ◌≤◌, ◌||◌, All, IfOk, IfSome, OnOk, is_some, length, map, true};
ghost use Rattle.bid_file.specs.declared.limits.TheConstants.{MAX_DUMMY};
ghost use Rattle.prune.specs.InOrder.{IsInOrder};
ghost use Rattle.canon.specs.Bidders.{offers};
ghost use Rattle.analysis.specs.BidderChanges.{AreBidderChanges, IsBidderChange, bidder_at, waiting_after};
ghost use Rattle.analysis.specs.Internal.Changes.{AreLefts, AreRest};
ghost use Rattle.analysis.specs.Internal.Orders.{NeverFall};
ghost use Rattle.analysis.specs.Internal.Partners.{ArePartners};
ghost use Rattle.analysis.specs.Views.{plain_bidder_change};

use crate::differences::change::BidderChange;
use crate::differences::excess::excess_bidders;
use crate::differences::partners::Partners;
use bid_file::Bids;
use canon::comparing::{BidRun, price_changes};
use std::alloc::{AllocError, Global};

/// The bidders that one list has more often than the other.
pub(crate) fn bidder_changes<'a, B: Bids>(
    alloc: Global,
    left: &[BidRun<'a, B>],
    right: &[BidRun<'a, B>],
) -> Result<Vec<BidderChange<'a>>, AllocError>
    requires left_in_order { All IsInOrder (map offers left.now) }
    requires right_in_order { All IsInOrder (map offers right.now) }
    requires left_never_falls { NeverFall (map offers left.now) }
    requires right_never_falls { NeverFall (map offers right.now) }
    requires left_few { length left.now ≤ MAX_DUMMY }
    requires right_few { length right.now ≤ MAX_DUMMY }
    ensures { IfOk result (λ changes. AreBidderChanges (map offers left.now) (map offers right.now)
        (map plain_bidder_change changes.items)) }
{
    let lefts = excess_bidders(alloc, left, right)?;
    let rights = excess_bidders(alloc, right, left)?;
    let mut partners = Partners::of(alloc, right, rights)?;
    let mut changes = left_changes(alloc, left, right, &lefts, &mut partners)?;
    let rest = partners.rest(alloc)?;
    push_rest(alloc, left, right, &rest, &mut changes)?;
    Ok(changes)
}

/// The left bidders with these indices, each beside its partner if it has one.
fn left_changes<'a, B: Bids>(
    alloc: Global,
    left: &[BidRun<'a, B>],
    right: &[BidRun<'a, B>],
    lefts: &[u32],
    partners: &mut Partners<'a>,
) -> Result<Vec<BidderChange<'a>>, AllocError>
    requires left_in_order { All IsInOrder (map offers left.now) }
    requires right_in_order { All IsInOrder (map offers right.now) }
    requires lefts { All (λ index. index < length left.now) lefts.now }
    requires partners { ArePartners (map offers right.now) partners.old.excess.items partners.old }
    ensures excess { OnOk result (partners.new.excess ≡ partners.old.excess) }
    ensures partners { let excess = partners.old.excess.items in
        OnOk result (ArePartners (map offers right.now) (waiting_after (map offers right.now) excess excess
        (map (bidder_at (map offers left.now)) lefts.now)) partners.new) }
    ensures lefts { IfOk result (λ changes. AreLefts (map offers left.now) (map offers right.now) lefts.now
        partners.old.excess.items (map plain_bidder_change changes.items)) }
{
    let mut changes = Vec::new(alloc);
    for index in lefts {
        let partner = partners.take_for(&left[*index as usize]);
        changes.push(change_of(alloc, left, right, Some(*index), partner)?)?;
    }
    Ok(changes)
}

/// Adds the right bidders with these indices, each alone.
fn push_rest<'a, B: Bids>(
    alloc: Global,
    left: &[BidRun<'a, B>],
    right: &[BidRun<'a, B>],
    rest: &[u32],
    changes: &mut Vec<BidderChange<'a>>,
) -> Result<(), AllocError>
    requires left_in_order { All IsInOrder (map offers left.now) }
    requires right_in_order { All IsInOrder (map offers right.now) }
    requires rest { All (λ index. index < length right.now) rest.now }
    ensures { OnOk result (AreRest (map offers left.now) (map offers right.now) rest.now
        (map plain_bidder_change changes.old.items) (map plain_bidder_change changes.new.items)) }
{
    for index in rest {
        changes.push(change_of(alloc, left, right, None, Some(*index))?)?;
    }
    Ok(())
}

/// A left bidder, a right one, or one of each, and the bids in which they differ.
fn change_of<'a, B: Bids>(
    alloc: Global,
    left: &[BidRun<'a, B>],
    right: &[BidRun<'a, B>],
    own: Option<u32>,
    other: Option<u32>,
) -> Result<BidderChange<'a>, AllocError>
    requires left_in_order { All IsInOrder (map offers left.now) }
    requires right_in_order { All IsInOrder (map offers right.now) }
    requires own { IfSome own (λ index. index < length left.now) }
    requires other { IfSome other (λ index. index < length right.now) }
    requires some { is_some own || is_some other ≡ true }
    ensures change { IfOk result (λ change. IsBidderChange (map offers left.now) (map offers right.now)
        (plain_bidder_change change)) }
    ensures left { IfOk result (λ change. change.left ≡ own) }
    ensures right { IfOk result (λ change. change.right ≡ other) }
{
    let bids = match (own, other) {
        (Some(own), Some(other)) => price_changes(
            alloc,
            &left[own as usize],
            &right[other as usize],
        )?,
        (Some(own), None) => {
            let bids = &left[own as usize];
            price_changes(alloc, bids, &bids.up_to(0))?
        }
        (None, Some(other)) => {
            let bids = &right[other as usize];
            price_changes(alloc, &bids.up_to(0), bids)?
        }
        (None, None) => Vec::new(alloc),
    };
    Ok(BidderChange {
        left: own,
        right: other,
        bids,
    })
}
