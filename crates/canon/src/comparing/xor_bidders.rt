//! The least XOR bidder that two canonical files do not have equally often.
//!
//! In a canonical file the bids of a bidder lie side by side, under a dummy good of their own, and the bidders never
//! fall. So the two files are walked side by side, bidder by bidder, up to the first two that differ. The lesser of
//! them is the one.

ghost use Rattle.std.specs.Prelude.{◌≡◌, ℕ, ◌≤◌, length, List, IfOk, OnErr, MatchOption};
ghost use Rattle.bid_file.specs.declared.limits.TheConstants.{MAX_BIDS};
ghost use Rattle.valuation.specs.declared.atom.Atom.{Atom};
ghost use Rattle.valuation.specs.Auctions.{PlainAuction};
ghost use Rattle.valuation.specs.Orders.{bidder_cmp};
ghost use Rattle.valuation.specs.Sorting.{count_of};
ghost use Rattle.canon.specs.Bidders.{offers};
ghost use Rattle.canon.specs.Internal.BidderBids.{AreBidsOf, HasBidders, IsFirstBidder};
ghost use Rattle.canon.specs.Difference.{least_unequal_bidder, xor_difference};
ghost use Rattle.canon.specs.Verdicts.{NamesGoods, plain_verdict, printed_atoms};

use crate::comparing::bid_run::BidRun;
use crate::verdict::Verdict;
use bid_file::Bids;
use std::alloc::{AllocError, Global};
use std::cmp::Ordering;

/// The least XOR bidder that two canonical files do not have equally often: these are their bids with a dummy good.
pub(crate) fn bidder_verdict<B: Bids>(
    alloc: Global,
    left: &BidRun<'_, B>,
    right: &BidRun<'_, B>,
) -> Result<Verdict, AllocError>
    requires left_size { length left.now ≤ MAX_BIDS }
    requires right_size { length right.now ≤ MAX_BIDS }
    ensures verdict { (a b : PlainAuction) → HasBidders a left.now → HasBidders b right.now
        → IfOk result (λ verdict. plain_verdict verdict ≡ xor_difference a b (least_unequal_bidder a b)) }
    ensures memory { (a b : PlainAuction) → HasBidders a left.now → HasBidders b right.now
        → OnErr result (NamesGoods (xor_difference a b (least_unequal_bidder a b))) }
{
    match least_unequal(left, right) {
        None => Ok(Verdict::Same),
        Some(bidder) => Ok(Verdict::Xor {
            bidder: named_bids(alloc, &bidder)?,
            left: count_copies(&bidder, left),
            right: count_copies(&bidder, right),
        }),
    }
}

/// The bids of the least bidder that the two do not have equally often.
fn least_unequal<'a, B: Bids>(left: &BidRun<'a, B>, right: &BidRun<'a, B>) -> Option<BidRun<'a, B>>
    ensures { (a b : PlainAuction) → HasBidders a left.now → HasBidders b right.now
        → MatchOption result (least_unequal_bidder a b ≡ None) (λ bidder. least_unequal_bidder a b
        ≡ Some (offers bidder)) }
{
    let mut left_rest = left.from(0);
    let mut right_rest = right.from(0);
    while let (Some(one), Some(other)) = (first_bidder(&left_rest), first_bidder(&right_rest)) {
        match one.order(&other) {
            Ordering::Less => return Some(one),
            Ordering::Greater => return Some(other),
            Ordering::Equal => {
                left_rest = left_rest.from(one.len());
                right_rest = right_rest.from(other.len());
            }
        }
    }
    first_bidder(&left_rest).or(first_bidder(&right_rest))
}

/// How many bidders have these bids.
fn count_copies<B: Bids>(bidder: &BidRun<'_, B>, bids: &BidRun<'_, B>) -> u32
    requires { length bids.now ≤ MAX_BIDS }
    ensures { (bidders : List (List (Atom (List ℕ)))) → AreBidsOf 0 bidders bids.now
        → result ≡ count_of bidder_cmp (offers bidder.now) bidders }
{
    let mut copies = 0;
    let mut rest = bids.from(0);
    while let Some(first) = first_bidder(&rest) {
        if bidder.order(&first).is_eq() {
            copies += 1;
        }
        rest = rest.from(first.len());
    }
    copies
}

/// The bids of the first bidder: the leading ones with one dummy good.
pub(crate) fn first_bidder<'a, B: Bids>(bids: &BidRun<'a, B>) -> Option<BidRun<'a, B>>
    ensures { MatchOption result (length bids.now ≡ 0) (λ first. IsFirstBidder bids.now first) }
{
    if bids.len() == 0 {
        return None;
    }
    Some(bids.up_to(bids.count_leading(bids.at(0).dummy)))
}

/// The bids' goods and prices.
fn named_bids<B: Bids>(
    alloc: Global,
    bids: &BidRun<'_, B>,
) -> Result<Vec<(Vec<u16>, u64)>, AllocError>
    ensures { IfOk result (λ named. printed_atoms named.items ≡ offers bids.now) }
{
    let mut named = Vec::with_capacity(alloc, bids.len())?;
    for i in 0..bids.len() {
        let bid = bids.at(i);
        named.push((Vec::from_slice(alloc, bid.goods)?, bid.price))?;
    }
    Ok(named)
}
