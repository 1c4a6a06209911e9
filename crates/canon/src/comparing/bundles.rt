//! The first bundle on which the OR values differ. The values are those of two canonical files.
//!
//! In a canonical file the OR bids are the points of their bidder, in the order of their bundles. So it is the first
//! bundle on which the bids differ.

ghost use Rattle.std.specs.Prelude.{◌≡◌, IfOk, OnErr, MatchOption, None};
ghost use Rattle.valuation.specs.Auctions.{PlainAuction};
ghost use Rattle.canon.specs.Difference.{first_unequal_bundle, or_difference};
ghost use Rattle.canon.specs.Internal.OrBids.{HasOrBids};
ghost use Rattle.canon.specs.Internal.PriceWalks.{side_at};
ghost use Rattle.canon.specs.Verdicts.{NamesGoods, plain_verdict};

use crate::comparing::bid_run::BidRun;
use crate::comparing::price_walk::PriceWalk;
use crate::verdict::{Side, Verdict};
use bid_file::Bids;
use std::alloc::{AllocError, Global};

/// The first bundle on which the OR bidders of two canonical files differ, of which these are the bids. None if they
/// differ on no bundle.
pub(crate) fn bundle_verdict<B: Bids>(
    alloc: Global,
    left: &BidRun<'_, B>,
    right: &BidRun<'_, B>,
) -> Result<Option<Verdict>, AllocError>
    ensures verdict { (a b : PlainAuction) → HasOrBids a left.now → HasOrBids b right.now → a.goods ≡ b.goods
        → IfOk result (λ found. MatchOption found (first_unequal_bundle a b ≡ None)
        (λ verdict. plain_verdict verdict ≡ or_difference a b (first_unequal_bundle a b))) }
    ensures memory { (a b : PlainAuction) → HasOrBids a left.now → HasOrBids b right.now → a.goods ≡ b.goods
        → OnErr result (NamesGoods (or_difference a b (first_unequal_bundle a b))) }
{
    let Some(change) = PriceWalk::new(left, right).next() else {
        return Ok(None);
    };
    Ok(Some(Verdict::Or {
        bundle: Vec::from_slice(alloc, change.goods)?,
        left: side(change.left, change.right),
        right: side(change.right, change.left),
    }))
}

/// What is reported of the value on a bundle with these prices, of which one file has the first.
fn side(own: Option<u64>, other: Option<u64>) -> Side
    ensures { result ≡ side_at own other }
{
    match own {
        Some(price) => Side::Exactly(price),
        None => Side::Below(other.unwrap_or(0)),
    }
}
