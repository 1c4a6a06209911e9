//! The orders of bids, by what they offer.

ghost use Rattle.std.specs.Prelude.{◌≡◌};
ghost use Rattle.bid_file.specs.Views.{seen_bid};
ghost use Rattle.goods_set.specs.Orders.{bundle_cmp};
ghost use Rattle.valuation.specs.Auctions.{atom_of};
ghost use Rattle.valuation.specs.Orders.{atom_cmp};

use bid_file::BidRef;
use std::cmp::Ordering;

/// The order of bundles: by size, then by goods.
pub fn order_of_bundles(one: &[u16], other: &[u16]) -> Ordering
    ensures { result ≡ bundle_cmp one.now other.now }
{
    one.len().cmp(&other.len()).then_with(|| one.cmp(other))
}

/// The order of bids: by bundle, and on one bundle by price, the smaller first.
pub(crate) fn canonical_order(one: &BidRef<'_>, other: &BidRef<'_>) -> Ordering
    ensures { result ≡ atom_cmp (atom_of (seen_bid one.now)) (atom_of (seen_bid other.now)) }
{
    match order_of_bundles(one.goods, other.goods) {
        Ordering::Equal => one.price.cmp(&other.price),
        bundles => bundles,
    }
}
