//! The best bid of each bundle.
ghost use Rattle.std.specs.Prelude.{◌≤◌, OnOk, vec_len};
ghost use Rattle.valuation.specs.Values.{atoms_of};
ghost use Rattle.prune.specs.Internal.BestBids.{AreBestBids};

use crate::sorting::{greater_price_first, put_in_order};
use goods_set::GoodsSet;
use std::alloc::{AllocError, Global};
use valuation::Atom;

/// Keeps of each bundle the bid of the greatest price, if that is above 0, and puts the bids in order.
pub fn keep_best_bids<S: GoodsSet>(alloc: Global, bids: &mut Vec<Atom<S>>) -> Result<(), AllocError>
    ensures best { OnOk result (AreBestBids (atoms_of S.goods bids.old.items) (atoms_of S.goods bids.new.items)) }
    ensures fewer { OnOk result (vec_len bids.new ≤ vec_len bids.old) }
{
    bids.retain(|bid| bid.price > 0);
    put_in_order(alloc, bids)?;
    bids.sort_unstable_by(|a, b| greater_price_first(a, b));
    // In order, a later bid's bundle is inside that of the one before it only if the two are the same.
    bids.dedup_by(|later, best| later.bundle.is_inside(&best.bundle));
    Ok(())
}
