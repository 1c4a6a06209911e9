//! Bids in order, sorted by sort keys. A key is a number: the bids' indices are sorted by their keys, sets are compared
//! only where keys are equal, and a bid is moved once or twice. This is for speed alone: no clause says that the bids
//! are in order, and a caller that needs the order sorts them, which is fast on a list that is in order.
ghost use Rattle.std.specs.Prelude.{◌≡◌, vec_len, IsPermutation};
ghost use Rattle.prune.specs.Internal.BestBids.{bid_cmp};
ghost use Rattle.valuation.specs.Values.{plain_atom};

use goods_set::{GoodsSet, sort_key};
use std::alloc::{AllocError, Global};
use std::cmp::Ordering;
use valuation::Atom;

/// So few bids are left as they are: to sort them without keys takes less time than to list the keys.
const SHORT_LIST: usize = 32;

/// A bid, by the sort key of its bundle and its index.
#[derive(Clone, Copy)]
struct KeyedIndex {
    key: u64,
    index: usize,
}

/// The order of bids: by bundle, and on one bundle the greater price first.
pub fn greater_price_first<S: GoodsSet>(one: &Atom<S>, other: &Atom<S>) -> Ordering
    ensures { result ≡ bid_cmp (plain_atom S.goods one.now) (plain_atom S.goods other.now) }
{
    one.bundle
        .order(&other.bundle)
        .then(other.price.cmp(&one.price))
}

/// The order of two of the bids. If the keys differ, none is looked at.
fn order_by_keys<S: GoodsSet>(bids: &[Atom<S>], one: &KeyedIndex, other: &KeyedIndex) -> Ordering {
    match one.key.cmp(&other.key) {
        Ordering::Equal => match (bids.get(one.index), bids.get(other.index)) {
            (Some(one), Some(other)) => greater_price_first(one, other),
            _ => Ordering::Equal,
        },
        unequal => unequal,
    }
}

/// The indices of the bids in the order of the bids.
fn indices_in_order<S: GoodsSet>(
    alloc: Global,
    bids: &[Atom<S>],
) -> Result<Vec<KeyedIndex>, AllocError> {
    let mut indices = Vec::with_capacity(alloc, bids.len())?;
    for (index, bid) in bids.iter().enumerate() {
        let key = sort_key(&bid.bundle);
        indices.push(KeyedIndex { key, index })?;
    }
    indices.sort_unstable_by(|one, other| order_by_keys(bids, one, other));
    Ok(indices)
}

/// Where the bid that belongs at `to` is now, when each index before `to` has its bid. At first it was at the index that
/// is listed at `to`. The bid that was at an index before `to` is where the bid of that index came from, and that index
/// is listed there now.
fn index_now(indices: &[KeyedIndex], to: usize) -> usize {
    let mut from = to;
    for _ in 0..indices.len() {
        from = match indices.get(from) {
            Some(listed) => listed.index,
            None => to,
        };
        if to <= from {
            break;
        }
    }
    from
}

/// Puts the bids in order. An index past the end, which never comes, is skipped.
pub fn put_in_order<S: GoodsSet>(alloc: Global, bids: &mut Vec<Atom<S>>) -> Result<(), AllocError>
    ensures permutation { IsPermutation bids.old.items bids.new.items }
    ensures len { vec_len bids.new ≡ vec_len bids.old }
{
    if bids.len() <= SHORT_LIST {
        return Ok(());
    }
    let mut indices = indices_in_order(alloc, bids)?;
    for to in 0..bids.len() {
        let from = index_now(&indices, to);
        if let Some(listed) = indices.get_mut(to) {
            listed.index = from;
        }
        if to < from && from < bids.len() {
            bids.swap(to, from);
        }
    }
    Ok(())
}
