//! A bidder's best bid on a bundle. It is found in a list of all bids in order.

ghost use Rattle.std.specs.Prelude.{◌≡◌, ℕ, ◌<◌, IfOk, length};
ghost use Rattle.bid_file.specs.Files.{IsPlainFile, PlainFile};
ghost use Rattle.bid_file.specs.Views.{seen_bid};
ghost use Rattle.analysis.specs.Bids.{IsBestFor, bid_at, bidder_of};
ghost use Rattle.analysis.specs.BidOrders.{AreInOrder, AreNumbered, HasBid, key_cmp, numbered_cmp};

use bid_file::{BidRef, Bids, PackedFile};
use canon::comparing::order_of_bundles;
use std::alloc::{AllocError, Global};
use std::cmp::Ordering;

/// A bid, and its number in the file.
#[derive(Clone, Copy)]
pub struct NumberedBid<'a> {
    pub bid: BidRef<'a>,
    pub number: u32,
}

/// The bidder of a bid as a number: 0 is the OR bidder, and the others come behind it in the order of their dummy goods.
fn bidder_of(dummy: Option<u32>) -> u64
    ensures { result ≡ bidder_of dummy }
{
    match dummy {
        None => 0,
        Some(dummy) => u64::from(dummy) + 1,
    }
}

/// By bidder, and of one bidder by goods.
pub(crate) fn order_of_keys(one: &BidRef<'_>, other: &BidRef<'_>) -> Ordering
    ensures { result ≡ key_cmp (seen_bid one.now) (seen_bid other.now) }
{
    bidder_of(one.dummy)
        .cmp(&bidder_of(other.dummy))
        .then_with(|| order_of_bundles(one.goods, other.goods))
}

/// By bidder and goods, the higher price first, and of equal ones by number.
fn best_first(one: &NumberedBid<'_>, other: &NumberedBid<'_>) -> Ordering
    ensures { result ≡ numbered_cmp one.now other.now }
{
    order_of_keys(&one.bid, &other.bid)
        .then(other.bid.price.cmp(&one.bid.price))
        .then(one.number.cmp(&other.number))
}

/// The bids of a file with their numbers.
fn numbered_bids(alloc: Global, file: &PackedFile) -> Result<Vec<NumberedBid<'_>>, AllocError>
    requires { IsPlainFile file.now }
    ensures { IfOk result (λ bids. AreNumbered file.now bids.items) }
{
    let count = Bids::len(file);
    let mut bids = Vec::with_capacity(alloc, count)?;
    for number in 0..count {
        bids.push(NumberedBid {
            bid: file.at(number),
            number: number as u32,
        })?;
    }
    Ok(bids)
}

/// All bids of a file in order, so that the best of a bidder's bids on a bundle is the first.
pub fn bids_in_order(alloc: Global, file: &PackedFile) -> Result<Vec<NumberedBid<'_>>, AllocError>
    requires { IsPlainFile file.now }
    ensures { IfOk result (λ bids. AreInOrder file.now bids.items) }
{
    let mut bids = numbered_bids(alloc, file)?;
    bids.sort_unstable_by(|one, other| best_first(one, other));
    Ok(bids)
}

/// The number of the best of the bids of a bid's bidder on its goods. All bids are given, in order.
pub fn number_of(bids: &[NumberedBid<'_>], bid: &BidRef<'_>) -> u32
    requires there { HasBid bids.now (seen_bid bid.now) }
    ensures { (f : PlainFile) → AreInOrder f bids.now → (i : ℕ) → i < length f.bids
        → bid_at f i ≡ seen_bid bid.now → IsBestFor f i result }
{
    let index = bids.partition_point(|other| order_of_keys(&other.bid, bid).is_lt());
    bids[index].number
}
