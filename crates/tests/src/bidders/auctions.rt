//! Auctions of files, on both kinds of sets.

use crate::bidders::bids::{UNIT, expect_row};
use bid_file::{Bid, BidFile, PackedBids, PackedFile};
use goods_set::{GoodsSet, ListSet, WordSet};
use std::alloc::Global;
use std::process::Abort;
use std::test::Fail;
use valuation::{Auction, auction_of};

// Three goods and two dummy goods: a bid with the first dummy good, then one without.
fn small_file(alloc: Global) -> Result<BidFile, Fail> {
    let pair = vec![in alloc; 0, 2]?;
    let single = vec![in alloc; 1]?;
    let mut bids = Vec::new(alloc);
    bids.push(Bid {
        price: 20 * UNIT,
        goods: pair,
        dummy: Some(0),
    })?;
    bids.push(Bid {
        price: 7 * UNIT,
        goods: single,
        dummy: None,
    })?;
    Ok(BidFile::new(3, 2, bids))
}

// The same file in little memory.
fn small_packed_file(alloc: Global) -> Result<PackedFile, Fail> {
    let mut bids = PackedBids::new(alloc);
    bids.push(20 * UNIT, &[0, 2], Some(0))?;
    bids.push(7 * UNIT, &[1], None)?;
    Ok(PackedFile::new(3, 2, bids))
}

fn expect_small_auction<S: GoodsSet>(
    rt: &impl Abort,
    alloc: Global,
    auction: &Auction<S>,
) -> Result<(), Fail> {
    assert_eq!(rt; auction.goods(), 3);
    expect_row(rt, alloc, auction.or_atoms(), &[(&[1], 7 * UNIT)])?;
    let [one, unused] = auction.xor_bidders() else {
        panic!(rt; "two dummy goods");
    };
    expect_row(rt, alloc, one, &[(&[0, 2], 20 * UNIT)])?;
    assert!(rt; unused.is_empty());
    Ok(())
}

// The bids without a dummy good are the OR bidder's, those with one its bidder's, and an unused one is a bidder without
// an atom.
fn auction_of_small_file<S: GoodsSet>(rt: &impl Abort, alloc: Global) -> Result<(), Fail> {
    let file = small_file(alloc)?;
    assert!(rt; u32::from(file.goods()) <= S::cap());
    let auction = auction_of::<S, BidFile>(alloc, &file)?;
    expect_small_auction(rt, alloc, &auction)?;
    let (goods, or_atoms, xor_bidders) = auction.into_parts();
    expect_small_auction(rt, alloc, &Auction::new(goods, or_atoms, xor_bidders))?;
    let packed = small_packed_file(alloc)?;
    assert!(rt; u32::from(packed.goods()) <= S::cap());
    expect_small_auction(rt, alloc, &auction_of::<S, PackedFile>(alloc, &packed)?)
}

#[test]
fn auctions_of_files(rt: HostRuntime) -> Result<(), Fail> {
    auction_of_small_file::<ListSet>(&rt, rt.alloc())?;
    auction_of_small_file::<WordSet<64>>(&rt, rt.alloc())
}
