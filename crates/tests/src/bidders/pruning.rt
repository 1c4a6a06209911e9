//! Pruning, on both kinds of sets. Each call is made with ample memory, so that it has to succeed.

use crate::bidders::bids::{
    AMPLE, Bidder, LADDER, ListAtom, PricedGoods, TRIPLE, UNIT, atoms_on, bids_of, expect_bundle,
    expect_row, goods_below, push_bid, row_on, singles,
};
use goods_set::{GoodsSet, ListSet, WordSet};
use prune::{PruneFault, prune_or, prune_xor};
use std::alloc::{AllocError, Global};
use std::process::Abort;
use std::test::Fail;
use valuation::Atom;

// Bids, and the points of their XOR bidder.
static XOR_ROWS: &[(&[PricedGoods], &[PricedGoods])] = rows! {
    (&[], &[]),
    (&[(&[0], 0)], &[]),
    (&[(&[0, 1], 5), (&[0], 5)], &[(&[0], 5)]),
    (&[(&[0], 3), (&[0], 5)], &[(&[0], 5)]),
    (&[(&[0], 5), (&[0], 3)], &[(&[0], 5)]),
    (&[(&[0], 5), (&[0], 5)], &[(&[0], 5)]),
    (&[(&[0, 1], 1), (&[1], 1), (&[0], 1)], &[(&[0], 1), (&[1], 1)]),
    (&[(&[0, 1, 2], 2), (&[0, 1], 2), (&[0], 1)], &[(&[0], 1), (&[0, 1], 2)]),
    (LADDER, &[(&[0], 5_000_000), (&[0, 1], 6_000_000)]),
};

fn xor_rows<S: GoodsSet>(rt: &impl Abort, alloc: Global) -> Result<(), Fail> {
    for (bids, points) in XOR_ROWS {
        let kept = prune_xor(alloc, row_on::<S>(rt, alloc, bids)?)?;
        expect_row(rt, alloc, &kept, points)?;
    }
    Ok(())
}

#[test]
fn xor_points_on_both_sets(rt: HostRuntime) -> Result<(), Fail> {
    xor_rows::<ListSet>(&rt, rt.alloc())?;
    xor_rows::<WordSet<16>>(&rt, rt.alloc())?;
    xor_rows::<WordSet<64>>(&rt, rt.alloc())
}

// The OR bids are pruned to these, or their search is stopped at these goods.
#[derive(Drop)]
enum Pruned {
    To(&'static [PricedGoods]),
    StoppedAt(&'static [u16]),
}

// Bids and a limit, and what they are pruned to.
type OrRow = (&'static [PricedGoods], u64, Pruned);

fn expect_pruned<S: GoodsSet>(
    rt: &impl Abort,
    alloc: Global,
    answer: Result<Vec<Atom<S>>, PruneFault<S>>,
    pruned: &Pruned,
) -> Result<(), AllocError> {
    match (answer, pruned) {
        (Ok(kept), Pruned::To(points)) => expect_row(rt, alloc, &kept, points),
        (Err(PruneFault::StepLimit { bundle }), Pruned::StoppedAt(goods)) => {
            expect_bundle(rt, alloc, &bundle, goods)
        }
        _ => panic!(rt; "the bids are pruned, or the step limit is reported"),
    }
}

fn or_rows<S: GoodsSet>(rt: &impl Abort, alloc: Global) -> Result<(), Fail> {
    for (bids, limit, pruned) in OR_ROWS {
        let answer = prune_or(alloc, row_on::<S>(rt, alloc, bids)?, *limit);
        expect_pruned(rt, alloc, answer, pruned)?;
    }
    Ok(())
}

// A bid that others reach is dropped, one above them stays.
static OR_ROWS: &[OrRow] = rows! {
    (&[], 0, Pruned::To(&[])),
    (&[(&[0], 0)], 0, Pruned::To(&[])),
    (&[(&[0], 1), (&[0], 2), (&[0, 1, 2], 0)], 1, Pruned::To(&[(&[0], 2)])),
    (&[(&[0], 3_000_000), (&[1], 4_000_000), (&[0, 1], 7_000_000)], 4, Pruned::To(&[(&[0], 3_000_000), (&[1], 4_000_000)])),
    (&[(&[0, 1], 8_000_000), (&[0], 3_000_000), (&[1], 4_000_000), (&[0, 1], 8_000_000)], AMPLE,
     Pruned::To(&[(&[0], 3_000_000), (&[1], 4_000_000), (&[0, 1], 8_000_000)])),
    (&[(&[0], 1), (&[0], 1), (&[1], 1), (&[0, 1], 3)], 4, Pruned::To(&[(&[0], 1), (&[1], 1), (&[0, 1], 3)])),
    // the search is cut if the prices left do not suffice, and ends once the price is reached
    (&[(&[0], 1)], 0, Pruned::StoppedAt(&[0])),
    (&[(&[1], 1), (&[0], 1)], 0, Pruned::StoppedAt(&[0])),
    (TRIPLE, 1, Pruned::To(TRIPLE)),
    (TRIPLE, 7, Pruned::To(TRIPLE)),
    (PAIRS, 3, Pruned::StoppedAt(&[0, 1, 2])),
    (PAIRS, 4, Pruned::To(&[(&[0], 2), (&[1], 2), (&[2], 2)])),
    (REACHED, 2, Pruned::StoppedAt(&[0, 1])),
    (REACHED, 3, Pruned::To(&[(&[0], 3), (&[1], 4)])),
};

const PAIRS: &[PricedGoods] = &[(&[0], 2), (&[1], 2), (&[2], 2), (&[0, 1, 2], 5)];

const REACHED: &[PricedGoods] = &[(&[0], 3), (&[1], 4), (&[0, 1], 7)];

#[test]
fn or_points_on_both_sets(rt: HostRuntime) -> Result<(), Fail> {
    or_rows::<ListSet>(&rt, rt.alloc())?;
    or_rows::<WordSet<16>>(&rt, rt.alloc())?;
    or_rows::<WordSet<64>>(&rt, rt.alloc())
}

// The bids 0:1 to (n-1):1, and before them n on all goods but the last, and n + 2 on all.
fn step_bomb(alloc: Global, n: u16) -> Result<Bidder, AllocError> {
    let mut bids = Vec::new(alloc);
    let but_the_last = goods_below(alloc, n.saturating_sub(1))?;
    push_bid(alloc, &mut bids, &but_the_last, u64::from(n))?;
    push_bid(alloc, &mut bids, &goods_below(alloc, n)?, u64::from(n) + 2)?;
    bids.append(&mut singles(alloc, n, 1)?)?;
    Ok(bids)
}

// All pairs of so many goods at 1 each, and the bundle of all of them at a price.
fn pairs_and_all(alloc: Global, n: u16, price: u64) -> Result<Bidder, AllocError> {
    let mut bids = Vec::new(alloc);
    push_bid(alloc, &mut bids, &goods_below(alloc, n)?, price)?;
    for good in 0..n {
        for other in 0..good {
            push_bid(alloc, &mut bids, &[other, good], 1)?;
        }
    }
    Ok(bids)
}

// The bids 1:{0}, 2:{0,1}, 3:{0,1,2} and so on, each inside the next.
fn nested_bids(alloc: Global, n: u16) -> Result<Bidder, AllocError> {
    let mut bids = Vec::new(alloc);
    for good in 0..n {
        let goods = goods_below(alloc, good + 1)?;
        push_bid(alloc, &mut bids, &goods, u64::from(good) + 1)?;
    }
    Ok(bids)
}

// The bids on both halves of so many goods at 3 and 4, and one on all of them at a price.
fn halves_and_all(alloc: Global, n: u16, price: u64) -> Result<Bidder, AllocError> {
    let mut bids = Vec::new(alloc);
    push_bid(alloc, &mut bids, &goods_below(alloc, n / 2)?, 3)?;
    let second: Vec<u16> = (n / 2..n).collect(alloc)?;
    push_bid(alloc, &mut bids, &second, 4)?;
    push_bid(alloc, &mut bids, &goods_below(alloc, n)?, price)?;
    Ok(bids)
}

// How many bids these are pruned to within a limit, if they are.
fn expect_count<S: GoodsSet>(
    rt: &impl Abort,
    alloc: Global,
    bids: &[ListAtom],
    limit: u64,
    expected: Option<usize>,
) -> Result<(), AllocError> {
    let found = match prune_or(alloc, atoms_on::<S>(rt, alloc, bids)?, limit) {
        Ok(kept) => Some(kept.len()),
        Err(_) => None,
    };
    assert_eq!(rt; found, expected, "{} bids within {limit}", bids.len());
    Ok(())
}

// The same on both kinds of sets.
fn expect_counts(
    rt: &impl Abort,
    alloc: Global,
    bids: &[ListAtom],
    limits: &[(u64, Option<usize>)],
) -> Result<(), AllocError> {
    for (limit, expected) in limits {
        expect_count::<ListSet>(rt, alloc, bids, *limit, *expected)?;
        expect_count::<WordSet<64>>(rt, alloc, bids, *limit, *expected)?;
    }
    Ok(())
}

#[test]
fn many_steps_on_both_sets(rt: HostRuntime) -> Result<(), Fail> {
    let steps = [(1_048_574, None), (1_048_575, Some(22))];
    Ok(expect_counts(&rt, rt.alloc(), &step_bomb(rt.alloc(), 20)?, &steps)?)
}

// A search that goes on after its limit would not end here in anybody's lifetime, on few goods or on many.
#[test]
fn search_stops_at_its_limit(rt: HostRuntime) -> Result<(), Fail> {
    for n in [60, 100] {
        expect_counts(
            &rt,
            rt.alloc(),
            &step_bomb(rt.alloc(), n)?,
            &[(1_000_000, None)],
        )?;
    }
    Ok(())
}

// Lists of more bids than have a row each; bids of which each is inside the next, so that the greatest search enters the
// empty family and each bid alone but the last; and bundles on both sides of what one set of indices holds.
#[test]
fn lists_of_each_kind(rt: HostRuntime) -> Result<(), Fail> {
    let alloc = rt.alloc();
    let pairs = pairs_and_all(alloc, 17, 8)?;
    expect_counts(&rt, alloc, &pairs, &[(8, None), (9, Some(136))])?;
    for (n, steps) in [
        (60, [(58, None), (59, Some(60))]),
        (80, [(78, None), (79, Some(80))]),
    ] {
        expect_counts(&rt, alloc, &nested_bids(alloc, n)?, &steps)?;
    }
    for n in [64, 65, 1024, 1025, 4096] {
        expect_counts(
            &rt,
            alloc,
            &halves_and_all(alloc, n, 7)?,
            &[(2, None), (3, Some(2))],
        )?;
        expect_counts(&rt, alloc, &halves_and_all(alloc, n, 8)?, &[(3, Some(3))])?;
    }
    Ok(())
}

// Of more XOR bids than are compared one by one, each inside the next, only one that the bid before it dominates is
// dropped.
fn nested_xor<S: GoodsSet>(rt: &impl Abort, alloc: Global) -> Result<(), Fail> {
    let mut bids = nested_bids(alloc, 60)?;
    push_bid(alloc, &mut bids, &goods_below(alloc, 61)?, 60)?;
    let atoms = atoms_on::<S>(rt, alloc, &bids)?;
    assert_eq!(rt; prune_xor(alloc, atoms)?.len(), 60);
    Ok(())
}

// The bids 0:0, 0:1, and so on, in units. `runs::normalise` of `program_tests` has the most bids of a file.
fn one_bundle<S: GoodsSet>(rt: &impl Abort, alloc: Global) -> Result<(), Fail> {
    let mut bids = Vec::new(alloc);
    for price in 0..5_000 {
        push_bid(alloc, &mut bids, &[0], price * UNIT)?;
    }
    let greatest: &[PricedGoods] = &[(&[0], 4_999_000_000)];
    let kept = prune_xor(alloc, atoms_on::<S>(rt, alloc, &bids)?)?;
    expect_row(rt, alloc, &kept, greatest)?;
    let answer = prune_or(alloc, atoms_on::<S>(rt, alloc, &bids)?, 1);
    Ok(expect_pruned(rt, alloc, answer, &Pruned::To(greatest))?)
}

#[test]
fn many_bids_on_both_sets(rt: HostRuntime) -> Result<(), Fail> {
    nested_xor::<ListSet>(&rt, rt.alloc())?;
    nested_xor::<WordSet<16>>(&rt, rt.alloc())?;
    one_bundle::<ListSet>(&rt, rt.alloc())?;
    one_bundle::<WordSet<64>>(&rt, rt.alloc())
}
