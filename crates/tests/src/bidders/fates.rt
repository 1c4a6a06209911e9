//! What becomes of best bids, on both kinds of sets. Each call is made with ample memory, so that it has to succeed.

use crate::bidders::bids::{
    AMPLE, ListAtom, PricedGoods, atoms_on, bids_of, push_bid, row_on, singles,
};
use goods_set::{GoodsSet, ListSet, WordSet};
use prune::fates::{FateLog, prune_or_by, prune_xor_noting};
use std::alloc::Global;
use std::process::Abort;
use std::test::Fail;
use valuation::search::SearchOptions;

// The best bids are on {0}, {1}, {2}, {0, 1}, {1, 2} and {0, 1, 2}. All but the last two are kept.
const OR_BIDS: &[PricedGoods] = rows! {
    (&[0, 1, 2], 12),
    (&[2], 5),
    (&[1], 4),
    (&[0, 1], 8),
    (&[0], 3),
    (&[1, 2], 9),
    (&[0], 2),
    (&[1], 0),
};

// What becomes of them by plain and by bounded searches: the indices of the packings that reach the prices of the last two.
type OrFates = [Option<&'static [usize]>; 6];

static PLAIN_FATES: OrFates = [None, None, None, None, Some(&[1, 2]), Some(&[0, 1, 2])];

static BOUNDED_FATES: OrFates = [None, None, None, None, Some(&[1, 2]), Some(&[2, 3])];

fn or_fates<S: GoodsSet>(
    rt: &impl Abort,
    alloc: Global,
    options: SearchOptions,
    expected: &OrFates,
) -> Result<(), Fail> {
    let mut log = FateLog::new(alloc, true);
    let bids = row_on::<S>(rt, alloc, OR_BIDS)?;
    assert!(rt; prune_or_by(alloc, bids, options, &mut log).is_ok());
    let fates = log.into_fates();
    assert_eq!(rt; fates.len(), expected.len());
    for (fate, indices) in fates.iter().zip(expected.iter()) {
        match (fate, indices) {
            (Some(found), Some(indices)) => assert_eq!(rt; found.as_slice(), *indices),
            (None, None) => (),
            _ => panic!(rt; "the bid is kept or dropped as it has to be"),
        }
    }
    Ok(())
}

#[test]
fn or_fates_on_both_sets(rt: HostRuntime) -> Result<(), Fail> {
    let bounded = SearchOptions::bounded(AMPLE, Some(AMPLE));
    for (options, fates) in [
        (SearchOptions::plain(AMPLE), &PLAIN_FATES),
        (bounded, &BOUNDED_FATES),
    ] {
        or_fates::<ListSet>(&rt, rt.alloc(), options, fates)?;
        or_fates::<WordSet<16>>(&rt, rt.alloc(), options, fates)?;
    }
    Ok(())
}

// Bids, and what becomes of the best ones: none, or the index of the first point inside the bundle with at least the price.
static XOR_ROWS: &[(&[PricedGoods], &[Option<usize>])] = rows! {
    (&[(&[0], 0)], &[]),
    (&[(&[0, 1, 2], 3), (&[0, 2], 5), (&[0, 1], 4), (&[1], 4), (&[0], 3)], &[None, None, Some(1), None, Some(0)]),
    (&[(&[0, 1, 2], 5), (&[0, 2], 5), (&[0, 1], 4), (&[1], 4), (&[0], 3)], &[None, None, Some(1), None, Some(2)]),
};

fn xor_fates<S: GoodsSet>(
    rt: &impl Abort,
    alloc: Global,
    bids: &[ListAtom],
    wanted: bool,
) -> Result<Vec<Option<usize>>, Fail> {
    let mut log = FateLog::new(alloc, wanted);
    prune_xor_noting(alloc, atoms_on::<S>(rt, alloc, bids)?, &mut log)?;
    Ok(log.into_fates())
}

// From this index on these are the fates.
fn expect_xor_fates<S: GoodsSet>(
    rt: &impl Abort,
    alloc: Global,
    bids: &[ListAtom],
    from: usize,
    fates: &[Option<usize>],
) -> Result<(), Fail> {
    let noted = xor_fates::<S>(rt, alloc, bids, true)?;
    assert_eq!(rt; noted.get(from..), Some(fates));
    Ok(())
}

fn xor_fates_of_rows<S: GoodsSet>(rt: &impl Abort, alloc: Global) -> Result<(), Fail> {
    for (bids, fates) in XOR_ROWS {
        let bids = bids_of(alloc, bids)?;
        expect_xor_fates::<S>(rt, alloc, &bids, 0, fates)?;
        assert!(rt; xor_fates::<S>(rt, alloc, &bids, false)?.is_empty());
    }
    Ok(())
}

// Bids beside 40 on single goods at a price of 1, so many that they are found by their goods. The first point inside the
// last bundle, {2, 5}, has an earlier index than {3, 4}.
const BESIDE_SINGLES: &[PricedGoods] = rows! {
    (&[3, 4], 50),
    (&[2, 5], 50),
    (&[3, 39], 1),
    (&[2, 3, 4, 5], 50),
};

fn xor_fates_of_many<S: GoodsSet>(rt: &impl Abort, alloc: Global) -> Result<(), Fail> {
    let mut bids = singles(alloc, 40, 1)?;
    for (goods, price) in BESIDE_SINGLES {
        push_bid(alloc, &mut bids, goods, *price)?;
    }
    let fates = [None, None, Some(3), Some(40)];
    expect_xor_fates::<S>(rt, alloc, &bids, 40, &fates)
}

#[test]
fn xor_fates_on_both_sets(rt: HostRuntime) -> Result<(), Fail> {
    xor_fates_of_rows::<ListSet>(&rt, rt.alloc())?;
    xor_fates_of_rows::<WordSet<64>>(&rt, rt.alloc())?;
    xor_fates_of_many::<ListSet>(&rt, rt.alloc())?;
    xor_fates_of_many::<WordSet<64>>(&rt, rt.alloc())
}
