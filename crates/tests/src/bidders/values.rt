//! Values, on both kinds of sets. Each call is made with ample memory, so that it has to succeed.

use crate::bidders::bids::{
    LADDER, ListAtom, PricedGoods, TRIPLE, alike, atoms_on, bundle_of, goods_below, row_on, singles,
};
use bid_file::limits::MAX_PRICE;
use goods_set::{GoodsSet, ListSet, WordSet};
use std::alloc::Global;
use std::process::Abort;
use std::test::Fail;
use valuation::search::{SearchOptions, or_value_by};
use valuation::{Packing, ValueFault, or_value, xor_value};

// Bids and a bundle, and what is found: the value, and the index of the atom that bids it.
type XorRow = (&'static [PricedGoods], &'static [u16], (u64, Option<usize>));

static XOR_ROWS: &[XorRow] = rows! {
    (&[], &[0, 1], (0, None)),
    (&[(&[0], 0)], &[0], (0, Some(0))),
    (&[(&[0], 5), (&[0], 5)], &[0, 1], (5, Some(0))),
    (LADDER, &[1, 0], (6_000_000, Some(2))),
    (LADDER, &[0], (5_000_000, Some(0))),
    (LADDER, &[1], (0, None)),
};

// What a search for a value answers: the value and the indices of the atoms, or nothing if its steps do not suffice.
type Found = Option<(u128, &'static [usize])>;

const PAIR: &[PricedGoods] = &[(&[0], 3_000_000), (&[1], 4_000_000), (&[0, 1], 7_000_000)];

const DECIMALS: &[PricedGoods] = &[(&[0], 1_500_000), (&[1], 2_250_000), (&[0, 1], 3_750_000)];

// Bids, a bundle and a limit, and what is found.
type OrRow = (&'static [PricedGoods], &'static [u16], u64, Found);

static OR_ROWS: &[OrRow] = rows! {
    (&[], &[], 0, None),
    (&[], &[], 1, Some((0, &[]))),
    (&[(&[0], 0)], &[0], 2, Some((0, &[]))),
    (PAIR, &[0, 1], 5, Some((7_000_000, &[2]))),
    (PAIR, &[0, 1], 4, None),
    (PAIR, &[], 1, Some((0, &[]))),
    (TRIPLE, &[0, 1, 2], 8, None),
    (TRIPLE, &[0, 1, 2], 9, Some((4, &[3]))),
    (DECIMALS, &[0, 1], 5, Some((3_750_000, &[2]))),
};

// So many steps suffice a bounded search for each row.
const ENOUGH: u64 = 1_000;

// What a plain search finds within its limit, and a bounded one, if it has enough steps.
fn or_row<S: GoodsSet>(rt: &impl Abort, alloc: Global, row: &OrRow) -> Result<(), Fail> {
    let (bids, goods, limit, wanted) = *row;
    let atoms = row_on::<S>(rt, alloc, bids)?;
    let bundle = bundle_of::<S>(rt, alloc, goods)?;
    let options = SearchOptions::bounded(ENOUGH, None);
    let answers = [
        (or_value(alloc, &atoms, &bundle, limit), false),
        (or_value_by(alloc, &atoms, &bundle, options), true),
    ];
    for (answer, is_bounded) in &answers {
        let found = match answer {
            Ok(packing) => Some((packing.value, packing.members.as_slice())),
            Err(_) => None,
        };
        assert!(rt;
            found == wanted || *is_bounded && wanted.is_none(),
            "of {row:?}: {answer:?}"
        );
    }
    Ok(())
}

fn xor_row<S: GoodsSet>(rt: &impl Abort, alloc: Global, row: &XorRow) -> Result<(), Fail> {
    let (bids, goods, wanted) = *row;
    let atoms = row_on::<S>(rt, alloc, bids)?;
    let bundle = bundle_of::<S>(rt, alloc, goods)?;
    assert_eq!(rt; xor_value(&atoms, &bundle), wanted, "of {bids:?}");
    Ok(())
}

fn values_of_rows<S: GoodsSet>(rt: &impl Abort, alloc: Global) -> Result<(), Fail> {
    for row in XOR_ROWS {
        xor_row::<S>(rt, alloc, row)?;
    }
    for row in OR_ROWS {
        or_row::<S>(rt, alloc, row)?;
    }
    Ok(())
}

#[test]
fn values_on_both_sets(rt: HostRuntime) -> Result<(), Fail> {
    values_of_rows::<ListSet>(&rt, rt.alloc())?;
    values_of_rows::<WordSet<16>>(&rt, rt.alloc())?;
    values_of_rows::<WordSet<64>>(&rt, rt.alloc())
}

// The search stopped at its limit.
fn expect_step_limit(rt: &impl Abort, answer: Result<Packing, ValueFault>) {
    let fault = answer.expect_err(rt, "no value");
    assert_eq!(rt; fault, ValueFault::StepLimit);
}

// The search found this value, and these indices of the atoms.
fn expect_packing(
    rt: &impl Abort,
    answer: Result<Packing, ValueFault>,
    value: u128,
    members: &[usize],
) {
    let packing = answer.expect(rt, "a value");
    assert_eq!(rt;
        (packing.value, packing.members.as_slice()),
        (value, members)
    );
}

// The bids and the goods, and the limits within which nothing is found and the packing is.
fn expect_least_limit<S: GoodsSet>(
    rt: &impl Abort,
    alloc: Global,
    (bids, goods): (&[ListAtom], &[u16]),
    limits: (u64, u64),
    (value, members): (u128, &[usize]),
) -> Result<(), Fail> {
    let atoms = atoms_on::<S>(rt, alloc, bids)?;
    let bundle = bundle_of::<S>(rt, alloc, goods)?;
    expect_step_limit(rt, or_value(alloc, &atoms, &bundle, limits.0));
    let answer = or_value(alloc, &atoms, &bundle, limits.1);
    expect_packing(rt, answer, value, members);
    Ok(())
}

const ALL_PLACES: &[usize] = &[
    0, 1, 2, 3, 4, 5, 6, 7, 8, 9, 10, 11, 12, 13, 14, 15, 16, 17, 18,
];

// There are 2 to the 19 packings.
fn greatest_prices<S: GoodsSet>(rt: &impl Abort, alloc: Global) -> Result<(), Fail> {
    let (bids, goods) = (singles(alloc, 19, MAX_PRICE)?, goods_below(alloc, 19)?);
    let found = (19_000_000_000_000_000_000, ALL_PLACES);
    expect_least_limit::<S>(rt, alloc, (&bids, &goods), (524_287, 524_288), found)
}

// The sum is above what 64 bits hold.
#[test]
fn sums_above_64_bits(rt: HostRuntime) -> Result<(), Fail> {
    greatest_prices::<ListSet>(&rt, rt.alloc())?;
    greatest_prices::<WordSet<16>>(&rt, rt.alloc())
}

fn many_packings<S: GoodsSet>(
    rt: &impl Abort,
    alloc: Global,
    count: u16,
    limit: u64,
) -> Result<(), Fail> {
    let atoms = atoms_on::<S>(rt, alloc, &singles(alloc, count, 1)?)?;
    let bundle = bundle_of::<S>(rt, alloc, &goods_below(alloc, count)?)?;
    expect_step_limit(rt, or_value(alloc, &atoms, &bundle, limit));
    Ok(())
}

// A search that goes on after its limit would not end here in anybody's lifetime.
#[test]
fn search_stops_at_its_limit(rt: HostRuntime) -> Result<(), Fail> {
    many_packings::<ListSet>(&rt, rt.alloc(), 60, 9)?;
    many_packings::<WordSet<16>>(&rt, rt.alloc(), 60, 9)?;
    many_packings::<WordSet<64>>(&rt, rt.alloc(), 4096, 1_000_000)
}

// Of so many bids on one good a packing has one or none, and the last is the one that is chosen.
fn many_alike<S: GoodsSet>(rt: &impl Abort, alloc: Global, count: u16) -> Result<(), Fail> {
    let bids = alike(alloc, count)?;
    let packings = u64::from(count) + 1;
    let last = usize::from(count.saturating_sub(1));
    expect_least_limit::<S>(
        rt,
        alloc,
        (&bids, &[0, 1]),
        (packings - 1, packings),
        (1, &[last]),
    )
}

// Up to 128 bids have a row each, more have a mask for each good, and more than 4,096 have masks that grow.
#[test]
fn lists_of_each_length(rt: HostRuntime) -> Result<(), Fail> {
    for count in [1, 64, 65, 128, 129, 1025, 4097] {
        many_alike::<ListSet>(&rt, rt.alloc(), count)?;
    }
    many_alike::<WordSet<1>>(&rt, rt.alloc(), 129)
}
