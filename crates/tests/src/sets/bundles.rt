//! Sets of both kinds, on worked examples. Each call is made with ample memory, so
//! that it has to succeed.
use goods_set::listing::{goods_of, rising_goods};
use goods_set::{GoodsSet, ListSet, WordSet, sort_key};
use std::alloc::Global;
use std::cmp::Ordering;
use std::process::Abort;
use std::test::Fail;

// The set of these goods, of which none comes twice.
fn set_of<S: GoodsSet>(rt: &impl Abort, alloc: Global, goods: &[u16]) -> Result<S, Fail> {
    let mut set = S::empty(alloc)?;
    for good in goods {
        assert!(rt; u32::from(*good) < S::cap());
        let is_new = set.put(*good)?;
        assert!(rt; is_new);
    }
    Ok(set)
}

// These are the goods.
fn expect_goods(rt: &impl Abort, goods: &[u16], expected: &[u16]) {
    assert_eq!(rt; goods, expected);
}

// Two sets: whether the first is inside the second, whether they are apart, their order, and what the second leaves of
// the first.
type Pair = (
    &'static [u16],
    &'static [u16],
    bool,
    bool,
    Ordering,
    &'static [u16],
);

static PAIRS: &[Pair] = rows! {
    (&[], &[], true, true, Ordering::Equal, &[]),
    (&[], &[2], true, true, Ordering::Less, &[]),
    (&[4], &[4], true, false, Ordering::Equal, &[]),
    (&[1, 3], &[1, 2, 3], true, false, Ordering::Less, &[]),
    (&[3, 5], &[9], false, true, Ordering::Greater, &[3, 5]),
    (&[3, 5], &[3, 6], false, false, Ordering::Less, &[5]),
    (&[1, 3], &[1, 2], false, false, Ordering::Greater, &[3]),
    (&[1, 3], &[2], false, true, Ordering::Greater, &[1, 3]),
    (&[0, 9], &[1, 2], false, true, Ordering::Less, &[0, 9]),
    (&[1, 3, 5], &[3, 4], false, false, Ordering::Greater, &[1, 5]),
};

// What the other set leaves of the set are these goods.
fn expect_left<S: GoodsSet>(
    rt: &impl Abort,
    alloc: Global,
    mut set: S,
    other: &S,
    left: &[u16],
) -> Result<(), Fail> {
    set.take_out(other);
    expect_goods(rt, &goods_of(alloc, &set)?, left);
    Ok(())
}

// Whether the set is inside the other, whether they are apart, and their order.
fn expect_relation<S: GoodsSet>(
    rt: &impl Abort,
    set: &S,
    other: &S,
    relation: (bool, bool, Ordering),
) {
    let found = (set.is_inside(other), set.is_apart(other), set.order(other));
    assert_eq!(rt; found, relation);
}

fn compare_pair<S: GoodsSet>(rt: &impl Abort, alloc: Global, pair: &Pair) -> Result<(), Fail> {
    let (goods, others, inside, apart, order, left) = *pair;
    let set = set_of::<S>(rt, alloc, goods)?;
    let other = set_of::<S>(rt, alloc, others)?;
    expect_relation(rt, &set, &other, (inside, apart, order));
    expect_left(rt, alloc, set, &other, left)
}

fn compare_sets<S: GoodsSet>(rt: &impl Abort, alloc: Global) -> Result<(), Fail> {
    for pair in PAIRS {
        compare_pair::<S>(rt, alloc, pair)?;
    }
    Ok(())
}

// The size and the first three goods, of 16 bits each.
static SORT_KEYS: &[(&'static [u16], u64)] = rows! {
    (&[], 0),
    (&[5], 0x0001_0005_0000_0000),
    (&[5, 7], 0x0002_0005_0007_0000),
    (&[5, 7, 800], 0x0003_0005_0007_0320),
    (&[0, 7, 63, 64], 0x0004_0000_0007_003f),
};

fn hold_goods<S: GoodsSet>(rt: &impl Abort, alloc: Global) -> Result<(), Fail> {
    let mut set = S::empty(alloc)?;
    assert_eq!(rt; set.size(), 0);
    assert!(rt; S::cap() > 9);
    assert!(rt; set.put(5)?);
    assert!(rt; set.put(3)?);
    assert!(rt; !set.put(5)?);
    assert_eq!(rt; set.size(), 2);
    assert!(rt; set.has(3) && !set.has(4));
    assert_eq!(rt; (set.next_from(4), set.next_from(6)), (Some(5), None));
    expect_goods(
        rt,
        &goods_of(alloc, &S::from_slice(alloc, &[3, 5])?)?,
        &[3, 5],
    );
    for (goods, key) in SORT_KEYS {
        assert_eq!(rt; sort_key(&set_of::<S>(rt, alloc, goods)?), *key);
    }
    list_goods(rt, alloc, &set.copy()?)
}

// The goods 3 and 5, listed in each way.
fn list_goods<S: GoodsSet>(rt: &impl Abort, alloc: Global, set: &S) -> Result<(), Fail> {
    expect_goods(rt, &goods_of(alloc, set)?, &[3, 5]);
    let mut listed = [7].to_vec(alloc)?;
    set.list_into(&mut listed)?;
    expect_goods(rt, &listed, &[7, 3, 5]);
    expect_goods(rt, rising_goods(set, &mut listed)?, &[3, 5]);
    if let Some(goods) = set.as_slice() {
        expect_goods(rt, goods, &[3, 5]);
    }
    Ok(())
}

// Seventeen goods, which are more than a list keeps in itself.
const MANY: [u16; 17] = [
    1, 2, 3, 5, 8, 13, 21, 34, 55, 89, 144, 233, 377, 610, 987, 1_597, 2_584,
];

// What is seen of a set is the same whether or not it has held many goods.
fn hold_many(rt: &impl Abort, alloc: Global, many: &ListSet) -> Result<(), Fail> {
    expect_goods(rt, &goods_of(alloc, many)?, &MANY);
    let mut left = many.copy()?;
    expect_goods(rt, &goods_of(alloc, &left)?, &MANY);
    left.take_out(&ListSet::from_slice(alloc, &MANY[8..])?);
    expect_goods(rt, &goods_of(alloc, &left)?, &MANY[..8]);
    let few = ListSet::from_slice(alloc, &MANY[..8])?;
    assert_eq!(rt; sort_key(&left), sort_key(&few));
    expect_relation(rt, &left, &few, (true, false, Ordering::Equal));
    expect_relation(rt, &few, &left, (true, false, Ordering::Equal));
    expect_relation(rt, &few, many, (true, false, Ordering::Less));
    expect_relation(rt, many, &few, (false, false, Ordering::Greater));
    expect_left(rt, alloc, few, &left, &[])
}

#[test]
fn lists_hold_many_goods(rt: HostRuntime) -> Result<(), Fail> {
    let alloc = rt.alloc();
    let mut falling = MANY;
    falling.reverse();
    hold_many(&rt, alloc, &set_of::<ListSet>(&rt, alloc, &MANY)?)?;
    hold_many(&rt, alloc, &set_of::<ListSet>(&rt, alloc, &falling)?)?;
    hold_many(&rt, alloc, &ListSet::from_slice(alloc, &MANY)?)
}

#[test]
fn both_sets_hold_goods(rt: HostRuntime) -> Result<(), Fail> {
    hold_goods::<ListSet>(&rt, rt.alloc())?;
    hold_goods::<WordSet<16>>(&rt, rt.alloc())?;
    compare_sets::<ListSet>(&rt, rt.alloc())?;
    compare_sets::<WordSet<16>>(&rt, rt.alloc())
}

// The set of this good alone has it, and none behind it.
fn hold_last_good<S: GoodsSet>(rt: &impl Abort, alloc: Global, last: u16) -> Result<(), Fail> {
    let set = set_of::<S>(rt, alloc, &[last])?;
    assert_eq!(rt; set.next_from(u32::from(last)), Some(last));
    assert_eq!(rt; set.next_from(u32::from(last) + 1), None);
    Ok(())
}

#[test]
fn last_goods_of_each_type(rt: HostRuntime) -> Result<(), Fail> {
    hold_last_good::<ListSet>(&rt, rt.alloc(), 65_535)?;
    hold_last_good::<WordSet<1>>(&rt, rt.alloc(), 63)?;
    hold_last_good::<WordSet<1024>>(&rt, rt.alloc(), 65_535)?;
    let caps = [
        ListSet::cap(),
        WordSet::<0>::cap(),
        WordSet::<1>::cap(),
        WordSet::<64>::cap(),
        WordSet::<2000>::cap(),
    ];
    assert_eq!(rt; caps, [65_536, 0, 64, 4_096, 65_536]);
    Ok(())
}

#[test]
fn words_past_the_last_lanes_count(rt: HostRuntime) -> Result<(), Fail> {
    let alloc = rt.alloc();
    let mut both = set_of::<WordSet<17>>(&rt, alloc, &[3, 1_087])?;
    let three = set_of::<WordSet<17>>(&rt, alloc, &[3])?;
    let last = set_of::<WordSet<17>>(&rt, alloc, &[1_087])?;
    expect_relation(&rt, &both, &three, (false, false, Ordering::Greater));
    expect_relation(&rt, &both, &last, (false, false, Ordering::Greater));
    both.take_out(&last);
    expect_goods(&rt, &goods_of(alloc, &both)?, &[3]);
    Ok(())
}

#[test]
fn sixty_four_words(rt: HostRuntime) -> Result<(), Fail> {
    let set = set_of::<WordSet<64>>(&rt, rt.alloc(), &[4_095, 0])?;
    let found = (set.size(), set.next_from(1), set.next_from(4_096));
    assert_eq!(rt; found, (2, Some(4_095), None));
    Ok(())
}
