//! Bids for the tests: as lists of goods, and on sets of both kinds.
ghost use Rattle.std.specs.Prelude.{All, IfOk};
ghost use Rattle.bid_file.specs.declared.limits.TheConstants.{MAX_GOODS};
ghost use Rattle.valuation.specs.Auctions.{IsAtom};
ghost use Rattle.valuation.specs.Values.{plain_atom, atoms_of};

use bid_file::limits::MAX_GOODS;
use goods_set::GoodsSet;
use goods_set::listing::goods_of;
use std::alloc::{AllocError, Global};
use std::process::Abort;
use valuation::Atom;

/// A bid on a bundle that is a list.
pub type ListAtom = Atom<Vec<u16>>;

/// The bids of one bidder.
pub type Bidder = Vec<ListAtom>;

/// A limit that no search of a small example reaches.
pub const AMPLE: u64 = 1_000_000;

/// A million millionths.
pub const UNIT: u64 = 1_000_000;

/// The goods of a bid, and its price.
pub type PricedGoods = (&'static [u16], u64);

/// The later bids are worth no less.
pub const LADDER: &[PricedGoods] = &[
    (&[0], 5_000_000),
    (&[0, 1], 5_000_000),
    (&[0, 1], 6_000_000),
];

/// A bid on all goods that is above the others together.
pub const TRIPLE: &[PricedGoods] = &[(&[0], 1), (&[1], 1), (&[2], 1), (&[0, 1, 2], 4)];

/// Appends a bid.
pub fn push_bid(
    alloc: Global,
    bids: &mut Bidder,
    goods: &[u16],
    price: u64,
) -> Result<(), AllocError> {
    let bundle = Vec::from_slice(alloc, goods)?;
    bids.push(Atom { bundle, price })?;
    Ok(())
}

/// The bids of a row.
pub fn bids_of(alloc: Global, row: &[PricedGoods]) -> Result<Bidder, AllocError> {
    let mut bids = Vec::new(alloc);
    for (goods, price) in row {
        push_bid(alloc, &mut bids, goods, *price)?;
    }
    Ok(bids)
}

/// Bids on so many goods, each on one, at one price.
pub fn singles(alloc: Global, count: u16, price: u64) -> Result<Bidder, AllocError> {
    let mut bids = Vec::new(alloc);
    for good in 0..count {
        push_bid(alloc, &mut bids, &[good], price)?;
    }
    Ok(bids)
}

/// So many bids on good 0, each at a price of 1.
pub fn alike(alloc: Global, count: u16) -> Result<Bidder, AllocError> {
    let mut bids = Vec::new(alloc);
    for _bid in 0..count {
        push_bid(alloc, &mut bids, &[0], 1)?;
    }
    Ok(bids)
}

/// The goods below `count`.
pub fn goods_below(alloc: Global, count: u16) -> Result<Vec<u16>, AllocError> {
    (0..count).collect(alloc)
}

/// The set of these goods, all of which it can hold.
pub fn bundle_of<S: GoodsSet>(
    rt: &impl Abort,
    alloc: Global,
    goods: &[u16],
) -> Result<S, AllocError> {
    let mut bundle = S::empty(alloc)?;
    for good in goods {
        assert!(rt; u32::from(*good) < S::cap());
        bundle.put(*good)?;
    }
    Ok(bundle)
}

/// The bid on a set. It keeps the limits.
fn atom_on_set<S: GoodsSet>(
    rt: &impl Abort,
    alloc: Global,
    bid: &ListAtom,
) -> Result<Atom<S>, AllocError>
    ensures { IfOk result (λ atom. IsAtom MAX_GOODS (plain_atom S.goods atom)) }
{
    let bundle = bundle_of(rt, alloc, &bid.bundle)?;
    let price = bid.price;
    let atom = Atom { bundle, price };
    let kept = atom.keeps_limits(MAX_GOODS);
    assert!(rt; kept);
    Ok(atom)
}

/// The bids on sets.
pub fn atoms_on<S: GoodsSet>(
    rt: &impl Abort,
    alloc: Global,
    bids: &[ListAtom],
) -> Result<Vec<Atom<S>>, AllocError>
    ensures { IfOk result (λ atoms. All (IsAtom MAX_GOODS) (atoms_of S.goods atoms.items)) }
{
    let mut atoms = Vec::new(alloc);
    for bid in bids {
        atoms.push(atom_on_set(rt, alloc, bid)?)?;
    }
    Ok(atoms)
}

/// The bids of a row on sets.
pub fn row_on<S: GoodsSet>(
    rt: &impl Abort,
    alloc: Global,
    row: &[PricedGoods],
) -> Result<Vec<Atom<S>>, AllocError>
    ensures { IfOk result (λ atoms. All (IsAtom MAX_GOODS) (atoms_of S.goods atoms.items)) }
{
    atoms_on(rt, alloc, &bids_of(alloc, row)?)
}

/// The set has these goods.
pub fn expect_bundle<S: GoodsSet>(
    rt: &impl Abort,
    alloc: Global,
    bundle: &S,
    goods: &[u16],
) -> Result<(), AllocError> {
    assert_eq!(rt; goods_of(alloc, bundle)?.as_slice(), goods);
    Ok(())
}

/// The atoms are these bids, in this order.
pub fn expect_bids<S: GoodsSet>(
    rt: &impl Abort,
    alloc: Global,
    atoms: &[Atom<S>],
    bids: &[ListAtom],
) -> Result<(), AllocError> {
    assert_eq!(rt; atoms.len(), bids.len());
    for (atom, bid) in atoms.iter().zip(bids.iter()) {
        assert_eq!(rt; atom.price, bid.price);
        expect_bundle(rt, alloc, &atom.bundle, &bid.bundle)?;
    }
    Ok(())
}

/// The atoms are the bids of the row.
pub fn expect_row<S: GoodsSet>(
    rt: &impl Abort,
    alloc: Global,
    atoms: &[Atom<S>],
    row: &[PricedGoods],
) -> Result<(), AllocError> {
    expect_bids(rt, alloc, atoms, &bids_of(alloc, row)?)
}
