//! The file of an auction.

ghost use Rattle.std.specs.Prelude.{◌≡◌, ◌++◌, IfOk, OnOk, map};
ghost use Rattle.bid_file.specs.Views.{plain_file};
ghost use Rattle.valuation.specs.Values.{atoms_of};
ghost use Rattle.valuation.specs.Views.{plain_auction};
ghost use Rattle.canon.specs.Canonical.{bid_from, file_from};

use bid_file::{BidFile, PackedBids, PackedFile};
use goods_set::GoodsSet;
use goods_set::listing::rising_goods;
use std::alloc::{AllocError, Global};
use valuation::{Atom, Auction};

/// The file of any auction, canonical or not: the OR bidder's atoms are bids without a dummy good, and those of the XOR
/// bidders have the dummy goods 0, 1, and so on.
pub fn file_of<S: GoodsSet>(alloc: Global, auction: &Auction<S>) -> Result<BidFile, AllocError>
    ensures { IfOk result (λ file. plain_file file ≡ file_from (plain_auction auction.now)) }
{
    let file = packed_file_of(alloc, auction)?;
    file.to_file(alloc)
}

/// The packed file of any auction, as `file_of`. The goods of one bid at a time are listed, in one buffer.
pub(crate) fn packed_file_of<S: GoodsSet>(
    alloc: Global,
    auction: &Auction<S>,
) -> Result<PackedFile, AllocError>
    ensures { IfOk result (λ file. file ≡ file_from (plain_auction auction.now)) }
{
    let bidders = auction.xor_bidders();
    let mut bids = PackedBids::new(alloc);
    bids.reserve(count_atoms(auction))?;
    let mut bundle = Vec::new(alloc);
    push_bids(&mut bids, &mut bundle, auction.or_atoms(), None)?;
    for (dummy, bidder) in bidders.iter().enumerate() {
        let atoms = bidder.as_slice();
        push_bids(&mut bids, &mut bundle, atoms, Some(dummy as u32))?;
    }
    Ok(PackedFile::new(auction.goods(), bidders.len() as u32, bids))
}

/// How many bids the file of an auction has, which says how much capacity it needs.
fn count_atoms<S: GoodsSet>(auction: &Auction<S>) -> usize {
    let mut count = auction.or_atoms().len();
    for bidder in auction.xor_bidders() {
        count = count.saturating_add(bidder.len());
    }
    count
}

/// Appends a bid for each atom, all with the same dummy good.
fn push_bids<S: GoodsSet>(
    bids: &mut PackedBids,
    bundle: &mut Vec<u16>,
    atoms: &[Atom<S>],
    dummy: Option<u32>,
) -> Result<(), AllocError>
    ensures { OnOk result (bids.new ≡ bids.old ++ map (bid_from dummy) (atoms_of S.goods atoms.now)) }
{
    for atom in atoms {
        let goods = rising_goods(&atom.bundle, bundle)?;
        bids.push(atom.price, goods, dummy)?;
    }
    Ok(())
}
