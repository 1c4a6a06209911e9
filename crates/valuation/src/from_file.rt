//! The auction of a bid file.
ghost use Rattle.std.specs.Prelude.{◌≡◌, ◌≤◌, [], length, replicate, vec_len, IfOk};
ghost use Rattle.bid_file.specs.Files.{IsPlainFile};
ghost use Rattle.valuation.specs.Auctions.{auction_from};
ghost use Rattle.valuation.specs.Bidders.{bidders_of};
ghost use Rattle.valuation.specs.Views.{plain_auction};

use crate::atom::Atom;
use crate::auction::Auction;
use bid_file::Bids;
use goods_set::GoodsSet;
use std::alloc::{AllocError, Global};

/// How many bids have no dummy good, and how many have each, so that no bidder's vector takes more memory than it has
/// to. No file has so many that a count saturates.
fn count_by_bidder<B: Bids>(alloc: Global, file: &B) -> Result<(usize, Vec<usize>), AllocError>
    requires { IsPlainFile (B.file file.now) }
    ensures { IfOk result (λ counts. vec_len counts.1 ≡ (B.file file.now).dummy) }
{
    let mut without: usize = 0;
    let mut counts: Vec<usize> = vec![in alloc; 0; file.dummy() as usize]?;
    for number in 0..file.len() {
        match file.at(number).dummy {
            None => without = without.saturating_add(1),
            Some(dummy) => {
                let count = &mut counts[dummy as usize];
                *count = count.saturating_add(1);
            }
        }
    }
    Ok((without, counts))
}

/// As many bidders without an atom, with capacity for so many atoms each.
fn empty_bidders<S: GoodsSet>(
    alloc: Global,
    counts: &[usize],
) -> Result<Vec<Vec<Atom<S>>>, AllocError>
    ensures { IfOk result (λ bidders. bidders_of S.goods bidders.items ≡ replicate (length counts.now) []) }
{
    let mut bidders = Vec::with_capacity(alloc, counts.len())?;
    for count in counts {
        bidders.push(Vec::with_capacity(alloc, *count)?)?;
    }
    Ok(bidders)
}

/// The auction of a file. The bids without a dummy good are the OR bidder's; those that share a dummy good are one XOR
/// bidder's, even if there is only one, and a dummy good that no bid has is a bidder without an atom. The atoms are in
/// the order of the bids' numbers.
pub fn auction_of<S: GoodsSet, B: Bids>(alloc: Global, file: &B) -> Result<Auction<S>, AllocError>
    requires { (B.file file.now).goods ≤ S.CAP }
    ensures { IfOk result (λ a. plain_auction a ≡ auction_from (B.file file.now)) }
{
    let goods = file.goods();
    let (without, counts) = count_by_bidder(alloc, file)?;
    let mut or_atoms = Vec::with_capacity(alloc, without)?;
    let mut xor_bidders = empty_bidders(alloc, &counts)?;
    for number in 0..file.len() {
        let bid = file.at(number);
        let atom = Atom {
            bundle: S::from_slice(alloc, bid.goods)?,
            price: bid.price,
        };
        match bid.dummy {
            None => or_atoms.push(atom)?,
            Some(dummy) => {
                let bidder = &mut xor_bidders[dummy as usize];
                bidder.push(atom)?;
            }
        }
    }
    Ok(Auction::new(goods, or_atoms, xor_bidders))
}
