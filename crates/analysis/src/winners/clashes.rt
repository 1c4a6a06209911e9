//! The first two bids that cannot both win.

ghost use Rattle.std.specs.Prelude.{◌≡◌, ◌<◌, All, IfOk, None, length};
ghost use Rattle.bid_file.specs.Files.{IsPlainFile, goods_of};
ghost use Rattle.bid_file.specs.Views.{seen_bid};
ghost use Rattle.goods_set.specs.Bundles.{IsBundle};
ghost use Rattle.analysis.specs.AllocationVerdicts.{first_clash};
ghost use Rattle.analysis.specs.Internal.FirstHolders.{held_by, least_holder, lesser};

use bid_file::{BidRef, Bids, PackedFile};
use std::alloc::{AllocError, Global};

/// The first two of these bids that cannot both win, in order of their numbers. The bids are walked from the last to the
/// first: at each good, and behind these at each dummy good, is the first of the later bids that has it.
pub(crate) fn first_clash(
    alloc: Global,
    file: &PackedFile,
    winners: &[u32],
) -> Result<Option<(u32, u32)>, AllocError>
    requires plain { IsPlainFile file.now }
    requires numbers { IsBundle (length file.now.bids) winners.now }
    ensures { IfOk result (λ clash. clash ≡ first_clash file.now winners.now) }
{
    let goods = file.goods();
    let count = usize::from(goods) + file.dummy() as usize;
    let mut holders: Vec<Option<u32>> = vec![in alloc; None; count]?;
    let mut clash = None;
    for index in (0..winners.len()).rev() {
        let number = winners[index];
        let bid = file.at(number as usize);
        if let Some(rival) = least_holder(&holders, goods, &bid) {
            clash = Some((number, rival));
        }
        hold(&mut holders, goods, &bid, number);
    }
    Ok(clash)
}

/// The least number at the goods of a bid.
fn least_holder(holders: &[Option<u32>], goods: u16, bid: &BidRef<'_>) -> Option<u32>
    requires { All (λ good. good < length holders.now) (goods_of goods (seen_bid bid.now)) }
    ensures { result ≡ least_holder holders.now None (goods_of goods (seen_bid bid.now)) }
{
    let mut least = None;
    for good in bid.goods {
        least = lesser(least, holders[usize::from(*good)]);
    }
    match bid.dummy {
        Some(dummy) => lesser(least, holders[usize::from(goods) + dummy as usize]),
        None => least,
    }
}

/// Puts the number of a bid at each of its goods.
fn hold(holders: &mut [Option<u32>], goods: u16, bid: &BidRef<'_>, number: u32)
    requires { All (λ good. good < length holders.old) (goods_of goods (seen_bid bid.now)) }
    ensures { holders.new ≡ held_by number holders.old (goods_of goods (seen_bid bid.now)) }
{
    for good in bid.goods {
        holders[usize::from(*good)] = Some(number);
    }
    if let Some(dummy) = bid.dummy {
        holders[usize::from(goods) + dummy as usize] = Some(number);
    }
}

/// The lesser of two numbers, of which any may not be there.
fn lesser(one: Option<u32>, other: Option<u32>) -> Option<u32>
    ensures { result ≡ lesser one other }
{
    match (one, other) {
        (Some(one), Some(other)) => Some(one.min(other)),
        (one, None) => one,
        (None, other) => other,
    }
}
