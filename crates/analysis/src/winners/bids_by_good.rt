//! The numbers of the bids that have a good, for each good.

ghost use Rattle.std.specs.Prelude.{◌≡◌, ◌+◌, ◌<◌, [], All, IfOk, OnOk, length, replicate};
ghost use Rattle.bid_file.specs.Files.{IsPlainFile, goods_of};
ghost use Rattle.bid_file.specs.Views.{seen_bid};
ghost use Rattle.analysis.specs.Internal.BidsByGood.{AreByGood, lists_of, with_bid, with_number};

use bid_file::{BidRef, Bids, PackedFile};
use std::alloc::{AllocError, Global};

/// For each good, and behind these for each dummy good, the numbers of the bids that have it.
pub(crate) fn bids_by_good(alloc: Global, file: &PackedFile) -> Result<Vec<Vec<u32>>, AllocError>
    requires { IsPlainFile file.now }
    ensures { IfOk result (λ lists. AreByGood file.now (length file.now.bids) (lists_of lists.items)) }
{
    let goods = file.goods();
    let mut lists = empty_lists(alloc, usize::from(goods) + file.dummy() as usize)?;
    for number in 0..file.len() {
        put_bid(&mut lists, goods, &file.at(number), number as u32)?;
    }
    Ok(lists)
}

/// So many lists without a number.
fn empty_lists(alloc: Global, count: usize) -> Result<Vec<Vec<u32>>, AllocError>
    ensures { IfOk result (λ lists. lists_of lists.items ≡ replicate count []) }
{
    let mut lists = Vec::new(alloc);
    for _ in 0..count {
        lists.push(Vec::new(alloc))?;
    }
    Ok(lists)
}

/// Puts the number of a bid at the end of the lists of its goods. There are so many real goods.
fn put_bid(
    lists: &mut Vec<Vec<u32>>,
    goods: u16,
    bid: &BidRef<'_>,
    number: u32,
) -> Result<(), AllocError>
    requires { All (λ good. good < length lists.old.items) (goods_of goods (seen_bid bid.now)) }
    ensures { OnOk result (lists_of lists.new.items
        ≡ with_bid number (lists_of lists.old.items) (goods_of goods (seen_bid bid.now))) }
{
    for good in bid.goods {
        put_number(lists, usize::from(*good), number)?;
    }
    match bid.dummy {
        Some(dummy) => put_number(lists, usize::from(goods) + dummy as usize, number),
        None => Ok(()),
    }
}

/// Puts the number of a bid at the end of the list of a good.
fn put_number(lists: &mut Vec<Vec<u32>>, good: usize, number: u32) -> Result<(), AllocError>
    requires { good < length lists.old.items }
    ensures { OnOk result (lists_of lists.new.items ≡ with_number number (lists_of lists.old.items) good) }
{
    let list = &mut lists[good];
    list.push(number)?;
    Ok(())
}
