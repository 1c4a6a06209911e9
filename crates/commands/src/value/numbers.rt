//! The numbers of the bids behind an auction's atoms.

ghost use Rattle.std.specs.Prelude.{◌≡◌, [], IfOk, map, replicate};
ghost use Rattle.std.specs.List.{range_with_len};
ghost use Rattle.bid_file.specs.Files.{IsPlainFile};
ghost use Rattle.commands.specs.Value.{lists_of, or_numbers, xor_numbers};

use bid_file::{Bids, PackedFile};
use std::alloc::{AllocError, Global};

/// The numbers of the bids of the OR bidder, and of each XOR bidder: each list is in the order of the bidder's atoms.
#[derive(Drop)]
pub(super) struct BidNumbers {
    pub or_bids: Vec<usize>,
    pub xor_bids: Vec<Vec<usize>>,
}

/// The numbers of a file's bids, by bidder.
pub(super) fn bid_numbers(alloc: Global, file: &PackedFile) -> Result<BidNumbers, AllocError>
    requires { IsPlainFile file.now }
    ensures or { IfOk result (λ numbers. numbers.or_bids.items ≡ or_numbers file.now.bids) }
    ensures xor { IfOk result (λ numbers. lists_of numbers.xor_bids.items ≡ map (xor_numbers file.now.bids)
        (range_with_len 0 file.now.dummy)) }
{
    let mut or_bids = Vec::new(alloc);
    let mut xor_bids = empty_lists(alloc, file.dummy())?;
    for number in 0..file.len() {
        match file.at(number).dummy {
            None => or_bids.push(number)?,
            Some(dummy) => {
                let bidder = &mut xor_bids[dummy as usize];
                bidder.push(number)?;
            }
        }
    }
    Ok(BidNumbers { or_bids, xor_bids })
}

/// So many lists without a number.
fn empty_lists(alloc: Global, count: u32) -> Result<Vec<Vec<usize>>, AllocError>
    ensures { IfOk result (λ lists. lists_of lists.items ≡ replicate count []) }
{
    let mut lists = Vec::new(alloc);
    for _ in 0..count {
        lists.push(Vec::new(alloc))?;
    }
    Ok(lists)
}
