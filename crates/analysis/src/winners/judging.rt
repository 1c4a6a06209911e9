//! Whether bids that are named as winners are an allocation.

ghost use Rattle.std.specs.Prelude.{◌≡◌, ◌<◌, All, IfOk, None, OnErr, length};
ghost use Rattle.std.specs.List.{find};
ghost use Rattle.bid_file.specs.Files.{IsPlainFile};
ghost use Rattle.goods_set.specs.Bundles.{has_good};
ghost use Rattle.analysis.specs.AllocationVerdicts.{allocation_verdict, clash_of, missing_bid};
ghost use Rattle.analysis.specs.Allocations.{revenue};
ghost use Rattle.analysis.specs.Internal.FirstHolders.{IsRisingOf};

use crate::winners::allocation_verdict::AllocationVerdict;
use crate::winners::clashes::first_clash;
use bid_file::{Bids, PackedFile};
use std::alloc::{AllocError, Global};

/// Whether the bids of these numbers, which may be in any order and repeated, are an allocation; or the first number that
/// the file does not have. They are walked from the last to the first, in a time near-linear in their goods and the file's.
pub fn judge_allocation(
    alloc: Global,
    file: &PackedFile,
    bids: &[u32],
) -> Result<Result<AllocationVerdict, u32>, AllocError>
    requires { IsPlainFile file.now }
    ensures verdict { IfOk result (λ verdict. verdict ≡ allocation_verdict file.now bids.now) }
    ensures memory { OnErr result (missing_bid file.now bids.now ≡ None) }
{
    if let Some(number) = first_missing(file, bids) {
        return Ok(Err(number));
    }
    let winners = rising(alloc, bids)?;
    let winners = winners.as_slice();
    match first_clash(alloc, file, winners)? {
        Some((first, second)) => Ok(Ok(clash(file, first, second))),
        None => Ok(Ok(AllocationVerdict::Revenue(revenue(file, winners)))),
    }
}

/// The first number that the file does not have.
fn first_missing(file: &PackedFile, bids: &[u32]) -> Option<u32>
    ensures { result ≡ missing_bid file.now bids.now }
{
    let count = file.len();
    bids.iter()
        .copied()
        .find(|number| *number as usize >= count)
}

/// The numbers in order, each once.
fn rising(alloc: Global, bids: &[u32]) -> Result<Vec<u32>, AllocError>
    ensures { IfOk result (λ winners. IsRisingOf bids.now winners.items) }
{
    let mut winners = Vec::from_slice(alloc, bids)?;
    winners.sort_unstable();
    winners.dedup();
    Ok(winners)
}

/// The sum of the prices of the bids of these numbers.
fn revenue(file: &PackedFile, winners: &[u32]) -> u128
    requires plain { IsPlainFile file.now }
    requires within { All (λ i. i < length file.now.bids) winners.now }
    ensures { result ≡ revenue file.now winners.now }
{
    let mut sum = 0;
    for number in winners {
        let bid = file.at(*number as usize);
        sum += u128::from(bid.price);
    }
    sum
}

/// Why the two bids of these numbers cannot both win.
fn clash(file: &PackedFile, first: u32, second: u32) -> AllocationVerdict
    requires first { first < length file.now.bids }
    requires second { second < length file.now.bids }
    ensures { result ≡ clash_of file.now first second }
{
    let one = file.at(first as usize);
    let other = file.at(second as usize);
    match first_shared(one.goods, other.goods) {
        Some(good) => AllocationVerdict::SharedGood {
            first,
            second,
            good,
        },
        None => AllocationVerdict::SharedBidder {
            first,
            second,
            dummy: one.dummy.unwrap_or(0),
        },
    }
}

/// The least good that is in two lists. No bid has so many goods that it matters that this is not linear.
fn first_shared(one: &[u16], other: &[u16]) -> Option<u16>
    ensures { result ≡ find (has_good other.now) one.now }
{
    one.iter().copied().find(|good| other.contains(good))
}
