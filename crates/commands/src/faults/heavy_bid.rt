//! The bid that is named when a step limit refuses its bundle, and the limit that is met.

ghost use Rattle.std.specs.Prelude.{◌≡◌, IfOk, Some, nat_lt};
ghost use Rattle.bid_file.specs.Views.{seen_bid};
ghost use Rattle.valuation.specs.Auctions.{auction_from, or_atoms_of};
ghost use Rattle.prune.specs.SearchSteps.{first_refused, search_steps_by};
ghost use Rattle.canon.specs.Answers.{RefusesAuction};
ghost use Rattle.commands.specs.Internal.WiderTotals.{IsWider};
ghost use Rattle.commands.specs.Normalise.{first_bid_on, is_on, limit_met, with_bid};

use crate::faults::{HeavyBid, Limit, RunFault};
use bid_file::{BidRef, Bids, PackedFile};
use canon::normal::named_normal_file;
use canon::{CanonFault, Which};
use std::alloc::{AllocError, Global};
use valuation::search::SearchOptions;

/// The fault of a file that was given: if a step limit refuses a bundle, with the number of its first bid and the limit
/// that is met.
pub fn name_bid(
    alloc: Global,
    which: Which,
    file: &PackedFile,
    options: SearchOptions,
    fault: CanonFault,
) -> Result<RunFault, AllocError>
    ensures { RefusesAuction options (auction_from file.now) fault
        → IfOk result (λ why. why ≡ with_bid which file.now options fault) }
{
    match fault {
        CanonFault::StepLimit { goods } => {
            let limit = limit_met(alloc, file, options, goods.as_slice())?;
            let number = first_bid_on(file, goods.as_slice()) as u64;
            let heavy = HeavyBid {
                number,
                goods,
                limit,
            };
            Ok(RunFault::TooHeavy(which, heavy))
        }
        fault => Ok(RunFault::Refused(which, fault)),
    }
}

/// The limit that is met where these limits refuse the bundle of these goods first.
fn limit_met(
    alloc: Global,
    file: &PackedFile,
    options: SearchOptions,
    goods: &[u16],
) -> Result<Limit, AllocError>
    ensures { first_refused options file.now.goods (or_atoms_of file.now.bids) ≡ Some goods.now
        → IfOk result (λ limit. limit ≡ limit_met options file.now goods.now) }
{
    let Some(total) = options.total else {
        return Ok(Limit::OfEach(options.each));
    };
    if total < options.each {
        return Ok(Limit::OfAll(total));
    }
    if is_over_alone(alloc, file, options, goods)? {
        Ok(Limit::OfEach(options.each))
    } else {
        Ok(Limit::OfAll(total))
    }
}

/// Whether the search on the bundle of these goods takes more steps than one may, where these limits refuse it first.
///
/// The file is searched again, with a total that leaves this search all the steps that one may take.
fn is_over_alone(
    alloc: Global,
    file: &PackedFile,
    options: SearchOptions,
    goods: &[u16],
) -> Result<bool, AllocError>
    ensures { first_refused options file.now.goods (or_atoms_of file.now.bids) ≡ Some goods.now
        → IfOk result (λ is_over. is_over ≡ nat_lt options.each
        (search_steps_by options.kind file.now.goods (or_atoms_of file.now.bids) goods.now)) }
{
    let wider = SearchOptions {
        kind: options.kind,
        each: options.each,
        total: with_one_more(options),
    };
    match named_normal_file(alloc, file, wider) {
        Ok(_) => Ok(false),
        Err(CanonFault::StepLimit { goods: found }) => Ok(found.as_slice() == goods),
        Err(_) => Err(AllocError),
    }
}

/// The total with the steps of one search more, or none where that is no number of 64 bits.
fn with_one_more(options: SearchOptions) -> Option<u64>
    ensures { IsWider options.each options.total result }
{
    options.total?.checked_add(options.each)
}

/// The number of the first bid of the OR bidder on the bundle of these goods.
fn first_bid_on(file: &PackedFile, goods: &[u16]) -> usize
    ensures { result ≡ first_bid_on file.now goods.now }
{
    let count = Bids::len(file);
    for number in 0..count {
        if is_on(&file.at(number), goods) {
            return number;
        }
    }
    count
}

/// Whether it is a bid of the OR bidder on this bundle.
fn is_on(bid: &BidRef<'_>, goods: &[u16]) -> bool
    ensures { result ≡ is_on goods.now (seen_bid bid.now) }
{
    bid.dummy.is_none() && bid.goods == goods
}
