//! Where each bidder's bids lie in a canonical file.

ghost use Rattle.std.specs.Prelude.{◌≡◌, ◌≤◌, ℕ, List, IfOk, length, map};
ghost use Rattle.bid_file.specs.Files.{IsPlainFile};
ghost use Rattle.bid_file.specs.declared.limits.TheConstants.{MAX_BIDS};
ghost use Rattle.valuation.specs.Auctions.{auction_from};
ghost use Rattle.valuation.specs.declared.atom.Atom.{Atom};
ghost use Rattle.canon.specs.Bidders.{AreBidders, offers};
ghost use Rattle.canon.specs.Canonical.{IsCanonicalFile};
ghost use Rattle.canon.specs.Internal.BidderBids.{AreBidsOf};

use crate::comparing::bid_run::BidRun;
use crate::comparing::comparison::split_bids;
use crate::comparing::xor_bidders::first_bidder;
use bid_file::Bids;
use std::alloc::{AllocError, Global};

/// The bids of each bidder of a canonical file.
#[derive(Drop)]
pub struct FileBidders<'a, B: Bids> {
    /// Those of the OR bidder, in the order of their bundles.
    pub or_bids: BidRun<'a, B>,
    /// Those of each XOR bidder, in the order of the canonical file: bidder d has dummy good d.
    pub xor_bidders: Vec<BidRun<'a, B>>,
}

impl<'a, B: Bids> FileBidders<'a, B> {
    /// The bidders of a canonical file. It takes memory for each XOR bidder, and copies no bid.
    pub fn of(alloc: Global, file: &'a B) -> Result<FileBidders<'a, B>, AllocError>
        requires facts { IsPlainFile (B.file file.now) }
        requires canonical { IsCanonicalFile (B.file file.now) }
        ensures { IfOk result (λ bidders. AreBidders
            (auction_from (B.file file.now)) bidders.or_bids bidders.xor_bidders.items) }
    {
        let (or_bids, xor_bids) = split_bids(file);
        let xor_bidders = split_bidders(alloc, &xor_bids)?;
        Ok(FileBidders {
            or_bids,
            xor_bidders,
        })
    }
}

/// The bids of XOR bidders, bidder by bidder.
fn split_bidders<'a, B: Bids>(
    alloc: Global,
    bids: &BidRun<'a, B>,
) -> Result<Vec<BidRun<'a, B>>, AllocError>
    requires { length bids.now ≤ MAX_BIDS }
    ensures { (bidders : List (List (Atom (List ℕ)))) → AreBidsOf 0 bidders bids.now
        → IfOk result (λ split. map offers split.items ≡ bidders) }
{
    let mut split = Vec::new(alloc);
    let mut rest = bids.from(0);
    while let Some(first) = first_bidder(&rest) {
        let count = first.len();
        split.push(first)?;
        rest = rest.from(count);
    }
    Ok(split)
}
