//! The first difference of two files or texts. If there is none, they are the same auction.

ghost use Rattle.std.specs.Prelude.{◌≡◌, ◌↔◌, ◌≤◌, length, IfOk, OnErr};
ghost use Rattle.bid_file.specs.Files.{IsPlainFile};
ghost use Rattle.bid_file.specs.declared.limits.TheConstants.{MAX_BIDS};
ghost use Rattle.valuation.specs.Auctions.{auction_from};
ghost use Rattle.valuation.specs.SearchLimits.{plain_options};
ghost use Rattle.canon.specs.Canonical.{IsCanonicalFile};
ghost use Rattle.canon.specs.Comparing.{ComparesAs};
ghost use Rattle.canon.specs.Difference.{first_difference};
ghost use Rattle.canon.specs.Internal.BidderBids.{HasBidders};
ghost use Rattle.canon.specs.Internal.OrBids.{HasOrBids};
ghost use Rattle.canon.specs.Sameness.{AreSameFiles, AreSameTexts};
ghost use Rattle.canon.specs.Verdicts.{NamesGoods, plain_verdict};
ghost use Rattle.canon.specs.declared.verdict.Verdict.TheVariants.{Same};

use crate::canon_fault::CanonFault;
use crate::comparing::bid_run::BidRun;
use crate::comparing::bundles::bundle_verdict;
use crate::comparing::xor_bidders::bidder_verdict;
use crate::normal::text::read_normal;
use crate::verdict::Verdict;
use crate::which::Which;
use bid_file::Bids;
use std::alloc::{AllocError, Global};
use valuation::search::SearchOptions;

/// The first difference of the auctions of two texts' files. The first text is read and made canonical before the second
/// is read; `limit` bounds each plain search that decides on a bundle of an OR bidder.
pub fn compare(
    alloc: Global,
    left: &[u8],
    right: &[u8],
    limit: u64,
) -> Result<Verdict, (Which, CanonFault)>
    ensures answer { ComparesAs (plain_options limit) left.now right.now result }
    ensures same { IfOk result (λ verdict. verdict ≡ Same ↔ AreSameTexts left.now right.now) }
{
    let options = SearchOptions::plain(limit);
    let first = read_normal(alloc, left, options).map_err(|fault| (Which::First, fault))?;
    let second = read_normal(alloc, right, options).map_err(|fault| (Which::Second, fault))?;
    compare_files(alloc, &first, &second).map_err(|_| (Which::Both, CanonFault::Memory))
}

/// The first difference of the auctions of two canonical files, of bids that lie in memory in any way. Only the goods
/// that the verdict names are copied, so that memory is needed for a bundle or a bidder alone.
pub fn compare_files<B: Bids>(alloc: Global, left: &B, right: &B) -> Result<Verdict, AllocError>
    requires left_canonical { IsCanonicalFile (B.file left.now) }
    requires right_canonical { IsCanonicalFile (B.file right.now) }
    ensures difference { IfOk result (λ verdict. plain_verdict verdict
        ≡ first_difference (auction_from (B.file left.now)) (auction_from (B.file right.now))) }
    ensures same { IfOk result (λ verdict. verdict ≡ Same ↔ AreSameFiles (B.file left.now) (B.file right.now)) }
    ensures memory { let difference = first_difference (auction_from (B.file left.now))
        (auction_from (B.file right.now)) in
        OnErr result (NamesGoods difference) }
{
    if left.goods() != right.goods() {
        return Ok(Verdict::Goods(left.goods(), right.goods()));
    }
    let (left_or, left_xor) = split_bids(left);
    let (right_or, right_xor) = split_bids(right);
    match bundle_verdict(alloc, &left_or, &right_or)? {
        Some(verdict) => Ok(verdict),
        None => bidder_verdict(alloc, &left_xor, &right_xor),
    }
}

/// The bids of a canonical file without a dummy good, and those with one.
pub(crate) fn split_bids<B: Bids>(file: &B) -> (BidRun<'_, B>, BidRun<'_, B>)
    requires facts { IsPlainFile (B.file file.now) }
    requires canonical { IsCanonicalFile (B.file file.now) }
    ensures or_bids { HasOrBids (auction_from (B.file file.now)) result.0 }
    ensures xor_bids { HasBidders (auction_from (B.file file.now)) result.1 }
    ensures size { length result.1 ≤ MAX_BIDS }
{
    let bids = BidRun::all(file);
    let count = bids.count_leading(None);
    (bids.up_to(count), bids.from(count))
}
