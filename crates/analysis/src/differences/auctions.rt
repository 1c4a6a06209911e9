//! All differences of two canonical files.

ghost use Rattle.std.specs.Prelude.{◌≡◌, IfOk};
ghost use Rattle.bid_file.specs.Files.{IsPlainFile};
ghost use Rattle.valuation.specs.Auctions.{auction_from};
ghost use Rattle.canon.specs.Canonical.{IsCanonicalFile};
ghost use Rattle.analysis.specs.Differences.{AreAllDifferences, goods_change};
ghost use Rattle.analysis.specs.Views.{plain_differences};

use crate::differences::bidder_changes::bidder_changes;
use crate::differences::change::Differences;
use bid_file::Bids;
use canon::comparing::{FileBidders, price_changes};
use std::alloc::{AllocError, Global};

/// All differences of the auctions of two canonical files, of bids that lie in memory in any way. No bid is copied: the
/// differences borrow the goods of the files.
pub fn all_differences<'a, B: Bids>(
    alloc: Global,
    left: &'a B,
    right: &'a B,
) -> Result<Differences<'a>, AllocError>
    requires left_facts { IsPlainFile (B.file left.now) }
    requires left_canonical { IsCanonicalFile (B.file left.now) }
    requires right_facts { IsPlainFile (B.file right.now) }
    requires right_canonical { IsCanonicalFile (B.file right.now) }
    ensures { IfOk result (λ differences. AreAllDifferences (auction_from (B.file left.now))
        (auction_from (B.file right.now)) (plain_differences differences)) }
{
    let own = FileBidders::of(alloc, left)?;
    let others = FileBidders::of(alloc, right)?;
    Ok(Differences {
        goods: goods_change(left.goods(), right.goods()),
        bundles: price_changes(alloc, &own.or_bids, &others.or_bids)?,
        bidders: bidder_changes(alloc, &own.xor_bidders, &others.xor_bidders)?,
    })
}

/// Two numbers of goods, if they differ.
fn goods_change(left: u16, right: u16) -> Option<(u16, u16)>
    ensures { result ≡ goods_change left right }
{
    if left == right {
        return None;
    }
    Some((left, right))
}
