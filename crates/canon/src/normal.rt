//! The canonical file of a file.

mod atom_order;
pub(crate) mod auction;
pub(crate) mod file;
mod keyed_bidder;
mod named;
pub(crate) mod text;

ghost use Rattle.std.specs.Prelude.{◌≡◌, ◌≤◌, true, None, IfOk, IfErr, OnOk};
ghost use Rattle.bid_file.specs.Views.{plain_file};
ghost use Rattle.valuation.specs.SearchLimits.{plain_options};
ghost use Rattle.valuation.specs.Views.{plain_auction};
ghost use Rattle.prune.specs.SearchSteps.{first_refused};
ghost use Rattle.canon.specs.Answers.{NormalisesAuctionAs, NormalisesFileAs, NormalisesPlainAs, RefusesAuction};
ghost use Rattle.canon.specs.Answers.{unnamed_answer};
ghost use Rattle.canon.specs.Canonical.{IsCanonical, IsCanonicalFile, canonical_auction};
ghost use Rattle.canon.specs.Internal.Fates.{AreFates};
ghost use Rattle.canon.specs.Internal.KeyedBidders.{kept_numbers};
ghost use Rattle.canon.specs.Least.{IsLeastFor};
ghost use Rattle.canon.specs.Sameness.{AreSameFiles};

use crate::canon_fault::CanonFault;
use crate::normal::auction::{NamedAuction, named_canonical};
use crate::normal::file::packed_file_of;
use bid_file::{BidFile, PackedFile, pack};
use goods_set::GoodsSet;
use goods_set::listing::goods_of;
pub use named::{BidderFates, NamedFile, explained_normal_file, named_normal_file};
use prune::PruneFault;
use std::alloc::Global;
use std::mem;
use valuation::search::SearchOptions;
use valuation::{Auction, auction_of, on_set_for};

/// The canonical file of a file: the file of its canonical auction. `limit` bounds each plain search that decides on a
/// bundle of the OR bidder.
pub fn normal_file(alloc: Global, file: &BidFile, limit: u64) -> Result<BidFile, CanonFault>
    ensures answer { NormalisesFileAs (plain_options limit) (plain_file file.now) result }
    ensures same { IfOk result (λ h. AreSameFiles (plain_file file.now) (plain_file h)) }
    ensures canonical { IfOk result (λ h. IsCanonicalFile (plain_file h)) }
    ensures least { IfOk result (λ h. IsLeastFor (plain_file file.now) (plain_file h)) }
{
    let packed = pack(alloc, file)?;
    let normal = normal_packed_file(alloc, packed, SearchOptions::plain(limit))?;
    Ok(normal.to_file(alloc)?)
}

/// The canonical file of a packed file, as `normal_file`, by searches of any kind: all kinds give the same file. The
/// file is given up before its auction is made canonical.
pub fn normal_packed_file(
    alloc: Global,
    file: PackedFile,
    options: SearchOptions,
) -> Result<PackedFile, CanonFault>
    ensures answer { NormalisesPlainAs options file result }
    ensures canonical { IfOk result (λ h. IsCanonicalFile h) }
{
    on_set_for!(&file, normal_file_on(alloc, file, options))
}

/// The canonical file of a packed file, by sets of one kind.
fn normal_file_on<S: GoodsSet>(
    alloc: Global,
    file: PackedFile,
    options: SearchOptions,
) -> Result<PackedFile, CanonFault>
    requires { file.goods ≤ S.CAP }
    ensures answer { NormalisesPlainAs options file result }
    ensures canonical { IfOk result (λ h. IsCanonicalFile h) }
{
    let auction: Auction<S> = auction_of(alloc, &file)?;
    mem::drop(file);
    let named = normal_auction_file(alloc, auction, options, false)?;
    Ok(named.file)
}

/// The canonical file of an auction, which bidder is which, and what became of the best bids, if that is wanted.
pub(crate) fn normal_auction_file<S: GoodsSet>(
    alloc: Global,
    auction: Auction<S>,
    options: SearchOptions,
    with_fates: bool,
) -> Result<NamedFile, CanonFault>
    ensures answer { NormalisesAuctionAs options (plain_auction auction) (unnamed_answer result) }
    ensures dummies { IfOk result (λ e. e.dummies.items ≡ kept_numbers (plain_auction auction)) }
    ensures canonical { IfOk result (λ e. IsCanonicalFile e.file) }
    ensures fates { IfOk result (λ e. with_fates ≡ true → AreFates options.kind (plain_auction auction) e.fates) }
{
    let NamedAuction {
        auction,
        dummies,
        fates,
    } = canonical_within_limits(alloc, auction, options, with_fates)?;
    let file = packed_file_of(alloc, &auction)?;
    Ok(NamedFile {
        file,
        dummies,
        fates,
    })
}

/// The canonical auction, if no bundle is refused.
fn canonical_within_limits<S: GoodsSet>(
    alloc: Global,
    auction: Auction<S>,
    options: SearchOptions,
    with_fates: bool,
) -> Result<NamedAuction<S>, CanonFault>
    ensures canonical { IfOk result (λ c. plain_auction c.auction ≡ canonical_auction (plain_auction auction)) }
    ensures fixed { IfOk result (λ c. IsCanonical (plain_auction c.auction)) }
    ensures dummies { IfOk result (λ c. c.dummies.items ≡ kept_numbers (plain_auction auction)) }
    ensures within_limits { let a = plain_auction auction in
        OnOk result (first_refused options a.goods a.or_atoms ≡ None) }
    ensures refused { IfErr result (λ fault. RefusesAuction options (plain_auction auction) fault) }
    ensures fates { IfOk result (λ c. with_fates ≡ true → AreFates options.kind (plain_auction auction) c.fates) }
{
    match named_canonical(alloc, auction, options, with_fates) {
        Ok(canonical) => Ok(canonical),
        Err(PruneFault::StepLimit { bundle }) => Err(CanonFault::StepLimit {
            goods: goods_of(alloc, &bundle)?,
        }),
        Err(PruneFault::Memory) => Err(CanonFault::Memory),
    }
}
