//! The canonical file, which source bidder each of its bidders is, and what became of the bids of the file.

ghost use Rattle.std.specs.Prelude.{◌≡◌, ◌≤◌, true, IfOk, map};
ghost use Rattle.std.specs.List.{range_with_len};
ghost use Rattle.valuation.specs.Auctions.{auction_from, or_atoms_of, xor_atoms_of};
ghost use Rattle.prune.specs.Fates.{or_fates, plain_fate, xor_fates};
ghost use Rattle.canon.specs.Answers.{NormalisesPlainAs, unnamed_answer};
ghost use Rattle.canon.specs.Internal.Fates.{AreFates};
ghost use Rattle.canon.specs.Renaming.{kept_dummies};

use crate::canon_fault::CanonFault;
use crate::normal::normal_auction_file;
use bid_file::PackedFile;
use bid_file::limits::MAX_GOODS;
use goods_set::GoodsSet;
use std::alloc::Global;
use valuation::search::SearchOptions;
use valuation::{Auction, auction_of, on_set_for};

/// The canonical file of a file, with what `named_normal_file` and `explained_normal_file` say of it.
#[derive(Drop)]
pub struct NamedFile {
    /// The canonical file.
    pub file: PackedFile,
    /// For each of its dummy goods the one of the same bidder in the file that it is of. Equal bidders keep the order of
    /// their dummy goods.
    pub dummies: Vec<u32>,
    /// What became of the best bids of each bidder there, if `explained_normal_file` made it.
    pub fates: BidderFates,
}

/// What became of the best bids of each bidder of a file.
#[derive(Drop)]
pub struct BidderFates {
    /// Of the OR bidder's best bids, in order: none if the bid is kept, and else the indices, among the points, of the
    /// packing that reaches its price.
    pub or: Vec<Option<Vec<usize>>>,
    /// Of each dummy good's bidder the same: the index of the first point inside the bundle with at least its price.
    pub xor: Vec<Vec<Option<usize>>>,
}

/// The canonical file of a packed file, as `normal_packed_file`, and which bidder is which.
pub fn named_normal_file(
    alloc: Global,
    file: &PackedFile,
    options: SearchOptions,
) -> Result<NamedFile, CanonFault>
    ensures answer { NormalisesPlainAs options file.now (unnamed_answer result) }
    ensures dummies { IfOk result (λ named. named.dummies.items ≡ kept_dummies file.now) }
{
    explained_file(alloc, file, options, false)
}

/// The canonical file of a packed file, as `named_normal_file`, and what became of its bids.
pub fn explained_normal_file(
    alloc: Global,
    file: &PackedFile,
    options: SearchOptions,
) -> Result<NamedFile, CanonFault>
    ensures answer { NormalisesPlainAs options file.now (unnamed_answer result) }
    ensures dummies { IfOk result (λ e. e.dummies.items ≡ kept_dummies file.now) }
    ensures or_fates { let f = file.now in
        IfOk result (λ e. map plain_fate e.fates.or.items ≡ or_fates options.kind f.goods (or_atoms_of f.bids)) }
    ensures xor_fates { let f = file.now in
        IfOk result (λ e. map (λ fates. fates.items) e.fates.xor.items
        ≡ map (λ d. xor_fates f.goods (xor_atoms_of f.bids d)) (range_with_len 0 f.dummy)) }
{
    explained_file(alloc, file, options, true)
}

/// The same, with what became of the best bids only if that is wanted.
pub(crate) fn explained_file(
    alloc: Global,
    file: &PackedFile,
    options: SearchOptions,
    with_fates: bool,
) -> Result<NamedFile, CanonFault>
    ensures answer { NormalisesPlainAs options file.now (unnamed_answer result) }
    ensures dummies { IfOk result (λ e. e.dummies.items ≡ kept_dummies file.now) }
    ensures fates { IfOk result (λ e. with_fates ≡ true → AreFates options.kind (auction_from file.now) e.fates) }
{
    prove!(file.goods() <= MAX_GOODS);
    on_set_for!(file, explained_file_on(alloc, file, options, with_fates))
}

/// The same by sets of one kind.
fn explained_file_on<S: GoodsSet>(
    alloc: Global,
    file: &PackedFile,
    options: SearchOptions,
    with_fates: bool,
) -> Result<NamedFile, CanonFault>
    requires { file.now.goods ≤ S.CAP }
    ensures answer { NormalisesPlainAs options file.now (unnamed_answer result) }
    ensures dummies { IfOk result (λ e. e.dummies.items ≡ kept_dummies file.now) }
    ensures fates { IfOk result (λ e. with_fates ≡ true → AreFates options.kind (auction_from file.now) e.fates) }
{
    let auction: Auction<S> = auction_of(alloc, file)?;
    normal_auction_file(alloc, auction, options, with_fates)
}
