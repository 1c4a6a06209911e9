//! The canonical auction, and which bidder is which.

ghost use Rattle.std.specs.Prelude.{◌≡◌, ◌≤◌, ℕ, true, None, Some, [], All, IfOk, IfErr, OnOk, length, map};
ghost use Rattle.bid_file.specs.declared.limits.TheConstants.{MAX_GOODS, MAX_DUMMY};
ghost use Rattle.valuation.specs.Auctions.{IsAtom};
ghost use Rattle.valuation.specs.Bidders.{bidders_of};
ghost use Rattle.valuation.specs.Sorting.{sort_by};
ghost use Rattle.valuation.specs.Views.{plain_auction};
ghost use Rattle.prune.specs.Fates.{xor_fates};
ghost use Rattle.prune.specs.Faults.{IfStepLimit};
ghost use Rattle.prune.specs.SearchSteps.{first_heavy, first_refused};
ghost use Rattle.canon.specs.Canonical.{IsCanonical, canonical_auction, canonical_bidders as canonical_from};
ghost use Rattle.canon.specs.Sameness.{IsSameAuction};
ghost use Rattle.canon.specs.Internal.Fates.{AreFates};
ghost use Rattle.canon.specs.Internal.KeyedBidders.{kept_numbers, keyed_bidders, numbered_cmp, numbered_points};

use crate::normal::keyed_bidder::KeyedBidder;
use crate::normal::named::BidderFates;
use goods_set::GoodsSet;
use prune::PruneFault;
use prune::fates::{FateLog, prune_or_by, prune_xor_noting};
use std::alloc::{AllocError, Global};
use valuation::search::SearchOptions;
use valuation::{Atom, Auction};

/// A canonical auction, and which bidder is which.
#[derive(Drop)]
pub(crate) struct NamedAuction<S: GoodsSet> {
    /// The canonical auction.
    pub(crate) auction: Auction<S>,
    /// For each of its XOR bidders the number of the bidder that it is of, counted from 0.
    pub(crate) dummies: Vec<u32>,
    /// What became of the best bids, if that is wanted.
    pub(crate) fates: BidderFates,
}

/// The canonical XOR bidders of an auction, and which is which.
#[derive(Drop)]
pub(crate) struct NamedBidders<S: GoodsSet> {
    /// The atoms of each bidder.
    pub(crate) bidders: Vec<Vec<Atom<S>>>,
    /// For each the number of the bidder that it is of, counted from 0.
    pub(crate) dummies: Vec<u32>,
    /// What became of the best bids of each bidder of the auction, if that is wanted.
    pub(crate) fates: Vec<Vec<Option<usize>>>,
}

/// The canonical auction of an auction: of each bidder the points, without the XOR bidders of value zero, and the
/// others in order. It uses the auction up, and copies none of its atoms.
pub fn canonical<S: GoodsSet>(
    alloc: Global,
    auction: Auction<S>,
    limit: u64,
) -> Result<Auction<S>, PruneFault<S>>
    ensures canonical { IfOk result (λ c. plain_auction c ≡ canonical_auction (plain_auction auction)) }
    ensures same { IfOk result (λ c. IsSameAuction (plain_auction auction) (plain_auction c)) }
    ensures fixed { IfOk result (λ c. IsCanonical (plain_auction c)) }
    ensures none_heavy { let a = plain_auction auction in
        OnOk result (first_heavy a.goods limit a.or_atoms ≡ None) }
    ensures step_limit { let a = plain_auction auction in
        IfErr result (λ fault. IfStepLimit fault (λ bundle. first_heavy a.goods limit a.or_atoms
        ≡ Some (S.goods bundle))) }
{
    Ok(named_canonical(alloc, auction, SearchOptions::plain(limit), false)?.auction)
}

/// The canonical auction of an auction, as `canonical`, by searches of any kind, which bidder is which, and what became of
/// the best bids, if that is wanted.
pub(crate) fn named_canonical<S: GoodsSet>(
    alloc: Global,
    auction: Auction<S>,
    options: SearchOptions,
    with_fates: bool,
) -> Result<NamedAuction<S>, PruneFault<S>>
    ensures canonical { IfOk result (λ c. plain_auction c.auction ≡ canonical_auction (plain_auction auction)) }
    ensures fixed { IfOk result (λ c. IsCanonical (plain_auction c.auction)) }
    ensures dummies { IfOk result (λ c. c.dummies.items ≡ kept_numbers (plain_auction auction)) }
    ensures none_refused { let a = plain_auction auction in
        OnOk result (first_refused options a.goods a.or_atoms ≡ None) }
    ensures refused { let a = plain_auction auction in
        IfErr result (λ fault. IfStepLimit fault (λ bundle. first_refused options a.goods a.or_atoms
        ≡ Some (S.goods bundle))) }
    ensures fates { IfOk result (λ c. with_fates ≡ true → AreFates options.kind (plain_auction auction) c.fates) }
{
    let (goods, or_atoms, xor_bidders) = auction.into_parts();
    let mut or_log = FateLog::new(alloc, with_fates);
    let or_points = prune_or_by(alloc, or_atoms, options, &mut or_log)?;
    let xor = canonical_bidders(alloc, xor_bidders, with_fates)?;
    let auction = Auction::new(goods, or_points, xor.bidders);
    let dummies = xor.dummies;
    let fates = BidderFates {
        or: or_log.into_fates(),
        xor: xor.fates,
    };
    Ok(NamedAuction {
        auction,
        dummies,
        fates,
    })
}

/// The canonical XOR bidders of those of an auction, which is which, and what became of their best bids, if that is
/// wanted. It searches nothing.
pub(crate) fn canonical_bidders<S: GoodsSet>(
    alloc: Global,
    bidders: Vec<Vec<Atom<S>>>,
    with_fates: bool,
) -> Result<NamedBidders<S>, AllocError>
    requires few { length bidders.items ≤ MAX_DUMMY }
    requires atoms { All (All (IsAtom MAX_GOODS)) (bidders_of S.goods bidders.items) }
    // For each number of goods that the atoms are within.
    ensures bidders { let atoms = bidders_of S.goods bidders.items in
        IfOk result (λ named. (goods : ℕ) → All (All (IsAtom goods)) atoms
        → bidders_of S.goods named.bidders.items ≡ canonical_from goods atoms) }
    ensures dummies { let atoms = bidders_of S.goods bidders.items in
        IfOk result (λ named. (goods : ℕ) → All (All (IsAtom goods)) atoms
        → named.dummies.items ≡ map (λ b. b.number) (sort_by numbered_cmp (numbered_points goods atoms))) }
    ensures fates { let atoms = bidders_of S.goods bidders.items in
        IfOk result (λ named. with_fates ≡ true → (goods : ℕ) → All (All (IsAtom goods)) atoms
        → map (λ own. own.items) named.fates.items ≡ map (xor_fates goods) atoms) }
{
    let mut log = FateLog::new(alloc, with_fates);
    let mut keyed = points_of_each(alloc, bidders, &mut log)?;
    sort_bidders(&mut keyed);
    let dummies = dummies_of(alloc, &keyed)?;
    let bidders = without_keys(alloc, keyed)?;
    Ok(NamedBidders {
        bidders,
        dummies,
        fates: log.into_fates(),
    })
}

/// The points of each bidder that has any, with its number. It notes in a new log what becomes of the best bids of each.
fn points_of_each<S: GoodsSet>(
    alloc: Global,
    bidders: Vec<Vec<Atom<S>>>,
    log: &mut FateLog<Vec<Option<usize>>>,
) -> Result<Vec<KeyedBidder<S>>, AllocError>
    requires empty { log.old.fates.items ≡ [] }
    requires few { length bidders.items ≤ MAX_DUMMY }
    requires atoms { All (All (IsAtom MAX_GOODS)) (bidders_of S.goods bidders.items) }
    // For each number of goods that the atoms are within.
    ensures points { let atoms = bidders_of S.goods bidders.items in
        IfOk result (λ points. (goods : ℕ) → All (All (IsAtom goods)) atoms
        → keyed_bidders points.items ≡ numbered_points goods atoms) }
    ensures fates { let atoms = bidders_of S.goods bidders.items in
        OnOk result (log.old.wanted ≡ true → (goods : ℕ) → All (All (IsAtom goods)) atoms
        → map (λ own. own.items) log.new.fates.items ≡ map (xor_fates goods) atoms) }
{
    let mut points = Vec::with_capacity(alloc, bidders.len())?;
    for (dummy, bidder) in bidders.into_iter().enumerate() {
        let mut own_log = FateLog::new(alloc, log.is_wanted());
        let own = prune_xor_noting(alloc, bidder, &mut own_log)?;
        log.note(own_log.into_fates())?;
        if !own.is_empty() {
            points.push(KeyedBidder::new(dummy as u32, own))?;
        }
    }
    Ok(points)
}

/// Puts the bidders in the order of their lists of atoms, and equal ones in that of their numbers.
fn sort_bidders<S: GoodsSet>(bidders: &mut Vec<KeyedBidder<S>>)
    ensures { keyed_bidders bidders.new.items ≡ sort_by numbered_cmp (keyed_bidders bidders.old.items) }
{
    bidders.sort_unstable_by(|one, other| one.order(other));
}

/// The number of each bidder.
fn dummies_of<S: GoodsSet>(alloc: Global, keyed: &[KeyedBidder<S>]) -> Result<Vec<u32>, AllocError>
    ensures { IfOk result (λ dummies. dummies.items ≡ map (λ b. b.number) (keyed_bidders keyed.now)) }
{
    let mut dummies = Vec::with_capacity(alloc, keyed.len())?;
    for bidder in keyed {
        dummies.push(bidder.dummy())?;
    }
    Ok(dummies)
}

/// The bidders without what is beside them.
fn without_keys<S: GoodsSet>(
    alloc: Global,
    keyed: Vec<KeyedBidder<S>>,
) -> Result<Vec<Vec<Atom<S>>>, AllocError>
    ensures { IfOk result (λ bidders. bidders_of S.goods bidders.items ≡ map (λ b. b.atoms) (keyed_bidders keyed.items)) }
{
    let mut bidders = Vec::with_capacity(alloc, keyed.len())?;
    for bidder in keyed {
        bidders.push(bidder.into_atoms())?;
    }
    Ok(bidders)
}
