//! `SubsetIndex`: the kept atoms. Those inside a bundle are found by its goods.
ghost use Rattle.std.specs.Prelude.{◌≡◌, ℕ, List, ◌+◌, ◌<◌, ◌≤◌, false, true, map, length, All, AllPairs, IfOk, OnOk, []};
ghost use Rattle.std.specs.Prelude.{◌∷◌, ◌++◌, cond, is_some};
ghost use Rattle.std.specs.List.{filter};
ghost use Rattle.prune.specs.Internal.Fingerprints.{AreMarks};
ghost use Rattle.valuation.specs.Values.{atoms_of, plain_atom};
ghost use Rattle.valuation.specs.declared.atom.Atom.{Atom};
ghost use Rattle.prune.specs.Internal.Listings.{
  indices_of,
  listed_at,
  lists_of,
  dominates_at,
  first_dominating_index,
  AreListed,
  IsIndexOf,
  IsPosting,
  MayBePosting,
};
ghost use Rattle.valuation.specs.Packings.{atom_at, indices_inside, is_inside_at};

use crate::commonness::{goods_counts, rarest};
use crate::fingerprints::{fingerprint, may_be_subset};
use goods_set::GoodsSet;
use goods_set::listing::rising_goods;
use std::alloc::{AllocError, Global};
use valuation::Atom;

/// An atom as it is listed at a good. Searches read many of these, and so each is kept small: an index takes 4 bytes, and
/// the price is read from the atom. The fingerprint rules out most atoms that are not inside a bundle before they are read,
/// which mostly means waiting for memory.
#[derive(Drop)]
struct Posting {
    /// The index of the atom.
    index: u32,
    /// The fingerprint of its bundle.
    fingerprint: u128,
}

/// Lists atoms, each at one of its goods, so that those inside a bundle are found through the bundle's goods. The atoms
/// themselves are given with each call: those kept so far, in order. For speed alone an atom is listed at its rarest good,
/// and fingerprints are compared before bundles.
#[derive(Drop)]
pub struct SubsetIndex {
    alloc: Global,
    /// For each good the atoms that are listed there.
    lists: Vec<Vec<Posting>>,
    /// How common each good is among all atoms that may be kept.
    counts: Vec<u32>,
    /// A buffer for the goods of an atom.
    buffer: Vec<u16>,
}

/// Whether the atom that is listed at a good is inside the bundle.
#[inline(always)]
fn is_inside<S: GoodsSet>(kept: &[Atom<S>], posting: &Posting, bundle: &S, marks: u128) -> bool
    requires listed { IsPosting (atoms_of S.goods kept.now) posting.now }
    requires marks { AreMarks (S.goods bundle.now) marks }
    ensures { result ≡ is_inside_at (atoms_of S.goods kept.now) (S.goods bundle.now) posting.now.index }
{
    if !may_be_subset(posting.fingerprint, marks) {
        return false;
    }
    kept[posting.index as usize].bundle.is_inside(bundle)
}

/// Whether the atom that is listed at a good is inside the bundle and has at least the price. Fingerprints
/// are compared before prices: most rule the atom out, and a test that mostly has the same result costs less.
#[inline(always)]
fn is_dominating<S: GoodsSet>(
    kept: &[Atom<S>],
    posting: &Posting,
    bundle: &S,
    marks: u128,
    price: u64,
) -> bool
    requires listed { IsPosting (atoms_of S.goods kept.now) posting.now }
    requires marks { AreMarks (S.goods bundle.now) marks }
    ensures { result ≡ dominates_at (atoms_of S.goods kept.now) (S.goods bundle.now) price posting.now.index }
{
    if !may_be_subset(posting.fingerprint, marks) {
        return false;
    }
    let atom = &kept[posting.index as usize];
    price <= atom.price && atom.bundle.is_inside(bundle)
}

/// Adds to `found` the indices of the listed atoms that are inside the bundle.
fn find_inside_among<S: GoodsSet>(
    postings: &[Posting],
    kept: &[Atom<S>],
    bundle: &S,
    marks: u128,
    found: &mut Vec<usize>,
) -> Result<(), AllocError>
    requires listed { All (IsPosting (atoms_of S.goods kept.now)) postings.now }
    requires marks { AreMarks (S.goods bundle.now) marks }
    ensures { let inside = is_inside_at (atoms_of S.goods kept.now) (S.goods bundle.now) in
        OnOk result (found.new.items ≡ found.old.items ++ filter inside (indices_of postings.now)) }
{
    for posting in postings {
        if is_inside(kept, posting, bundle, marks) {
            found.push(posting.index as usize)?;
        }
    }
    Ok(())
}

/// The index of the first of the listed atoms that is among these atoms, is inside the bundle and has at least the price, or
/// the number of atoms if there is none.
fn first_dominating_among<S: GoodsSet>(
    postings: &[Posting],
    kept: &[Atom<S>],
    bundle: &S,
    marks: u128,
    price: u64,
) -> usize
    requires listed { All (MayBePosting (atoms_of S.goods kept.now)) postings.now }
    requires rising { AllPairs (λ one other. one < other) (indices_of postings.now) }
    requires marks { AreMarks (S.goods bundle.now) marks }
    ensures within { result ≤ length kept.now }
    ensures found { result < length kept.now
        → dominates_at (atoms_of S.goods kept.now) (S.goods bundle.now) price result ≡ true }
    ensures none { let dominating = dominates_at (atoms_of S.goods kept.now) (S.goods bundle.now) price in
        All (λ index. index < result → dominating index ≡ false) (indices_of postings.now) }
{
    for posting in postings {
        let index = posting.index as usize;
        if index >= kept.len() {
            break;
        }
        if is_dominating(kept, posting, bundle, marks, price) {
            return index;
        }
    }
    kept.len()
}

/// What is listed at the good.
fn postings_at(lists: &[Vec<Posting>], good: u16) -> &[Posting]
    ensures { result.now ≡ listed_at (lists_of lists.now) good }
{
    match lists.get(usize::from(good)) {
        Some(postings) => postings.as_slice(),
        None => &[],
    }
}

/// The index of the first kept atom inside the bid's bundle, which has these goods, with at least its price.
fn first_dominating_listed<S: GoodsSet>(
    lists: &[Vec<Posting>],
    kept: &[Atom<S>],
    bid: &Atom<S>,
    goods: &[u16],
) -> Option<usize>
    requires goods { goods.now ≡ S.goods bid.now.bundle }
    requires listed { AreListed (lists_of lists.now) (atoms_of S.goods kept.now) }
    ensures { result
        ≡ first_dominating_index (atoms_of S.goods kept.now) (S.goods bid.now.bundle) bid.now.price }
{
    let marks = fingerprint(goods);
    let mut first = kept.len();
    for good in goods {
        let postings = postings_at(lists, *good);
        first = first_dominating_among(postings, &kept[..first], &bid.bundle, marks, bid.price);
    }
    if first < kept.len() {
        return Some(first);
    }
    None
}

/// Lists the next kept atom, whose bundle has these goods, at the rarest of them. An index past the numbers of 4 bytes is
/// refused as memory is; a file has far fewer bids.
fn list_at_rarest(
    alloc: Global,
    lists: &mut Vec<Vec<Posting>>,
    counts: &[u32],
    index: usize,
    goods: &[u16],
) -> Result<(), AllocError>
    requires { 0 < length goods.now }
    ensures { OnOk result ((kept : List (Atom (List ℕ))) (atom : Atom (List ℕ)) → atom.bundle ≡ goods.now
        → index ≡ length kept → AreListed (lists_of lists.old.items) kept
        → AreListed (lists_of lists.new.items) (kept ++ atom ∷ [])) }
{
    if index > u32::MAX as usize {
        return Err(AllocError);
    }
    let posting = Posting {
        index: index as u32,
        fingerprint: fingerprint(goods),
    };
    let good = usize::from(rarest(counts, goods));
    while lists.len() <= good {
        lists.push(Vec::new(alloc))?;
    }
    lists[good].push(posting)?;
    Ok(())
}

impl SubsetIndex {
    /// The index of those of these atoms that will be kept. None is kept so far.
    pub fn of<S: GoodsSet>(alloc: Global, atoms: &[Atom<S>]) -> Result<SubsetIndex, AllocError>
        ensures { IfOk result (λ index. IsIndexOf [] index) }
    {
        Ok(SubsetIndex {
            alloc,
            lists: Vec::new(alloc),
            counts: goods_counts(alloc, atoms)?,
            buffer: Vec::new(alloc),
        })
    }

    /// Adds the next kept atom, whose bundle has these goods.
    pub fn keep(&mut self, index: usize, goods: &[u16]) -> Result<(), AllocError>
        requires { 0 < length goods.now }
        ensures { OnOk result ((kept : List (Atom (List ℕ))) (atom : Atom (List ℕ)) → atom.bundle ≡ goods.now
            → index ≡ length kept → IsIndexOf kept self.old → IsIndexOf (kept ++ atom ∷ []) self.new) }
    {
        list_at_rarest(self.alloc, &mut self.lists, &self.counts, index, goods)
    }

    /// Replaces the indices by those of the kept atoms inside the bundle, which has these goods.
    pub fn find_inside<S: GoodsSet>(
        &self,
        kept: &[Atom<S>],
        bundle: &S,
        goods: &[u16],
        indices: &mut Vec<usize>,
    ) -> Result<(), AllocError>
        requires goods { goods.now ≡ S.goods bundle.now }
        requires index { IsIndexOf (atoms_of S.goods kept.now) self.now }
        ensures { OnOk result (indices.new.items ≡ indices_inside (atoms_of S.goods kept.now) (S.goods bundle.now)) }
    {
        let marks = fingerprint(goods);
        indices.clear();
        for good in goods {
            let postings = postings_at(&self.lists, *good);
            find_inside_among(postings, kept, bundle, marks, indices)?;
        }
        indices.sort_unstable();
        Ok(())
    }

    /// The index of the first kept atom inside the bid's bundle with at least its price. If there is none, the bid is the
    /// next one that is kept.
    pub fn decide<S: GoodsSet>(
        &mut self,
        kept: &[Atom<S>],
        bid: &Atom<S>,
    ) -> Result<Option<usize>, AllocError>
        requires some { 0 < length (S.goods bid.now.bundle) }
        requires index { IsIndexOf (atoms_of S.goods kept.now) self.old }
        ensures index { IfOk result (λ found. IsIndexOf
            (atoms_of S.goods kept.now ++ cond (is_some found) [] (plain_atom S.goods bid.now ∷ [])) self.new) }
        ensures found { IfOk result (λ found. found
            ≡ first_dominating_index (atoms_of S.goods kept.now) (S.goods bid.now.bundle) bid.now.price) }
    {
        let goods = rising_goods(&bid.bundle, &mut self.buffer)?;
        let found = first_dominating_listed(&self.lists, kept, bid, goods);
        if found.is_none() {
            list_at_rarest(self.alloc, &mut self.lists, &self.counts, kept.len(), goods)?;
        }
        Ok(found)
    }
}
