//! Which bidders of two files are shown side by side. A left one's partner is a right one that waits and has a bid on its
//! rarest bundle.

ghost use Rattle.std.specs.Prelude.{◌≡◌};
ghost use Rattle.analysis.specs.Internal.Partners.{rarer_candidate};

use crate::differences::holders::{Candidate, Holders, holders_of, waits};
use bid_file::Bids;
use canon::comparing::BidRun;
use std::alloc::{AllocError, Global};
use std::collections::BTreeMap;

/// The right bidders that are in excess, and which of them are beside no left bidder.
#[derive(Drop)]
pub(crate) struct Partners<'a> {
    excess: Vec<u32>,
    /// By the bundles of their bids.
    holders: BTreeMap<&'a [u16], Holders>,
    /// Of each right bidder whether it waits, if it is in excess.
    waits: Vec<bool>,
}

/// The one that fewer have, and of two as rare ones the first.
fn rarer(one: Option<Candidate>, other: Option<Candidate>) -> Option<Candidate>
    ensures { result ≡ rarer_candidate one other }
{
    match (one, other) {
        (Some(one), Some(other)) if other.count < one.count => Some(other),
        (None, other) => other,
        (one, _) => one,
    }
}

impl<'a> Partners<'a> {
    ghost use Rattle.std.specs.Prelude.{◌≡◌, ◌<◌, ℕ, List, [], Some, All, IfOk, MatchOption, filter, length, map};
    ghost use Rattle.goods_set.specs.Bundles.{IsRising};
    ghost use Rattle.valuation.specs.declared.atom.Atom.{Atom};
    ghost use Rattle.prune.specs.InOrder.{IsInOrder};
    ghost use Rattle.canon.specs.Bidders.{offers};
    ghost use Rattle.analysis.specs.BidderChanges.{bidders_on, partner_of, without_partner};
    ghost use Rattle.analysis.specs.Internal.Holders.{waits_at};
    ghost use Rattle.analysis.specs.Internal.Partners.{ArePartners, IsCandidate};

    /// The right bidders with these indices: none is beside a left bidder.
    pub(crate) fn of<B: Bids>(
        alloc: Global,
        bidders: &[BidRun<'a, B>],
        excess: Vec<u32>,
    ) -> Result<Partners<'a>, AllocError>
        requires in_order { All IsInOrder (map offers bidders.now) }
        requires within { All (λ index. index < length bidders.now) excess.items }
        requires rising { IsRising excess.items }
        ensures partners { IfOk result (ArePartners (map offers bidders.now) excess.items) }
        ensures excess { IfOk result (λ partners. partners.excess ≡ excess) }
    {
        Ok(Partners {
            holders: holders_of(alloc, bidders, &excess)?,
            waits: vec![in alloc; true; bidders.len()]?,
            excess,
        })
    }

    /// The first right bidder that waits and has a bid on the bundle with these goods.
    fn candidate(&mut self, goods: &'a [u16]) -> Option<Candidate>
        ensures excess { self.new.excess ≡ self.old.excess }
        ensures partners { (right : List (List (Atom (List ℕ)))) (waiting : List ℕ) → ArePartners right waiting self.old
            → ArePartners right waiting self.new }
        ensures candidate { (right : List (List (Atom (List ℕ)))) (waiting : List ℕ) → ArePartners right waiting self.old
            → MatchOption result (bidders_on right waiting goods.now ≡ [])
            (IsCandidate right self.old.excess.items waiting goods.now) }
    {
        self.holders.get_mut(&goods)?.first_waiting(&self.waits)
    }

    /// The right bidder of this index waits no more.
    fn take(&mut self, index: u32)
        ensures excess { self.new.excess ≡ self.old.excess }
        ensures partners { (right : List (List (Atom (List ℕ)))) (waiting : List ℕ) → ArePartners right waiting self.old
            → ArePartners right (without_partner (Some index) waiting) self.new }
    {
        if let Some(waits) = self.waits.get_mut(index as usize) {
            *waits = false;
        }
    }

    /// The index of the right bidder that is shown beside a left bidder, if any that waits has a bid on one of its bundles.
    /// It is beside no other one.
    pub(crate) fn take_for<B: Bids>(&mut self, bidder: &BidRun<'a, B>) -> Option<u32>
        requires { IsInOrder (offers bidder.now) }
        ensures excess { self.new.excess ≡ self.old.excess }
        ensures partner { (right : List (List (Atom (List ℕ)))) (waiting : List ℕ) → ArePartners right waiting self.old
            → result ≡ partner_of right self.old.excess.items waiting (offers bidder.now) }
        ensures partners { (right : List (List (Atom (List ℕ)))) (waiting : List ℕ) → ArePartners right waiting self.old
            → ArePartners right (without_partner result waiting) self.new }
    {
        let mut rarest = None;
        for i in 0..bidder.len() {
            rarest = rarer(rarest, self.candidate(bidder.at(i).goods));
        }
        let index = rarest?.index;
        self.take(index);
        Some(index)
    }

    /// The right bidders in excess that are beside no left bidder.
    pub(crate) fn rest(&self, alloc: Global) -> Result<Vec<u32>, AllocError>
        ensures { IfOk result (λ rest. rest.items ≡ filter (waits_at self.now.waits.items) self.now.excess.items) }
    {
        let mut rest = Vec::new(alloc);
        for index in &self.excess {
            if waits(&self.waits, *index) {
                rest.push(*index)?;
            }
        }
        Ok(rest)
    }
}
