//! A bidder with its dummy good and its sort key. The key orders most bidders; their atoms lie apart in memory.

ghost use Rattle.std.specs.Prelude.{◌≡◌};
ghost use Rattle.std.specs.Ordering.{nat_cmp, ordering_then};
ghost use Rattle.valuation.specs.Orders.{bidder_cmp};
ghost use Rattle.valuation.specs.Values.{atoms_of};
ghost use Rattle.canon.specs.Internal.BidderKeys.{bidder_key};

use crate::normal::atom_order::compare_bidders;
use goods_set::{GoodsSet, sort_key};
use std::cmp::Ordering;
use valuation::Atom;

/// The atoms of a bidder and its dummy good, with the sort key of the first atom's bundle, 0 where there is none.
#[derive(Drop)]
pub(crate) struct KeyedBidder<S: GoodsSet> {
    key: u64,
    dummy: u32,
    atoms: Vec<Atom<S>>,
    ghost keys: { key ≡ bidder_key (atoms_of S.goods atoms.items) },
}

impl<S: GoodsSet> KeyedBidder<S> {
    /// The bidder with this dummy good and these atoms.
    pub(crate) fn new(dummy: u32, atoms: Vec<Atom<S>>) -> KeyedBidder<S>
        ensures dummy { result.dummy ≡ dummy }
        ensures atoms { result.atoms ≡ atoms }
    {
        let key = match atoms.first() {
            Some(atom) => sort_key(&atom.bundle),
            None => 0,
        };
        KeyedBidder { key, dummy, atoms }
    }

    /// The order of bidders, and of their dummy goods where their atoms are equal. Where the keys differ, no atom is
    /// looked at.
    pub(crate) fn order(&self, other: &KeyedBidder<S>) -> Ordering
        ensures { result ≡ ordering_then
            (bidder_cmp (atoms_of S.goods self.now.atoms.items) (atoms_of S.goods other.now.atoms.items))
            (nat_cmp self.now.dummy other.now.dummy) }
    {
        match self.key.cmp(&other.key) {
            Ordering::Equal => {
                compare_bidders(&self.atoms, &other.atoms).then(self.dummy.cmp(&other.dummy))
            }
            unequal => unequal,
        }
    }

    /// The dummy good.
    pub(crate) fn dummy(&self) -> u32
        ensures { result ≡ self.now.dummy }
    {
        self.dummy
    }

    /// The atoms alone.
    pub(crate) fn into_atoms(self) -> Vec<Atom<S>>
        ensures { result ≡ self.atoms }
    {
        let KeyedBidder {
            key: _,
            dummy: _,
            atoms,
        } = self;
        atoms
    }
}
