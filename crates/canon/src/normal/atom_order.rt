//! The orders of atoms and of bidders, by their sets of goods.

ghost use Rattle.std.specs.Prelude.{◌≡◌};
ghost use Rattle.valuation.specs.Values.{plain_atom, atoms_of};
ghost use Rattle.valuation.specs.Orders.{atom_cmp, bidder_cmp};

use goods_set::GoodsSet;
use std::cmp::Ordering;
use valuation::Atom;

/// The order of atoms: by bundle, and on one bundle by price, the smaller first.
fn compare_atoms<S: GoodsSet>(one: &Atom<S>, other: &Atom<S>) -> Ordering
    ensures { result ≡ atom_cmp (plain_atom S.goods one.now) (plain_atom S.goods other.now) }
{
    let bundles = one.bundle.order(&other.bundle);
    bundles.then_with(|| one.price.cmp(&other.price))
}

/// The order of bidders: lexicographic by their atoms, a bidder that another only adds atoms to first.
pub(crate) fn compare_bidders<S: GoodsSet>(one: &[Atom<S>], other: &[Atom<S>]) -> Ordering
    ensures { result ≡ bidder_cmp (atoms_of S.goods one.now) (atoms_of S.goods other.now) }
{
    let both = one.len().min(other.len());
    for i in 0..both {
        let atoms = compare_atoms(&one[i], &other[i]);
        if atoms.is_ne() {
            return atoms;
        }
    }
    one.len().cmp(&other.len())
}
