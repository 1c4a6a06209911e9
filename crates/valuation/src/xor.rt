//! The value of a bundle by an XOR bidder.
ghost use Rattle.std.specs.Prelude.{◌≡◌, ◌↔◌, All, IfSome, IsNone, false};
ghost use Rattle.goods_set.specs.Bundles.{is_inside};
ghost use Rattle.valuation.specs.Values.{atoms_of, xor_value, IsFirstBest};

use crate::atom::Atom;
use goods_set::GoodsSet;

/// The XOR value of the bundle, and the least index of an atom inside the bundle whose price is that value.
pub fn xor_value<S: GoodsSet>(atoms: &[Atom<S>], bundle: &S) -> (u64, Option<usize>)
    ensures value { result.0 ≡ xor_value (atoms_of S.goods atoms.now) (S.goods bundle.now) }
    ensures index { IfSome result.1 (λ i. IsFirstBest (atoms_of S.goods atoms.now) (S.goods bundle.now) i) }
    ensures none { IsNone result.1 ↔ All (λ a. is_inside a.bundle (S.goods bundle.now) ≡ false)
        (atoms_of S.goods atoms.now) }
{
    let mut value = 0;
    let mut index = None;
    for (i, atom) in atoms.iter().enumerate() {
        if (index.is_none() || value < atom.price) && atom.bundle.is_inside(bundle) {
            value = atom.price;
            index = Some(i);
        }
    }
    (value, index)
}
