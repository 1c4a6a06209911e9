//! The trait `GoodsSet`: what the crates above know of sets.
ghost use Rattle.std.specs.Prelude.{◌≡◌, ◌⊎◌, ℕ, ◌<◌, ◌≤◌, List, [], ◌++◌, not, length, IfOk, IfSome, OnOk, OnErr};
ghost use Rattle.std.specs.Cmp.{IsTotalOrder};
ghost use Rattle.std.specs.declared.cmp.Ordering.TheVariants.{Less, Equal};
ghost use Rattle.goods_set.specs.Bundles.{
  IsBundle,
  IsInside,
  IsRising,
  AreBelow,
  has_good,
  is_inside,
  are_apart,
  without,
  with_good,
  good_from,
};
ghost use Rattle.goods_set.specs.Lemmas.Members.{inside_refl, inside_trans};
ghost use Rattle.goods_set.specs.Orders.{bundle_cmp};
ghost use Rattle.goods_set.specs.Lemmas.Orders.{bundle_cmp_total, bundle_cmp_equal};
ghost use Rattle.goods_set.specs.Lemmas.Laws.{inside_antisymm_law, inside_ordered_law};

use std::alloc::{AllocError, Global};
use std::cmp::Ordering;

/// A bundle: a finite set of goods, which are numbers below a bound that the type has. Contracts see
/// it as the strictly rising list of its goods.
pub trait GoodsSet: Sized + Drop {
    ghost CAP: { ℕ };

    ghost goods: { Self → List ℕ };

    /// The bound: each good of a set of this type is below it. It is at most 65,536.
    fn cap() -> u32
        ensures { result ≡ CAP };

    /// The set with no goods. It keeps `alloc` for its calls that may take memory.
    fn empty(alloc: Global) -> Result<Self, AllocError>
        ensures { IfOk result (λ s. goods s ≡ []) };

    /// The set of these goods, which it copies.
    fn from_slice(alloc: Global, rising: &[u16]) -> Result<Self, AllocError>
        requires rising { IsRising rising.now }
        requires below { AreBelow CAP rising.now }
        ensures { IfOk result (λ s. goods s ≡ rising.now) };

    /// Puts a good in, and says whether it is new. If memory is refused the set is as it was.
    fn put(&mut self, good: u16) -> Result<bool, AllocError>
        requires { good < CAP }
        ensures added { IfOk result (λ new. new ≡ not (has_good (goods self.old) good)) }
        ensures goods { IfOk result (λ _. goods self.new ≡ with_good good (goods self.old)) }
        ensures refused { OnErr result (goods self.new ≡ goods self.old) };

    /// Whether the good is in the set.
    fn has(&self, good: u16) -> bool
        ensures { result ≡ has_good (goods self.now) good };

    /// How many goods the set has.
    fn size(&self) -> usize
        ensures { result ≡ length (goods self.now) };

    /// The least good that is at least `from`.
    fn next_from(&self, from: u32) -> Option<u16>
        ensures { result ≡ good_from (goods self.now) from };

    /// Appends the goods of the set, rising. If memory is refused, some of them may be there.
    fn list_into(&self, out: &mut Vec<u16>) -> Result<(), AllocError>
        ensures { OnOk result (out.new.items ≡ out.old.items ++ goods self.now) };

    /// The goods, rising, where they are so in memory.
    fn as_slice(&self) -> Option<&[u16]>
        ensures { IfSome result (λ listed. listed.now ≡ goods self.now) };

    /// Whether each good of the set is in `other`.
    fn is_inside(&self, other: &Self) -> bool
        ensures { result ≡ is_inside (goods self.now) (goods other.now) };

    /// Whether the two sets share no good.
    fn is_apart(&self, other: &Self) -> bool
        ensures { result ≡ are_apart (goods self.now) (goods other.now) };

    /// Takes the goods of `other` out of the set.
    fn take_out(&mut self, other: &Self)
        ensures { goods self.new ≡ without (goods self.old) (goods other.now) };

    /// The order of bundles: the smaller first, and those of one size lexicographically.
    fn order(&self, other: &Self) -> Ordering
        ensures { result ≡ bundle_cmp (goods self.now) (goods other.now) };

    /// An equal set.
    fn copy(&self) -> Result<Self, AllocError>
        ensures { IfOk result (λ s. goods s ≡ goods self.now) };

    // Each set is a bundle over the goods below the bound.
    ghost is_bundle: { (s : Self) → IsBundle CAP (goods s) };

    ghost cap_fits: { CAP ≤ 65536 };

    // The order is total, and answers Equal only for equal lists.
    ghost order_total: { IsTotalOrder bundle_cmp } = { bundle_cmp_total };

    ghost order_equal: { (s t : Self) → bundle_cmp (goods s) (goods t) ≡ Equal → goods s ≡ goods t } = { λ s t.
        bundle_cmp_equal (goods s) (goods t) };

    // Inside is a partial order.
    ghost inside_reflexive: { (s : Self) → IsInside (goods s) (goods s) } = { λ s. inside_refl (goods s) };

    ghost inside_transitive: { (s t u : Self) → IsInside (goods s) (goods t)
        → IsInside (goods t) (goods u) → IsInside (goods s) (goods u) } = { λ s t u.
            inside_trans (goods s) (goods t) (goods u) };

    ghost inside_antisymmetric: { (s t : Self) → IsInside (goods s) (goods t)
        → IsInside (goods t) (goods s) → goods s ≡ goods t } = { λ s t.
            inside_antisymm_law CAP (goods s) (goods t) (is_bundle s) (is_bundle t) };

    // A set inside another comes before it or equals it.
    ghost inside_ordered: { (s t : Self) → IsInside (goods s) (goods t)
        → (bundle_cmp (goods s) (goods t) ≡ Less) ⊎ (goods s ≡ goods t) } = { λ s t.
            inside_ordered_law CAP (goods s) (goods t) (is_bundle s) (is_bundle t) };
}
