//! The laws of bundles, over lists of goods. The sets have them too, as laws of the trait.
ghost use Rattle.std.specs.Prelude.{◌≡◌, ◌<◌, ◌⊎◌, ℕ, List};
ghost use Rattle.std.specs.List.{All, AllPairs, Contains};
ghost use Rattle.std.specs.Cmp.{IsTotalOrder};
ghost use Rattle.std.specs.declared.cmp.Ordering.TheVariants.{Less, Equal};
ghost use Rattle.goods_set.specs.Bundles.{IsBundle, IsInside, AreBelow, all_bundles};
ghost use Rattle.goods_set.specs.SortKeys.{sort_key_of};
ghost use Rattle.goods_set.specs.Orders.{bundle_cmp};

/// The order of bundles is total, and answers Equal only for equal lists. One with a lesser sort key comes before.
pub fn order_of_bundles()
    ensures total { IsTotalOrder bundle_cmp }
    ensures equal { (xs ys : List ℕ) → bundle_cmp xs ys ≡ Equal → xs ≡ ys }
    ensures sort_keys { (xs ys : List ℕ) → AreBelow 65536 xs → AreBelow 65536 ys → sort_key_of xs < sort_key_of ys
        → bundle_cmp xs ys ≡ Less }
{}

/// Inside is a partial order on bundles, and a bundle inside another comes before it or equals it.
pub fn inside_of_bundles()
    ensures reflexive { (xs : List ℕ) → IsInside xs xs }
    ensures transitive { (xs ys zs : List ℕ) → IsInside xs ys → IsInside ys zs → IsInside xs zs }
    ensures antisymmetric { (G : ℕ) (xs ys : List ℕ) → IsBundle G xs → IsBundle G ys
        → IsInside xs ys → IsInside ys xs → xs ≡ ys }
    ensures ordered { (G : ℕ) (xs ys : List ℕ) → IsBundle G xs → IsBundle G ys
        → IsInside xs ys → (bundle_cmp xs ys ≡ Less) ⊎ (xs ≡ ys) }
{}

/// The list of all bundles holds exactly the bundles, each before all later ones, so none twice.
pub fn every_bundle_is_listed()
    ensures bundles { (G : ℕ) → All (IsBundle G) (all_bundles G) }
    ensures all { (G : ℕ) (xs : List ℕ) → IsBundle G xs → Contains (all_bundles G) xs }
    ensures rising { (G : ℕ) → AllPairs (λ xs ys. bundle_cmp xs ys ≡ Less) (all_bundles G) }
{}
