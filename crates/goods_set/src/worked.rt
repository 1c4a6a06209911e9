//! Worked examples of the definitions, which the check computes.
ghost use Rattle.std.specs.Prelude.{◌≡◌, ◌<◌, [], ◌∷◌, Some, None, false};
ghost use Rattle.goods_set.specs.Bundles.{IsBundle, IsInside, AreApart, is_inside, without, with_good, good_from};
ghost use Rattle.goods_set.specs.Bundles.{all_bundles};
ghost use Rattle.goods_set.specs.Orders.{bundle_cmp};
ghost use Rattle.goods_set.specs.SortKeys.{sort_key_of};
ghost use Rattle.std.specs.declared.cmp.Ordering.TheVariants.{Less, Equal, Greater};

/// Bundles are strictly rising lists of goods below the number of goods.
pub fn bundles_worked()
    ensures a_bundle { IsBundle 6 (1 ∷ 3 ∷ 5 ∷ []) }
    ensures no_goods { IsBundle 0 [] }
    ensures not_rising { ¬ IsBundle 6 (3 ∷ 1 ∷ []) }
    ensures twice { ¬ IsBundle 6 (3 ∷ 3 ∷ []) }
    ensures too_high { ¬ IsBundle 3 (1 ∷ 3 ∷ []) }
{}

/// Inside, apart, without, put and the next good, as on sets.
pub fn sets_worked()
    ensures none_inside { IsInside [] (2 ∷ []) }
    ensures inside { IsInside (1 ∷ 3 ∷ []) (1 ∷ 2 ∷ 3 ∷ []) }
    ensures not_inside { is_inside (1 ∷ 3 ∷ []) (1 ∷ 2 ∷ []) ≡ false }
    ensures none_apart { AreApart [] [] }
    ensures apart { AreApart (1 ∷ 3 ∷ []) (2 ∷ 4 ∷ []) }
    ensures not_apart { ¬ AreApart (1 ∷ 3 ∷ []) (3 ∷ []) }
    ensures without { without (1 ∷ 3 ∷ 5 ∷ []) (3 ∷ 4 ∷ []) ≡ 1 ∷ 5 ∷ [] }
    ensures put_before { with_good 3 (5 ∷ []) ≡ 3 ∷ 5 ∷ [] }
    ensures put_again { with_good 5 (3 ∷ 5 ∷ []) ≡ 3 ∷ 5 ∷ [] }
    ensures put_between { with_good 4 (3 ∷ 5 ∷ []) ≡ 3 ∷ 4 ∷ 5 ∷ [] }
    ensures next { good_from (3 ∷ 5 ∷ []) 4 ≡ Some 5 }
    ensures no_next { good_from (3 ∷ 5 ∷ []) 6 ≡ None }
{}

/// Bundles come by size, then lexicographically.
pub fn order_worked()
    ensures none_first { bundle_cmp [] (0 ∷ []) ≡ Less }
    ensures by_goods { bundle_cmp (0 ∷ 9 ∷ []) (1 ∷ 2 ∷ []) ≡ Less }
    ensures equal { bundle_cmp (4 ∷ []) (4 ∷ []) ≡ Equal }
    ensures by_size { bundle_cmp (3 ∷ 5 ∷ []) (9 ∷ []) ≡ Greater }
    ensures last_good { bundle_cmp (3 ∷ 5 ∷ []) (3 ∷ 6 ∷ []) ≡ Less }
    ensures all { all_bundles 3 ≡ [] ∷ (0 ∷ []) ∷ (1 ∷ []) ∷ (2 ∷ [])
        ∷ (0 ∷ 1 ∷ []) ∷ (0 ∷ 2 ∷ []) ∷ (1 ∷ 2 ∷ []) ∷ (0 ∷ 1 ∷ 2 ∷ []) ∷ [] }
    ensures over_none { all_bundles 0 ≡ [] ∷ [] }
{}

/// The size is in the highest 16 bits of a sort key, then the first three goods, so that fewer goods come first.
pub fn sort_keys_worked()
    ensures no_goods { sort_key_of [] ≡ 0 }
    ensures one_good { sort_key_of (5 ∷ []) ≡ 281496451547136 }
    ensures two_goods { sort_key_of (5 ∷ 7 ∷ []) ≡ 562971428716544 }
    ensures three_goods { sort_key_of (5 ∷ 7 ∷ 9 ∷ []) ≡ 844446405427209 }
    ensures size_first { sort_key_of (65535 ∷ []) < sort_key_of (0 ∷ 1 ∷ []) }
    ensures fourth_left_out { sort_key_of (5 ∷ 7 ∷ 9 ∷ 11 ∷ []) ≡ sort_key_of (5 ∷ 7 ∷ 9 ∷ 12 ∷ []) }
{}
