//! Worked examples of the definitions, computed by the prover.

ghost use Rattle.std.specs.Prelude.{◌≡◌, [], ◌∷◌, true, false, None, Some};
ghost use Rattle.analysis.specs.Bids.{bid_at, best_number, is_best, is_better, are_alike};
ghost use Rattle.analysis.specs.Examples.{file, or_bid, xor_bid};
ghost use Rattle.analysis.specs.Reasons.{
  Explains,
  HasInside,
  HasPacking,
  HasSame,
  IsKeptAs,
  Keep,
  Zero,
  Same,
  Inside,
  Packing,
  all_apart,
  reason_of,
  reasons_of,
};
ghost use Rattle.canon.specs.Renaming.{kept_bids, kept_dummies};

/// Of a bidder's bids on a bundle the one of the highest price is the best, and of equal ones the first.
pub fn best_bids()
    ensures first { is_best (file 1 0 (or_bid (0 ∷ []) 3 ∷ or_bid (0 ∷ []) 3 ∷ or_bid (0 ∷ []) 3 ∷ [])) 0 ≡ true }
    ensures second { is_best (file 1 0 (or_bid (0 ∷ []) 3 ∷ or_bid (0 ∷ []) 3 ∷ or_bid (0 ∷ []) 3 ∷ [])) 1 ≡ false }
    ensures higher { is_best (file 1 0 (or_bid (0 ∷ []) 3 ∷ or_bid (0 ∷ []) 4 ∷ [])) 1 ≡ true }
    ensures lower { is_best (file 1 0 (or_bid (0 ∷ []) 3 ∷ or_bid (0 ∷ []) 4 ∷ [])) 0 ≡ false }
    ensures larger_bundle { is_best (file 2 0 (or_bid (0 ∷ []) 3 ∷ or_bid (0 ∷ 1 ∷ []) 4 ∷ [])) 0 ≡ true }
    ensures of_or_bidder { is_best (file 1 1 (or_bid (0 ∷ []) 4 ∷ xor_bid 0 (0 ∷ []) 3 ∷ [])) 1 ≡ true }
    ensures of_xor_bidder { is_best (file 1 2 (xor_bid 1 (0 ∷ []) 4 ∷ xor_bid 0 (0 ∷ []) 3 ∷ [])) 1 ≡ true }
{}

/// Bidders are in the order of the canonical file, equal ones in that of their dummy goods. Those of value zero are not
/// there.
#[tactic(auto, unfolding(prune::specs::Points::points_where, prune::specs::Points::is_xor_point, prune::specs::Points::is_or_point, valuation::specs::Values::xor_value, valuation::specs::Values::or_value))]
pub fn renamed_bidders()
    ensures equal { kept_dummies (file 2 3 (xor_bid 2 (0 ∷ []) 3 ∷ xor_bid 0 (1 ∷ []) 2 ∷ xor_bid 1 (0 ∷ []) 3 ∷ []))
        ≡ 1 ∷ 2 ∷ 0 ∷ [] }
    ensures zero { kept_dummies (file 1 3 (xor_bid 2 (0 ∷ []) 3 ∷ xor_bid 0 (0 ∷ []) 0 ∷ [])) ≡ 2 ∷ [] }
    ensures bids { kept_bids (file 2 3 (xor_bid 2 (0 ∷ []) 3 ∷ xor_bid 0 (1 ∷ []) 2 ∷ or_bid (0 ∷ []) 3 ∷ []))
        ≡ or_bid (0 ∷ []) 3 ∷ xor_bid 2 (0 ∷ []) 3 ∷ xor_bid 0 (1 ∷ []) 2 ∷ [] }
{}

/// Bids of the OR bidder.
#[tactic(auto, unfolding(prune::specs::Points::points_where, prune::specs::Points::is_xor_point, prune::specs::Points::is_or_point, valuation::specs::Values::xor_value, valuation::specs::Values::or_value))]
pub fn or_bids()
    ensures no_bids { Explains (file 1 1 []) [] }
    ensures three_equal_bids { Explains (file 1 0 (or_bid (0 ∷ []) 3 ∷ or_bid (0 ∷ []) 3 ∷ or_bid (0 ∷ []) 3 ∷ []))
        (Keep 0 ∷ Same 0 ∷ Same 0 ∷ []) }
    ensures best_is_later { Explains (file 1 0 (or_bid (0 ∷ []) 3 ∷ or_bid (0 ∷ []) 0 ∷ or_bid (0 ∷ []) 4 ∷ []))
        (Same 2 ∷ Zero ∷ Keep 0 ∷ []) }
    ensures equal_to_the_sum { Explains (file 2 0 (or_bid (0 ∷ 1 ∷ []) 7 ∷ or_bid (1 ∷ []) 4 ∷ or_bid (0 ∷ []) 3 ∷ []))
        (Packing (1 ∷ 2 ∷ []) ∷ Keep 1 ∷ Keep 0 ∷ []) }
    ensures above_the_sum { Explains (file 2 0 (or_bid (0 ∷ 1 ∷ []) 8 ∷ or_bid (1 ∷ []) 4 ∷ or_bid (0 ∷ []) 3 ∷ []))
        (Keep 2 ∷ Keep 1 ∷ Keep 0 ∷ []) }
    ensures one_smaller_bid { Explains (file 2 0 (or_bid (0 ∷ 1 ∷ []) 7 ∷ or_bid (1 ∷ []) 7 ∷ []))
        (Packing (1 ∷ []) ∷ Keep 0 ∷ []) }
{}

/// Bids of XOR bidders.
#[tactic(auto, unfolding(prune::specs::Points::points_where, prune::specs::Points::is_xor_point, prune::specs::Points::is_or_point, valuation::specs::Values::xor_value, valuation::specs::Values::or_value))]
pub fn xor_bids()
    ensures one_inside_another { Explains
        (file 2 1 (xor_bid 0 (0 ∷ 1 ∷ []) 3 ∷ xor_bid 0 (1 ∷ []) 3 ∷ xor_bid 0 (0 ∷ []) 2 ∷ []))
        (Inside 1 ∷ Keep 1 ∷ Keep 0 ∷ []) }
    ensures no_sum { Explains
        (file 2 1 (xor_bid 0 (0 ∷ 1 ∷ []) 4 ∷ xor_bid 0 (1 ∷ []) 3 ∷ xor_bid 0 (0 ∷ []) 2 ∷ []))
        (Keep 2 ∷ Keep 1 ∷ Keep 0 ∷ []) }
    ensures all_zero { Explains (file 1 1 (xor_bid 0 (0 ∷ []) 0 ∷ xor_bid 0 (0 ∷ []) 0 ∷ [])) (Zero ∷ Zero ∷ []) }
    ensures equal_bidders { Explains (file 1 2 (xor_bid 1 (0 ∷ []) 3 ∷ xor_bid 0 (0 ∷ []) 3 ∷ []))
        (Keep 1 ∷ Keep 0 ∷ []) }
    ensures or_bids_first { Explains (file 1 1 (xor_bid 0 (0 ∷ []) 3 ∷ or_bid (0 ∷ []) 3 ∷ []))
        (Keep 1 ∷ Keep 0 ∷ []) }
{}

/// The reason of each bid. A packing is the one that the bounded search finds: it visits the points from the last
/// to the first.
#[tactic(auto, unfolding(prune::specs::Points::points_where, prune::specs::Points::is_xor_point, prune::specs::Points::is_or_point, valuation::specs::Values::xor_value, valuation::specs::Values::or_value, valuation::specs::SearchSteps::found_indices, prune::specs::Fates::found_points, prune::specs::Fates::or_fate, prune::specs::Fates::xor_fate, crate::specs::Reasons::reason_of))]
pub fn reasons()
    ensures of_or_bids { reasons_of (file 2 0
        (or_bid (0 ∷ 1 ∷ []) 7 ∷ or_bid (1 ∷ []) 4 ∷ or_bid (0 ∷ []) 3 ∷ or_bid (1 ∷ []) 4 ∷ or_bid (0 ∷ []) 0 ∷ []))
        ≡ Packing (1 ∷ 2 ∷ []) ∷ Keep 1 ∷ Keep 0 ∷ Same 1 ∷ Zero ∷ [] }
    ensures last_points_first { reasons_of (file 3 0
        (or_bid (0 ∷ []) 3 ∷ or_bid (1 ∷ []) 3 ∷ or_bid (2 ∷ []) 3 ∷ or_bid (0 ∷ 1 ∷ 2 ∷ []) 3 ∷ []))
        ≡ Keep 0 ∷ Keep 1 ∷ Keep 2 ∷ Packing (2 ∷ []) ∷ [] }
    ensures first_point_inside { reasons_of (file 2 1
        (xor_bid 0 (0 ∷ 1 ∷ []) 3 ∷ xor_bid 0 (1 ∷ []) 4 ∷ xor_bid 0 (0 ∷ []) 3 ∷ []))
        ≡ Inside 2 ∷ Keep 1 ∷ Keep 0 ∷ [] }
    ensures equal_bidders { reasons_of (file 1 2 (xor_bid 1 (0 ∷ []) 3 ∷ xor_bid 0 (0 ∷ []) 3 ∷ xor_bid 1 (0 ∷ []) 2 ∷ []))
        ≡ Keep 1 ∷ Keep 0 ∷ Same 0 ∷ [] }
    ensures later_bidder_first { reasons_of (file 2 2 (xor_bid 1 (0 ∷ []) 3 ∷ xor_bid 0 (1 ∷ []) 3 ∷ or_bid (1 ∷ []) 3 ∷ []))
        ≡ Keep 1 ∷ Keep 2 ∷ Keep 0 ∷ [] }
    ensures best { best_number (file 1 1 (or_bid (0 ∷ []) 3 ∷ xor_bid 0 (0 ∷ []) 2 ∷ or_bid (0 ∷ []) 4 ∷ [])) None (0 ∷ [])
        ≡ Some 2 }
{}

/// What is no reason.
#[tactic(auto, unfolding(prune::specs::Points::points_where, prune::specs::Points::is_xor_point, prune::specs::Points::is_or_point, valuation::specs::Values::xor_value, valuation::specs::Values::or_value))]
pub fn wrong_reasons()
    ensures lower_named_as_best { HasSame (file 1 0 (or_bid (0 ∷ []) 3 ∷ or_bid (0 ∷ []) 4 ∷ or_bid (0 ∷ []) 2 ∷ [])) 2 0
        → ⊥ }
    ensures named_as_its_own_best { HasSame (file 1 0 (or_bid (0 ∷ []) 3 ∷ [])) 0 0 → ⊥ }
    ensures dropped_reported_as_kept { IsKeptAs (file 2 0 (or_bid (0 ∷ 1 ∷ []) 7 ∷ or_bid (1 ∷ []) 7 ∷ [])) 0 0 → ⊥ }
    ensures short { HasPacking (file 2 0 (or_bid (0 ∷ 1 ∷ []) 8 ∷ or_bid (1 ∷ []) 4 ∷ or_bid (0 ∷ []) 3 ∷ []))
        (Packing (1 ∷ 2 ∷ []) ∷ Keep 1 ∷ Keep 0 ∷ []) 0 (1 ∷ 2 ∷ []) → ⊥ }
    ensures sharing_a_good { all_apart ((0 ∷ []) ∷ (1 ∷ 2 ∷ []) ∷ (2 ∷ 3 ∷ []) ∷ []) ≡ false }
    ensures sharing_none { all_apart ((0 ∷ []) ∷ (1 ∷ 2 ∷ []) ∷ (3 ∷ []) ∷ []) ≡ true }
    ensures dropped_named_as_inside { HasInside
        (file 3 1 (xor_bid 0 (0 ∷ 1 ∷ []) 3 ∷ xor_bid 0 (1 ∷ []) 3 ∷ xor_bid 0 (0 ∷ 1 ∷ 2 ∷ []) 3 ∷ []))
        (Inside 1 ∷ Keep 0 ∷ Inside 0 ∷ []) 2 0 → ⊥ }
    ensures of_another_bidder { HasInside (file 2 2 (xor_bid 0 (0 ∷ 1 ∷ []) 3 ∷ xor_bid 1 (1 ∷ []) 3 ∷ []))
        (Inside 1 ∷ Keep 0 ∷ []) 0 1 → ⊥ }
{}
