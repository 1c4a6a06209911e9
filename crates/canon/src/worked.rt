//! Worked examples of the definitions, computed by the prover.

ghost use Rattle.std.specs.Prelude.{◌≡◌, [], ◌∷◌, Some, None, codes};
ghost use Rattle.valuation.specs.Examples.{atom};
ghost use Rattle.canon.specs.Canonical.{canonical_auction, canonical_text, file_from};
ghost use Rattle.canon.specs.Unsearched.{AreAlike, unsearched_auction};
ghost use Rattle.canon.specs.Examples.{auction};
ghost use Rattle.canon.specs.Difference.{first_difference, NoDifference, InGoods, InOr, InXor};
ghost use Rattle.canon.specs.Verdicts.{NamesGoods};
ghost use Rattle.canon.specs.declared.verdict.Side.TheVariants.{Exactly, Below};
ghost use Rattle.canon.specs.FirstNumbers.{AddsText, IsEmptyIndex, IsIndexOf, first_number};

/// The canonical auction: points stay, zero bidders go, and equal bidders stay beside one another.
#[tactic(auto, unfolding(prune::specs::Points::points_where, prune::specs::Points::is_xor_point, prune::specs::Points::is_or_point, valuation::specs::Values::xor_value, valuation::specs::Values::or_value))]
pub fn canonical_auctions()
    ensures larger_bid_dominated { canonical_auction
        (auction 2 (atom (0 ∷ []) 3 ∷ atom (1 ∷ []) 4 ∷ atom (0 ∷ 1 ∷ []) 7 ∷ []) [])
        ≡ auction 2 (atom (0 ∷ []) 3 ∷ atom (1 ∷ []) 4 ∷ []) [] }
    ensures zero_bidder_dropped { canonical_auction
        (auction 2 [] ((atom (0 ∷ []) 0 ∷ []) ∷ (atom (1 ∷ []) 2 ∷ []) ∷ [] ∷ []))
        ≡ auction 2 [] ((atom (1 ∷ []) 2 ∷ []) ∷ []) }
    ensures equal_bidders_counted { canonical_auction
        (auction 2 [] ((atom (0 ∷ []) 1 ∷ atom (0 ∷ 1 ∷ []) 2 ∷ [])
        ∷ (atom (0 ∷ []) 1 ∷ atom (0 ∷ 1 ∷ []) 1 ∷ atom (0 ∷ 1 ∷ []) 2 ∷ []) ∷ []))
        ≡ auction 2 [] ((atom (0 ∷ []) 1 ∷ atom (0 ∷ 1 ∷ []) 2 ∷ [])
        ∷ (atom (0 ∷ []) 1 ∷ atom (0 ∷ 1 ∷ []) 2 ∷ []) ∷ []) }
    ensures bidders_sorted { canonical_auction
        (auction 2 [] ((atom (0 ∷ []) 2 ∷ atom (1 ∷ []) 1 ∷ []) ∷ (atom (0 ∷ []) 1 ∷ atom (1 ∷ []) 2 ∷ []) ∷ []))
        ≡ auction 2 [] ((atom (0 ∷ []) 1 ∷ atom (1 ∷ []) 2 ∷ []) ∷ (atom (0 ∷ []) 2 ∷ atom (1 ∷ []) 1 ∷ []) ∷ []) }
{}

/// The unsearched auction: OR bids that a single bid replaces go, others of value nothing stay, and bidders are canonical.
#[tactic(auto, unfolding(prune::specs::Points::points_where, prune::specs::Points::is_xor_point, prune::specs::Points::is_or_point, valuation::specs::Values::xor_value, valuation::specs::Values::or_value))]
pub fn unsearched_auctions()
    ensures two_bids_replace_none { unsearched_auction
        (auction 2 (atom (0 ∷ 1 ∷ []) 7 ∷ atom (1 ∷ []) 4 ∷ atom (0 ∷ []) 3 ∷ []) [])
        ≡ auction 2 (atom (0 ∷ []) 3 ∷ atom (1 ∷ []) 4 ∷ atom (0 ∷ 1 ∷ []) 7 ∷ []) [] }
    ensures one_bid_replaces { unsearched_auction
        (auction 2 (atom (0 ∷ 1 ∷ []) 4 ∷ atom (1 ∷ []) 4 ∷ atom (1 ∷ []) 2 ∷ atom (0 ∷ []) 0 ∷ []) [])
        ≡ auction 2 (atom (1 ∷ []) 4 ∷ []) [] }
    ensures bidders_sorted { unsearched_auction
        (auction 2 [] ((atom (0 ∷ []) 2 ∷ atom (1 ∷ []) 1 ∷ []) ∷ [] ∷ (atom (1 ∷ []) 2 ∷ atom (0 ∷ []) 1 ∷ []) ∷ []))
        ≡ auction 2 [] ((atom (0 ∷ []) 1 ∷ atom (1 ∷ []) 2 ∷ []) ∷ (atom (0 ∷ []) 2 ∷ atom (1 ∷ []) 1 ∷ []) ∷ []) }
{}

/// Files that are alike, and files of the same auction that are not.
#[tactic(auto, unfolding(prune::specs::Points::points_where, prune::specs::Points::is_xor_point, prune::specs::Points::is_or_point, valuation::specs::Values::xor_value, valuation::specs::Values::or_value))]
pub fn alike_files()
    ensures other_order { AreAlike
        (file_from (auction 2 (atom (0 ∷ []) 3 ∷ atom (0 ∷ 1 ∷ []) 9 ∷ []) ((atom (0 ∷ []) 2 ∷ []) ∷ (atom (1 ∷ []) 1 ∷ []) ∷
        [])))
        (file_from (auction 2 (atom (0 ∷ 1 ∷ []) 9 ∷ atom (0 ∷ []) 3 ∷ []) ((atom (1 ∷ []) 1 ∷ []) ∷ (atom (0 ∷ []) 2 ∷ []) ∷
        []))) }
    ensures two_bids_for_one { AreAlike
        (file_from (auction 2 (atom (0 ∷ []) 3 ∷ atom (1 ∷ []) 4 ∷ []) []))
        (file_from (auction 2 (atom (0 ∷ []) 3 ∷ atom (1 ∷ []) 4 ∷ atom (0 ∷ 1 ∷ []) 7 ∷ []) [])) → ⊥ }
    ensures goods { AreAlike (file_from (auction 1 [] [])) (file_from (auction 2 [] [])) → ⊥ }
{}

/// The first difference. Goods come before values, the first bundle before later ones, and the OR bidder before XOR
/// bidders.
#[tactic(auto, unfolding(prune::specs::Points::points_where, prune::specs::Points::is_xor_point, prune::specs::Points::is_or_point, valuation::specs::Values::xor_value, valuation::specs::Values::or_value))]
pub fn first_differences()
    ensures goods { first_difference (auction 1 (atom (0 ∷ []) 4 ∷ []) []) (auction 2 [] []) ≡ InGoods 1 2 }
    ensures same_values { first_difference (auction 2 (atom (0 ∷ []) 3 ∷ atom (1 ∷ []) 4 ∷ atom (0 ∷ 1 ∷ []) 7 ∷ []) [])
        (auction 2 (atom (1 ∷ []) 4 ∷ atom (0 ∷ []) 3 ∷ []) []) ≡ NoDifference }
    ensures prices { first_difference (auction 1 (atom (0 ∷ []) 4 ∷ []) []) (auction 1 (atom (0 ∷ []) 5 ∷ []) [])
        ≡ InOr (0 ∷ []) (Exactly 4) (Exactly 5) }
    ensures or_before_xor { first_difference (auction 1 (atom (0 ∷ []) 4 ∷ []) ((atom (0 ∷ []) 1 ∷ []) ∷ []))
        (auction 1 (atom (0 ∷ []) 5 ∷ []) []) ≡ InOr (0 ∷ []) (Exactly 4) (Exactly 5) }
    ensures or_is_not_xor { first_difference (auction 1 (atom (0 ∷ []) 4 ∷ []) [])
        (auction 1 [] ((atom (0 ∷ []) 4 ∷ []) ∷ [])) ≡ InOr (0 ∷ []) (Exactly 4) (Below 4) }
    ensures singles_below_pair { first_difference
        (auction 2 (atom (0 ∷ []) 3 ∷ atom (1 ∷ []) 4 ∷ atom (0 ∷ 1 ∷ []) 8 ∷ []) [])
        (auction 2 (atom (0 ∷ []) 3 ∷ atom (1 ∷ []) 4 ∷ []) []) ≡ InOr (0 ∷ 1 ∷ []) (Exactly 8) (Below 8) }
    ensures first_bundle { first_difference (auction 2 (atom (0 ∷ []) 1 ∷ atom (1 ∷ []) 1 ∷ []) [])
        (auction 2 (atom (0 ∷ []) 1 ∷ atom (0 ∷ 1 ∷ []) 9 ∷ []) []) ≡ InOr (1 ∷ []) (Exactly 1) (Below 1) }
    ensures equal_bidders_counted { first_difference
        (auction 2 [] ((atom (0 ∷ []) 1 ∷ atom (0 ∷ 1 ∷ []) 2 ∷ [])
        ∷ (atom (0 ∷ []) 1 ∷ atom (0 ∷ 1 ∷ []) 1 ∷ atom (0 ∷ 1 ∷ []) 2 ∷ []) ∷ []))
        (auction 2 [] ((atom (0 ∷ []) 1 ∷ atom (0 ∷ 1 ∷ []) 2 ∷ []) ∷ []))
        ≡ InXor (atom (0 ∷ []) 1 ∷ atom (0 ∷ 1 ∷ []) 2 ∷ []) 2 1 }
    ensures bidders_not_tables { first_difference
        (auction 2 [] ((atom (0 ∷ []) 1 ∷ atom (1 ∷ []) 2 ∷ []) ∷ (atom (0 ∷ []) 2 ∷ atom (1 ∷ []) 1 ∷ []) ∷ []))
        (auction 2 [] ((atom (0 ∷ []) 1 ∷ atom (1 ∷ []) 1 ∷ atom (0 ∷ 1 ∷ []) 2 ∷ [])
        ∷ (atom (0 ∷ []) 2 ∷ atom (1 ∷ []) 2 ∷ []) ∷ []))
        ≡ InXor (atom (0 ∷ []) 1 ∷ atom (1 ∷ []) 1 ∷ atom (0 ∷ 1 ∷ []) 2 ∷ []) 0 1 }
{}

/// The differences that name goods: of the OR bidder, and of an XOR bidder.
pub fn differences_that_name_goods()
    ensures or { NamesGoods (InOr (0 ∷ []) (Exactly 4) (Below 4)) }
    ensures xor { NamesGoods (InXor (atom (0 ∷ []) 1 ∷ []) 1 0) }
    ensures none { NamesGoods NoDifference → ⊥ }
    ensures goods { NamesGoods (InGoods 1 2) → ⊥ }
{}

/// Bids that change no value, the order of bids and bidders and those of value zero do not count; prices, goods and
/// equal bidders do.
pub fn first_numbers()
    ensures larger_bid_dominated { first_number (file_from (auction 2 [] [])
        ∷ file_from (auction 2 (atom (0 ∷ []) 3 ∷ atom (1 ∷ []) 4 ∷ atom (0 ∷ 1 ∷ []) 7 ∷ []) [])
        ∷ file_from (auction 2 (atom (1 ∷ []) 4 ∷ atom (0 ∷ []) 3 ∷ []) []) ∷ [])
        (file_from (auction 2 (atom (1 ∷ []) 4 ∷ atom (0 ∷ []) 3 ∷ []) [])) ≡ Some 1 }
    ensures bidders_in_any_order { first_number
        (file_from (auction 2 [] ((atom (1 ∷ []) 2 ∷ []) ∷ [] ∷ (atom (0 ∷ []) 1 ∷ []) ∷ [])) ∷ [])
        (file_from (auction 2 [] ((atom (0 ∷ []) 1 ∷ []) ∷ (atom (1 ∷ []) 2 ∷ []) ∷ []))) ≡ Some 0 }
    ensures equal_bidders_counted { first_number (file_from (auction 1 [] ((atom (0 ∷ []) 1 ∷ []) ∷ [])) ∷ [])
        (file_from (auction 1 [] ((atom (0 ∷ []) 1 ∷ []) ∷ (atom (0 ∷ []) 1 ∷ []) ∷ []))) ≡ None }
    ensures prices_and_goods { first_number (file_from (auction 1 (atom (0 ∷ []) 4 ∷ []) [])
        ∷ file_from (auction 2 (atom (0 ∷ []) 5 ∷ []) []) ∷ file_from (auction 1 [] ((atom (0 ∷ []) 5 ∷ []) ∷ [])) ∷ [])
        (file_from (auction 1 (atom (0 ∷ []) 5 ∷ []) [])) ≡ None }
{}

/// A text that an index has keeps its number, and a new one gets the number behind all files.
pub fn added_texts()
    ensures new { AddsText (record { texts = []; count = 2 }) (record { texts = (codes "a", 2) ∷ []; count = 3 })
        (codes "a") 2 }
    ensures known { AddsText (record { texts = (codes "a", 0) ∷ []; count = 2 })
        (record { texts = (codes "a", 0) ∷ []; count = 3 })
        (codes "a") 2 → ⊥ }
    ensures counted { AddsText (record { texts = []; count = 2 }) (record { texts = (codes "a", 2) ∷ []; count = 2 })
        (codes "a") 2 → ⊥ }
    ensures none { IsEmptyIndex (record { texts = []; count = 0 }) }
    ensures of_none { IsIndexOf canonical_text (record { texts = []; count = 0 }) [] }
    ensures one_less { IsIndexOf canonical_text (record { texts = []; count = 0 })
        (file_from (auction 1 [] []) ∷ []) → ⊥ }
{}
