//! Worked examples of the definitions, computed by the prover.

ghost use Rattle.std.specs.Prelude.{◌≡◌, [], ◌∷◌, Some, None};
ghost use Rattle.canon.specs.Difference.{InGoods, InOr, InXor, NoDifference};
ghost use Rattle.canon.specs.Examples.{auction};
ghost use Rattle.canon.specs.declared.verdict.Side.TheVariants.{Exactly};
ghost use Rattle.analysis.specs.BidderChanges.{AreBidderChanges, all_partners, excess_bidders};
ghost use Rattle.analysis.specs.Differences.{AreAllDifferences, BeginsWith};
ghost use Rattle.analysis.specs.Examples.{atom, bidder_change, change, differences};
ghost use Rattle.canon.specs.PriceChanges.{ArePriceChanges, price_on};

/// The price on a bundle.
pub fn prices()
    ensures first { price_on (atom (0 ∷ []) 3 ∷ atom (1 ∷ []) 4 ∷ []) (0 ∷ []) ≡ Some 3 }
    ensures second { price_on (atom (0 ∷ []) 3 ∷ atom (1 ∷ []) 4 ∷ []) (1 ∷ []) ≡ Some 4 }
    ensures none { price_on (atom (0 ∷ []) 3 ∷ atom (1 ∷ []) 4 ∷ []) (0 ∷ 1 ∷ []) ≡ None }
{}

/// Of equal bidders the first ones are in excess.
pub fn excess()
    ensures three_and_two { excess_bidders ((atom (0 ∷ []) 3 ∷ []) ∷ (atom (0 ∷ []) 3 ∷ []) ∷ (atom (0 ∷ []) 3 ∷ []) ∷ [])
        ((atom (0 ∷ []) 3 ∷ []) ∷ (atom (0 ∷ []) 3 ∷ []) ∷ []) ≡ 0 ∷ [] }
    ensures two_and_three { excess_bidders ((atom (0 ∷ []) 3 ∷ []) ∷ (atom (0 ∷ []) 3 ∷ []) ∷ [])
        ((atom (0 ∷ []) 3 ∷ []) ∷ (atom (0 ∷ []) 3 ∷ []) ∷ (atom (0 ∷ []) 3 ∷ []) ∷ []) ≡ [] }
    ensures another_price { excess_bidders ((atom (0 ∷ []) 3 ∷ []) ∷ (atom (1 ∷ []) 3 ∷ []) ∷ [])
        ((atom (0 ∷ []) 4 ∷ []) ∷ (atom (1 ∷ []) 3 ∷ []) ∷ []) ≡ 0 ∷ [] }
{}

/// A bundle with a bid on one side only, or with two prices, is a change; equal lists have none.
pub fn price_changes_worked()
    ensures left_only { ArePriceChanges (atom (0 ∷ []) 3 ∷ []) [] (change (0 ∷ []) (Some 3) None ∷ []) }
    ensures right_only { ArePriceChanges [] (atom (0 ∷ []) 3 ∷ []) (change (0 ∷ []) None (Some 3) ∷ []) }
    ensures another_price { ArePriceChanges (atom (0 ∷ []) 3 ∷ []) (atom (0 ∷ []) 4 ∷ [])
        (change (0 ∷ []) (Some 3) (Some 4) ∷ []) }
    ensures equal { ArePriceChanges (atom (0 ∷ []) 3 ∷ []) (atom (0 ∷ []) 3 ∷ []) [] }
    ensures missing { ¬ ArePriceChanges (atom (0 ∷ []) 3 ∷ []) [] [] }
    ensures wrong_price { ¬ ArePriceChanges (atom (0 ∷ []) 3 ∷ []) [] (change (0 ∷ []) (Some 4) None ∷ []) }
{}

/// The partners of left bidders, by their bundles: one at another price; none on the bundle; the one on the bundle that
/// fewer right ones have; each once; none that waits; one on the next rarest bundle, since none waits on the rarest; of two
/// equally rare bundles the one on the first; and none, since all on the bundle are taken.
pub fn partners()
    ensures another_price { all_partners ((atom (0 ∷ []) 3 ∷ []) ∷ []) ((atom (0 ∷ []) 4 ∷ []) ∷ []) ≡ Some 0 ∷ [] }
    ensures another_bundle { all_partners ((atom (0 ∷ []) 3 ∷ []) ∷ []) ((atom (1 ∷ []) 3 ∷ []) ∷ []) ≡ None ∷ [] }
    ensures rarest { all_partners ((atom (0 ∷ []) 5 ∷ atom (1 ∷ []) 5 ∷ []) ∷ [])
        ((atom (0 ∷ []) 1 ∷ []) ∷ (atom (0 ∷ []) 2 ∷ atom (1 ∷ []) 7 ∷ []) ∷ []) ≡ Some 1 ∷ [] }
    ensures each_once { all_partners ((atom (0 ∷ []) 5 ∷ []) ∷ (atom (0 ∷ []) 6 ∷ []) ∷ [])
        ((atom (0 ∷ []) 1 ∷ []) ∷ (atom (0 ∷ []) 2 ∷ []) ∷ []) ≡ Some 0 ∷ Some 1 ∷ [] }
    ensures none_waits { all_partners ((atom (0 ∷ []) 5 ∷ []) ∷ (atom (0 ∷ []) 6 ∷ []) ∷ []) ((atom (0 ∷ []) 1 ∷ []) ∷ [])
        ≡ Some 0 ∷ None ∷ [] }
    ensures next_rarest { all_partners ((atom (1 ∷ []) 5 ∷ []) ∷ (atom (1 ∷ []) 6 ∷ atom (2 ∷ []) 6 ∷ []) ∷ [])
        ((atom (1 ∷ []) 7 ∷ []) ∷ (atom (2 ∷ []) 1 ∷ []) ∷ (atom (2 ∷ []) 2 ∷ []) ∷ []) ≡ Some 0 ∷ Some 1 ∷ [] }
    ensures equally_rare { all_partners ((atom (0 ∷ []) 5 ∷ atom (1 ∷ []) 5 ∷ []) ∷ [])
        ((atom (0 ∷ 1 ∷ []) 1 ∷ []) ∷ (atom (1 ∷ []) 1 ∷ []) ∷ (atom (0 ∷ []) 2 ∷ []) ∷ []) ≡ Some 2 ∷ [] }
    ensures all_taken { all_partners ((atom (0 ∷ []) 5 ∷ []) ∷ (atom (0 ∷ []) 6 ∷ []) ∷ [])
        ((atom (0 ∷ []) 1 ∷ []) ∷ (atom (1 ∷ []) 1 ∷ []) ∷ []) ≡ Some 0 ∷ None ∷ [] }
{}

/// A bidder of one file alone is a change; two bidders beside each other are one change; equal bidders are none. Bidders of
/// the right file that are alone come last, in order.
pub fn bidder_changes_worked()
    ensures equal { AreBidderChanges ((atom (0 ∷ []) 3 ∷ []) ∷ []) ((atom (0 ∷ []) 3 ∷ []) ∷ []) [] }
    ensures left_only { AreBidderChanges ((atom (0 ∷ []) 3 ∷ []) ∷ []) []
        (bidder_change (Some 0) None (change (0 ∷ []) (Some 3) None ∷ []) ∷ []) }
    ensures beside { AreBidderChanges ((atom (0 ∷ []) 3 ∷ []) ∷ []) ((atom (0 ∷ []) 4 ∷ []) ∷ [])
        (bidder_change (Some 0) (Some 0) (change (0 ∷ []) (Some 3) (Some 4) ∷ []) ∷ []) }
    ensures missing { ¬ AreBidderChanges ((atom (0 ∷ []) 3 ∷ []) ∷ []) [] [] }
    ensures right_missing { ¬ AreBidderChanges [] ((atom (0 ∷ []) 3 ∷ []) ∷ []) [] }
    ensures left_first { AreBidderChanges ((atom (0 ∷ []) 3 ∷ []) ∷ []) ((atom (1 ∷ []) 4 ∷ []) ∷ [])
        (bidder_change (Some 0) None (change (0 ∷ []) (Some 3) None ∷ [])
        ∷ bidder_change None (Some 0) (change (1 ∷ []) None (Some 4) ∷ []) ∷ []) }
    ensures apart { ¬ AreBidderChanges ((atom (0 ∷ []) 3 ∷ []) ∷ []) ((atom (0 ∷ []) 4 ∷ []) ∷ [])
        (bidder_change (Some 0) None (change (0 ∷ []) (Some 3) None ∷ [])
        ∷ bidder_change None (Some 0) (change (0 ∷ []) None (Some 4) ∷ []) ∷ []) }
    ensures right_first { ¬ AreBidderChanges ((atom (0 ∷ []) 3 ∷ []) ∷ []) ((atom (0 ∷ []) 4 ∷ []) ∷ [])
        (bidder_change None (Some 0) (change (0 ∷ []) None (Some 4) ∷ [])
        ∷ bidder_change (Some 0) None (change (0 ∷ []) (Some 3) None ∷ []) ∷ []) }
    ensures rights_rise { AreBidderChanges [] ((atom (0 ∷ []) 3 ∷ []) ∷ (atom (0 ∷ []) 4 ∷ []) ∷ [])
        (bidder_change None (Some 0) (change (0 ∷ []) None (Some 3) ∷ [])
        ∷ bidder_change None (Some 1) (change (0 ∷ []) None (Some 4) ∷ []) ∷ []) }
    ensures rights_fall { ¬ AreBidderChanges [] ((atom (0 ∷ []) 3 ∷ []) ∷ (atom (0 ∷ []) 4 ∷ []) ∷ [])
        (bidder_change None (Some 1) (change (0 ∷ []) None (Some 4) ∷ [])
        ∷ bidder_change None (Some 0) (change (0 ∷ []) None (Some 3) ∷ []) ∷ []) }
{}

/// The numbers of goods, if they differ, and the bids.
pub fn all_differences_worked()
    ensures goods { AreAllDifferences (auction 1 [] []) (auction 2 [] []) (differences (Some (1, 2)) [] []) }
    ensures bids { AreAllDifferences (auction 1 (atom (0 ∷ []) 3 ∷ []) []) (auction 1 (atom (0 ∷ []) 4 ∷ []) [])
        (differences None (change (0 ∷ []) (Some 3) (Some 4) ∷ []) []) }
    ensures both { AreAllDifferences (auction 1 (atom (0 ∷ []) 3 ∷ []) []) (auction 2 (atom (0 ∷ []) 4 ∷ []) [])
        (differences (Some (1, 2)) (change (0 ∷ []) (Some 3) (Some 4) ∷ []) []) }
    ensures same { AreAllDifferences (auction 1 (atom (0 ∷ []) 3 ∷ []) []) (auction 1 (atom (0 ∷ []) 3 ∷ []) [])
        (differences None [] []) }
    ensures missing { ¬ AreAllDifferences (auction 1 (atom (0 ∷ []) 3 ∷ []) []) (auction 1 [] [])
        (differences None [] []) }
    ensures missing_beside_goods { ¬ AreAllDifferences (auction 1 (atom (0 ∷ []) 3 ∷ []) []) (auction 2 [] [])
        (differences (Some (1, 2)) [] []) }
    ensures goods_missing { ¬ AreAllDifferences (auction 1 [] []) (auction 2 [] []) (differences None [] []) }
    ensures equal_goods { ¬ AreAllDifferences (auction 1 [] []) (auction 1 [] []) (differences (Some (1, 1)) [] []) }
{}

/// The first difference is of the kind of the first change, and on its bundle.
pub fn first_changes()
    ensures none { BeginsWith NoDifference (differences None [] []) }
    ensures some { ¬ BeginsWith NoDifference (differences None (change (0 ∷ []) (Some 3) None ∷ []) []) }
    ensures goods { BeginsWith (InGoods 1 2) (differences (Some (1, 2)) (change (0 ∷ []) (Some 3) None ∷ []) []) }
    ensures bundle { BeginsWith (InOr (0 ∷ []) (Exactly 3) (Exactly 4))
        (differences None (change (0 ∷ []) (Some 3) (Some 4) ∷ []) []) }
    ensures another_bundle { ¬ BeginsWith (InOr (1 ∷ []) (Exactly 3) (Exactly 4))
        (differences None (change (0 ∷ []) (Some 3) (Some 4) ∷ []) []) }
    ensures goods_first { ¬ BeginsWith (InOr (0 ∷ []) (Exactly 3) (Exactly 4))
        (differences (Some (1, 2)) (change (0 ∷ []) (Some 3) (Some 4) ∷ []) []) }
    ensures bidder { BeginsWith (InXor (atom (0 ∷ []) 3 ∷ []) 1 0)
        (differences None [] (bidder_change (Some 0) None (change (0 ∷ []) (Some 3) None ∷ []) ∷ [])) }
    ensures bundle_first { ¬ BeginsWith (InXor (atom (0 ∷ []) 3 ∷ []) 1 0)
        (differences None (change (0 ∷ []) (Some 3) None ∷ [])
        (bidder_change (Some 0) None (change (0 ∷ []) (Some 3) None ∷ []) ∷ [])) }
{}
