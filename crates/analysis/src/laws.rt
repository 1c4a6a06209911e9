//! What is promised of reasons, winners and differences, over the definitions alone.

ghost use Rattle.std.specs.Prelude.{◌≡◌, ◌↔◌, ℕ, ◌<◌, ◌≤◌, List, length, All, Contains, Ok, Err, ◌≢◌, ◌-◌, [], Some, map};
ghost use Rattle.std.specs.Prelude.{true};
ghost use Rattle.std.specs.Ordering.{nat_cmp};
ghost use Rattle.goods_set.specs.Bundles.{IsBundle, IsInside};
ghost use Rattle.bid_file.specs.Files.{IsPlainFile, PlainFile};
ghost use Rattle.valuation.specs.declared.atom.Atom.{Atom};
ghost use Rattle.valuation.specs.Auctions.{IsAuction, PlainAuction};
ghost use Rattle.valuation.specs.Orders.{bidder_cmp};
ghost use Rattle.valuation.specs.Sorting.{count_of};
ghost use Rattle.canon.specs.Canonical.{IsCanonical, canonical_file};
ghost use Rattle.canon.specs.Sameness.{AreSameFiles, IsSameAuction};
ghost use Rattle.canon.specs.Difference.{first_difference};
ghost use Rattle.analysis.specs.Reasons.{Explains, Keep, reason_of, reasons_of};
ghost use Rattle.analysis.specs.Bids.{bid_at};
ghost use Rattle.analysis.specs.AllocationVerdicts.{AreOneBidders, IsFirstClash, IsLeastShared, allocation_verdict};
ghost use Rattle.analysis.specs.AllocationVerdicts.{named_bids};
ghost use Rattle.analysis.specs.declared.winners.allocation_verdict.AllocationVerdict.TheVariants.{Revenue, SharedBidder};
ghost use Rattle.analysis.specs.declared.winners.allocation_verdict.AllocationVerdict.TheVariants.{SharedGood};
ghost use Rattle.analysis.specs.Allocations.{AreWinners, IsAllocation, greatest_revenue, revenue};
ghost use Rattle.analysis.specs.KeptWinners.{AreKept, in_canonical_file, in_place_of, kept_as, number_kept_as};
ghost use Rattle.analysis.specs.KeptWinners.{with_kept_bids};
ghost use Rattle.analysis.specs.LpTexts.{AreRowsMet, are_sums_exact, objective};
ghost use Rattle.analysis.specs.declared.winners.lp.TheConstants.{EXACT_SUMS};
ghost use Rattle.analysis.specs.BidderChanges.{AreBidderChanges, PlainBidderChange, bidder_at, lefts_of, rights_of};
ghost use Rattle.analysis.specs.Differences.{AreAllDifferences, BeginsWith, PlainDifferences, exchanged_change};
ghost use Rattle.analysis.specs.Differences.{exchanged_goods, is_none_at_all};

/// Each reason is true: it says why its bid is kept or dropped.
pub fn reasons_are_true()
    ensures { (f : PlainFile) → IsPlainFile f → Explains f (reasons_of f) }
{}

/// The greatest revenue is that of an allocation, and none has more.
pub fn greatest_revenue_is_reached()
    ensures most { (f : PlainFile) (winners : List ℕ) → IsAllocation f winners → revenue f winners ≤ greatest_revenue f }
    ensures reached { (f : PlainFile) → ((winners : List ℕ) × AreWinners f winners) }
{}

/// The canonical file has the greatest revenue of its file. So all files of one auction have the same.
pub fn canonical_file_has_the_greatest_revenue()
    ensures canonical { (f : PlainFile) → IsPlainFile f → greatest_revenue (canonical_file f) ≡ greatest_revenue f }
    ensures same { (f g : PlainFile) → IsPlainFile f → IsPlainFile g → AreSameFiles f g
        → greatest_revenue f ≡ greatest_revenue g }
{}

/// An allocation of the canonical file is one of the file, by the numbers of the kept bids, and has the same revenue. So
/// winners of the canonical file are winners of the file.
pub fn canonical_winners_are_winners()
    ensures number { (f : PlainFile) → IsPlainFile f → (k : ℕ) → k < length (canonical_file f).bids
        → reason_of f (number_kept_as f k) ≡ Keep k }
    ensures allocation { (f : PlainFile) → IsPlainFile f → (winners : List ℕ) → IsAllocation (canonical_file f) winners
        → IsAllocation f (kept_as f winners) }
    ensures revenue { (f : PlainFile) → IsPlainFile f → (winners : List ℕ) → IsAllocation (canonical_file f) winners
        → revenue f (kept_as f winners) ≡ revenue (canonical_file f) winners }
    ensures winners { (f : PlainFile) → IsPlainFile f → (winners : List ℕ) → AreWinners (canonical_file f) winners
        → AreWinners f (kept_as f winners) }
{}

/// The allocations of the canonical file are those of kept bids, one to one: an allocation of kept bids is one of the
/// canonical file, of the same revenue, and the numbers of either file give back those of the other.
pub fn kept_allocations_are_canonical()
    ensures kept { (f : PlainFile) → IsPlainFile f → (winners : List ℕ) → IsAllocation (canonical_file f) winners
        → AreKept f (kept_as f winners) }
    ensures allocation { (f : PlainFile) → IsPlainFile f → (winners : List ℕ) → IsAllocation f winners → AreKept f winners
        → IsAllocation (canonical_file f) (in_canonical_file f winners) }
    ensures revenue { (f : PlainFile) → IsPlainFile f → (winners : List ℕ) → IsAllocation f winners → AreKept f winners
        → revenue (canonical_file f) (in_canonical_file f winners) ≡ revenue f winners }
    ensures back { (f : PlainFile) → IsPlainFile f → (winners : List ℕ) → IsAllocation f winners → AreKept f winners
        → kept_as f (in_canonical_file f winners) ≡ winners }
    ensures forth { (f : PlainFile) → IsPlainFile f → (winners : List ℕ) → IsAllocation (canonical_file f) winners
        → in_canonical_file f (kept_as f winners) ≡ winners }
{}

/// With kept bids in the place of its winners, an allocation is still one, and has at least its revenue. The bids in the
/// place of a bid are of its bidder and inside its goods.
pub fn kept_bids_suffice()
    ensures allocation { (f : PlainFile) → IsPlainFile f → (winners : List ℕ) → IsAllocation f winners
        → IsAllocation f (with_kept_bids f winners) }
    ensures revenue { (f : PlainFile) → IsPlainFile f → (winners : List ℕ) → IsAllocation f winners
        → revenue f winners ≤ revenue f (with_kept_bids f winners) }
    ensures winners { (f : PlainFile) → IsPlainFile f → (winners : List ℕ) → AreWinners f winners
        → AreWinners f (with_kept_bids f winners) }
    ensures kept { (f : PlainFile) → IsPlainFile f → (winners : List ℕ) → IsAllocation f winners
        → AreKept f (with_kept_bids f winners) }
    ensures bidder { (f : PlainFile) → IsPlainFile f → (i : ℕ) → i < length f.bids
        → All (λ j. (bid_at f j).dummy ≡ (bid_at f i).dummy) (in_place_of f i) }
    ensures inside { (f : PlainFile) → IsPlainFile f → (i : ℕ) → i < length f.bids
        → All (λ j. IsInside (bid_at f j).goods (bid_at f i).goods) (in_place_of f i) }
{}

/// The optimum of the problem that `lp_text` prints is the greatest revenue. The choices of winners that meet all of its
/// rows are the allocations, and the objective is their revenue. Where prices are printed in millionths, each revenue is
/// exact in a solver's numbers.
pub fn lp_is_winner_determination()
    ensures rows { (f : PlainFile) → IsPlainFile f → (winners : List ℕ) → IsAllocation f winners → AreRowsMet f winners }
    ensures allocation { (f : PlainFile) → IsPlainFile f → (winners : List ℕ) → IsBundle (length f.bids) winners
        → AreRowsMet f winners → IsAllocation f winners }
    ensures objective { (f : PlainFile) → (winners : List ℕ) → IsBundle (length f.bids) winners
        → objective f winners ≡ revenue f winners }
    ensures most { (f : PlainFile) → IsPlainFile f → (winners : List ℕ) → IsBundle (length f.bids) winners
        → AreRowsMet f winners → objective f winners ≤ greatest_revenue f }
    ensures reached { (f : PlainFile) → IsPlainFile f → ((winners : List ℕ) × IsBundle (length f.bids) winners
        × AreRowsMet f winners × (objective f winners ≡ greatest_revenue f)) }
    ensures exact { (f : PlainFile) → are_sums_exact f ≡ true → (winners : List ℕ) → objective f winners < EXACT_SUMS }
{}

/// The named bids are a rising list of the named numbers, if the file has them all.
pub fn named_bids_are_the_named()
    ensures numbers { (f : PlainFile) (named : List ℕ) → IsBundle (length f.bids) (named_bids f named) }
    ensures members { (f : PlainFile) (named : List ℕ) → All (λ i. i < length f.bids) named → (i : ℕ)
        → Contains (named_bids f named) i ↔ Contains named i }
{}

/// The verdict is a revenue exactly if the file has all named bids, and they are an allocation. Then it is their revenue.
pub fn allocations_have_their_revenue()
    ensures allocation { (f : PlainFile) (named : List ℕ) → All (λ i. i < length f.bids) named
        → IsAllocation f (named_bids f named) → allocation_verdict f named ≡ Ok (Revenue (revenue f (named_bids f named))) }
    ensures within { (f : PlainFile) (named : List ℕ) (n : ℕ) → allocation_verdict f named ≡ Ok (Revenue n)
        → All (λ i. i < length f.bids) named }
    ensures back { (f : PlainFile) (named : List ℕ) (n : ℕ) → allocation_verdict f named ≡ Ok (Revenue n)
        → IsAllocation f (named_bids f named) }
    ensures revenue { (f : PlainFile) (named : List ℕ) (n : ℕ) → allocation_verdict f named ≡ Ok (Revenue n)
        → n ≡ revenue f (named_bids f named) }
{}

/// Any other verdict names the first two named bids that cannot both win, and what they share, or a named number that
/// the file does not have.
pub fn other_verdicts_are_true()
    ensures good { (f : PlainFile) → IsPlainFile f → (named : List ℕ) (i j good : ℕ)
        → allocation_verdict f named ≡ Ok (SharedGood i j good) → IsLeastShared (bid_at f i).goods (bid_at f j).goods good }
    ensures bidder { (f : PlainFile) (named : List ℕ) (i j dummy : ℕ)
        → allocation_verdict f named ≡ Ok (SharedBidder i j dummy)
        → AreOneBidders (bid_at f i) (bid_at f j) dummy }
    ensures first_of_good { (f : PlainFile) (named : List ℕ) (i j good : ℕ)
        → allocation_verdict f named ≡ Ok (SharedGood i j good) → IsFirstClash f named i j }
    ensures first_of_bidder { (f : PlainFile) (named : List ℕ) (i j dummy : ℕ)
        → allocation_verdict f named ≡ Ok (SharedBidder i j dummy) → IsFirstClash f named i j }
    ensures missing { (f : PlainFile) (named : List ℕ) (i : ℕ) → allocation_verdict f named ≡ Err i
        → Contains named i × (length f.bids ≤ i) }
{}

/// There are no differences exactly if the auctions are the same, and the first of them is that which `compare` names.
pub fn first_difference_is_the_first()
    ensures none { (cap : ℕ) (a b : PlainAuction) (differences : PlainDifferences) → IsAuction cap a → IsAuction cap b
        → IsCanonical a → IsCanonical b → AreAllDifferences a b differences
        → (is_none_at_all differences ≡ true ↔ IsSameAuction a b) }
    ensures first { (cap : ℕ) (a b : PlainAuction) (differences : PlainDifferences) → IsAuction cap a → IsAuction cap b
        → IsCanonical a → IsCanonical b → AreAllDifferences a b differences
        → BeginsWith (first_difference a b) differences }
{}

/// Without the bidders that are named, both files have each bidder equally often.
pub fn bidders_left_are_equal()
    ensures { (left right : List (List (Atom (List ℕ)))) (changes : List PlainBidderChange) (bidder : List (Atom (List ℕ)))
        → AreBidderChanges left right changes
        → count_of bidder_cmp bidder left - count_of bidder_cmp bidder (map (bidder_at left) (lefts_of changes))
        ≡ count_of bidder_cmp bidder right - count_of bidder_cmp bidder (map (bidder_at right) (rights_of changes)) }
{}

/// No two bidders that are shown beside each other are equal.
pub fn no_equal_bidders()
    ensures { (left right : List (List (Atom (List ℕ)))) (changes : List PlainBidderChange)
        → AreBidderChanges left right changes → All (λ c. (i j : ℕ) → c.left ≡ Some i → c.right ≡ Some j
        → bidder_at left i ≢ bidder_at right j) changes }
{}

/// Each change of a bidder has a bid: two bidders that differ, differ in a bid, and a bidder of a canonical file has one.
pub fn each_change_has_a_bid()
    ensures { (cap : ℕ) (a b : PlainAuction) (differences : PlainDifferences) → IsAuction cap a → IsAuction cap b
        → IsCanonical a → IsCanonical b → AreAllDifferences a b differences
        → All (λ c. c.bids ≢ []) differences.bidders }
{}

/// Two auctions have one list of differences, and two lists of bidders one list of changes.
pub fn changes_are_determined()
    ensures all { (a b : PlainAuction) (one other : PlainDifferences) → AreAllDifferences a b one
        → AreAllDifferences a b other → one ≡ other }
    ensures bidders { (left right : List (List (Atom (List ℕ)))) (one other : List PlainBidderChange)
        → AreBidderChanges left right one → AreBidderChanges left right other → one ≡ other }
{}

/// Exchanging the auctions exchanges the numbers of goods, left and right of each bundle, and the bidders that are named.
pub fn differences_exchanged()
    ensures goods { (a b : PlainAuction) (one other : PlainDifferences) → AreAllDifferences a b one
        → AreAllDifferences b a other → other.goods ≡ exchanged_goods one.goods }
    ensures bundles { (a b : PlainAuction) (one other : PlainDifferences) → AreAllDifferences a b one
        → AreAllDifferences b a other → other.bundles ≡ map exchanged_change one.bundles }
    ensures bidders { (a b : PlainAuction) (one other : PlainDifferences) → AreAllDifferences a b one
        → AreAllDifferences b a other → (index : ℕ)
        → count_of nat_cmp index (lefts_of one.bidders) ≡ count_of nat_cmp index (rights_of other.bidders) }
{}
