//! What is promised, over the definitions alone.

ghost use Rattle.std.specs.Prelude.{◌≡◌, ◌↔◌, ℕ, List, [], ◌∷◌, ◌++◌, None, true, ◌<◌, Some, All, Contains, IsPermutation};
ghost use Rattle.bid_file.specs.Files.{PlainBid, PlainFile, IsPlainFile};
ghost use Rattle.valuation.specs.Auctions.{PlainAuction, IsAuction, auction_from};
ghost use Rattle.prune.specs.SearchSteps.{first_heavy, first_refused, greatest_price, is_heavy, search_steps_by};
ghost use Rattle.valuation.specs.declared.search.kind.SearchKind.{SearchKind};
ghost use Rattle.valuation.specs.declared.search.options.SearchOptions.{SearchOptions};
ghost use Rattle.canon.specs.Canonical.{IsCanonical, IsCanonicalFile, canonical_auction, canonical_text, file_from};
ghost use Rattle.canon.specs.FirstNumbers.{AddsText, IsEmptyIndex, IsFirstNumber, IsIndexOf, TextIndex, first_number};
ghost use Rattle.canon.specs.Normalising.{IsNormalised, IsText, Normalised, Normalises, SpellsCanonicalFile};
ghost use Rattle.canon.specs.Unsearched.{AreAlike, unsearched_text};
ghost use Rattle.canon.specs.Renaming.{with_dummies};
ghost use Rattle.std.specs.List.{range_with_len};
ghost use Rattle.canon.specs.Sameness.{AreSameFiles, AreSameTexts, IsSameAuction, bidders_with};
ghost use Rattle.goods_set.specs.Bundles.{IsBundle};
ghost use Rattle.goods_set.specs.Orders.{bundle_cmp};
ghost use Rattle.std.specs.declared.cmp.Ordering.TheVariants.{Less};
ghost use Rattle.valuation.specs.declared.atom.Atom.{Atom};
ghost use Rattle.valuation.specs.Orders.{bidder_cmp};
ghost use Rattle.valuation.specs.Tables.{xor_table};
ghost use Rattle.valuation.specs.Values.{or_value};
ghost use Rattle.prune.specs.Points.{is_or_point};
ghost use Rattle.canon.specs.Difference.{first_difference, first_unequal_bundle, least_unequal_bidder, copies_of, exchanged};
ghost use Rattle.canon.specs.Difference.{NoDifference};

/// The headline. If neither of two texts is refused, each by searches of a kind of its own and under limits of its own,
/// their canonical texts are equal exactly if their files have the same number of goods, the same OR value on every
/// bundle and the same multiset of nonzero XOR valuations. So one text has one canonical text, whatever the searches and
/// the limits. The canonical text spells the canonical file of the file that the text spells, which is the same auction;
/// and normalising it by the same searches under the same limits gives it back.
pub fn equal_text_exactly_for_the_same_auction()
    ensures equal { (m n : SearchOptions) (one other s t : List ℕ) → Normalises m one (IsText s)
        → Normalises n other (IsText t) → (s ≡ t ↔ AreSameTexts one other) }
    ensures one_text { (m n : SearchOptions) (text s t : List ℕ) → Normalises m text (IsText s)
        → Normalises n text (IsText t) → s ≡ t }
    ensures spelled { (options : SearchOptions) (text out : List ℕ) → Normalises options text (IsText out)
        → SpellsCanonicalFile text out }
    ensures again { (options : SearchOptions) (text out : List ℕ) → Normalises options text (IsText out)
        → Normalises options out (IsText out) }
{}

/// What normalising a text gives is there for each text, each kind of search and all limits, and is one.
pub fn each_text_has_one_outcome()
    ensures some { (options : SearchOptions) (text : List ℕ) → IsNormalised options text }
    ensures one { (options : SearchOptions) (text : List ℕ) (one other : Normalised) → Normalises options text one
        → Normalises options text other → one ≡ other }
{}

/// Files of the same auction have one canonical text, and no others have it.
pub fn same_auction_same_text()
    ensures { (f g : PlainFile) → IsPlainFile f → IsPlainFile g
        → (canonical_text f ≡ canonical_text g ↔ AreSameFiles f g) }
{}

/// The canonical auction is the same auction, and stays itself.
pub fn canonical_is_same()
    ensures auction { (cap : ℕ) (a : PlainAuction) → IsAuction cap a → IsAuction cap (canonical_auction a) }
    ensures same { (cap : ℕ) (a : PlainAuction) → IsAuction cap a → IsSameAuction a (canonical_auction a) }
    ensures fixed { (cap : ℕ) (a : PlainAuction) → IsAuction cap a → canonical_auction (canonical_auction a)
        ≡ canonical_auction a }
{}

/// The file of an auction keeps the limits of files, and the auction is read back from it.
pub fn file_reads_back()
    ensures facts { (cap : ℕ) (a : PlainAuction) → IsAuction cap a → IsPlainFile (file_from a) }
    ensures auction { (a : PlainAuction) → auction_from (file_from a) ≡ a }
{}

/// The file of an auction is a canonical file exactly if the auction is canonical.
pub fn canonical_auctions_have_canonical_files()
    ensures { (a : PlainAuction) → (IsCanonical a ↔ IsCanonicalFile (file_from a)) }
{}

/// To be the same auction is an equivalence.
pub fn sameness_is_an_equivalence()
    ensures reflexive { (a : PlainAuction) → IsSameAuction a a }
    ensures symmetric { (a b : PlainAuction) → IsSameAuction a b → IsSameAuction b a }
    ensures transitive { (a b c : PlainAuction) → IsSameAuction a b → IsSameAuction b c → IsSameAuction a c }
{}

/// On a bundle that the canonical auction has a price for, the search of either kind takes the steps that it takes in the
/// auction. So a bundle that is over the limit in the canonical auction is over it in the auction, and if none is refused
/// there, none is here.
pub fn no_new_heavy_bundle()
    ensures heavy { (cap limit : ℕ) (a : PlainAuction) → IsAuction cap a → (bundle : List ℕ)
        → is_heavy a.goods limit (canonical_auction a).or_atoms bundle ≡ true → is_heavy a.goods limit a.or_atoms bundle
        ≡ true }
    ensures none { (cap limit : ℕ) (a : PlainAuction) → IsAuction cap a → first_heavy a.goods limit a.or_atoms ≡ None
        → first_heavy a.goods limit (canonical_auction a).or_atoms ≡ None }
    ensures steps { (kind : SearchKind) (cap : ℕ) (a : PlainAuction) → IsAuction cap a → (bundle : List ℕ)
        → 0 < greatest_price (canonical_auction a).or_atoms bundle
        → search_steps_by kind a.goods (canonical_auction a).or_atoms bundle
        ≡ search_steps_by kind a.goods a.or_atoms bundle }
    ensures none_refused { (options : SearchOptions) (cap : ℕ) (a : PlainAuction) → IsAuction cap a
        → first_refused options a.goods a.or_atoms ≡ None
        → first_refused options a.goods (canonical_auction a).or_atoms ≡ None }
{}

/// An index that files are added to one by one, each with a text of its own, is the index of these files by these texts.
/// The number that is answered is that of the first of them that is the same auction, where the texts are the canonical
/// ones, and of the first that is alike, where they are the unsearched ones.
pub fn added_files_have_first_numbers()
    ensures none { (text_of : PlainFile → List ℕ) (index : TextIndex) → IsEmptyIndex index → IsIndexOf text_of index [] }
    ensures index { (text_of : PlainFile → List ℕ) (old new : TextIndex) (files : List PlainFile) (file : PlainFile)
        (number : ℕ) → IsIndexOf text_of old files → IsPlainFile file → AddsText old new (text_of file) number
        → IsIndexOf text_of new (files ++ file ∷ []) }
    ensures number { (old new : TextIndex) (files : List PlainFile) (file : PlainFile) (number : ℕ)
        → IsIndexOf canonical_text old files → IsPlainFile file → AddsText old new (canonical_text file) number
        → IsFirstNumber AreSameFiles (files ++ file ∷ []) file number }
    ensures unsearched { (old new : TextIndex) (files : List PlainFile) (file : PlainFile) (number : ℕ)
        → IsIndexOf unsearched_text old files → IsPlainFile file → AddsText old new (unsearched_text file) number
        → IsFirstNumber AreAlike (files ++ file ∷ []) file number }
{}

/// Files have one unsearched text exactly if they are alike.
pub fn alike_files_have_one_unsearched_text()
    ensures { (f g : PlainFile) → IsPlainFile f → IsPlainFile g → (unsearched_text f ≡ unsearched_text g ↔ AreAlike f g) }
{}

/// Files that are alike are the same auction.
pub fn alike_files_are_the_same_auction()
    ensures { (f g : PlainFile) → IsPlainFile f → IsPlainFile g → AreAlike f g → AreSameFiles f g }
{}

/// Files with the same bids, in any order and any of them more than once, are alike.
pub fn files_with_the_same_bids_are_alike()
    ensures bids { (f g : PlainFile) → f.goods ≡ g.goods → f.dummy ≡ g.dummy
        → ((bid : PlainBid) → (Contains f.bids bid ↔ Contains g.bids bid)) → AreAlike f g }
    ensures order { (f g : PlainFile) → f.goods ≡ g.goods → f.dummy ≡ g.dummy → IsPermutation f.bids g.bids
        → AreAlike f g }
{}

/// Files with the same bids are refused at the same bundle, if they are, by searches of one kind under the same limits.
/// So of such files either each is judged or none is.
pub fn files_with_the_same_bids_are_refused_alike()
    ensures { (options : SearchOptions) (f g : PlainFile) → IsPlainFile f → IsPlainFile g → f.goods ≡ g.goods
        → ((bid : PlainBid) → (Contains f.bids bid ↔ Contains g.bids bid))
        → first_refused options f.goods (auction_from f).or_atoms
        ≡ first_refused options g.goods (auction_from g).or_atoms }
{}

/// A file is alike with its dummy goods exchanged for one another.
pub fn files_with_dummy_goods_exchanged_are_alike()
    ensures { (f : PlainFile) (dummies : List ℕ) → IsPlainFile f → IsPermutation (range_with_len 0 f.dummy) dummies
        → AreAlike f (with_dummies dummies f) }
{}

/// To be alike is an equivalence.
pub fn alikeness_is_an_equivalence()
    ensures reflexive { (f : PlainFile) → AreAlike f f }
    ensures symmetric { (f g : PlainFile) → AreAlike f g → AreAlike g f }
    ensures transitive { (f g h : PlainFile) → AreAlike f g → AreAlike g h → AreAlike f h }
{}

/// Two auctions have no difference exactly where they are the same auction.
pub fn no_difference_of_the_same()
    ensures { (cap : ℕ) (a b : PlainAuction) → IsAuction cap a → IsAuction cap b
        → (first_difference a b ≡ NoDifference ↔ IsSameAuction a b) }
{}

/// Exchanging the auctions exchanges left and right, and nothing else.
pub fn differences_exchanged()
    ensures { (a b : PlainAuction) → first_difference b a ≡ exchanged (first_difference a b) }
{}

/// The first difference depends on what is asked for alone: in the place of either auction, or of either file, the same
/// one may be.
pub fn same_auctions_have_one_difference()
    ensures auctions { (cap : ℕ) (a c b d : PlainAuction) → IsAuction cap a → IsAuction cap c → IsAuction cap b
        → IsAuction cap d
        → IsSameAuction a c → IsSameAuction b d → first_difference a b ≡ first_difference c d }
    ensures files { (f h g k : PlainFile) → IsPlainFile f → IsPlainFile h → IsPlainFile g → IsPlainFile k
        → AreSameFiles f h → AreSameFiles g k → first_difference (auction_from f) (auction_from g)
        ≡ first_difference (auction_from h) (auction_from k) }
{}

/// The first bundle on which the OR values differ. On all earlier bundles they agree, and it is an OR point of the
/// auction with the greater value.
pub fn difference_is_a_point()
    ensures earlier { (cap : ℕ) (a b : PlainAuction) → IsAuction cap a → IsAuction cap b → (bundle : List ℕ)
        → first_unequal_bundle a b ≡ Some bundle → (earlier : List ℕ) → IsBundle a.goods earlier
        → bundle_cmp earlier bundle ≡ Less → or_value a.or_atoms earlier ≡ or_value b.or_atoms earlier }
    ensures differ { (cap : ℕ) (a b : PlainAuction) → IsAuction cap a → IsAuction cap b → (bundle : List ℕ)
        → first_unequal_bundle a b ≡ Some bundle → or_value a.or_atoms bundle ≡ or_value b.or_atoms bundle → ⊥ }
    ensures left { (cap : ℕ) (a b : PlainAuction) → IsAuction cap a → IsAuction cap b → a.goods ≡ b.goods
        → (bundle : List ℕ)
        → first_unequal_bundle a b ≡ Some bundle → or_value b.or_atoms bundle < or_value a.or_atoms bundle
        → is_or_point a.goods a.or_atoms bundle ≡ true }
    ensures right { (cap : ℕ) (a b : PlainAuction) → IsAuction cap a → IsAuction cap b → a.goods ≡ b.goods
        → (bundle : List ℕ)
        → first_unequal_bundle a b ≡ Some bundle → or_value a.or_atoms bundle < or_value b.or_atoms bundle
        → is_or_point b.goods b.or_atoms bundle ≡ true }
{}

/// The least bidder that the canonical auctions do not have equally often. All lesser ones they have equally often, and
/// its numbers are those of the bidders with its values.
pub fn difference_is_the_least_bidder()
    ensures lesser { (a b : PlainAuction) (bidder : List (Atom (List ℕ))) → least_unequal_bidder a b ≡ Some bidder
        → (lesser : List (Atom (List ℕ))) → bidder_cmp lesser bidder ≡ Less → copies_of lesser a ≡ copies_of lesser b }
    ensures differ { (a b : PlainAuction) (bidder : List (Atom (List ℕ))) → least_unequal_bidder a b ≡ Some bidder
        → copies_of bidder a ≡ copies_of bidder b → ⊥ }
    ensures numbers { (cap : ℕ) (a b : PlainAuction) → IsAuction cap a → IsAuction cap b → a.goods ≡ b.goods
        → (bidder : List (Atom (List ℕ))) → least_unequal_bidder a b ≡ Some bidder
        → (copies_of bidder a ≡ bidders_with (xor_table bidder a.goods) a)
        × (copies_of bidder b ≡ bidders_with (xor_table bidder b.goods) b) }
{}

/// The first file that has the canonical text of a file is the first that is the same auction.
pub fn first_number_by_text()
    ensures { (files : List PlainFile) (given : PlainFile) (number : ℕ) → All IsPlainFile files → IsPlainFile given
        → first_number files given ≡ Some number → IsFirstNumber AreSameFiles files given number }
{}
