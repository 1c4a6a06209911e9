//! Laws of the definitions. They say what rounding means over whole numbers, and which texts it leaves as they are.

ghost use Rattle.std.specs.Prelude.{◌≡◌, ◌⊎◌, ◌*◌, ◌^◌, ◌<◌, ◌≤◌, ◌∷◌, ◌++◌, ℕ, List, [], true, false, None};
ghost use Rattle.bid_file.specs.Files.{PlainFile, IsPlainFile};
ghost use Rattle.bid_file.specs.declared.limits.TheConstants.{MAX_PRICE};
ghost use Rattle.cats_text.specs.Faults.{price_word};
ghost use Rattle.cats_text.specs.Grammar.{Spells, SpellsPrice};
ghost use Rattle.cats_text.specs.Layout.{price_text};
ghost use Rattle.cats_text.specs.Lines.{Word, line_words, blank_returns};
ghost use Rattle.rounding.specs.Decimals.{is_decimal, top, bottom, exact_top, exact_bottom};
ghost use Rattle.rounding.specs.Layouts.{has_mends, mended_places, mended_text};
ghost use Rattle.rounding.specs.Nearest.{IsNearest, nearest};
ghost use Rattle.rounding.specs.Replacements.{replacement, replacement_of};
ghost use Rattle.rounding.specs.Texts.{before_second, second_word, behind_second, rounded_text, rounded_prices};
ghost use Rattle.rounding.specs.Multiplied.{rounded_lines_words, text_words, times_file};
ghost use Rattle.rounding.specs.declared.replacement.FinePrices.{FinePrices};
ghost use Rattle.rounding.specs.declared.replacement.PriceRule.{PriceRule};
ghost use Rattle.rounding.specs.declared.replacement.Replacement.TheVariants.{Itself, Exact};

/// `nearest` is a nearest number, and the only one.
pub fn nearest_numbers()
    ensures near { (n d : ℕ) → 0 < d → IsNearest n d (nearest n d) }
    ensures only { (n d m : ℕ) → 0 < d → IsNearest n d m → m ≡ nearest n d }
{}

/// A decimal has the replacement of its exact value, though the definition cuts its powers of ten.
pub fn cut_powers()
    ensures { (fine : FinePrices) (tens : ℕ) (w : Word) → is_decimal w ≡ true
        → replacement_of fine (top tens w) (bottom tens w) ≡ replacement_of fine (exact_top tens w) (exact_bottom tens w) }
{}

/// The two fractions of a decimal are its value, and its value times the power of ten.
pub fn tens_multiply()
    ensures { (tens : ℕ) (w : Word) → exact_top tens w * exact_bottom 0 w ≡ 10 ^ tens * exact_top 0 w * exact_bottom tens w }
{}

/// A decimal that is worth a whole number of millionths, times the power of ten, at most the greatest price, is written
/// as that price; or it stays, only if prices are not multiplied.
pub fn whole_millionths_are_kept()
    ensures { (rule : PriceRule) (w : Word) (m : ℕ) → is_decimal w ≡ true
        → 10 ^ rule.tens * exact_top 0 w ≡ m * exact_bottom 0 w → m ≤ MAX_PRICE
        → (replacement rule w ≡ Exact m) ⊎ ((rule.tens ≡ 0) × (replacement rule w ≡ Itself)) }
{}

/// The price text of a number of millionths is read as that number, without a fault.
pub fn written_prices_are_read()
    ensures value { (millionths : ℕ) → millionths ≤ MAX_PRICE → SpellsPrice (price_text millionths) millionths }
    ensures faultless { (millionths : ℕ) → millionths ≤ MAX_PRICE → price_word (price_text millionths) ≡ None }
{}

/// A line is what is before its second word, that word, and what is behind it; and that word is the second of its words.
pub fn second_words()
    ensures parts { (line : List ℕ) → before_second line ++ second_word line ++ behind_second line ≡ line }
    ensures word { (line : List ℕ) (first second : Word) (rest : List Word)
        → line_words (blank_returns line) ≡ first ∷ second ∷ rest → second_word line ≡ second }
{}

/// A bid file stays as it is if prices are not multiplied, and no price of it is ever rounded.
pub fn bid_files_stay()
    ensures text { (rule : PriceRule) (text : List ℕ) (f : PlainFile) → rule.tens ≡ 0 → Spells text f
        → rounded_text rule text ≡ text }
    ensures prices { (rule : PriceRule) (text : List ℕ) (f : PlainFile) → Spells text f → rounded_prices rule text ≡ [] }
{}

/// A bid file that was rounded stays as it is when it is rounded once more.
pub fn rounded_once()
    ensures { (rule again : PriceRule) (text : List ℕ) (f : PlainFile) → again.tens ≡ 0 → Spells (rounded_text rule text) f
        → rounded_text again (rounded_text rule text) ≡ rounded_text rule text }
{}

/// The words of a text's significant lines stay, but for the prices.
pub fn other_words_stay()
    ensures { (rule : PriceRule) (text : List ℕ) → text_words (rounded_text rule text)
        ≡ rounded_lines_words rule (text_words text) }
{}

/// A bid file whose prices are multiplied is that file with each price so many times as large, if it is a bid file; and it
/// is one if no price is too large then. So each bundle is worth so many times as much.
pub fn bid_files_multiply()
    ensures file { (rule : PriceRule) (text : List ℕ) (f g : PlainFile) → Spells text f → Spells (rounded_text rule text) g
        → g ≡ times_file (10 ^ rule.tens) f }
    ensures spells { (rule : PriceRule) (text : List ℕ) (f : PlainFile) → Spells text f
        → IsPlainFile (times_file (10 ^ rule.tens) f) → Spells (rounded_text rule text) (times_file (10 ^ rule.tens) f) }
{}

/// A text in which nothing has to be mended has no mends, and stays byte for byte.
pub fn unmended_texts_stay()
    ensures mends { (text : List ℕ) → has_mends text ≡ false → mended_places text ≡ [] }
    ensures text { (text : List ℕ) → mended_places text ≡ [] → mended_text text ≡ text }
{}

/// A text that was mended has nothing to mend.
pub fn mended_once()
    ensures { (text : List ℕ) → mended_places (mended_text text) ≡ [] }
{}

/// A bid file has nothing to mend, so it stays byte for byte.
pub fn bid_files_have_no_mends()
    ensures { (text : List ℕ) (f : PlainFile) → Spells text f → mended_places text ≡ [] }
{}
