//! Worked rows of the definitions, computed by the prover.

ghost use Rattle.std.specs.Prelude.{◌≡◌, ◌^◌, List, [], ◌∷◌, ◌++◌, map, true, false, codes, Some, None};
ghost use Rattle.cats_text.specs.Faults.{first_fault, fault_at};
ghost use Rattle.cats_text.specs.declared.read_fault.Kind.TheVariants.{TooLarge as IsTooLarge, TooFine as IsTooFine};
ghost use Rattle.cats_text.specs.declared.read_fault.Kind.TheVariants.{NotANumber};
ghost use Rattle.rounding.specs.Decimals.{is_decimal, top, bottom};
ghost use Rattle.rounding.specs.Layouts.{line_in_file, mended_places, mended_text};
ghost use Rattle.rounding.specs.Nearest.{nearest};
ghost use Rattle.rounding.specs.Replacements.{price_rule, replacement, rounded_word};
ghost use Rattle.rounding.specs.Texts.{rounded_text, rounded_prices};
ghost use Rattle.rounding.specs.declared.layout.Mend.TheVariants.{Dummy, Keyword, Comment, Remark};
ghost use Rattle.rounding.specs.declared.replacement.FinePrices.TheVariants.{Round, Refuse};
ghost use Rattle.rounding.specs.declared.replacement.Replacement.TheVariants.{Itself, Exact, Rounded, TooLarge, TooFine};

/// Words that are decimals, and words that are none.
pub fn decimals()
    ensures decimals { map is_decimal (codes "1e6" ∷ codes "1.02345e+06" ∷ codes "1E-3" ∷ codes ".5" ∷ codes "5."
        ∷ codes "0e999999999" ∷ codes "007" ∷ []) ≡ true ∷ true ∷ true ∷ true ∷ true ∷ true ∷ true ∷ [] }
    ensures others { map is_decimal (codes "1,5" ∷ codes "-1" ∷ codes "+1" ∷ codes "." ∷ codes "" ∷ codes "1e"
        ∷ codes "e5" ∷ codes "1e+" ∷ codes "1e5.0" ∷ codes "1.2.3" ∷ codes "0x1p3" ∷ codes "nan" ∷ codes "1e--5" ∷ []) ≡
        false ∷ false ∷ false ∷ false ∷ false ∷ false ∷ false ∷ false ∷ false ∷ false ∷ false ∷ false ∷ false ∷ [] }
{}

/// Values in millionths, as a fraction.
pub fn values()
    ensures tops { map (top 0) (codes "1e6" ∷ codes "1.02345e+06" ∷ codes "1E-3" ∷ codes "0.0123456" ∷ codes "1e-7"
        ∷ codes "0e999999999" ∷ codes "1e999999999" ∷ []) ≡
        1000000000000 ∷ 1023450000000 ∷ 1000 ∷ 123456 ∷ 1 ∷ 0 ∷ 10 ^ 19 ∷ [] }
    ensures bottoms { map (bottom 0) (codes "1e6" ∷ codes "1.02345e+06" ∷ codes "1E-3" ∷ codes "0.0123456" ∷ codes "1e-7"
        ∷ codes "12e-999999999" ∷ []) ≡ 1 ∷ 1 ∷ 1 ∷ 10 ∷ 10 ∷ 1000 ∷ [] }
{}

/// Fractions and the nearest whole numbers.
pub fn nearest_numbers()
    ensures { nearest 4 10 ∷ nearest 5 10 ∷ nearest 6 10 ∷ nearest 15 10 ∷ nearest 25 10 ∷ nearest 251 100 ∷ nearest 7 1 ∷ []
        ≡ 0 ∷ 0 ∷ 1 ∷ 2 ∷ 2 ∷ 3 ∷ 7 ∷ [] }
{}

/// What is written in place of words, if fine prices are rounded.
pub fn replacements()
    ensures exact { map (replacement (price_rule Round 0)) (codes "1e6" ∷ codes "1.02345e+06" ∷ codes "1E-3" ∷ codes ".5"
        ∷ codes "5." ∷ codes "0e999999999" ∷ codes "1e12" ∷ []) ≡ Exact 1000000000000 ∷ Exact 1023450000000 ∷ Exact 1000
        ∷ Exact 500000 ∷ Exact 5000000 ∷ Exact 0 ∷ Exact (10 ^ 18) ∷ [] }
    ensures rounded { map (replacement (price_rule Round 0)) (codes "0.0123456" ∷ codes "0.00000049" ∷ codes "0.0000005"
        ∷ codes "0.0000015" ∷ codes "1e-7" ∷ codes "1000000000000.0000001" ∷ codes "12e-999999999" ∷ []) ≡ Rounded 12346
        ∷ Rounded 0 ∷ Rounded 0 ∷ Rounded 2 ∷ Rounded 0 ∷ Rounded (10 ^ 18) ∷ Rounded 0 ∷ [] }
    ensures large { map (replacement (price_rule Round 0)) (codes "1e13" ∷ codes "1e999999999"
        ∷ codes "1000000000000.0000006" ∷ []) ≡ TooLarge ∷ TooLarge ∷ TooLarge ∷ [] }
    ensures kept { map (replacement (price_rule Round 0)) (codes "1,5" ∷ codes "-1" ∷ codes "007.50"
        ∷ codes "1000000000000.0000000" ∷ []) ≡ Itself ∷ Itself ∷ Itself ∷ Itself ∷ [] }
{}

/// The same, if fine prices are refused.
pub fn refusals()
    ensures exact { map (replacement (price_rule Refuse 0)) (codes "1e6" ∷ codes "1.02345e+06" ∷ codes "1E-3"
        ∷ codes ".5" ∷ codes "5." ∷ codes "0e999999999" ∷ codes "1e12" ∷ []) ≡ Exact 1000000000000 ∷ Exact 1023450000000
        ∷ Exact 1000 ∷ Exact 500000 ∷ Exact 5000000 ∷ Exact 0 ∷ Exact (10 ^ 18) ∷ [] }
    ensures fine { map (replacement (price_rule Refuse 0)) (codes "0.0123456" ∷ codes "0.00000049" ∷ codes "0.0000005"
        ∷ codes "0.0000015" ∷ codes "1e-7" ∷ codes "12e-999999999" ∷ []) ≡ TooFine ∷ TooFine ∷ TooFine ∷ TooFine
        ∷ TooFine ∷ TooFine ∷ [] }
    ensures large { map (replacement (price_rule Refuse 0)) (codes "1e13" ∷ codes "1e999999999"
        ∷ codes "1000000000000.0000001" ∷ []) ≡ TooLarge ∷ TooLarge ∷ TooLarge ∷ [] }
    ensures kept { map (replacement (price_rule Refuse 0)) (codes "1,5" ∷ codes "-1" ∷ codes "007.50" ∷ []) ≡ Itself
        ∷ Itself ∷ Itself ∷ [] }
{}

/// The same, if prices are multiplied.
pub fn products()
    ensures millions { map (replacement (price_rule Round 6)) (codes "0.0000031" ∷ codes "1e-06" ∷ codes "007.50"
        ∷ codes "5e-13" ∷ codes "15e-13" ∷ codes "1000000" ∷ codes "1000001" ∷ codes "1,5" ∷ []) ≡ Exact 3100000
        ∷ Exact 1000000 ∷ Exact 7500000000000 ∷ Rounded 0 ∷ Rounded 2 ∷ Exact (10 ^ 18) ∷ TooLarge ∷ Itself ∷ [] }
    ensures tens { map (replacement (price_rule Round 1)) (codes "0" ∷ codes "0.05" ∷ codes ".5" ∷ codes "0.00000006"
        ∷ codes "100000000000.0000001" ∷ []) ≡ Exact 0 ∷ Exact 500000 ∷ Exact 5000000 ∷ Rounded 1 ∷ TooLarge ∷ [] }
    ensures refused { map (replacement (price_rule Refuse 6)) (codes "1e-12" ∷ codes "5e-13" ∷ codes "1000000"
        ∷ codes "1000000.000000000000499" ∷ []) ≡ Exact 1 ∷ TooFine ∷ Exact (10 ^ 18) ∷ TooLarge ∷ [] }
    ensures greatest { map (replacement (price_rule Round 255)) (codes "1e-261" ∷ codes "5e-262" ∷ codes "1e-243"
        ∷ codes "1e-242" ∷ []) ≡ Exact 1 ∷ Rounded 0 ∷ Exact (10 ^ 18) ∷ TooLarge ∷ [] }
{}

/// The words that are written.
pub fn words()
    ensures { map (rounded_word (price_rule Round 0)) (codes "1e6" ∷ codes "1.02345e+06" ∷ codes "0.0123456"
        ∷ codes "007.50" ∷ codes "1,5" ∷ []) ≡ codes "1000000" ∷ codes "1023450" ∷ codes "0.012346" ∷ codes "007.50"
        ∷ codes "1,5" ∷ [] }
{}

/// A text whose lines end with CR and LF, with a comment, tabs, and no LF at its end.
pub fn texts()
    ensures text { rounded_text (price_rule Round 0)
        (codes "goods 1e0\r\nbids 2\ndummy 0 1e1\n% 0 1e3\r\n\t1 \t1E-3\t0 1e2 #\r\n0 0.0123456\r")
        ≡ codes "goods 1e0\r\nbids 2\ndummy 0 1e1\n% 0 1e3\r\n\t1 \t0.001\t0 1e2 #\r\n0 0.012346\r" }
    ensures prices { rounded_prices (price_rule Round 0)
        (codes "goods 1e0\r\nbids 2\ndummy 0 1e1\n% 0 1e3\r\n\t1 \t1E-3\t0 1e2 #\r\n0 0.0123456\r")
        ≡ record { line = 6; word = codes "0.0123456"; price = 12346 } ∷ [] }
{}

/// A text whose prices are multiplied, and the prices that are rounded then.
pub fn multiplied_texts()
    ensures text { rounded_text (price_rule Round 6)
        (codes "goods 1\nbids 2\ndummy 0\n0 2e-06 0 #\n% 1 2 3\n1\t1.0000000000006 0 #\n")
        ≡ codes "goods 1\nbids 2\ndummy 0\n0 2 0 #\n% 1 2 3\n1\t1000000.000001 0 #\n" }
    ensures prices { rounded_prices (price_rule Round 6)
        (codes "goods 1\nbids 2\ndummy 0\n0 2e-06 0 #\n% 1 2 3\n1\t1.0000000000006 0 #\n")
        ≡ record { line = 6; word = codes "1.0000000000006"; price = 1000000000001 } ∷ [] }
{}

/// The first faults of texts with a price that is refused.
pub fn faults()
    ensures large { first_fault (rounded_text (price_rule Round 0) (codes "goods 1\nbids 1\ndummy 0\n0 1e13 0 #\n"))
        ≡ Some (fault_at 4 IsTooLarge) }
    ensures fine { first_fault (rounded_text (price_rule Refuse 0) (codes "goods 1\nbids 1\ndummy 0\n0 1e-7 0 #\n"))
        ≡ Some (fault_at 4 IsTooFine) }
    ensures product { first_fault (rounded_text (price_rule Round 12) (codes "goods 1\nbids 1\ndummy 0\n0 1.5 0 #\n"))
        ≡ Some (fault_at 4 IsTooLarge) }
    ensures none { first_fault (rounded_text (price_rule Round 0) (codes "goods 1\nbids 1\ndummy 0\n0 1e-7 0 #\n")) ≡ None }
    ensures no_decimal { first_fault (rounded_text (price_rule Round 0) (codes "goods 1\nbids 1\ndummy 0\n0 1,5 0 #\n"))
        ≡ Some (fault_at 4 NotANumber) }
{}

/// Texts in layouts of other publishers, and texts that stay as they are.
pub fn layouts()
    ensures text { mended_text (codes "# two bids\nGoods: 2\r\nBIDS 2\n0 3 0 #\tnorth\n  #\n1 1e1 1 #\n")
        ≡ codes "% two bids\ngoods 2\r\nbids 2\ndummy 0\n0 3 0 #\n  %\n1 1e1 1 #\n" }
    ensures mends { mended_places (codes "# two bids\nGoods: 2\r\nBIDS 2\n0 3 0 #\tnorth\n  #\n1 1e1 1 #\n")
        ≡ record { line = 1; mend = Comment } ∷ record { line = 2; mend = Keyword } ∷ record { line = 3; mend = Keyword }
        ∷ record { line = 4; mend = Dummy } ∷ record { line = 4; mend = Remark } ∷ record { line = 5; mend = Comment } ∷ [] }
    ensures remarks { map mended_text (codes "goods 1\nbids 1\nDUMMY: 0\n0 5 0 # # north" ∷ codes "a\nb\nc\n d # e 0" ∷ [])
        ≡ codes "goods 1\nbids 1\ndummy 0\n0 5 0 #" ∷ codes "a\nb\nc\n d #" ∷ [] }
    ensures kept { map mended_places (codes "goods:2\n" ∷ codes "goods :2\n" ∷ codes "goods 2 # two\n" ∷ codes "bids: 2\n"
        ∷ codes "goods 1\nbids 0\n" ∷ codes "goods 1\nbids 1\ndummy 0\n0 5 0 # 1 6 0 #\n" ∷ codes ""
        ∷ codes "goods 1\nbids 1\ndummy 0\n0 5 0#north\n" ∷ codes "goods 1\nbids 1\n-1 5 0 #\n" ∷ [])
        ≡ [] ∷ [] ∷ [] ∷ [] ∷ [] ∷ [] ∷ [] ∷ [] ∷ [] ∷ [] }
{}

/// Lines of a mended text in which `dummy 0` was put in before the line 4, and of one that has all lines as they were.
pub fn lines_of_files()
    ensures put_in { map (line_in_file (record { line = 2; mend = Keyword } ∷ record { line = 4; mend = Dummy } ∷ []))
        (0 ∷ 3 ∷ 4 ∷ 5 ∷ 6 ∷ []) ≡ 0 ∷ 3 ∷ 4 ∷ 4 ∷ 5 ∷ [] }
    ensures same { map (line_in_file (record { line = 2; mend = Keyword } ∷ [])) (0 ∷ 3 ∷ 4 ∷ []) ≡ 0 ∷ 3 ∷ 4 ∷ [] }
{}
