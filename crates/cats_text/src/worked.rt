//! Worked examples of the definitions, computed by the prover.

ghost use Rattle.std.specs.Prelude.{◌≡◌, ◌^◌, ◌++◌, [], ◌∷◌, Some, None, Ok, Err, map, true, false, codes};
ghost use Rattle.cats_text.specs.Lines.{line_words, blank_returns, significant_lines};
ghost use Rattle.cats_text.specs.Numbers.{number_of, is_number, is_price, is_too_large, is_too_fine, price_of};
ghost use Rattle.cats_text.specs.Grammar.{Spells};
ghost use Rattle.cats_text.specs.Faults.{first_fault, complete_fault, fault_at};
ghost use Rattle.cats_text.specs.FaultPlaces.{first_place};
ghost use Rattle.cats_text.specs.FileLines.{spelled_file};
ghost use Rattle.cats_text.specs.Examples.{known, watched, place};
ghost use Rattle.cats_text.specs.Reading.{PackedAnswer};
ghost use Rattle.cats_text.specs.Streams.{ReadsPlainAs, ChecksAs, Sends, moved_nothing, failed_to_write};
ghost use Rattle.cats_text.specs.Layout.{layout, price_text, six_digits};
ghost use Rattle.cats_text.specs.declared.limits.TheConstants.{MAX_STREAM};
ghost use Rattle.cats_text.specs.declared.read_fault.Kind.TheVariants.{
  Header,
  NotANumber,
  TooLarge,
  ExtraBid,
  BidNumber,
  RepeatedNumber,
  TooFine,
  GoodRange,
  RepeatedGood,
  TwoDummies,
  EmptyBundle,
  NoEnd,
  AfterEnd,
  Missing,
  Device,
  Memory as NoMemory,
};

/// The limit that the definitions cite.
pub fn limits()
    ensures { MAX_STREAM ≡ 2 ^ 31 }
{}

/// Lines and words: blanks, a CR at a line's end and elsewhere, comments of any bytes.
pub fn lines_and_words()
    ensures words { line_words (codes " goods\t 002 ") ≡ codes "goods" ∷ codes "002" ∷ [] }
    ensures returns { blank_returns (codes "a\r\r\n\rb\r") ≡ codes "a\r \n\rb " }
    ensures comments { significant_lines (codes "%% " ++ 255 ∷ 233 ∷ codes "\r\n\r\n \t% note\n\r%\n") ≡
        record { number = 4; words = codes "\r%" ∷ []; ended = true } ∷ [] }
    ensures cut { significant_lines (codes "a b") ≡ record {
      number = 1;
      words = codes "a" ∷ codes "b" ∷ [];
      ended = false;
    } ∷ [] }
{}

/// Numbers and prices as words.
pub fn numbers_and_prices()
    ensures numbers { map is_number (codes "0" ∷ codes "007" ∷ codes "" ∷ codes "5#" ∷ codes "-1" ∷ codes "+1" ∷ []) ≡
        true ∷ true ∷ false ∷ false ∷ false ∷ false ∷ [] }
    ensures value { number_of (codes "000123456789012345678901234567") ≡ 123456789012345678901234567 }
    ensures prices { map is_price (codes "1" ∷ codes "1.50" ∷ codes ".5" ∷ codes "5." ∷ codes "1.2.3" ∷ codes "1e3"
        ∷ codes "." ∷ []) ≡
        true ∷ true ∷ false ∷ false ∷ false ∷ false ∷ false ∷ [] }
    ensures large { map is_too_large (codes "1000000000000.0000000" ∷ codes "1000000000000.0000001"
        ∷ codes "1000000000001" ∷ []) ≡
        false ∷ true ∷ true ∷ [] }
    ensures fine { map is_too_fine (codes "0.1234567" ∷ codes "0.12345600" ∷ codes "7" ∷ []) ≡ true ∷ false
        ∷ false ∷ [] }
    ensures millionths { map price_of (codes "0.12345600" ∷ codes "02.25" ∷ codes "1000000000000.0000000"
        ∷ codes "0.000" ∷ []) ≡
        123456 ∷ 2250000 ∷ 1000000000000000000 ∷ 0 ∷ [] }
    ensures six { map six_digits (1 ∷ 999999 ∷ 250000 ∷ 0 ∷ []) ≡
        codes "000001" ∷ codes "999999" ∷ codes "250000" ∷ codes "000000" ∷ [] }
    ensures written { map price_text (123456 ∷ 2250000 ∷ 1500000 ∷ 1000000000000000000 ∷ 0 ∷ 3750001 ∷ []) ≡
        codes "0.123456" ∷ codes "2.25" ∷ codes "1.5" ∷ codes "1000000000000" ∷ codes "0" ∷ codes "3.750001" ∷ [] }
    ensures places { map price_text (1 ∷ 999999 ∷ 4000010 ∷ []) ≡ codes "0.000001" ∷ codes "0.999999"
        ∷ codes "4.00001" ∷ [] }
{}

/// Faults of header lines.
pub fn header_faults()
    ensures { map first_fault
        ([] ∷ codes "goods\n" ∷ codes "Goods 2\n" ∷ codes "goods 2x\n" ∷ codes "goods 2 3\n" ∷ codes "goods 4097 x\n"
        ∷ codes "bids 1\n" ∷ codes "% only a comment\n" ∷ codes "goods 1025 x\n" ∷ codes "goods 4097\n"
        ∷ codes "x y" ∷ []) ≡
        (Some (fault_at 1 Missing) ∷ Some (fault_at 1 Header) ∷ Some (fault_at 1 Header) ∷ Some (fault_at 1 NotANumber)
        ∷ Some (fault_at 1 Header) ∷ Some (fault_at 1 TooLarge) ∷ Some (fault_at 1 Header) ∷ Some (fault_at 2 Missing)
        ∷ Some (fault_at 1 Header) ∷ Some (fault_at 1 TooLarge) ∷ Some (fault_at 1 Header) ∷ []) }
{}

/// Faults of a bid line.
pub fn bid_line_faults()
    ensures one { map (λ line. first_fault (codes "goods 2\nbids 1\ndummy 0\n" ++ line ++ codes "\n"))
        (codes "x 1 0 #" ∷ codes "1 1 0 #" ∷ codes "0 1.5 0 #" ∷ codes "0 .5 0 #" ∷ codes "0 5. 0 #" ∷ codes "0 -1 0 #"
        ∷ codes "0 1e3 0 #"
        ∷ codes "0 1 2 2 #" ∷ codes "0 1 0 00 #" ∷ codes "0 1 #" ∷ codes "0 1 0#" ∷ codes "0 1 0 # 1" ∷ codes "0 1 0"
        ∷ codes "0" ∷ codes "0 #" ∷ []) ≡
        (Some (fault_at 4 NotANumber) ∷ Some (fault_at 4 BidNumber) ∷ None ∷ Some (fault_at 4 NotANumber)
        ∷ Some (fault_at 4 NotANumber)
        ∷ Some (fault_at 4 NotANumber) ∷ Some (fault_at 4 NotANumber) ∷ Some (fault_at 4 GoodRange)
        ∷ Some (fault_at 4 RepeatedGood)
        ∷ Some (fault_at 4 EmptyBundle) ∷ Some (fault_at 4 NotANumber) ∷ Some (fault_at 4 AfterEnd)
        ∷ Some (fault_at 4 NoEnd)
        ∷ Some (fault_at 4 NoEnd) ∷ Some (fault_at 4 NotANumber) ∷ []) }
    ensures dummies { map first_fault
        (codes "goods 1\nbids 1\ndummy 1\n0 1 1 #\n" ∷ codes "goods 1\nbids 1\ndummy 2\n0 1 0 1 2 #\n"
        ∷ codes "goods 2\nbids 2\ndummy 2\n0 1 0 2 #\n1 1 1 2 3 #\n"
        ∷ codes "goods 2\nbids 2\ndummy 2\n0 1 0 2 #\n1 1 1 2 2 #\n" ∷ []) ≡
        (Some (fault_at 4 EmptyBundle) ∷ Some (fault_at 4 TwoDummies) ∷ Some (fault_at 5 TwoDummies)
        ∷ Some (fault_at 5 RepeatedGood) ∷ []) }
    ensures later { map (λ line. first_fault (codes "goods 2\nbids 1\ndummy 0\n0\t1\t0\t#\n" ++ line ++ codes "\n"))
        (codes "0 1 0 #" ∷ codes "x" ∷ codes "% a comment after the bids" ∷ []) ≡
        (Some (fault_at 5 ExtraBid) ∷ Some (fault_at 5 NotANumber) ∷ None ∷ []) }
    ensures repeated { first_fault (codes "goods 2\nbids 2\ndummy 0\n0\t1\t0\t#\n0 1 1 #\n")
        ≡ Some (fault_at 5 RepeatedNumber) }
    ensures ends { map (λ end. first_fault (codes "goods 1\nbids 3\ndummy 0\n0\t5\t0\t#\n1\t5\t0\t#\n" ++ end))
        (codes "2 5 0" ∷ [] ∷ []) ≡
        (Some (fault_at 6 NoEnd) ∷ Some (fault_at 6 Missing) ∷ []) }
    ensures prices { map (λ price. first_fault (codes "goods 2\nbids 1\ndummy 0\n0 " ++ price ++ codes " 0 #\n"))
        (codes "0.1234567" ∷ codes "1000000000000.0000001" ∷ codes "1.2.3" ∷ codes "1000000000001" ∷ []) ≡
        (Some (fault_at 4 TooFine) ∷ Some (fault_at 4 TooLarge) ∷ Some (fault_at 4 NotANumber)
        ∷ Some (fault_at 4 TooLarge) ∷ []) }
{}

/// The place of the first fault: a word of a header line, a price, a good, the end of a line, and the end of the input.
/// Comments and empty lines are lines too, and a CR at a line's end is of no word.
pub fn places_of_faults()
    ensures words { map first_place
        (codes "Goods 2\n" ∷ codes "% x\r\n\ngoods 2\r\nbids\tx\r\r\n"
        ∷ codes "goods 2\nbids 1\ndummy 0\n 0 0.0123456 0 #\n" ∷ codes "goods 2\nbids 1\ndummy 0\n0 1 0 2 #\n" ∷ []) ≡
        (Some (place 1 1 (codes "Goods") Header) ∷ Some (place 4 2 (codes "x\r") NotANumber)
        ∷ Some (place 4 2 (codes "0.0123456") TooFine) ∷ Some (place 4 4 (codes "2") GoodRange) ∷ []) }
    ensures ends { map first_place
        (codes "goods 2\nbids 1\ndummy 0\n0 1 0\n" ∷ codes "goods \n" ∷ codes "goods 2\nbids 1\ndummy 0\n% x\n"
        ∷ [] ∷ []) ≡
        (Some (place 4 4 [] NoEnd) ∷ Some (place 1 2 [] Header) ∷ Some (place 5 1 [] Missing)
        ∷ Some (place 1 1 [] Missing) ∷ []) }
    ensures none { first_place (codes "goods 0\nbids 0\ndummy 0\n") ≡ None }
{}

/// Texts without a fault.
pub fn accepted_texts()
    ensures { map first_fault
        (codes "goods 0\nbids 0\ndummy 0\n"
        ∷ (codes "%% " ++ 255 ∷ 233
        ∷ codes "\r\n\r\n \t% note\ngoods\t002\r\nbids  1 \r\n dummy 0\r\n\r\n00 0005 1 0 #\r")
        ∷ codes "%% a comment\n\ngoods 3\nbids 2\ndummy 1\n\n0\t20\t0\t2\t3\t#\n1\t7\t1\t#\n"
        ∷ codes "goods 4096\nbids 1\ndummy 65536\n0\t1\t4095\t69631\t#\n" ∷ []) ≡ (None ∷ None ∷ None ∷ None ∷ []) }
{}

/// What is complete before the input ends.
pub fn complete_faults()
    ensures { map complete_fault
        (codes "x y z 1" ∷ codes "x" ∷ codes "x\r" ∷ codes "x\r\n" ∷ codes "\r%" ∷ codes "\r% " ∷ codes "goods 0\r1"
        ∷ codes "goods 0\r1\n" ∷ codes "goods 0\n" ∷ codes "goods " ∷ codes "goods\n" ∷ []) ≡
        (Some (fault_at 1 Header) ∷ None ∷ None ∷ Some (fault_at 1 Header) ∷ None ∷ Some (fault_at 1 Header) ∷ None
        ∷ Some (fault_at 1 NotANumber) ∷ None ∷ None ∷ Some (fault_at 1 Header) ∷ []) }
{}

/// A file as it is written.
pub fn written_file()
    ensures { layout (record {
      goods = 3;
      dummy = 1;
      bids = record { price = 20000000; goods = 0 ∷ 2 ∷ []; dummy = Some 0 }
          ∷ record { price = 7500000; goods = 1 ∷ []; dummy = None } ∷ [];
    }) ≡
        codes "goods 3\nbids 2\ndummy 1\n0\t20\t0\t2\t3\t#\n1\t7.5\t1\t#\n" }
{}

/// Texts and the files that they spell: lines in any order of their numbers, goods in any order, prices with and
/// without a point.
pub fn spelled_files()
    ensures lenient { Spells
        (codes "%% " ++ 255 ∷ 233
        ∷ codes "\r\n\r\n \t% note\ngoods\t002\r\nbids  1 \r\n dummy 0\r\n\r\n00 0005 1 0 #\r")
        (record { goods = 2; dummy = 0; bids = record { price = 5000000; goods = 0 ∷ 1 ∷ []; dummy = None } ∷ [] }) }
    ensures cats { Spells (codes "%% a comment\n\ngoods 3\nbids 2\ndummy 1\n\n0\t20\t0\t2\t3\t#\n1\t7\t1\t#\n")
        (record {
          goods = 3;
          dummy = 1;
          bids = record { price = 20000000; goods = 0 ∷ 2 ∷ []; dummy = Some 0 }
              ∷ record { price = 7000000; goods = 1 ∷ []; dummy = None } ∷ [];
        }) }
    ensures out_of_order { Spells (codes "goods 2\nbids 2\ndummy 0\n1 02.250 1 0 #\n0 3 1 #\n")
        (record {
          goods = 2;
          dummy = 0;
          bids = record { price = 3000000; goods = 1 ∷ []; dummy = None }
              ∷ record { price = 2250000; goods = 0 ∷ 1 ∷ []; dummy = None } ∷ [];
        }) }
    ensures least { Spells (codes "goods 0\nbids 0\ndummy 0\n") (record { goods = 0; dummy = 0; bids = [] }) }
{}

/// The files that texts without a fault say, computed from their lines; a text that lacks its header says an empty
/// file.
pub fn computed_files()
    ensures { map spelled_file
        (codes "goods 2\nbids 2\ndummy 0\n1 02.250 1 0 #\n0 3 1 #\n"
        ∷ codes "%% a comment\n\ngoods 3\nbids 2\ndummy 1\n\n0\t20\t0\t2\t3\t#\n1\t7\t1\t#\n"
        ∷ codes "goods 007\r\nbids 0\r\ndummy 2\r" ∷ [] ∷ []) ≡
        (record {
          goods = 2;
          dummy = 0;
          bids = record { price = 3000000; goods = 1 ∷ []; dummy = None }
              ∷ record { price = 2250000; goods = 0 ∷ 1 ∷ []; dummy = None } ∷ [];
        }
        ∷ record {
          goods = 3;
          dummy = 1;
          bids = record { price = 20000000; goods = 0 ∷ 2 ∷ []; dummy = Some 0 }
              ∷ record { price = 7000000; goods = 1 ∷ []; dummy = None } ∷ [];
        }
        ∷ record { goods = 7; dummy = 2; bids = [] } ∷ record { goods = 0; dummy = 0; bids = [] } ∷ []) }
{}

/// What reading a text answers: the file that it spells, or the first fault. Want of memory is answered only for a text with
/// a line of bids.
pub fn texts_read()
    ensures file { let text = codes "goods 0\nbids 0\ndummy 0\n" in PackedAnswer text (Ok (spelled_file text)) }
    ensures fault { PackedAnswer (codes "bids 0\n") (Err (fault_at 1 Header)) }
    ensures other_fault { PackedAnswer (codes "bids 0\n") (Err (fault_at 2 Header)) → ⊥ }
    ensures memory { PackedAnswer (codes "goods 1\nbids 1\ndummy 0\n0 1 0") (Err (fault_at 0 NoMemory)) }
    ensures no_bids { PackedAnswer (codes "goods 0\nbids 0\ndummy 0\n") (Err (fault_at 0 NoMemory)) → ⊥ }
{}

/// What reading a stream answers, by the bytes that were read and the stream that is left. The whole stream was read
/// where it spells a file or lacks something; a reader that failed is the fault if the bytes before it have none.
pub fn streams_read()
    ensures file { let text = codes "goods 0\nbids 0\ndummy 0\n" in
        ReadsPlainAs known text (watched [] false true) (Ok (spelled_file text)) }
    ensures sizes { let text = codes "goods 0\nbids 0\ndummy 0\n" in
        ChecksAs known text (watched [] false true) (Ok (record { goods = 0; bids = 0; dummy = 0 })) }
    ensures not_ended { let text = codes "goods 0\nbids 0\ndummy 0\n" in
        ReadsPlainAs known text (watched [] false false) (Ok (spelled_file text)) → ⊥ }
    ensures first_fault { ReadsPlainAs known (codes "bids 0\n") (watched (codes "x") false false)
        (Err (fault_at 1 Header)) }
    ensures missing { ChecksAs known (codes "goods 0\n") (watched [] false true) (Err (fault_at 2 Missing)) }
    ensures device { ReadsPlainAs known (codes "goods 0\n") (watched [] true false) (Err (fault_at 0 Device)) }
    ensures fault_before_device { ReadsPlainAs known (codes "bids 0\n") (watched [] true false)
        (Err (fault_at 0 Device)) → ⊥ }
{}

/// What sending a text does: the whole text is appended to what was there, or so many of its first bytes.
pub fn texts_sent()
    ensures whole { Sends known (watched (codes "a") false false) (watched (codes "abc") false false) (codes "bc")
        (Ok tt) }
    ensures not_whole { Sends known (watched (codes "a") false false) (watched (codes "ab") false false) (codes "bc")
        (Ok tt) → ⊥ }
    ensures part { Sends known (watched (codes "a") false false) (watched (codes "ab") true false) (codes "bc")
        (Err (record { written = 1 })) }
    ensures nothing_failed { Sends known (watched [] false false) (watched [] false false) (codes "bc")
        (Err (record { written = 0 })) → ⊥ }
{}

/// What a call's answer says of a device: a call that moves nothing of a piece that is not empty
/// ends a reader and fails a writer, and an empty piece says nothing.
pub fn answers_of_devices()
    ensures nothing { moved_nothing (Ok 0) (codes "x") ≡ true }
    ensures something { moved_nothing (Ok 1) (codes "xy") ≡ false }
    ensures empty_piece { moved_nothing (Ok 0) [] ≡ false }
    ensures refused { failed_to_write (Ok 0) (codes "x") ≡ true }
    ensures taken { failed_to_write (Ok 2) (codes "xy") ≡ false }
    ensures empty_write { failed_to_write (Ok 0) [] ≡ false }
{}
