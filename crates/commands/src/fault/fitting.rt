//! Whether a row of hints fits a place.

ghost use Rattle.std.specs.Prelude.{◌≡◌, ◌==◌, ◌&&◌, [], ◌∷◌, drop, length, nat_eq, nat_le, nat_lt};
ghost use Rattle.std.specs.Char.{is_ascii_alphabetic};
ghost use Rattle.std.specs.List.{ends_with, list_any, starts_with};
ghost use Rattle.std.specs.Str.{bytes_eq};
ghost use Rattle.cats_text.specs.Numbers.{digits_alone};
ghost use Rattle.cats_text.specs.Views.{plain_place};
ghost use Rattle.rounding.specs.Decimals.{has_exponent};
ghost use Rattle.commands.specs.Hints.{begins_by, ends_by, fits, has_some, is_among, is_at, passes};

use super::rows::{At, Bytes, Ends, HintRow, Starts, Test, Words};
use cats_text::fault_place::FaultPlace;
use rounding::is_decimal;

/// What the text of a linear program begins with.
const LINEAR_PROGRAMS: &[&[u8]] = &[
    b"Maximize",
    b"maximize",
    b"MAXIMIZE",
    b"Minimize",
    b"minimize",
    b"MINIMIZE",
    b"Max",
    b"max",
    b"Min",
    b"min",
];

/// The words of a header line with capitals.
const CAPITALS: &[&[u8]] = &[b"Goods", b"Bids", b"Dummy", b"GOODS", b"BIDS", b"DUMMY"];

/// Numbers that are not finite, as programs print them.
const NOT_FINITE: &[&[u8]] = &[
    b"nan",
    b"NaN",
    b"NAN",
    b"-nan",
    b"inf",
    b"Inf",
    b"INF",
    b"+inf",
    b"-inf",
    b"Infinity",
    b"-Infinity",
    b"infinity",
];

/// Words for a missing value.
const MISSING: &[&[u8]] = &[
    b"NA", b"N/A", b"na", b"n/a", b"null", b"NULL", b"None", b"none", b"nil", b"-", b"?",
];

/// What lines of a conflict of git begin with.
const CONFLICTS: &[&[u8]] = &[b"<<<<<<<", b"|||||||", b"=======", b">>>>>>>"];

/// The words of a header line, in each way of writing.
const KEYWORDS: &[&[u8]] = &[
    b"goods", b"bids", b"dummy", b"Goods", b"Bids", b"Dummy", b"GOODS", b"BIDS", b"DUMMY",
];

/// The currencies dollar, euro, pound and yen, also in other encodings.
const CURRENCIES: &[&[u8]] = &[
    b"$",
    b"\xe2\x82\xac",
    b"\xc2\xa3",
    b"\xc2\xa5",
    b"\xa3",
    b"\xa5",
    b"\x80",
];

fn is_at(at: At, line: u64, word: u64) -> bool
    ensures { result ≡ is_at at line word }
{
    match at {
        At::Anywhere => true,
        At::LineStart => word == 1,
        At::TextStart => line == 1 && word == 1,
        At::SecondLine => line == 2 && word == 1,
        At::PdfStart => 2 <= line && line <= 3 && word == 1,
        At::BehindStart => 2 <= word,
        At::Second => word == 2,
        At::HeaderNumber => line <= 3 && word == 2,
        At::FirstNumber => line == 1 && word == 2,
        At::BehindSecond => 3 <= word,
        At::BehindFirstGood => 4 <= word,
        At::CutBid => word <= 3,
    }
}

fn is_one_of(word: &[u8], words: &[&[u8]]) -> bool
    ensures { result ≡ list_any (λ it. bytes_eq it.now word.now) words.now }
{
    words.iter().any(|it| *it == word)
}

fn begins_with_one(word: &[u8], starts: &[&[u8]]) -> bool
    ensures { result ≡ list_any (λ it. starts_with nat_eq word.now it.now) starts.now }
{
    starts.iter().any(|it| word.starts_with(it))
}

fn ends_with_one(word: &[u8], ends: &[&[u8]]) -> bool
    ensures { result ≡ list_any (λ it. ends_with nat_eq word.now it.now) ends.now }
{
    ends.iter().any(|it| word.ends_with(it))
}

fn has_one(word: &[u8], bytes: &[u8]) -> bool
    ensures { result ≡ list_any (λ b. list_any (λ it. it == b) bytes.now) word.now }
{
    word.iter().any(|byte| bytes.contains(byte))
}

fn is_among(word: &[u8], it: Words) -> bool
    ensures { result ≡ is_among word.now it }
{
    match it {
        Words::JsonList => is_one_of(word, &[b"["]),
        Words::Pointer => is_one_of(word, &[b"version"]),
        Words::LinearProgram => is_one_of(word, LINEAR_PROGRAMS),
        Words::Mps => is_one_of(word, &[b"NAME", b"ROWS", b"OBJSENSE"]),
        Words::Keyword => is_one_of(word, &[b"goods", b"bids", b"dummy"]),
        Words::Capital => is_one_of(word, CAPITALS),
        Words::NotFinite => is_one_of(word, NOT_FINITE),
        Words::Missing => is_one_of(word, MISSING),
        Words::NoPrice => is_one_of(word, &[b"#"]),
        Words::MinusOne => is_one_of(word, &[b"-1"]),
    }
}

fn begins_by(word: &[u8], it: Starts) -> bool
    ensures { result ≡ begins_by word.now it }
{
    match it {
        Starts::Gzip => begins_with_one(word, &[b"\x1f\x8b"]),
        Starts::Bzip2 => begins_with_one(word, &[b"BZh"]),
        Starts::Xz => begins_with_one(word, &[b"\xfd7zXZ\x00"]),
        Starts::Zstd => begins_with_one(word, &[b"(\xb5/\xfd"]),
        Starts::Zip => begins_with_one(word, &[b"PK\x03\x04"]),
        Starts::Mark => begins_with_one(word, &[b"\xef\xbb\xbf"]),
        Starts::Wide => begins_with_one(word, &[b"\xff\xfe", b"\xfe\xff"]),
        Starts::WideLittle => begins_with_one(word, &[b"g\x00"]),
        Starts::WideBig => begins_with_one(word, &[b"\x00g"]),
        Starts::Conflict => begins_with_one(word, CONFLICTS),
        Starts::RichText => begins_with_one(word, &[b"{\x5crtf"]),
        Starts::Json => begins_with_one(word, &[b"{", b"[{", b"[[", b"[\x22", b"[0", b"[1"]),
        Starts::Page => begins_with_one(word, &[b"<"]),
        Starts::Answer => begins_with_one(word, &[b"HTTP/", b"404:", b"403:", b"500:"]),
        Starts::CommentedProgram => begins_with_one(word, &[b"\x5c", b"max:", b"min:"]),
        Starts::Keyword => begins_with_one(word, KEYWORDS),
        Starts::Comment => begins_with_one(word, &[b"#", b"//", b";", b"--", b"/*"]),
        Starts::Quote => begins_with_one(word, &[b"\x22", b"'"]),
        Starts::CommentBehind => begins_with_one(word, &[b"%", b"#", b"//", b";"]),
        Starts::OldEnd => begins_with_one(word, &[b"\x1a"]),
        Starts::Remark => begins_with_one(word, &[b"%", b"//"]),
        Starts::NotFiniteNumber => begins_with_one(word, &[b"1.#", b"-1.#", b"nan(", b"-nan("]),
        Starts::RemarkToo => begins_with_one(word, &[b"#"]),
        Starts::Hexadecimal => begins_with_one(word, &[b"0x", b"0X"]),
        Starts::Sign => begins_with_one(word, &[b"-", b"+", b"\xe2\x88\x92", b"\xe2\x80\x93"]),
        Starts::Currency => begins_with_one(word, CURRENCIES),
        Starts::Bracket => begins_with_one(word, &[b"{", b"[", b"("]),
    }
}

fn ends_by(word: &[u8], it: Ends) -> bool
    ensures { result ≡ ends_by word.now it }
{
    match it {
        Ends::NoBlank => ends_with_one(word, &[b"#"]),
        Ends::Currency => ends_with_one(word, CURRENCIES),
        Ends::BracketBehind => ends_with_one(word, &[b"}", b"]", b")"]),
    }
}

fn has_some(word: &[u8], it: Bytes) -> bool
    ensures { result ≡ has_some word.now it }
{
    match it {
        Bytes::Table => has_one(word, b",;"),
        Bytes::Control => has_one(
            word,
            b"\x00\x01\x02\x03\x04\x05\x06\x07\x08\x0b\x0c\x0e\x0f\x10\x11\x12\x13\x14\x15\x16\x17\x18\x19\x1a\x1b\x1c\x1d\x1e\x1f\x7f",
        ),
        Bytes::Zeros => has_one(word, b"\x00"),
        Bytes::Returns => has_one(word, b"\x0d"),
        Bytes::Commas => has_one(word, b","),
        Bytes::Colon => has_one(word, b":;|"),
        Bytes::Thousands => has_one(word, b"_'"),
        Bytes::Range => has_one(word, b"-"),
    }
}

/// Whether behind 99 bytes a zero and three digits 0 are, as in the first word of a tar archive.
fn is_tar(word: &[u8]) -> bool
    ensures { result ≡ (nat_lt 99 (length word.now) && starts_with nat_eq (drop 99 word.now) (0 ∷ 48 ∷ 48 ∷ 48 ∷ [])) }
{
    99 < word.len() && word[99..].starts_with(b"\x00000")
}

fn has_letter(word: &[u8]) -> bool
    ensures { result ≡ list_any is_ascii_alphabetic word.now }
{
    word.iter().any(|byte| byte.is_ascii_alphabetic())
}

fn has_other(word: &[u8]) -> bool
    ensures { result ≡ list_any (λ b. nat_le 128 b) word.now }
{
    word.iter().any(|byte| *byte >= 128)
}

fn digits_alone(word: &[u8]) -> bool
    ensures { result ≡ digits_alone word.now }
{
    word.iter().all(|byte| byte.is_ascii_digit())
}

fn has_exponent(word: &[u8]) -> bool
    ensures { result ≡ has_exponent word.now }
{
    word.iter().any(|byte| *byte == b'e' || *byte == b'E')
}

fn passes(word: &[u8], test: Test) -> bool
    ensures { result ≡ passes word.now test }
{
    match test {
        Test::Any => true,
        Test::Is(it) => is_among(word, it),
        Test::Begins(it) => begins_by(word, it),
        Test::Ends(it) => ends_by(word, it),
        Test::Has(it) => has_some(word, it),
        Test::Tar => is_tar(word),
        Test::Letter => has_letter(word),
        Test::Other => has_other(word),
        Test::Number => digits_alone(word),
        Test::Digits(most) => word.len() <= most && digits_alone(word),
        Test::Decimal => is_decimal(word),
        Test::Exponent => is_decimal(word) && has_exponent(word),
    }
}

pub(super) fn fits(row: &HintRow, place: &FaultPlace<'_>) -> bool
    ensures { result ≡ fits (plain_place place.now) row.now }
{
    is_at(row.at, place.line, place.word) && passes(place.text, row.test)
}
