//! What `cats fault` prints: the place of a fault, and what helps.

ghost use Rattle.std.specs.Prelude.{◌++◌, [], ◌∷◌, codes, map, length, replicate, nat_le, true};
ghost use Rattle.cats_text.specs.declared.read_fault.Kind.TheVariants.{TwoDummies, Header, NotANumber, TooLarge, ExtraBid};
ghost use Rattle.cats_text.specs.declared.read_fault.Kind.TheVariants.{BidNumber, RepeatedNumber, TooFine};
ghost use Rattle.cats_text.specs.declared.read_fault.Kind.TheVariants.{GoodRange as NoSuchGood, RepeatedGood, EmptyBundle};
ghost use Rattle.cats_text.specs.declared.read_fault.Kind.TheVariants.{NoEnd, AfterEnd, Missing, TooLong, Device};
ghost use Rattle.cats_text.specs.declared.read_fault.Kind.TheVariants.{Memory as NoMemory};
ghost use Rattle.std.specs.List.{list_all};
ghost use Rattle.cats_text.specs.Examples.{place};
ghost use Rattle.std.specs.Prelude.{◌≡◌, IfOk};
ghost use Rattle.cats_text.specs.Views.{plain_place};
ghost use Rattle.commands.specs.Fault.{hint_of, hint_of_kind};
ghost use Rattle.commands.specs.Fault.{before_word, behind_word, place_text, shown_bytes};
ghost use Rattle.commands.specs.Pieces.{text_of_pieces};

mod column;
mod finding;
mod fitting;
mod rows;
mod sentences;
mod tables;
pub mod worked;

pub use self::column::{column_of, place_in};
use self::finding::find_hint;
use self::sentences::sentence;
use crate::printed::pieces::{Piece, text_of};
use crate::printed::report::kind_name;
use cats_text::Kind;
use cats_text::fault_place::FaultPlace;
use requests::help::{CommandHelp, FILES};
use std::alloc::{AllocError, Global};

/// What `--help` prints of it.
pub fn help<'a>() -> CommandHelp<'a> {
    CommandHelp {
        name: "fault",
        about: "Prints where the first faults of bid files are, and what helps",
        arguments: &[("FILE", FILES)],
        after: "\
Prints two lines for each file that is not a bid file: its path and the line
and column of its first fault, with its kind and the word there; and what
helps. Lines, and the bytes of a line, are counted from 1. 'cats --help' lists
the kinds. Of a bid file nothing is printed. For example:
  $ cats fault auction.txt
  auction.txt:8:3: TooFine: 0.0123456
  a price has at most six places after the point; `--round` rounds it

With --round it is the first fault that is left once prices are rounded. A file
that cannot be read is a line on standard error, and the others go on.

Statuses: 0 if all are bid files; else the greatest of any file: 2 if it is not
a bid file, 4, 5 and 64 as 'cats --help' lists them",
    }
}

/// So many bytes of a word are printed.
const SHOWN_BYTES: usize = 60;

// Hints about the header and the file as a whole.
const HEADER: &str =
    "header lines are `goods N`, `bids N` and `dummy N`, in this order; write `dummy 0` if there are none";

const EXTRA_BID: &str =
    "the line `bids N` says how many bid lines there are; correct it, or remove the line";

const MISSING: &str =
    "the file seems cut: compare its length with the original; only if it is whole, correct `bids`";

const TOO_LONG: &str =
    "a file has at most 2147483648 bytes; remove comments, or bids that are not needed";

const DEVICE: &str =
    "a file is read to its end, and this read failed; give a file that can be read";

const MEMORY: &str =
    "reading a file takes memory, which was refused; free some, or raise its limit, as by `ulimit -v`";

/// The bytes of the word that are printed.
pub fn shown_word<'a>(place: &FaultPlace<'a>) -> &'a [u8]
    ensures { result.now ≡ shown_bytes (plain_place place.now).text }
{
    &place.text[..place.text.len().min(SHOWN_BYTES)]
}

/// What is printed before a word.
fn before_word(text: &[u8]) -> &'static [u8]
    ensures { result.now ≡ before_word text.now }
{
    if text.is_empty() { b"" } else { b": " }
}

/// What is printed behind the bytes of a word, if there are more.
fn behind_word(text: &[u8]) -> &'static [u8]
    ensures { result.now ≡ behind_word text.now }
{
    if text.len() > SHOWN_BYTES { b".." } else { b"" }
}

/// The place, which is at this column, and the hint, each a line with its LF. The path is escaped already, and the word is
/// `shown_word`, escaped.
pub fn fault_place_text<'a>(
    alloc: Global,
    path: &'a [u8],
    word: &'a [u8],
    column: u64,
    place: &FaultPlace<'_>,
) -> Result<Vec<u8>, AllocError>
    ensures { IfOk result (λ text. text.items ≡ place_text path.now word.now column (plain_place place.now)) }
{
    text_of(alloc, &place_pieces(path, word, column, place))
}

/// They, in pieces.
fn place_pieces<'a>(
    path: &'a [u8],
    word: &'a [u8],
    column: u64,
    place: &FaultPlace<'_>,
) -> [Piece<'a>; 13]
    ensures { text_of_pieces result ≡ place_text path.now word.now column (plain_place place.now) }
{
    [
        Piece::Text(path),
        Piece::Text(b":"),
        Piece::Number(place.line),
        Piece::Text(b":"),
        Piece::Number(column),
        Piece::Text(b": "),
        Piece::Text(kind_name(place.kind).as_bytes()),
        Piece::Text(before_word(place.text)),
        Piece::Text(word),
        Piece::Text(behind_word(place.text)),
        Piece::Text(b"\n"),
        Piece::Text(hint(place).as_bytes()),
        Piece::Text(b"\n"),
    ]
}

/// What helps at a place.
fn hint(place: &FaultPlace<'_>) -> &'static str
    ensures { result.now ≡ hint_of (plain_place place.now) }
{
    match find_hint(place) {
        Some(hint) => sentence(hint),
        None => hint_of_kind(place.kind),
    }
}

/// The rule of a kind, and what to do about its fault.
fn hint_of_kind(kind: Kind) -> &'static str
    ensures { result.now ≡ hint_of_kind kind }
{
    match kind {
        Kind::Header => HEADER,
        Kind::NotANumber => {
            "a number has digits alone, and a price digits alone or digits around one point"
        }
        Kind::TooLarge => {
            "prices go up to 10^12: divide all by one power of ten; `bids` and `dummy` go up to 65536"
        }
        Kind::ExtraBid => EXTRA_BID,
        Kind::BidNumber => {
            "bids are numbered from 0, below the number that `bids` says; number the bids anew"
        }
        Kind::RepeatedNumber => "each bid line has a number of its own; number the bids anew",
        Kind::TooFine => "a price has at most six places after the point; `--round` rounds it",
        Kind::GoodRange => {
            "goods and then dummy goods count from 0; subtract 1 if yours count from 1, or correct `goods`"
        }
        Kind::RepeatedGood => {
            "a bid names each of its goods once; remove the good where it is repeated"
        }
        Kind::TwoDummies => {
            "these are two dummy goods; count goods from 0, or write a bid line for each bidder"
        }
        Kind::EmptyBundle => { "no good is before `#`; write the bid's goods, or remove the bid" }
        Kind::NoEnd => {
            "if the file ends here, it seems cut: compare its length with the original; `#` ends each bid"
        }
        Kind::AfterEnd => {
            "nothing is behind the `#` of a bid line; remove it, or write a line of its own for it"
        }
        Kind::Missing => MISSING,
        Kind::TooLong => TOO_LONG,
        Kind::Device => DEVICE,
        Kind::Memory => MEMORY,
    }
}

/// The place of a fault and what helps: of a word, of a word that is printed in part, and of a line's end.
pub fn places_of_faults()
    ensures word { place_text (codes "in") (codes "0.0123456") 3 (place 8 2 (codes "0.0123456") TooFine) ≡
        codes "in:8:3: TooFine: 0.0123456\n"
        ++ codes "a price has at most six places after the point; `--round` rounds it\n" }
    ensures long_word { place_text (codes "in") (replicate 60 120) 1 (place 4 1 (replicate 61 120) RepeatedNumber) ≡
        codes "in:4:1: RepeatedNumber: " ++ replicate 60 120
        ++ codes "..\neach bid line has a number of its own; number the bids anew\n" }
    ensures shown { map shown_bytes (replicate 61 120 ∷ replicate 60 120 ∷ codes "x" ∷ []) ≡
        replicate 60 120 ∷ replicate 60 120 ∷ codes "x" ∷ [] }
    ensures end { place_text (codes "in") [] 6 (place 5 4 [] NoEnd) ≡
        codes "in:5:6: NoEnd\nif the file ends here, it seems cut: compare its length with the original; `#` ends each bid\n" }
    ensures short { list_all (λ kind. nat_le (length (hint_of_kind kind)) 100)
        (Header ∷ NotANumber ∷ TooLarge ∷ ExtraBid ∷ BidNumber ∷ RepeatedNumber ∷ TooFine ∷ NoSuchGood ∷ RepeatedGood
        ∷ TwoDummies ∷ EmptyBundle ∷ NoEnd ∷ AfterEnd ∷ Missing ∷ TooLong ∷ Device ∷ NoMemory ∷ []) ≡ true }
{}
