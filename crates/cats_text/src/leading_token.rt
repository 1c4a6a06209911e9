//! The leading token of bytes, if it is whole.

ghost use Rattle.std.specs.Prelude.{◌≡◌, ◌≤◌, true, fold, length, take, IfSome};
ghost use Rattle.std.specs.List.{AllByRecursion};
ghost use Rattle.std.specs.Bool.{OnTrue};
ghost use Rattle.cats_text.specs.Internal.LeadingToken.{IsLeadingToken, IsKept, IsLetter, IsNumberSoFar};
ghost use Rattle.cats_text.specs.Internal.Machine.{word_with};
ghost use Rattle.cats_text.specs.Numbers.{digits_alone};

use crate::eight::few_digits;
use crate::price::Decimal;
use crate::word::{Word, with_digit};
use core::dec2flt::read_digits;

/// A number with the digits that are at the start, and how many they are.
fn with_digits(value: u64, bytes: &[u8]) -> (u64, usize)
    ensures bound { result.1 ≤ length bytes.now }
    ensures digits { digits_alone (take result.1 bytes.now) ≡ true }
    ensures value { Word.Number result.0 ≡ fold word_with (Word.Number value) (take result.1 bytes.now) }
{
    let mut value = value;
    for (count, byte) in bytes.iter().enumerate() {
        match *byte {
            digit @ b'0'..=b'9' => value = with_digit(value, digit - b'0'),
            _ => return (value, count),
        }
    }
    (value, bytes.len())
}

/// So many digits spell a number below 2 to the power 64, and one below `HELD`.
const FEW_DIGITS: usize = 13;

/// The number that the digits at the start spell, and how many they are. Few of them are read eight bytes at a time.
fn many_digits(bytes: &[u8]) -> (u64, usize)
    ensures number { IsNumberSoFar 0 bytes.now result.1 result.0 }
    ensures bound { result.1 ≤ length bytes.now }
{
    let (count, value) = read_digits(bytes, 0, 0);
    if count > FEW_DIGITS {
        return with_digits(0, bytes);
    }
    (value, count)
}

/// The same of digits that are followed by another byte among the first eight, as they mostly are.
#[inline(always)]
fn short_number(bytes: &[u8]) -> Option<(u64, usize)>
    ensures number { IfSome result (λ r. IsNumberSoFar 0 bytes.now r.1 r.0) }
    ensures bound { IfSome result (λ r. r.1 ≤ length bytes.now) }
{
    if bytes.len() < 8 {
        return None;
    }
    few_digits(bytes)
}

/// A decimal with the digits that are at the start, and how many they are.
fn with_places(decimal: Decimal, bytes: &[u8]) -> (Decimal, usize)
    ensures bound { result.1 ≤ length bytes.now }
    ensures digits { digits_alone (take result.1 bytes.now) ≡ true }
    ensures value { Word.Decimal result.0 ≡ fold word_with (Word.Decimal decimal) (take result.1 bytes.now) }
{
    let mut decimal = decimal;
    for (count, byte) in bytes.iter().enumerate() {
        match *byte {
            digit @ b'0'..=b'9' => decimal = decimal.with(digit - b'0'),
            _ => return (decimal, count),
        }
    }
    (decimal, bytes.len())
}

/// How many bytes at the start are neither blanks nor CR or LF.
fn letters(bytes: &[u8]) -> usize
    ensures bound { result ≤ length bytes.now }
    ensures letters { AllByRecursion IsLetter (take result bytes.now) }
{
    for (count, byte) in bytes.iter().enumerate() {
        if matches!(*byte, b' ' | b'\t' | b'\n' | b'\r') {
            return count;
        }
    }
    bytes.len()
}

/// A word with bytes at the start that continue it, and how many they are. Of a keyword and `#` it takes none.
pub fn with_letters(word: Word, bytes: &[u8]) -> (Word, usize)
    ensures bound { result.1 ≤ length bytes.now }
    ensures letters { AllByRecursion IsLetter (take result.1 bytes.now) }
    ensures word { result.0 ≡ fold word_with word (take result.1 bytes.now) }
{
    match word {
        Word::Number(value) => {
            let (value, count) = with_digits(value, bytes);
            (Word::Number(value), count)
        }
        Word::Decimal(decimal) => {
            let (decimal, count) = with_places(decimal, bytes);
            (Word::Decimal(decimal), count)
        }
        Word::Other => (word, letters(bytes)),
        Word::Keyword(..) | Word::End => (word, 0),
    }
}

/// The digits at the start, with a point and more digits or without, or `#`, and how many bytes it has.
fn kept(bytes: &[u8], value: u64, digits: usize) -> Option<(Word, usize)>
    requires number { IsNumberSoFar 0 bytes.now digits value }
    requires bound { digits ≤ length bytes.now }
    ensures { IfSome result (λ r. IsKept bytes.now r.0 r.1) }
{
    match *bytes.get(digits)? {
        b'#' if digits == 0 => Some((Word::End, 1)),
        _ if digits == 0 => None,
        b'.' => {
            let whole = Decimal {
                whole: value,
                millionths: 0,
                decimals: 0,
                fine: false,
            };
            let (decimal, places) = with_places(whole, &bytes[digits + 1..]);
            Some((Word::Decimal(decimal), digits + 1 + places))
        }
        _ => Some((Word::Number(value), digits)),
    }
}

/// The number of these digits at the start, where a blank is behind them, and how many bytes they have.
#[inline(always)]
fn with_blank(bytes: &[u8], value: u64, digits: usize) -> Option<(u64, usize)>
    requires number { IsNumberSoFar 0 bytes.now digits value }
    requires bound { digits ≤ length bytes.now }
    ensures { IfSome result (λ r. IsLeadingToken bytes.now (Word.Number r.0) r.1) }
{
    if digits == 0 {
        return None;
    }
    match *bytes.get(digits)? {
        b' ' | b'\t' => Some((value, digits + 1)),
        _ => None,
    }
}

/// The number at the start, where a blank is behind it, and how many bytes they have.
#[inline(always)]
pub fn number(bytes: &[u8]) -> Option<(u64, usize)>
    ensures { IfSome result (λ r. IsLeadingToken bytes.now (Word.Number r.0) r.1) }
{
    match short_number(bytes) {
        Some((value, digits)) => with_blank(bytes, value, digits),
        None => {
            let (value, digits) = many_digits(bytes);
            with_blank(bytes, value, digits)
        }
    }
}

/// The number, price or `#` at the start, which begins with these digits, where a blank or a line's end is behind it, and
/// how many bytes it and the blank have.
fn with_end(bytes: &[u8], value: u64, digits: usize) -> Option<(Word, usize)>
    requires number { IsNumberSoFar 0 bytes.now digits value }
    requires bound { digits ≤ length bytes.now }
    ensures { IfSome result (λ r. IsLeadingToken bytes.now r.0 r.1) }
{
    let (word, count) = kept(bytes, value, digits)?;
    match *bytes.get(count)? {
        b' ' | b'\t' => Some((word, count + 1)),
        b'\n' => Some((word, count)),
        _ => None,
    }
}

/// The number, price or `#` at the start, where a blank or a line's end is behind it, and how many bytes it and the
/// blank have.
#[inline(always)]
pub fn leading_token(bytes: &[u8]) -> Option<(Word, usize)>
    ensures { IfSome result (λ r. IsLeadingToken bytes.now r.0 r.1) }
{
    if let Some((value, digits)) = short_number(bytes) {
        return match with_blank(bytes, value, digits) {
            Some((value, taken)) => Some((Word::Number(value), taken)),
            None => with_end(bytes, value, digits),
        };
    }
    let (value, digits) = many_digits(bytes);
    with_end(bytes, value, digits)
}

/// Whether `#` is at the start, and a line's end behind it.
#[tactic(auto, using(crate::proofs::Scanning::LeadingTokens::token_of_end))]
#[inline(always)]
pub fn ends_bid(bytes: &[u8]) -> bool
    ensures { OnTrue result (IsLeadingToken bytes.now Word.End 1) }
{
    bytes.len() > 1 && bytes[0] == b'#' && bytes[1] == b'\n'
}
