//! The parts of a decimal. They are the digits before the point and behind it, and the exponent.

ghost use Rattle.std.specs.Prelude.{◌≡◌, ◌<◌, ◌≤◌, ◌++◌, length};
ghost use Rattle.cats_text.specs.Numbers.{is_number, whole_part, places};
ghost use Rattle.rounding.specs.Decimals.{significand, exponent, is_exponent_mark, without_sign, has_minus, is_decimal};

use crate::digits::{digits_alone, is_number};

/// How many bytes are before the first point.
fn point_in(word: &[u8]) -> usize
    ensures count { result ≡ length (whole_part word.now) }
    ensures within { result ≤ length word.now }
{
    for (offset, byte) in word.iter().enumerate() {
        if *byte == b'.' {
            return offset;
        }
    }
    word.len()
}

/// The bytes before the first point.
pub fn whole_part(word: &[u8]) -> &[u8]
    ensures { result.now ≡ whole_part word.now }
{
    &word[..point_in(word)]
}

/// The bytes behind the first point.
pub fn places(word: &[u8]) -> &[u8]
    ensures { result.now ≡ places word.now }
{
    let point = point_in(word);
    if point < word.len() {
        &word[point + 1..]
    } else {
        &word[point..]
    }
}

/// Whether a byte is `e` or `E`.
fn is_exponent_mark(byte: u8) -> bool
    ensures { result ≡ is_exponent_mark byte }
{
    byte == b'e' || byte == b'E'
}

/// How many bytes are before the first `e` or `E`.
fn mark_in(word: &[u8]) -> usize
    ensures count { result ≡ length (significand word.now) }
    ensures within { result ≤ length word.now }
{
    for (offset, byte) in word.iter().enumerate() {
        if is_exponent_mark(*byte) {
            return offset;
        }
    }
    word.len()
}

/// The bytes before the first `e` or `E`.
pub fn significand(word: &[u8]) -> &[u8]
    ensures { result.now ≡ significand word.now }
{
    &word[..mark_in(word)]
}

/// The bytes behind the first `e` or `E`.
pub fn exponent(word: &[u8]) -> &[u8]
    ensures { result.now ≡ exponent word.now }
{
    let mark = mark_in(word);
    if mark < word.len() {
        &word[mark + 1..]
    } else {
        &word[mark..]
    }
}

/// An exponent without its sign.
pub fn without_sign(word: &[u8]) -> &[u8]
    ensures { result.now ≡ without_sign word.now }
{
    match word {
        [b'+' | b'-', size @ ..] => size,
        _ => word,
    }
}

/// Whether an exponent's sign is `-`.
pub fn has_minus(word: &[u8]) -> bool
    ensures { result ≡ has_minus word.now }
{
    matches!(word, [b'-', ..])
}

/// Whether the digits before a point and those behind it are one or more digits and nothing else.
fn are_digits(whole: &[u8], places: &[u8]) -> bool
    ensures { result ≡ is_number (whole.now ++ places.now) }
{
    if whole.is_empty() {
        return is_number(places);
    }
    digits_alone(whole) && digits_alone(places)
}

/// Whether a word is a decimal.
pub fn is_decimal(word: &[u8]) -> bool
    ensures { result ≡ is_decimal word.now }
{
    let significand = significand(word);
    if !are_digits(whole_part(significand), places(significand)) {
        return false;
    }
    mark_in(word) == word.len() || is_number(without_sign(exponent(word)))
}
