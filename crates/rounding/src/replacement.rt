//! `replacement_of`: what is written in place of a price.

ghost use Rattle.std.specs.Prelude.{◌≡◌, is_none};
ghost use Rattle.cats_text.specs.Faults.{price_word};
ghost use Rattle.cats_text.specs.Numbers.{is_price, is_too_large, is_too_fine};
ghost use Rattle.rounding.specs.Replacements.{is_kept, replacement};

use crate::decimal::{is_decimal, places, whole_part};
use crate::digits::{has_place, held_number, is_number};
use crate::value::value_of;
use bid_file::limits::MAX_PRICE;

/// What becomes of a decimal that is no whole number of millionths.
#[derive(Clone, Copy, PartialEq, Eq, Debug, Drop)]
pub enum FinePrices {
    /// It is rounded to the nearest millionth, and between two to the even one.
    Round,
    /// It is refused.
    Refuse,
}

/// What becomes of each price of a text.
#[derive(Clone, Copy, PartialEq, Eq, Debug, Drop)]
pub struct PriceRule {
    /// What becomes of a decimal that is no whole number of millionths.
    pub fine: FinePrices,
    /// By which power of ten it is multiplied before. If by none, a valid price stays as it is.
    pub tens: u8,
}

/// What is written in place of a word that has to be a price.
#[derive(Clone, Copy, PartialEq, Eq, Debug, Drop)]
pub enum Replacement {
    /// The word itself: it is a price that is read exactly and not multiplied, or no decimal.
    Itself,
    /// The price of so many millionths, which the word is worth exactly, times the power of ten.
    Exact(u64),
    /// The price of so many millionths, to which the word was rounded.
    Rounded(u64),
    /// A price that is too large.
    TooLarge,
    /// A price that is too fine.
    TooFine,
}

/// The greatest price, in whole units.
const GREATEST_UNITS: u64 = MAX_PRICE / 1_000_000;

/// Whether a word is digits, or digits, a point, and digits.
fn is_price(word: &[u8]) -> bool
    ensures { result ≡ is_price word.now }
{
    let whole = whole_part(word);
    if !is_number(whole) {
        return false;
    }
    whole.len() == word.len() || is_number(places(word))
}

/// Whether a price is above the greatest one.
fn is_too_large(word: &[u8]) -> bool
    ensures { result ≡ is_too_large word.now }
{
    let units = held_number(whole_part(word), 0, GREATEST_UNITS + 1);
    units > GREATEST_UNITS || (units == GREATEST_UNITS && has_place(places(word)))
}

/// Whether a price has a digit other than 0 behind its sixth decimal.
fn is_too_fine(word: &[u8]) -> bool
    ensures { result ≡ is_too_fine word.now }
{
    let places = places(word);
    places.len() > 6 && has_place(&places[6..])
}

/// Whether a word is a price that is read without a fault.
fn is_exact_price(word: &[u8]) -> bool
    ensures { result ≡ is_none (price_word word.now) }
{
    is_price(word) && !is_too_large(word) && !is_too_fine(word)
}

/// Whether a word is a price that stays as it is.
fn is_kept(word: &[u8], rule: PriceRule) -> bool
    ensures { result ≡ is_kept rule word.now }
{
    rule.tens == 0 && is_exact_price(word)
}

/// What is written in place of a word that has to be a price.
pub fn replacement_of(word: &[u8], rule: PriceRule) -> Replacement
    ensures { result ≡ replacement rule word.now }
{
    if is_kept(word, rule) || !is_decimal(word) {
        return Replacement::Itself;
    }
    let value = value_of(word, rule.tens);
    match rule.fine {
        FinePrices::Round => value.rounded(),
        FinePrices::Refuse => value.exact(),
    }
}
