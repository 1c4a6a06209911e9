//! The value of a decimal. It is held as far as its replacement depends on it.

ghost use Rattle.std.specs.Prelude.{◌≡◌, ℕ, suc, ◌%◌, ◌==◌, nat_lt, ◌+◌, ◌*◌, ◌^◌, ◌<◌, ◌≤◌, ◌++◌, length, min, true};
ghost use Rattle.cats_text.specs.Numbers.{number_of, digits_alone};
ghost use Rattle.rounding.specs.Decimals.{is_decimal, top, bottom};
ghost use Rattle.rounding.specs.Nearest.{nearest};
ghost use Rattle.rounding.specs.Replacements.{replacement_of};
ghost use Rattle.rounding.specs.Internal.Values.{Holds, shift_up, shift_down};
ghost use Rattle.rounding.specs.declared.replacement.FinePrices.TheVariants.{Round, Refuse};

use crate::decimal::{exponent, has_minus, places, significand, whole_part, without_sign};
use crate::digits::{Rest, held_number, rest_after};
use crate::replacement::Replacement;
use bid_file::limits::MAX_PRICE;

/// The bound at which whole millionths are held.
const HELD: u64 = MAX_PRICE + 1;

/// Above this power of ten every number but 0 is above the greatest price.
const GREATEST_POWER: u64 = 19;

/// The power of ten that is the number of millionths in a unit.
const MILLIONTHS: u64 = 6;

/// A value in millionths: its whole part, held at a bound above the greatest price, and what is left.
#[derive(Clone, Copy)]
pub struct Value {
    pub whole: u64,
    pub rest: Rest,
}

impl Value {
    /// Whether nothing is left.
    fn is_whole(self) -> bool
        ensures { (n d : ℕ) → Holds self n d → result ≡ (n % d == 0) }
    {
        self.rest == Rest::Nothing || self.rest == Rest::Zeros
    }

    /// The nearest whole number, and between two the even one.
    fn nearest(self) -> u64
        requires { self.whole ≤ HELD }
        ensures near { (n d : ℕ) → Holds self n d → min HELD result ≡ min HELD (nearest n d) }
        ensures bound { result ≤ HELD + 1 }
    {
        match self.rest {
            Rest::AboveHalf => self.whole + 1,
            Rest::Half => self.whole + self.whole % 2,
            _ => self.whole,
        }
    }

    /// Its replacement, if fine prices are rounded.
    pub fn rounded(self) -> Replacement
        requires { self.whole ≤ HELD }
        ensures { (n d : ℕ) → Holds self n d → result ≡ replacement_of Round n d }
    {
        let nearest = self.nearest();
        if nearest > MAX_PRICE {
            Replacement::TooLarge
        } else if self.is_whole() {
            Replacement::Exact(self.whole)
        } else {
            Replacement::Rounded(nearest)
        }
    }

    /// Whether it is above the greatest price.
    fn is_above(self) -> bool
        requires { self.whole ≤ HELD }
        ensures { (n d : ℕ) → Holds self n d → result ≡ nat_lt (MAX_PRICE * d) n }
    {
        if self.whole == MAX_PRICE {
            !self.is_whole()
        } else {
            self.whole > MAX_PRICE
        }
    }

    /// Its replacement, if fine prices are refused.
    pub fn exact(self) -> Replacement
        requires { self.whole ≤ HELD }
        ensures { (n d : ℕ) → Holds self n d → result ≡ replacement_of Refuse n d }
    {
        if self.is_above() {
            Replacement::TooLarge
        } else if self.is_whole() {
            Replacement::Exact(self.whole)
        } else {
            Replacement::TooFine
        }
    }
}

/// A number ten times as large so often, held at the bound.
fn raised_number(number: u64, power: u64) -> u64
    requires { number ≤ HELD }
    ensures { result ≡ min HELD (number * 10 ^ power) }
{
    let mut held = number;
    for _ in 0..power {
        held = HELD.min(held.saturating_mul(10));
    }
    held
}

/// The digits of two runs, one behind the other, cut so many places before their end.
fn cut_value(whole: &[u8], places: &[u8], power: u64) -> Value
    requires short { length whole.now + length places.now < 2 ^ 64 }
    requires power { power ≤ suc (length whole.now + length places.now) }
    requires digits { digits_alone (whole.now ++ places.now) ≡ true }
    ensures { Holds result (number_of (whole.now ++ places.now)) (10 ^ power) }
{
    let size = whole.len() + places.len();
    let power = power as usize;
    if power > size {
        return Value {
            whole: 0,
            rest: rest_after(places, rest_after(whole, Rest::Zeros)),
        };
    }
    let kept = size - power;
    let of_whole = kept.min(whole.len());
    let of_places = kept - of_whole;
    let leading = held_number(&whole[..of_whole], 0, HELD);
    let behind = rest_after(&whole[of_whole..], Rest::Nothing);
    Value {
        whole: held_number(&places[..of_places], leading, HELD),
        rest: rest_after(&places[of_places..], behind),
    }
}

/// By which powers of ten the number that the digits spell is raised and lowered, to be millionths.
#[derive(Clone, Copy)]
struct Shift {
    up: u64,
    down: u64,
}

/// The powers of a decimal that is multiplied by ten so often. It has these bytes behind its exponent's mark, and so many
/// digits, of which some are behind the point. The size of the exponent is held at a bound above which it changes neither.
fn shift_of(exponent: &[u8], tens: u8, places: u64, size: u64, limit: u64) -> Shift
    requires places { places ≤ size }
    requires size { size ≤ limit }
    requires limit { limit < 2 ^ 63 }
    ensures up { result.up ≡ min 19 (shift_up tens exponent.now places) }
    ensures down { result.down ≡ min (suc size) (shift_down tens exponent.now places) }
{
    let millionths = MILLIONTHS + u64::from(tens);
    let power = held_number(
        without_sign(exponent),
        0,
        limit + millionths + GREATEST_POWER + 1,
    );
    if has_minus(exponent) {
        let lowered = places.saturating_add(power);
        return Shift {
            up: GREATEST_POWER.min(millionths.saturating_sub(lowered)),
            down: (size + 1).min(lowered.saturating_sub(millionths)),
        };
    }
    let raised = millionths + power;
    Shift {
        up: GREATEST_POWER.min(raised.saturating_sub(places)),
        down: (size + 1).min(places.saturating_sub(raised)),
    }
}

/// The value of a decimal that is multiplied by ten so often.
pub fn value_of(word: &[u8], tens: u8) -> Value
    requires { is_decimal word.now ≡ true }
    ensures value { Holds result (top tens word.now) (bottom tens word.now) }
    ensures bound { result.whole ≤ HELD }
{
    let significand = significand(word);
    let whole = whole_part(significand);
    let places = places(significand);
    let size = (whole.len() + places.len()) as u64;
    let shift = shift_of(
        exponent(word),
        tens,
        places.len() as u64,
        size,
        word.len() as u64,
    );
    if shift.down > 0 {
        return cut_value(whole, places, shift.down);
    }
    let number = held_number(places, held_number(whole, 0, HELD), HELD);
    Value {
        whole: raised_number(number, shift.up),
        rest: Rest::Nothing,
    }
}
