//! Prices: read as decimals, kept in millionths, and written.

ghost use Rattle.std.specs.Prelude.{◌≡◌, ◌+◌, ◌++◌, ◌<◌, ◌≤◌, length, drop, OnOk, decimal};
ghost use Rattle.cats_text.specs.Layout.{price_text, places_text, without_zeros};
ghost use Rattle.cats_text.specs.declared.price.TheConstants.{MILLION, PRICE_SIZE, BEHIND};
ghost use Rattle.cats_text.specs.Internal.Machine.{place_value_of};
ghost use Rattle.cats_text.specs.Internal.Parsing.{price_parts};

use crate::read_fault::Kind;
use bid_file::limits::MAX_PRICE;
use itoa::{Buffer, write_digits};
use std::alloc::AllocError;

/// Millionths in a whole unit.
const MILLION: u64 = 1_000_000;

/// Digits, a point, and perhaps digits.
#[derive(Clone, Copy, PartialEq, Eq)]
pub(crate) struct Decimal {
    /// The digits before the point, held like any number.
    pub whole: u64,
    /// The first six digits behind it, in millionths.
    pub millionths: u64,
    /// How many of those six have come.
    pub decimals: u8,
    /// Whether a digit behind them is not 0.
    pub fine: bool,
}

/// What a decimal counts, in millionths, with so many before it behind the point.
fn place_value(decimals: u8) -> u64
    ensures value { result ≡ place_value_of decimals }
    ensures bound { result ≤ 100000 }
{
    match decimals {
        0 => 100_000,
        1 => 10_000,
        2 => 1_000,
        3 => 100,
        4 => 10,
        5 => 1,
        _ => 0,
    }
}

impl Decimal {
    ghost use Rattle.cats_text.specs.Internal.Machine.{decimal_with};

    /// The decimal with one more digit.
    pub(crate) fn with(self, digit: u8) -> Decimal
        requires { digit ≤ 9 }
        ensures { result ≡ decimal_with self digit }
    {
        if self.decimals < 6 {
            // Never saturates: the digits so far are less than one unit, which the type does not say.
            let more = u64::from(digit) * place_value(self.decimals);
            Decimal {
                millionths: self.millionths.saturating_add(more),
                decimals: self.decimals + 1,
                ..self
            }
        } else {
            Decimal {
                fine: self.fine || digit != 0,
                ..self
            }
        }
    }
}

/// A price of so many whole units and millionths, and perhaps finer places.
pub(crate) fn price_of(whole: u64, millionths: u64, fine: bool) -> Result<u64, Kind>
    ensures { result ≡ price_parts whole millionths fine }
{
    let greatest = MAX_PRICE / MILLION;
    if whole > greatest || (whole == greatest && (fine || millionths > 0)) {
        return Err(Kind::TooLarge);
    }
    if fine {
        return Err(Kind::TooFine);
    }
    // Never saturates: the millionths that are read are less than one unit, which their type does not say.
    Ok((whole * MILLION).saturating_add(millionths))
}

/// The bytes that the text of a price of 64 bits has at most.
pub const PRICE_SIZE: usize = 27;

/// Those that its point and the digits behind it have.
const BEHIND: usize = 7;

/// Appends a price, given in millionths: its whole part, then, if millionths are left, a point and their digits
/// without zeros at the end. If memory is refused, some of it may be there.
pub fn push_price(out: &mut Vec<u8>, millionths: u128) -> Result<(), AllocError>
    ensures { OnOk result (out.new.items ≡ out.old.items ++ price_text millionths) }
{
    let million = u128::from(MILLION);
    let mut whole = Buffer::new();
    out.extend_from_slice(whole.format(millionths / million).as_bytes())?;
    let mut text = [0; BEHIND];
    let start = write_places((millionths % million) as u64, &mut text, BEHIND);
    out.extend_from_slice(&text[start..])
}

/// Writes a price, given in millionths, so that its text ends at `end`, and returns where it starts.
#[inline(always)]
pub fn write_price(millionths: u64, text: &mut [u8], end: usize) -> usize
    requires space { PRICE_SIZE ≤ end }
    requires inside { end ≤ length text.old }
    ensures start { (result < end) × (end ≤ result + PRICE_SIZE) }
    ensures written { drop result text.new ≡ price_text millionths ++ drop end text.old }
{
    let point = write_places(millionths % MILLION, text, end);
    write_digits(millionths / MILLION, text, point)
}

/// The point and the digits behind it, if there are any.
fn write_places(millionths: u64, text: &mut [u8], end: usize) -> usize
    requires places { millionths < MILLION }
    requires space { BEHIND ≤ end }
    requires inside { end ≤ length text.old }
    ensures start { (result ≤ end) × (end ≤ result + BEHIND) }
    ensures written { drop result text.new ≡ places_text millionths ++ drop end text.old }
{
    if millionths == 0 {
        return end;
    }
    let point = write_digits(without_zeros(MILLION + millionths), text, end);
    text[point] = b'.';
    point
}

/// The number whose digits are those of this one without the zeros at their end.
fn without_zeros(number: u64) -> u64
    requires { 0 < number }
    ensures digits { decimal result ≡ without_zeros (decimal number) }
    ensures size { (0 < result) × (result ≤ number) }
{
    let mut left = number;
    while left % 10 == 0 {
        left /= 10;
    }
    left
}
