//! The values of runs of digits. Each is held at a bound, or is what digits are worth behind the place where a number
//! is cut.

ghost use Rattle.std.specs.Prelude.{◌≡◌, ◌+◌, ◌-◌, ◌*◌, ◌<◌, ◌≤◌, ◌==◌, fold, min, not};
ghost use Rattle.std.specs.List.{list_any};
ghost use Rattle.cats_text.specs.Numbers.{digits_alone, is_number};
ghost use Rattle.rounding.specs.Internal.Rests.{rest_with};

/// Whether all bytes are digits.
pub fn digits_alone(word: &[u8]) -> bool
    ensures { result ≡ digits_alone word.now }
{
    for byte in word {
        if !byte.is_ascii_digit() {
            return false;
        }
    }
    true
}

/// Whether a word is one or more digits.
pub fn is_number(word: &[u8]) -> bool
    ensures { result ≡ is_number word.now }
{
    !word.is_empty() && digits_alone(word)
}

/// Whether some digit is not 0.
pub fn has_place(digits: &[u8]) -> bool
    ensures { result ≡ list_any (λ b. not (b == 48)) digits.now }
{
    for digit in digits {
        if *digit != b'0' {
            return true;
        }
    }
    false
}

/// The number that digits spell behind a number that came before them, or the bound if that is less.
pub fn held_number(digits: &[u8], start: u64, bound: u64) -> u64
    requires { start ≤ bound }
    ensures { result ≡ min bound (fold (λ n b. 10 * n + (b - 48)) start digits.now) }
{
    let mut held = start;
    for digit in digits {
        let worth = u64::from(digit.saturating_sub(b'0'));
        held = bound.min(held.saturating_mul(10).saturating_add(worth));
    }
    held
}

/// What the digits are worth that a number is cut before.
#[derive(Clone, Copy, PartialEq, Eq)]
pub enum Rest {
    /// There are none.
    Nothing,
    /// All are 0.
    Zeros,
    /// Less than half of the unit before the cut.
    BelowHalf,
    /// Exactly half of it.
    Half,
    /// More than half of it.
    AboveHalf,
}

impl Rest {
    /// With one more digit behind it.
    pub fn with(self, digit: u8) -> Rest
        ensures { result ≡ rest_with self digit }
    {
        match self {
            Rest::Nothing => first_rest(digit),
            Rest::Zeros if digit != b'0' => Rest::BelowHalf,
            Rest::Half if digit != b'0' => Rest::AboveHalf,
            rest => rest,
        }
    }
}

/// Of one digit.
fn first_rest(digit: u8) -> Rest
    ensures { result ≡ rest_with Rest.Nothing digit }
{
    match digit {
        b'0' => Rest::Zeros,
        b'5' => Rest::Half,
        0..=b'4' => Rest::BelowHalf,
        _ => Rest::AboveHalf,
    }
}

/// With more digits behind it.
pub fn rest_after(digits: &[u8], start: Rest) -> Rest
    ensures { result ≡ fold rest_with start digits.now }
{
    let mut rest = start;
    for digit in digits {
        rest = rest.with(*digit);
    }
    rest
}
