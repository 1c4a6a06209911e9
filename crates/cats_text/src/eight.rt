//! Eight leading digits, read at once. The method is that of the toolchain's `core::dec2flt`, but its
//! `read_digits` goes on behind the eight, and that loop is a third of the instructions where a number is short.

ghost use Rattle.core.specs.Prelude.{◌≡◌, ℕ, ◌-◌, ◌*◌, ◌%◌, ◌^◌, ◌<◌, ◌≤◌, List, length, take, nat_le, IfSome};
ghost use Rattle.core.specs.Dec2flt.Digits.{IsEightDigits};
ghost use Rattle.core.specs.Float.Numeral.{digits_len};
ghost use Rattle.core.specs.Int.Digits.{number_from_digits};
ghost use Rattle.core.specs.Slice.Scan.{digits_from, flag_word, little_endian};
ghost use Rattle.core.specs.Str.Parse.{digits_value};
ghost use lib.Lanes.{number_l};

/// The first eight bytes, the first of them lowest.
#[inline(always)]
fn first_eight(bytes: &[u8]) -> u64
    requires { 8 ≤ length bytes.now }
    ensures { result ≡ little_endian bytes.now 0 }
{
    u64::from_le_bytes([
        bytes[0], bytes[1], bytes[2], bytes[3], bytes[4], bytes[5], bytes[6], bytes[7],
    ])
}

/// The high bit of each byte that is 10 or more. No sum carries into the next byte.
#[inline(always)]
fn flags_from_ten(eight: u64) -> u64
    ensures { (byte : ℕ → ℕ) → ((k : ℕ) → byte k < 256) → eight ≡ digits_from byte 0 8
        → result ≡ flag_word (λ k. nat_le 10 (byte k)) }
{
    ((eight & 0x7f7f_7f7f_7f7f_7f7f) + 0x7676_7676_7676_7676 | eight) & 0x8080_8080_8080_8080
}

/// The number that eight digits spell, the first of them in the lowest byte.
#[inline(always)]
fn value_of_eight(eight: u64) -> u64
    ensures { (ds : List ℕ) → IsEightDigits ds → eight ≡ number_l 256 ds → result ≡ number_from_digits 10 ds }
{
    let pairs = eight.wrapping_mul(10).wrapping_add(eight >> 8);
    let first = (pairs & 0x0000_00ff_0000_00ff).wrapping_mul(100 + (1_000_000 << 32));
    let second = ((pairs >> 16) & 0x0000_00ff_0000_00ff).wrapping_mul(1 + (10_000 << 32));
    first.wrapping_add(second) >> 32
}

/// The first `count` bytes moved up to the end, with zeros before them.
#[inline(always)]
fn keep_first(eight: u64, count: u32) -> u64
    requires { count < 8 }
    ensures { result ≡ eight * 256 ^ (8 - count) % 2 ^ 64 }
{
    // Two shifts, since a shift by 64 is not defined.
    eight << (56 - 8 * count) << 8
}

/// How many digits are at the start of the eight bytes, and the number that they spell; eight digits are left to others.
#[inline(always)]
pub fn few_digits(bytes: &[u8]) -> Option<(u64, usize)>
    requires { 8 ≤ length bytes.now }
    ensures few { IfSome result (λ r. r.1 < 8) }
    ensures count { IfSome result (λ r. r.1 ≡ digits_len (take 8 bytes.now)) }
    ensures value { IfSome result (λ r. r.0 ≡ digits_value 10 (take r.1 (take 8 bytes.now))) }
{
    let lanes = first_eight(bytes) ^ 0x3030_3030_3030_3030;
    let others = flags_from_ten(lanes);
    if others == 0 {
        return None;
    }
    let count = others.trailing_zeros() / 8;
    if count == 0 {
        return Some((0, 0));
    }
    Some((value_of_eight(keep_first(lanes, count)), count as usize))
}
