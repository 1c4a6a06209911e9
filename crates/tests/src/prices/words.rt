//! Words in place of a price.

use crate::prices::{ROUNDED, multiplied};
use rounding::replacement::Replacement::{Exact, Itself, Rounded, TooFine, TooLarge};
use rounding::replacement::{FinePrices, PriceRule, Replacement, replacement_of};
use std::alloc::{AllocError, Global};
use std::process::Abort;
use std::test::Fail;

/// Powers of ten, words that are multiplied by them, and their replacements if fine prices are rounded and if they are
/// refused.
static WORDS: &[(u8, &[u8], Replacement, Replacement)] = rows! {
    (0, b"1e6", Exact(1_000_000_000_000), Exact(1_000_000_000_000)),
    (0, b"1.02345e+06", Exact(1_023_450_000_000), Exact(1_023_450_000_000)),
    (0, b"1E-3", Exact(1_000), Exact(1_000)),
    (0, b".5", Exact(500_000), Exact(500_000)),
    (0, b"5.", Exact(5_000_000), Exact(5_000_000)),
    (0, b"0.0123456", Rounded(12_346), TooFine),
    (0, b"0.00000049", Rounded(0), TooFine),
    (0, b"0.0000005", Rounded(0), TooFine),
    (0, b"0.0000015", Rounded(2), TooFine),
    (0, b"0.00000250000", Rounded(2), TooFine),
    (0, b"0.00000250001", Rounded(3), TooFine),
    (0, b"1e-7", Rounded(0), TooFine),
    (0, b"0e999999999", Exact(0), Exact(0)),
    (0, b"0e-999999999", Exact(0), Exact(0)),
    (0, b"1e13", TooLarge, TooLarge),
    (0, b"1e12", Exact(1_000_000_000_000_000_000), Exact(1_000_000_000_000_000_000)),
    (0, b"1000000000000.0000001", Rounded(1_000_000_000_000_000_000), TooLarge),
    (0, b"1000000000000.0000005", Rounded(1_000_000_000_000_000_000), TooLarge),
    (0, b"1000000000000.0000006", TooLarge, TooLarge),
    (0, b"1e999999999", TooLarge, TooLarge),
    (0, b"1e-99999999999999999999999999", Rounded(0), TooFine),
    (0, b"1e99999999999999999999999999", TooLarge, TooLarge),
    (0, b"1,5", Itself, Itself),
    (0, b"-1", Itself, Itself),
    (0, b"", Itself, Itself),
    (0, b"1e", Itself, Itself),
    (0, b"007.5", Itself, Itself),
    (6, b"0.0000031", Exact(3_100_000), Exact(3_100_000)),
    (6, b"3.14159e-05", Exact(31_415_900), Exact(31_415_900)),
    (6, b"5e-13", Rounded(0), TooFine),
    (6, b"15e-13", Rounded(2), TooFine),
    (6, b"1000000", Exact(1_000_000_000_000_000_000), Exact(1_000_000_000_000_000_000)),
    (6, b"1000000.000000000000499", Rounded(1_000_000_000_000_000_000), TooLarge),
    (6, b"1000001", TooLarge, TooLarge),
    (6, b"1,5", Itself, Itself),
    (12, b"1e-18", Exact(1), Exact(1)),
    (12, b"1.000001", TooLarge, TooLarge),
    (1, b"007.50", Exact(75_000_000), Exact(75_000_000)),
    (1, b"0", Exact(0), Exact(0)),
    (255, b"1e-243", Exact(1_000_000_000_000_000_000), Exact(1_000_000_000_000_000_000)),
    (255, b"5e-262", Rounded(0), TooFine),
    (255, b"1e-99999999999999999999999999", Rounded(0), TooFine),
};

/// Asserts what is in the place of a word.
fn assert_replacement(rt: &impl Abort, word: &[u8], rule: PriceRule, want: Replacement) {
    assert_eq!(rt; replacement_of(word, rule), want, "of {word:?}");
}

#[test]
fn words_and_replacements(rt: HostRuntime) {
    for (tens, word, rounded, refused) in WORDS {
        assert_replacement(&rt, word, multiplied(FinePrices::Round, *tens), *rounded);
        assert_replacement(&rt, word, multiplied(FinePrices::Refuse, *tens), *refused);
    }
}

/// A word of a one, a million zeros, and an exponent.
fn long_word(alloc: Global, exponent: &[u8]) -> Result<Vec<u8>, AllocError> {
    let mut word = Vec::from_slice(alloc, b"1")?;
    word.extend_from_slice(&vec![in alloc; b'0'; 1_000_000]?)?;
    word.extend_from_slice(exponent)?;
    Ok(word)
}

/// What such a word is followed by, and its replacement.
static EXPONENTS: &[(&[u8], Replacement)] = rows! {
    (b"e-1000000", Exact(1_000_000)), (b"1e-1000000", Rounded(10_000_000)), (b"5e-1000007", Rounded(1)), (b"", TooLarge),
};

#[test]
fn long_words(rt: HostRuntime) -> Result<(), Fail> {
    for (exponent, replacement) in EXPONENTS {
        let word = long_word(rt.alloc(), exponent)?;
        let found = replacement_of(&word, ROUNDED);
        assert_eq!(rt; found, *replacement, "of {exponent:?}");
    }
    Ok(())
}
