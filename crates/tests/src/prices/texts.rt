//! Whole texts.

use crate::prices::{REFUSED, ROUNDED, multiplied};
use cats_text::Kind::TooFine;
use cats_text::ReadFault;
use rounding::layout::{Mend, MendedLine};
use rounding::mend::{line_in_file, mend};
use rounding::replacement::FinePrices;
use rounding::rounder::Rounder;
use rounding::text::{RoundedText, round, round_prices};
use std::process::Abort;
use std::test::Fail;

/// Asserts what a text became, and the line, the price and the word of its one price that was rounded.
fn assert_rounded(
    rt: &impl Abort,
    rounded: &RoundedText,
    text: &[u8],
    line: u64,
    (price, word): (u64, &[u8]),
) {
    assert!(rt; rounded.text.as_slice() == text);
    assert_eq!(rt; rounded.prices.len(), 1);
    let one = &rounded.prices[0];
    assert_eq!(rt;
        (one.line, one.price, one.word.as_slice()),
        (line, price, word)
    );
}

/// A text with CR and LF, comments, tabs, and no LF at its end, and what it becomes.
static TEXT: &[u8] =
    b"% 0 1e3\r\ngoods 2\nbids 3 \ndummy\t0\r\n\n\t1 \t1E-3\t0 #\r\n2 1.50 1 #\n% 0 1e3\n0 0.0123456  1 #";

static WANT: &[u8] =
    b"% 0 1e3\r\ngoods 2\nbids 3 \ndummy\t0\r\n\n\t1 \t0.001\t0 #\r\n2 1.50 1 #\n% 0 1e3\n0 0.012346  1 #";

#[test]
fn prices_of_a_text(rt: HostRuntime) -> Result<(), Fail> {
    let rounded = round(rt.alloc(), TEXT, ROUNDED)?;
    assert_rounded(&rt, &rounded, WANT, 9, (12_346, b"0.0123456"));
    let (line, kind) = (9, TooFine);
    let refused = round(rt.alloc(), TEXT, REFUSED).err();
    assert_eq!(rt; refused, Some(ReadFault { line, kind }));
    Ok(())
}

#[test]
fn prices_of_a_text_in_pieces(rt: HostRuntime) -> Result<(), Fail> {
    let mut rounder = Rounder::new(rt.alloc(), ROUNDED);
    let mut rounded = RoundedText::new(rt.alloc());
    rounder.push(
        rt.alloc(),
        b"goods 2\nbids 2\ndummy 0\n0 0.00",
        &mut rounded,
    )?;
    assert!(rt; rounded.text.as_slice() == b"goods 2\nbids 2\ndummy 0\n".as_slice());
    rounded.clear();
    rounder.push(rt.alloc(), b"00015 1 #\n", &mut rounded)?;
    rounder.push(rt.alloc(), b"1 2e0 0 #\r", &mut rounded)?;
    rounder.finish(rt.alloc(), &mut rounded)?;
    assert_rounded(
        &rt,
        &rounded,
        b"0 0.000002 1 #\n1 2 0 #\r",
        4,
        (2, b"0.0000015"),
    );
    Ok(())
}

/// A text that is no bid file, and what it becomes.
static NO_FILE: &[u8] = b"goods 2\nbids 1\ndummy 0\n0 1e-7 9 #\n1 2.5e0 x";

static WITH_PRICES: &[u8] = b"goods 2\nbids 1\ndummy 0\n0 0 9 #\n1 2.5 x";

#[test]
fn prices_of_any_text(rt: HostRuntime) -> Result<(), Fail> {
    let rounded = round_prices(rt.alloc(), NO_FILE, ROUNDED)?;
    assert_rounded(&rt, &rounded, WITH_PRICES, 4, (0, b"1e-7"));
    Ok(())
}

/// A text with prices of a few millionths, and what a million times each of them gives.
static SMALL: &[u8] =
    b"goods 2\nbids 3\ndummy 0\n0 2e-06 0 #\n1\t0.0000031 1 #\n2 1.0000000000006 0 1 #\n";

static MILLIONS: &[u8] = b"goods 2\nbids 3\ndummy 0\n0 2 0 #\n1\t3.1 1 #\n2 1000000.000001 0 1 #\n";

#[test]
fn a_million_times_the_prices(rt: HostRuntime) -> Result<(), Fail> {
    let rounded = round_prices(rt.alloc(), SMALL, multiplied(FinePrices::Round, 6))?;
    let word = b"1.0000000000006";
    assert_rounded(&rt, &rounded, MILLIONS, 6, (1_000_000_000_001, word));
    Ok(())
}

/// A text in the layout of another publisher, what it becomes, and its mends.
static OTHER: &[u8] =
    b"# one\n\tGoods:\t2\r\nBids 2\n0 1e0 0 # a # 7\n\t#\n1 2 1\t#\tb\r\n2 3 0 # 4 #";

static MENDED: &[u8] =
    b"% one\n\tgoods\t2\r\nbids 2\ndummy 0\n0 1e0 0 #\n\t%\n1 2 1\t#\n2 3 0 # 4 #";

static MENDS: &[MendedLine] = &[
    MendedLine {
        line: 1,
        mend: Mend::Comment,
    },
    MendedLine {
        line: 2,
        mend: Mend::Keyword,
    },
    MendedLine {
        line: 3,
        mend: Mend::Keyword,
    },
    MendedLine {
        line: 4,
        mend: Mend::Dummy,
    },
    MendedLine {
        line: 4,
        mend: Mend::Remark,
    },
    MendedLine {
        line: 5,
        mend: Mend::Comment,
    },
    MendedLine {
        line: 6,
        mend: Mend::Remark,
    },
];

#[test]
fn a_layout_of_another_publisher(rt: HostRuntime) -> Result<(), Fail> {
    let mended = mend(rt.alloc(), Vec::from_slice(rt.alloc(), OTHER)?)?;
    assert!(rt; mended.text.as_slice() == MENDED);
    assert!(rt; mended.mends.as_slice() == MENDS);
    assert_eq!(rt; line_in_file(mended.mends.as_slice(), 4), 4);
    assert_eq!(rt; line_in_file(mended.mends.as_slice(), 8), 7);
    let again = mend(rt.alloc(), mended.text)?;
    assert!(rt; again.mends.is_empty() && again.text.as_slice() == MENDED);
    Ok(())
}
