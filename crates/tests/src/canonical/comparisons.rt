//! Comparisons on worked rows. Texts have prices in units, verdicts in millionths.

use super::refusals::{expect_line, refusal_text};
use canon::normal::normal_packed_file;
use canon::{CanonFault, Verdict, Which, compare, compare_files, normal_file};
use cats_text::packed::read_packed;
use cats_text::read;
use std::alloc::Global;
use std::test::Fail;
use valuation::search::SearchOptions;

const TWICE: &str =
    "goods 2\nbids 4\ndummy 2\n0\t1\t0\t2\t#\n1\t2\t0\t1\t2\t#\n2\t1\t0\t3\t#\n3\t2\t0\t1\t3\t#\n";

const ONCE: &str = "goods 2\nbids 2\ndummy 1\n0\t1\t0\t2\t#\n1\t2\t0\t1\t2\t#\n";

const SINGLES: &str = "goods 2\nbids 2\ndummy 0\n0\t3\t0\t#\n1\t4\t1\t#\n";

const SINGLES_OF_XOR: &str = "goods 2\nbids 2\ndummy 1\n0\t3\t0\t2\t#\n1\t4\t1\t2\t#\n";

const PAIR_AT_7: &str = "goods 2\nbids 3\ndummy 0\n0\t3\t0\t#\n1\t4\t1\t#\n2\t7\t0\t1\t#\n";

const PAIR_AT_8: &str = "goods 2\nbids 3\ndummy 0\n0\t3\t0\t#\n1\t4\t1\t#\n2\t8\t0\t1\t#\n";

const ONE_EACH: &str = "goods 2\nbids 2\ndummy 0\n0\t1\t0\t#\n1\t1\t1\t#\n";

const ONE_AND_PAIR: &str = "goods 2\nbids 2\ndummy 0\n0\t1\t0\t#\n1\t9\t0\t1\t#\n";

/// One bidder: 1 for the good 0.
const ONE: &str = "goods 2\nbids 1\ndummy 1\n0\t1\t0\t2\t#\n";

/// The same bidder, and one that bids 2 for the good 1.
const ONE_OTHER: &str = "goods 2\nbids 2\ndummy 2\n0\t1\t0\t2\t#\n1\t2\t1\t3\t#\n";

const ONE_ONE_OTHER: &str =
    "goods 2\nbids 3\ndummy 3\n0\t1\t0\t2\t#\n1\t1\t0\t3\t#\n2\t2\t1\t4\t#\n";

const ONE_OTHER_OTHER: &str =
    "goods 2\nbids 3\ndummy 3\n0\t1\t0\t2\t#\n1\t2\t1\t3\t#\n2\t2\t1\t4\t#\n";

/// Pairs of texts, and their first difference.
static ROWS: &[(&str, &str, &str)] = rows! {
    (TWICE, TWICE, "Same"),
    (TWICE, ONCE, "Xor { bidder: [([0], 1000000), ([0, 1], 2000000)], left: 2, right: 1 }"),
    (SINGLES, SINGLES_OF_XOR, "Or { bundle: [0], left: Exactly(3000000), right: Below(3000000) }"),
    (SINGLES_OF_XOR, SINGLES, "Or { bundle: [0], left: Below(3000000), right: Exactly(3000000) }"),
    (PAIR_AT_7, SINGLES, "Same"),
    (PAIR_AT_8, SINGLES, "Or { bundle: [0, 1], left: Exactly(8000000), right: Below(8000000) }"),
    (ONE_EACH, ONE_AND_PAIR, "Or { bundle: [1], left: Exactly(1000000), right: Below(1000000) }"),
    ("goods 1\nbids 1\ndummy 0\n0\t0.5\t0\t#\n", "goods 1\nbids 1\ndummy 0\n0\t0.500000\t0\t#\n", "Same"),
    (ONCE, "goods 3\nbids 0\ndummy 0\n", "Goods(2, 3)"),
    (ONE_OTHER, ONE_OTHER, "Same"),
    (ONE_ONE_OTHER, ONE_OTHER_OTHER, "Xor { bidder: [([0], 1000000)], left: 2, right: 1 }"),
    (ONE, ONE_OTHER_OTHER, "Xor { bidder: [([1], 2000000)], left: 0, right: 2 }"),
    (ONE_OTHER, ONE, "Xor { bidder: [([1], 2000000)], left: 1, right: 0 }"),
};

/// What comparing answered, as a line: the verdict, or which of the texts is refused, and why.
fn printed(alloc: Global, answer: Result<Verdict, (Which, CanonFault)>) -> Result<String, Fail> {
    match answer {
        Ok(verdict) => Ok(format!(in alloc; "{verdict:?}")?),
        Err((which, fault)) => {
            let why = refusal_text(alloc, fault)?;
            Ok(format!(in alloc; "{which:?} {why}")?)
        }
    }
}

/// The first difference of the canonical files of two texts.
fn difference(alloc: Global, left: &str, right: &str) -> Result<Verdict, Fail> {
    let one = normal_file(alloc, &read(alloc, left.as_bytes())?, 100)?;
    let other = normal_file(alloc, &read(alloc, right.as_bytes())?, 100)?;
    Ok(compare_files(alloc, &one, &other)?)
}

/// The same of packed files.
fn packed_difference(alloc: Global, left: &str, right: &str) -> Result<Verdict, Fail> {
    let options = SearchOptions::plain(100);
    let one = normal_packed_file(alloc, read_packed(alloc, left.as_bytes())?, options)?;
    let other = normal_packed_file(alloc, read_packed(alloc, right.as_bytes())?, options)?;
    Ok(compare_files(alloc, &one, &other)?)
}

#[test]
fn texts_and_canonical_files_differ(rt: HostRuntime) -> Result<(), Fail> {
    let alloc = rt.alloc();
    for (left, right, expected) in ROWS {
        let answer = compare(alloc, left.as_bytes(), right.as_bytes(), 100);
        expect_line(&rt, &printed(alloc, answer)?, expected);
        let verdict = difference(alloc, left, right)?;
        expect_line(&rt, &printed(alloc, Ok(verdict))?, expected);
        let verdict = packed_difference(alloc, left, right)?;
        expect_line(&rt, &printed(alloc, Ok(verdict))?, expected);
    }
    Ok(())
}

const FAULT: &str = "goods 2\n";

const FEW: &str = "goods 1024\nbids 3\ndummy 0\n0\t3\t0\t#\n1\t4\t1\t#\n2\t7\t0\t1\t#\n";

/// Pairs of texts, the steps that a search may take, and what is printed. Two are too few for texts with a pair.
static REFUSALS: &[(&str, &str, u64, &str)] = rows! {
    (FAULT, "goods x\n", 2, "First line 2: Missing"),
    (FAULT, PAIR_AT_7, 2, "First line 2: Missing"),
    (FAULT, SINGLES, 2, "First line 2: Missing"),
    (PAIR_AT_7, FAULT, 2, "First steps [0, 1]"),
    (PAIR_AT_7, PAIR_AT_8, 2, "First steps [0, 1]"),
    (PAIR_AT_7, SINGLES, 2, "First steps [0, 1]"),
    (SINGLES, FAULT, 2, "Second line 2: Missing"),
    (SINGLES, PAIR_AT_7, 2, "Second steps [0, 1]"),
    (SINGLES, SINGLES, 2, "Same"),
    // goods that differ are printed only of files that both have a canonical file
    (FEW, "goods 4096\nbids 0\ndummy 0\n", 2, "First steps [0, 1]"),
    (FEW, "goods 4096\nbids 0\ndummy 0\n", 3, "Goods(1024, 4096)"),
};

#[test]
fn the_first_refusal_is_reported(rt: HostRuntime) -> Result<(), Fail> {
    for (left, right, limit, expected) in REFUSALS {
        let answer = compare(rt.alloc(), left.as_bytes(), right.as_bytes(), *limit);
        expect_line(&rt, &printed(rt.alloc(), answer)?, expected);
    }
    Ok(())
}
