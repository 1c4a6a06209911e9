//! Files that are added one by one.

use super::refusals::refusal_text;
use canon::{AuctionIndex, CanonFault};
use cats_text::Watched;
use cats_text::packed::read_packed;
use std::process::Abort;
use std::test::Fail;
use valuation::search::SearchOptions;

/// Texts that are added in this order, the steps that a search may take, and what is printed: a number, or why there is
/// none.
static ROWS: &[(&str, u64, &str)] = rows! {
    ("goods 2\nbids 3\ndummy 0\n0\t3\t0\t#\n1\t4\t1\t#\n2\t7\t0\t1\t#\n", 3, "0"),
    ("goods 2\n", 3, "line 2: Missing"),
    ("goods 2\nbids 0\ndummy 0\n", 3, "1"),
    ("goods 2\nbids 3\ndummy 0\n0\t3\t0\t#\n1\t4\t1\t#\n2\t7\t0\t1\t#\n", 2, "steps [0, 1]"),
    // other bids, the same values
    ("goods 2\nbids 2\ndummy 0\n0\t4\t1\t#\n1\t3\t0\t#\n", 3, "0"),
    ("% no bids\ngoods 2\nbids 0\ndummy 5\n", 3, "1"),
    // equal and unequal bidders, and other dummy goods
    ("goods 2\nbids 3\ndummy 2\n0\t1\t0\t2\t#\n1\t1\t0\t3\t#\n2\t2\t1\t3\t#\n", 3, "4"),
    ("goods 2\nbids 3\ndummy 3\n0\t2\t1\t2\t#\n1\t1\t0\t2\t#\n2\t1\t0\t4\t#\n", 3, "4"),
    ("goods 2\nbids 2\ndummy 2\n0\t1\t0\t2\t#\n1\t1\t0\t3\t#\n", 3, "6"),
    // one price, one good and the number of goods changed
    ("goods 2\nbids 2\ndummy 0\n0\t4\t1\t#\n1\t3.5\t0\t#\n", 3, "7"),
    ("goods 2\nbids 2\ndummy 0\n0\t4\t1\t#\n1\t3\t0\t1\t#\n", 3, "8"),
    ("goods 3\nbids 2\ndummy 0\n0\t4\t1\t#\n1\t3\t0\t#\n", 3, "9"),
    ("goods 2\nbids 0\ndummy 1\n", 3, "1"),
    ("goods 2\nbids 2\ndummy 0\n1\t4.0\t1\t#\n0\t3\t0\t#\n", 3, "0"),
};

/// Texts that are added in this order by what needs no search, and the numbers that are printed.
static UNSEARCHED: &[(&str, &str)] = rows! {
    ("goods 2\nbids 3\ndummy 0\n0\t3\t0\t#\n1\t4\t1\t#\n2\t7\t0\t1\t#\n", "0"),
    // another order, and a bid that a single one replaces
    ("goods 2\nbids 4\ndummy 0\n0\t7\t0\t1\t#\n1\t4\t1\t#\n2\t3\t0\t#\n3\t2\t1\t#\n", "0"),
    // the same auction, by a search alone
    ("goods 2\nbids 2\ndummy 0\n0\t4\t1\t#\n1\t3\t0\t#\n", "2"),
    // bidders with their dummy goods exchanged, and one changed
    ("goods 2\nbids 2\ndummy 2\n0\t1\t0\t2\t#\n1\t2\t1\t3\t#\n", "3"),
    ("goods 2\nbids 2\ndummy 2\n0\t2\t1\t2\t#\n1\t1\t0\t3\t#\n", "3"),
    ("goods 2\nbids 2\ndummy 2\n0\t2\t1\t2\t#\n1\t2\t0\t3\t#\n", "5"),
    // the number of goods changed
    ("goods 3\nbids 2\ndummy 0\n0\t4\t1\t#\n1\t3\t0\t#\n", "6"),
    ("goods 2\n", "line 2: Missing"),
};

/// What was printed of a text: the number of its file, or why there is none.
fn expect_number(
    rt: &(impl Abort + AllocGlobal),
    answer: Result<usize, CanonFault>,
    expected: &str,
    text: &str,
) -> Result<(), Fail> {
    let line = match answer {
        Ok(number) => format!(in rt.alloc(); "{number}")?,
        Err(fault) => refusal_text(rt.alloc(), fault)?,
    };
    assert_eq!(rt; line.as_str(), expected, "of {text:?}");
    Ok(())
}

/// By files, and by streams.
#[test]
fn numbers_of_files(rt: HostRuntime) -> Result<(), Fail> {
    let mut of_files = AuctionIndex::new(rt.alloc());
    let mut of_streams = AuctionIndex::new(rt.alloc());
    for (text, limit, expected) in ROWS {
        let options = SearchOptions::plain(*limit);
        let answer = match read_packed(rt.alloc(), text.as_bytes()) {
            Ok(file) => of_files.add(rt.alloc(), &file, options),
            Err(fault) => Err(CanonFault::from(fault)),
        };
        expect_number(&rt, answer, expected, text)?;
        let mut input = Watched::new(text.as_bytes());
        let answer = of_streams.add_from(rt.alloc(), &mut input, options);
        expect_number(&rt, answer, expected, text)?;
    }
    Ok(())
}

#[test]
fn numbers_without_search(rt: HostRuntime) -> Result<(), Fail> {
    let mut index = AuctionIndex::new(rt.alloc());
    for (text, expected) in UNSEARCHED {
        let answer = match read_packed(rt.alloc(), text.as_bytes()) {
            Ok(file) => Ok(index.add_unsearched(rt.alloc(), &file)?),
            Err(fault) => Err(CanonFault::from(fault)),
        };
        expect_number(&rt, answer, expected, text)?;
    }
    Ok(())
}
