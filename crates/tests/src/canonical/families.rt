//! A family of small auctions, with numbers that a program in another language counted by tables of values alone.

use crate::bidders::bids::AMPLE;
use canon::{AuctionIndex, Verdict, compare, normalise};
use cats_text::packed::read_packed;
use std::alloc::{AllocError, Global};
use std::process::Abort;
use std::test::Fail;
use valuation::search::SearchOptions;

/// The next of a fixed sequence of numbers that look random, from 0 to `most`.
fn up_to(state: &mut u64, most: u64) -> u64 {
    *state = state
        .wrapping_mul(6_364_136_223_846_793_005)
        .wrapping_add(1_442_695_040_888_963_407);
    (*state >> 33) % most.saturating_add(1).max(1)
}

/// The next auction, as a text: up to 2 goods, up to 4 bids at prices up to 2, each on some goods and with a dummy good or
/// none, of up to 2.
fn next_text(alloc: Global, state: &mut u64) -> Result<String, AllocError> {
    let goods = up_to(state, 1).saturating_add(1);
    let bids = up_to(state, 4);
    let dummies = up_to(state, 2);
    let mut text = format!(in alloc; "goods {goods}\nbids {bids}\ndummy {dummies}\n")?;
    for number in 0..bids {
        let price = up_to(state, 2);
        write!(text, "{number}\t{price}")?;
        push_goods(&mut text, state, goods, dummies)?;
        text.push_str("\t#\n")?;
    }
    Ok(text)
}

/// Some of the goods, at least one, and a dummy good or none.
fn push_goods(
    text: &mut String,
    state: &mut u64,
    goods: u64,
    dummies: u64,
) -> Result<(), AllocError> {
    let surely = up_to(state, goods.saturating_sub(1));
    for good in 0..goods {
        if good == surely || up_to(state, 1) == 0 {
            write!(text, "\t{good}")?;
        }
    }
    let dummy = up_to(state, dummies);
    if dummy < dummies {
        write!(text, "\t{}", goods.saturating_add(dummy))?;
    }
    Ok(())
}

/// The first texts of the family.
fn first_texts(alloc: Global, count: usize) -> Result<Vec<String>, AllocError> {
    let mut state = 2;
    let mut texts = Vec::new(alloc);
    for _ in 0..count {
        texts.push(next_text(alloc, &mut state)?)?;
    }
    Ok(texts)
}

/// How many pairs of the first 1,000 are the same auction.
const EQUAL_PAIRS: usize = 68_380;

/// As many pairs have equal canonical texts, each of which stays itself. Files that are added one by one have the number of
/// the first of their auction.
#[test]
fn pairs_of_the_same_auction(rt: HostRuntime) -> Result<(), Fail> {
    let alloc = rt.alloc();
    let mut canonical: Vec<Vec<u8>> = Vec::new(alloc);
    let mut index = AuctionIndex::new(alloc);
    let mut equal: usize = 0;
    for text in &first_texts(alloc, 1_000)? {
        let own = normalise(alloc, text.as_bytes(), AMPLE)?;
        assert!(rt; normalise(alloc, &own, AMPLE)? == own, "of {text}");
        let before = canonical.iter().filter(|other| **other == own).count();
        equal = equal
            .saturating_add(before.saturating_mul(2))
            .saturating_add(1);
        let first = canonical.iter().position(|other| *other == own);
        let file = read_packed(alloc, text.as_bytes())?;
        let number = index.add(alloc, &file, SearchOptions::plain(AMPLE))?;
        assert_eq!(rt; number, first.unwrap_or(canonical.len()), "of {text}");
        canonical.push(own)?;
    }
    assert_eq!(rt; equal, EQUAL_PAIRS);
    Ok(())
}

/// How many pairs of the first 300 differ first on a bundle of the OR bidder, and how many in an XOR bidder.
const UNEQUAL_BUNDLES: u64 = 30_488;

const UNEQUAL_BIDDERS: u64 = 9_024;

#[test]
fn pairs_that_differ(rt: HostRuntime) -> Result<(), Fail> {
    let texts = first_texts(rt.alloc(), 300)?;
    let mut bundles: u64 = 0;
    let mut bidders: u64 = 0;
    for left in &texts {
        for right in &texts {
            match compare(rt.alloc(), left.as_bytes(), right.as_bytes(), AMPLE) {
                Ok(Verdict::Or { .. }) => bundles = bundles.saturating_add(1),
                Ok(Verdict::Xor { .. }) => bidders = bidders.saturating_add(1),
                Ok(Verdict::Same | Verdict::Goods(..)) => {}
                Err(_) => panic!(rt; "of {left} and {right}"),
            }
        }
    }
    assert_eq!(rt; (bundles, bidders), (UNEQUAL_BUNDLES, UNEQUAL_BIDDERS));
    Ok(())
}
