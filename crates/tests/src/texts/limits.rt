//! The greatest sizes, and files of many bids.

use super::{assert_bytes, assert_fault, fault, joined, sizes, written};
use cats_text::Kind;
use std::alloc::{AllocError, Global};
use std::process::Abort;
use std::test::Fail;

/// The text of as many bids as there may be, each on good 0 and a dummy of its own, with its number as its price. The
/// first has the number `first`, and from one to the next the number rises by `step`, going round at the end.
fn many_bids(alloc: Global, first: u32, step: u32) -> Result<Vec<u8>, AllocError> {
    let mut text = String::from_str(alloc, "goods 1\nbids 65536\ndummy 65536\n")?;
    for place in 0..65_536_u32 {
        let bid = first.wrapping_add(place.wrapping_mul(step)) % 65_536;
        let good = bid.saturating_add(1);
        write!(text, "{bid}\t{bid}\t0\t{good}\t#\n")?;
    }
    Ok(text.into_bytes())
}

/// Asserts that these bids are read, and written by their numbers.
fn assert_many_bids(
    rt: &impl Abort,
    alloc: Global,
    first: u32,
    step: u32,
    rising: &[u8],
) -> Result<(), Fail> {
    let text = many_bids(alloc, first, step)?;
    assert_eq!(rt; sizes(alloc, &text), Ok((1, 65_536, 65_536)));
    assert!(rt; written(alloc, &text)?.as_slice() == rising);
    let more = joined(alloc, &[&text, b"7 1 0 #\n"])?;
    assert_fault(rt, alloc, &more, fault(65_540, Kind::ExtraBid));
    Ok(())
}

#[test]
fn most_bids_in_any_order(rt: HostRuntime) -> Result<(), Fail> {
    let rising = many_bids(rt.alloc(), 0, 1)?;
    for (first, step) in [(0, 1), (65_535, 65_535), (7, 40_503)] {
        assert_many_bids(&rt, rt.alloc(), first, step, &rising)?;
    }
    let twice = many_bids(rt.alloc(), 0, 2)?;
    assert_fault(&rt, rt.alloc(), &twice, fault(32_772, Kind::RepeatedNumber));
    Ok(())
}

/// The text of a bid on all goods, falling or rising, and behind them this end.
fn all_goods(
    alloc: Global,
    separator: &str,
    falling: bool,
    end: &str,
) -> Result<Vec<u8>, AllocError> {
    let mut text = format!(in alloc; "goods 4096\nbids 1\ndummy 1\n0{separator}1")?;
    for place in 0..4_096_u32 {
        let good = if falling {
            4_095_u32.saturating_sub(place)
        } else {
            place
        };
        write!(text, "{separator}{good}")?;
    }
    text.push_str(end)?;
    Ok(text.into_bytes())
}

#[test]
fn all_goods_in_falling_order(rt: HostRuntime) -> Result<(), Fail> {
    let text = all_goods(rt.alloc(), " ", true, " 4096 #\n")?;
    let want = all_goods(rt.alloc(), "\t", false, "\t4096\t#\n")?;
    assert_bytes(&rt, &written(rt.alloc(), &text)?, &want);
    let repeated = all_goods(rt.alloc(), " ", true, " 2048 #\n")?;
    assert_fault(&rt, rt.alloc(), &repeated, fault(4, Kind::RepeatedGood));
    Ok(())
}
