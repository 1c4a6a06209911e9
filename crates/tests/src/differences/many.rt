//! Many bidders, so that some bundles are rare among them and others common.

use super::{expect, push_bid_line};
use std::alloc::{AllocError, Global};
use std::test::Fail;

/// A good above those on which all bid alike.
const GOODS: usize = 401;

/// A bid that each bidder has: its price, and the numbers of which the good is made. Bidder b bids on `first + b / by % of`.
type Bid = (u64, usize, usize, usize);

/// `of`, if each bidder has a good of its own.
const OWN: usize = 1_000;

/// The text of so many XOR bidders with these bids each.
fn text_of(alloc: Global, bidders: usize, bids: &[Bid]) -> Result<String, AllocError> {
    let count = bids.len().saturating_mul(bidders);
    let mut text = format!(in alloc; "goods {GOODS}\nbids {count}\ndummy {bidders}\n")?;
    for number in 0..count {
        let bidder = number / bids.len().max(1);
        if let Some((price, first, by, of)) = bids.get(number % bids.len().max(1)) {
            let good = first.saturating_add(bidder / (*by).max(1) % (*of).max(1));
            let dummy = GOODS.saturating_add(bidder);
            let bid = format!(in alloc; "{price} {good} {dummy}")?;
            push_bid_line(alloc, number, &bid, &mut text)?;
        }
    }
    Ok(text)
}

/// Each bidder is beside the one that has its rare bundle too, and not beside the first that has the common one.
#[test]
fn rare_and_common_bids(rt: HostRuntime) -> Result<(), Fail> {
    let alloc = rt.alloc();
    let left = text_of(
        alloc,
        200,
        &[(1, 0, 1, OWN), (2, 200, 1, OWN), (4, 400, 1, 1)],
    )?;
    let right = text_of(
        alloc,
        200,
        &[(1, 0, 1, OWN), (3, 200, 1, OWN), (4, 400, 1, 1)],
    )?;
    let mut lines = String::new(alloc);
    for bidder in 0u32..200 {
        let good = bidder + 200;
        write!(
            lines,
            "bidder Some({bidder}) Some({bidder})\n[{good}] Some(2000000) Some(3000000)\n"
        )?;
    }
    expect(&rt, &left, &right, &lines)
}

/// Two right bidders have the rarest bundle of each left one: the first of them is its partner.
#[test]
fn first_of_two_partners(rt: HostRuntime) -> Result<(), Fail> {
    let alloc = rt.alloc();
    let left = text_of(alloc, 100, &[(3, 200, 1, OWN), (1, 300, 1, OWN)])?;
    let right = text_of(alloc, 200, &[(3, 200, 2, OWN), (1, 0, 1, OWN)])?;
    let mut lines = String::new(alloc);
    let mut others = String::new(alloc);
    for bidder in 0u32..100 {
        let (partner, other) = (2 * bidder, 2 * bidder + 1);
        let (shared, own) = (200 + bidder, 300 + bidder);
        write!(lines, "bidder Some({bidder}) Some({partner})\n")?;
        write!(
            lines,
            "[{partner}] None Some(1000000)\n[{own}] Some(1000000) None\n"
        )?;
        write!(others, "bidder None Some({other})\n")?;
        write!(
            others,
            "[{other}] None Some(1000000)\n[{shared}] None Some(3000000)\n"
        )?;
    }
    lines.push_str(&others)?;
    expect(&rt, &left, &right, &lines)
}

/// The two common bundles are as rare: of those on the first one the first that waits is the partner, also behind many that
/// do not.
#[test]
fn first_of_many_partners(rt: HostRuntime) -> Result<(), Fail> {
    let alloc = rt.alloc();
    let left = text_of(
        alloc,
        100,
        &[(3, 200, 1, 1), (3, 201, 1, 1), (1, 300, 1, OWN)],
    )?;
    let right = text_of(alloc, 200, &[(3, 200, 1, 2), (1, 0, 1, OWN)])?;
    let mut lines = String::new(alloc);
    let mut others = String::new(alloc);
    for bidder in 0u32..100 {
        let (partner, other, own) = (2 * bidder, 2 * bidder + 1, 300 + bidder);
        write!(
            lines,
            "bidder Some({bidder}) Some({partner})\n[{partner}] None Some(1000000)\n"
        )?;
        write!(
            lines,
            "[201] Some(3000000) None\n[{own}] Some(1000000) None\n"
        )?;
        write!(others, "bidder None Some({other})\n")?;
        write!(
            others,
            "[{other}] None Some(1000000)\n[201] None Some(3000000)\n"
        )?;
    }
    lines.push_str(&others)?;
    expect(&rt, &left, &right, &lines)
}
