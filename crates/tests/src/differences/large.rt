//! One change in a file of 1,000 bids.

use super::{expect, push_bid_line};
use std::alloc::{AllocError, Global};
use std::test::Fail;

const GOODS: usize = 400;

const XOR_BIDDERS: usize = 300;

const BIDS: usize = GOODS + 2 * XOR_BIDDERS;

/// Numbers of bids with the bids that are there then, of which one at a price of 0 is left out.
type Changed = &'static [(usize, &'static str)];

/// An OR bid on each good; and of each XOR bidder a bid on a good, and one on this and the next good.
fn bid_of(alloc: Global, number: usize) -> Result<String, AllocError> {
    if number < GOODS {
        return Ok(format!(in alloc; "{number}.5 {number}")?);
    }
    let good = (number - GOODS) / 2;
    let dummy = GOODS + good;
    if number % 2 == 0 {
        return Ok(format!(in alloc; "3 {good} {dummy}")?);
    }
    let next = good + 1;
    Ok(format!(in alloc; "7 {good} {next} {dummy}")?)
}

fn large_text(alloc: Global, changed: &[(usize, &str)]) -> Result<String, AllocError> {
    let mut text = format!(in alloc; "goods {GOODS}\nbids {BIDS}\ndummy {XOR_BIDDERS}\n")?;
    for number in 0..BIDS {
        match changed.iter().find(|other| other.0 == number) {
            Some(other) => push_bid_line(alloc, number, other.1, &mut text)?,
            None => push_bid_line(alloc, number, &bid_of(alloc, number)?, &mut text)?,
        }
    }
    Ok(text)
}

/// Changes, and the differences of the file from the one with these.
static ROWS: &[(Changed, &str)] = rows! {
    (&[], ""),
    // another price of an OR bid, none, and one more good in one
    (&[(200, "7 200")], "[200] Some(200500000) Some(7000000)\n"),
    (&[(200, "0 200")], "[200] Some(200500000) None\n"),
    (&[(399, "399.5 398 399")], "[399] Some(399500000) None\n[398, 399] None Some(399500000)\n"),
    // another price of a bid of an XOR bidder, no such bid, and no such bidder
    (&[(601, "8 100 101 500")], "bidder Some(100) Some(100)\n[100, 101] Some(7000000) Some(8000000)\n"),
    (&[(601, "0 100 101 500")], "bidder Some(100) Some(100)\n[100, 101] Some(7000000) None\n"),
    (&[(600, "0 100 500"), (601, "0 100 101 500")],
     "bidder Some(100) None\n[100] Some(3000000) None\n[100, 101] Some(7000000) None\n"),
};

#[test]
fn one_change_in_a_large_file(rt: HostRuntime) -> Result<(), Fail> {
    let left = large_text(rt.alloc(), &[])?;
    for (changed, lines) in ROWS {
        let right = large_text(rt.alloc(), changed)?;
        expect(&rt, &left, &right, lines)?;
    }
    Ok(())
}
