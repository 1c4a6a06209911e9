//! What is said of bids that are named in a text, by files that are read from their texts.

use analysis::winners::{
    BidNumbersFault, allocation_status, allocation_text, judge_allocation, lp_text,
    read_bid_numbers,
};
use cats_text::packed::read_packed;
use std::process::Abort;
use std::test::Fail;

/// Bids 0 and 1 share the good 1, bids 3 and 4 the dummy good 2, and bids 4 and 5 the good 5 and the dummy good 2.
const FILE: &str =
    "goods 6\nbids 6\ndummy 3\n0 10 0 1 #\n1 4.5 1 2 #\n2 3.25 2 #\n3 0.5 3 8 #\n4 2 4 5 8 #\n5 6 5 8 #\n";

/// A list of bids, the line that is printed, and the status.
const ROWS: [(&str, &str, u8); 8] = [
    ("", "revenue 0\n", 0),
    ("0 2 3", "revenue 13.75\n", 0),
    ("3\r\n2\n0\t3\n", "revenue 13.75\n", 0),
    ("1 0", "bids 0 and 1 share good 1\n", 1),
    ("5 4 3 2 1 0", "bids 0 and 1 share good 1\n", 1),
    (
        "2 4 3",
        "bids 3 and 4 are of one XOR bidder (dummy good 2)\n",
        1,
    ),
    ("4 5", "bids 4 and 5 share good 5\n", 1),
    (
        "4 5 3 0",
        "bids 3 and 4 are of one XOR bidder (dummy good 2)\n",
        1,
    ),
];

fn check(rt: &(impl Abort + AllocGlobal), list: &str, line: &str, status: u8) -> Result<(), Fail> {
    let file = read_packed(rt.alloc(), FILE.as_bytes())?;
    let goods = file.goods();
    assert_eq!(rt; goods, 6);
    let Ok(bids) = read_bid_numbers(rt.alloc(), list.as_bytes()) else {
        panic!(rt; "not numbers: {list}")
    };
    let Ok(verdict) = judge_allocation(rt.alloc(), &file, bids.as_slice())? else {
        panic!(rt; "a missing bid: {list}")
    };
    let text = allocation_text(rt.alloc(), &verdict)?;
    assert!(rt; text.as_slice() == line.as_bytes(), "of {list}");
    assert_eq!(rt; allocation_status(&verdict), status, "of {list}");
    Ok(())
}

#[test]
fn verdicts(rt: HostRuntime) -> Result<(), Fail> {
    for (list, line, status) in ROWS {
        check(&rt, list, line, status)?;
    }
    Ok(())
}

/// A text, and the line of its first word that is not a number of a bid.
const FAULTS: [(&str, u64); 5] = [
    ("1 2\n3 x\ny", 2),
    ("\n\n4294967296", 3),
    ("-1", 1),
    ("1,2", 1),
    ("17\n0x11", 2),
];

#[test]
fn faulty_lines(rt: HostRuntime) -> Result<(), Fail> {
    for (text, line) in FAULTS {
        let fault = read_bid_numbers(rt.alloc(), text.as_bytes()).err();
        assert!(&rt;
            fault == Some(BidNumbersFault::NotANumber { line }),
            "of {text}"
        );
    }
    Ok(())
}

#[test]
fn problem(rt: HostRuntime) -> Result<(), Fail> {
    let file = read_packed(
        rt.alloc(),
        b"goods 1\nbids 2\ndummy 0\n0 3.25 0 #\n1 2 0 #\n",
    )?;
    let goods = file.goods();
    assert_eq!(&rt; goods, 1);
    let text = lp_text(rt.alloc(), &file)?;
    let expected = b"\\ revenue in millionths\nMaximize\n revenue:\n + 3250000 x0\n + 2000000 x1\n\
Subject To\n g0:\n + x0\n + x1\n <= 1\nBinary\n x0\n x1\nEnd\n";
    assert!(&rt; text.as_slice() == expected.as_slice());
    Ok(())
}
