//! `cats revenue`: what bids bring as winners.

use super::inputs::{Row, judge_rows};
use std::test::Fail;

/// Bids 0 and 1 share the good 1, and bids 2 and 3 the dummy good 3.
const BIDS: &[u8] = b"{3 4 1}0 10 0 1 #\n1 4.5 1 #\n2 3.25 2 3 #\n3 0.5 0 3 #\n";

static REVENUES: &[Row<'_>] = rows! {
    ("revenue FILE", &[BIDS], 0, "revenue 0\n", ""),
    ("revenue FILE 2 0 2", &[BIDS], 0, "revenue 13.25\n", ""),
    ("revenue FILE 3 1", &[BIDS], 0, "revenue 5\n", ""),
    ("revenue FILE 2,0 2", &[BIDS], 0, "revenue 13.25\n", ""),
    ("revenue FILE 0-2", &[BIDS], 1, "bids 0 and 1 share good 1\n", ""),
    ("revenue FILE 2 1 0", &[BIDS], 1, "bids 0 and 1 share good 1\n", ""),
    ("revenue FILE 2 3", &[BIDS], 1, "bids 2 and 3 are of one XOR bidder (dummy good 0)\n", ""),
    ("revenue FILE 0 7 4", &[BIDS], 64, "", "bid 7 out of range\n"),
    ("revenue FILE 7", &[b"goods 1\n"], 2, "", "line 2: Missing\n"),
};

#[test]
fn revenues(rt: HostRuntime) -> Result<(), Fail> {
    judge_rows(&rt, REVENUES)
}
