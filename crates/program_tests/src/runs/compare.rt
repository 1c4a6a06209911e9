//! `cats compare`: verdicts, first differences, and which file is refused.

use super::inputs::{Row, judge_rows};
use std::test::Fail;

pub(super) const NOTHING: &[u8] = b"{0 0 0}";

pub(super) const LARGER_BID: &[u8] = b"{2 3 0}[0 3 0][1 4 1][2 7 0 1]";

pub(super) const SINGLES: &[u8] = b"{2 2 0}[0 3 0][1 4 1]";

pub(super) const EQUAL_BIDDERS: &[u8] =
    b"{2 5 2}[0 1 0 2][1 2 0 1 2][2 1 0 3][3 1 0 1 3][4 2 0 1 3]";

pub(super) const TWO_DUMMIES: &[u8] = b"{2 2 2}[0 1 0 2][1 1 1 2 3]";

const NO_END: &[u8] = b"{1 3 0}[0 5 0][1 5 0]2 5 0\n";

/// Two bidders on two goods each, whose bids differ.
pub(super) const APART: &[u8] = b"{2 4 2}[0 1 0 2][1 2 1 2][2 2 0 3][3 1 1 3]";

/// Two bidders of which the first has one more bid.
pub(super) const TOGETHER: &[u8] = b"{2 5 2}[0 1 0 2][1 1 1 2][2 2 0 1 2][3 2 0 3][4 2 1 3]";

pub(super) const FIVE: &[u8] = b"{1 1 0}[0 5 0]";

pub(super) const FOUR: &[u8] = b"{1 1 0}[0 4 0]";

/// A bid of the OR bidder, and two of an XOR bidder.
pub(super) const LADDER: &[u8] = b"{2 3 1}1 1.50 1 #\n0 5 0 2 #\n2 6 1 0 2 #\n";

static VERDICTS: &[Row<'_>] = rows! {
    ("compare FILE OTHER", &[NOTHING, NOTHING], 0, "same\n", ""),
    ("compare FILE OTHER", &[LARGER_BID, SINGLES], 0, "same\n", ""),
    ("compare FILE OTHER", &[SINGLES, LARGER_BID], 0, "same\n", ""),
    ("compare FILE OTHER", &[EQUAL_BIDDERS, b"{2 4 2}[0 1 0 2][1 2 0 1 2][2 1 0 3][3 2 0 1 3]"], 0, "same\n", ""),
    ("compare FILE OTHER", &[b"{2 4 2}[0 1 0 2][1 2 0 1 2][2 1 0 3][3 2 0 1 3]", EQUAL_BIDDERS], 0, "same\n", ""),
    ("compare FILE OTHER", &[b"{2 4 2}[0 2 0 2][1 1 1 2][2 1 0 3][3 2 1 3]", APART], 0, "same\n", ""),
    ("compare FILE OTHER", &[APART, b"{2 4 2}[0 2 0 2][1 1 1 2][2 1 0 3][3 2 1 3]"], 0, "same\n", ""),
    ("compare FILE OTHER", &[b"{1 1 0}[0 1.5 0]", b"{1 1 0}[0 1.50 0]"], 0, "same\n", ""),
    ("compare FILE OTHER", &[b"{1 1 0}[0 1.50 0]", b"{1 1 0}[0 1.5 0]"], 0, "same\n", ""),
    ("compare FILE OTHER", &[LADDER, b"{2 3 1}[0 1.5 1][1 5 0 2][2 6 0 1 2]"], 0, "same\n", ""),
    // goods
    ("compare FILE OTHER", &[b"{1 0 0}", b"{2 0 0}"], 1, "different\ngoods\nleft 1\nright 2\n", ""),
    ("compare FILE OTHER", &[b"{2 0 0}", b"{1 0 0}"], 1, "different\ngoods\nleft 2\nright 1\n", ""),
    ("compare FILE OTHER", &[b"{1024 0 0}", b"{4096 0 0}"], 1, "different\ngoods\nleft 1024\nright 4096\n", ""),
    ("compare FILE OTHER", &[b"{4096 0 0}", b"{1024 0 0}"], 1, "different\ngoods\nleft 4096\nright 1024\n", ""),
    // OR values
    ("compare FILE OTHER", &[FOUR, FIVE], 1, "different\nor 0\nleft 4\nright 5\n", ""),
    ("compare FILE OTHER", &[FIVE, FOUR], 1, "different\nor 0\nleft 5\nright 4\n", ""),
    ("compare FILE OTHER", &[b"{1 2 1}[0 4 0][1 1 0 1]", FIVE], 1, "different\nor 0\nleft 4\nright 5\n", ""),
    ("compare FILE OTHER", &[FIVE, b"{1 2 1}[0 4 0][1 1 0 1]"], 1, "different\nor 0\nleft 5\nright 4\n", ""),
    ("compare FILE OTHER", &[FOUR, b"{1 1 1}[0 4 0 1]"], 1, "different\nor 0\nleft 4\nright below 4\n", ""),
    ("compare FILE OTHER", &[b"{1 1 1}[0 4 0 1]", FOUR], 1, "different\nor 0\nleft below 4\nright 4\n", ""),
    ("compare FILE OTHER", &[b"{2 3 0}[0 3 0][1 4 1][2 8 0 1]", SINGLES], 1, "different\nor 0,1\nleft 8\nright below 8\n",
     ""),
    ("compare FILE OTHER", &[SINGLES, b"{2 3 0}[0 3 0][1 4 1][2 8 0 1]"], 1, "different\nor 0,1\nleft below 8\nright 8\n",
     ""),
    ("compare FILE OTHER", &[b"{1 1 0}[0 1.5 0]", b"{1 1 0}[0 1.25 0]"], 1, "different\nor 0\nleft 1.5\nright 1.25\n", ""),
    ("compare FILE OTHER", &[b"{1 1 0}[0 1.25 0]", b"{1 1 0}[0 1.5 0]"], 1, "different\nor 0\nleft 1.25\nright 1.5\n", ""),
    ("compare FILE OTHER", &[b"{2 2 0}[0 1 0][1 1 1]", b"{2 2 0}[0 1 0][1 9 0 1]"], 1,
     "different\nor 1\nleft 1\nright below 1\n", ""),
    ("compare FILE OTHER", &[b"{2 2 0}[0 1 0][1 9 0 1]", b"{2 2 0}[0 1 0][1 1 1]"], 1,
     "different\nor 1\nleft below 1\nright 1\n", ""),
    ("compare FILE OTHER", &[LADDER, b"{2 2 1}[0 5 0 2][1 6 0 1 2]"], 1, "different\nor 1\nleft 1.5\nright below 1.5\n", ""),
    ("compare FILE OTHER", &[LARGER_BID, b"{2 0 1}"], 1, "different\nor 0\nleft 3\nright below 3\n", ""),
    ("compare OTHER FILE", &[LARGER_BID, b"{2 0 1}"], 1, "different\nor 0\nleft below 3\nright 3\n", ""),
    // XOR bidders
    ("compare FILE OTHER", &[EQUAL_BIDDERS, b"{2 2 1}[0 1 0 2][1 2 0 1 2]"], 1,
     "different\nxor 0:1 0,1:2\nleft 2\nright 1\n", ""),
    ("compare FILE OTHER", &[b"{2 2 1}[0 1 0 2][1 2 0 1 2]", EQUAL_BIDDERS], 1,
     "different\nxor 0:1 0,1:2\nleft 1\nright 2\n", ""),
    ("compare FILE OTHER", &[APART, TOGETHER], 1, "different\nxor 0:1 1:1 0,1:2\nleft 0\nright 1\n", ""),
    ("compare FILE OTHER", &[TOGETHER, APART], 1, "different\nxor 0:1 1:1 0,1:2\nleft 1\nright 0\n", ""),
};

static REFUSALS: &[Row<'_>] = rows! {
    ("compare --steps 2 FILE OTHER", &[TWO_DUMMIES, NO_END], 2, "", "first: line 5: TwoDummies\n"),
    ("compare --steps 2 FILE OTHER", &[NO_END, TWO_DUMMIES], 2, "", "first: line 6: NoEnd\n"),
    ("compare --steps 2 FILE OTHER", &[NOTHING, TWO_DUMMIES], 2, "", "second: line 5: TwoDummies\n"),
    ("compare --steps 2 FILE OTHER", &[TWO_DUMMIES, NOTHING], 2, "", "first: line 5: TwoDummies\n"),
    ("compare --steps 2 FILE OTHER", &[TWO_DUMMIES, LARGER_BID], 2, "", "first: line 5: TwoDummies\n"),
    ("compare --steps 2 FILE OTHER", &[LARGER_BID, TWO_DUMMIES], 3, "", "first: step limit at 0,1\n"),
    ("compare --steps 2 FILE OTHER", &[LARGER_BID, LARGER_BID], 3, "", "first: step limit at 0,1\n"),
    ("compare --steps 2 FILE OTHER", &[LARGER_BID, b"{3 0 0}"], 3, "", "first: step limit at 0,1\n"),
    ("compare --steps 2 FILE OTHER", &[SINGLES, LARGER_BID], 3, "", "second: step limit at 0,1\n"),
    ("compare --steps=2 OTHER FILE", &[LARGER_BID, SINGLES], 3, "", "second: step limit at 0,1\n"),
    ("compare FILE --steps 2 FILE", &[LARGER_BID], 3, "", "first: step limit at 0,1\n"),
    ("compare --steps 3 FILE OTHER", &[LARGER_BID, SINGLES], 0, "same\n", ""),
};

#[test]
fn comparisons(rt: HostRuntime) -> Result<(), Fail> {
    judge_rows(&rt, VERDICTS)?;
    judge_rows(&rt, REFUSALS)
}
