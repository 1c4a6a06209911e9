//! `cats diff`: the table of all differences. What is expected is worked out by hand.

use super::compare::{
    APART, EQUAL_BIDDERS, FIVE, FOUR, LADDER, LARGER_BID, NOTHING, SINGLES, TOGETHER, TWO_DUMMIES,
};
use super::inputs::{Row, judge_rows};
use std::process::Abort;
use std::test::Fail;

/// The names of the columns.
const HEADER: &str = "kind\tgoods\tleft\tright\tleft_dummy\tright_dummy\tleft_bid\tright_bid\n";

/// Two texts, and the rows of their differences in this order and with the texts exchanged. Each has none from itself.
type Pair<'a> = (&'a [u8], &'a [u8], &'a str, &'a str);

/// Three equal bidders on one good, behind one without a price above 0.
const THREE_COPIES: &[u8] = b"{1 4 4}[0 0 0 1][1 3 0 2][2 3 0 3][3 3 0 4]";

const TWO_COPIES: &[u8] = b"{1 2 2}[0 3 0 1][1 3 0 2]";

/// A bidder of three bids.
const THREE_BIDS: &[u8] = b"{3 3 1}[0 1 0 3][1 2 1 3][2 3 2 3]";

/// Two bidders on the same goods. The second is the first of the canonical file.
const SHARE_ONE_AND_TWO: &[u8] = b"{3 6 2}[0 1 0 3][1 9 1 3][2 9 2 3][3 1 0 4][4 2 1 4][5 4 2 4]";

static PAIRS: &[Pair<'_>] = rows! {
    // no differences
    (NOTHING, NOTHING, "", ""),
    (LARGER_BID, SINGLES, "", ""),
    // a dominated bid
    (EQUAL_BIDDERS, b"{2 4 2}[0 1 0 2][1 2 0 1 2][2 1 0 3][3 2 0 1 3]", "", ""),
    // the bidders in another order, and one more without a price above 0
    (APART, b"{2 5 3}[0 2 0 4][1 1 1 4][2 1 0 2][3 2 1 2][4 0 0 3]", "", ""),
    (b"{1 0 0}", b"{2 0 0}", "goods\t\t1\t2\t\t\t\t\n", "goods\t\t2\t1\t\t\t\t\n"),
    (b"{1024 0 0}", b"{4096 0 0}", "goods\t\t1024\t4096\t\t\t\t\n", "goods\t\t4096\t1024\t\t\t\t\n"),
    // the bids are compared too
    (FOUR, b"{4096 2 1}[0 5 0][1 3 1 4096]", "goods\t\t1\t4096\t\t\t\t\nor\t0\t4\t5\t\t\t0\t0\nxor\t1\t\t3\t\t0\t\t1\n",
     "goods\t\t4096\t1\t\t\t\t\nor\t0\t5\t4\t\t\t0\t0\nxor\t1\t3\t\t0\t\t1\t\n"),
    (FOUR, FIVE, "or\t0\t4\t5\t\t\t0\t0\n", "or\t0\t5\t4\t\t\t0\t0\n"),
    (b"{1 1 0}[0 1.5 0]", b"{1 1 0}[0 1.250001 0]", "or\t0\t1.5\t1.250001\t\t\t0\t0\n", "or\t0\t1.250001\t1.5\t\t\t0\t0\n"),
    // one more bid
    (FOUR, b"{1 0 0}", "or\t0\t4\t\t\t\t0\t\n", "or\t0\t\t4\t\t\t\t0\n"),
    // a bid above the sum of two others
    (b"{2 3 0}[0 3 0][1 4 1][2 8 0 1]", SINGLES, "or\t0 1\t8\t\t\t\t2\t\n", "or\t0 1\t\t8\t\t\t\t2\n"),
    // and one on the right that is at their sum, and so is not kept
    (b"{2 3 0}[0 3 0][1 4 1][2 8 0 1]", LARGER_BID, "or\t0 1\t8\t\t\t\t2\t\n", "or\t0 1\t\t8\t\t\t\t2\n"),
    // one more good in a bid: bundles in order, by size first
    (b"{2 2 0}[0 1 0][1 1 1]", b"{2 2 0}[0 1 0][1 9 0 1]", "or\t1\t1\t\t\t\t1\t\nor\t0 1\t\t9\t\t\t\t1\n",
     "or\t1\t\t1\t\t\t\t1\nor\t0 1\t9\t\t\t\t1\t\n"),
    // all bundles differ, and the last is on one side alone
    (b"{12 3 0}[0 1 2][1 1 10][2 1 11]", b"{12 2 0}[0 3 2][1 2 10]",
     "or\t2\t1\t3\t\t\t0\t0\nor\t10\t1\t2\t\t\t1\t1\nor\t11\t1\t\t\t\t2\t\n",
     "or\t2\t3\t1\t\t\t0\t0\nor\t10\t2\t1\t\t\t1\t1\nor\t11\t\t1\t\t\t\t2\n"),
    // bids in another order, lower ones and equal ones: the first of the highest on each side
    (b"{2 4 0}[0 2 0][1 3 0][2 3 0][3 1 1]", b"{2 4 0}[0 1 1][1 2 0][2 4 0][3 4 0]", "or\t0\t3\t4\t\t\t1\t2\n",
     "or\t0\t4\t3\t\t\t2\t1\n"),
    (LADDER, b"{2 2 1}[0 5 0 2][1 6 0 1 2]", "or\t1\t1.5\t\t\t\t1\t\n", "or\t1\t\t1.5\t\t\t\t1\n"),
    (LARGER_BID, b"{2 0 1}", "or\t0\t3\t\t\t\t0\t\nor\t1\t4\t\t\t\t1\t\n", "or\t0\t\t3\t\t\t\t0\nor\t1\t\t4\t\t\t\t1\n"),
    // the same bid with a dummy good
    (FOUR, b"{1 1 1}[0 4 0 1]", "or\t0\t4\t\t\t\t0\t\nxor\t0\t\t4\t\t0\t\t0\n",
     "or\t0\t\t4\t\t\t\t0\nxor\t0\t4\t\t0\t\t0\t\n"),
    // two copies and one; a dominated bid is not named
    (EQUAL_BIDDERS, b"{2 2 1}[0 1 0 2][1 2 0 1 2]", "xor\t0\t1\t\t0\t\t0\t\nxor\t0 1\t2\t\t0\t\t1\t\n",
     "xor\t0\t\t1\t\t0\t\t0\nxor\t0 1\t\t2\t\t0\t\t1\n"),
    // three copies and two, and three and none: the smallest dummy goods first
    (THREE_COPIES, TWO_COPIES, "xor\t0\t3\t\t1\t\t1\t\n", "xor\t0\t\t3\t\t1\t\t1\n"),
    (THREE_COPIES, b"{1 0 0}", "xor\t0\t3\t\t1\t\t1\t\nxor\t0\t3\t\t2\t\t2\t\nxor\t0\t3\t\t3\t\t3\t\n",
     "xor\t0\t\t3\t\t1\t\t1\nxor\t0\t\t3\t\t2\t\t2\nxor\t0\t\t3\t\t3\t\t3\n"),
    // the bidder of the second dummy good is the first of the canonical file
    (b"{2 2 2}[0 2 1 2][1 1 0 3]", b"{2 1 1}[0 2 1 2]", "xor\t0\t1\t\t1\t\t1\t\n", "xor\t0\t\t1\t\t1\t\t1\n"),
    // no bundle in common
    (b"{2 1 1}[0 1 0 2]", b"{2 1 1}[0 2 1 2]", "xor\t0\t1\t\t0\t\t0\t\nxor\t1\t\t2\t\t0\t\t0\n",
     "xor\t1\t2\t\t0\t\t0\t\nxor\t0\t\t1\t\t0\t\t0\n"),
    // another price of the only bid
    (b"{1 1 1}[0 1 0 1]", b"{1 1 1}[0 2 0 1]", "xor\t0\t1\t2\t0\t0\t0\t0\n", "xor\t0\t2\t1\t0\t0\t0\t0\n"),
    // another price of one bid, and the dummy goods of the two files
    (b"{2 2 1}[0 5 0 2][1 8 0 1 2]", b"{2 3 2}[0 5 0 3][1 9 0 1 3][2 0 0 2]", "xor\t0 1\t8\t9\t0\t1\t1\t1\n",
     "xor\t0 1\t9\t8\t1\t0\t1\t1\n"),
    // one more bid, and one more good in a bid
    (b"{3 2 1}[0 5 0 3][1 7 1 3]", b"{3 3 1}[0 5 0 3][1 7 1 2 3][2 6 1 3]",
     "xor\t1\t7\t6\t0\t0\t1\t2\nxor\t1 2\t\t7\t0\t0\t\t1\n", "xor\t1\t6\t7\t0\t0\t2\t1\nxor\t1 2\t7\t\t0\t0\t1\t\n"),
    // two bidders of each file, bundles in common with either
    (APART, TOGETHER, "xor\t1\t2\t1\t0\t0\t1\t1\nxor\t0 1\t\t2\t0\t0\t\t2\nxor\t1\t1\t2\t1\t1\t3\t4\n",
     "xor\t1\t1\t2\t0\t0\t1\t1\nxor\t0 1\t2\t\t0\t0\t2\t\nxor\t1\t2\t1\t1\t1\t4\t3\n"),
    // the one on the rarest bundle, and the first on that
    (b"{2 2 1}[0 5 0 2][1 5 1 2]", b"{2 3 2}[0 1 0 2][1 2 0 3][2 7 1 3]",
     "xor\t0\t5\t2\t0\t1\t0\t1\nxor\t1\t5\t7\t0\t1\t1\t2\nxor\t0\t\t1\t\t0\t\t0\n",
     "xor\t0\t1\t5\t0\t0\t0\t0\nxor\t1\t\t5\t0\t0\t\t1\nxor\t0\t2\t\t1\t\t1\t\nxor\t1\t7\t\t1\t\t2\t\n"),
    // bundles that are as rare: the first bidder
    (THREE_BIDS, SHARE_ONE_AND_TWO,
     "xor\t2\t3\t4\t0\t1\t2\t5\nxor\t0\t\t1\t\t0\t\t0\nxor\t1\t\t9\t\t0\t\t1\nxor\t2\t\t9\t\t0\t\t2\n",
     "xor\t2\t4\t3\t1\t0\t5\t2\nxor\t0\t1\t\t0\t\t0\t\nxor\t1\t9\t\t0\t\t1\t\nxor\t2\t9\t\t0\t\t2\t\n"),
    // an OR bid and an XOR bid with other prices in each file
    (b"{3 4 1}[0 1 0][1 2 1][2 3 0 3][3 5 2 3]", b"{3 4 1}[0 1 0][1 2.5 1][2 4 0 3][3 5 2 3]",
     "or\t1\t2\t2.5\t\t\t1\t1\nxor\t0\t3\t4\t0\t0\t2\t2\n", "or\t1\t2.5\t2\t\t\t1\t1\nxor\t0\t4\t3\t0\t0\t2\t2\n"),
    (b"{1 2 1}[0 4 0][1 1 0 1]", FIVE, "or\t0\t4\t5\t\t\t0\t0\nxor\t0\t1\t\t0\t\t1\t\n",
     "or\t0\t5\t4\t\t\t0\t0\nxor\t0\t\t1\t\t0\t\t1\n"),
};

/// That two texts have these differences.
fn differ(rt: &(impl Abort + AllocGlobal), texts: &[&[u8]], rows: &str) -> Result<(), Fail> {
    let table = format!(in rt.alloc(); "{HEADER}{rows}")?;
    let status = if rows.is_empty() { 0 } else { 1 };
    judge_rows(
        rt,
        &[("diff FILE OTHER", texts, status, table.as_str(), "")],
    )
}

#[test]
fn differences(rt: HostRuntime) -> Result<(), Fail> {
    for (left, right, there, back) in PAIRS {
        differ(&rt, &[*left, *right], there)?;
        differ(&rt, &[*right, *left], back)?;
        differ(&rt, &[*left, *left], "")?;
        differ(&rt, &[*right, *right], "")?;
    }
    Ok(())
}

static REFUSALS: &[Row<'_>] = rows! {
    ("diff --steps 2 FILE OTHER", &[TWO_DUMMIES, b"{1 3 0}[0 5 0][1 5 0]2 5 0\n"], 2, "", "first: line 5: TwoDummies\n"),
    ("diff --steps 2 FILE OTHER", &[b"{1 3 0}[0 5 0][1 5 0]2 5 0\n", TWO_DUMMIES], 2, "", "first: line 6: NoEnd\n"),
    ("diff --steps 2 FILE OTHER", &[NOTHING, TWO_DUMMIES], 2, "", "second: line 5: TwoDummies\n"),
    ("diff --steps 2 FILE OTHER", &[TWO_DUMMIES, NOTHING], 2, "", "first: line 5: TwoDummies\n"),
    ("diff --steps 2 FILE OTHER", &[TWO_DUMMIES, LARGER_BID], 2, "", "first: line 5: TwoDummies\n"),
    ("diff --steps 2 FILE OTHER", &[LARGER_BID, TWO_DUMMIES], 3, "", "first: step limit of 2 at bid 2: 0,1\n"),
    ("diff --steps 2 FILE OTHER", &[LARGER_BID, LARGER_BID], 3, "", "first: step limit of 2 at bid 2: 0,1\n"),
    ("diff --steps 2 FILE OTHER", &[LARGER_BID, b"{3 0 0}"], 3, "", "first: step limit of 2 at bid 2: 0,1\n"),
    ("diff --steps 2 FILE OTHER", &[SINGLES, LARGER_BID], 3, "", "second: step limit of 2 at bid 2: 0,1\n"),
    ("diff --steps 3 FILE OTHER", &[LARGER_BID, SINGLES], 0, HEADER, ""),
    ("diff --steps=2 OTHER FILE", &[LARGER_BID, NOTHING], 3, "", "second: step limit of 2 at bid 2: 0,1\n"),
    // the limit that is met is named
    ("diff --steps 1 --total-steps 5 FILE OTHER", &[LARGER_BID, LADDER], 3, "", "first: step limit of 1 at bid 2: 0,1\n"),
    ("diff --steps 1 --total-steps 5 FILE OTHER", &[LADDER, LARGER_BID], 3, "", "second: step limit of 1 at bid 2: 0,1\n"),
    ("diff --steps 2 --total-steps 4 FILE OTHER", &[LARGER_BID, LADDER], 3, "", "first: step limit of 2 at bid 2: 0,1\n"),
    ("diff --steps 3 --total-steps 4 FILE OTHER", &[LARGER_BID, LADDER], 3, "", "first: total step limit of 4 at bid 2: 0,1\n"),
    ("diff --total-steps 4 FILE OTHER", &[LADDER, LARGER_BID], 3, "", "second: total step limit of 4 at bid 2: 0,1\n"),
};

#[test]
fn refusals(rt: HostRuntime) -> Result<(), Fail> {
    judge_rows(&rt, REFUSALS)
}
