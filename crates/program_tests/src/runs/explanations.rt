//! `cats explain`: the reasons, as they are printed.

use super::compare::LARGER_BID;
use super::inputs::{Row, judge_rows};
use super::normalise::{SINGLES_BELOW_TRIPLE, TRIPLE_REACHED, bids_on_one_good};
use std::process::Abort;
use std::test::Fail;

/// A line, a text, and the rows of its bids.
static REASONS: &[(&str, &[u8], &str)] = rows! {
    ("explain FILE", b"{0 0 0}", ""),
    ("explain FILE", LARGER_BID, "0\t\t3\t0\tkeep\t0\t\n1\t\t4\t1\tkeep\t1\t\n2\t\t7\t0 1\tpacking\t\t0 1\n"),
    ("explain FILE", b"{2 4 0}[0 8 0 1][1 3 0][2 4 1][3 8 0 1]",
     "0\t\t8\t0 1\tkeep\t2\t\n1\t\t3\t0\tkeep\t0\t\n2\t\t4\t1\tkeep\t1\t\n3\t\t8\t0 1\tsame\t\t0\n"),
    ("explain --steps 1 FILE", SINGLES_BELOW_TRIPLE,
     "0\t\t1\t0\tkeep\t0\t\n1\t\t1\t1\tkeep\t1\t\n2\t\t1\t2\tkeep\t2\t\n3\t\t4\t0 1 2\tkeep\t3\t\n"),
    ("explain --steps 4 FILE", TRIPLE_REACHED,
     "0\t\t2\t0\tkeep\t0\t\n1\t\t2\t1\tkeep\t1\t\n2\t\t2\t2\tkeep\t2\t\n3\t\t5\t0 1 2\tpacking\t\t0 1 2\n"),
    ("explain --steps 4 FILE", b"{2 4 0}[0 1 0][1 1 0][2 1 1][3 3 0 1]",
     "0\t\t1\t0\tkeep\t0\t\n1\t\t1\t0\tsame\t\t0\n2\t\t1\t1\tkeep\t1\t\n3\t\t3\t0 1\tkeep\t2\t\n"),
    ("explain FILE", b"{1 3 0}[2 1 0][0 3 0][1 2 0]", "0\t\t3\t0\tkeep\t0\t\n1\t\t2\t0\tsame\t\t0\n2\t\t1\t0\tsame\t\t0\n"),
    ("explain FILE", b"{1 3 0}[0 3 0][1 3 0][2 3 0]", "0\t\t3\t0\tkeep\t0\t\n1\t\t3\t0\tsame\t\t0\n2\t\t3\t0\tsame\t\t0\n"),
    ("explain FILE", b"{2 3 0}0 1.50 0 #\n1 02.25 1 #\n2 3.75 0 1 #\n",
     "0\t\t1.5\t0\tkeep\t0\t\n1\t\t2.25\t1\tkeep\t1\t\n2\t\t3.75\t0 1\tpacking\t\t0 1\n"),
    ("explain FILE", b"{2 3 0}0 1.50 0 #\n1 02.25 1 #\n2 3.750001 0 1 #\n",
     "0\t\t1.5\t0\tkeep\t0\t\n1\t\t2.25\t1\tkeep\t1\t\n2\t\t3.750001\t0 1\tkeep\t2\t\n"),
    ("explain FILE", b"{2 3 1}[0 5 0 2][1 5 0 1 2][2 6 0 1 2]",
     "0\t0\t5\t0\tkeep\t0\t\n1\t0\t5\t0 1\tsame\t\t2\n2\t0\t6\t0 1\tkeep\t1\t\n"),
    ("explain FILE", b"{2 3 1}[0 3 0 1 2][1 3 1 2][2 2 0 2]",
     "0\t0\t3\t0 1\tinside\t\t1\n1\t0\t3\t1\tkeep\t1\t\n2\t0\t2\t0\tkeep\t0\t\n"),
    ("explain FILE", b"{2 2 2}[0 0 0 2][1 2 1 3]", "0\t0\t0\t0\tzero\t\t\n1\t1\t2\t1\tkeep\t0\t\n"),
    ("explain FILE", b"{2 0 3}", ""),
    ("explain FILE", b"{2 5 2}[0 1 0 2][1 2 0 1 2][2 1 0 3][3 1 0 1 3][4 2 0 1 3]",
     "0\t0\t1\t0\tkeep\t0\t\n1\t0\t2\t0 1\tkeep\t1\t\n2\t1\t1\t0\tkeep\t2\t\n3\t1\t1\t0 1\tsame\t\t4\n4\t1\t2\t0 1\t\
     keep\t3\t\n"),
    ("explain FILE", b"{2 4 2}[0 2 0 2][1 1 1 2][2 1 0 3][3 2 1 3]",
     "0\t0\t2\t0\tkeep\t2\t\n1\t0\t1\t1\tkeep\t3\t\n2\t1\t1\t0\tkeep\t0\t\n3\t1\t2\t1\tkeep\t1\t\n"),
    ("explain FILE", b"%% a comment\n\n{3 2 1}\n[0 20 0 2 3][1 7 1]", "0\t0\t20\t0 2\tkeep\t1\t\n1\t\t7\t1\tkeep\t0\t\n"),
};

static REFUSALS: &[Row<'_>] = rows! {
    ("explain FILE --steps=2", &[LARGER_BID], 3, "", "step limit of 2 at bid 2: 0,1\n"),
    ("explain --steps 1 FILE", &[LARGER_BID], 3, "", "step limit of 1 at bid 2: 0,1\n"),
    ("explain --steps 3 FILE", &[TRIPLE_REACHED], 3, "", "step limit of 3 at bid 3: 0,1,2\n"),
    ("explain --steps 2 FILE", &[LARGER_BID], 3, "", "step limit of 2 at bid 2: 0,1\n"),
    ("explain --total-steps 4 FILE", &[LARGER_BID], 3, "", "total step limit of 4 at bid 2: 0,1\n"),
    ("explain --steps 3 --total-steps 4 FILE", &[LARGER_BID], 3, "", "total step limit of 4 at bid 2: 0,1\n"),
    ("explain --steps 1 FILE", &[b"{2 2 2}0 1 0 2 #\n1 1 1 2 3 #\n"], 2, "", "line 5: TwoDummies\n"),
    ("explain --steps 1 FILE", &[b""], 2, "", "line 1: Missing\n"),
};

/// That these are the rows of a text's bids.
fn explains(
    rt: &(impl Abort + AllocGlobal),
    line: &str,
    text: &[u8],
    rows: &str,
) -> Result<(), Fail> {
    let table = format!(in rt.alloc(); "bid\tdummy\tprice\tgoods\treason\tkept\tby\n{rows}")?;
    judge_rows(rt, &[(line, &[text], 0, table.as_str(), "")])
}

#[test]
fn explanations(rt: HostRuntime) -> Result<(), Fail> {
    for (line, text, rows) in REASONS {
        explains(&rt, line, text, rows)?;
    }
    judge_rows(&rt, REFUSALS)
}

/// The most bids on one good, each at its number: the last is kept.
#[test]
fn many_bids(rt: HostRuntime) -> Result<(), Fail> {
    for (dummy, end, cell) in &[(0, "\t#", ""), (1, "\t1\t#", "0")] {
        let text = bids_on_one_good(rt.alloc(), *dummy, end)?;
        let mut rows = format!(in rt.alloc(); "0\t{cell}\t0\t0\tzero\t\t\n")?;
        for bid in 1u32..65_535 {
            write!(rows, "{bid}\t{cell}\t{bid}\t0\tsame\t\t65535\n")?;
        }
        write!(rows, "65535\t{cell}\t65535\t0\tkeep\t0\t\n")?;
        explains(&rt, "explain FILE", text.as_bytes(), rows.as_str())?;
    }
    Ok(())
}
