//! `cats show`: files in their layout.

use super::inputs::{Row, judge_rows};
use std::test::Fail;

/// Texts and their layouts, each of which stays itself.
static LAYOUTS: &[(&[u8], &str)] = rows! {
    (b"{0 0 0}", "{0 0 0}"),
    (b"%% \xff\xe9\r\n\r\n \t% note\ngoods\t002\r\nbids  1 \r\n dummy 0\r\n\r\n00 0005 1 0 #\r", "{2 1 0}[0 5 0 1]"),
    (b"{1 3 0}[2 1 0][0 3 0][1 2 0]", "{1 3 0}[0 3 0][1 2 0][2 1 0]"),
    (b"%% a comment\n\n{3 2 1}\n[0 20 0 2 3][1 7 1]", "{3 2 1}[0 20 0 2 3][1 7 1]"),
    (b"{2 1 2}0 1 3 1 0 #\n", "{2 1 2}[0 1 0 1 3]"),
    (b"{2 8 0}0 0.12345600 0 #\n1 1000000000000.0000000 0 #\n2 0.000 0 #\n3 1.50 0 #\n4 02.25 0 #\n5 3.750001 0 #\n\
    6 0.000001 0 #\n7 999999999999.999999 0 #\n",
     "{2 8 0}[0 0.123456 0][1 1000000000000 0][2 0 0][3 1.5 0][4 2.25 0][5 3.750001 0][6 0.000001 0][7 \
     999999999999.999999 0]"),
    (b"%% out of order\ngoods 2\nbids 2\ndummy 1\n1 0.50 2 0 #\n0 07 1 0 #\n", "{2 2 1}[0 7 0 1][1 0.5 0 2]"),
};

static REFUSALS: &[Row<'_>] = rows! {
    ("show FILE", &[b""], 2, "", "line 1: Missing\n"),
    ("show FILE", &[b"{1 3 0}0 1 0 #\n0 3 0 #\n1 2 0 #\n"], 2, "", "line 5: RepeatedNumber\n"),
};

#[test]
fn layouts(rt: HostRuntime) -> Result<(), Fail> {
    for (text, layout) in LAYOUTS {
        judge_rows(&rt, &[("show FILE", &[*text], 0, layout, "")])?;
        judge_rows(&rt, &[("show FILE", &[layout.as_bytes()], 0, layout, "")])?;
    }
    judge_rows(&rt, REFUSALS)
}
