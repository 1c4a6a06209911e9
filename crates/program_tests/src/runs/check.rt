//! `cats check`: sizes, and faults of each kind.

use super::inputs::{Row, judge_rows};
use std::test::Fail;

static SIZES: &[Row<'_>] = rows! {
    // the least file
    ("check FILE", &[b"{0 0 0}"], 0, "goods 0 bids 0 dummy 0\n", ""),
    // layouts
    ("check FILE", &[b"{2 0 3}"], 0, "goods 2 bids 0 dummy 3\n", ""),
    ("check FILE", &[b"%% a comment\n\n{3 2 1}\n[0 20 0 2 3][1 7 1]"], 0, "goods 3 bids 2 dummy 1\n", ""),
    ("check FILE", &[b"%% \xff\xe9\r\n\r\n \t% note\ngoods\t002\r\nbids  1 \r\n dummy 0\r\n\r\n00 0005 1 0 #\r"], 0,
     "goods 2 bids 1 dummy 0\n", ""),
    ("check FILE", &[b"{2 1 0}0 1 0 #\n% a comment after the bids\n"], 0, "goods 2 bids 1 dummy 0\n", ""),
    ("check FILE", &[b"{2 1 0}0 1.5 0 #\n"], 0, "goods 2 bids 1 dummy 0\n", ""),
    // numbers out of order
    ("check FILE", &[b"{1 3 0}2 1 0 #\n0 3 0 #\n1 2 0 #\n"], 0, "goods 1 bids 3 dummy 0\n", ""),
    // limits
    ("check FILE", &[b"{1024 1 0}[0 1000000000000 1023]"], 0, "goods 1024 bids 1 dummy 0\n", ""),
    ("check FILE", &[b"{4096 1 0}[0 1 4095]"], 0, "goods 4096 bids 1 dummy 0\n", ""),
    ("check FILE", &[b"{1025 0 0}"], 0, "goods 1025 bids 0 dummy 0\n", ""),
    ("check FILE", &[b"{4096 1 65536}0 1 4095 69631 #\n"], 0, "goods 4096 bids 1 dummy 65536\n", ""),
};

static FAULTS: &[Row<'_>] = rows! {
    ("check FILE", &[b""], 2, "", "line 1: Missing\n"),
    ("check FILE", &[b"goods\n"], 2, "", "line 1: Header\n"),
    ("check FILE", &[b"Goods 2\n"], 2, "", "line 1: Header\n"),
    ("check FILE", &[b"goods 2x\n"], 2, "", "line 1: NotANumber\n"),
    ("check FILE", &[b"goods 2 3\n"], 2, "", "line 1: Header\n"),
    ("check FILE", &[b"goods 1025 x\n"], 2, "", "line 1: Header\n"),
    ("check FILE", &[b"goods 4097 x\n"], 2, "", "line 1: TooLarge\n"),
    ("check FILE", &[b"bids 1\n"], 2, "", "line 1: Header\n"),
    ("check FILE", &[b"% only a comment\n"], 2, "", "line 2: Missing\n"),
    ("check FILE", &[b"{4097 0 0}"], 2, "", "line 1: TooLarge\n"),
    ("check FILE", &[b"{1 65537 0}"], 2, "", "line 2: TooLarge\n"),
    ("check FILE", &[b"{1 0 65537}"], 2, "", "line 3: TooLarge\n"),
    ("check FILE", &[b"{2 1 0}x 1 0 #\n"], 2, "", "line 4: NotANumber\n"),
    ("check FILE", &[b"{2 1 0}1 1 0 #\n"], 2, "", "line 4: BidNumber\n"),
    ("check FILE", &[b"{2 1 0}0 .5 0 #\n"], 2, "", "line 4: NotANumber\n"),
    ("check FILE", &[b"{2 1 0}0 5. 0 #\n"], 2, "", "line 4: NotANumber\n"),
    ("check FILE", &[b"{2 1 0}0 1.2.3 0 #\n"], 2, "", "line 4: NotANumber\n"),
    ("check FILE", &[b"{2 1 0}0 -1 0 #\n"], 2, "", "line 4: NotANumber\n"),
    ("check FILE", &[b"{2 1 0}0 1e3 0 #\n"], 2, "", "line 4: NotANumber\n"),
    ("check FILE", &[b"{2 1 0}0 0.1234567 0 #\n"], 2, "", "line 4: TooFine\n"),
    ("check FILE", &[b"{2 1 0}0 1000000000000.0000001 0 #\n"], 2, "", "line 4: TooLarge\n"),
    ("check FILE", &[b"{2 1 0}0 1 2 2 #\n"], 2, "", "line 4: GoodRange\n"),
    ("check FILE", &[b"{2 1 0}0 1 0 00 #\n"], 2, "", "line 4: RepeatedGood\n"),
    ("check FILE", &[b"{2 1 0}0 1 #\n"], 2, "", "line 4: EmptyBundle\n"),
    ("check FILE", &[b"{2 1 0}0 1 0#\n"], 2, "", "line 4: NotANumber\n"),
    ("check FILE", &[b"{2 1 0}0 1 0 # 1\n"], 2, "", "line 4: AfterEnd\n"),
    ("check FILE", &[b"{2 1 0}0 1 0\n"], 2, "", "line 4: NoEnd\n"),
    ("check FILE", &[b"{2 1 0}0\n"], 2, "", "line 4: NoEnd\n"),
    ("check FILE", &[b"{2 1 0}0 #\n"], 2, "", "line 4: NotANumber\n"),
    ("check FILE", &[b"{1024 1 0}[0 1000000000001 1023]"], 2, "", "line 4: TooLarge\n"),
    ("check FILE", &[b"{1024 1 0}[0 1000000000000 1024]"], 2, "", "line 4: GoodRange\n"),
    ("check FILE", &[b"{4096 1 65536}0 1 4095 69632 #\n"], 2, "", "line 4: GoodRange\n"),
    ("check FILE", &[b"{1024 65536 65536}"], 2, "", "line 4: Missing\n"),
    ("check FILE", &[b"{1 1 1}0 1 1 #\n"], 2, "", "line 4: EmptyBundle\n"),
    ("check FILE", &[b"{1 1 2}0 1 0 1 2 #\n"], 2, "", "line 4: TwoDummies\n"),
    ("check FILE", &[b"{2 0 3}0 1 0 #\n"], 2, "", "line 4: ExtraBid\n"),
    ("check FILE", &[b"{2 1 0}0 1 0 #\n0 1 0 #\n"], 2, "", "line 5: ExtraBid\n"),
    ("check FILE", &[b"{2 1 0}0 1 0 #\nx\n"], 2, "", "line 5: NotANumber\n"),
    ("check FILE", &[b"{2 2 0}0 1 0 #\n0 1 1 #\n"], 2, "", "line 5: RepeatedNumber\n"),
    ("check FILE", &[b"{1 3 0}0 1 0 #\n0 3 0 #\n1 2 0 #\n"], 2, "", "line 5: RepeatedNumber\n"),
    ("check FILE", &[b"{2 2 2}[0 1 0 2][1 1 1 2 3]"], 2, "", "line 5: TwoDummies\n"),
    ("check FILE", &[b"{2 2 2}[0 1 0 2][1 1 1 2 2]"], 2, "", "line 5: RepeatedGood\n"),
    ("check FILE", &[b"{1 3 0}[0 5 0][1 5 0]2 5 0"], 2, "", "line 6: NoEnd\n"),
    ("check FILE", &[b"{1 3 0}[0 5 0][1 5 0]"], 2, "", "line 6: Missing\n"),
};

#[test]
fn sizes_and_faults(rt: HostRuntime) -> Result<(), Fail> {
    judge_rows(&rt, SIZES)?;
    judge_rows(&rt, FAULTS)
}
