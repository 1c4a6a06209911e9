//! `cats value`: values and the bids that give them.

use super::compare::LARGER_BID;
use super::inputs::{Row, judge_rows};
use super::streams::{AMPLE, input, limited_writer};
use cats_cmd::{RunFault, run_value};
use cats_text::Watched;
use std::test::Fail;

const SINGLES: &[u8] =
    b"{20 20 0}[0 1 0][1 1 1][2 1 2][3 1 3][4 1 4][5 1 5][6 1 6][7 1 7][8 1 8][9 1 9][10 1 10][11 1 11][12 1 12][13 1 \
    13][14 1 14][15 1 15][16 1 16][17 1 17][18 1 18][19 1 19]";

static VALUES: &[Row<'_>] = rows! {
    ("value --steps 2 FILE 1", &[LARGER_BID], 0, "or 4 1\n", ""),
    ("value --steps 1 FILE", &[LARGER_BID], 0, "or 0\n", ""),
    ("value --steps 5 FILE 0 1", &[LARGER_BID], 0, "or 7 2\n", ""),
    ("value --steps 5 FILE 1 0", &[LARGER_BID], 0, "or 7 2\n", ""),
    ("value --steps 5 FILE 0 1 1 0", &[LARGER_BID], 0, "or 7 2\n", ""),
    ("value FILE", &[LARGER_BID], 0, "or 0\n", ""),
    ("value FILE 1 0", &[b"{2 3 1}[0 5 0 2][1 5 0 1 2][2 6 0 1 2]"], 0, "or 0\nxor 2 6 2\n", ""),
    ("value FILE 0", &[b"{2 3 1}[0 5 0 2][1 5 0 1 2][2 6 0 1 2]"], 0, "or 0\nxor 2 5 0\n", ""),
    ("value FILE 1", &[b"{2 3 1}[0 5 0 2][1 5 0 1 2][2 6 0 1 2]"], 0, "or 0\nxor 2 0\n", ""),
    // the numbers are those of the file
    ("value FILE 0 1 2", &[b"{3 7 3}6 4 2 #\n5 2.5 1 5 #\n0 9 0 3 #\n4 3 1 #\n1 9 0 3 #\n2 1 0 #\n3 0 0 1 5 #\n"], 0,
     "or 8 2 4 6\nxor 3 9 0\nxor 4 0\nxor 5 2.5 5\n", ""),
    ("value FILE 0 1", &[b"{3 7 3}6 4 2 #\n5 2.5 1 5 #\n0 9 0 3 #\n4 3 1 #\n1 9 0 3 #\n2 1 0 #\n3 0 0 1 5 #\n"], 0,
     "or 4 2 4\nxor 3 9 0\nxor 4 0\nxor 5 2.5 5\n", ""),
    ("value FILE 0", &[b"{3 7 3}6 4 2 #\n5 2.5 1 5 #\n0 9 0 3 #\n4 3 1 #\n1 9 0 3 #\n2 1 0 #\n3 0 0 1 5 #\n"], 0,
     "or 1 2\nxor 3 9 0\nxor 4 0\nxor 5 0\n", ""),
    ("value FILE 2", &[b"{3 7 3}6 4 2 #\n5 2.5 1 5 #\n0 9 0 3 #\n4 3 1 #\n1 9 0 3 #\n2 1 0 #\n3 0 0 1 5 #\n"], 0,
     "or 4 6\nxor 3 0\nxor 4 0\nxor 5 0\n", ""),
    // a bid with price 0 is printed, and a missing bid is not
    ("value FILE 0", &[b"{2 1 1}0 0 0 2 #\n"], 0, "or 0\nxor 2 0 0\n", ""),
    ("value FILE 1", &[b"{2 1 1}0 0 0 2 #\n"], 0, "or 0\nxor 2 0\n", ""),
    // decimals
    ("value FILE 0 1", &[b"{2 3 0}0 1.50 0 #\n1 02.25 1 #\n2 3.75 0 1 #\n"], 0, "or 3.75 2\n", ""),
    ("value FILE 0", &[b"{2 3 0}0 1.50 0 #\n1 02.25 1 #\n2 3.75 0 1 #\n"], 0, "or 1.5 0\n", ""),
    ("value FILE 1", &[b"{2 3 0}0 1.50 0 #\n1 02.25 1 #\n2 3.75 0 1 #\n"], 0, "or 2.25 1\n", ""),
    ("value FILE 0 1", &[b"{2 3 0}0 0.50 0 #\n1 0.500001 1 #\n2 1 0 1 #\n"], 0, "or 1.000001 0 1\n", ""),
    // the least and the greatest good that each of the sets holds
    ("value FILE 63 0", &[b"{64 1 0}0 1 0 63 #\n"], 0, "or 1 0\n", ""),
    ("value FILE 64 0", &[b"{65 1 0}0 1 0 64 #\n"], 0, "or 1 0\n", ""),
    ("value FILE 255 0", &[b"{256 1 0}0 1 0 255 #\n"], 0, "or 1 0\n", ""),
    ("value FILE 256 0", &[b"{257 1 0}0 1 0 256 #\n"], 0, "or 1 0\n", ""),
    ("value FILE 1023 0", &[b"{1024 1 0}0 1 0 1023 #\n"], 0, "or 1 0\n", ""),
    ("value FILE 1024 0", &[b"{1025 1 0}0 1 0 1024 #\n"], 0, "or 1 0\n", ""),
    ("value FILE 4095 0", &[b"{4096 2 1}0 1 4095 4096 #\n1 2 0 4095 #\n"], 0, "or 2 1\nxor 4096 1 0\n", ""),
    // the sum of the greatest prices
    ("value FILE 0 1 2 3 4 5 6 7 8 9 10 11 12 13 14 15 16 17 18",
     &[b"{19 19 0}[0 1000000000000 0][1 1000000000000 1][2 1000000000000 2][3 1000000000000 3][4 1000000000000 4][5 \
     1000000000000 5][6 1000000000000 6][7 1000000000000 7][8 1000000000000 8][9 1000000000000 9][10 1000000000000 \
     10][11 1000000000000 11][12 1000000000000 12][13 1000000000000 13][14 1000000000000 14][15 1000000000000 15][16 \
     1000000000000 16][17 1000000000000 17][18 1000000000000 18]"],
     0, "or 19000000000000 0 1 2 3 4 5 6 7 8 9 10 11 12 13 14 15 16 17 18\n", ""),
    // 2 to the 19 packings are within the steps that are allowed if the line says nothing, and 2 to the 20 are not
    ("value FILE 0 1 2 3 4 5 6 7 8 9 10 11 12 13 14 15 16 17 18", &[SINGLES], 0,
     "or 19 0 1 2 3 4 5 6 7 8 9 10 11 12 13 14 15 16 17 18\n", ""),
    ("value FILE 0 1 2 3 4 5 6 7 8 9 10 11 12 13 14 15 16 17 18 19", &[SINGLES], 3, "",
     "step limit at 0,1,2,3,4,5,6,7,8,9,10,11,12,13,14,15,16,17,18,19\n"),
    ("value --bound FILE 0 1 2 3 4 5 6 7 8 9 10 11 12 13 14 15 16 17 18 19", &[SINGLES], 0,
     "or 20 0 1 2 3 4 5 6 7 8 9 10 11 12 13 14 15 16 17 18 19\n", ""),
};

static REFUSALS: &[Row<'_>] = rows! {
    ("value --steps 4 FILE 0 1", &[LARGER_BID], 3, "", "step limit at 0,1\n"),
    ("value --steps 4 FILE 1 0 1", &[LARGER_BID], 3, "", "step limit at 0,1\n"),
    // the first good that the file does not have
    ("value FILE 2", &[LARGER_BID], 64, "", "good 2 out of range\n"),
    ("value FILE 0 7 1 5 9", &[LARGER_BID], 64, "", "good 7 out of range\n"),
    // the file is judged before its goods
    ("value FILE 7", &[b"{2 1 0}0 1 0\n"], 2, "", "line 4: NoEnd\n"),
};

const VALUED: &[u8] = b"{2 3 1}0 3 0 #\n1 4.5 1 #\n2 7 0 1 2 #\n";

/// Limits, goods and files in any order, and what is wrong with a line.
static LINES: &[Row<'_>] = rows! {
    // 24 steps always suffice for two bids that share no good
    ("value --bound --steps 24 FILE 0 1", &[VALUED], 0, "or 7.5 0 1\nxor 2 7 2\n", ""),
    ("value --bound --total-steps 24 FILE 0 1", &[VALUED], 0, "or 7.5 0 1\nxor 2 7 2\n", ""),
    ("value FILE +1", &[VALUED], 64, "",
     "error: a number has digits alone, and no sign\n\nFor more information, try '--help'.\n"),
    ("check FILE FILE", &[VALUED], 64, "",
     "error: this command takes one file; 'cats fault', 'cats duplicates', 'cats sizes' and 'cats publish' take several\n\nFor more information, try '--help'.\n"),
    ("compare FILE FILE --bound FILE", &[VALUED], 64, "",
     "error: this command takes two files; 'cats fault', 'cats duplicates', 'cats sizes' and 'cats publish' take several\n\nFor more information, try '--help'.\n"),
    ("normalise FILE --total-steps=3", &[VALUED], 64, "",
     "error: '--total-steps <N>' needs '--bound'\n\nFor more information, try '--help'.\n"),
    ("value FILE 1 0 1 01", &[VALUED], 0, "or 7.5 0 1\nxor 2 7 2\n", ""),
    ("value FILE", &[VALUED], 0, "or 0\nxor 2 0\n", ""),
    ("value --steps 4 FILE 0 1", &[VALUED], 0, "or 7.5 0 1\nxor 2 7 2\n", ""),
    ("value --steps=1000000000 FILE 1", &[VALUED], 0, "or 4.5 1\nxor 2 0\n", ""),
    ("value FILE 0 1 --steps 3", &[VALUED], 3, "", "step limit at 0,1\n"),
    ("value FILE 0 --steps 1", &[VALUED], 3, "", "step limit at 0\n"),
    ("value FILE --steps 1", &[VALUED], 0, "or 0\nxor 2 0\n", ""),
    ("value FILE 0 4095 2", &[VALUED], 64, "", "good 4095 out of range\n"),
};

#[test]
fn values(rt: HostRuntime) -> Result<(), Fail> {
    judge_rows(&rt, VALUES)?;
    judge_rows(&rt, REFUSALS)?;
    judge_rows(&rt, LINES)
}

/// Goods that no command line can name, and the first that the file does not have.
static OUTSIDE: &[(&[u8], &[u16], u16)] = rows! {
    (b"goods 2\nbids 0\ndummy 0\n", &[0, 1, 65535], 65535),
    (b"goods 2\nbids 0\ndummy 0\n", &[4096, 2], 4096),
    (b"goods 2\nbids 0\ndummy 0\n", &[2, 4096], 2),
    (b"goods 4096\nbids 0\ndummy 0\n", &[4095, 4096], 4096),
};

#[test]
fn goods_out_of_range(rt: HostRuntime) {
    for (text, goods, first) in OUTSIDE {
        let mut file = Watched::new(input(text, false));
        let mut out = limited_writer(rt.alloc(), AMPLE);
        let answer = run_value(rt.alloc(), &mut file, goods, 1, &mut out);
        let is_right = matches!(&answer, Err(RunFault::GoodRange(good)) if good == first);
        assert!(rt; is_right, "of {goods:?}");
    }
}
