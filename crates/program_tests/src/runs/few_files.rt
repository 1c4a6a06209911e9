//! Lines on one file in memory, or two.

use super::memory::{FILES, Row, judge_rows};
use std::test::Fail;

static ROWS: &[Row<'_>] = rows! {
    ("--version", 0, "cats 1.2 (test)\n", ""),
    ("check same", 0, "goods 1 bids 2 dummy 0\n", ""),
    ("normalise same", 0, "goods 1\nbids 1\ndummy 0\n0\t3\t0\t#\n", ""),
    ("explain bidders", 0,
     "bid\tdummy\tprice\tgoods\treason\tkept\tby\n0\t0\t1\t0\tkeep\t1\t\n1\t2\t1\t0\tkeep\t2\t\n2\t2\t2\t1\tkeep\t3\t\n\
     3\t\t9\t1\tkeep\t0\t\n",
     ""),
    ("compare one other", 1, "different\nor 0\nleft 3\nright 4\n", ""),
    ("compare other one", 1, "different\nor 0\nleft 4\nright 3\n", ""),
    ("compare one none", 5, "", "second: cannot open\n"),
    ("diff one other", 1, "kind\tgoods\tleft\tright\tleft_dummy\tright_dummy\tleft_bid\tright_bid\nor\t0\t3\t4\t\t\t0\t0\n",
     ""),
    ("diff other one", 1, "kind\tgoods\tleft\tright\tleft_dummy\tright_dummy\tleft_bid\tright_bid\nor\t0\t4\t3\t\t\t0\t0\n",
     ""),
    ("diff one none", 5, "", "none: cannot open: no such file\n"),
    ("show bad", 2, "", "line 2: Missing\n"),
    ("check secret", 5, "", "cannot open\n"),
    ("compare folder one", 5, "", "first: cannot open\n"),
    ("lp secret", 5, "", "secret: cannot open: permission denied\n"),
    ("round folder", 5, "", "folder: cannot open: is a folder: name it to 'fault', 'duplicates' or 'sizes'\n"),
    ("value sum 0-1", 0, "or 7 2\n", ""),
    ("revenue sum 0 1", 0, "revenue 7\n", ""),
    ("revenue --bids bids sum", 0, "revenue 7\n", ""),
    ("revenue sum 2 1", 1, "bids 1 and 2 share good 1\n", ""),
    ("revenue sum 3", 64, "", "bid 3 out of range\n"),
    ("check none", 5, "", "cannot open\n"),
    ("value sum 2", 64, "", "good 2 out of range\n"),
    ("normalise --steps 2 sum", 3, "", "step limit at 0,1\n"),
    ("explain --steps 2 sum", 3, "", "step limit of 2 at bid 2: 0,1\n"),
    // the list comes before the file
    ("revenue --bids words none", 2, "", "words: line 2: NotANumber\n"),
    ("revenue --bids none sum", 5, "", "none: cannot open: no such file\n"),
    ("revenue --bids bids none", 5, "", "none: cannot open: no such file\n"),
    ("revenue --bids bids sum 0", 64, "",
     "error: give bids, or '--bids <LIST>', and not both\n\nFor more information, try '--help'.\n"),
    ("value sum 1-0", 64, "",
     "error: goods are numbers up to 4095 and ranges, as in '0,2-5'\n\nFor more information, try '--help'.\n"),
    ("round fine", 0, "goods 1\nbids 1\ndummy 0\n0 0 0 #\n", "line 4: 1e-7 rounded to 0\n"),
    ("round --exact fine", 2, "", "line 4: TooFine\n"),
};

#[test]
fn few_files_in_memory(rt: HostRuntime) -> Result<(), Fail> {
    judge_rows(&rt, FILES, ROWS, false)
}
