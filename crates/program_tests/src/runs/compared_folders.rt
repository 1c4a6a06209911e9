//! `cats compare` on two folders, on new ones.

use super::new_folder::{Row, folder_with, judge_rows};
use std::fs;
use std::test::Fail;

/// The folders, each with its path in the new one, those above first.
static FOLDERS: [&str; 6] = ["", "/1", "/1/a", "/2", "/2/a", "/3"];

const FIVE: &str = "goods 1\nbids 1\ndummy 0\n0 5 0 #\n";

/// The same auction, with a bid more that is dominated.
const FIVE_AGAIN: &str = "goods 1\nbids 2\ndummy 0\n0 5 0 #\n1 4 0 #\n";

const FOUR: &str = "goods 1\nbids 1\ndummy 0\n0 4 0 #\n";

const FINE: &str = "goods 1\nbids 1\ndummy 0\n0 5.00000001 0 #\n";

const BAD: &str = "goods 1\nbids 1\ndummy 0\n0 x 0 #\n";

/// The files. In the order of the bytes of their paths `a.b` comes before what is in `a`.
static FILES: [(&str, &str); 13] = [
    ("/1/a.b", FIVE),
    ("/2/a.b", FIVE_AGAIN),
    ("/1/a/x", FIVE),
    ("/2/a/x", FOUR),
    ("/1/a/y", FIVE),
    ("/2/a/z", FIVE),
    ("/1/b\tc", FIVE),
    ("/2/b\tc", BAD),
    ("/1/d", FINE),
    ("/2/d", FIVE),
    ("/3/a.b", FOUR),
    ("/3/b\tc", FIVE),
    ("/3/d", FIVE),
];

static ROWS: &[Row] = rows! {
    // one folder twice, with a slash and without
    ("cats compare @/3 @/3/", 0, "file\tverdict\tfault\n", ""),
    ("cats compare --all @/3/ @/3", 0, "file\tverdict\tfault\na.b\tsame\t\nb\\tc\tsame\t\nd\tsame\t\n", ""),
    ("cats compare @/1 @/2", 2,
     "file\tverdict\tfault\na/x\tdifferent\t\na/y\tleft\t\na/z\tright\t\nb\\tc\t\tsecond: line 4: NotANumber\n\
     d\t\tfirst: line 4: TooFine\n", ""),
    ("cats compare --all @/1/a @/2/a", 1, "file\tverdict\tfault\nx\tdifferent\t\ny\tleft\t\nz\tright\t\n", ""),
    // each file of a pair is named where its prices are rounded
    ("cats compare --all --round @/1 @/3", 1,
     "file\tverdict\tfault\na.b\tdifferent\t\na/x\tleft\t\na/y\tleft\t\nb\\tc\tsame\t\nd\tsame\t\n",
     "@/1/d: 1 price rounded\n"),
    // a limit is one of each pair
    ("cats compare --all --bound --steps 1 --total-steps 5 @/3 @/3", 0,
     "file\tverdict\tfault\na.b\tsame\t\nb\\tc\tsame\t\nd\tsame\t\n", ""),
    // a folder and a file, and two files
    ("cats compare @/3 @/3/d", 5, "", "first: Device\n"),
    ("cats compare --all @/3/d @/3/d", 0, "same\n", ""),
};

#[test]
fn compared_folders(rt: HostRuntime) -> Result<(), Fail> {
    let start = folder_with(&rt, "compared", &FOLDERS, &FILES)?;
    judge_rows(&rt, &rt, start.as_str(), ROWS)?;
    fs::remove_dir_all(&rt, start.as_str())?;
    Ok(())
}
