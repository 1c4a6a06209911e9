//! Lines on many files in memory.

use super::memory::{FILES, Row, judge_rows};
use std::test::Fail;

static ROWS: &[Row<'_>] = rows! {
    ("duplicates one bad other same", 2, "one\nsame\n", "bad: line 2: Missing\n"),
    ("duplicates --progress none one", 5, "", "1 of 2 none\nnone: cannot open: no such file\n2 of 2 one\n"),
    ("duplicates one", 0, "", ""),
    ("sizes same bidders same", 0,
     "@\n1\t2\t2\t0\t0\t1\t1\t0\t\tsame\n2\t4\t1\t2\t3\t4\t1\t2\t\tbidders\n1\t2\t2\t0\t0\t1\t1\t0\t\tsame\n", ""),
    ("sizes --steps 2 bad sum one", 3,
     "@\n\t\t\t\t\t\t\t\tline 2: Missing\tbad\n2\t3\t3\t0\t0\t\t\t\tstep limit of 2 at bid 2: 0,1\tsum\n1\t1\t1\t0\t0\t\
     1\t1\t0\t\tone\n",
     ""),
    ("sizes none --progress", 5, "@\n\t\t\t\t\t\t\t\tcannot open: no such file\tnone\n", "1 of 1 none\n"),
    // NUL at the end of each line
    ("duplicates -0 one other same other", 0, "one\0same\0\0other\0other\0", ""),
    ("sizes --null same none one", 5,
     "@\01\t2\t2\t0\t0\t1\t1\t0\t\tsame\0\t\t\t\t\t\t\t\tcannot open: no such file\tnone\01\t1\t1\t0\t0\t1\t1\t0\t\tone\0",
     ""),
    ("duplicates -0 one other", 0, "", ""),
    // a row for each path, also of those that are refused
    ("sizes folder fifo one secret broken", 5,
     "@\n\t\t\t\t\t\t\t\tcannot open: is a folder: name it to 'fault', 'duplicates' or 'sizes'\tfolder\n\
     \t\t\t\t\t\t\t\tcannot open: not a file\tfifo\n1\t1\t1\t0\t0\t1\t1\t0\t\tone\n\
     \t\t\t\t\t\t\t\tcannot open: permission denied\tsecret\n\t\t\t\t\t\t\t\tcannot open\tbroken\n",
     ""),
    // a reason for each path that is refused
    ("duplicates one folder fifo secret none broken one", 5, "one\none\n",
     "folder: cannot open: is a folder: name it to 'fault', 'duplicates' or 'sizes'\nfifo: cannot open: not a file\n\
     secret: cannot open: permission denied\n\
     none: cannot open: no such file\nbroken: cannot open\n"),
    ("sizes --files0-from secret", 5, "", "secret: cannot open: permission denied\n"),
    // names that are escaped on both streams, and are not with -0
    ("duplicates --files0-from list-of-such-names", 5,
     "a\\nb\na\\tb\n\\x1b[2J\na\\\\nb\n\\x7f\n\u{e9}\n\\xc2\\x9b2J\n\\xe2\\x80\\xaeb\n",
     "\\x1bnone: cannot open: no such file\n\\xff: cannot open\n"),
    ("duplicates -0 --files0-from list-of-such-names", 5, "a\nb\0a\tb\0\x1b[2J\0a\\nb\0\x7f\0\u{e9}\0\u{9b}2J\0\u{202e}b\0",
     "\\x1bnone: cannot open: no such file\n\\xff: cannot open\n"),
    ("duplicates --files0-from list", 0, "one\nsame\n", ""),
    ("duplicates --files0-from=list-without-its-last-NUL", 0, "one\nsame\n", ""),
    ("duplicates --files0-from empty-list", 0, "", ""),
    ("sizes --files0-from empty-list", 0, "@\n", ""),
    ("sizes --files0-from list-with-a-path-twice", 0,
     "@\n1\t2\t2\t0\t0\t1\t1\t0\t\tsame\n1\t1\t1\t0\t0\t1\t1\t0\t\tother\n1\t2\t2\t0\t0\t1\t1\t0\t\tsame\n", ""),
    ("duplicates --files0-from list-with-an-empty-path", 5, "one\nsame\n", ": cannot open: no such file\n"),
    ("sizes --files0-from no-list", 5, "", "no-list: cannot open: no such file\n"),
    // faults, each below the path of its file
    ("fault one", 0, "", ""),
    ("fault bad one none fine", 5,
     "bad:2:1: Missing\nthe file has one line: it seems cut, or lines end with CR: see `tr '\\r' '\\n' < F`\n\
     fine:4:3: NotANumber: 1e-7\na price with an exponent is read with `--round`\n",
     "none: cannot open: no such file\n"),
    ("fault --progress --files0-from list", 0, "", "1 of 3 one\n2 of 3 other\n3 of 3 same\n"),
    // the fault that is left, with the word as the file has it
    ("fault --round fine one", 0, "", ""),
    ("fault fine --round-exact", 2,
     "fine:4:3: TooFine: 1e-7\na price has at most six places after the point; `--round` rounds it\n", ""),
    ("fault --round two-prices", 2,
     "two-prices:5:9: NotANumber: x\ngoods are numbers, counted from 0; write them in the place of names\n", ""),
    ("fault --round great", 2,
     "great:4:3: TooLarge: 1e13\nprices go up to 10^12: divide all by one power of ten; `bids` and `dummy` go up to 65536\n",
     ""),
    ("sizes", 64, "", "error: give paths, or '--files0-from <LIST>'\n\nFor more information, try '--help'.\n"),
    ("duplicates --files0-from list one", 64, "",
     "error: give paths or '--files0-from <LIST>', and not both\n\nFor more information, try '--help'.\n"),
    ("duplicates --all one other same", 0, "one\nsame\n\nother\n", ""),
    // refused files, and paths to be escaped
    ("duplicates bad folder one fifo bad", 5, "",
     "bad: line 2: Missing\nfolder: cannot open: is a folder: name it to 'fault', 'duplicates' or 'sizes'\n\
     fifo: cannot open: not a file\nbad: line 2: Missing\n"),
    ("duplicates --progress --files0-from list-of-refused-names", 5, "",
     "1 of 4 \\x1b\n\\x1b: line 4: NoEnd\n2 of 4 a\\nc\\\\\na\\nc\\\\: cannot open: no such file\n\
     3 of 4 \\xff\n\\xff: cannot open\n4 of 4 one\n"),
    ("sizes --files0-from a\tc", 5, "", "a\\tc: cannot open: no such file\n"),
    // the same auction in other files, and other auctions
    ("duplicates a b", 0, "", ""),
    ("duplicates a a2", 0, "a\na2\n", ""),
    ("duplicates a a", 0, "a\na\n", ""),
    // three auctions, one after the other
    ("duplicates a b c c2 a2 b2", 0, "a\na2\n\nb\nb2\n\nc\nc2\n", ""),
    ("duplicates price good bidder goods a c a2", 0, "a\na2\n", ""),
    // a refused file between two equal ones
    ("duplicates a bad a2", 2, "a\na2\n", "bad: line 2: Missing\n"),
    ("duplicates none b empty b2", 5, "b\nb2\n", "none: cannot open: no such file\nempty: line 1: Missing\n"),
    ("duplicates --steps 2 a2 a bad a2", 3, "a2\na2\n", "a: step limit of 2 at bid 2: 0,1\nbad: line 2: Missing\n"),
    // refused files that are alike, behind the others, and one that is alone
    ("duplicates --steps 2 a c a3 a2 a4 c2", 3, "c\nc2\n\na\na3\na4\n",
     "a: step limit of 2 at bid 2: 0,1\na3: step limit of 2 at bid 0: 0,1\na4: step limit of 2 at bid 3: 0,1\n"),
    ("duplicates --all --steps 2 a b a3", 3, "b\n\na\na3\n",
     "a: step limit of 2 at bid 2: 0,1\na3: step limit of 2 at bid 0: 0,1\n"),
    ("duplicates --all --steps 2 a b", 3, "b\n", "a: step limit of 2 at bid 2: 0,1\n"),
    // a table of groups, of judged files and of refused ones that are alike
    ("duplicates --table a b a2 bad none b2", 5,
     "group\tfirst\tfile\tfault\n1\ta\ta\t\n2\tb\tb\t\n1\ta\ta2\t\n\tbad\tbad\tline 2: Missing\n\
     \tnone\tnone\tcannot open: no such file\n2\tb\tb2\t\n",
     ""),
    ("duplicates --all --table --steps 2 --progress a c a3 c2", 3,
     "group\tfirst\tfile\tfault\n1\ta\ta\tstep limit of 2 at bid 2: 0,1\n2\tc\tc\t\n\
     1\ta\ta3\tstep limit of 2 at bid 0: 0,1\n2\tc\tc2\t\n",
     "1 of 4 a\n2 of 4 c\n3 of 4 a3\n4 of 4 c2\n"),
    ("duplicates -0 --table one bad same", 2,
     "group\0first\0file\0fault\01\0one\0one\0\0\0bad\0bad\0line 2: Missing\01\0one\0same\0\0", ""),
    ("duplicates --table --files0-from empty-list", 0, "group\tfirst\tfile\tfault\n", ""),
    // one file alone
    ("duplicates a", 0, "", ""),
    ("duplicates none bad", 5, "", "none: cannot open: no such file\nbad: line 2: Missing\n"),
    ("duplicates --progress a bad a2", 2, "a\na2\n", "1 of 3 a\n2 of 3 bad\nbad: line 2: Missing\n3 of 3 a2\n"),
    ("duplicates a a2 --steps=3", 0, "a\na2\n", ""),
    ("duplicates c a c2 --progress", 0, "c\nc2\n", "1 of 3 c\n2 of 3 a\n3 of 3 c2\n"),
};

/// The same if standard error is a terminal.
static TERMINAL_ROWS: &[Row<'_>] = rows! {
    ("duplicates --progress one none same bad", 5, "one\nsame\n",
     "\x1b[?7l1 of 4 one\x1b[?7h\n\x1b[A\x1b[K\x1b[?7l2 of 4 none\x1b[?7h\n\x1b[A\x1b[Knone: cannot open: no such file\n\
     \x1b[?7l3 of 4 same\x1b[?7h\n\x1b[A\x1b[K\x1b[?7l4 of 4 bad\x1b[?7h\n\x1b[A\x1b[Kbad: line 2: Missing\n"),
    ("sizes --progress bad", 2, "@\n\t\t\t\t\t\t\t\tline 2: Missing\tbad\n",
     "\x1b[?7l1 of 1 bad\x1b[?7h\n\x1b[A\x1b[K"),
    ("duplicates one bad", 2, "", "bad: line 2: Missing\n"),
    ("check one", 0, "goods 1 bids 1 dummy 0\n", ""),
};

#[test]
fn many_files_in_memory(rt: HostRuntime) -> Result<(), Fail> {
    judge_rows(&rt, FILES, ROWS, false)?;
    judge_rows(&rt, FILES, TERMINAL_ROWS, true)
}
