//! The commands on one bid file or two, with what each prints of small files.

use std::alloc::{AllocError, Global};

/// A command's name, the words behind it, what it prints of a file as `TEXT` is, and what with `--round` of one as
/// `FINE` is. FILE is the path of the file; of two files, OTHER is that of the second, which is the same auction.
pub(super) static COMMANDS: &[(&str, &str, &str, &str)] = &[
    (
        "check",
        "FILE",
        "goods 2 bids 3 dummy 0\n",
        "goods 2 bids 3 dummy 1\n",
    ),
    ("show", "FILE", TEXT, FINE_SHOWN),
    (
        "value",
        "FILE 0-1",
        "or 7 2\n",
        "or 1000.012346 0 1\nxor 2 2 2\n",
    ),
    (
        "revenue",
        "FILE 0 1",
        "revenue 7\n",
        "revenue 1000.012346\n",
    ),
    ("normalise", "FILE", CANONICAL, FINE_SHOWN),
    (
        "explain",
        "FILE",
        "bid\tdummy\tprice\tgoods\treason\tkept\tby\n\
        0\t\t3\t0\tkeep\t0\t\n1\t\t4\t1\tkeep\t1\t\n2\t\t7\t0 1\tpacking\t\t0 1\n",
        "bid\tdummy\tprice\tgoods\treason\tkept\tby\n\
        0\t\t0.012346\t0\tkeep\t0\t\n1\t\t1000\t1\tkeep\t1\t\n2\t0\t2\t0 1\tkeep\t2\t\n",
    ),
    (
        "lp",
        "FILE",
        "\\ revenue in millionths\nMaximize\n revenue:\n + 3000000 x0\n + 4000000 x1\n + 7000000 x2\n\
        Subject To\n g0:\n + x0\n + x2\n <= 1\n g1:\n + x1\n + x2\n <= 1\n\
        Binary\n x0\n x1\n x2\nEnd\n",
        "\\ revenue in millionths\nMaximize\n revenue:\n + 12346 x0\n + 1000000000 x1\n + 2000000 x2\n\
        Subject To\n g0:\n + x0\n + x2\n <= 1\n g1:\n + x1\n + x2\n <= 1\n\
        Binary\n x0\n x1\n x2\nEnd\n",
    ),
    ("compare", "FILE OTHER", "same\n", "same\n"),
    ("diff", "FILE OTHER", DIFF_HEADER, DIFF_HEADER),
];

pub(super) const TEXT: &str = "goods 2\nbids 3\ndummy 0\n0\t3\t0\t#\n1\t4\t1\t#\n2\t7\t0\t1\t#\n";

/// The canonical text of `TEXT`.
pub(super) const CANONICAL: &str = "goods 2\nbids 2\ndummy 0\n0\t3\t0\t#\n1\t4\t1\t#\n";

/// Two prices are finer than a millionth, one of them halfway between two.
pub(super) const FINE: &[u8] =
    b"goods 2\nbids 3\ndummy 1\n0 0.0123456 0 #\n1 1e3 1 #\n2 2.0000005 0 1 2 #\n";

/// The layout of `FINE`, rounded, which is canonical.
const FINE_SHOWN: &str =
    "goods 2\nbids 3\ndummy 1\n0\t0.012346\t0\t#\n1\t1000\t1\t#\n2\t2\t0\t1\t2\t#\n";

const DIFF_HEADER: &str =
    "kind\tgoods\tleft\tright\tleft_dummy\tright_dummy\tleft_bid\tright_bid\n";

/// How the faults of each of a command's files begin, from the words behind its name.
pub(super) fn prefixes(words: &str) -> &'static [&'static str] {
    if words.contains("OTHER") {
        &["first: ", "second: "]
    } else {
        &[""]
    }
}

/// The words of a line, which have a blank between each two, with a path in the place of FILE, and another in that of OTHER.
pub(super) fn words_of<'a>(
    alloc: Global,
    line: &'a str,
    path: &'a str,
    other: &'a str,
) -> Result<Vec<&'a str>, AllocError> {
    let mut words = Vec::new(alloc);
    for word in line.split(' ') {
        words.push(match word {
            "FILE" => path,
            "OTHER" => other,
            _ => word,
        })?;
    }
    Ok(words)
}
