//! Differences that are worked out by hand. Texts have prices in units, the lines in millionths.

use super::{expect, text_of_bids};
use std::test::Fail;

/// The bids of two files of 3 goods and 3 dummy goods, and the differences of their canonical files.
type Row = (
    &'static [&'static str],
    &'static [&'static str],
    &'static str,
);

static ROWS: &[Row] = rows! {
    (&[], &[], ""),
    // a bid at a price of 0
    (&["0 1", "3 0"], &[], "[0] Some(3000000) None\n"),
    // a bid that the two others make worthless
    (&["3 0", "4 1", "7 0 1"], &["4 1", "3 0"], ""),
    // on the left alone, at two prices, on the right alone
    (&["3 0", "4 1"], &["5 1", "6 2"], "[0] Some(3000000) None\n[1] Some(4000000) Some(5000000)\n[2] None Some(6000000)\n"),
    // bundles by size first
    (&["9 0 1"], &["0.000001 2"], "[2] None Some(1)\n[0, 1] Some(9000000) None\n"),
    // an OR bid, and the same bid of an XOR bidder
    (&["3 0"], &["3 0 5"], "[0] Some(3000000) None\nbidder None Some(0)\n[0] None Some(3000000)\n"),
    // equal bidders with other dummy goods
    (&["5 0 3", "2 1 4", "3 2 4"], &["2 1 3", "3 2 3", "5 0 5"], ""),
    // another price of one bidder of three
    (&["5 0 3", "2 1 4", "3 2 4", "7 0 1 5"], &["5 0 3", "2 1 4", "4 2 4", "7 0 1 5"],
     "bidder Some(1) Some(1)\n[2] Some(3000000) Some(4000000)\n"),
    // another good
    (&["5 0 3", "2 1 4", "3 2 4", "7 0 1 5"], &["5 0 3", "2 1 4", "3 0 2 4", "7 0 1 5"],
     "bidder Some(1) Some(1)\n[2] Some(3000000) None\n[0, 2] None Some(3000000)\n"),
    // another bid, with which the bidder comes first
    (&["5 0 3", "2 1 4", "3 2 4", "7 0 1 5"], &["5 0 3", "2 1 4", "3 2 4", "7 0 1 5", "1 0 4"],
     "bidder Some(1) Some(0)\n[0] None Some(1000000)\n"),
    // three copies and two: the first is named
    (&["3 0 3", "3 0 4", "3 0 5"], &["3 0 3", "3 0 4"], "bidder Some(0) None\n[0] Some(3000000) None\n"),
    // two copies and three
    (&["3 0 3", "3 0 4"], &["3 0 3", "3 0 4", "3 0 5"], "bidder None Some(0)\n[0] None Some(3000000)\n"),
    // one copy and none, two copies and one, of bidders by turns
    (&["3 0 3", "4 1 4", "4 1 5"], &["4 1 3"],
     "bidder Some(0) None\n[0] Some(3000000) None\nbidder Some(1) None\n[1] Some(4000000) None\n"),
    // another good, and another price
    (&["1 0 3", "2 1 4"], &["1 2 3", "3 1 4"],
     "bidder Some(0) None\n[0] Some(1000000) None\nbidder Some(1) Some(0)\n[1] Some(2000000) Some(3000000)\n\
     bidder None Some(1)\n[2] None Some(1000000)\n"),
    // all bundles are as rare: the first, although the second has two bids in common
    (&["1 0 3", "2 1 3", "3 2 3"], &["1 0 3", "1 1 3", "7 2 3", "1 0 4", "2 1 4", "4 2 4"],
     "bidder Some(0) Some(0)\n[1] Some(2000000) Some(1000000)\n[2] Some(3000000) Some(7000000)\nbidder None Some(1)\n\
     [0] None Some(1000000)\n[1] None Some(2000000)\n[2] None Some(4000000)\n"),
    // the one on the rarest bundle
    (&["5 0 3", "5 1 3"], &["1 0 3", "2 0 4", "7 1 4"],
     "bidder Some(0) Some(1)\n[0] Some(5000000) Some(2000000)\n[1] Some(5000000) Some(7000000)\nbidder None Some(0)\n\
     [0] None Some(1000000)\n"),
    // the first on the first bundle
    (&["1 0 3", "2 1 3"], &["1 0 4", "5 1 4", "1 0 3", "4 1 3"],
     "bidder Some(0) Some(0)\n[1] Some(2000000) Some(4000000)\nbidder None Some(1)\n[0] None Some(1000000)\n\
     [1] None Some(5000000)\n"),
    // whatever the prices
    (&["2 0 3", "2 1 3"], &["1 0 3", "2 1 3", "2 0 4", "1 1 4"],
     "bidder Some(0) Some(0)\n[0] Some(2000000) Some(1000000)\nbidder None Some(1)\n[0] None Some(2000000)\n\
     [1] None Some(1000000)\n"),
    // one that is beside another bidder is not taken again: the next rarest bundle
    (&["1 0 3", "2 1 3", "1 0 4", "3 1 4"], &["1 0 3", "4 1 3", "1 0 4", "5 2 4"],
     "bidder Some(0) Some(0)\n[1] Some(2000000) Some(4000000)\nbidder Some(1) Some(1)\n[1] Some(3000000) None\n\
     [2] None Some(5000000)\n"),
    // and none is left for the second
    (&["1 0 3", "2 1 3", "1 0 4", "3 1 4"], &["1 0 3", "4 1 3"],
     "bidder Some(0) Some(0)\n[1] Some(2000000) Some(4000000)\nbidder Some(1) None\n[0] Some(1000000) None\n\
     [1] Some(3000000) None\n"),
    // a bidder that both files have is beside no other one
    (&["1 0 3", "2 1 3", "1 0 4", "2 1 4", "3 2 4"], &["1 0 3", "2 1 3", "1 0 4"],
     "bidder Some(1) Some(0)\n[1] Some(2000000) None\n[2] Some(3000000) None\n"),
    // those of the right file that are left, in order
    (&["2 1 3", "1 2 3"], &["5 2 3", "2 0 4", "2 1 5"],
     "bidder Some(0) Some(1)\n[2] Some(1000000) None\nbidder None Some(0)\n[0] None Some(2000000)\nbidder None Some(2)\n\
     [2] None Some(5000000)\n"),
};

/// Each row, and that its files have no difference from themselves.
#[test]
fn rows_by_hand(rt: HostRuntime) -> Result<(), Fail> {
    for (left, right, lines) in ROWS {
        let left = text_of_bids(rt.alloc(), 3, 3, left)?;
        let right = text_of_bids(rt.alloc(), 3, 3, right)?;
        expect(&rt, &left, &right, lines)?;
        expect(&rt, &left, &left, "")?;
        expect(&rt, &right, &right, "")?;
    }
    Ok(())
}

/// Files with other numbers of goods, whose bids are compared too.
static NUMBERS_OF_GOODS: &[(&str, &str, &str)] = rows! {
    ("goods 1\nbids 1\ndummy 0\n0 3 0 #\n", "goods 2\nbids 2\ndummy 1\n0 4 0 #\n1 5 1 2 #\n",
     "goods 1 2\n[0] Some(3000000) Some(4000000)\nbidder None Some(0)\n[1] None Some(5000000)\n"),
    ("goods 2\nbids 2\ndummy 1\n0 4 0 #\n1 5 1 2 #\n", "goods 1\nbids 1\ndummy 0\n0 3 0 #\n",
     "goods 2 1\n[0] Some(4000000) Some(3000000)\nbidder Some(0) None\n[1] Some(5000000) None\n"),
    ("goods 1\nbids 0\ndummy 0\n", "goods 2\nbids 0\ndummy 0\n", "goods 1 2\n"),
};

#[test]
fn numbers_of_goods(rt: HostRuntime) -> Result<(), Fail> {
    for (left, right, lines) in NUMBERS_OF_GOODS {
        expect(&rt, left, right, lines)?;
    }
    Ok(())
}
