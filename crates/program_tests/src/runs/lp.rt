//! `cats lp`: the winner determination problems of files.

use super::inputs::answer_on_input;
use super::streams::{RunAnswer, expect, input, writer};
use std::alloc::Global;
use std::test::Fail;

/// What `lp` answers of a text, with a writer that takes 7 bytes a call.
fn printed(alloc: Global, text: &[u8], fails: bool) -> Result<RunAnswer, Fail> {
    let out = writer(alloc, 7, 65_536);
    answer_on_input(alloc, "cats lp FILE", input(text, fails), out)
}

/// Texts, and what `lp` prints of them.
static ROWS: [(&[u8], &str); 6] = [
    // no bids
    (
        b"goods 2\nbids 0\ndummy 1\n",
        "\\ revenue in millionths\nMaximize\n revenue:\n + 0 none\nSubject To\n none:\n + none\n <= 1\nBinary\n none\nEnd\n",
    ),
    // no good of two bids
    (
        b"goods 2\nbids 2\ndummy 1\n1 2.50 1 #\n0 01 0 2 #\n",
        "\\ revenue in millionths\nMaximize\n revenue:\n + 1000000 x0\n + 2500000 x1\n + 0 none\n\
        Subject To\n none:\n + none\n <= 1\nBinary\n x0\n x1\n none\nEnd\n",
    ),
    // a dummy good alone
    (
        b"goods 2\nbids 2\ndummy 2\n0 0 0 3 #\n1 0.000001 3 1 #\n",
        "\\ revenue in millionths\nMaximize\n revenue:\n + 0 x0\n + 1 x1\n\
        Subject To\n d1:\n + x0\n + x1\n <= 1\nBinary\n x0\n x1\nEnd\n",
    ),
    // bids out of order, and goods of one bid between those of two
    (
        b"%% a comment\ngoods 3\nbids 3\ndummy 0\n2 1 2 0 #\n0 5 1 0 #\n1 3 2 #\n",
        "\\ revenue in millionths\nMaximize\n revenue:\n + 5000000 x0\n + 3000000 x1\n + 1000000 x2\n\
        Subject To\n g0:\n + x0\n + x2\n <= 1\n g2:\n + x1\n + x2\n <= 1\nBinary\n x0\n x1\n x2\nEnd\n",
    ),
    // equal bids, with a dominated one
    (
        b"goods 1\nbids 3\ndummy 0\n0 5 0 #\n1 5 0 #\n2 4 0 #\n",
        "\\ revenue in millionths\nMaximize\n revenue:\n + 5000000 x0\n + 5000000 x1\n + 4000000 x2\n\
        Subject To\n g0:\n + x0\n + x1\n + x2\n <= 1\nBinary\n x0\n x1\n x2\nEnd\n",
    ),
    // goods, and then dummy goods
    (
        b"goods 12\nbids 3\ndummy 2\n0 7 10 11 12 #\n1 999999999999.999999 10 13 #\n2 1000000000000 3 12 #\n",
        "\\ revenue in units, as sums of millionths can pass 2^53\nMaximize\n revenue:\n\
        \x20+ 7 x0\n + 999999999999.999999 x1\n + 1000000000000 x2\nSubject To\n\
        \x20g10:\n + x0\n + x1\n <= 1\n d0:\n + x0\n + x2\n <= 1\nBinary\n x0\n x1\n x2\nEnd\n",
    ),
];

#[test]
fn lp_texts(rt: HostRuntime) -> Result<(), Fail> {
    for (text, program) in &ROWS {
        let answer = printed(rt.alloc(), text, false)?;
        expect(&rt, &answer, 0, program, "");
    }
    Ok(())
}

static REFUSALS: &[(&str, bool, u8, &str)] = &[
    ("", false, 2, "line 1: Missing\n"),
    (
        "goods 1\nbids 1\ndummy 0\n0 1 0\n",
        false,
        2,
        "line 4: NoEnd\n",
    ),
    ("goods 0\nbids 0\ndummy 0\n", true, 5, "Device\n"),
];

#[test]
fn refusals(rt: HostRuntime) -> Result<(), Fail> {
    for (text, fails, status, line) in REFUSALS {
        let answer = printed(rt.alloc(), text.as_bytes(), *fails)?;
        expect(&rt, &answer, *status, "", line);
    }
    Ok(())
}
