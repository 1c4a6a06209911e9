//! The program on files of the system, by command lines.

use super::each_command::{COMMANDS, words_of};
use super::streams::{RunAnswer, expect, text_taken, writer};
use cats_cmd::run_cats;
use std::process::Abort;
use std::test::Fail;

/// What a command line of these words answers, with so much capacity for its output and for its faults.
pub fn run_words(
    rt: &HostRuntime,
    words: &[&str],
    out_capacity: usize,
    err_capacity: usize,
) -> Result<RunAnswer, Fail> {
    let alloc = rt.alloc();
    let mut out = writer(alloc, 4096, out_capacity);
    let mut err = writer(alloc, 4096, err_capacity);
    let status = run_cats(rt, words, &mut out, &mut err);
    Ok(RunAnswer {
        status,
        sent: text_taken(out)?,
        line: text_taken(err)?,
        torn: false,
    })
}

/// What a command line answers, whose words have a blank between each two, with a path in the place of FILE, and
/// another in that of OTHER.
pub(super) fn run(
    rt: &HostRuntime,
    line: &str,
    path: &str,
    other: &str,
    out_capacity: usize,
    err_capacity: usize,
) -> Result<RunAnswer, Fail> {
    let words = words_of(rt.alloc(), line, path, other)?;
    run_words(rt, words.as_slice(), out_capacity, err_capacity)
}

pub(super) const CAPACITY: usize = 65_536;

/// Command lines that are no request.
static WRONG_LINES: &[&str] = rows! {
    "cats", "cats Check a", "cats chek a", "cats check --steps 5 a", "cats show --steps 5 a", "cats check --all a",
    "cats value --steps 0 a", "cats value --steps 1000000001 a", "cats value --steps -1 a", "cats value --steps 1.5 a",
    "cats value --steps 5 --steps 6 a", "cats value a --steps", "cats value a 65536", "cats value a -1",
    "cats value a 0 b", "cats lp --steps 5 a", "cats compare a", "cats diff a", "cats duplicates", "cats sizes",
    "cats duplicates --steps 0 a b", "cats duplicates --progress=yes a b",
};

/// That a command line has this status, and that what it reported is as it should be.
fn expect_reported(rt: &impl Abort, line: &str, answer: &RunAnswer, status: u8, reported: bool) {
    assert!(rt;
        reported && answer.status == status,
        "of {line:?}: {answer:?}"
    );
}

/// That a command line is wrong, and that it is reported why.
fn expect_wrong(rt: &HostRuntime, abort: &impl Abort, line: &str) -> Result<(), Fail> {
    for err_capacity in [CAPACITY, 3] {
        let answer = run(rt, line, "a", "b", CAPACITY, err_capacity)?;
        let reported = answer.sent.is_empty() && !answer.line.is_empty();
        expect_reported(abort, line, &answer, 64, reported);
    }
    Ok(())
}

#[test]
fn usage_faults(rt: HostRuntime) -> Result<(), Fail> {
    for line in WRONG_LINES {
        expect_wrong(&rt, &rt, line)?;
    }
    for (name, words, _, _) in COMMANDS {
        for line in &[
            format!(in rt.alloc(); "cats {name}")?,
            format!(in rt.alloc(); "cats {name} --steps 0 {words}")?,
            format!(in rt.alloc(); "cats {name} {words} c")?,
        ] {
            expect_wrong(&rt, &rt, line.as_str())?;
        }
    }
    assert!(rt; run_words(&rt, &[], CAPACITY, CAPACITY)?.status == 64);
    Ok(())
}

/// Command lines that name help.
static HELP_LINES: &[&str] = rows! {
    "cats --help", "cats -h", "cats help", "cats help check", "cats fault --help", "cats duplicates --help",
};

/// That a command line prints help.
fn expect_help(rt: &HostRuntime, abort: &impl Abort, line: &str) -> Result<(), Fail> {
    let answer = run(rt, line, "", "", CAPACITY, CAPACITY)?;
    let printed = answer.sent.as_str().contains("Usage: cats") && answer.line.is_empty();
    expect_reported(abort, line, &answer, 0, printed);
    let cut_off = run(rt, line, "", "", 3, CAPACITY)?;
    expect_reported(abort, line, &cut_off, 5, true);
    Ok(())
}

#[test]
fn help(rt: HostRuntime) -> Result<(), Fail> {
    for line in HELP_LINES {
        expect_help(&rt, &rt, line)?;
    }
    for (name, _, _, _) in COMMANDS {
        let line = format!(in rt.alloc(); "cats {name} --help")?;
        expect_help(&rt, &rt, line.as_str())?;
    }
    Ok(())
}

/// Lines and a path, how much standard output and standard error take, and what is answered.
static ROWS: &[(&str, &str, usize, usize, (u8, &str, &str))] = rows! {
    ("cats --version", "", CAPACITY, CAPACITY, (0, "cats 0.3.0\n", "")),
    ("cats -V", "", CAPACITY, CAPACITY, (0, "cats 0.3.0\n", "")),
    ("cats --version", "", 3, CAPACITY, (5, "cat", "")),
    ("cats -V", "", 3, CAPACITY, (5, "cat", "")),
    ("cats check FILE", "/tmp/cats_cmd_no_such_folder/a.cats", CAPACITY, CAPACITY, (5, "", "cannot open\n")),
    ("cats check FILE", "/tmp/cats_cmd_no_such_folder/a.cats", CAPACITY, 0, (5, "", "")),
    ("cats check FILE", "", CAPACITY, CAPACITY, (5, "", "cannot open\n")),
    ("cats check FILE", "a\0b", CAPACITY, CAPACITY, (5, "", "cannot open\n")),
    // a folder is opened, and cannot be read, or it is said what takes one
    ("cats check FILE", "/tmp", CAPACITY, CAPACITY, (5, "", "Device\n")),
    ("cats lp FILE", "/tmp", CAPACITY, CAPACITY,
     (5, "", "/tmp: cannot open: is a folder: name it to 'fault', 'duplicates' or 'sizes'\n")),
};

#[test]
fn version_and_paths(rt: HostRuntime) -> Result<(), Fail> {
    for (line, path, out_capacity, err_capacity, (status, sent, reported)) in ROWS {
        let answer = run(&rt, line, path, "", *out_capacity, *err_capacity)?;
        expect(&rt, &answer, *status, sent, reported);
    }
    Ok(())
}
