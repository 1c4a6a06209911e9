//! Each line on standard error is one write, so that none tears where several programs share it. Of lines on files
//! `RunAnswer::torn` says so; here are those that `clap` prints, and long ones.

use super::memory::{FILES, FilesInMemory};
use super::streams::{StepWriter, writer};
use cats_cmd::program::{Process, run_program};
use std::alloc::{AllocGlobal, Global};
use std::process::Abort;
use std::test::Fail;

/// What goes to standard error of a command line.
fn reported(alloc: Global, words: &[&str]) -> StepWriter {
    let mut source = FilesInMemory::new(alloc, FILES);
    let mut out = writer(alloc, 4096, 4096);
    let mut err = writer(alloc, usize::MAX, usize::MAX);
    let process = Process {
        version: "1.2 (test)",
        help: &[],
        terminal: false,
    };
    let _ = run_program(&mut source, words, &mut out, &mut err, &process);
    err.into_inner()
}

#[test]
fn a_wrong_line_is_one_write(rt: HostRuntime) {
    for words in &[
        &["cats", "chek", "a"] as &[&str],
        &["cats"],
        &["cats", "check", "--all", "a"],
    ] {
        let err = reported(rt.alloc(), words);
        assert!(rt; err.writes == 1, "of {words:?}: {:?}", err.taken);
    }
}

/// A line of 4096 bytes, the path's among them, is one write; a longer one is sent in pieces, and whole.
#[test]
fn long_paths(rt: HostRuntime) -> Result<(), Fail> {
    let alloc = rt.alloc();
    for (length, writes) in &[(4068, 1), (4069, 2), (5000, 2), (9000, 2)] {
        let path = String::from_utf8(vec![in alloc; b'a'; *length]?)?;
        let err = reported(alloc, &["cats", "duplicates", path.as_str()]);
        let line = format!(in alloc; "{path}: cannot open: no such file\n")?;
        let same = err.taken.as_slice() == line.as_bytes() && err.writes == *writes;
        assert!(rt; same, "{length}: {} writes of {:?}", err.writes, err.taken);
    }
    Ok(())
}
