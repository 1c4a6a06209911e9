//! Lines on new files of the system.

use super::each_command::{COMMANDS, prefixes};
use super::program::{CAPACITY, run};
use super::streams::expect;
use std::process::Abort;
use std::test::Fail;
use std::{fs, process};

/// The path of a new file with this text.
fn new_file(rt: &HostRuntime, name: &str, text: &str) -> Result<String, Fail> {
    let id = process::id(rt.process());
    let path = format!(in rt.alloc(); "/tmp/cats_cmd_{id}_{name}")?;
    fs::write(rt, path.as_str(), text)?;
    Ok(path)
}

const SIZES: &str = "goods 2\nbids 0\ndummy 1\n";

const MISSING: &str = "goods 2\nbids 0\n";

const LARGER_BID: &str = "goods 2\nbids 3\ndummy 0\n0 3 0 #\n1 4 1 #\n2 7 0 1 #\n";

/// Lines on the files `one`, with `SIZES`, and `other`, with `MISSING`; how much standard output and standard error take;
/// and what is answered. Paths begin with what `@` means.
static ROWS: &[(&str, usize, usize, (u8, &str, &str))] = rows! {
    ("cats check @one", CAPACITY, CAPACITY, (0, "goods 2 bids 0 dummy 1\n", "")),
    ("cats check @one", 5, CAPACITY, (5, "goods", "output failed after 5 bytes\n")),
    ("cats check @one", 5, 0, (5, "goods", "")),
    // both files are opened before either is read
    ("cats compare @other /tmp/cats_cmd_no_such_folder/a.cats", CAPACITY, CAPACITY, (5, "", "second: cannot open\n")),
    ("cats compare /tmp/cats_cmd_no_such_folder/a.cats /tmp/cats_cmd_no_such_folder/b.cats", CAPACITY, CAPACITY,
     (5, "", "first: cannot open\n")),
    ("cats diff @other /tmp/cats_cmd_no_such_folder/a.cats", CAPACITY, CAPACITY,
     (5, "", "/tmp/cats_cmd_no_such_folder/a.cats: cannot open: no such file\n")),
    // files, a device that gives nothing, and a path below a file
    ("cats duplicates @one /dev/null @other @one", CAPACITY, CAPACITY,
     (2, "@one\n@one\n", "/dev/null: line 1: Missing\n@other: line 3: Missing\n")),
    ("cats duplicates @one @one/b", CAPACITY, CAPACITY, (5, "", "@one/b: cannot open\n")),
    ("cats duplicates @other @one @one", CAPACITY, 0, (2, "@one\n@one\n", "")),
    ("cats duplicates @one @one", 4, CAPACITY, (5, "/tmp", "output failed after 4 bytes\n")),
    ("cats duplicates @one @other @one", 4, 0, (5, "/tmp", "")),
};

#[test]
fn files(rt: HostRuntime) -> Result<(), Fail> {
    let alloc = rt.alloc();
    let path = new_file(&rt, "one", SIZES)?;
    let other = new_file(&rt, "other", MISSING)?;
    let id = process::id(rt.process());
    let start = format!(in alloc; "/tmp/cats_cmd_{id}_")?;
    let start = start.as_str();
    for (line, out_capacity, err_capacity, (status, sent, reported)) in ROWS {
        let line = line.replace(alloc, '@', start)?;
        let sent = sent.replace(alloc, '@', start)?;
        let reported = reported.replace(alloc, '@', start)?;
        let answer = run(&rt, line.as_str(), "", "", *out_capacity, *err_capacity)?;
        expect(&rt, &answer, *status, sent.as_str(), reported.as_str());
    }
    fs::remove_file(&rt, path.as_str())?;
    fs::remove_file(&rt, other.as_str())?;
    Ok(())
}

/// What a command answers of a file as `TEXT` is, with much capacity and with little, and of one that ends too soon.
fn answers_of_each(
    rt: &HostRuntime,
    abort: &(impl Abort + AllocGlobal),
    (name, words, sent, _): (&str, &str, &str, &str),
    path: &str,
    missing: &str,
) -> Result<(), Fail> {
    let line = format!(in rt.alloc(); "cats {name} {words}")?;
    let line = line.as_str();
    let whole = run(rt, line, path, path, CAPACITY, CAPACITY)?;
    expect(abort, &whole, 0, sent, "");
    for capacity in [0, 4, 8, 9] {
        if capacity < sent.len() {
            let taken = sent.get(..capacity).unwrap_or(sent);
            let answer = run(rt, line, path, path, capacity, CAPACITY)?;
            let reported = format!(in rt.alloc(); "output failed after {capacity} bytes\n")?;
            expect(abort, &answer, 5, taken, reported.as_str());
        }
    }
    let prefix = prefixes(words).first().copied().unwrap_or("");
    let fault = format!(in rt.alloc(); "{prefix}line 3: Missing\n")?;
    for (err_capacity, reported) in [(CAPACITY, fault.as_str()), (0, "")] {
        let refused = run(rt, line, missing, missing, CAPACITY, err_capacity)?;
        expect(abort, &refused, 2, "", reported);
    }
    Ok(())
}

#[test]
fn each_command(rt: HostRuntime) -> Result<(), Fail> {
    let path = new_file(&rt, "each", LARGER_BID)?;
    let missing = new_file(&rt, "missing", MISSING)?;
    for command in COMMANDS {
        answers_of_each(&rt, &rt, *command, path.as_str(), missing.as_str())?;
    }
    fs::remove_file(&rt, path.as_str())?;
    fs::remove_file(&rt, missing.as_str())?;
    Ok(())
}
