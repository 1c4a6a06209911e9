//! Each path of a command line is opened once, in order, and in its way.

use super::each_command::{COMMANDS, prefixes, words_of};
use super::memory::{FILES, FilesInMemory, answer_on};
use super::streams::writer;
use std::process::Abort;
use std::test::Fail;

/// Lines behind `cats`, each with its status and a line for each opening.
static OPENINGS: &[(&str, u8, &str)] = rows! {
    ("--version", 0, ""),
    ("check same one", 64, ""),
    ("check same", 0, "Anything same\n"),
    ("fault bad", 2, "NoFolder bad\n"),
    ("round none", 5, "NoFolder none\n"),
    ("compare one other", 1, "Anything one\nAnything other\n"),
    ("compare none one", 5, "Anything none\n"),
    ("diff bad one", 2, "NoFolder bad\nNoFolder one\n"),
    // a list is opened before its file, or in place of it
    ("revenue same --bids bids", 1, "NoFolder bids\nNoFolder same\n"),
    ("revenue same --bids words", 2, "NoFolder words\n"),
    ("revenue same --bids none", 5, "NoFolder none\n"),
    ("fault one bad one", 2, "NoFolder one\nNoFolder bad\nNoFolder one\n"),
    // what is named may be a device or a FIFO; what is below a folder, or in a list, is opened if it is a regular file
    ("sizes same fifo same", 5, "NoFolder same\nNoFolder fifo\nNoFolder same\n"),
    ("duplicates same tree one", 0, "NoFolder same\nRegular tree/one\nNoFolder one\n"),
    ("publish to same tree", 0, "NoFolder same\nRegular tree/one\n"),
    ("fault --files0-from list", 0, "NoFolder list\nRegular one\nRegular other\nRegular same\n"),
    ("duplicates --files0-from list", 0, "NoFolder list\nRegular one\nRegular other\nRegular same\n"),
    ("sizes --files0-from folder", 5, "NoFolder folder\n"),
    ("sizes --files0-from empty-list", 0, "NoFolder empty-list\n"),
};

/// That a line makes these openings, and no others.
fn opens(
    rt: &(impl Abort + AllocGlobal),
    line: &str,
    status: u8,
    openings: &str,
) -> Result<(), Fail> {
    let alloc = rt.alloc();
    let line = format!(in alloc; "cats {line}")?;
    let words = words_of(alloc, line.as_str(), "sum", "sum")?;
    let mut source = FilesInMemory::new(alloc, FILES);
    let out = writer(alloc, 4096, 4096);
    let answer = answer_on(&mut source, words.as_slice(), out, false)?;
    let made = source.lines.as_str();
    assert!(rt; made == openings, "of {line}: {made}");
    assert!(rt; answer.status == status, "of {line}: {answer:?}");
    Ok(())
}

#[test]
fn each_path_is_opened_once(rt: HostRuntime) -> Result<(), Fail> {
    for (line, status, openings) in OPENINGS {
        opens(&rt, line, *status, openings)?;
    }
    for (name, words, _, _) in COMMANDS {
        let line = format!(in rt.alloc(); "{name} {words}")?;
        let way = match *name {
            "check" | "show" | "value" | "normalise" | "compare" => "Anything",
            _ => "NoFolder",
        };
        let openings = match prefixes(words).len() {
            1 => format!(in rt.alloc(); "{way} sum\n")?,
            _ => format!(in rt.alloc(); "{way} sum\n{way} sum\n")?,
        };
        opens(&rt, line.as_str(), 0, openings.as_str())?;
    }
    Ok(())
}
