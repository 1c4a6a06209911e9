//! `cats publish` on files in memory, and on a new folder.

use super::each_command::words_of;
use super::memory::{Files, FilesInMemory, answer_on};
use super::new_folder::{self, folder_with, judge_rows};
use super::streams::{expect, writer};
use std::alloc::{AllocError, AllocGlobal, Global};
use std::fs;
use std::process::Abort;
use std::test::Fail;

static FILES: Files<'_> = rows! {
    ("x/one", b"goods 1\nbids 2\ndummy 0\n0 3 0 #\n1 2 0 #\n"),
    ("y/one", b"goods 1\nbids 1\ndummy 0\n0 3 0 #\n"),
    ("y/same", b"goods 1\nbids 1\ndummy 0\n0 3 0 #\n"),
    ("other", b"goods 1\nbids 1\ndummy 0\n0 4 0 #\n"),
    ("bad", b"goods 1\n"),
    ("fine", b"goods 1\nbids 1\ndummy 0\n0 1e-7 0 #\n"),
    ("x/..", b"goods 1\nbids 1\ndummy 0\n0 5 0 #\n"),
    ("sum", b"goods 2\nbids 3\ndummy 0\n0 3 0 #\n1 4 1 #\n2 7 0 1 #\n"),
    ("list", b"x/one\0other\0"),
};

/// What the first line of the table has.
const HEADER: &str = "file\ttext\tsame_as\tgoods\tbids\tkept\trounded\tzeroed\tfault";

/// The words behind `cats publish`, and what is answered: the status, the output, in which `@` means `HEADER`, the lines of
/// faults, and the texts that are written, each below a line with its path. Something is at `taken/other` before.
type Row = (&'static str, u8, &'static str, &'static str, &'static str);

static ROWS: &[Row] = rows! {
    ("d x/one other", 0, "@\nx/one\tone\t\t1\t2\t1\t0\t0\t\nother\tother\t\t1\t1\t1\t0\t0\t\n", "",
     "d/one\ngoods 1\nbids 1\ndummy 0\n0\t3\t0\t#\nd/other\ngoods 1\nbids 1\ndummy 0\n0\t4\t0\t#\n"),
    // the same auction, whose text is written once, and a refused file, whose row has its fault
    ("d x/one y/same bad", 2,
     "@\nx/one\tone\t\t1\t2\t1\t0\t0\t\ny/same\t\tx/one\t1\t1\t1\t0\t0\t\nbad\t\t\t\t\t\t\t\tline 2: Missing\n", "",
     "d/one\ngoods 1\nbids 1\ndummy 0\n0\t3\t0\t#\n"),
    ("d x/one y/same --all", 0, "@\nx/one\tone\t\t1\t2\t1\t0\t0\t\ny/same\tsame\tx/one\t1\t1\t1\t0\t0\t\n", "",
     "d/one\ngoods 1\nbids 1\ndummy 0\n0\t3\t0\t#\nd/same\ngoods 1\nbids 1\ndummy 0\n0\t3\t0\t#\n"),
    ("d/ fine --round", 0, "@\nfine\tfine\t\t1\t1\t0\t1\t1\t\n", "fine: 1 price rounded, 1 to 0\n",
     "d/fine\ngoods 1\nbids 0\ndummy 0\n"),
    ("d fine", 2, "@\nfine\t\t\t\t\t\t\t\tline 4: NotANumber\n", "", ""),
    ("d none other", 5, "@\nnone\t\t\t\t\t\t\t\tcannot open: no such file\nother\tother\t\t1\t1\t1\t0\t0\t\n", "",
     "d/other\ngoods 1\nbids 1\ndummy 0\n0\t4\t0\t#\n"),
    ("d --steps 2 sum other", 3,
     "@\nsum\t\t\t2\t3\t\t\t\tstep limit of 2 at bid 2: 0,1\nother\tother\t\t1\t1\t1\t0\t0\t\n", "",
     "d/other\ngoods 1\nbids 1\ndummy 0\n0\t4\t0\t#\n"),
    ("d --files0-from list", 0, "@\nx/one\tone\t\t1\t2\t1\t0\t0\t\nother\tother\t\t1\t1\t1\t0\t0\t\n", "",
     "d/one\ngoods 1\nbids 1\ndummy 0\n0\t3\t0\t#\nd/other\ngoods 1\nbids 1\ndummy 0\n0\t4\t0\t#\n"),
    ("d --files0-from none", 5, "", "none: cannot open: no such file\n", ""),
    ("d --progress other", 0, "@\nother\tother\t\t1\t1\t1\t0\t0\t\n", "1 of 1 other\n",
     "d/other\ngoods 1\nbids 1\ndummy 0\n0\t4\t0\t#\n"),
    // refused before anything is written
    ("d x/one y/one", 64, "", "y/one: cannot write: its text would be at or below that of x/one\n", ""),
    ("d other x/..", 64, "", "x/..: cannot write: its text would not be below the folder\n", ""),
    ("taken x/one other", 5, "", "taken/other: cannot write: it exists already\n", ""),
    ("taken x/one", 0, "@\nx/one\tone\t\t1\t2\t1\t0\t0\t\n", "", "taken/one\ngoods 1\nbids 1\ndummy 0\n0\t3\t0\t#\n"),
};

fn texts_of(alloc: Global, texts: &[(Vec<u8>, Vec<u8>)]) -> Result<Vec<u8>, AllocError> {
    let mut all = Vec::new(alloc);
    for (path, text) in texts {
        all.extend_from_slice(path.as_slice())?;
        all.push(b'\n')?;
        all.extend_from_slice(text.as_slice())?;
    }
    Ok(all)
}

fn judge_row(rt: &(impl Abort + AllocGlobal), row: &Row) -> Result<(), Fail> {
    let alloc = rt.alloc();
    let (line, status, sent, reported, written) = row;
    let mut source = FilesInMemory::new(alloc, FILES);
    let path = Vec::from_slice(alloc, b"taken/other")?;
    source.texts.push((path, Vec::new(alloc)))?;
    let line = format!(in alloc; "cats publish {line}")?;
    let words = words_of(alloc, line.as_str(), "", "")?;
    let out = writer(alloc, 4096, 4096);
    let answer = answer_on(&mut source, words.as_slice(), out, false)?;
    let sent = sent.replace(alloc, '@', HEADER)?;
    expect(rt, &answer, *status, sent.as_str(), reported);
    let texts = String::from_utf8(texts_of(alloc, source.texts.as_slice())?)?;
    let wanted = format!(in alloc; "taken/other\n{written}")?;
    assert!(rt; texts == wanted, "of {line}: {texts}");
    Ok(())
}

#[test]
fn files_are_published(rt: HostRuntime) -> Result<(), Fail> {
    for row in ROWS {
        judge_row(&rt, row)?;
    }
    Ok(())
}

/// The folders and the files of a new folder, those above first: two files of one auction.
static FOLDERS: [&str; 4] = ["", "/in", "/in/a", "/in/b"];

static NEW_FILES: [(&str, &str); 2] = [("/in/a/z", SAME), ("/in/b/z", SAME)];

const SAME: &str = "goods 1\nbids 1\ndummy 0\n0 3 0 #\n";

static LINES: &[new_folder::Row] = rows! {
    ("cats publish @/out @/in", 0,
     "file\ttext\tsame_as\tgoods\tbids\tkept\trounded\tzeroed\tfault\n\
     @/in/a/z\ta/z\t\t1\t1\t1\t0\t0\t\n@/in/b/z\t\t@/in/a/z\t1\t1\t1\t0\t0\t\n", ""),
    ("cats publish @/out @/in", 5, "", "@/out/a/z: cannot write: it exists already\n"),
    ("cats publish @/out @/in/b", 0,
     "file\ttext\tsame_as\tgoods\tbids\tkept\trounded\tzeroed\tfault\n@/in/b/z\tz\t\t1\t1\t1\t0\t0\t\n", ""),
    ("cats publish @/deep/out @/in --all", 0,
     "file\ttext\tsame_as\tgoods\tbids\tkept\trounded\tzeroed\tfault\n\
     @/in/a/z\ta/z\t\t1\t1\t1\t0\t0\t\n@/in/b/z\tb/z\t@/in/a/z\t1\t1\t1\t0\t0\t\n", ""),
    ("cats publish @/out/z @/in", 5, "", "@/out/z: cannot write: not a folder\n"),
    ("cats publish @/else @/in/a @/in/b", 64, "",
     "@/in/b/z: cannot write: its text would be at or below that of @/in/a/z\n"),
};

#[test]
fn folders_are_published(rt: HostRuntime) -> Result<(), Fail> {
    let start = folder_with(&rt, "publish", &FOLDERS, &NEW_FILES)?;
    let start = start.as_str();
    judge_rows(&rt, &rt, start, LINES)?;
    let path = format!(in rt.alloc(); "{start}/out/a/z")?;
    let text = fs::read_to_string(&rt, path.as_str())?;
    assert!(&rt; text.as_str() == "goods 1\nbids 1\ndummy 0\n0\t3\t0\t#\n");
    fs::remove_dir_all(&rt, start)?;
    Ok(())
}
