//! `cats duplicates` and `cats sizes` on a new folder.

use super::new_folder::{Row, folder_with, judge_rows};
use std::fs;
use std::os::unix::fs::symlink;
use std::test::Fail;

/// The folders, each with its path in the new one, those above first.
static FOLDERS: [&str; 4] = ["", "/a", "/a/y", "/empty"];

/// The files. In the order of the bytes of their paths `a.b` comes before what is in `a`.
static FILES: [(&str, &str); 4] = [
    ("/b", TEXT),
    ("/a/z", TEXT),
    ("/a.b", TEXT),
    ("/a/y/x", TEXT),
];

const TEXT: &str = "goods 1\nbids 1\ndummy 0\n0 3 0 #\n";

/// In the folder `link` is a link to the file `b`, and `again` one to the folder; `@list` lists the paths of `a` and `b`.
static ROWS: &[Row] = rows! {
    ("cats duplicates @", 0, "@/a.b\n@/a/y/x\n@/a/z\n@/b\n", ""),
    ("cats duplicates @/", 0, "@/a.b\n@/a/y/x\n@/a/z\n@/b\n", ""),
    // in the order of the command line
    ("cats duplicates @/b @/a", 0, "@/b\n@/a/y/x\n@/a/z\n", ""),
    ("cats duplicates @/a @/a/y", 0, "@/a/y/x\n@/a/z\n@/a/y/x\n", ""),
    ("cats duplicates @/empty", 0, "", ""),
    // links that are named are followed
    ("cats duplicates @/again/a @/link", 0, "@/again/a/y/x\n@/again/a/z\n@/link\n", ""),
    ("cats duplicates @/again", 0, "@/again/a.b\n@/again/a/y/x\n@/again/a/z\n@/again/b\n", ""),
    ("cats duplicates --progress --files0-from @list", 0, "@/a/y/x\n@/a/z\n@/b\n", "1 of 3 @/a/y/x\n2 of 3 @/a/z\n3 of 3 @/b\n"),
    ("cats sizes @/a", 0,
     "goods\tbids\tor_bids\txor_bidders\tdummies\tkept\tkept_or\tkept_xor\tfault\tfile\n1\t1\t1\t0\t0\t1\t1\t0\t\t\
     @/a/y/x\n1\t1\t1\t0\t0\t1\t1\t0\t\t@/a/z\n",
     ""),
};

fn link(rt: &HostRuntime, start: &str, name: &str, target: &str) -> Result<(), Fail> {
    let path = format!(in rt.alloc(); "{start}/{name}")?;
    symlink(rt, target, path.as_str())?;
    Ok(())
}

#[test]
fn folders(rt: HostRuntime) -> Result<(), Fail> {
    let start = folder_with(&rt, "folders", &FOLDERS, &FILES)?;
    let start = start.as_str();
    link(&rt, start, "link", "b")?;
    link(&rt, start, "again", ".")?;
    let list = format!(in rt.alloc(); "{start}list")?;
    let listed = format!(in rt.alloc(); "{start}/a\0{start}/b\0")?;
    fs::write(&rt, list.as_str(), listed.as_str())?;
    judge_rows(&rt, &rt, start, ROWS)?;
    fs::remove_file(&rt, list.as_str())?;
    fs::remove_dir_all(&rt, start)?;
    Ok(())
}
