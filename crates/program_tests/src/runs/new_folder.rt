//! Lines on a new folder of the system.

use super::program::{CAPACITY, run};
use super::streams::expect;
use std::process::Abort;
use std::test::Fail;
use std::{fs, process};

/// A command line, and what it answers: its status, its output and what it reports. `@` is the path of the new folder.
pub(super) type Row = (&'static str, u8, &'static str, &'static str);

/// Makes a folder with these folders, those above first, and with these files, and gives its path.
pub(super) fn folder_with(
    rt: &HostRuntime,
    name: &str,
    folders: &[&str],
    files: &[(&str, &str)],
) -> Result<String, Fail> {
    let id = process::id(rt.process());
    let start = format!(in rt.alloc(); "/tmp/cats_{name}_{id}")?;
    for folder in folders {
        make_folder(rt, start.as_str(), folder)?;
    }
    for (file, text) in files {
        write_file(rt, start.as_str(), file, text)?;
    }
    Ok(start)
}

fn make_folder(rt: &HostRuntime, start: &str, folder: &str) -> Result<(), Fail> {
    let path = format!(in rt.alloc(); "{start}{folder}")?;
    fs::create_dir(rt, path.as_str())?;
    Ok(())
}

fn write_file(rt: &HostRuntime, start: &str, file: &str, text: &str) -> Result<(), Fail> {
    let path = format!(in rt.alloc(); "{start}{file}")?;
    fs::write(rt, path.as_str(), text)?;
    Ok(())
}

/// That a line on the folder at a path answers what its row says.
fn judge_row(rt: &HostRuntime, abort: &impl Abort, start: &str, row: &Row) -> Result<(), Fail> {
    let line = row.0.replace(rt.alloc(), '@', start)?;
    let sent = row.2.replace(rt.alloc(), '@', start)?;
    let reported = row.3.replace(rt.alloc(), '@', start)?;
    let answer = run(rt, line.as_str(), "", "", CAPACITY, CAPACITY)?;
    expect(abort, &answer, row.1, sent.as_str(), reported.as_str());
    Ok(())
}

pub(super) fn judge_rows(
    rt: &HostRuntime,
    abort: &impl Abort,
    start: &str,
    rows: &[Row],
) -> Result<(), Fail> {
    for row in rows {
        judge_row(rt, abort, start, row)?;
    }
    Ok(())
}
