//! Texts as files of the system. Each is written beside its place under another name, and gets its own once it is whole. So
//! it is whole or not there, also where the program is killed or the disk is full. What is there is never replaced: a name
//! is given by a second link, which the system refuses if something has it.

ghost use Rattle.std.specs.Prelude.{◌≡◌, ◌++◌, ◌∷◌, [], IfOk};
ghost use Rattle.cats_cmd.specs.Stores.{path_in};

use commands::faults::Unwritten;
use itoa::Buffer;
use std::alloc::{AllocError, Global};
use std::fs;
use std::fs::{OpenFile, OpenOptions};
use std::io::{Error, ErrorKind, Write};
use std::rt::Files;

/// So many names are tried for a text that is not yet whole. Those of runs that were killed stay.
const DRAFTS: u32 = 10_000;

/// What a name of such a text begins with.
const DRAFT: &str = ".cats-publish-";

/// Makes the folder of all texts, and those above it, if they are not there.
pub(crate) fn make_folder<F: Files>(files: &F, folder: &str) -> Result<(), Unwritten> {
    if folder.is_empty() {
        return Err(Unwritten::NotAFolder);
    }
    match fs::create_dir_all(files, folder) {
        Ok(()) => Ok(()),
        Err(error) if error.kind() == ErrorKind::AlreadyExists => Err(Unwritten::NotAFolder),
        Err(error) => Err(reason(&error)),
    }
}

/// Whether something may be at a path below a folder.
pub(crate) fn is_taken_in<F: Files>(
    files: &F,
    alloc: Global,
    folder: &str,
    path: &str,
) -> Result<bool, AllocError> {
    let whole = path_in(alloc, folder.as_bytes(), path.as_bytes())?;
    match str::from_utf8(whole.as_slice()) {
        Ok(whole) => Ok(is_taken(files, whole)),
        Err(_) => Ok(false),
    }
}

/// Whether something has a name, be it a link that leads nowhere, or that cannot be known.
fn is_taken<F: Files>(files: &F, path: &str) -> bool {
    match fs::symlink_metadata(files, path) {
        Ok(_) => true,
        Err(error) => !matches!(error.kind(), ErrorKind::NotFound | ErrorKind::NotADirectory),
    }
}

/// Writes a text below a folder of the system, at a path where nothing is. Folders that are not there are made, and no link
/// below the folder is followed.
pub(crate) fn write_new<F: Files>(
    files: &F,
    alloc: Global,
    folder: &str,
    path: &str,
    text: &[u8],
) -> Result<Result<(), Unwritten>, AllocError> {
    let whole = path_in(alloc, folder.as_bytes(), path.as_bytes())?;
    let Ok(whole) = str::from_utf8(whole.as_slice()) else {
        return Ok(Err(Unwritten::Other));
    };
    let start = whole.len().saturating_sub(path.len());
    if let Err(why) = make_folders(files, whole, start) {
        return Ok(Err(why));
    }
    write_whole(files, alloc, whole, text)
}

/// Makes the folders of a path that are behind its first so many bytes.
fn make_folders<F: Files>(files: &F, path: &str, start: usize) -> Result<(), Unwritten> {
    for end in start..path.len() {
        if let Some((folder, rest)) = path.split_at_checked(end) {
            if rest.starts_with('/') {
                make_one_folder(files, folder)?;
            }
        }
    }
    Ok(())
}

/// Makes a folder, unless it is there. It may not be a link to one.
fn make_one_folder<F: Files>(files: &F, folder: &str) -> Result<(), Unwritten> {
    match fs::create_dir(files, folder) {
        Ok(()) => Ok(()),
        Err(error) => match fs::symlink_metadata(files, folder) {
            Ok(metadata) if metadata.is_dir() => Ok(()),
            Ok(_) => Err(Unwritten::NotAFolder),
            Err(_) => Err(reason(&error)),
        },
    }
}

/// Writes a text under another name in its folder, and then gives it its own.
fn write_whole<F: Files>(
    files: &F,
    alloc: Global,
    path: &str,
    text: &[u8],
) -> Result<Result<(), Unwritten>, AllocError> {
    let folder = folder_of(path);
    let mut number = Buffer::new();
    for try_number in 0..DRAFTS {
        let draft = draft_path(alloc, folder, number.format(try_number))?;
        let Ok(draft) = str::from_utf8(draft.as_slice()) else {
            return Ok(Err(Unwritten::Other));
        };
        match create(files, draft) {
            Ok(file) => return Ok(finish(files, file, draft, path, text)),
            Err(error) if error.kind() == ErrorKind::AlreadyExists => {}
            Err(error) => return Ok(Err(reason(&error))),
        }
    }
    Ok(Err(Unwritten::Other))
}

/// What of a path is before its last slash, with that.
fn folder_of(path: &str) -> &[u8] {
    let bytes = path.as_bytes();
    let mut folder: &[u8] = &[];
    for (index, byte) in bytes.iter().enumerate() {
        if *byte == b'/' {
            folder = &bytes[..=index];
        }
    }
    folder
}

fn draft_path(alloc: Global, folder: &[u8], number: &str) -> Result<Vec<u8>, AllocError> {
    let mut path = Vec::from_slice(alloc, folder)?;
    path.extend_from_slice(DRAFT.as_bytes())?;
    path.extend_from_slice(number.as_bytes())?;
    Ok(path)
}

/// Makes a file that was not there, to be written.
fn create<F: Files>(files: &F, path: &str) -> Result<F::File, Error> {
    OpenOptions::new()
        .write(true)
        .create_new(true)
        .open(files, path)
}

/// Writes a text into a new file, and gives it its name. The other name is removed, whatever comes of it.
fn finish<F: Files>(
    files: &F,
    file: F::File,
    draft: &str,
    path: &str,
    text: &[u8],
) -> Result<(), Unwritten> {
    let written = fill(file, text);
    let named = match written {
        Ok(()) => fs::hard_link(files, draft, path),
        Err(error) => Err(error),
    };
    let _ = fs::remove_file(files, draft);
    match named {
        Ok(()) => Ok(()),
        Err(error) => Err(reason(&error)),
    }
}

/// Writes a text into a file, until the disk has it.
fn fill<F: Write + OpenFile + Drop>(file: F, text: &[u8]) -> Result<(), Error> {
    let mut file = file;
    file.write_all(text)?;
    file.sync_all()
}

/// The reason by which an error of the system is reported.
fn reason(error: &Error) -> Unwritten {
    match error.kind() {
        ErrorKind::AlreadyExists => Unwritten::Exists,
        ErrorKind::PermissionDenied | ErrorKind::ReadOnlyFilesystem => Unwritten::PermissionDenied,
        ErrorKind::StorageFull | ErrorKind::QuotaExceeded => Unwritten::NoSpace,
        ErrorKind::NotADirectory => Unwritten::NotAFolder,
        _ => Unwritten::Other,
    }
}

/// A path below a folder, with the folder's own before it.
pub fn path_in(alloc: Global, folder: &[u8], path: &[u8]) -> Result<Vec<u8>, AllocError>
    ensures { IfOk result (λ whole. whole.items ≡ path_in folder.now path.now) }
{
    let mut whole = Vec::from_slice(alloc, folder)?;
    if !folder.ends_with(b"/") {
        whole.push(b'/')?;
    }
    whole.extend_from_slice(path)?;
    Ok(whole)
}
