//! The files below a folder of the system.

ghost use Rattle.std.specs.Prelude.{◌≡◌, IfOk, IfSome, OnOk};
ghost use Rattle.cats_cmd.specs.Folders.{ListsFolder, found_of, with_slash};
ghost use Rattle.cats_cmd.specs.Internal.Walking.{StaysBelow};

use crate::bytes::read_bytes;
use crate::path_list::split_paths;
use cats_text::{Kind, Watched};
use std::alloc::{AllocError, Global};
use std::rt::Files;

/// Folders that are still to be read, and the files that were found in those that were.
#[derive(Drop)]
struct Walk {
    alloc: Global,
    folders: Vec<Vec<u8>>,
    found: Vec<Vec<u8>>,
}

/// What is at a path.
#[derive(Clone, Copy)]
enum Place {
    Folder,
    File,
    /// A link, a device or the like. None of these is judged.
    Other,
}

/// The paths of the regular files below the folder at a path, each once, in the order of their bytes. No link below it is
/// followed.
///
/// What cannot be looked at is listed too, and so is a folder below that cannot be read: where these paths are opened, it
/// is said why they cannot be. The folder itself may be a link to one. If it cannot be read, there is no answer.
pub(crate) fn files_below<F: Files>(
    files: &F,
    alloc: Global,
    path: &str,
) -> Result<Option<Vec<Vec<u8>>>, AllocError>
    ensures { IfOk result (λ found. IfSome (found_of found) (ListsFolder path.now)) }
{
    let mut walk = Walk {
        alloc,
        folders: Vec::new(alloc),
        found: Vec::new(alloc),
    };
    if path.is_empty() || !walk.read_first(files, path)? {
        return Ok(None);
    }
    for _ in 0..u64::MAX {
        let Some(folder) = walk.folders.pop() else {
            break;
        };
        walk.read_next(files, folder)?;
    }
    let Walk {
        mut folders,
        mut found,
        ..
    } = walk;
    found.append(&mut folders)?;
    found.sort_unstable();
    found.dedup();
    Ok(Some(found))
}

impl Walk {
    /// Reads the folder at a path, and answers whether it could be read. The slash behind the path follows a link.
    fn read_first<F: Files>(&mut self, files: &F, path: &str) -> Result<bool, AllocError>
        ensures { OnOk result (StaysBelow (with_slash path.now) self.old self.new) }
    {
        let start = with_slash(self.alloc, path.as_bytes())?;
        self.read(files, start.as_slice(), start.as_slice())
    }

    /// Reads a folder that was found. One that cannot be read is kept as a file.
    fn read_next<F: Files>(&mut self, files: &F, folder: Vec<u8>) -> Result<(), AllocError>
        ensures { OnOk result (StaysBelow folder.items self.old self.new) }
    {
        let start = with_slash(self.alloc, folder.as_slice())?;
        if !self.read(files, folder.as_slice(), start.as_slice())? {
            self.found.push(folder)?;
        }
        Ok(())
    }

    /// Adds what is in a folder, of which all paths begin with `start`, and answers whether it could be read.
    fn read<F: Files>(&mut self, files: &F, folder: &[u8], start: &[u8]) -> Result<bool, AllocError>
        ensures { OnOk result (StaysBelow start.now self.old self.new) }
    {
        let Some(names) = names_in(files, self.alloc, folder)? else {
            return Ok(false);
        };
        for name in split_paths(self.alloc, names.as_slice())? {
            if name != b".".as_slice() && name != b"..".as_slice() {
                self.add(files, start, name)?;
            }
        }
        Ok(true)
    }

    /// Adds what has this name in the folder of which all paths begin with `start`.
    fn add<F: Files>(&mut self, files: &F, start: &[u8], name: &[u8]) -> Result<(), AllocError>
        ensures { OnOk result (StaysBelow start.now self.old self.new) }
    {
        let mut path = Vec::from_slice(self.alloc, start)?;
        path.extend_from_slice(name)?;
        match place_at(files, path.as_slice()) {
            Place::Folder => self.folders.push(path)?,
            Place::File => self.found.push(path)?,
            Place::Other => {}
        }
        Ok(())
    }
}

/// The names in a folder, each with NUL behind it, if they can be read.
fn names_in<F: Files>(
    files: &F,
    alloc: Global,
    folder: &[u8],
) -> Result<Option<Vec<u8>>, AllocError> {
    let Ok(folder) = str::from_utf8(folder) else {
        return Ok(None);
    };
    let Ok(names) = files.open_dir(folder) else {
        return Ok(None);
    };
    match read_bytes(alloc, &mut Watched::new(names)) {
        Ok(names) => Ok(Some(names)),
        Err(fault) if fault.kind == Kind::Memory => Err(AllocError),
        Err(_) => Ok(None),
    }
}

/// What is at a path. What cannot be looked at may be a file: where it is opened, it is said why it cannot be.
fn place_at<F: Files>(files: &F, path: &[u8]) -> Place {
    let Ok(path) = str::from_utf8(path) else {
        return Place::File;
    };
    match files.symlink_metadata(path) {
        Ok(metadata) if metadata.is_dir() => Place::Folder,
        Ok(metadata) if !metadata.is_file() => Place::Other,
        _ => Place::File,
    }
}

/// The path of a folder, with a slash behind it.
fn with_slash(alloc: Global, folder: &[u8]) -> Result<Vec<u8>, AllocError>
    ensures { IfOk result (λ path. path.items ≡ with_slash folder.now) }
{
    let mut path = Vec::from_slice(alloc, folder)?;
    if !folder.ends_with(b"/") {
        path.push(b'/')?;
    }
    Ok(path)
}
