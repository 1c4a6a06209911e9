//! Paths of which some may be of folders.

ghost use Rattle.std.specs.Prelude.{◌≡◌, ◌++◌, map, IfOk, OnOk};
ghost use Rattle.cats_cmd.specs.Folders.{AreMadeAt, FindsAt, found_of};
ghost use Rattle.cats_cmd.specs.Internal.Finding.{found_openings};
ghost use Rattle.cats_cmd.specs.Internal.Judging.{opening_of};
ghost use Rattle.cats_cmd.specs.Opening.{openings_at, openings_found};

use crate::paths::FilePath;
use crate::source::{Source, Way};
use std::alloc::{AllocError, Global};

/// The path of a file that was found, and how it is opened.
#[derive(Drop)]
pub(crate) struct FoundFile {
    path: Vec<u8>,
    way: Way,
}

/// The files at paths: the path itself, which is opened in this way, or, if a folder is there, the files below it.
pub(crate) fn files_at<S: Source>(
    source: &S,
    alloc: Global,
    paths: &[&[u8]],
    way: Way,
) -> Result<Vec<FoundFile>, AllocError>
    ensures { IfOk result (λ files. AreMadeAt (S.may_find (S.content_of source.now)) (openings_at way)
        (map (λ path. path.now) paths.now) (found_openings files.items)) }
{
    let mut files = Vec::new(alloc);
    for path in paths {
        let found = find_at(source, alloc, path)?;
        push_found(alloc, &mut files, path, way, found)?;
    }
    Ok(files)
}

/// Puts the files at a path behind the others: those that were found below a folder, of which only regular ones are opened,
/// or the path itself.
fn push_found(
    alloc: Global,
    files: &mut Vec<FoundFile>,
    path: &[u8],
    way: Way,
    found: Option<Vec<Vec<u8>>>,
) -> Result<(), AllocError>
    ensures { OnOk result (found_openings files.new.items ≡ found_openings files.old.items
        ++ openings_found way path.now (found_of found)) }
{
    let Some(below) = found else {
        let path = Vec::from_slice(alloc, path)?;
        files.push(FoundFile { path, way })?;
        return Ok(());
    };
    for path in below {
        files.push(FoundFile {
            path,
            way: Way::Regular,
        })?;
    }
    Ok(())
}

/// The files below the folder at a path, if there is one.
pub(crate) fn find_at<S: Source>(
    source: &S,
    alloc: Global,
    path: &[u8],
) -> Result<Option<Vec<Vec<u8>>>, AllocError>
    ensures { IfOk result (λ found. FindsAt (S.may_find (S.content_of source.now)) path.now (found_of found)) }
{
    match str::from_utf8(path) {
        Ok(path) => source.find(alloc, path),
        Err(_) => Ok(None),
    }
}

/// The paths of files, as those who only read them take them.
pub(crate) fn file_paths(
    alloc: Global,
    files: &[FoundFile],
) -> Result<Vec<FilePath<'_>>, AllocError>
    ensures { IfOk result (λ paths. map opening_of paths.items ≡ found_openings files.now) }
{
    let mut paths = Vec::with_capacity(alloc, files.len())?;
    for file in files {
        paths.push(FilePath {
            path: file.path.as_slice(),
            way: file.way,
        })?;
    }
    Ok(paths)
}
