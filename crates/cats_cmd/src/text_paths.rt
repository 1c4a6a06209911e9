//! Where `cats publish` writes the text of each file, and why two files or one cannot be so written. All this is known
//! before anything is written.

ghost use Rattle.std.specs.Prelude.{◌≡◌, ◌++◌, IfOk, OnOk, drop, length, map};
ghost use Rattle.std.specs.List.{list_all};
ghost use Rattle.cats_cmd.specs.Folders.{AreMadeAt, found_of, with_slash};
ghost use Rattle.cats_cmd.specs.Opening.{openings_at, openings_found};
ghost use Rattle.cats_cmd.specs.TextPaths.{AreTextPlaces, is_name, leads_below, own_name, text_places_of, texts_at};
ghost use Rattle.cats_cmd.specs.Internal.TextNumbers.{FindsCollision, FindsMisplaced, FindsOutside, IsBelowOne};
ghost use Rattle.cats_cmd.specs.Internal.TextNumbers.{NumbersOrCollides, NumbersTexts, place_openings, plain_places};

use crate::folders::find_at;
use crate::path_list::split_at;
use crate::source::{Source, Way};
use std::alloc::{AllocError, Global};
use std::collections::BTreeMap;

/// A file, how it is opened, and the path of its text below the folder of all texts.
#[derive(Drop)]
pub struct TextPlace {
    pub file: Vec<u8>,
    pub way: Way,
    pub text: Vec<u8>,
}

/// Why the texts of some files cannot all be written. Files are named by their numbers, counted from 0.
#[derive(Clone, Copy)]
pub(crate) enum Misplaced {
    /// The text of this file would not be below the folder.
    Outside(usize),
    /// The text of the second file would be at that of the first, or below it.
    Collision(usize, usize),
}

/// The files at paths, each with the path of its text: its own name, or, if a folder is at the path, its path below that.
/// What is at a path itself is opened in this way.
pub(crate) fn text_places_at<S: Source>(
    source: &S,
    alloc: Global,
    paths: &[&[u8]],
    way: Way,
) -> Result<Vec<TextPlace>, AllocError>
    ensures places { IfOk result (λ places. AreTextPlaces (S.may_find (S.content_of source.now))
        (map (λ path. path.now) paths.now) (plain_places places.items)) }
    ensures openings { IfOk result (λ places. AreMadeAt (S.may_find (S.content_of source.now)) (openings_at way)
        (map (λ path. path.now) paths.now) (place_openings places.items)) }
{
    let mut places = Vec::new(alloc);
    for path in paths {
        let found = find_at(source, alloc, path)?;
        push_found(alloc, &mut places, path, way, found)?;
    }
    Ok(places)
}

/// Puts the files at a path behind the others: those that were found below a folder, of which only regular ones are opened,
/// or the path itself.
fn push_found(
    alloc: Global,
    places: &mut Vec<TextPlace>,
    path: &[u8],
    way: Way,
    found: Option<Vec<Vec<u8>>>,
) -> Result<(), AllocError>
    ensures places { OnOk result (plain_places places.new.items ≡ plain_places places.old.items
        ++ text_places_of path.now (found_of found)) }
    ensures openings { OnOk result (place_openings places.new.items ≡ place_openings places.old.items
        ++ openings_found way path.now (found_of found)) }
{
    let Some(files) = found else {
        let file = Vec::from_slice(alloc, path)?;
        let text = own_name(alloc, path)?;
        places.push(TextPlace { file, way, text })?;
        return Ok(());
    };
    let start = length_with_slash(path);
    for file in files.as_slice() {
        let text = Vec::from_slice(alloc, behind(file.as_slice(), start))?;
        let file = Vec::from_slice(alloc, file.as_slice())?;
        places.push(TextPlace {
            file,
            way: Way::Regular,
            text,
        })?;
    }
    Ok(())
}

/// The last part of a path, behind its last slash.
fn own_name(alloc: Global, path: &[u8]) -> Result<Vec<u8>, AllocError>
    ensures { IfOk result (λ name. name.items ≡ own_name path.now) }
{
    let parts = split_at(alloc, path, b'/')?;
    match parts.last() {
        Some(name) => Vec::from_slice(alloc, name),
        None => Ok(Vec::new(alloc)),
    }
}

/// How long a folder's path is with one slash behind it.
pub(crate) fn length_with_slash(folder: &[u8]) -> usize
    ensures { result ≡ length (with_slash folder.now) }
{
    if folder.ends_with(b"/") {
        folder.len()
    } else {
        folder.len() + 1
    }
}

/// What of a path is behind so many bytes.
pub(crate) fn behind(path: &[u8], count: usize) -> &[u8]
    ensures { result.now ≡ drop count path.now }
{
    if count <= path.len() {
        &path[count..]
    } else {
        &[]
    }
}

/// The first thing that keeps the texts of these files from being written, if there is one: a text that would not be below
/// the folder, or two of which one would be at the other or below it.
pub(crate) fn find_misplaced(
    alloc: Global,
    places: &[TextPlace],
) -> Result<Option<Misplaced>, AllocError>
    ensures { IfOk result (FindsMisplaced (texts_at (plain_places places.now))) }
{
    if let Some(number) = find_outside(alloc, places)? {
        return Ok(Some(Misplaced::Outside(number)));
    }
    match number_texts(alloc, places)? {
        Ok(numbers) => Ok(find_below(&numbers, places)),
        Err(misplaced) => Ok(Some(misplaced)),
    }
}

/// The first file whose text would not be below the folder.
fn find_outside(alloc: Global, places: &[TextPlace]) -> Result<Option<usize>, AllocError>
    ensures { IfOk result (FindsOutside (texts_at (plain_places places.now))) }
{
    for (number, place) in places.iter().enumerate() {
        if !leads_below(alloc, place.text.as_slice())? {
            return Ok(Some(number));
        }
    }
    Ok(None)
}

/// Whether a path leads to what is below the folder that it is looked for in.
fn leads_below(alloc: Global, path: &[u8]) -> Result<bool, AllocError>
    ensures { IfOk result (λ leads. leads ≡ leads_below path.now) }
{
    let parts = split_at(alloc, path, b'/')?;
    Ok(are_names(parts.as_slice()))
}

fn are_names(parts: &[&[u8]]) -> bool
    ensures { result ≡ list_all (λ part. is_name part.now) parts.now }
{
    parts.iter().all(|part| is_name(part))
}

/// Whether a part of a path names a file or a folder.
fn is_name(part: &[u8]) -> bool
    ensures { result ≡ is_name part.now }
{
    !(part.is_empty() || part == b".".as_slice() || part == b"..".as_slice())
}

/// The number of each text, or two files that have the same.
fn number_texts(
    alloc: Global,
    places: &[TextPlace],
) -> Result<Result<BTreeMap<Vec<u8>, usize>, Misplaced>, AllocError>
    ensures { IfOk result (NumbersOrCollides (texts_at (plain_places places.now))) }
{
    let mut numbers = BTreeMap::new(alloc);
    for (number, place) in places.iter().enumerate() {
        let text = place.text.as_slice();
        if let Some(first) = numbers.get(text) {
            return Ok(Err(Misplaced::Collision(*first, number)));
        }
        numbers.insert(Vec::from_slice(alloc, text)?, number)?;
    }
    Ok(Ok(numbers))
}

/// The first file whose text would be below that of another one.
fn find_below(numbers: &BTreeMap<Vec<u8>, usize>, places: &[TextPlace]) -> Option<Misplaced>
    requires { NumbersTexts (texts_at (plain_places places.now)) numbers.now }
    ensures { FindsCollision (texts_at (plain_places places.now)) result }
{
    for (number, place) in places.iter().enumerate() {
        if let Some(first) = find_folder(numbers, place.text.as_slice()) {
            return Some(Misplaced::Collision(first, number));
        }
    }
    None
}

/// The number of a text of which the path is that of a folder in this one.
fn find_folder(numbers: &BTreeMap<Vec<u8>, usize>, text: &[u8]) -> Option<usize>
    ensures { IsBelowOne numbers.now text.now result }
{
    for (end, byte) in text.iter().enumerate() {
        if *byte == b'/' {
            if let Some(first) = numbers.get(&text[..end]) {
                return Some(*first);
            }
        }
    }
    None
}
