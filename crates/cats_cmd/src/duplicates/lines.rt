//! The text that `cats duplicates` prints.

ghost use Rattle.std.specs.Prelude.{◌≡◌, ◌<◌, ◌++◌, [], fold, length, map, replicate, All, IfOk, OnOk};
ghost use Rattle.cats_cmd.specs.DuplicateTexts.{
  duplicates_text,
  found_paths,
  groups_of,
  lines_of,
  plain_groups,
  with_group,
};

use crate::escaping::{push_end, push_path};
use crate::paths::Ending;
use std::alloc::{AllocError, Global};

/// For each auction that two or more of the judged files are, or with `all` for each auction, their paths, each on a line,
/// and an empty line between two auctions. Then the same of the heavy files, but never of one alone. If each path ends with
/// NUL, one more NUL is in the place of the empty line. With each path is given the number of the first file of its group.
pub(super) fn duplicates_text(
    alloc: Global,
    judged: &[(Vec<u8>, usize)],
    heavy: &[(Vec<u8>, usize)],
    ending: Ending,
    all: bool,
) -> Result<Vec<u8>, AllocError>
    requires judged { All (λ f. f.1 < length judged.now) judged.now }
    requires heavy { All (λ f. f.1 < length heavy.now) heavy.now }
    ensures { IfOk result (λ text. text.items
        ≡ duplicates_text ending all (found_paths judged.now) (found_paths heavy.now)) }
{
    let judged = group_by_number(alloc, judged)?;
    let heavy = group_by_number(alloc, heavy)?;
    let mut text = Vec::new(alloc);
    push_groups(&mut text, judged.as_slice(), ending, all)?;
    push_groups(&mut text, heavy.as_slice(), ending, false)?;
    Ok(text)
}

/// Puts each group behind the text, if it is printed.
fn push_groups(
    text: &mut Vec<u8>,
    groups: &[Vec<&[u8]>],
    ending: Ending,
    all: bool,
) -> Result<(), AllocError>
    ensures { OnOk result (text.new.items ≡ fold (with_group ending all) text.old.items (plain_groups groups.now)) }
{
    for group in groups {
        push_group(text, group.as_slice(), ending, all)?;
    }
    Ok(())
}

/// Puts the lines of a group behind the text, if it is printed, with an empty line, or one more NUL, between them.
fn push_group(
    text: &mut Vec<u8>,
    paths: &[&[u8]],
    ending: Ending,
    all: bool,
) -> Result<(), AllocError>
    ensures { OnOk result (text.new.items ≡ with_group ending all text.old.items (map (λ path. path.now) paths.now)) }
{
    let least = if all { 1 } else { 2 };
    if paths.len() < least {
        return Ok(());
    }
    if !text.is_empty() {
        push_end(text, ending)?;
    }
    push_lines(text, paths, ending)
}

/// The paths of the files for each number.
fn group_by_number<'a>(
    alloc: Global,
    found: &'a [(Vec<u8>, usize)],
) -> Result<Vec<Vec<&'a [u8]>>, AllocError>
    requires { All (λ f. f.1 < length found.now) found.now }
    ensures { IfOk result (λ groups. plain_groups groups.items ≡ groups_of (found_paths found.now)) }
{
    let mut groups = empty_groups(alloc, found.len())?;
    for (path, number) in found {
        let group = &mut groups[*number];
        group.push(path.as_slice())?;
    }
    Ok(groups)
}

/// So many groups without a path.
fn empty_groups<'a>(alloc: Global, count: usize) -> Result<Vec<Vec<&'a [u8]>>, AllocError>
    ensures { IfOk result (λ groups. plain_groups groups.items ≡ replicate count []) }
{
    let mut groups = Vec::new(alloc);
    for _ in 0..count {
        groups.push(Vec::new(alloc))?;
    }
    Ok(groups)
}

/// Puts each path behind the text.
fn push_lines(text: &mut Vec<u8>, paths: &[&[u8]], ending: Ending) -> Result<(), AllocError>
    ensures { OnOk result (text.new.items ≡ text.old.items ++ lines_of ending (map (λ path. path.now) paths.now)) }
{
    for path in paths {
        push_path(text, path, ending)?;
    }
    Ok(())
}
