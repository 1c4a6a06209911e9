//! The paths in a list of paths.

ghost use Rattle.std.specs.Prelude.{◌≡◌, ◌==◌, map, IfOk};
ghost use Rattle.cats_cmd.specs.PathLists.{paths_in};
ghost use Rattle.std.specs.List.{slice_split};

use std::alloc::{AllocError, Global};

/// The paths in a text, in which each ends with NUL. The last may lack it.
pub(crate) fn split_paths(alloc: Global, text: &[u8]) -> Result<Vec<&[u8]>, AllocError>
    ensures { IfOk result (λ paths. map (λ path. path.now) paths.items ≡ paths_in text.now) }
{
    let mut paths = split_at(alloc, text, 0)?;
    // what is behind the last NUL
    if let Some(rest) = paths.pop() {
        if !rest.is_empty() {
            paths.push(rest)?;
        }
    }
    Ok(paths)
}

/// The parts of a text between each two of these bytes. Memory for so many is reserved first, as a vector that grows takes
/// up to three times as much.
pub(crate) fn split_at(alloc: Global, text: &[u8], end: u8) -> Result<Vec<&[u8]>, AllocError>
    ensures { IfOk result (λ parts. map (λ part. part.now) parts.items ≡ slice_split (λ b. b == end) text.now) }
{
    let ends = text.iter().filter(|byte| **byte == end).count();
    let mut parts = Vec::with_capacity(alloc, ends.saturating_add(1))?;
    for part in text.split(|byte| *byte == end) {
        parts.push(part)?;
    }
    Ok(parts)
}
