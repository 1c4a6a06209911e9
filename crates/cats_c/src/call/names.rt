//! The names of a caller's texts.

ghost use Rattle.std.specs.Prelude.{IfOk};
ghost use Rattle.cats_c.specs.Calls.{AreNames, IsNameOr};

use crate::call::CallText;
use itoa::Buffer;
use std::alloc::{AllocError, Global};

/// The name of each text, if all are UTF-8.
pub(crate) fn names_of(
    alloc: Global,
    texts: &[CallText<'_>],
) -> Result<Option<Vec<String>>, AllocError>
    ensures { IfOk result (AreNames texts.now) }
{
    let mut names = Vec::new(alloc);
    for text in texts {
        let number = names.len() + 1;
        match name_or(alloc, text.name, number)? {
            Some(name) => names.push(name)?,
            None => return Ok(None),
        }
    }
    Ok(Some(names))
}

/// A name if it is not empty and UTF-8, or else the number, if it is empty.
fn name_or(alloc: Global, name: &[u8], number: usize) -> Result<Option<String>, AllocError>
    ensures { IfOk result (IsNameOr name.now number) }
{
    if name.is_empty() {
        let digits = String::from_str(alloc, Buffer::new().format(number))?;
        return Ok(Some(digits));
    }
    match str::from_utf8(name) {
        Ok(name) => Ok(Some(String::from_str(alloc, name)?)),
        Err(_) => Ok(None),
    }
}
