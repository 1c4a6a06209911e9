//! The first word of the command line that is not UTF-8.

use std::alloc::{AllocError, Global};
use std::env::{Env, FillError};

/// The size of the first buffer for a word.
const SHORT: usize = 4096;

/// The number of the first word of the command line that is not UTF-8. The program's name has the number 0.
pub fn first_broken_word<E: Env>(env: &E, alloc: Global) -> Result<Option<usize>, AllocError> {
    for number in 0..usize::MAX {
        let Some(word) = read_word(env, alloc, number)? else {
            return Ok(None);
        };
        if str::from_utf8(word.as_slice()).is_err() {
            return Ok(Some(number));
        }
    }
    Ok(None)
}

/// The bytes of the word with a number, if there is one. The buffer doubles until they fit.
fn read_word<E: Env>(env: &E, alloc: Global, number: usize) -> Result<Option<Vec<u8>>, AllocError> {
    let mut word = Vec::new(alloc);
    let mut size = SHORT;
    for _ in 0..usize::BITS {
        word.resize(size, 0)?;
        match env.arg(number, word.as_mut_slice()) {
            Ok(length) => {
                word.truncate(length);
                return Ok(Some(word));
            }
            Err(FillError::TooLong) => size = size.saturating_mul(2),
            Err(FillError::NotPresent) => return Ok(None),
        }
    }
    Err(AllocError)
}
