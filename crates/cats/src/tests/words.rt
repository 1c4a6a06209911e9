//! The first word of a command line that is not UTF-8.

use crate::words::first_broken_word;
use std::env::{Env, FillError};
use std::process::Abort;
use std::test::Fail;

/// A command line with these words.
#[derive(Clone, Copy)]
struct Words<'a> {
    words: &'a [&'a [u8]],
}

impl Env for Words<'_> {
    fn arg(&self, number: usize, buffer: &mut [u8]) -> Result<usize, FillError> {
        let Some(word) = self.words.get(number) else {
            return Err(FillError::NotPresent);
        };
        let Some(start) = buffer.get_mut(..word.len()) else {
            return Err(FillError::TooLong);
        };
        start.copy_from_slice(word);
        Ok(word.len())
    }

    fn var(&self, _name: &str, _buffer: &mut [u8]) -> Result<usize, FillError> {
        Err(FillError::NotPresent)
    }

    fn var_at(&self, _place: usize, _buffer: &mut [u8]) -> Result<usize, FillError> {
        Err(FillError::NotPresent)
    }
}

/// A word that is longer than the first buffer.
const LONG: &[u8] = &[b'a'; 10_000];

/// Words, and the number of the first that is not UTF-8.
static ROWS: [(&[&[u8]], Option<usize>); 7] = [
    (&[], None),
    (&[b"cats"], None),
    (&[b"cats", b"sizes", b"\xc3\xa9", b""], None),
    (&[b"cats", b"sizes", b"a", b"b\xff"], Some(3)),
    (&[b"cats", b"\xc3", b"a", b"\xff"], Some(1)),
    (&[b"\x80"], Some(0)),
    (&[b"cats", LONG, b"\xed\xa0\x80"], Some(2)),
];

#[test]
fn broken_words(rt: HostRuntime) -> Result<(), Fail> {
    for (words, number) in &ROWS {
        let found = first_broken_word(&Words { words }, rt.alloc())?;
        assert!(rt; found == *number, "of {words:?}: {found:?}");
    }
    Ok(())
}
