//! Readers and writers in memory that fail, and what a run or the program did with them.

ghost use Rattle.std.specs.Prelude.{◌≡◌, false};
ghost use Rattle.cats_text.specs.Streams.{has_failed};

use cats_text::Watched;
use std::alloc::Global;
use std::io;
use std::io::{ErrorKind, Read, Write};
use std::process::Abort;
use std::test::Fail;

/// Gives at most `step` bytes of its text a call, and in place of its end it fails, if it is to.
#[derive(Clone, Copy)]
pub struct StepReader<'a> {
    pub text: &'a [u8],
    pub step: usize,
    pub failure: Option<ErrorKind>,
}

impl Read for StepReader<'_> {
    fn read(&mut self, piece: &mut [u8]) -> io::Result<usize> {
        let count = self.text.len().min(self.step).min(piece.len());
        if let (0, false, Some(kind)) = (count, piece.is_empty(), self.failure) {
            return Err(io::Error::from(kind));
        }
        piece[..count].copy_from_slice(&self.text[..count]);
        self.text = &self.text[count..];
        Ok(count)
    }
}

/// Gives the whole text, or, if it fails, gives it byte by byte and then fails.
pub fn input(text: &[u8], fails: bool) -> StepReader<'_> {
    let (step, failure) = match fails {
        true => (1, Some(ErrorKind::BrokenPipe)),
        false => (4096, None),
    };
    StepReader {
        text,
        step,
        failure,
    }
}

/// How an output ends.
#[derive(Clone, Copy, PartialEq, Eq, Drop)]
pub enum Ending {
    /// What is above its capacity fails.
    Fails,
    /// It takes nothing more, and reports no failure.
    Stalls,
    /// Its flush fails.
    FailsAtFlush,
}

/// How many bytes an output takes, a call and in all.
#[derive(Clone, Copy, Drop)]
pub struct Limits {
    pub step: usize,
    pub capacity: usize,
    pub ending: Ending,
}

/// Room for all that is printed.
pub const AMPLE: Limits = Limits {
    step: 4096,
    capacity: 8_388_608,
    ending: Ending::Fails,
};

/// Takes what its limits say, and counts its writes.
#[derive(Drop)]
pub struct StepWriter {
    pub taken: Vec<u8>,
    pub writes: usize,
    limits: Limits,
}

impl Write for StepWriter {
    fn write(&mut self, piece: &[u8]) -> io::Result<usize> {
        let count = piece.len().min(self.limits.step).min(self.limits.capacity);
        if count == 0 && !piece.is_empty() && self.limits.ending != Ending::Stalls {
            return Err(io::Error::from(ErrorKind::BrokenPipe));
        }
        self.writes = self.writes.saturating_add(1);
        self.limits.capacity -= count;
        self.taken.extend_from_slice(&piece[..count])?;
        Ok(count)
    }

    fn flush(&mut self) -> io::Result<()> {
        match self.limits.ending {
            Ending::FailsAtFlush => Err(io::Error::from(ErrorKind::BrokenPipe)),
            _ => Ok(()),
        }
    }
}

pub fn limited_writer(alloc: Global, limits: Limits) -> Watched<StepWriter>
    ensures { has_failed result ≡ false }
{
    Watched::new(StepWriter {
        taken: Vec::new(alloc),
        writes: 0,
        limits,
    })
}

pub fn writer(alloc: Global, step: usize, capacity: usize) -> Watched<StepWriter>
    ensures { has_failed result ≡ false }
{
    let ending = Ending::Fails;
    limited_writer(
        alloc,
        Limits {
            step,
            capacity,
            ending,
        },
    )
}

/// What a run or the program answered: its status, and what went to its output and to standard error.
#[derive(Debug, Drop)]
pub struct RunAnswer {
    pub status: u8,
    pub sent: String,
    pub line: String,
    /// Whether lines on standard error were not one write each, and so may tear where several programs share it.
    pub torn: bool,
}

/// The text that an output took.
pub fn text_taken(out: Watched<StepWriter>) -> Result<String, Fail> {
    Ok(String::from_utf8(out.into_inner().taken)?)
}

/// That this is what was answered.
pub fn expect(rt: &impl Abort, answer: &RunAnswer, status: u8, sent: &str, line: &str) {
    let same = answer.line.as_str() == line && answer.sent.as_str() == sent;
    assert!(rt;
        same && !answer.torn && answer.status == status,
        "of {sent:?}, {line:?}: {answer:?}"
    );
}
