//! Streams that fail, end, or take few bytes at a time.
ghost use Rattle.std.specs.Prelude.{◌≡◌, false};
ghost use Rattle.cats_text.specs.Streams.{has_ended, has_failed};

mod reading;
mod sending;

use super::assert_bytes;
use cats_text::Watched;
use std::alloc::Global;
use std::io;
use std::io::ErrorKind::{self, BrokenPipe, Interrupted, Other};
use std::io::{Read, Write};
use std::process::Abort;
use std::test::Fail;

/// Gives its text byte by byte, and counts the calls. After `cut` bytes a read fails with `kind`, once: a read after that
/// one would give the next byte.
#[derive(Drop)]
struct ByteReader<'a> {
    text: &'a [u8],
    given: usize,
    cut: Option<usize>,
    kind: ErrorKind,
    calls: u64,
}

impl Read for ByteReader<'_> {
    fn read(&mut self, piece: &mut [u8]) -> io::Result<usize> {
        self.calls = self.calls.saturating_add(1);
        if self.cut == Some(self.given) {
            self.cut = None;
            return Err(io::Error::from(self.kind));
        }
        match (self.text.get(self.given), piece.first_mut()) {
            (Some(byte), Some(place)) => {
                *place = *byte;
                self.given = self.given.saturating_add(1);
                Ok(1)
            }
            _ => Ok(0),
        }
    }
}

fn reader(text: &[u8], cut: Option<usize>, kind: ErrorKind) -> Watched<ByteReader<'_>>
    ensures works { has_failed result ≡ false }
    ensures fresh { has_ended result ≡ false }
{
    Watched::new(ByteReader {
        text,
        given: 0,
        cut,
        kind,
        calls: 0,
    })
}

/// What a writer does when it has no capacity.
#[derive(Clone, Copy, PartialEq, Eq, Drop)]
enum Full {
    Fails(ErrorKind),
    TakesNothing,
}

/// Takes at most `step` bytes a call, and counts the calls. After `capacity` bytes in all a write fails, once: a write after
/// that one would be taken. Its flush fails where it is to, once too.
#[derive(Drop)]
struct StepWriter {
    taken: Vec<u8>,
    step: usize,
    capacity: usize,
    full: Full,
    flush_fails: bool,
    writes: u64,
    flushes: u64,
}

impl Write for StepWriter {
    fn write(&mut self, piece: &[u8]) -> io::Result<usize> {
        self.writes = self.writes.saturating_add(1);
        let count = piece.len().min(self.step).min(self.capacity);
        if count > 0 || piece.is_empty() {
            self.capacity -= count;
            self.taken.extend_from_slice(&piece[..count])?;
            return Ok(count);
        }
        self.capacity = usize::MAX;
        match self.full {
            Full::Fails(kind) => Err(io::Error::from(kind)),
            Full::TakesNothing => Ok(0),
        }
    }

    fn flush(&mut self) -> io::Result<()> {
        self.flushes = self.flushes.saturating_add(1);
        if self.flush_fails {
            self.flush_fails = false;
            return Err(io::Error::from(BrokenPipe));
        }
        Ok(())
    }
}

fn writer(
    alloc: Global,
    step: usize,
    capacity: usize,
    full: Full,
    flush_fails: bool,
) -> Watched<StepWriter>
    ensures { has_failed result ≡ false }
{
    Watched::new(StepWriter {
        taken: Vec::new(alloc),
        step,
        capacity,
        full,
        flush_fails,
        writes: 0,
        flushes: 0,
    })
}

const BROKEN: Full = Full::Fails(BrokenPipe);

/// A read into a piece of four bytes, or into none; what it answers; the piece's first byte, and whether the reader has
/// ended and has failed, afterwards.
type ReadStep = (bool, Result<usize, ErrorKind>, u8, bool, bool);

static READS: &[(Option<usize>, &[ReadStep], u64)] = rows! {
    (None, &[
        (true, Ok(1), b'x', false, false),
        (true, Ok(1), b'y', false, false),
        (false, Ok(0), b'y', false, false),
        (true, Ok(0), b'y', true, false),
    ], 4),
    (Some(1), &[
        (true, Ok(1), b'x', false, false),
        (true, Err(Interrupted), b'x', false, true),
        (true, Err(Other), b'x', false, true),
    ], 2),
};

/// Takes one step, and asserts what comes of it.
fn assert_read(
    rt: &impl Abort,
    input: &mut Watched<ByteReader<'_>>,
    piece: &mut [u8; 4],
    step: &ReadStep,
) {
    let (has_room, want, first, ended, failed) = *step;
    let answer = if has_room {
        input.read(piece)
    } else {
        input.read(&mut [])
    };
    let reported = (kind_of(answer), piece[0], input.ended(), input.failed());
    assert_eq!(rt; reported, (want, first, ended, failed));
}

#[test]
fn reads_pass_through_until_one_fails(rt: HostRuntime) -> Result<(), Fail> {
    for (cut, steps, calls) in READS {
        let mut input = reader(b"xy", *cut, ErrorKind::Interrupted);
        let mut piece = [0; 4];
        for step in *steps {
            assert_read(&rt, &mut input, &mut piece, step);
        }
        assert_eq!(rt; input.into_inner().calls, *calls);
    }
    Ok(())
}

/// The answer with the kind of its error.
fn kind_of(answer: io::Result<usize>) -> Result<usize, ErrorKind> {
    match answer {
        Ok(count) => Ok(count),
        Err(e) => Err(e.kind()),
    }
}

/// A write of a piece, or else a flush; what it answers, a flush with 0; whether the writer has failed afterwards.
type WriteStep = (Option<&'static [u8]>, Result<usize, ErrorKind>, bool);

/// The capacity of a writer of three bytes a call, what it does then, and whether its flush fails; the steps; what it takes,
/// and how many writes and flushes reach it.
type Writes = (
    usize,
    Full,
    bool,
    &'static [WriteStep],
    &'static [u8],
    u64,
    u64,
);

static WRITES: &[Writes] = rows! {
    (4, Full::Fails(Interrupted), false, &[
        (Some(b"goods"), Ok(3), false),
        (Some(b"ds"), Ok(1), false),
        (Some(b""), Ok(0), false),
        (Some(b"s"), Err(Interrupted), true),
        (Some(b""), Err(Other), true),
        (None, Err(Other), true),
    ], b"good", 4, 0),
    (0, Full::TakesNothing, false, &[(Some(b"goods"), Ok(0), true), (Some(b"goods"), Err(Other), true)], b"", 1, 0),
    (9, BROKEN, false, &[(None, Ok(0), false)], b"", 0, 1),
    (9, BROKEN, true, &[(None, Err(BrokenPipe), true)], b"", 0, 1),
};

/// Takes one step, and asserts what comes of it.
fn assert_write(rt: &impl Abort, out: &mut Watched<StepWriter>, step: &WriteStep) {
    let (piece, want, failed) = *step;
    let answer = match piece {
        Some(piece) => out.write(piece),
        None => out.flush().map(|_| 0),
    };
    assert_eq!(rt; (kind_of(answer), out.failed()), (want, failed));
}

#[test]
fn writes_pass_through_until_one_fails(rt: HostRuntime) -> Result<(), Fail> {
    for (capacity, full, flush_fails, steps, taken, writes, flushes) in WRITES {
        let mut out = writer(rt.alloc(), 3, *capacity, *full, *flush_fails);
        for step in *steps {
            assert_write(&rt, &mut out, step);
        }
        let inner = out.into_inner();
        assert_bytes(&rt, &inner.taken, taken);
        assert_eq!(rt; (inner.writes, inner.flushes), (*writes, *flushes));
    }
    Ok(())
}
