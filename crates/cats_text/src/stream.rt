//! `Watched` readers and writers, and reading a stream.

ghost use Rattle.std.specs.Prelude.{
  ◌≡◌,
  ℕ,
  List,
  ◌≢◌,
  ◌||◌,
  false,
  IsTrue,
  IsErr,
  is_err,
  IfErr,
  [],
  None,
};
ghost use Rattle.std.specs.Io.{ReadsAtMost, WritesAtMost};
ghost use Rattle.std.specs.Io.KnownBytes.{Consumes, Keeps, ReadConsumes, WriteAppends};
ghost use Rattle.std.specs.IoError.{error_kind};
ghost use Rattle.cats_text.specs.Streams.{
  inner_of,
  has_failed,
  has_ended,
  moved_nothing,
  failed_to_write,
  ReadsAs,
  ReadsPlainAs,
  ChecksAs,
  FeedsFrom,
};

use crate::keep::{BidCount, Keep};
use crate::limits::MAX_STREAM;
use crate::parser::Header;
use crate::push_reader::{PushReader, finish_header, finish_packed, unpacked};
use crate::read_fault::{Kind, ReadFault};
use bid_file::{BidFile, PackedBids, PackedFile};
use std::alloc::Global;
use std::io;
use std::io::{ErrorKind, Read, Write};

/// A reader, or a writer, that remembers whether it failed and whether it ended.
///
/// It fails with the first call that answers an error of any kind, `Interrupted` too, and with the first write that
/// takes nothing of a piece that is not empty. That call's answer is passed on as it is; from then on every read, write
/// and flush answers an error, and what is inside is not called again. It has ended once a read into a piece that is
/// not empty gave no byte.
#[derive(Drop)]
pub struct Watched<T> {
    inner: T,
    failed: bool,
    ended: bool,
}

impl<T> Watched<T> {
    /// Watches a reader or a writer.
    pub fn new(inner: T) -> Watched<T>
        ensures inner { inner_of result ≡ inner }
        ensures failed { has_failed result ≡ false }
        ensures ended { has_ended result ≡ false }
    {
        Watched {
            inner,
            failed: false,
            ended: false,
        }
    }

    pub fn failed(&self) -> bool
        ensures { result ≡ has_failed self.now }
    {
        self.failed
    }

    pub fn ended(&self) -> bool
        ensures { result ≡ has_ended self.now }
    {
        self.ended
    }

    /// Gives back what was watched.
    pub fn into_inner(self) -> T
        ensures { result ≡ inner_of self }
    {
        self.inner
    }
}

fn failed_before() -> io::Error
    ensures { error_kind result ≢ ErrorKind.Interrupted }
{
    io::Error::from(ErrorKind::Other)
}

impl<R: Read> Read for Watched<R> {
    ghost remaining = { λ w. R.remaining (inner_of w) };

    fn read(&mut self, piece: &mut [u8]) -> io::Result<usize>
        ensures bound { ReadsAtMost result piece.new }
        ensures bytes { ReadConsumes (R.remaining (inner_of self.old)) (R.remaining (inner_of self.new)) result
            piece.new }

        ensures failed { has_failed self.new ≡ is_err result }
        ensures ended { has_ended self.new ≡ (has_ended self.old || moved_nothing result piece.new) }

        ensures failed_before { IsTrue (has_failed self.old) → IsErr result × (self.new ≡ self.old) }
        ensures not_retried { IsTrue (has_failed self.old) → IfErr result (λ e. error_kind e ≢ ErrorKind.Interrupted) }
    {
        if self.failed {
            return Err(failed_before());
        }
        let answer = self.inner.read(piece);
        match &answer {
            Ok(0) if !piece.is_empty() => self.ended = true,
            Ok(_) => {}
            Err(_) => self.failed = true,
        }
        answer
    }
}

impl<W: Write> Write for Watched<W> {
    ghost contents = { λ w. W.contents (inner_of w) };

    fn write(&mut self, piece: &[u8]) -> io::Result<usize>
        ensures bound { WritesAtMost result piece.now }
        ensures bytes { WriteAppends (W.contents (inner_of self.old)) (W.contents (inner_of self.new)) result
            piece.now }

        ensures failed { has_failed self.new ≡ failed_to_write result piece.now }
        ensures ended { has_ended self.new ≡ has_ended self.old }

        ensures failed_before { IsTrue (has_failed self.old) → IsErr result × (self.new ≡ self.old) }
        ensures not_retried { IsTrue (has_failed self.old) → IfErr result (λ e. error_kind e ≢ ErrorKind.Interrupted) }
    {
        if self.failed {
            return Err(failed_before());
        }
        let answer = self.inner.write(piece);
        match &answer {
            Ok(0) => self.failed = !piece.is_empty(),
            Ok(_) => {}
            Err(_) => self.failed = true,
        }
        answer
    }

    fn flush(&mut self) -> io::Result<()>
        ensures bytes { Keeps (W.contents (inner_of self.old)) (W.contents (inner_of self.new)) }

        ensures failed { has_failed self.new ≡ is_err result }
        ensures ended { has_ended self.new ≡ has_ended self.old }

        ensures failed_before { IsTrue (has_failed self.old) → IsErr result × (self.new ≡ self.old) }
        ensures not_retried { IsTrue (has_failed self.old) → IfErr result (λ e. error_kind e ≢ ErrorKind.Interrupted) }
    {
        if self.failed {
            return Err(failed_before());
        }
        let answer = self.inner.flush();
        self.failed = answer.is_err();
        answer
    }
}

/// Reads the whole stream as a bid file. It makes no further read once a fault is complete in the bytes that came, and
/// reads no more than `MAX_STREAM` bytes and one piece.
pub fn read_from<R: Read>(alloc: Global, input: &mut Watched<R>) -> Result<BidFile, ReadFault>
    requires works { has_failed input.old ≡ false }
    requires fresh { has_ended input.old ≡ false }
    ensures { (bytes : List ℕ) × Consumes (R.remaining (inner_of input.old)) (R.remaining (inner_of input.new)) bytes
        × ReadsAs R.remaining bytes input.new result }
{
    let file = read_packed_from(alloc, input)?;
    unpacked(alloc, &file)
}

/// Reads the whole stream as `read_from` does, as a file in little memory: the goods of all bids are together, and so
/// a file of many bids takes less memory and less time.
pub fn read_packed_from<R: Read>(
    alloc: Global,
    input: &mut Watched<R>,
) -> Result<PackedFile, ReadFault>
    requires works { has_failed input.old ≡ false }
    requires fresh { has_ended input.old ≡ false }
    ensures { (bytes : List ℕ) × Consumes (R.remaining (inner_of input.old)) (R.remaining (inner_of input.new)) bytes
        × ReadsPlainAs R.remaining bytes input.new result }
{
    let mut push_reader: PushReader<PackedBids> = PushReader::new(alloc, MAX_STREAM);
    feed_from(&mut push_reader, input)?;
    finish_packed(push_reader)
}

/// Judges the whole stream as `read_from` does, and answers what the header lines of its file say: how many goods, bids
/// and dummy goods there are. No bid's goods are kept.
pub fn check_from<R: Read>(alloc: Global, input: &mut Watched<R>) -> Result<Header, ReadFault>
    requires works { has_failed input.old ≡ false }
    requires fresh { has_ended input.old ≡ false }
    ensures { (bytes : List ℕ) × Consumes (R.remaining (inner_of input.old)) (R.remaining (inner_of input.new)) bytes
        × ChecksAs R.remaining bytes input.new result }
{
    let mut push_reader: PushReader<BidCount> = PushReader::new(alloc, MAX_STREAM);
    feed_from(&mut push_reader, input)?;
    finish_header(push_reader)
}

/// Feeds the whole stream, a piece at a time.
fn feed_from<K: Keep, R: Read>(
    push_reader: &mut PushReader<K>,
    input: &mut Watched<R>,
) -> Result<(), ReadFault>
    requires works { has_failed input.old ≡ false }
    requires fresh { has_ended input.old ≡ false }
    requires new { push_reader.old ≡ record { limit = MAX_STREAM; bytes = []; failed = None } }
    ensures bytes { Consumes (R.remaining (inner_of input.old)) (R.remaining (inner_of input.new))
        push_reader.new.bytes }
    ensures answer { FeedsFrom R.remaining push_reader.new input.new result }
{
    let mut piece = [0; PIECE];
    loop {
        match input.read(&mut piece) {
            Ok(0) => return Ok(()),
            Ok(count) => push_reader.feed(&piece[..count])?,
            Err(_) => return Err(ReadFault::whole(Kind::Device)),
        }
    }
}

/// How many bytes are read at once. More would make a call on a small text dearer, as they are set to 0 first.
const PIECE: usize = 16_384;
