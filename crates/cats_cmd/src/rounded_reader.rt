//! Reading a stream with its prices rounded, a piece at a time.

ghost use Rattle.std.specs.Prelude.{◌≡◌, ℕ, List, [], ◌++◌, None, false};
ghost use Rattle.cats_text.specs.Streams.{has_ended, has_failed};
ghost use Rattle.cats_cmd.specs.Internal.Roundings.{EndsAs, FeedsOn, HasTaken, IsSound, IsWorking, PassesOn, ReadsRounded};
ghost use Rattle.cats_cmd.specs.Internal.Roundings.{refusal_of_reader};
ghost use Rattle.rounding.specs.declared.replacement.PriceRule.{PriceRule as Rule};

use crate::bytes::PIECE;
use crate::priced_input::{NONE_ROUNDED, RoundedCount, rounded_count};
use cats_text::packed::{Keep, PushReader};
use cats_text::{Kind, MAX_STREAM, ReadFault, Watched};
use rounding::replacement::PriceRule;
use rounding::rounder::Rounder;
use rounding::text::RoundedText;
use std::alloc::{AllocError, Global};
use std::io::Read;

/// The longest text that a reader is fed. Memory is refused to a longer one, which no stream gives.
const MAX_TEXT: u64 = 1 << 62;

/// A reader of a text whose prices are rounded while it comes.
#[derive(Drop)]
pub(crate) struct RoundedReader<K: Keep> {
    rounder: Rounder,
    reader: PushReader<K>,
    /// What became of the last piece.
    rounded: RoundedText,
    /// How many prices were rounded.
    count: RoundedCount,
    /// Why the text is refused. After it no piece is looked at.
    fault: Option<ReadFault>,
}

/// A fault of a reader; one that its text is too long is want of memory.
fn refusal_of_reader(fault: ReadFault) -> ReadFault
    ensures { result ≡ refusal_of_reader fault }
{
    match fault.kind {
        Kind::TooLong => ReadFault::whole(Kind::Memory),
        _ => fault,
    }
}

impl<K: Keep> RoundedReader<K> {
    fn new(alloc: Global, rule: PriceRule) -> RoundedReader<K>
        ensures { HasTaken rule [] result }
    {
        RoundedReader {
            rounder: Rounder::new(alloc, rule),
            reader: PushReader::new(alloc, MAX_TEXT),
            rounded: RoundedText::new(alloc),
            count: NONE_ROUNDED,
            fault: None,
        }
    }

    /// Rounds a piece and judges it, unless a fault was found before.
    fn take(&mut self, alloc: Global, piece: &[u8])
        requires { IsSound self.old }
        ensures { (rule : Rule) (bytes : List ℕ) → HasTaken rule bytes self.old
            → HasTaken rule (bytes ++ piece.now) self.new }
    {
        if self.fault.is_none() {
            self.fault = self.feed(alloc, piece).err();
        }
    }

    /// Rounds a piece, and judges the lines that end in it.
    fn feed(&mut self, alloc: Global, piece: &[u8]) -> Result<(), ReadFault>
        requires { IsWorking self.old }
        ensures { FeedsOn self.old piece.now self.new result }
    {
        self.rounded.clear();
        match self.rounder.push(alloc, piece, &mut self.rounded) {
            Ok(()) => self.pass_on(),
            Err(AllocError) => Err(ReadFault::whole(Kind::Memory)),
        }
    }

    /// Judges what became of a piece.
    fn pass_on(&mut self) -> Result<(), ReadFault>
        requires { self.old.reader.failed ≡ None }
        ensures { PassesOn self.old self.new result }
    {
        if let Err(fault) = self.reader.feed(self.rounded.text.as_slice()) {
            return Err(refusal_of_reader(fault));
        }
        let more = rounded_count(self.rounded.prices.as_slice());
        let Some(count) = self.count.with(more) else {
            return Err(ReadFault::whole(Kind::Memory));
        };
        self.count = count;
        Ok(())
    }

    /// Rounds the last line. It answers the reader that was fed the whole text, and how many prices were rounded.
    fn finish(mut self, alloc: Global) -> Result<(PushReader<K>, RoundedCount), ReadFault>
        requires { IsSound self }
        ensures { (rule : Rule) (bytes : List ℕ) → HasTaken rule bytes self → EndsAs rule bytes result }
    {
        if let Some(fault) = self.fault {
            return Err(fault);
        }
        self.rounded.clear();
        match self.rounder.finish(alloc, &mut self.rounded) {
            Ok(()) => self.pass_on()?,
            Err(AllocError) => return Err(ReadFault::whole(Kind::Memory)),
        }
        Ok((self.reader, self.count))
    }
}

/// Reads a stream to its end, and rounds its prices. No more of it is kept than the line that has begun. It answers a
/// reader that was fed the rounded text, and how many prices were rounded.
pub(crate) fn read_rounded<K: Keep, R: Read>(
    alloc: Global,
    input: &mut Watched<R>,
    rule: PriceRule,
) -> Result<(PushReader<K>, RoundedCount), ReadFault>
    requires works { has_failed input.old ≡ false }
    requires fresh { has_ended input.old ≡ false }
    ensures { ReadsRounded R.remaining rule input.old input.new result }
{
    let mut reader: RoundedReader<K> = RoundedReader::new(alloc, rule);
    let mut length = 0;
    let mut piece = [0; PIECE];
    loop {
        match input.read(&mut piece) {
            Ok(0) => return reader.finish(alloc),
            Ok(count) => {
                if count as u64 > MAX_STREAM - length {
                    return Err(ReadFault::whole(Kind::TooLong));
                }
                length += count as u64;
                reader.take(alloc, &piece[..count]);
            }
            Err(_) => return Err(ReadFault::whole(Kind::Device)),
        }
    }
}
