//! The fast path for whole bid lines. It takes number, price, goods, `#`, LF. If a line continues in another
//! way, the scanner goes on with it.

ghost use Rattle.std.specs.Prelude.{◌≡◌, ◌+◌, ◌-◌, ◌<◌, ◌≤◌, ◌^◌, false, length, ℕ, List, IfOk, OnErr};
ghost use Rattle.cats_text.specs.Internal.LeadingToken.{IsLeadingToken};
ghost use Rattle.cats_text.specs.declared.parser.Stage.TheVariants.{Bid};
ghost use Rattle.cats_text.specs.Internal.Scanning.{state, IsGoodDue, ScansTo};

use crate::keep::Keep;
use crate::leading_token::{ends_bid, leading_token, number};
use crate::read_fault::Kind;
use crate::scanner::{Mode, Scanner};
use crate::word::Word;

impl<K: Keep> Scanner<K> {
    /// Takes a good that is due, which with its blank has so many bytes at the start; answers how many.
    #[inline(always)]
    fn take_good(&mut self, good: u64, taken: usize) -> Result<usize, Kind>
        requires waits { self.old.waiting ≡ false }
        requires due { IsGoodDue (state K.keep self.old) }
        ensures scanned { (bytes : List ℕ) → IsLeadingToken bytes (Word.Number good) taken
            → ScansTo (state K.keep self.old) (state K.keep self.new) self.new.waiting bytes result }
        ensures count { IfOk result (λ count. count ≡ taken) }
        ensures due { IsGoodDue (state K.keep self.new) }
        ensures line { self.new.line ≡ self.old.line }
        ensures waiting { self.new.waiting ≡ self.old.waiting }
    {
        self.parser.take_good(good)?;
        Ok(taken)
    }

    /// Goods at the start, where a good is due; answers how many bytes they and their blanks have.
    #[inline(always)]
    fn take_goods(&mut self, bytes: &[u8]) -> Result<usize, Kind>
        requires waits { self.old.waiting ≡ false }
        requires due { IsGoodDue (state K.keep self.old) }
        ensures scanned { ScansTo (state K.keep self.old) (state K.keep self.new) self.new.waiting
            bytes.now result }
        ensures due { IsGoodDue (state K.keep self.new) }
        ensures line { self.new.line ≡ self.old.line }
        ensures waiting { self.new.waiting ≡ self.old.waiting }
    {
        let mut offset = 0;
        while let Some((good, taken)) = number(&bytes[offset..]) {
            offset += self.take_good(good, taken)?;
        }
        Ok(offset)
    }

    /// The `#` and the LF that are at the start, where a good is due; answers how many bytes they have.
    #[inline(always)]
    fn take_bid_end(&mut self) -> Result<usize, Kind>
        requires waits { self.old.waiting ≡ false }
        requires due { IsGoodDue (state K.keep self.old) }
        requires line { self.old.line < 2 ^ 64 - 1 }
        ensures scanned { (bytes : List ℕ) → IsLeadingToken bytes Word.End 1
            → ScansTo (state K.keep self.old) (state K.keep self.new) self.new.waiting bytes result }
        ensures line { IfOk result (λ count. self.new.line ≤ self.old.line + count) }
        ensures halted { OnErr result (self.new.line ≡ self.old.line) }
        ensures waiting { self.new.waiting ≡ self.old.waiting }
    {
        self.parser.close_bid()?;
        self.mode = Mode::Start;
        self.line += 1;
        Ok(2)
    }

    /// Reads a bid line at the start, with its LF. If the line is not there whole, or not in the usual order, reads its
    /// words as far as they are. Answers how many bytes were read.
    fn read_bid_line(&mut self, bytes: &[u8]) -> Result<usize, Kind>
        requires waits { self.old.waiting ≡ false }
        requires start { self.old.mode ≡ Mode.Start }
        requires stage { self.old.parser.stage ≡ Bid }
        requires line { self.old.line < 2 ^ 64 - 1 }
        ensures scanned { ScansTo (state K.keep self.old) (state K.keep self.new) self.new.waiting bytes.now result }
        ensures line { IfOk result (λ count. self.new.line ≤ self.old.line + count) }
        ensures halted { OnErr result (self.new.line ≡ self.old.line) }
        ensures waiting { self.new.waiting ≡ self.old.waiting }
    {
        let Some((number, taken)) = number(bytes) else {
            return Ok(0);
        };
        let mut offset = self.take_word(Word::Number(number), taken)?;
        let Some((price, taken)) = leading_token(&bytes[offset..]) else {
            return Ok(offset);
        };
        offset += self.take_word(price, taken)?;
        if !self.parser.takes_goods() {
            return Ok(offset);
        }
        offset += self.take_goods(&bytes[offset..])?;
        if !ends_bid(&bytes[offset..]) {
            return Ok(offset);
        }
        offset += self.take_bid_end()?;
        Ok(offset)
    }

    /// Whole bid lines at the start, and of one more the words that are there whole; answers how many bytes they have.
    pub fn read_bid_lines(&mut self, bytes: &[u8]) -> Result<usize, Kind>
        requires waits { self.old.waiting ≡ false }
        requires start { self.old.mode ≡ Mode.Start }
        requires space { self.old.line + length bytes.now < 2 ^ 64 }
        ensures scanned { ScansTo (state K.keep self.old) (state K.keep self.new) self.new.waiting bytes.now result }
        ensures line { IfOk result (λ count. self.new.line ≤ self.old.line + count) }
        ensures most { self.new.line ≤ self.old.line + length bytes.now }
    {
        let mut offset = 0;
        while offset < bytes.len() && self.mode == Mode::Start && self.parser.begins_bid() {
            let taken = self.read_bid_line(&bytes[offset..])?;
            if taken == 0 {
                break;
            }
            offset += taken;
        }
        Ok(offset)
    }
}
