//! The scanner: from bytes to words and line ends.

ghost use Rattle.std.specs.Prelude.{◌≡◌, ◌+◌, ◌-◌, ◌<◌, ◌≤◌, ◌^◌, ◌==◌, true, false, position, length, take, OnOk, IfOk};
ghost use Rattle.std.specs.Prelude.{ℕ, List};
ghost use Rattle.std.specs.List.{list_any};
ghost use Rattle.cats_text.specs.Internal.LeadingToken.{IsLeadingToken, ends_word};
ghost use Rattle.cats_text.specs.Internal.Returns.{settled, waits, carried, return_byte};
ghost use Rattle.cats_text.specs.Internal.Scanning.{
  letter_mode,
  state,
  first_state,
  blank_step,
  words_step,
  byte_step,
  end_of,
  is_before_word,
  ScansTo,
  Steps,
  Scans,
  Finishes,
  IsInLine,
  IsInBidLine,
};

use crate::keep::Keep;
use crate::leading_token::{leading_token, with_letters};
use crate::parser::{Header, Parser};
use crate::read_fault::{Kind, ReadFault};
use crate::word::Word;
use std::alloc::Global;

/// Where in a line the scanner is.
#[derive(Clone, Copy, PartialEq, Eq)]
pub enum Mode {
    /// Before its first byte.
    Start,
    /// Behind blanks alone.
    Blank,
    /// In a comment.
    Comment,
    /// Behind a word.
    Between,
    /// In a word.
    Inside(Word),
}

impl Mode {
    /// Moves behind one more byte that is not a blank.
    fn push(&mut self, byte: u8)
        ensures { self.new ≡ letter_mode self.old byte }
    {
        match self {
            Mode::Comment => {}
            Mode::Inside(word) => *word = word.with(byte),
            Mode::Start | Mode::Blank if byte == b'%' => *self = Mode::Comment,
            _ => *self = Mode::Inside(Word::new(byte)),
        }
    }
}

/// A CR before this byte: a blank where the line ends there, and else a byte of a word.
fn carriage_return(next: u8) -> u8
    ensures { result ≡ return_byte next }
{
    if next == b'\n' { b' ' } else { b'\r' }
}

/// Whether a byte is a blank or LF.
fn ends_word(byte: u8) -> bool
    ensures { result ≡ ends_word byte }
{
    matches!(byte, b' ' | b'\t' | b'\n')
}

/// So many bytes are searched at once.
const GROUP: usize = 64;

/// How many bytes the whole groups at the start have that are without LF.
fn groups_without_line_feed(bytes: &[u8]) -> usize
    ensures bound { result ≤ length bytes.now }
    ensures none { list_any (λ b. b == 10) (take result bytes.now) ≡ false }
{
    let mut offset = 0;
    while GROUP <= bytes.len() - offset && !bytes[offset..offset + GROUP].contains(&b'\n') {
        offset += GROUP;
    }
    offset
}

/// The offset of the first LF, byte by byte.
fn near_line_feed(bytes: &[u8]) -> Option<usize>
    ensures { result ≡ position (λ b. b == 10) bytes.now }
{
    bytes.iter().position(|byte| *byte == b'\n')
}

/// The offset of the first LF.
pub fn line_feed(bytes: &[u8]) -> Option<usize>
    ensures { result ≡ position (λ b. b == 10) bytes.now }
{
    let start = groups_without_line_feed(bytes);
    let place = near_line_feed(&bytes[start..])?;
    Some(start + place)
}

/// The text so far. A CR waits until the byte after it says whether a line ends there.
#[derive(Drop)]
pub struct Scanner<K: Keep> {
    pub waiting: bool,
    pub mode: Mode,
    /// The number of the line, counted from 1.
    pub line: u64,
    pub parser: Parser<K>,
}

impl<K: Keep> Scanner<K> {
    /// Before the first byte.
    pub fn new(alloc: Global) -> Scanner<K>
        ensures state { state K.keep result ≡ first_state K.keep }
        ensures waiting { result.waiting ≡ false }
    {
        Scanner {
            waiting: false,
            mode: Mode::Start,
            line: 1,
            parser: Parser::new(alloc),
        }
    }

    /// A blank, or the end of a line, after which no word goes on.
    #[inline(always)]
    fn end_word(&mut self) -> Result<(), Kind>
        ensures steps { Steps IsInBidLine blank_step (state K.keep self.old) (state K.keep self.new) result }
        ensures begun { IsInLine self.new.mode → IsInLine self.old.mode }
        ensures stage { self.new.parser.stage ≡ self.old.parser.stage }
        ensures line { self.new.line ≡ self.old.line }
        ensures waiting { self.new.waiting ≡ self.old.waiting }
    {
        match self.mode {
            Mode::Inside(word) => {
                self.parser.take_word(word)?;
                self.mode = Mode::Between;
            }
            Mode::Start => self.mode = Mode::Blank,
            _ => {}
        }
        Ok(())
    }

    /// The end of the words of a line.
    #[inline(always)]
    fn end_words(&mut self) -> Result<(), Kind>
        ensures steps { Steps IsInBidLine words_step (state K.keep self.old) (state K.keep self.new) result }
        ensures line { self.new.line ≡ self.old.line }
        ensures waiting { self.new.waiting ≡ self.old.waiting }
    {
        if let Mode::Between = self.mode {
            self.parser.end_line()?;
        }
        Ok(())
    }

    /// The next byte, no CR that ends a line.
    #[inline(always)]
    fn take_byte(&mut self, byte: u8) -> Result<(), Kind>
        requires { self.old.line < 2 ^ 64 - 1 }
        ensures steps { Steps IsInBidLine (λ s. byte_step s byte) (state K.keep self.old) (state K.keep self.new) result }
        ensures line { self.new.line ≤ self.old.line + 1 }
        ensures waiting { self.new.waiting ≡ self.old.waiting }
    {
        match byte {
            b'\n' => {
                self.end_word()?;
                self.end_words()?;
                self.mode = Mode::Start;
                self.line += 1;
                Ok(())
            }
            b' ' | b'\t' => self.end_word(),
            _ => {
                self.mode.push(byte);
                Ok(())
            }
        }
    }

    /// Takes this word, which with its blank has so many bytes at the start; answers how many.
    #[inline(always)]
    pub fn take_word(&mut self, word: Word, taken: usize) -> Result<usize, Kind>
        requires waits { self.old.waiting ≡ false }
        requires before { is_before_word self.old.mode ≡ true }
        ensures scanned { (bytes : List ℕ) → IsLeadingToken bytes word taken
            → ScansTo (state K.keep self.old) (state K.keep self.new) self.new.waiting bytes result }
        ensures count { IfOk result (λ count. count ≡ taken) }
        ensures mode { OnOk result (self.new.mode ≡ Mode.Between) }
        ensures stage { self.new.parser.stage ≡ self.old.parser.stage }
        ensures line { self.new.line ≡ self.old.line }
        ensures waiting { self.new.waiting ≡ self.old.waiting }
    {
        self.parser.take_word(word)?;
        self.mode = Mode::Between;
        Ok(taken)
    }

    /// Whole words at the start; answers how many bytes they and their blanks have.
    fn read_words(&mut self, bytes: &[u8]) -> Result<usize, Kind>
        requires waits { self.old.waiting ≡ false }
        requires before { is_before_word self.old.mode ≡ true }
        ensures scanned { ScansTo (state K.keep self.old) (state K.keep self.new) self.new.waiting bytes.now result }
        ensures line { self.new.line ≡ self.old.line }
    {
        let mut offset = 0;
        while let Some((word, taken)) = leading_token(&bytes[offset..]) {
            offset += self.take_word(word, taken)?;
        }
        Ok(offset)
    }

    /// Takes the blanks and LFs at the start; answers how many they are.
    fn take_blanks(&mut self, bytes: &[u8]) -> Result<usize, Kind>
        requires waits { self.old.waiting ≡ false }
        requires space { self.old.line + length bytes.now < 2 ^ 64 }
        ensures scanned { ScansTo (state K.keep self.old) (state K.keep self.new) self.new.waiting bytes.now result }
        ensures line { IfOk result (λ count. self.new.line ≤ self.old.line + count) }
        ensures most { self.new.line ≤ self.old.line + length bytes.now }
    {
        let mut offset = 0;
        while offset < bytes.len() && ends_word(bytes[offset]) {
            self.take_byte(bytes[offset])?;
            offset += 1;
        }
        Ok(offset)
    }

    /// Takes the blanks and LFs at the start, or reads whole words; answers how many bytes these have.
    fn go_on_behind_word(&mut self, bytes: &[u8]) -> Result<usize, Kind>
        requires waits { self.old.waiting ≡ false }
        requires before { is_before_word self.old.mode ≡ true }
        requires some { 0 < length bytes.now }
        requires space { self.old.line + length bytes.now < 2 ^ 64 }
        ensures scanned { ScansTo (state K.keep self.old) (state K.keep self.new) self.new.waiting bytes.now result }
        ensures line { IfOk result (λ count. self.new.line ≤ self.old.line + count) }
        ensures most { self.new.line ≤ self.old.line + length bytes.now }
    {
        if ends_word(bytes[0]) {
            return self.take_blanks(bytes);
        }
        if self.mode == Mode::Start && self.parser.begins_bid() {
            return self.read_bid_lines(bytes);
        }
        self.read_words(bytes)
    }

    /// Continues a comment or a word as far as it can, or goes on behind a word; answers how many bytes were read.
    fn go_on(&mut self, bytes: &[u8]) -> Result<usize, Kind>
        requires waits { self.old.waiting ≡ false }
        requires some { 0 < length bytes.now }
        requires space { self.old.line + length bytes.now < 2 ^ 64 }
        ensures scanned { ScansTo (state K.keep self.old) (state K.keep self.new) self.new.waiting bytes.now result }
        ensures line { IfOk result (λ count. self.new.line ≤ self.old.line + count) }
        ensures most { self.new.line ≤ self.old.line + length bytes.now }
    {
        match self.mode {
            Mode::Comment => {
                let count = line_feed(bytes).unwrap_or(bytes.len());
                self.waiting = count == bytes.len() && bytes[count - 1] == b'\r';
                Ok(count)
            }
            Mode::Inside(word) => {
                let (word, count) = with_letters(word, bytes);
                self.mode = Mode::Inside(word);
                Ok(count)
            }
            Mode::Start | Mode::Blank | Mode::Between => self.go_on_behind_word(bytes),
        }
    }

    /// The next bytes, behind no CR that waits.
    fn scan(&mut self, bytes: &[u8]) -> Result<(), Kind>
        requires waits { self.old.waiting ≡ false }
        requires space { self.old.line + length bytes.now < 2 ^ 64 }
        ensures steps { Scans (settled bytes.now) (state K.keep self.old) (state K.keep self.new) result }
        ensures waiting { OnOk result (self.new.waiting ≡ waits bytes.now) }
        ensures line { self.new.line ≤ self.old.line + length bytes.now }
    {
        let mut offset = 0;
        while offset < bytes.len() {
            offset += self.go_on(&bytes[offset..])?;
            if offset == bytes.len() {
                break;
            }
            if bytes[offset] != b'\r' {
                self.take_byte(bytes[offset])?;
            } else if offset + 1 == bytes.len() {
                self.waiting = true;
            } else {
                self.take_byte(carriage_return(bytes[offset + 1]))?;
            }
            offset += 1;
        }
        Ok(())
    }

    /// The next bytes.
    pub fn take(&mut self, bytes: &[u8]) -> Result<(), Kind>
        requires { self.old.line + length bytes.now < 2 ^ 64 - 1 }
        ensures steps { Scans (settled (carried self.old.waiting bytes.now))
            (state K.keep self.old) (state K.keep self.new) result }
        ensures waiting { OnOk result (self.new.waiting ≡ waits (carried self.old.waiting bytes.now)) }
        ensures line { self.new.line ≤ self.old.line + length bytes.now + 1 }
    {
        if self.waiting {
            let Some(next) = bytes.first() else {
                return Ok(());
            };
            self.waiting = false;
            self.take_byte(carriage_return(*next))?;
        }
        self.scan(bytes)
    }

    /// The end of the input. A line that is still due is missing behind the last one.
    fn end(&mut self) -> Result<(), Kind>
        requires { self.old.line < 2 ^ 64 - 2 }
        ensures { Steps IsInBidLine (end_of self.old.waiting) (state K.keep self.old) (state K.keep self.new) result }
    {
        if self.waiting {
            self.take_byte(b' ')?;
        }
        let has_begun = self.mode != Mode::Start;
        self.end_word()?;
        self.end_words()?;
        if self.parser.is_due() {
            self.line += u64::from(has_begun);
            return Err(Kind::Missing);
        }
        Ok(())
    }

    /// The end of the input: what the header lines said, and what is kept of the bids.
    pub fn finish(mut self) -> Result<(Header, K), ReadFault>
        requires { self.line < 2 ^ 64 - 2 }
        ensures { Finishes K.keep K.bids self.waiting (state K.keep self) result }
    {
        if let Err(kind) = self.end() {
            return Err(ReadFault::at(self.line, kind));
        }
        self.parser
            .into_parts()
            .map_err(|_| ReadFault::whole(Kind::Memory))
    }
}
