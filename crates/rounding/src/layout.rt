//! Lines in layouts of other publishers, and what is mended in them.

ghost use Rattle.std.specs.Prelude.{◌≡◌, ◌++◌, ◌+◌, ◌<◌, ◌≤◌, ◌&&◌, OnOk, length, codes, drop, take, slice_index, suc};
ghost use Rattle.std.specs.Str.{str_eq_ignore_ascii_case};
ghost use Rattle.cats_text.specs.Lines.{is_blank, line_byte};
ghost use Rattle.rounding.specs.Layouts.{before_end, begins_remark, begins_with_digit, is_other_spelling};
ghost use Rattle.rounding.specs.Layouts.{is_remarked_end, keyword, lacks_dummy, mend_in_bid};
ghost use Rattle.rounding.specs.Layouts.{mend_in_header, mend_of, mended_by, needs_mending};
ghost use Rattle.rounding.specs.Texts.{blanks};

use crate::line::{behind_first, count_blanks, from_first, is_blank, split_word};
use crate::text::HEADER_LINES;
use std::alloc::AllocError;

/// What is mended in a line.
#[derive(Clone, Copy, PartialEq, Eq, Debug, Drop)]
pub enum Mend {
    /// A line `dummy 0` is put in before it.
    Dummy,
    /// Its keyword is written in lower case, without a colon.
    Keyword,
    /// It is a comment, and begins with `%` in place of `#`.
    Comment,
    /// A remark behind the end of its bid is cut.
    Remark,
}

/// A line that was mended, by its number in the text as it was, counted from 1.
#[derive(Clone, Copy, PartialEq, Eq, Debug, Drop)]
pub struct MendedLine {
    pub line: u64,
    pub mend: Mend,
}

fn begins_with_digit(bytes: &[u8]) -> bool
    ensures { result ≡ begins_with_digit bytes.now }
{
    match bytes {
        [first, ..] => first.is_ascii_digit(),
        [] => false,
    }
}

/// Whether the line `dummy` is missing before a line.
pub(crate) fn lacks_dummy(line: &[u8], before: usize) -> bool
    ensures { result ≡ lacks_dummy before line.now }
{
    before == 2 && begins_with_digit(from_first(line))
}

/// The keyword that is due behind so many significant lines.
fn keyword(before: usize) -> &'static [u8]
    ensures { result.now ≡ keyword before }
{
    match before {
        0 => b"goods",
        1 => b"bids",
        _ => b"dummy",
    }
}

fn keyword_with_colon(before: usize) -> &'static [u8]
    ensures { result.now ≡ keyword before ++ codes ":" }
{
    match before {
        0 => b"goods:",
        1 => b"bids:",
        _ => b"dummy:",
    }
}

fn is_same_word(word: &[u8], other: &[u8]) -> bool
    ensures { result ≡ str_eq_ignore_ascii_case word.now other.now }
{
    word.eq_ignore_ascii_case(other)
}

fn is_other_spelling(word: &[u8], before: usize) -> bool
    ensures { result ≡ is_other_spelling word.now (keyword before) }
{
    word != keyword(before)
        && (is_same_word(word, keyword(before)) || is_same_word(word, keyword_with_colon(before)))
}

fn mend_in_header(word: &[u8], before: usize) -> Option<Mend>
    ensures { result ≡ mend_in_header before word.now }
{
    if is_other_spelling(word, before) {
        Some(Mend::Keyword)
    } else {
        None
    }
}

/// Whether a word begins there, but not with a digit.
fn begins_remark(bytes: &[u8]) -> bool
    ensures { result ≡ begins_remark bytes.now }
{
    match bytes {
        [first, ..] => !first.is_ascii_digit(),
        [] => false,
    }
}

/// Whether there is the word `#` and a remark behind it.
fn is_remarked_end(bytes: &[u8]) -> bool
    ensures { result ≡ is_remarked_end bytes.now }
{
    match bytes {
        [b'#', behind @ ..] => count_blanks(behind) > 0 && begins_remark(from_first(behind)),
        _ => false,
    }
}

/// Whether a blank is at an offset, and that word behind it.
fn is_before_end(line: &[u8], offset: usize) -> bool
    requires { offset < length line.now }
    ensures { result ≡ (is_blank (line_byte (slice_index line.now offset) (drop (suc offset) line.now))
        && is_remarked_end (drop (suc offset) line.now)) }
{
    is_blank(line, offset) && is_remarked_end(&line[offset + 1..])
}

/// How many bytes are before the blank before that word.
fn length_before_end(line: &[u8]) -> usize
    ensures count { result ≡ length (before_end line.now) }
    ensures within { result ≤ length line.now }
{
    for offset in 0..line.len() {
        if is_before_end(line, offset) {
            return offset;
        }
    }
    line.len()
}

fn mend_in_bid(line: &[u8]) -> Option<Mend>
    ensures { result ≡ mend_in_bid line.now }
{
    if length_before_end(line) < line.len() {
        Some(Mend::Remark)
    } else {
        None
    }
}

/// What has to be mended in a line behind so many significant lines.
pub(crate) fn mend_of(line: &[u8], before: usize) -> Option<Mend>
    ensures { result ≡ mend_of before line.now }
{
    let first = from_first(line);
    match first {
        [] | [b'%', ..] => None,
        [b'#', ..] => Some(Mend::Comment),
        _ if before >= HEADER_LINES => mend_in_bid(line),
        _ => mend_in_header(split_word(first).0, before),
    }
}

/// Whether a line has to be mended, or one has to be put in before it.
pub(crate) fn needs_mending(line: &[u8], before: usize) -> bool
    ensures { result ≡ needs_mending before line.now }
{
    lacks_dummy(line, before) || mend_of(line, before).is_some()
}

/// Appends a line as it is when that is mended.
pub(crate) fn push_mended(
    text: &mut Vec<u8>,
    line: &[u8],
    mend: Option<Mend>,
    before: usize,
) -> Result<(), AllocError>
    ensures { OnOk result (text.new.items ≡ text.old.items ++ mended_by mend before line.now) }
{
    match mend {
        None | Some(Mend::Dummy) => text.extend_from_slice(line),
        Some(Mend::Keyword) => push_first(text, line, keyword(before), behind_first(line)),
        Some(Mend::Comment) => push_first(text, line, b"%", behind_byte(from_first(line))),
        Some(Mend::Remark) => text.extend_from_slice(up_to_end(line)),
    }
}

/// Appends the blanks at the beginning of a line, a word, and what is behind it.
fn push_first(text: &mut Vec<u8>, line: &[u8], word: &[u8], behind: &[u8]) -> Result<(), AllocError>
    ensures { OnOk result (text.new.items ≡ text.old.items ++ (blanks line.now ++ word.now ++ behind.now)) }
{
    text.extend_from_slice(&line[..count_blanks(line)])?;
    text.extend_from_slice(word)?;
    text.extend_from_slice(behind)
}

/// A bid line up to the word `#` that has a remark behind it.
fn up_to_end(line: &[u8]) -> &[u8]
    ensures { result.now ≡ take (length (before_end line.now) + 2) line.now }
{
    &line[..line.len().min(length_before_end(line) + 2)]
}

/// What is behind the first byte.
fn behind_byte(bytes: &[u8]) -> &[u8]
    ensures { result.now ≡ drop 1 bytes.now }
{
    match bytes {
        [_, behind @ ..] => behind,
        [] => bytes,
    }
}
