//! The column of a place: where it is in its line, in bytes counted from 1.

ghost use Rattle.std.specs.Prelude.{◌≡◌, ◌≤◌, length, position};
ghost use Rattle.std.specs.List.{slice_get, slice_split};
ghost use Rattle.std.specs.Str.Lines.{strip_carriage_return};
ghost use Rattle.cats_text.specs.Lines.{begins_word, is_blank};
ghost use Rattle.cats_text.specs.Views.{plain_place};
ghost use Rattle.commands.specs.Columns.{bytes_before, column_of, line_at, place_in};

use cats_text::fault_place::FaultPlace;

/// The column of a place in a text.
pub fn column_of(text: &[u8], place: &FaultPlace<'_>) -> u64
    ensures { result ≡ column_of text.now (plain_place place.now) }
{
    index_in(line_at(text, place.line), place.word.saturating_sub(1)) as u64 + 1
}

/// A place of a text whose prices were rounded, with the word that is there in the text as it is written.
pub fn place_in<'a>(text: &'a [u8], place: &FaultPlace<'_>) -> FaultPlace<'a>
    ensures { plain_place result ≡ place_in text.now (plain_place place.now) }
{
    let line = line_at(text, place.line);
    let ahead = &line[index_in(line, place.word.saturating_sub(1))..];
    let end = first_blank(ahead).unwrap_or(ahead.len());
    FaultPlace {
        line: place.line,
        word: place.word,
        text: &ahead[..end],
        kind: place.kind,
    }
}

/// The line of a number, without its LF and a CR before it. A text has nothing there if it has fewer lines.
fn line_at(text: &[u8], number: u64) -> &[u8]
    ensures { result.now ≡ line_at number text.now }
{
    let index = number.saturating_sub(1) as usize;
    match text.split(|byte| *byte == b'\n').nth(index) {
        Some(line) => without_return(line),
        None => &[],
    }
}

/// A line without a CR that ends it.
fn without_return(line: &[u8]) -> &[u8]
    ensures { result.now ≡ strip_carriage_return line.now }
{
    let Some((last, before)) = line.split_last() else {
        return line;
    };
    if *last == b'\r' { before } else { line }
}

/// Where the word begins that has so many words before it, or where the line ends if there is none.
fn index_in(line: &[u8], words: u64) -> usize
    ensures index { result ≡ bytes_before words line.now }
    ensures within { result ≤ length line.now }
{
    let mut left = words;
    let mut index = 0;
    let mut rest = line;
    while let [byte, behind @ ..] = rest {
        if !is_blank(*byte) {
            if left == 0 {
                return index;
            }
            if !begins_word(behind) {
                left -= 1;
            }
        }
        index += 1;
        rest = behind;
    }
    index
}

fn first_blank(bytes: &[u8]) -> Option<usize>
    ensures { result ≡ position is_blank bytes.now }
{
    bytes.iter().position(|byte| is_blank(*byte))
}

/// Whether a word begins at the start.
fn begins_word(bytes: &[u8]) -> bool
    ensures { result ≡ begins_word bytes.now }
{
    match bytes.first() {
        Some(byte) => !is_blank(*byte),
        None => false,
    }
}

/// Whether a byte is a space or a tab.
fn is_blank(byte: u8) -> bool
    ensures { result ≡ is_blank byte }
{
    byte == b' ' || byte == b'\t'
}
