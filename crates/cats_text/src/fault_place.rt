//! `place_of_fault`: where the first fault of a text is. The parser judges its words, as for `read`.

ghost use Rattle.std.specs.Prelude.{◌≡◌, ◌<◌, [], not, length, position, true, IfOk, OnErr, option_map, MatchOption};
ghost use Rattle.cats_text.specs.Lines.{line_words, is_blank, is_significant};
ghost use Rattle.cats_text.specs.Faults.{has_bid_line};
ghost use Rattle.cats_text.specs.FaultPlaces.{first_place};
ghost use Rattle.cats_text.specs.Views.{plain_place};
ghost use Rattle.cats_text.specs.Internal.Machine.{summary};
ghost use Rattle.cats_text.specs.Internal.Places.{
  IsFirstWord,
  IsNextWord,
  IsFirstLine,
  without_return,
  seen,
  line_judged,
  words_judged,
  Judges,
};

use crate::keep::BidCount;
use crate::leading_token::leading_token;
use crate::parser::Parser;
use crate::read_fault::Kind;
use crate::scanner::line_feed;
use crate::word::Word;
use std::alloc::{AllocError, Global};

/// Where a fault of a text is. Lines and the words of a line are counted from 1. At the end of a line or of the input the
/// place is behind the last word, and `text` is empty.
#[derive(Clone, Copy, Debug)]
pub struct FaultPlace<'a> {
    pub line: u64,
    pub word: u64,
    /// The bytes of the word.
    pub text: &'a [u8],
    pub kind: Kind,
}

/// What the parser keeps of a word.
fn word_of(bytes: &[u8]) -> Word
    ensures { result ≡ summary bytes.now }
{
    match bytes {
        [] => Word::Other,
        [first, rest @ ..] => rest
            .iter()
            .fold(Word::new(*first), |word, byte| word.with(*byte)),
    }
}

/// Whether a byte is a space or a tab.
fn is_blank(byte: u8) -> bool
    ensures { result ≡ is_blank byte }
{
    byte == b' ' || byte == b'\t'
}

/// Where the first word begins.
fn first_letter(line: &[u8]) -> Option<usize>
    ensures { result ≡ position (λ b. not (is_blank b)) line.now }
{
    line.iter().position(|byte| !is_blank(*byte))
}

fn first_blank(line: &[u8]) -> Option<usize>
    ensures { result ≡ position is_blank line.now }
{
    line.iter().position(|byte| is_blank(*byte))
}

/// The first word of a line, and what is behind it.
fn split_word(line: &[u8]) -> Option<(&[u8], &[u8])>
    ensures { MatchOption result (line_words line.now ≡ []) (λ parts. IsFirstWord line.now parts.0.now parts.1.now) }
{
    let Some(start) = first_letter(line) else {
        return None;
    };
    let ahead = &line[start..];
    let end = first_blank(ahead).unwrap_or(ahead.len());
    Some((&ahead[..end], &ahead[end..]))
}

/// The first word of a line, what is behind it, and what the parser keeps of the word. A word with a blank behind it is read
/// as the scanner reads it.
fn next_word(line: &[u8]) -> Option<(&[u8], &[u8], Word)>
    ensures { MatchOption result (line_words line.now ≡ []) (λ next. IsNextWord line.now next.0.now next.1.now next.2) }
{
    if let Some((word, taken)) = leading_token(line) {
        if is_blank(line[taken - 1]) {
            return Some((&line[..taken - 1], &line[taken..], word));
        }
    }
    let (text, behind) = split_word(line)?;
    Some((text, behind, word_of(text)))
}

/// A line without a CR at its end.
pub(crate) fn without_return(line: &[u8]) -> &[u8]
    ensures { result.now ≡ without_return line.now }
{
    let Some((last, before)) = line.split_last() else {
        return line;
    };
    if *last == b'\r' { before } else { line }
}

/// The first line of a text, without its LF and a CR that ends it, and what is behind its LF.
fn split_line(text: &[u8]) -> (&[u8], &[u8])
    requires { 0 < length text.now }
    ensures { IsFirstLine text.now result.0.now result.1.now }
{
    let end = line_feed(text).unwrap_or(text.len());
    let behind = &text[text.len().min(end + 1)..];
    (without_return(&text[..end]), behind)
}

/// Whether a line is neither empty nor a comment.
fn is_significant(line: &[u8]) -> bool
    ensures { result ≡ is_significant (line_words line.now) }
{
    let Some((word, _)) = split_word(line) else {
        return false;
    };
    word.first() != Some(&b'%')
}

/// Judges the words of a line and its end.
fn judge_words<'a>(
    parser: &mut Parser<BidCount>,
    number: u64,
    line: &'a [u8],
) -> Result<(), FaultPlace<'a>>
    ensures { Judges (words_judged number 1 (line_words line.now)) (seen parser.old) (seen parser.new) result }
{
    let mut word = 1;
    let mut rest = line;
    while let Some((text, behind, kept)) = next_word(rest) {
        if let Err(kind) = parser.take_word(kept) {
            return Err(FaultPlace {
                line: number,
                word,
                text,
                kind,
            });
        }
        word += 1;
        rest = behind;
    }
    parser.end_line().map_err(|kind| FaultPlace {
        line: number,
        word,
        text: b"",
        kind,
    })
}

/// Judges a line, unless it is empty or a comment.
pub(crate) fn judge_line<'a>(
    parser: &mut Parser<BidCount>,
    number: u64,
    line: &'a [u8],
) -> Result<(), FaultPlace<'a>>
    ensures judged { Judges (line_judged number (line_words line.now)) (seen parser.old) (seen parser.new) result }
    ensures significant { OnErr result (is_significant (line_words line.now) ≡ true) }
{
    if !is_significant(line) {
        return Ok(());
    }
    judge_words(parser, number, line)
}

/// The place of the first fault of a text.
pub fn place_of_fault(alloc: Global, text: &[u8]) -> Result<Option<FaultPlace<'_>>, AllocError>
    ensures place { IfOk result (λ place. option_map plain_place place ≡ first_place text.now) }
    ensures memory { OnErr result (has_bid_line text.now ≡ true) }
{
    let mut parser: Parser<BidCount> = Parser::new(alloc);
    let mut number = 1;
    let mut rest = text;
    while !rest.is_empty() {
        let (line, behind) = split_line(rest);
        if let Err(place) = judge_line(&mut parser, number, line) {
            return match place.kind {
                Kind::Memory => Err(AllocError),
                _ => Ok(Some(place)),
            };
        }
        number += 1;
        rest = behind;
    }
    Ok(
        parser.is_due().then_some(FaultPlace {
            line: number,
            word: 1,
            text: b"",
            kind: Kind::Missing,
        }),
    )
}
