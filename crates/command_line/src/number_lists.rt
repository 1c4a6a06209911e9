//! The numbers that words name: each word is a list, with commas, of numbers and of ranges of numbers.

ghost use Rattle.std.specs.Prelude.{◌≡◌, ◌+◌, ◌-◌, ◌==◌, ◌<◌, ◌≤◌, IfOk, None, OnOk, Some};
ghost use Rattle.std.specs.Prelude.{if◌then◌else◌, option_map};
ghost use Rattle.std.specs.List.{range_with_len, slice_split};
ghost use Rattle.command_line.specs.NumberLists.{ends_of, named_number, numbers_of_word, numbers_of_words};
ghost use Rattle.command_line.specs.Internal.Named.{AreMarked, with_all, with_named};
ghost use Rattle.requests.specs.Requests.{texts_of};

use crate::parser::begins_with_sign;
use std::alloc::{AllocError, Global};

/// A number that a word names is below this.
const NUMBERS: usize = 65_536;

/// The numbers up to `most` of all words, each once, where it is named first; or `None` if a word is wrong.
pub(crate) fn numbers_of_words(
    alloc: Global,
    words: &[&str],
    most: u16,
) -> Result<Option<Vec<u16>>, AllocError>
    ensures { IfOk result (λ found. option_map (λ numbers. numbers.items) found
        ≡ numbers_of_words most (texts_of words.now)) }
{
    let mut numbers = Vec::new(alloc);
    let mut marks = [false; NUMBERS];
    for word in words {
        if !push_word(alloc, &mut numbers, &mut marks, word, most)? {
            return Ok(None);
        }
    }
    Ok(Some(numbers))
}

/// Pushes the numbers of a word, and answers whether it is right.
fn push_word(
    alloc: Global,
    numbers: &mut Vec<u16>,
    marks: &mut [bool],
    word: &str,
    most: u16,
) -> Result<bool, AllocError>
    requires { AreMarked numbers.now.items marks.now }
    ensures numbers { IfOk result (λ right. (if right then Some numbers.new.items else None)
        ≡ option_map (with_all numbers.old.items) (numbers_of_word most word.now)) }
    ensures marks { OnOk result (AreMarked numbers.new.items marks.new) }
{
    let parts = split(alloc, word, ',')?;
    for part in parts.as_slice() {
        let Some((first, last)) = ends(split(alloc, part, '-')?.as_slice(), most) else {
            return Ok(false);
        };
        if first > last {
            return Ok(false);
        }
        push_range(numbers, marks, first, last)?;
    }
    Ok(true)
}

/// Pushes the numbers from the first to the last.
fn push_range(
    numbers: &mut Vec<u16>,
    marks: &mut [bool],
    first: u16,
    last: u16,
) -> Result<(), AllocError>
    requires ends { first ≤ last }
    requires marks { AreMarked numbers.now.items marks.now }
    ensures numbers { OnOk result (numbers.new.items
        ≡ with_all numbers.old.items (range_with_len first (last + 1 - first))) }
    ensures marks { OnOk result (AreMarked numbers.new.items marks.new) }
{
    for number in first..=last {
        push_number(numbers, marks, number)?;
    }
    Ok(())
}

/// Pushes a number, unless it is there.
fn push_number(numbers: &mut Vec<u16>, marks: &mut [bool], number: u16) -> Result<(), AllocError>
    requires { AreMarked numbers.now.items marks.now }
    ensures numbers { OnOk result (numbers.new.items ≡ with_named numbers.old.items number) }
    ensures marks { OnOk result (AreMarked numbers.new.items marks.new) }
{
    let at = usize::from(number);
    if marks[at] {
        return Ok(());
    }
    marks[at] = true;
    numbers.push(number)?;
    Ok(())
}

/// The first and the last number of a range, by its texts. A number alone is both.
#[tactic(auto, using(crate::proofs::NumbersSoFar::more_texts))]
fn ends(texts: &[&str], most: u16) -> Option<(u16, u16)>
    ensures { result ≡ ends_of most (texts_of texts.now) }
{
    match texts {
        [number] => named_number(number, most).zip(named_number(number, most)),
        [first, last] => named_number(first, most).zip(named_number(last, most)),
        _ => None,
    }
}

/// The number of a text of digits alone, if it is not greater.
#[tactic(auto, using(crate::proofs::Reading::no_number_read))]
fn named_number(text: &str, most: u16) -> Option<u16>
    ensures { result ≡ named_number most text.now }
{
    if begins_with_sign(text) {
        return None;
    }
    match text.parse::<u16>() {
        Ok(number) if number <= most => Some(number),
        _ => None,
    }
}

/// The parts of a text between each two of these characters.
fn split<'a>(alloc: Global, text: &'a str, at: char) -> Result<Vec<&'a str>, AllocError>
    requires { at < 128 }
    ensures { IfOk result (λ parts. texts_of parts.items ≡ slice_split (λ b. b == at) text.now) }
{
    text.split(at).collect(alloc)
}
