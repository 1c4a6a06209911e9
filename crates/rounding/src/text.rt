//! `round`: a text with its prices rounded.

ghost use Rattle.std.specs.Prelude.{
  ◌≡◌,
  ◌++◌,
  [],
  ◌≤◌,
  ◌&&◌,
  nat_le,
  if◌then◌else◌,
  IfOk,
  OnOk,
  length,
  false,
};
ghost use Rattle.cats_text.specs.Faults.{has_bid_line};
ghost use Rattle.rounding.specs.Answers.{RoundAnswer};
ghost use Rattle.rounding.specs.Texts.{with_rounded, second_word, rounded_text, rounded_prices, change_by};
ghost use Rattle.rounding.specs.Replacements.{replacement, replacement_text};
ghost use Rattle.rounding.specs.Views.{plain_changes};
ghost use Rattle.rounding.specs.Internal.RawTexts.{first_line};

use crate::line::{is_significant, second_start, split_word};
use crate::replacement::{PriceRule, Replacement, replacement_of};
use crate::rounder::Rounder;
use cats_text::packed::check;
use cats_text::price::push_price;
use cats_text::{Kind, ReadFault};
use std::alloc::{AllocError, Global};

/// A price that was rounded: its line, counted from 1, the word, and the new price in millionths.
#[derive(Debug, Drop)]
pub struct RoundedPrice {
    pub line: u64,
    pub word: Vec<u8>,
    pub price: u64,
}

/// A text with its prices rounded, and which prices have another value now, in order.
#[derive(Debug, Drop)]
pub struct RoundedText {
    pub text: Vec<u8>,
    pub prices: Vec<RoundedPrice>,
}

/// Significant lines before the first bid line.
pub(crate) const HEADER_LINES: usize = 3;

/// Appends what is written in place of a word.
fn push_replacement(
    text: &mut Vec<u8>,
    word: &[u8],
    replacement: Replacement,
) -> Result<(), AllocError>
    ensures { OnOk result (text.new.items ≡ text.old.items ++ replacement_text word.now replacement) }
{
    match replacement {
        Replacement::Itself => text.extend_from_slice(word),
        Replacement::Exact(price) | Replacement::Rounded(price) => push_price(
            text,
            u128::from(price),
        ),
        Replacement::TooLarge => text.extend_from_slice(b"1000000000001"),
        Replacement::TooFine => text.extend_from_slice(b"0.0000001"),
    }
}

impl RoundedText {
    pub fn new(alloc: Global) -> RoundedText
        ensures text { result.text.items ≡ [] }
        ensures prices { result.prices.items ≡ [] }
    {
        RoundedText {
            text: Vec::new(alloc),
            prices: Vec::new(alloc),
        }
    }

    /// Forgets what was written.
    pub fn clear(&mut self)
        ensures text { self.new.text.items ≡ [] }
        ensures prices { self.new.prices.items ≡ [] }
    {
        self.text.clear();
        self.prices.clear();
    }

    /// Appends a bid line with its price rounded.
    fn push_bid_line(
        &mut self,
        alloc: Global,
        line: &[u8],
        number: u64,
        rule: PriceRule,
    ) -> Result<(), AllocError>
        ensures text { OnOk result (self.new.text.items ≡ self.old.text.items ++ with_rounded rule line.now) }
        ensures prices { OnOk result (plain_changes self.new.prices.items ≡ plain_changes self.old.prices.items
            ++ change_by number (second_word line.now) (replacement rule (second_word line.now))) }
    {
        let start = second_start(line);
        let (word, behind) = split_word(&line[start..]);
        let replacement = replacement_of(word, rule);
        self.text.extend_from_slice(&line[..start])?;
        push_replacement(&mut self.text, word, replacement)?;
        self.text.extend_from_slice(behind)?;
        if let Replacement::Rounded(price) = replacement {
            let mut copy = Vec::new(alloc);
            copy.extend_from_slice(word)?;
            self.prices.push(RoundedPrice {
                line: number,
                word: copy,
                price,
            })?;
        }
        Ok(())
    }

    /// Appends a line, with its price rounded if it is a bid line.
    pub(crate) fn push_line(
        &mut self,
        alloc: Global,
        line: &[u8],
        is_bid: bool,
        number: u64,
        rule: PriceRule,
    ) -> Result<(), AllocError>
        ensures text { OnOk result (self.new.text.items ≡ self.old.text.items
            ++ (if is_bid then with_rounded rule line.now else line.now)) }
        ensures prices { OnOk result (plain_changes self.new.prices.items ≡ plain_changes self.old.prices.items
            ++ (if is_bid then change_by number (second_word line.now) (replacement rule (second_word line.now)) else [])) }
    {
        if is_bid {
            self.push_bid_line(alloc, line, number, rule)
        } else {
            self.text.extend_from_slice(line)
        }
    }
}

/// Whether a line is a bid line: it is significant, and so are three lines or more before it.
pub(crate) fn is_bid_line(before: usize, significant: bool) -> bool
    ensures { result ≡ (nat_le 3 before && significant) }
{
    before >= HEADER_LINES && significant
}

/// How many bytes are before the first LF.
pub(crate) fn line_length(text: &[u8]) -> usize
    ensures count { result ≡ length (first_line text.now) }
    ensures within { result ≤ length text.now }
{
    for (offset, byte) in text.iter().enumerate() {
        if *byte == b'\n' {
            return offset;
        }
    }
    text.len()
}

/// The text with its prices rounded, whether or not it is a bid file then.
pub fn round_prices(alloc: Global, text: &[u8], rule: PriceRule) -> Result<RoundedText, AllocError>
    ensures text { IfOk result (λ r. r.text.items ≡ rounded_text rule text.now) }
    ensures prices { IfOk result (λ r. plain_changes r.prices.items ≡ rounded_prices rule text.now) }
{
    let mut rounded = RoundedText::new(alloc);
    let mut rounder = Rounder::new(alloc, rule);
    rounder.push(alloc, text, &mut rounded)?;
    rounder.finish(alloc, &mut rounded)?;
    Ok(rounded)
}

/// Whether a bid line has begun in a text: a fourth significant line.
fn has_bid_line(text: &[u8]) -> bool
    ensures { result ≡ has_bid_line text.now }
{
    let mut start = 0;
    let mut count = 0;
    while start < text.len() && count <= HEADER_LINES {
        let end = start + line_length(&text[start..]);
        count += usize::from(is_significant(&text[start..end]));
        start = text.len().min(end + 1);
    }
    count > HEADER_LINES
}

/// Judges a text in which no bid line has begun. No byte of it changes, so its fault needs no memory.
fn round_header(alloc: Global, text: &[u8], rule: PriceRule) -> Result<RoundedText, ReadFault>
    requires { has_bid_line text.now ≡ false }
    ensures { RoundAnswer rule text.now result }
{
    check(alloc, text)?;
    match Vec::from_slice(alloc, text) {
        Ok(text) => Ok(RoundedText {
            text,
            prices: Vec::new(alloc),
        }),
        Err(AllocError) => Err(ReadFault::whole(Kind::Memory)),
    }
}

/// Rounds the prices of a text, and judges whether what it gives is a bid file. No bid of it is kept. Memory is refused
/// only if a bid line has begun, or if the rounded text is a bid file.
pub fn round(alloc: Global, text: &[u8], rule: PriceRule) -> Result<RoundedText, ReadFault>
    ensures { RoundAnswer rule text.now result }
{
    if !has_bid_line(text) {
        return round_header(alloc, text, rule);
    }
    let Ok(rounded) = round_prices(alloc, text, rule) else {
        return Err(ReadFault::whole(Kind::Memory));
    };
    check(alloc, &rounded.text)?;
    Ok(rounded)
}
