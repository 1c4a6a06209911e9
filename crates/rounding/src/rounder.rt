//! `Rounder`: the prices of a text that comes in pieces.

ghost use Rattle.std.specs.Prelude.{◌≡◌, ◌++◌, ℕ, List, [], OnOk, false, true};
ghost use Rattle.rounding.specs.Pieces.{IsRounding, RoundsAll, RoundsOn, has_line_end, line_end, prices_with, rounded_with};
ghost use Rattle.rounding.specs.Texts.{rounded_prices, rounded_text};

use crate::line::is_significant;
use crate::replacement::PriceRule;
use crate::text::{RoundedText, is_bid_line, line_length};
use std::alloc::{AllocError, Global};

/// Rounds the prices of a text that comes in pieces. It holds the bytes of the line that has begun, and nothing of the
/// lines before it.
#[derive(Drop)]
pub struct Rounder {
    rule: PriceRule,
    /// The bytes of the line that has begun.
    line: Vec<u8>,
    /// The number of that line, counted from 1.
    number: u64,
    /// How many significant lines are before it.
    before: usize,
}

impl Rounder {
    /// Of a text of which no byte has come.
    pub fn new(alloc: Global, rule: PriceRule) -> Rounder
        ensures holds { IsRounding result }
        ensures text { (text : List ℕ) → rounded_with result text ≡ rounded_text rule text }
        ensures prices { (text : List ℕ) → prices_with result text ≡ rounded_prices rule text }
    {
        Rounder {
            rule,
            line: Vec::new(alloc),
            number: 1,
            before: 0,
        }
    }

    /// Appends each line that ends in a piece, rounded, and its price if that was rounded.
    pub fn push(
        &mut self,
        alloc: Global,
        piece: &[u8],
        rounded: &mut RoundedText,
    ) -> Result<(), AllocError>
        requires { IsRounding self.old }
        ensures { OnOk result (RoundsOn self.old piece.now self.new [] rounded.old rounded.new) }
    {
        let mut start = 0;
        while start < piece.len() {
            let end = start + line_length(&piece[start..]);
            self.take_line(alloc, &piece[start..end], end < piece.len(), rounded)?;
            start = piece.len().min(end + 1);
        }
        Ok(())
    }

    /// Holds more bytes of a line, and appends the line if it ends behind them.
    fn take_line(
        &mut self,
        alloc: Global,
        bytes: &[u8],
        ended: bool,
        rounded: &mut RoundedText,
    ) -> Result<(), AllocError>
        requires holds { IsRounding self.old }
        requires within { has_line_end bytes.now ≡ false }
        ensures { OnOk result (RoundsOn self.old (bytes.now ++ line_end ended) self.new [] rounded.old rounded.new) }
    {
        self.line.extend_from_slice(bytes)?;
        if ended {
            self.end_line(alloc, rounded)
        } else {
            Ok(())
        }
    }

    /// Appends the line that is held, which an LF ends. Memory is refused too if there would be 2 to the power 64 lines.
    fn end_line(&mut self, alloc: Global, rounded: &mut RoundedText) -> Result<(), AllocError>
        requires { IsRounding self.old }
        ensures { OnOk result (RoundsOn self.old (line_end true) self.new [] rounded.old rounded.new) }
    {
        if self.number == u64::MAX {
            return Err(AllocError);
        }
        let line = self.line.as_slice();
        let significant = is_significant(line);
        let is_bid = is_bid_line(self.before, significant);
        rounded.push_line(alloc, line, is_bid, self.number, self.rule)?;
        rounded.text.push(b'\n')?;
        self.line.clear();
        self.number += 1;
        self.before += usize::from(significant);
        Ok(())
    }

    /// Appends the bytes that are held as the last line, which no LF ends.
    pub fn finish(&self, alloc: Global, rounded: &mut RoundedText) -> Result<(), AllocError>
        requires { IsRounding self.now }
        ensures { OnOk result (RoundsAll self.now rounded.old rounded.new) }
    {
        let line = self.line.as_slice();
        let is_bid = is_bid_line(self.before, is_significant(line));
        rounded.push_line(alloc, line, is_bid, self.number, self.rule)
    }
}
