//! `mend`: a text in a layout of another publisher, mended.

ghost use Rattle.std.specs.Prelude.{◌≡◌, ◌++◌, ◌+◌, ◌-◌, ◌^◌, ◌<◌, ◌≤◌, IfOk, length, true};
ghost use Rattle.std.specs.List.{list_any};
ghost use Rattle.rounding.specs.Layouts.{MendAnswer, before_behind, has_mends, is_put_in_before, line_in_file, line_mended};
ghost use Rattle.rounding.specs.Layouts.{line_mends, mend_of, mended_at, mended_bytes, mended_places, mended_text};
ghost use Rattle.rounding.specs.Layouts.{put_in, put_in_at};
ghost use Rattle.rounding.specs.Texts.{is_significant_line, lines_text};

use crate::layout::{Mend, MendedLine, lacks_dummy, mend_of, needs_mending, push_mended};
use crate::line::is_significant;
use crate::text::line_length;
use std::alloc::{AllocError, Global};

/// A text that is mended, and what was mended, in order.
#[derive(Debug, Drop)]
pub struct MendedText {
    pub text: Vec<u8>,
    pub mends: Vec<MendedLine>,
}

impl MendedText {
    /// Puts in the line `dummy 0` if it is missing before a line. It answers how many significant lines are before that
    /// line then.
    fn put_in(&mut self, line: &[u8], number: u64, before: usize) -> Result<usize, AllocError>
        requires { before < 2 ^ 64 - 2 }
        ensures text { IfOk result (λ _. self.new.text.items ≡ self.old.text.items ++ lines_text (put_in before line.now)) }
        ensures mends { IfOk result (λ _. self.new.mends.items ≡ self.old.mends.items ++ put_in_at number before line.now) }
        ensures before { IfOk result (λ behind. behind ≡ before + length (put_in before line.now)) }
        ensures few { IfOk result (λ behind. behind ≤ before + 1) }
    {
        if !lacks_dummy(line, before) {
            return Ok(before);
        }
        self.text.extend_from_slice(b"dummy 0\n")?;
        self.mends.push(MendedLine {
            line: number,
            mend: Mend::Dummy,
        })?;
        Ok(before + 1)
    }

    /// Appends the bytes of a line as they are when that is mended. It answers whether the line is significant then.
    fn push_line(&mut self, line: &[u8], number: u64, before: usize) -> Result<bool, AllocError>
        ensures text { IfOk result (λ _. self.new.text.items ≡ self.old.text.items ++ mended_bytes before line.now) }
        ensures mends { IfOk result (λ _. self.new.mends.items ≡ self.old.mends.items
            ++ mended_at number (mend_of before line.now)) }
        ensures significant { IfOk result (λ significant. significant
            ≡ is_significant_line (record { bytes = mended_bytes before line.now; ended = true })) }
    {
        let mend = mend_of(line, before);
        if let Some(mend) = mend {
            self.mends.push(MendedLine { line: number, mend })?;
        }
        let start = self.text.len();
        push_mended(&mut self.text, line, mend, before)?;
        Ok(is_significant(&self.text[start..]))
    }

    /// Appends a line, mended. It answers how many significant lines are before the next one then.
    fn mend_line(
        &mut self,
        line: &[u8],
        ended: bool,
        number: u64,
        before: usize,
    ) -> Result<usize, AllocError>
        requires { before < 2 ^ 64 - 2 }
        ensures text { IfOk result (λ _. self.new.text.items ≡ self.old.text.items
            ++ lines_text (line_mended before (record { bytes = line.now; ended = ended }))) }
        ensures mends { IfOk result (λ _. self.new.mends.items ≡ self.old.mends.items
            ++ line_mends number before (record { bytes = line.now; ended = ended })) }
        ensures before { IfOk result (λ next. next ≡ before_behind before (record { bytes = line.now; ended = ended })) }
        ensures few { IfOk result (λ next. next ≤ before + 2) }
    {
        let behind = self.put_in(line, number, before)?;
        let significant = self.push_line(line, number, behind)?;
        if ended {
            self.text.push(b'\n')?;
        }
        Ok(behind + usize::from(significant))
    }
}

/// A text, mended line by line.
fn mend_lines(alloc: Global, text: &[u8]) -> Result<MendedText, AllocError>
    ensures text { IfOk result (λ m. m.text.items ≡ mended_text text.now) }
    ensures mends { IfOk result (λ m. m.mends.items ≡ mended_places text.now) }
{
    let mut mended = MendedText {
        text: Vec::new(alloc),
        mends: Vec::new(alloc),
    };
    let mut start = 0;
    let mut number = 1;
    let mut before = 0;
    while start < text.len() {
        let end = start + line_length(&text[start..]);
        before = mended.mend_line(&text[start..end], end < text.len(), number, before)?;
        number += 1;
        start = text.len().min(end + 1);
    }
    Ok(mended)
}

/// Whether something in a text has to be mended.
fn has_mends(text: &[u8]) -> bool
    ensures { result ≡ has_mends text.now }
{
    let mut start = 0;
    let mut before = 0;
    while start < text.len() {
        let end = start + line_length(&text[start..]);
        let line = &text[start..end];
        if needs_mending(line, before) {
            return true;
        }
        before += usize::from(is_significant(line));
        start = text.len().min(end + 1);
    }
    false
}

/// Mends what costs only form in a text. A text in which there is nothing to mend is given back. Memory is refused only if
/// there is something.
pub fn mend(alloc: Global, text: Vec<u8>) -> Result<MendedText, AllocError>
    ensures { MendAnswer text.items result }
{
    if !has_mends(text.as_slice()) {
        return Ok(MendedText {
            text,
            mends: Vec::new(alloc),
        });
    }
    mend_lines(alloc, text.as_slice())
}

/// Whether a line was put in before this line of the mended text.
fn is_put_in_before(mended: MendedLine, line: u64) -> bool
    ensures { result ≡ is_put_in_before line mended }
{
    match mended.mend {
        Mend::Dummy => mended.line < line,
        Mend::Keyword | Mend::Comment | Mend::Remark => false,
    }
}

fn is_behind_put_in(mends: &[MendedLine], line: u64) -> bool
    ensures { result ≡ list_any (is_put_in_before line) mends.now }
{
    mends.iter().any(|mended| is_put_in_before(*mended, line))
}

/// The line of a text that became a line of the mended text.
pub fn line_in_file(mends: &[MendedLine], line: u64) -> u64
    ensures { result ≡ line_in_file mends.now line }
{
    if is_behind_put_in(mends, line) {
        line.saturating_sub(1)
    } else {
        line
    }
}
