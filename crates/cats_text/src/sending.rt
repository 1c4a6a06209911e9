//! Sending a text, whole or in pieces.

ghost use Rattle.std.specs.Prelude.{
  ◌≡◌,
  ◌+◌,
  ◌-◌,
  ◌^◌,
  ◌<◌,
  ◌≤◌,
  length,
  take,
  drop,
  false,
  vec_capacity,
  is_err,
  IfErr,
  IfOk,
  OnErr,
  OnOk,
};
ghost use Rattle.std.specs.Io.KnownBytes.{Keeps};
ghost use Rattle.bid_file.specs.Files.{IsPlainFile};
ghost use Rattle.cats_text.specs.Layout.{headers_text, layout};
ghost use Rattle.cats_text.specs.declared.sending.TheConstants.{PAGE};
ghost use Rattle.cats_text.specs.Streams.{inner_of, has_failed, has_ended, Sends, SendsPart, SendsWhole};

use crate::layout::{LONGEST_LINE, push_header, write_bid};
use crate::read_fault::SendFault;
use crate::stream::Watched;
use bid_file::Bids;
use std::alloc::{AllocError, Global};
use std::io::Write;

/// Sends the whole text and then flushes once. Where the writer fails, what was sent is the beginning of the text that
/// the fault counts.
pub fn send<W: Write>(out: &mut Watched<W>, text: &[u8]) -> Result<(), SendFault>
    requires { has_failed out.old ≡ false }
    ensures whole { OnOk result (SendsWhole W.contents out.old out.new text.now) }
    ensures part { IfErr result (λ fault. SendsPart W.contents out.old out.new text.now fault.written) }
    ensures ended { has_ended out.new ≡ has_ended out.old }
{
    send_piece(out, text, 0)?;
    flush(out, text.len() as u64)
}

/// Sends the text that `write` has of a file, as `send` does, in pieces: one page of memory holds what is not yet sent.
/// Where this page is refused, nothing is written.
pub fn send_file<W: Write, B: Bids>(
    alloc: Global,
    out: &mut Watched<W>,
    file: &B,
) -> Result<Result<(), SendFault>, AllocError>
    requires { has_failed out.old ≡ false }
    ensures sends { IfOk result (λ sent. Sends W.contents out.old out.new (layout (B.file file.now)) sent) }
    ensures silent { OnErr result (out.new ≡ out.old) }
    ensures ended { has_ended out.new ≡ has_ended out.old }
{
    let mut page = Vec::with_capacity(alloc, PAGE)?;
    push_header(&mut page, file.goods(), file.len(), file.dummy() as usize)?;
    Ok(send_bids(out, page, file))
}

/// So many bytes of a text are held at most.
const PAGE: usize = 65_536;

/// Sends the bids of a file behind its header, of which the page has the text.
fn send_bids<W: Write, B: Bids>(
    out: &mut Watched<W>,
    mut page: Vec<u8>,
    file: &B,
) -> Result<(), SendFault>
    requires works { has_failed out.old ≡ false }
    requires file { IsPlainFile (B.file file.now) }
    requires header { let f = B.file file.now in page.items ≡ headers_text f.goods (length f.bids) f.dummy }
    requires space { PAGE ≤ vec_capacity page }
    ensures sends { Sends W.contents out.old out.new (layout (B.file file.now)) result }
    ensures ended { has_ended out.new ≡ has_ended out.old }
{
    let mut line = [0; LONGEST_LINE];
    let mut written = 0;
    for number in 0..file.len() {
        let start = write_bid(file, number, &mut line);
        let text = &line[start..];
        written = flush_unless_fits(out, &mut page, text.len(), written)?;
        let Ok(()) = page.extend_from_slice(text) else {
            unreachable!()
        };
    }
    send_piece(out, page.as_slice(), written)?;
    flush(out, written + page.len() as u64)
}

/// Sends and empties a page that has no space for so many bytes more, of a text of which so many bytes were sent before, and
/// returns how many have been sent.
fn flush_unless_fits<W: Write>(
    out: &mut Watched<W>,
    page: &mut Vec<u8>,
    more: usize,
    before: u64,
) -> Result<u64, SendFault>
    requires works { has_failed out.old ≡ false }
    requires counted { before + length page.old.items < 2 ^ 64 }
    requires fits { more ≤ PAGE }
    ensures count { IfOk result (λ count. before ≤ count × count ≤ before + length page.old.items) }
    ensures sent { IfOk result (λ count. SendsWhole W.contents out.old out.new (take (count - before) page.old.items)) }
    ensures left { IfOk result (λ count. page.new.items ≡ drop (count - before) page.old.items) }
    ensures space { OnOk result (length page.new.items + more ≤ PAGE) }
    ensures capacity { vec_capacity page.new ≡ vec_capacity page.old }
    ensures counts { IfErr result (λ fault. before ≤ fault.written) }
    ensures part { IfErr result (λ fault.
        SendsPart W.contents out.old out.new page.old.items (fault.written - before)) }
    ensures ended { has_ended out.new ≡ has_ended out.old }
{
    if page.len() <= PAGE - more {
        return Ok(before);
    }
    send_piece(out, page.as_slice(), before)?;
    let written = before + page.len() as u64;
    page.clear();
    Ok(written)
}

/// Sends a piece of a text, of which so many bytes were sent before.
fn send_piece<W: Write>(out: &mut Watched<W>, piece: &[u8], before: u64) -> Result<(), SendFault>
    requires works { has_failed out.old ≡ false }
    requires counted { before + length piece.now < 2 ^ 64 }
    ensures whole { OnOk result (SendsWhole W.contents out.old out.new piece.now) }
    ensures counts { IfErr result (λ fault. before ≤ fault.written) }
    ensures part { IfErr result (λ fault. SendsPart W.contents out.old out.new piece.now (fault.written - before)) }
    ensures ended { has_ended out.new ≡ has_ended out.old }
{
    let mut written = 0;
    while written < piece.len() {
        match out.write(&piece[written..]) {
            Ok(count) if count > 0 => written += count,
            _ => return Err(sent(before + written as u64)),
        }
    }
    Ok(())
}

/// Flushes behind a text of so many bytes.
fn flush<W: Write>(out: &mut Watched<W>, written: u64) -> Result<(), SendFault>
    requires { has_failed out.old ≡ false }
    ensures bytes { Keeps (W.contents (inner_of out.old)) (W.contents (inner_of out.new)) }
    ensures failed { has_failed out.new ≡ is_err result }
    ensures written { IfErr result (λ fault. fault.written ≡ written) }
    ensures ended { has_ended out.new ≡ has_ended out.old }
{
    match out.flush() {
        Ok(()) => Ok(()),
        Err(_) => Err(sent(written)),
    }
}

fn sent(written: u64) -> SendFault
    ensures { result.written ≡ written }
{
    SendFault { written }
}
