//! One call for all commands: the program on texts in memory. Each of its outputs is put into a buffer, as far as it fits.

ghost use Rattle.std.specs.Prelude.{◌≡◌, false};
ghost use Rattle.cats_text.specs.Streams.{has_failed};
ghost use Rattle.cats_c.specs.Calls.{Answers, CallsProgram, Puts};

mod names;
mod request;
mod texts;

use cats_cmd::program::{answer_no_request, answer_request};
use cats_text::Watched;
use command_line::request::NoRequest;
use commands::statuses::{NO_MEMORY, WRONG_USAGE};
use names::names_of;
use request::request_of;
use std::alloc::{AllocError, Global};
use texts::Texts;

/// What a caller in C requests. What a command does not take has no effect on it.
#[repr(C)]
pub struct CallRequest<'a> {
    /// The goods of `value`.
    pub goods: &'a [u16],
    /// The bids of `revenue`, by their numbers.
    pub bids: &'a [u32],
    /// The most steps of one search.
    pub steps: u64,
    /// The most steps of all searches of a text together. 0 is no limit.
    pub total: u64,
    /// The number of the command: its place among the commands, counted from 0.
    pub task: u8,
    /// How prices are read; of `round`, what becomes of those that are finer than a millionth.
    pub prices: u8,
    /// Whether the search is the bounded one. It always is in commands that have no other.
    pub bound: bool,
    /// Whether `duplicates` prints the texts too that are the only ones of their auction.
    pub all: bool,
    /// Whether names end with NUL in what `duplicates` and `sizes` print.
    pub null: bool,
    /// Whether `duplicates` prints a table with a row for each text.
    pub table: bool,
}

/// A text of a caller in C.
#[repr(C)]
#[derive(Clone, Copy)]
pub struct CallText<'a> {
    pub bytes: &'a [u8],
    /// What stands where the program prints a path. If it is empty, that is the number of the text, counted from 1.
    pub name: &'a [u8],
}

/// Runs the program with this request on these texts.
///
/// The status is the program's. It is 64, and nothing is printed, if there is no command of this number, if the command
/// takes another number of texts, if all searches together are limited but not bounded, or if a name is not UTF-8. It is 4,
/// and nothing is printed, if memory is refused for what would be. C fixes the parameters.
#[unsafe(no_mangle)]
pub extern "C" fn cats_call(
    alloc: Global,
    request: &CallRequest<'_>,
    texts: &[CallText<'_>],
    out: &mut [u8],
    needed: &mut usize,
    err: &mut [u8],
    err_needed: &mut usize,
) -> u8
    ensures { CallsProgram request.now texts.now out.old out.new needed.new err.old err.new err_needed.new result }
{
    let mut printed = Watched::new(Vec::new(alloc));
    let mut reported = Watched::new(Vec::new(alloc));
    let status = answer(alloc, request, texts, &mut printed, &mut reported);
    if printed.failed() || reported.failed() {
        *needed = 0;
        *err_needed = 0;
        return NO_MEMORY;
    }
    *needed = put_front(printed.into_inner().as_slice(), out);
    *err_needed = put_front(reported.into_inner().as_slice(), err);
    status
}

/// Puts a text at the front of a buffer, as far as it fits, and answers its length.
fn put_front(text: &[u8], buffer: &mut [u8]) -> usize
    ensures { Puts text.now buffer.old buffer.new result }
{
    let count = text.len().min(buffer.len());
    buffer[..count].copy_from_slice(&text[..count]);
    text.len()
}

/// Does what a call requests.
fn answer(
    alloc: Global,
    request: &CallRequest<'_>,
    texts: &[CallText<'_>],
    out: &mut Watched<Vec<u8>>,
    err: &mut Watched<Vec<u8>>,
) -> u8
    requires out_works { has_failed out.old ≡ false }
    requires err_works { has_failed err.old ≡ false }
    ensures { Answers request.now texts.now out.old out.new err.old err.new result }
{
    let names = match names_of(alloc, texts) {
        Ok(Some(names)) => names,
        Ok(None) => return WRONG_USAGE,
        Err(AllocError) => return answer_no_request(&NoRequest::NoMemory, out, err),
    };
    match request_of(alloc, request, names.as_slice()) {
        Ok(Some(request)) => {
            answer_request(&mut Texts::new(alloc, texts), &request, out, err, false)
        }
        Ok(None) => WRONG_USAGE,
        Err(AllocError) => answer_no_request(&NoRequest::NoMemory, out, err),
    }
}
