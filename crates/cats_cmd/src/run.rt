//! What the runs share. They send a text, or what a command answers.

ghost use Rattle.std.specs.Prelude.{◌≡◌, false};
ghost use Rattle.cats_text.specs.Streams.{has_failed};
ghost use Rattle.cats_cmd.specs.Reports.{answer_if_lost, is_lost, status_if_lost};
ghost use Rattle.cats_cmd.specs.Runs.{SendsAnswer, SendsAs};

use canon::{CanonFault, Which};
use cats_text::packed::send_file;
use cats_text::{Watched, send};
use commands::answer::{Answer, Output};
use commands::faults::RunFault;
use commands::statuses::DEVICE_FAILED;
use std::alloc::{AllocError, Global};
use std::io::Write;

/// Sends a run's whole text, and then answers its status.
pub(crate) fn send_text<W: Write>(
    out: &mut Watched<W>,
    status: u8,
    text: &[u8],
) -> Result<u8, RunFault>
    requires { has_failed out.old ≡ false }
    ensures { SendsAs W.contents status text.now out.old out.new result }
{
    match send(out, text) {
        Ok(()) => Ok(status),
        Err(fault) => Err(RunFault::Sent(fault)),
    }
}

/// Sends what a command answered: a text whole, or the text of a file a page at a time. Memory that is refused for a page
/// belongs to `whose`.
pub(crate) fn send_answer<W: Write>(
    alloc: Global,
    out: &mut Watched<W>,
    answer: Result<Answer, RunFault>,
    whose: Which,
) -> Result<u8, RunFault>
    requires { has_failed out.old ≡ false }
    ensures { SendsAnswer W.contents whose answer out.old out.new result }
{
    let answer = answer?;
    let file = match &answer.output {
        Output::Text(text) => return send_text(out, answer.status, text.as_slice()),
        Output::File(file) => file,
    };
    match send_file(alloc, out, file) {
        Ok(Ok(())) => Ok(answer.status),
        Ok(Err(fault)) => Err(RunFault::Sent(fault)),
        Err(AllocError) => Err(RunFault::Refused(whose, CanonFault::Memory)),
    }
}

/// Whether it is lost that so many prices were changed, as standard error failed.
pub(crate) fn is_lost<E>(changed: usize, err: &Watched<E>) -> bool
    ensures { result ≡ is_lost changed err.now }
{
    changed > 0 && err.failed()
}

/// What a run answers. If its report is lost, the status is that of a device that failed.
pub(crate) fn answer_if_lost(lost: bool, answer: Result<u8, RunFault>) -> Result<u8, RunFault>
    ensures { result ≡ answer_if_lost lost answer }
{
    match answer {
        Ok(status) => Ok(status_if_lost(lost, status)),
        Err(fault) => Err(fault),
    }
}

/// The status of a run that comes to this one.
pub(crate) fn status_if_lost(lost: bool, status: u8) -> u8
    ensures { result ≡ status_if_lost lost status }
{
    if lost { DEVICE_FAILED } else { status }
}
