//! The run of two files: it sends what its command answers.

ghost use Rattle.std.specs.Prelude.{◌≡◌, false};
ghost use Rattle.cats_text.specs.Streams.{has_failed};
ghost use Rattle.cats_cmd.specs.Runs.{Compares};
ghost use Rattle.valuation.specs.SearchLimits.{plain_options};

use crate::run::send_answer;
use canon::Which;
use cats_text::Watched;
use commands::Input;
use commands::compare::compare;
use commands::faults::RunFault;
use std::alloc::Global;
use std::io::Write;
use valuation::search::SearchOptions;

/// Reads and normalises the first file, and then the second, and sends whether they are the same auction, or their
/// first difference. `limit` bounds the steps of each plain search that decides on a bundle of an OR bidder.
///
/// The status is 0 for the same auction, and 1 for a difference. A fault of a file says which of the two it belongs
/// to; a refusal of memory while the two are compared belongs to both.
#[tactic(auto, using(crate::proofs::Sending::pair_run))]
pub fn run_compare<I: Input, J: Input, W: Write>(
    alloc: Global,
    first: &mut I,
    second: &mut J,
    limit: u64,
    out: &mut Watched<W>,
) -> Result<u8, RunFault>
    requires first { I.is_ready first.old }
    requires second { J.is_ready second.old }
    requires out_works { has_failed out.old ≡ false }
    ensures { Compares I.gives I.refuses J.gives J.refuses W.contents (plain_options limit) first.old first.new second.old
        second.new out.old out.new result }
{
    let answer = compare(alloc, first, second, SearchOptions::plain(limit));
    send_answer(alloc, out, answer, Which::Both)
}
