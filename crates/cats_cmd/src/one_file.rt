//! The runs of one file: each sends what its command answers.

ghost use Rattle.std.specs.Prelude.{◌≡◌, false};
ghost use Rattle.cats_text.specs.Streams.{has_failed};
ghost use Rattle.cats_cmd.specs.Runs.{RunsOnFile};
ghost use Rattle.commands.specs.Check.{check_outcome};
ghost use Rattle.commands.specs.Normalise.{normalise_outcome};
ghost use Rattle.commands.specs.Show.{show_outcome};
ghost use Rattle.commands.specs.Value.{value_outcome};
ghost use Rattle.valuation.specs.SearchLimits.{plain_options};

use crate::run::send_answer;
use canon::Which;
use cats_text::Watched;
use commands::Input;
use commands::check::check;
use commands::faults::RunFault;
use commands::normalise::normalise;
use commands::show::show;
use commands::value::value;
use std::alloc::Global;
use std::io::Write;
use valuation::search::SearchOptions;

/// Judges a bid file, and sends how many goods, bids and dummy goods it has. No bid is kept.
#[tactic(auto, using(crate::proofs::Sending::file_run))]
pub fn run_check<I: Input, W: Write>(
    alloc: Global,
    input: &mut I,
    out: &mut Watched<W>,
) -> Result<u8, RunFault>
    requires input { I.is_ready input.old }
    requires out_works { has_failed out.old ≡ false }
    ensures { RunsOnFile I.gives I.refuses W.contents check_outcome input.old input.new out.old out.new result }
{
    let answer = check(alloc, input);
    send_answer(alloc, out, answer, Which::Only)
}

/// Reads a bid file, and sends it in the layout that `cats_text::write` has, a page at a time.
#[tactic(auto, using(crate::proofs::Sending::file_run))]
pub fn run_show<I: Input, W: Write>(
    alloc: Global,
    input: &mut I,
    out: &mut Watched<W>,
) -> Result<u8, RunFault>
    requires input { I.is_ready input.old }
    requires out_works { has_failed out.old ≡ false }
    ensures { RunsOnFile I.gives I.refuses W.contents show_outcome input.old input.new out.old out.new result }
{
    let answer = show(alloc, input);
    send_answer(alloc, out, answer, Which::Only)
}

/// Reads a bid file, and sends what its bidders offer for the bundle of these goods: the OR value with the bids of one
/// best packing, and each XOR bidder's value with the bid that gives it. `limit` bounds the packings that the plain
/// search may enter.
///
/// The first of the goods that the file does not have is refused once the file was read.
pub fn run_value<I: Input, W: Write>(
    alloc: Global,
    input: &mut I,
    goods: &[u16],
    limit: u64,
    out: &mut Watched<W>,
) -> Result<u8, RunFault>
    requires input { I.is_ready input.old }
    requires out_works { has_failed out.old ≡ false }
    ensures { RunsOnFile I.gives I.refuses W.contents (value_outcome goods.now limit) input.old input.new out.old
        out.new result }
{
    let answer = value(alloc, input, goods, SearchOptions::plain(limit));
    send_answer(alloc, out, answer, Which::Only)
}

/// Reads a bid file, and sends the canonical text of its auction, a page at a time. `limit` bounds the steps of each
/// plain search that decides on a bundle of the OR bidder.
#[tactic(auto, using(crate::proofs::Sending::file_run))]
pub fn run_normalise<I: Input, W: Write>(
    alloc: Global,
    input: &mut I,
    limit: u64,
    out: &mut Watched<W>,
) -> Result<u8, RunFault>
    requires input { I.is_ready input.old }
    requires out_works { has_failed out.old ≡ false }
    ensures { RunsOnFile I.gives I.refuses W.contents (normalise_outcome (plain_options limit)) input.old input.new out.old
        out.new result }
{
    let answer = normalise(alloc, input, SearchOptions::plain(limit));
    send_answer(alloc, out, answer, Which::Only)
}
