//! `cats check`: how many goods, bids and dummy goods a bid file has.

ghost use Rattle.std.specs.Prelude.{[], codes, false};
ghost use Rattle.valuation.specs.SearchLimits.{plain_options};
ghost use Rattle.commands.specs.Examples.{asked, xor_ladder};
ghost use Rattle.commands.specs.Outcomes.{Prints};
ghost use Rattle.commands.specs.Meanings.{outcome_of};
ghost use Rattle.requests.specs.declared.task.Task.TheVariants.{Check};
ghost use Rattle.std.specs.Prelude.{IfOk, ◌≡◌, string_bytes};
ghost use Rattle.commands.specs.Commands.{Commands};
ghost use Rattle.commands.specs.Check.{check_outcome};
ghost use Rattle.commands.specs.Check.{sizes_text};

use crate::answer::{Answer, Output, done};
use crate::faults::RunFault;
use crate::input::Input;
use canon::CanonFault;
use cats_text::packed::Header;
use requests::help::CommandHelp;
use std::alloc::{AllocError, Global};

/// What `--help` prints of it.
pub fn help<'a>() -> CommandHelp<'a> {
    CommandHelp {
        name: "check",
        about: "Prints how many goods, bids and dummy goods a bid file has",
        arguments: &[],
        after: "\
Prints one line. For example:
  $ cats check examples/two_bids.cats
  goods 3 bids 2 dummy 1

The path /dev/stdin is standard input:
  $ zcat auction.txt.gz | cats check /dev/stdin

If the file is not a bid file, its first fault is reported. 'cats fault' prints
the word that has it, and what helps.

Statuses: 0; 2 if the file is not a bid file, 4, 5 and 64 as 'cats --help'
lists them",
    }
}

/// The sizes of a bid file: how many goods, bids and dummy goods it has. No bid is kept.
pub fn check<I: Input>(alloc: Global, input: &mut I) -> Result<Answer, RunFault>
    requires { I.is_ready input.old }
    ensures { Commands I.gives I.refuses check_outcome input.old input.new result }
{
    let header = input.read_sizes(alloc).map_err(CanonFault::from)?;
    let line = sizes_line(alloc, header)?;
    Ok(done(Output::Text(line.into_bytes())))
}

/// How many goods, bids and dummy goods a file has.
fn sizes_line(alloc: Global, header: Header) -> Result<String, AllocError>
    ensures { IfOk result (λ text. string_bytes text ≡ sizes_text header.goods header.bids header.dummy) }
{
    let Header { goods, bids, dummy } = header;
    format!(in alloc; "goods {goods} bids {bids} dummy {dummy}\n")
}

/// What `cats check` makes of a file, and the line of some sizes.
pub fn sizes()
    ensures file { outcome_of (asked Check (plain_options 1)) [] false xor_ladder ≡ Prints 0 (codes "goods 2 bids 3 dummy 1\n") }
    ensures line { sizes_text 3 2 1 ≡ codes "goods 3 bids 2 dummy 1\n" }
{}
