//! `cats show`: a bid file in its one layout.

ghost use Rattle.std.specs.Prelude.{◌≡◌, [], codes, false};
ghost use Rattle.valuation.specs.SearchLimits.{plain_options};
ghost use Rattle.commands.specs.Examples.{asked, xor_ladder};
ghost use Rattle.commands.specs.Outcomes.{Prints};
ghost use Rattle.commands.specs.Meanings.{outcome_of};
ghost use Rattle.requests.specs.declared.task.Task.TheVariants.{Show};
ghost use Rattle.commands.specs.Commands.{Commands};
ghost use Rattle.commands.specs.Show.{show_outcome};

use crate::answer::{Answer, Output, done};
use crate::faults::RunFault;
use crate::input::Input;
use canon::CanonFault;
use requests::help::CommandHelp;
use std::alloc::Global;

/// What `--help` prints of it.
pub fn help<'a>() -> CommandHelp<'a> {
    CommandHelp {
        name: "show",
        about: "Prints a bid file in its one layout, with bids in order of number",
        arguments: &[],
        after: "\
Prints the three lines of the header and a line for each bid, without comments.
For example:
  $ cats show examples/two_bids.cats

If the file is not a bid file, its first fault is reported. 'cats fault' prints
the word that has it, and what helps.

Statuses: 0; 2 if the file is not a bid file, 4, 5 and 64 as 'cats --help'
lists them",
    }
}

/// A bid file in its one layout.
pub fn show<I: Input>(alloc: Global, input: &mut I) -> Result<Answer, RunFault>
    requires { I.is_ready input.old }
    ensures { Commands I.gives I.refuses show_outcome input.old input.new result }
{
    let file = input.read_file(alloc).map_err(CanonFault::from)?;
    Ok(done(Output::File(file)))
}

/// What `cats show` makes of a file.
pub fn layouts()
    ensures { outcome_of (asked Show (plain_options 1)) [] false xor_ladder
        ≡ Prints 0 (codes "goods 2\nbids 3\ndummy 1\n0\t5\t0\t2\t#\n1\t1.5\t1\t#\n2\t6\t0\t1\t2\t#\n") }
{}
