//! `cats lp`: the winner determination problem of a bid file, in CPLEX's LP format.

ghost use Rattle.std.specs.Prelude.{◌≡◌, ◌++◌, [], codes, false};
ghost use Rattle.valuation.specs.SearchLimits.{plain_options};
ghost use Rattle.commands.specs.Examples.{asked, xor_ladder};
ghost use Rattle.commands.specs.Outcomes.{Prints};
ghost use Rattle.commands.specs.Meanings.{outcome_of};
ghost use Rattle.requests.specs.declared.task.Task.TheVariants.{Lp};
ghost use Rattle.commands.specs.Commands.{Commands};
ghost use Rattle.commands.specs.Lp.{lp_outcome};

use crate::answer::{Answer, Output, done};
use crate::faults::RunFault;
use crate::input::Input;
use analysis::winners::lp_text;
use canon::CanonFault;
use requests::help::CommandHelp;
use std::alloc::Global;

/// What `--help` prints of it.
pub fn help<'a>() -> CommandHelp<'a> {
    CommandHelp {
        name: "lp",
        about: "Prints a file's winner determination problem in the LP format",
        arguments: &[],
        after: "\
Prints the winner determination problem in CPLEX's LP format: glpsol and cbc
read it, and other programs that read the LP format. Bid N is the binary
variable xN, which is 1 if the bid wins, and the sum of the winners' prices is
maximised. A row gN for each good, and a row dN for each dummy good, as its
number among dummy goods, from 0, that two bids or more have says that one of
them at most wins. For example:
  $ cats lp auction.txt > auction.lp
  $ glpsol --lp auction.lp -o winners

The greatest sum is that of the canonical text too, which may have fewer bids:
  $ cats normalise --bound auction.txt | cats lp /dev/stdin

Statuses: 0; 2 if the file is not a bid file, 4, 5 and 64 as 'cats --help'
lists them",
    }
}

/// The winner determination problem of a bid file in CPLEX's LP format.
pub(crate) fn lp<I: Input>(alloc: Global, input: &mut I) -> Result<Answer, RunFault>
    requires { I.is_ready input.old }
    ensures { Commands I.gives I.refuses lp_outcome input.old input.new result }
{
    let file = input.read_file(alloc).map_err(CanonFault::from)?;
    Ok(done(Output::Text(lp_text(alloc, &file)?)))
}

/// What `cats lp` makes of two files, of which the second has no bids.
pub fn lp_texts()
    ensures shared { outcome_of (asked Lp (plain_options 1)) [] false xor_ladder
        ≡ Prints 0 (codes "\\ revenue in millionths\nMaximize\n revenue:\n"
        ++ codes " + 5000000 x0\n + 1500000 x1\n + 6000000 x2\nSubject To\n"
        ++ codes " g0:\n + x0\n + x2\n <= 1\n g1:\n + x1\n + x2\n <= 1\n d0:\n + x0\n + x2\n <= 1\n"
        ++ codes "Binary\n x0\n x1\n x2\nEnd\n") }
    ensures empty { outcome_of (asked Lp (plain_options 1)) [] false (record { goods = 2; dummy = 1; bids = [] })
        ≡ Prints 0 (codes "\\ revenue in millionths\nMaximize\n revenue:\n + 0 none\n"
        ++ codes "Subject To\n none:\n + none\n <= 1\nBinary\n none\nEnd\n") }
{}
