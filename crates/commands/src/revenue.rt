//! `cats revenue`: what bids bring as winners.

ghost use Rattle.std.specs.Prelude.{◌≡◌, [], ◌∷◌, codes};
ghost use Rattle.commands.specs.Examples.{larger_bid, xor_ladder};
ghost use Rattle.commands.specs.Outcomes.{LacksBid, Prints};
ghost use Rattle.commands.specs.Commands.{Commands};
ghost use Rattle.commands.specs.Revenue.{revenue_outcome};

use crate::answer::{Answer, Output};
use crate::faults::RunFault;
use crate::input::Input;
use analysis::winners::{allocation_status, allocation_text, judge_allocation};
use canon::CanonFault;
use requests::help::CommandHelp;
use std::alloc::Global;

/// What `--help` prints of it.
pub fn help<'a>() -> CommandHelp<'a> {
    CommandHelp {
        name: "revenue",
        about: "Prints the sum of bids' prices, or which two bids cannot both win",
        arguments: &[],
        after: "\
Prints 'revenue' and the sum of the bids' prices, if no two of them share a
good or a dummy good. Else it prints the first two that do, and what they
share. For example:
  $ cats revenue examples/ladder.cats 0 1
  revenue 7

A bid that is named twice counts once. With --bids the numbers are in a file,
with spaces or ends of lines between them:
  $ cats revenue --bids winners.txt auction.txt

Statuses: 0 if the bids can win together, 1 if not; 2 if the file is not a bid
file; 64 for a bid that the file does not have; 4 and 5 as 'cats --help' lists
them",
    }
}

/// The revenue of the bids of these numbers if they can all win together, and else the first two that cannot. A number that
/// the file does not have is refused once the file was read.
pub(crate) fn revenue<I: Input>(
    alloc: Global,
    input: &mut I,
    bids: &[u32],
) -> Result<Answer, RunFault>
    requires { I.is_ready input.old }
    ensures { Commands I.gives I.refuses (revenue_outcome bids.now) input.old input.new result }
{
    let file = input.read_file(alloc).map_err(CanonFault::from)?;
    let verdict = judge_allocation(alloc, &file, bids)?.map_err(RunFault::BidRange)?;
    let text = allocation_text(alloc, &verdict)?;
    Ok(Answer {
        status: allocation_status(&verdict),
        output: Output::Text(text),
    })
}

/// What `cats revenue` makes of a file: of bids that can all win, of which one is named twice, of two that cannot, and of
/// bids that it does not have.
pub fn revenues()
    ensures sum { revenue_outcome (1 ∷ 0 ∷ 1 ∷ []) larger_bid ≡ Prints 0 (codes "revenue 7\n") }
    ensures clash { revenue_outcome (2 ∷ 0 ∷ []) larger_bid ≡ Prints 1 (codes "bids 0 and 2 share good 0\n") }
    ensures missing { revenue_outcome (2 ∷ 4 ∷ 0 ∷ 3 ∷ []) larger_bid ≡ LacksBid 4 }
    ensures both { revenue_outcome (1 ∷ 0 ∷ []) xor_ladder ≡ Prints 0 (codes "revenue 6.5\n") }
{}
