//! The commands on one bid file or two, by the request for them.

ghost use Rattle.commands.specs.Commands.{CommandsIfMet};
ghost use Rattle.commands.specs.Meanings.{outcome_of};
ghost use Rattle.commands.specs.Pairs.{CommandsOnBoth};
ghost use Rattle.requests.specs.Requests.{plain_request};

use crate::answer::Answer;
use crate::faults::RunFault;
use crate::input::Input;
use crate::{
    check, compare, diff, duplicates, explain, fault, lp, normalise, publish, revenue, round, show,
    sizes, value,
};
use requests::help::CommandHelp;
use requests::request::Request;
use requests::task::Task;
use std::alloc::Global;

/// What `--help` prints of a command.
pub fn help_of<'a>(task: Task) -> CommandHelp<'a> {
    match task {
        Task::Check => check::help(),
        Task::Fault => fault::help(),
        Task::Show => show::help(),
        Task::Value => value::help(),
        Task::Revenue => revenue::help(),
        Task::Normalise => normalise::help(),
        Task::Explain => explain::help(),
        Task::Round => round::help(),
        Task::Lp => lp::help(),
        Task::Compare => compare::help(),
        Task::Diff => diff::help(),
        Task::Duplicates => duplicates::help(),
        Task::Sizes => sizes::help(),
        Task::Publish => publish::help(),
    }
}

/// What the command of a request on one bid file makes of the file that an input gives. `bids` are those that the request
/// names, or that its list has.
pub fn answer_on_file<I: Input>(
    alloc: Global,
    request: &Request<'_>,
    bids: &[u32],
    input: &mut I,
) -> Result<Answer, RunFault>
    requires { I.is_ready input.old }
    ensures { CommandsIfMet I.gives I.refuses (outcome_of (plain_request request.now) bids.now) input.old input.new result }
{
    match request.task {
        Task::Check => check::check(alloc, input),
        Task::Show => show::show(alloc, input),
        Task::Value => value::value(alloc, input, request.goods.as_slice(), request.options),
        Task::Revenue => revenue::revenue(alloc, input, bids),
        Task::Normalise => normalise::normalise(alloc, input, request.options),
        Task::Explain => explain::explain(
            alloc,
            input,
            request.options.each,
            request.options.total,
        ),
        Task::Lp
        | Task::Fault
        | Task::Round
        | Task::Compare
        | Task::Diff
        | Task::Duplicates
        | Task::Sizes
        | Task::Publish => lp::lp(alloc, input),
    }
}

/// What the command of a request on two bid files makes of the files that two inputs give. The second is not read if the
/// first is refused. Each file has a total of steps of its own.
pub fn answer_on_pair<I: Input, J: Input>(
    alloc: Global,
    request: &Request<'_>,
    first: &mut I,
    second: &mut J,
) -> Result<Answer, RunFault>
    requires first { I.is_ready first.old }
    requires second { J.is_ready second.old }
    ensures { CommandsOnBoth I.gives I.refuses J.gives J.refuses (plain_request request.now) first.old first.new second.old
        second.new result }
{
    match request.task {
        Task::Compare => compare::compare(alloc, first, second, request.options),
        _ => diff::diff(alloc, first, second, request.options),
    }
}
