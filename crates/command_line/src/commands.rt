//! The command line as `clap` takes it: what may come after the name of each command of `TASKS`.

ghost use Rattle.std.specs.Prelude.{◌≡◌, IfOk, false};
ghost use Rattle.clap.specs.Simple.{new_app};
ghost use Rattle.clap.specs.Words.{app_of, rule_of};
ghost use Rattle.command_line.specs.Commands.{cats, file, flag, folder, has_no_other_words, is_always_bounded};
ghost use Rattle.requests.specs.Tasks.{is_many};
ghost use Rattle.command_line.specs.Commands.{is_two, option, second_file, shape_of, steps, times, total_steps};
ghost use Rattle.command_line.specs.Commands.{usual_total_steps, words_from};
ghost use Rattle.command_line.specs.Internal.Matches.{has_globals, with_one};

use crate::help::{argument_text, find_help};
use clap::{Arg, ArgAction, Command, value_parser};
use requests::help::CommandHelp;
use requests::task::{Files, TASKS, TaskRow, name_of};
use std::alloc::{AllocError, Global};

/// The folder in which texts are written.
pub(crate) const DIR: &str = "DIR";
/// The one file, or the first of two, or many.
pub(crate) const FILE: &str = "FILE";
/// The second of two files.
pub(crate) const SECOND_FILE: &str = "SECOND_FILE";
/// More files than a command reads.
pub(crate) const MORE_FILES: &str = "MORE_FILES";
/// Words that name goods.
pub(crate) const GOOD: &str = "GOOD";
/// Words that are the numbers of bids.
pub(crate) const BID: &str = "BID";
/// The option for a limit of each search.
pub(crate) const STEPS: &str = "steps";
/// The option for a limit of all searches together.
pub(crate) const TOTAL_STEPS: &str = "total-steps";
/// The flag for the bounded search.
pub(crate) const BOUND: &str = "bound";
/// The same flag where the search is always the bounded one.
const ALWAYS_BOUND: &str = "always-bound";
/// The flag for reports of how many files were read.
pub(crate) const PROGRESS: &str = "progress";
/// The flag for NUL after each path of the output.
pub(crate) const NULL: &str = "null";
/// The option for a file that has the paths.
pub(crate) const FILES0_FROM: &str = "files0-from";
/// The option for a file that has the numbers of bids.
pub(crate) const BIDS: &str = "bids";
/// The flag for the files too that are the only ones of their auction.
pub(crate) const ALL: &str = "all";
/// The flag for a table in the place of groups.
pub(crate) const TABLE: &str = "table";
/// The flag of `cats round` that refuses a price which would be rounded.
pub(crate) const EXACT: &str = "exact";
/// The option of `cats round` that multiplies prices.
pub(crate) const TIMES: &str = "times";
/// The flag for prices as `cats round` prints them.
pub(crate) const ROUND: &str = "round";
/// The flag for prices as `cats round --exact` prints them.
pub(crate) const ROUND_EXACT: &str = "round-exact";

/// The most steps that a command line may allow a search.
const MAX_STEPS: i64 = 1_000_000_000;
/// The most steps that a command line may allow all searches together.
const MAX_TOTAL_STEPS: i64 = 1_000_000_000_000;
/// The greatest factor of prices that a command line may name.
const MAX_TIMES: i64 = 1_000_000_000_000;
/// The steps that a search may make if the command line names no limit.
const DEFAULT_STEPS: &str = "1000000";
/// The steps that all searches of a file may make together if the command line names no limit, of a command that always
/// uses the bounded search.
const DEFAULT_TOTAL_STEPS: &str = "50000000";

/// The command of the program. `--version` prints this version after the program's name, and `--help` these texts.
pub(crate) fn cats_command<'a>(
    alloc: Global,
    version: &'a str,
    help: &[CommandHelp<'a>],
) -> Result<Command<'a>, AllocError>
    ensures { IfOk result (λ command. app_of command ≡ cats) }
{
    let texts = find_help(help, "cats");
    let mut cats = Command::new(alloc, "cats")
        .about(texts.map_or("", |texts| texts.about))
        .version(version)
        .after_help(texts.map_or("", |texts| texts.after))
        .subcommand_required(true);
    for row in &TASKS {
        cats = cats.subcommand(task_command(alloc, row, help)?)?;
    }
    Ok(cats)
}

/// A command, with all that may come after its name, in the order of its help.
fn task_command<'a>(
    alloc: Global,
    row: &TaskRow,
    help: &[CommandHelp<'a>],
) -> Result<Command<'a>, AllocError>
    ensures shape { IfOk result (λ command. (app_of command).top ≡ shape_of row.now) }
    ensures local { IfOk result (λ command. has_globals command ≡ false) }
{
    let many = is_many(row.files);
    let bounded = is_always_bounded(row);
    let draft = Draft::new(alloc, name_of(row.task), help)
        .with(row.rounding, flag(alloc, ROUND))?
        .with(row.rounding, flag(alloc, ROUND_EXACT))?
        .with(row.exact, flag(alloc, EXACT))?
        .with(row.times, times(alloc))?
        .with(row.bound, flag(alloc, BOUND))?
        .with(bounded, flag(alloc, ALWAYS_BOUND).long(BOUND))?
        .with(row.limits, steps(alloc))?
        .with(row.bound, total_steps(alloc))?
        .with(bounded, usual_total_steps(alloc))?
        .with(many, flag(alloc, PROGRESS))?
        .with(row.null, flag(alloc, NULL).short('0'))?
        .with(row.all, flag(alloc, ALL))?
        .with(row.table, flag(alloc, TABLE))?
        .with(many, option(alloc, FILES0_FROM, "LIST"))?
        .with(row.bids, option(alloc, BIDS, "LIST"))?
        .with(row.folder, folder(alloc))?
        .with(many, words_from(alloc, 1, FILE))?
        .with(!many, file(alloc))?
        .with(is_two(row.files), second_file(alloc))?
        .with(row.goods, words_from(alloc, 0, GOOD))?
        .with(row.bids, words_from(alloc, 0, BID))?
        .with(
            has_no_other_words(row),
            words_from(alloc, 0, MORE_FILES).hide(true),
        )?;
    Ok(draft.command)
}

fn is_many(files: Files) -> bool
    ensures { result ≡ is_many files }
{
    matches!(files, Files::Many)
}

fn is_two(files: Files) -> bool
    ensures { result ≡ is_two files }
{
    matches!(files, Files::Two)
}

fn is_always_bounded(row: &TaskRow) -> bool
    ensures { result ≡ is_always_bounded row.now }
{
    row.limits && !row.bound
}

/// Whether the line ends with one file or two.
fn has_no_other_words(row: &TaskRow) -> bool
    ensures { result ≡ has_no_other_words row.now }
{
    !(is_many(row.files) || row.goods || row.bids)
}

/// A command that is being made, and the help of the program and its commands.
#[derive(Drop)]
struct Draft<'a, 'h> {
    command: Command<'a>,
    name: &'static str,
    help: &'h [CommandHelp<'a>],
}

impl<'a, 'h> Draft<'a, 'h> {
    fn new(alloc: Global, name: &'static str, help: &'h [CommandHelp<'a>]) -> Draft<'a, 'h>
        ensures shape { app_of result.command ≡ new_app name.now }
        ensures local { has_globals result.command ≡ false }
    {
        let texts = find_help(help, name);
        let command = Command::new(alloc, name)
            .about(texts.map_or("", |texts| texts.about))
            .after_help(texts.map_or("", |texts| texts.after));
        Draft {
            command,
            name,
            help,
        }
    }

    /// Adds an argument, if the command has it.
    fn with(self, has: bool, arg: Arg<'a>) -> Result<Draft<'a, 'h>, AllocError>
        requires local { (arg.global ≡ false) × (has_globals self.command ≡ false) }
        ensures shape { IfOk result (λ draft. app_of draft.command
            ≡ with_one (app_of self.entry.command) (rule_of arg.entry, has)) }
        ensures local { IfOk result (λ draft. has_globals draft.command ≡ false) }
    {
        if !has {
            return Ok(self);
        }
        let text = argument_text(self.help, self.name, arg.get_id());
        Ok(Draft {
            command: self.command.arg(arg.help(text))?,
            name: self.name,
            help: self.help,
        })
    }
}

fn folder<'a>(alloc: Global) -> Arg<'a>
    ensures rule { rule_of result ≡ folder }
    ensures local { result.global ≡ false }
{
    Arg::new(alloc, DIR).required(true)
}

fn file<'a>(alloc: Global) -> Arg<'a>
    ensures rule { rule_of result ≡ file }
    ensures local { result.global ≡ false }
{
    Arg::new(alloc, FILE).required(true)
}

fn second_file<'a>(alloc: Global) -> Arg<'a>
    ensures rule { rule_of result ≡ second_file }
    ensures local { result.global ≡ false }
{
    Arg::new(alloc, SECOND_FILE).required(true).value_name(FILE)
}

/// So many words, or more. `clap` takes any words as goods, bids and files too many, and the parser judges them.
fn words_from<'a>(alloc: Global, least: usize, name: &'a str) -> Arg<'a>
    ensures rule { rule_of result ≡ words_from least name.entry.now }
    ensures local { result.global ≡ false }
{
    Arg::new(alloc, name).num_args(least..)
}

fn option<'a>(alloc: Global, name: &'a str, value: &'a str) -> Arg<'a>
    ensures rule { rule_of result ≡ option name.entry.now }
    ensures local { result.global ≡ false }
{
    Arg::new(alloc, name).long(name).value_name(value)
}

fn steps<'a>(alloc: Global) -> Arg<'a>
    ensures rule { rule_of result ≡ steps }
    ensures local { result.global ≡ false }
{
    option(alloc, STEPS, "N")
        .default_value(DEFAULT_STEPS)
        .value_parser(value_parser!(u64).range(1..=MAX_STEPS))
}

fn total_steps<'a>(alloc: Global) -> Arg<'a>
    ensures rule { rule_of result ≡ total_steps }
    ensures local { result.global ≡ false }
{
    option(alloc, TOTAL_STEPS, "N").value_parser(value_parser!(u64).range(1..=MAX_TOTAL_STEPS))
}

fn usual_total_steps<'a>(alloc: Global) -> Arg<'a>
    ensures rule { rule_of result ≡ usual_total_steps }
    ensures local { result.global ≡ false }
{
    total_steps(alloc).default_value(DEFAULT_TOTAL_STEPS)
}

/// `clap` takes any number up to the greatest one, and the parser judges whether it is a power of ten.
fn times<'a>(alloc: Global) -> Arg<'a>
    ensures rule { rule_of result ≡ times }
    ensures local { result.global ≡ false }
{
    option(alloc, TIMES, "N").value_parser(value_parser!(u64).range(1..=MAX_TIMES))
}

fn flag<'a>(alloc: Global, name: &'a str) -> Arg<'a>
    ensures rule { rule_of result ≡ flag name.entry.now }
    ensures local { result.global ≡ false }
{
    Arg::new(alloc, name).long(name).action(ArgAction::SetTrue)
}
