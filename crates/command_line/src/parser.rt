//! From the words of a command line to a request.

ghost use Rattle.std.specs.Prelude.{◌≡◌, [], IfErr, IfOk, List, Some, is_none, option_map, unwrap_or};
ghost use Rattle.std.specs.List.{list_any};
ghost use Rattle.std.specs.Option.{option_map_or};
ghost use Rattle.clap.specs.Faults.{fault_of};
ghost use Rattle.clap.specs.Words.{HasKind, first_of, kind_of};
ghost use Rattle.command_line.specs.Commands.{bids_in, cats, files_in, fine_in, goods_in, has_signed_number};
ghost use Rattle.command_line.specs.Commands.{is_bounded, is_given, is_set, is_signed, list_in, names_prices, number_in};
ghost use Rattle.command_line.specs.Commands.{options_in, prices_in, tens_in, texts_in};
ghost use Rattle.command_line.specs.Internal.Matches.{IsAnswerTo, plain_requested, rows_in};
ghost use Rattle.command_line.specs.Numbers.{begins_with_sign, tens_of};
ghost use Rattle.command_line.specs.Requests.{IsNoRequestOf, misuse_in, misuse_of_files, request_in, request_of};
ghost use Rattle.command_line.specs.Requests.{requested_in, requested_of, task_named};
ghost use Rattle.requests.specs.Requests.{plain_request, texts_of};

use crate::commands::{
    ALL, BID, BIDS, BOUND, DIR, EXACT, FILE, FILES0_FROM, GOOD, MORE_FILES, NULL, PROGRESS, ROUND,
    ROUND_EXACT, SECOND_FILE, STEPS, TABLE, TIMES, TOTAL_STEPS, cats_command,
};
use crate::number_lists::numbers_of_words;
use crate::request::{Misuse, NoRequest};
use clap::error::ErrorKind;
use clap::{ArgMatches, Error};
use requests::help::CommandHelp;
use requests::request::Request;
use requests::task::{TASKS, Task, name_of};
use rounding::replacement::{FinePrices, PriceRule};
use std::alloc::{AllocError, Global};
use valuation::search::SearchOptions;

/// The greatest number of a good. A file has 4,096 at most, which are counted from 0.
const MAX_GOOD: u16 = 4_095;
/// The greatest number of a bid. A file has 65,536 at most.
const MAX_BID: u16 = 65_535;

/// Reads a command line, whose first word is the program's name. `--version` prints `version` after that name, and
/// `--help` the texts of `help`.
#[tactic(auto, using(crate::proofs::Answering::answered))]
pub fn parse<'a>(
    alloc: Global,
    version: &'a str,
    help: &[CommandHelp<'a>],
    words: &'a [&'a str],
) -> Result<Request<'a>, NoRequest>
    ensures request { IfOk result (λ request. request_of (texts_of words.now) ≡ Some (plain_request request)) }
    ensures no_request { IfErr result (IsNoRequestOf (texts_of words.now)) }
{
    match find_request(alloc, version, help, words) {
        Ok(Ok(request)) => Ok(request),
        Ok(Err(misuse)) => Err(NoRequest::Misused(misuse)),
        Err(error) => Err(no_request(alloc, &error)),
    }
}

/// What `clap` reports if it gives no matches.
fn no_request(alloc: Global, error: &Error) -> NoRequest
    ensures { IsAnswerTo (kind_of error.now) result }
{
    let text = error.to_string(alloc);
    if !error.use_stderr() {
        return match text {
            Ok(text) => NoRequest::Help(text),
            Err(AllocError) => NoRequest::NoMemory,
        };
    }
    if error.kind() == ErrorKind::OutOfMemory {
        NoRequest::NoMemory
    } else {
        NoRequest::WrongUsage(text.unwrap_or(String::new(alloc)))
    }
}

/// What a line requests that `clap` takes, or why it is wrong still.
fn find_request<'a>(
    alloc: Global,
    version: &'a str,
    help: &[CommandHelp<'a>],
    words: &'a [&'a str],
) -> Result<Result<Request<'a>, Misuse>, Error>
    ensures taken { IfOk result (λ found. fault_of cats (texts_of words.now) ≡ List.[]) }
    ensures found { IfOk result (λ found. plain_requested found ≡ requested_of (texts_of words.now)) }
    ensures refused { IfErr result (HasKind (fault_of cats (texts_of words.now))) }
{
    let matches = cats_command(alloc, version, help)?.try_get_matches_from(words)?;
    match matches.subcommand() {
        Some((name, given)) => Ok(judge(alloc, name, given)?),
        None => Ok(Err(Misuse::NoFiles)),
    }
}

/// What the command of a name requests by its matches, or why the line is wrong.
fn judge<'a>(
    alloc: Global,
    name: &str,
    given: &ArgMatches<'a>,
) -> Result<Result<Request<'a>, Misuse>, AllocError>
    ensures { IfOk result (λ found. plain_requested found ≡ requested_in name.now (rows_in given.now)) }
{
    let goods = find_goods(alloc, given)?;
    let bids = find_bids(alloc, given)?;
    if let Some(misuse) = find_misuse(given, goods.is_none(), bids.is_none()) {
        return Ok(Err(misuse));
    }
    let goods = goods.unwrap_or(Vec::new(alloc));
    let bids = bids.unwrap_or(Vec::new(alloc));
    match find_task(name) {
        Some(task) => Ok(Ok(request(alloc, task, goods, bids, given)?)),
        None => Ok(Err(Misuse::NoFiles)),
    }
}

/// The command of a name.
fn find_task(name: &str) -> Option<Task>
    ensures { result ≡ task_named name.now }
{
    let row = TASKS.iter().find(|row| name_of(row.task) == name)?;
    Some(row.task)
}

/// What is wrong with a line that `clap` takes, if something is.
fn find_misuse(
    given: &ArgMatches<'_>,
    has_wrong_goods: bool,
    has_wrong_bids: bool,
) -> Option<Misuse>
    requires goods { has_wrong_goods ≡ is_none (goods_in (rows_in given.now)) }
    requires bids { has_wrong_bids ≡ is_none (bids_in (rows_in given.now)) }
    ensures { result ≡ misuse_in (rows_in given.now) }
{
    if has_signed_number(given) {
        Some(Misuse::SignedNumber)
    } else if is_given(given, MORE_FILES) {
        Some(if is_given(given, SECOND_FILE) {
            Misuse::MoreThanTwoFiles
        } else {
            Misuse::MoreThanOneFile
        })
    } else if is_given(given, BIDS) && is_given(given, BID) {
        Some(Misuse::BidsTwice)
    } else if is_given(given, TOTAL_STEPS) && !is_bounded(given) {
        Some(Misuse::UnboundedTotal)
    } else if find_tens(given).is_none() {
        Some(Misuse::WrongTimes)
    } else if has_wrong_goods {
        Some(Misuse::WrongGoods)
    } else if has_wrong_bids {
        Some(Misuse::WrongBids)
    } else {
        misuse_of_files(is_given(given, FILE), is_given(given, FILES0_FROM))
    }
}

/// Many files are words or a list, and not both.
fn misuse_of_files(words: bool, list: bool) -> Option<Misuse>
    ensures { result ≡ misuse_of_files words list }
{
    match (words, list) {
        (true, true) => Some(Misuse::FilesTwice),
        (false, false) => Some(Misuse::NoFiles),
        _ => None,
    }
}

/// What a command requests by its matches, which are not wrong, and the goods and the bids that they name.
fn request<'a>(
    alloc: Global,
    task: Task,
    goods: Vec<u16>,
    bids: Vec<u32>,
    given: &ArgMatches<'a>,
) -> Result<Request<'a>, AllocError>
    requires goods { goods.items ≡ unwrap_or (goods_in (rows_in given.now)) [] }
    requires bids { bids.items ≡ unwrap_or (bids_in (rows_in given.now)) [] }
    ensures { IfOk result (λ request. plain_request request ≡ request_in task (rows_in given.now)) }
{
    Ok(Request {
        task,
        files: find_files(alloc, given)?,
        list: find_list(given),
        goods,
        bids,
        prices: find_prices(given),
        options: find_options(given),
        progress: is_set(given, PROGRESS),
        null: is_set(given, NULL),
        all: is_set(given, ALL),
        table: is_set(given, TABLE),
        folder: find_text(given, DIR),
    })
}

fn find_files<'a>(alloc: Global, given: &ArgMatches<'a>) -> Result<Vec<&'a str>, AllocError>
    ensures { IfOk result (λ files. texts_of files.items ≡ files_in (rows_in given.now)) }
{
    let mut files = Vec::from_slice(alloc, find_texts(given, FILE))?;
    files.extend_from_slice(find_texts(given, SECOND_FILE))?;
    Ok(files)
}

/// The list of files, or of bids.
fn find_list<'a>(given: &ArgMatches<'a>) -> Option<&'a str>
    ensures { option_map (λ list. list.now) result ≡ list_in (rows_in given.now) }
{
    find_text(given, FILES0_FROM).or(find_text(given, BIDS))
}

fn find_goods(alloc: Global, given: &ArgMatches<'_>) -> Result<Option<Vec<u16>>, AllocError>
    ensures { IfOk result (λ goods. option_map (λ found. found.items) goods ≡ goods_in (rows_in given.now)) }
{
    numbers_of_words(alloc, find_texts(given, GOOD), MAX_GOOD)
}

fn find_bids(alloc: Global, given: &ArgMatches<'_>) -> Result<Option<Vec<u32>>, AllocError>
    ensures { IfOk result (λ bids. option_map (λ found. found.items) bids ≡ bids_in (rows_in given.now)) }
{
    let Some(numbers) = numbers_of_words(alloc, find_texts(given, BID), MAX_BID)? else {
        return Ok(None);
    };
    let mut bids = Vec::new(alloc);
    for number in numbers.as_slice() {
        bids.push(u32::from(*number))?;
    }
    Ok(Some(bids))
}

/// What becomes of each price.
fn find_prices(given: &ArgMatches<'_>) -> Option<PriceRule>
    ensures { result ≡ prices_in (rows_in given.now) }
{
    if names_prices(given) {
        Some(PriceRule {
            fine: find_fine(given),
            tens: find_tens(given).unwrap_or(0),
        })
    } else {
        None
    }
}

/// Whether something is said of prices.
fn names_prices(given: &ArgMatches<'_>) -> bool
    ensures { result ≡ names_prices (rows_in given.now) }
{
    is_set(given, ROUND_EXACT)
        || is_set(given, EXACT)
        || is_set(given, ROUND)
        || is_given(given, TIMES)
}

/// What becomes of fine prices.
fn find_fine(given: &ArgMatches<'_>) -> FinePrices
    ensures { result ≡ fine_in (rows_in given.now) }
{
    if is_set(given, ROUND_EXACT) || is_set(given, EXACT) {
        FinePrices::Refuse
    } else {
        FinePrices::Round
    }
}

/// By which power of ten prices are multiplied, if the number is one.
fn find_tens(given: &ArgMatches<'_>) -> Option<u8>
    ensures { result ≡ tens_in (rows_in given.now) }
{
    tens_of(find_number(given, TIMES).unwrap_or(1))
}

/// Which power of ten a number is.
fn tens_of(number: u64) -> Option<u8>
    ensures { result ≡ tens_of number }
{
    match number {
        1 => Some(0),
        10 => Some(1),
        100 => Some(2),
        1_000 => Some(3),
        10_000 => Some(4),
        100_000 => Some(5),
        1_000_000 => Some(6),
        10_000_000 => Some(7),
        100_000_000 => Some(8),
        1_000_000_000 => Some(9),
        10_000_000_000 => Some(10),
        100_000_000_000 => Some(11),
        1_000_000_000_000 => Some(12),
        _ => None,
    }
}

/// How to search.
fn find_options(given: &ArgMatches<'_>) -> SearchOptions
    ensures { result ≡ options_in (rows_in given.now) }
{
    let steps = find_number(given, STEPS).unwrap_or(0);
    if is_bounded(given) {
        SearchOptions::bounded(steps, find_number(given, TOTAL_STEPS))
    } else {
        SearchOptions::plain(steps)
    }
}

/// Whether the search is the bounded one, as it is where no flag chooses it.
fn is_bounded(given: &ArgMatches<'_>) -> bool
    ensures { result ≡ is_bounded (rows_in given.now) }
{
    match find_text(given, BOUND) {
        Some(text) => text == "true",
        None => true,
    }
}

/// The number of an option.
#[tactic(auto, using(crate::proofs::Reading::limit_read))]
fn find_number(given: &ArgMatches<'_>, id: &str) -> Option<u64>
    ensures { result ≡ number_in id.now (rows_in given.now) }
{
    find_text(given, id)?.parse::<u64>().ok()
}

/// Whether a number of the line begins with a sign. `clap` takes `+5`, and `-0`.
fn has_signed_number(given: &ArgMatches<'_>) -> bool
    ensures { result ≡ has_signed_number (rows_in given.now) }
{
    is_signed(given, STEPS)
        || is_signed(given, TOTAL_STEPS)
        || is_signed(given, TIMES)
        || is_signed(given, GOOD)
        || is_signed(given, BID)
}

#[tactic(auto, using(crate::proofs::Reading::any_of_texts))]
fn is_signed(given: &ArgMatches<'_>, id: &str) -> bool
    ensures { result ≡ is_signed id.now (rows_in given.now) }
{
    is_any_signed(find_texts(given, id))
}

fn is_any_signed(numbers: &[&str]) -> bool
    ensures { result ≡ list_any (λ number. begins_with_sign number.now) numbers.now }
{
    numbers.iter().any(|number| begins_with_sign(number))
}

pub(crate) fn begins_with_sign(text: &str) -> bool
    ensures { result ≡ begins_with_sign text.now }
{
    matches!(text.as_bytes().first(), Some(b'+' | b'-'))
}

/// Whether a flag was given.
fn is_set(given: &ArgMatches<'_>, flag: &str) -> bool
    ensures { result ≡ is_set flag.now (rows_in given.now) }
{
    match find_text(given, flag) {
        Some(text) => text == "true",
        None => false,
    }
}

/// Whether an argument has a value.
fn is_given(given: &ArgMatches<'_>, id: &str) -> bool
    ensures { result ≡ is_given id.now (rows_in given.now) }
{
    find_text(given, id).is_some()
}

/// The values of an argument.
fn find_texts<'b, 'a>(given: &'b ArgMatches<'a>, id: &str) -> &'b [&'a str]
    ensures { texts_of result.now ≡ texts_in id.now (rows_in given.now) }
{
    or_none(given.get_strs(id))
}

/// The first value of an argument.
fn find_text<'a>(given: &ArgMatches<'a>, id: &str) -> Option<&'a str>
    ensures { option_map (λ text. text.now) result ≡ first_of id.now (rows_in given.now) }
{
    given.get_str(id)
}

/// The items, if there are some.
fn or_none<T>(items: Option<&[T]>) -> &[T]
    ensures { result.now ≡ option_map_or (λ found. found.now) items.entry [] }
{
    match items {
        Some(items) => items,
        None => &[],
    }
}
