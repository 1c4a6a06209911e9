//! Requests: each opens its files, runs on them, and reports how many prices were rounded.

ghost use Rattle.std.specs.Prelude.{◌≡◌, ◌∷◌, [], IfErr, IfOk, false};
ghost use Rattle.canon.specs.declared.which.Which.TheVariants.{Only};
ghost use Rattle.cats_text.specs.Streams.{has_failed};
ghost use Rattle.cats_cmd.specs.Inputs.{IsOpened};
ghost use Rattle.cats_cmd.specs.Internal.Carrying.{FailsToOpenPair};
ghost use Rattle.cats_cmd.specs.Opening.{Opens, way_of};
ghost use Rattle.cats_cmd.specs.Openings.{OpensFiles, OpensFor, OpensForBids, OpensOne, OpensPair, OpensTwo};
ghost use Rattle.cats_cmd.specs.Openings.{status_of_run};
ghost use Rattle.cats_cmd.specs.Requests.{CannotOpen, CannotOpenPair, CannotOpenTwo, Carries, CarriesOut, RunsAt};
ghost use Rattle.cats_cmd.specs.Requests.{RunsAtBoth, RunsOfCommand, RunsOfDuplicates, RunsOfFiles, RunsOnOne, RunsOnTwo};
ghost use Rattle.cats_cmd.specs.Requests.{reason_of};
ghost use Rattle.commands.specs.Meanings.{outcome_of};
ghost use Rattle.requests.specs.Requests.{plain_request};

use crate::bid_list::read_bids;
use crate::compare_folders::{Folder, Folders, compare_folders, find_both, takes_folders};
use crate::duplicates::Groups;
use crate::duplicates::table::GroupTable;
use crate::fault::Faults;
use crate::many_files::{refuse_list, run_on_files};
use crate::priced_input::{PricedInput, report_rounded};
use crate::publishing::run_publish;
use crate::round::run_round;
use crate::run::{answer_if_lost, is_lost, send_answer};
use crate::sizes::Table;
use crate::source::{Source, Way};
use canon::Which;
use cats_text::Watched;
use commands::command::{answer_on_file, answer_on_pair};
use commands::faults::{RunFault, Unopened};
use commands::statuses::WRONG_USAGE;
use requests::request::Request;
use requests::task::{Files, Task, files_of, gives_reason};
use rounding::replacement::{FinePrices, PriceRule};
use std::alloc::AllocGlobal;
use std::io::Write;

/// What becomes of each price by `cats round` without an option.
const ROUNDED: PriceRule = PriceRule {
    fine: FinePrices::Round,
    tens: 0,
};

/// `err` is for requests that report faults and go on, or that report how many prices were rounded.
pub(crate) fn carry_out<S: Source + AllocGlobal, W: Write, E: Write>(
    source: &mut S,
    request: &Request<'_>,
    out: &mut Watched<W>,
    err: &mut Watched<E>,
    terminal: bool,
) -> Result<u8, RunFault>
    requires { has_failed out.old ≡ false }
    ensures carries { CarriesOut (S.may_open (S.content_of source.old)) (S.may_refuse (S.content_of source.old))
        S.Stream.remaining W.contents E.contents terminal (S.may_find (S.content_of source.old))
        (S.may_not_write (S.content_of source.old)) (S.texts source.old) (S.texts source.new) (plain_request request.now)
        out.old out.new err.old err.new result }
    ensures opens { OpensFor S.content_of S.opened S.may_open S.may_refuse S.Stream.remaining S.may_find
        (plain_request request.now) source.old source.new (status_of_run result) }
{
    match files_of(request.task) {
        Files::Many => run_on_many(source, request, terminal, out, err),
        Files::One => match request.files.as_slice() {
            [file] => carry_out_on_one(source, request, file, out, err),
            _ => Ok(WRONG_USAGE),
        },
        Files::Two => match request.files.as_slice() {
            [first, second] => carry_out_on_two(source, request, (first, second), out, err),
            _ => Ok(WRONG_USAGE),
        },
    }
}

/// The request on its only file.
fn carry_out_on_one<S: Source + AllocGlobal, W: Write, E: Write>(
    source: &mut S,
    request: &Request<'_>,
    file: &str,
    out: &mut Watched<W>,
    err: &mut Watched<E>,
) -> Result<u8, RunFault>
    requires { has_failed out.old ≡ false }
    ensures carries { Carries (RunsOnOne (S.may_open (S.content_of source.old)) (S.may_refuse (S.content_of source.old))
        S.Stream.remaining W.contents E.contents request.now.task (plain_request request.now) file.now)
        (CannotOpen (S.may_refuse (S.content_of source.old)) request.now.task Only file.now)
        out.old out.new err.old err.new result }
    ensures opens { OpensOne S.content_of S.opened S.may_open S.may_refuse S.Stream.remaining request.now.task
        (plain_request request.now) file.now source.old source.new (status_of_run result) }
{
    match request.task {
        Task::Round => {
            let mut input = open(source, request.task, file, Which::Only)?;
            let rule = request.prices.unwrap_or(ROUNDED);
            run_round(source.alloc(), &mut input, rule, out, err)
        }
        _ => carry_out_command(source, request, file, out, err),
    }
}

/// The command of a request on one bid file. The list of `revenue` is read before the file.
fn carry_out_command<S: Source + AllocGlobal, W: Write, E: Write>(
    source: &mut S,
    request: &Request<'_>,
    file: &str,
    out: &mut Watched<W>,
    err: &mut Watched<E>,
) -> Result<u8, RunFault>
    requires { has_failed out.old ≡ false }
    ensures carries { Carries (RunsOfCommand (S.may_open (S.content_of source.old)) (S.may_refuse (S.content_of source.old))
        S.Stream.remaining W.contents E.contents (plain_request request.now) file.now)
        (CannotOpen (S.may_refuse (S.content_of source.old)) request.now.task Only file.now)
        out.old out.new err.old err.new result }
    ensures opens { OpensForBids S.content_of S.opened S.may_open S.may_refuse S.Stream.remaining
        (way_of request.now.task) (plain_request request.now).list file.now source.old source.new (status_of_run result) }
{
    let Some(list) = request.list else {
        return run_at(source, request, request.bids.as_slice(), file, out, err);
    };
    match read_bids(source, list) {
        Ok(bids) => run_at(source, request, bids.as_slice(), file, out, err),
        Err(fault) => Ok(refuse_list(list, &fault, err)),
    }
}

/// Opens the file of a request, runs its command on it and on the bids of these numbers, and reports how many of the prices
/// were rounded.
#[tactic(auto, using(crate::proofs::Sending::file_run))]
fn run_at<S: Source + AllocGlobal, W: Write, E: Write>(
    source: &mut S,
    request: &Request<'_>,
    bids: &[u32],
    file: &str,
    out: &mut Watched<W>,
    err: &mut Watched<E>,
) -> Result<u8, RunFault>
    requires { has_failed out.old ≡ false }
    ensures runs { Carries (RunsAt (S.may_open (S.content_of source.old)) S.Stream.remaining W.contents E.contents file.now
        request.now.prices (outcome_of (plain_request request.now) bids.now))
        (CannotOpen (S.may_refuse (S.content_of source.old)) request.now.task Only file.now)
        out.old out.new err.old err.new result }
    ensures opens { Opens S.content_of S.opened source.old source.new ((file.now, way_of request.now.task) ∷ []) }
{
    let stream = open(source, request.task, file, Which::Only)?;
    let mut input = PricedInput::new(stream, request.prices);
    let answer = answer_on_file(source.alloc(), request, bids, &mut input);
    let sent = send_answer(source.alloc(), out, answer, Which::Only);
    report_rounded(file.as_bytes(), input.rounded(), err);
    let lost = is_lost(input.rounded().count, err);
    answer_if_lost(lost, sent)
}

/// The request on two paths. Of two folders `compare` compares the files below.
fn carry_out_on_two<S: Source + AllocGlobal, W: Write, E: Write>(
    source: &mut S,
    request: &Request<'_>,
    files: (&str, &str),
    out: &mut Watched<W>,
    err: &mut Watched<E>,
) -> Result<u8, RunFault>
    requires { has_failed out.old ≡ false }
    ensures carries { Carries (RunsOnTwo (S.may_open (S.content_of source.old)) (S.may_refuse (S.content_of source.old))
        S.Stream.remaining W.contents E.contents (S.may_find (S.content_of source.old)) files.entry.0.now files.entry.1.now
        (plain_request request.now)) (CannotOpenTwo (S.may_refuse (S.content_of source.old)) request.now.task
        (S.may_find (S.content_of source.old)) files.entry.0.now files.entry.1.now) out.old out.new err.old err.new result }
    ensures opens { OpensTwo S.content_of S.opened S.may_open S.may_refuse S.Stream.remaining S.may_find files.entry.0.now
        files.entry.1.now (plain_request request.now) source.old source.new (status_of_run result) }
{
    if !takes_folders(request.task) {
        return carry_out_on_pair(source, request, files, out, err);
    }
    let Some((left, right)) = find_both(&*source, source.alloc(), files.0, files.1)? else {
        return carry_out_on_pair(source, request, files, out, err);
    };
    let folders = Folders {
        left: Folder {
            path: files.0.as_bytes(),
            files: left.as_slice(),
        },
        right: Folder {
            path: files.1.as_bytes(),
            files: right.as_slice(),
        },
    };
    compare_folders(source, request, folders, out, err)
}

/// Opens both files of a request for two, runs on them, and reports how many of their prices were rounded.
fn carry_out_on_pair<S: Source + AllocGlobal, W: Write, E: Write>(
    source: &mut S,
    request: &Request<'_>,
    files: (&str, &str),
    out: &mut Watched<W>,
    err: &mut Watched<E>,
) -> Result<u8, RunFault>
    requires { has_failed out.old ≡ false }
    ensures carries { Carries (RunsAtBoth (S.may_open (S.content_of source.old)) S.Stream.remaining W.contents E.contents
        files.entry.0.now files.entry.1.now (plain_request request.now))
        (CannotOpenPair (S.may_refuse (S.content_of source.old)) request.now.task files.entry.0.now files.entry.1.now)
        out.old out.new err.old err.new result }
    ensures opens { OpensPair S.content_of S.opened S.may_open S.may_refuse S.Stream.remaining
        (way_of request.now.task) files.entry.0.now files.entry.1.now source.old source.new (status_of_run result) }
{
    let (left, right) = open_both(source, request.task, files.0, files.1)?;
    let mut left = PricedInput::new(left, request.prices);
    let mut right = PricedInput::new(right, request.prices);
    let answer = answer_on_pair(source.alloc(), request, &mut left, &mut right);
    let sent = send_answer(source.alloc(), out, answer, Which::Both);
    report_rounded(files.0.as_bytes(), left.rounded(), err);
    report_rounded(files.1.as_bytes(), right.rounded(), err);
    let lost = is_lost(left.rounded().count.max(right.rounded().count), err);
    answer_if_lost(lost, sent)
}

/// The run of a request on many files.
fn run_on_many<S: Source + AllocGlobal, W: Write, E: Write>(
    source: &mut S,
    request: &Request<'_>,
    terminal: bool,
    out: &mut Watched<W>,
    err: &mut Watched<E>,
) -> Result<u8, RunFault>
    requires { has_failed out.old ≡ false }
    ensures runs { RunsOfFiles (S.may_open (S.content_of source.old)) (S.may_refuse (S.content_of source.old))
        S.Stream.remaining W.contents E.contents terminal (S.may_find (S.content_of source.old))
        (S.may_not_write (S.content_of source.old)) (S.texts source.old) (S.texts source.new) request.now.task
        (plain_request request.now) out.old out.new err.old err.new result }
    ensures opens { OpensFiles S.content_of S.opened S.may_open S.may_refuse S.Stream.remaining S.may_find
        (plain_request request.now).list (plain_request request.now).files source.old source.new (status_of_run result) }
{
    match request.task {
        Task::Fault => run_on_files::<Faults, S, W, E>(source, request, terminal, out, err),
        Task::Duplicates => run_duplicates(source, request, terminal, out, err),
        Task::Publish => run_publish(source, request, terminal, out, err),
        _ => run_on_files::<Table, S, W, E>(source, request, terminal, out, err),
    }
}

/// The run of `cats duplicates`.
fn run_duplicates<S: Source + AllocGlobal, W: Write, E: Write>(
    source: &mut S,
    request: &Request<'_>,
    terminal: bool,
    out: &mut Watched<W>,
    err: &mut Watched<E>,
) -> Result<u8, RunFault>
    requires { has_failed out.old ≡ false }
    ensures runs { RunsOfDuplicates (S.may_open (S.content_of source.old)) (S.may_refuse (S.content_of source.old))
        S.Stream.remaining W.contents E.contents terminal (S.may_find (S.content_of source.old))
        (S.may_not_write (S.content_of source.old)) (S.texts source.old) (S.texts source.new) request.now.table
        (plain_request request.now) out.old out.new err.old err.new result }
    ensures opens { OpensFiles S.content_of S.opened S.may_open S.may_refuse S.Stream.remaining S.may_find
        (plain_request request.now).list (plain_request request.now).files source.old source.new (status_of_run result) }
{
    if request.table {
        run_on_files::<GroupTable, S, W, E>(source, request, terminal, out, err)
    } else {
        run_on_files::<Groups, S, W, E>(source, request, terminal, out, err)
    }
}

/// Opens the files of a request for two, the second unless the first is refused.
fn open_both<S: Source>(
    source: &mut S,
    task: Task,
    first: &str,
    second: &str,
) -> Result<(Watched<S::Stream>, Watched<S::Stream>), RunFault>
    ensures opened { IfOk result (λ both. IsOpened (S.may_open (S.content_of source.old)) first.now both.0
        × IsOpened (S.may_open (S.content_of source.old)) second.now both.1
        × Opens S.content_of S.opened source.old source.new
        ((first.now, way_of task) ∷ (second.now, way_of task) ∷ [])) }
    ensures refused { IfErr result (λ fault. FailsToOpenPair S.content_of S.opened (S.may_refuse (S.content_of source.old))
        task first.now second.now source.old source.new fault) }
{
    let left = open(source, task, first, Which::First)?;
    let right = open(source, task, second, Which::Second)?;
    Ok((left, right))
}

/// Opens a file of a request for one or two.
fn open<S: Source>(
    source: &mut S,
    task: Task,
    path: &str,
    which: Which,
) -> Result<Watched<S::Stream>, RunFault>
    ensures opened { IfOk result (IsOpened (S.may_open (S.content_of source.old)) path.now) }
    ensures refused { IfErr result (CannotOpen (S.may_refuse (S.content_of source.old)) task which path.now) }
    ensures opens { Opens S.content_of S.opened source.old source.new ((path.now, way_of task) ∷ []) }
{
    match source.open(path, way_of(task)) {
        Ok(stream) => Ok(Watched::new(stream)),
        Err(why) => Err(RunFault::NotOpened(which, reason_of(task, why))),
    }
}

/// The reason that a command reports, if it reports one.
fn reason_of(task: Task, why: Unopened) -> Unopened
    ensures { result ≡ reason_of task why }
{
    if gives_reason(task) {
        why
    } else {
        Unopened::Other
    }
}

/// How a command opens one file or two.
fn way_of(task: Task) -> Way
    ensures { result ≡ way_of task }
{
    if gives_reason(task) {
        Way::NoFolder
    } else {
        Way::Anything
    }
}
