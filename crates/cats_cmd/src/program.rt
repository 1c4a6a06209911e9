//! The program `cats`, but for its process. It has a command line, two output streams and an exit status.

ghost use Rattle.std.specs.Prelude.{◌≡◌, ◌≢◌, ◌≤◌, ◌⊎◌, None, false};
ghost use Rattle.cats_text.specs.Streams.{has_failed};
ghost use Rattle.cats_cmd.specs.ComparedFolders.{ComparesFolders};
ghost use Rattle.cats_cmd.specs.Requests.{AnswersLine, AnswersNoRequest, AnswersRequest, NamesFolders, line_of_failure};
ghost use Rattle.cats_cmd.specs.Requests.{path_of};
ghost use Rattle.cats_cmd.specs.Openings.{OpensFor, OpensLine};
ghost use Rattle.requests.specs.Requests.{plain_request, texts_of};
ghost use Rattle.cats_cmd.specs.Reports.{Reports, is_for_many_files, is_reporting, names_many_files, names_reporting};

use crate::carrying_out::carry_out;
use crate::lines::report_pieces;
use crate::paths::report_refusal;
use crate::source::{Source, SystemFiles};
use crate::usage::{misuse_text, with_escaped_words};
use canon::Which;
use cats_text::{Watched, send};
use command_line::help::VERSION;
use command_line::request::{NoRequest, parse};
use commands::faults::RunFault;
use commands::printed::{fault_pieces, status};
use commands::statuses::{DEVICE_FAILED, DONE, NO_MEMORY, WRONG_USAGE};
use requests::help::CommandHelp;
use requests::request::Request;
use requests::task::gives_reason;
use std::alloc::AllocGlobal;
use std::io::Write;
use std::rt::Files;

/// What is sent if memory was refused before a request began.
const NO_MEMORY_LINE: &str = "want of memory\n";

/// What the program has from its process and from its build.
#[derive(Clone, Copy)]
pub struct Process<'a> {
    /// What `--version` prints after the program's name.
    pub version: &'a str,
    /// What `--help` prints beside what `clap` makes of the arguments.
    pub help: &'a [CommandHelp<'a>],
    /// Whether standard error is a terminal.
    pub terminal: bool,
}

/// Does what a command line says, on the files of the system, and answers the exit status. It is `run_program` on
/// them, if standard error is not a terminal. Help is what `clap` makes of the arguments: the program has the other texts.
pub fn run_cats<F: Files + AllocGlobal, W: Write, E: Write>(
    rt: &F,
    words: &[&str],
    out: &mut Watched<W>,
    err: &mut Watched<E>,
) -> u8
    requires out_works { has_failed out.old ≡ false }
    requires err_works { has_failed err.old ≡ false }
    ensures answers { AnswersLine (λ path stream. Unit {0}) (λ path why. Unit {0}) F.File.remaining W.contents E.contents
        false (λ path found. Unit {0}) (λ path why. Unit {0}) None None (texts_of words.now) out.old out.new err.old err.new
        result }
    ensures silent { names_many_files (texts_of words.now) ≡ false → result ≢ 0 → result ≢ 1 → result ≢ 5
        → (out.new ≡ out.old) ⊎ NamesFolders (λ path found. Unit {0}) (texts_of words.now) }
    ensures done { names_reporting (texts_of words.now) ≡ false → result ≤ 1 → err.new ≡ err.old }
{
    let process = Process {
        version: VERSION,
        help: &[],
        terminal: false,
    };
    run_program(&mut SystemFiles::new(rt), words, out, err, &process)
}

/// Does what a command line says, on the files of a source, and answers the exit status. The line's first word is the
/// program's name, and `out` and `err` are the standard streams.
///
/// A fault's line is sent to `err`. It needs no memory.
#[tactic(auto, using(crate::proofs::AnswersOfRequests::few_files, crate::proofs::AnswersOfRequests::quiet_request))]
pub fn run_program<S: Source + AllocGlobal, W: Write, E: Write>(
    source: &mut S,
    words: &[&str],
    out: &mut Watched<W>,
    err: &mut Watched<E>,
    process: &Process<'_>,
) -> u8
    requires out_works { has_failed out.old ≡ false }
    requires err_works { has_failed err.old ≡ false }
    ensures answers { AnswersLine (S.may_open (S.content_of source.old)) (S.may_refuse (S.content_of source.old))
        S.Stream.remaining W.contents E.contents process.now.terminal (S.may_find (S.content_of source.old))
        (S.may_not_write (S.content_of source.old)) (S.texts source.old) (S.texts source.new) (texts_of words.now)
        out.old out.new err.old err.new result }
    ensures opens { OpensLine S.content_of S.opened S.may_open S.may_refuse S.Stream.remaining S.may_find
        (texts_of words.now) source.old source.new result }
    ensures silent { names_many_files (texts_of words.now) ≡ false → result ≢ 0 → result ≢ 1 → result ≢ 5
        → (out.new ≡ out.old) ⊎ NamesFolders (S.may_find (S.content_of source.old)) (texts_of words.now) }
    ensures done { names_reporting (texts_of words.now) ≡ false → result ≤ 1 → err.new ≡ err.old }
{
    match parse(source.alloc(), process.version, process.help, words) {
        Ok(request) => answer_request(source, &request, out, err, process.terminal),
        Err(no_request) => {
            let no_request = with_escaped_words(source.alloc(), process.version, words, no_request);
            answer_no_request(&no_request, out, err)
        }
    }
}

/// Does what a request says, on the files of a source, and answers the exit status. A fault's line is sent to `err`;
/// `terminal` says whether that is one.
pub fn answer_request<S: Source + AllocGlobal, W: Write, E: Write>(
    source: &mut S,
    request: &Request<'_>,
    out: &mut Watched<W>,
    err: &mut Watched<E>,
    terminal: bool,
) -> u8
    requires out_works { has_failed out.old ≡ false }
    ensures answers { AnswersRequest (S.may_open (S.content_of source.old)) (S.may_refuse (S.content_of source.old))
        S.Stream.remaining W.contents E.contents terminal (S.may_find (S.content_of source.old))
        (S.may_not_write (S.content_of source.old)) (S.texts source.old) (S.texts source.new) (plain_request request.now)
        out.old out.new err.old err.new result }
    ensures opens { OpensFor S.content_of S.opened S.may_open S.may_refuse S.Stream.remaining S.may_find
        (plain_request request.now) source.old source.new result }
    ensures silent { is_for_many_files (plain_request request.now) ≡ false → result ≢ 0 → result ≢ 1 → result ≢ 5
        → (out.new ≡ out.old) ⊎ ComparesFolders (S.may_find (S.content_of source.old)) (plain_request request.now) }
    ensures done { is_reporting (plain_request request.now) ≡ false → result ≤ 1 → err.new ≡ err.old }
{
    match carry_out(source, request, out, err, terminal) {
        Ok(status) => status,
        Err(fault) => {
            report_failure(request, &fault, err);
            status(&fault)
        }
    }
}

/// Reports why a request failed. A command that says why a file cannot be opened names it.
fn report_failure<E: Write>(request: &Request<'_>, fault: &RunFault, err: &mut Watched<E>)
    ensures { Reports E.contents (line_of_failure (plain_request request.now) fault.now) err.old err.new }
{
    if let RunFault::NotOpened(which, why) = fault {
        if gives_reason(request.task) {
            let path = path_of(request.files.as_slice(), *which);
            report_refusal(
                err,
                path.as_bytes(),
                &RunFault::NotOpened(Which::Only, *why),
            );
            return;
        }
    }
    report_pieces(err, &fault_pieces(fault));
}

/// The path of one of a request's files.
fn path_of<'a>(files: &[&'a str], which: Which) -> &'a str
    ensures { result.now ≡ path_of which (texts_of files.now) }
{
    match (which, files) {
        (Which::Second, [_, second]) => second,
        (_, [first, ..]) => first,
        _ => "",
    }
}

/// Sends help to `out`, and what is wrong with a command line to `err`.
pub fn answer_no_request<W: Write, E: Write>(
    no_request: &NoRequest,
    out: &mut Watched<W>,
    err: &mut Watched<E>,
) -> u8
    requires out_works { has_failed out.old ≡ false }
    requires err_works { has_failed err.old ≡ false }
    ensures { AnswersNoRequest W.contents E.contents no_request.now out.old out.new err.old err.new result }
{
    match no_request {
        NoRequest::Help(text) => match send(out, text.as_bytes()) {
            Ok(()) => DONE,
            Err(_) => DEVICE_FAILED,
        },
        NoRequest::WrongUsage(text) => {
            let _ = send(err, text.as_bytes());
            WRONG_USAGE
        }
        NoRequest::Misused(misuse) => {
            let _ = send(err, misuse_text(*misuse).as_bytes());
            WRONG_USAGE
        }
        NoRequest::NoMemory => {
            let _ = send(err, NO_MEMORY_LINE.as_bytes());
            NO_MEMORY
        }
    }
}
