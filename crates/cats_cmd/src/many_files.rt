//! Runs on many files. Their paths are words of the command line, or are in a list of paths.

ghost use Rattle.std.specs.Prelude.{◌≡◌, ◌∷◌, [], map, IfErr, IfOk, false};
ghost use Rattle.cats_text.specs.Streams.{has_failed};
ghost use Rattle.cats_cmd.specs.FileLists.{IsUnread, ReadsList, RunsAtPaths};
ghost use Rattle.cats_cmd.specs.Internal.Carrying.{many_files};
ghost use Rattle.cats_cmd.specs.Opening.{Opens, OpensAtPaths};
ghost use Rattle.cats_cmd.specs.Openings.{OpensFiles, status_of_run};
ghost use Rattle.cats_cmd.specs.Paths.{RunsOnPaths, refusal_line};
ghost use Rattle.cats_cmd.specs.Requests.{RunsOnMany};
ghost use Rattle.requests.specs.Requests.{plain_request, texts_of};
ghost use Rattle.cats_cmd.specs.Reports.{Reports};
ghost use Rattle.cats_cmd.specs.Stores.{WritesEach};
ghost use Rattle.cats_cmd.specs.declared.source.Way.TheVariants.{NoFolder};
ghost use Rattle.commands.specs.Statuses.{status_of_fault};

use crate::bytes::read_bytes;
use crate::folders::{file_paths, files_at};
use crate::path_list::split_paths;
use crate::paths::{
    Collection, Ending, ManyFiles, Progress, open_file, report_refusal, run_on_paths,
};
use crate::source::{Source, Way};
use canon::{CanonFault, Which};
use cats_text::Watched;
use commands::faults::RunFault;
use commands::printed::status;
use requests::request::Request;
use std::alloc::{AllocError, AllocGlobal, Global};
use std::io::Write;

/// The run on the files of a request. A list that is not read is reported as a file that is not judged.
pub(crate) fn run_on_files<C: Collection, S: Source + AllocGlobal, W: Write, E: Write>(
    source: &mut S,
    request: &Request<'_>,
    terminal: bool,
    out: &mut Watched<W>,
    err: &mut Watched<E>,
) -> Result<u8, RunFault>
    requires { has_failed out.old ≡ false }
    ensures runs { RunsOnMany (S.may_open (S.content_of source.old)) (S.may_refuse (S.content_of source.old))
        S.Stream.remaining W.contents E.contents terminal (S.may_find (S.content_of source.old))
        (S.may_not_write (S.content_of source.old)) (S.texts source.old) (S.texts source.new)
        (C.searched (plain_request request.now).options) (C.Shows (many_files terminal (plain_request request.now)))
        (C.Makes (many_files terminal (plain_request request.now)))
        (λ progress. record { refusals = C.refusals; progress = progress }) (plain_request request.now) out.old out.new
        err.old err.new result }
    ensures opens { OpensFiles S.content_of S.opened S.may_open S.may_refuse S.Stream.remaining S.may_find
        (plain_request request.now).list (plain_request request.now).files source.old source.new (status_of_run result) }
{
    let many = many_files(request, terminal);
    let Some(list) = request.list else {
        let paths = paths_of(source.alloc(), request.files.as_slice())?;
        return run_at_paths::<C, S, W, E>(source, paths.as_slice(), many, out, err);
    };
    match read_list(source, list) {
        Ok(text) => {
            let paths = split_paths(source.alloc(), text.as_slice())?;
            run_at_paths::<C, S, W, E>(source, paths.as_slice(), many, out, err)
        }
        Err(fault) => Ok(refuse_list(list, &fault, err)),
    }
}

/// The run on the files at these paths.
fn run_at_paths<C: Collection, S: Source + AllocGlobal, W: Write, E: Write>(
    source: &mut S,
    paths: &[&[u8]],
    many: ManyFiles<'_>,
    out: &mut Watched<W>,
    err: &mut Watched<E>,
) -> Result<u8, RunFault>
    requires { has_failed out.old ≡ false }
    ensures runs { RunsAtPaths (WritesEach (S.may_not_write (S.content_of source.old)) (S.texts source.old)
        (S.texts source.new)) (S.may_find (S.content_of source.old)) (λ files. RunsOnPaths
        (S.may_open (S.content_of source.old)) (S.may_refuse (S.content_of source.old)) S.Stream.remaining W.contents
        E.contents (C.searched many.entry.options) many.entry.prices (C.Shows many.entry)
        (WritesEach (S.may_not_write (S.content_of source.old)) (S.texts source.old) (S.texts source.new)) files
        (record { refusals = C.refusals; progress = many.entry.progress }) (C.Makes many.entry))
        (map (λ path. path.now) paths.now) out.old out.new err.old err.new result }
    ensures opens { OpensAtPaths S.content_of S.opened S.may_find many.entry.way (map (λ path. path.now) paths.now)
        source.old source.new (status_of_run result) }
{
    let found = files_at(&*source, source.alloc(), paths, many.way)?;
    let files = file_paths(source.alloc(), found.as_slice())?;
    run_on_paths::<C, S, W, E>(source, files.as_slice(), many, out, err)
}

/// Words as paths.
pub(crate) fn paths_of<'a>(alloc: Global, words: &[&'a str]) -> Result<Vec<&'a [u8]>, AllocError>
    ensures { IfOk result (λ paths. map (λ path. path.now) paths.items ≡ texts_of words.now) }
{
    let mut paths = Vec::with_capacity(alloc, words.len())?;
    for word in words {
        paths.push(word.as_bytes())?;
    }
    Ok(paths)
}

/// How a run on many files reads them and reports.
pub(crate) fn many_files<'a>(request: &Request<'_>, terminal: bool) -> ManyFiles<'a>
    ensures { result ≡ many_files terminal (plain_request request.now) }
{
    let ending = if request.null {
        Ending::Null
    } else {
        Ending::Line
    };
    let progress = match (terminal, request.progress) {
        (_, false) => Progress::Silent,
        (true, true) => Progress::Terminal,
        (false, true) => Progress::Lines,
    };
    // a list may have FIFOs that nobody named
    let way = match request.list {
        None => Way::NoFolder,
        Some(_) => Way::Regular,
    };
    ManyFiles {
        options: request.options,
        progress,
        ending,
        prices: request.prices,
        all: request.all,
        way,
        target: None,
    }
}

/// Reads the list in the file at this path.
pub(crate) fn read_list<S: Source + AllocGlobal>(
    source: &mut S,
    list: &str,
) -> Result<Vec<u8>, RunFault>
    ensures read { IfOk result (λ text. ReadsList (S.may_open (S.content_of source.old))
        (S.may_refuse (S.content_of source.old)) S.Stream.remaining list.now text.items) }
    ensures unread { IfErr result (IsUnread (S.may_open (S.content_of source.old)) (S.may_refuse (S.content_of source.old))
        S.Stream.remaining list.now) }
    ensures opens { Opens S.content_of S.opened source.old source.new ((list.now, NoFolder) ∷ []) }
    ensures unwritten { S.texts source.new ≡ S.texts source.old }
{
    let mut input = match open_file(source, list) {
        Ok(input) => input,
        Err(why) => return Err(RunFault::NotOpened(Which::Only, why)),
    };
    match read_bytes(source.alloc(), &mut input) {
        Ok(text) => Ok(text),
        Err(fault) => Err(RunFault::from(CanonFault::from(fault))),
    }
}

/// Reports why the list at this path was not read, and answers the status.
pub(crate) fn refuse_list<E: Write>(list: &str, fault: &RunFault, err: &mut Watched<E>) -> u8
    ensures reports { Reports E.contents (refusal_line list.now fault.now) err.old err.new }
    ensures status { result ≡ status_of_fault fault.now }
{
    report_refusal(err, list.as_bytes(), fault);
    status(fault)
}
