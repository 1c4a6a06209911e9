//! `cats compare` on two folders: a row for each path below either, with a verdict on the files there.

ghost use Rattle.std.specs.Prelude.{◌≡◌, ◌⊎◌, ◌++◌, [], ◌∷◌, IfErr, IfOk, OnOk, false, true, map};
ghost use Rattle.std.specs.Result.{IsErr};
ghost use Rattle.std.specs.Cmp.Lexicographic.{slice_cmp};
ghost use Rattle.std.specs.List.{Contains};
ghost use Rattle.std.specs.List.Sorted.{IsStrictlySortedBy};
ghost use Rattle.std.specs.Ordering.{nat_cmp};
ghost use Rattle.cats_text.specs.Streams.{has_failed};
ghost use Rattle.cats_cmd.specs.ComparedFolders.{ArePathsBelow, ComparesFiles, IsIn, JudgesAt, OpensBelow, OpensRows};
ghost use Rattle.cats_cmd.specs.ComparedFolders.{RunsBelow, is_same, row_of, status_of_verdict, verdict_of, whole_row};
ghost use Rattle.cats_cmd.specs.ComparedFolders.{takes_folders, word_of};
ghost use Rattle.cats_cmd.specs.Folders.{paths_of};
ghost use Rattle.cats_cmd.specs.Internal.Comparing.{AddsRow, FindsBoth, ListsBoth, OpensFor, OpensNeither, plain_folders};
ghost use Rattle.cats_cmd.specs.Inputs.{IsOpened};
ghost use Rattle.cats_cmd.specs.Opening.{Opens, in_way, openings_of};
ghost use Rattle.cats_cmd.specs.Openings.{status_of_run};
ghost use Rattle.cats_cmd.specs.PricedInputs.{none_rounded};
ghost use Rattle.cats_cmd.specs.TextPaths.{path_below};
ghost use Rattle.cats_cmd.specs.declared.source.Way.TheVariants.{Regular};
ghost use Rattle.requests.specs.Requests.{plain_request};

use crate::escaping::escape_into;
use crate::paths::{open_path, send_next};
use crate::priced_input::{NONE_ROUNDED, PricedInput, RoundedCount, report_rounded};
use crate::run::{is_lost, status_if_lost};
use crate::sizes::push_fault_text;
use crate::source::{Source, Way};
use crate::text_paths::{behind, length_with_slash};
use crate::writing::path_in;
use canon::Which;
use cats_text::Watched;
use commands::answer::Answer;
use commands::compare::compare;
use commands::faults::{RunFault, Unopened};
use commands::printed::status;
use commands::statuses::{DIFFERENT, DONE};
use requests::request::Request;
use requests::task::Task;
use std::alloc::{AllocError, AllocGlobal, Global};
use std::io::Write;

/// The line above the rows.
const HEADER: &str = "file\tverdict\tfault\n";

/// A folder, and the files that were found below it.
#[derive(Clone, Copy)]
pub(crate) struct Folder<'a> {
    pub(crate) path: &'a [u8],
    pub(crate) files: &'a [Vec<u8>],
}

#[derive(Clone, Copy)]
pub(crate) struct Folders<'a> {
    pub(crate) left: Folder<'a>,
    pub(crate) right: Folder<'a>,
}

/// What `compare` finds at a path below two folders.
#[derive(Drop)]
pub enum PathVerdict {
    Same,
    Different,
    /// The file is only in the first folder.
    Left,
    /// The file is only in the second one.
    Right,
    /// One of the files was refused, or both together.
    Unjudged(RunFault),
}

/// A verdict, and how many prices of each of the two files were rounded.
#[derive(Drop)]
pub(crate) struct Judged {
    verdict: PathVerdict,
    left: RoundedCount,
    right: RoundedCount,
}

/// Whether a command on two files takes two folders too.
pub(crate) fn takes_folders(task: Task) -> bool
    ensures { result ≡ takes_folders task }
{
    matches!(task, Task::Compare)
}

/// The files below the folders at two paths, if folders are at both.
pub(crate) fn find_both<S: Source>(
    source: &S,
    alloc: Global,
    first: &str,
    second: &str,
) -> Result<Option<(Vec<Vec<u8>>, Vec<Vec<u8>>)>, AllocError>
    ensures { IfOk result (FindsBoth (S.may_find (S.content_of source.now)) first.now second.now) }
{
    let Some(left) = source.find(alloc, first)? else {
        return Ok(None);
    };
    let Some(right) = source.find(alloc, second)? else {
        return Ok(None);
    };
    Ok(Some((left, right)))
}

/// Compares the files at each path below either of two folders, and prints a row when they were. With `all` it prints
/// the rows too of files that are the same auction. The status is the greatest of the rows' statuses.
pub(crate) fn compare_folders<S: Source + AllocGlobal, W: Write, E: Write>(
    source: &mut S,
    request: &Request<'_>,
    folders: Folders<'_>,
    out: &mut Watched<W>,
    err: &mut Watched<E>,
) -> Result<u8, RunFault>
    requires works { has_failed out.old ≡ false }
    requires lists { ListsBoth (plain_folders folders) }
    ensures runs { RunsBelow (S.may_open (S.content_of source.old)) (S.may_refuse (S.content_of source.old))
        S.Stream.remaining W.contents E.contents (plain_request request.now) (plain_folders folders.entry) out.old out.new
        err.old err.new result }
    ensures opens { OpensBelow S.content_of S.opened S.may_open S.may_refuse S.Stream.remaining (plain_request request.now)
        (plain_folders folders.entry) source.old source.new (status_of_run result) }
{
    let paths = paths_below(source.alloc(), folders)?;
    let mut sent = send_next(out, 0, HEADER.as_bytes())?;
    let mut greatest = DONE;
    for path in paths.as_slice() {
        let (status, text) = compare_path(source, request, folders, path.as_slice(), err)?;
        sent = send_next(out, sent, text.as_slice())?;
        greatest = greatest.max(status);
    }
    Ok(greatest)
}

/// The paths below either folder, each once, in the order of their bytes.
fn paths_below(alloc: Global, folders: Folders<'_>) -> Result<Vec<Vec<u8>>, AllocError>
    requires { ListsBoth (plain_folders folders) }
    ensures { IfOk result (λ paths. ArePathsBelow (plain_folders folders.entry) (paths_of paths.items)) }
{
    let mut paths = Vec::new(alloc);
    push_below(alloc, folders.left, &mut paths)?;
    push_below(alloc, folders.right, &mut paths)?;
    paths.sort_unstable();
    paths.dedup();
    Ok(paths)
}

/// Puts the paths of the files below a folder, without the folder's own, behind the others.
fn push_below(alloc: Global, folder: Folder<'_>, paths: &mut Vec<Vec<u8>>) -> Result<(), AllocError>
    ensures { OnOk result (paths_of paths.new.items ≡ paths_of paths.old.items
        ++ map (path_below folder.entry.path.now) (paths_of folder.entry.files.now)) }
{
    let start = length_with_slash(folder.path);
    for file in folder.files {
        paths.push(Vec::from_slice(alloc, behind(file.as_slice(), start))?)?;
    }
    Ok(())
}

/// Compares the files at a path below two folders, reports how many of their prices were rounded, and answers the status
/// and the row.
fn compare_path<S: Source + AllocGlobal, E: Write>(
    source: &mut S,
    request: &Request<'_>,
    folders: Folders<'_>,
    path: &[u8],
    err: &mut Watched<E>,
) -> Result<(u8, Vec<u8>), AllocError>
    requires lists { ListsBoth (plain_folders folders) }
    requires there { IsIn (plain_folders folders).left path.now ⊎ IsIn (plain_folders folders).right path.now }
    ensures adds { IfOk result (λ added. AddsRow (S.may_open (S.content_of source.old))
        (S.may_refuse (S.content_of source.old)) S.Stream.remaining (plain_request request.now)
        (plain_folders folders.entry) E.contents path.now err.old err.new added.0 added.1.items) }
    ensures stops { IfErr result (λ e. err.new ≡ err.old) }
    ensures opens { OpensRows S.content_of S.opened S.may_open S.may_refuse S.Stream.remaining (plain_request request.now)
        (plain_folders folders.entry) (path.now ∷ []) source.old source.new ⊎ (IsErr result × (source.new ≡ source.old)) }
{
    let alloc = source.alloc();
    let first = path_in(alloc, folders.left.path, path)?;
    let second = path_in(alloc, folders.right.path, path)?;
    let judged = judge_path(source, request, folders, &first, &second);
    let row = row_text(alloc, path, &judged.verdict, request.all)?;
    report_rounded(first.as_slice(), judged.left, err);
    report_rounded(second.as_slice(), judged.right, err);
    let lost = is_lost(judged.left.count.max(judged.right.count), err);
    Ok((status_of_verdict(lost, &judged.verdict), row))
}

/// The verdict on the files at these paths, one in each folder, of which one at least is there.
fn judge_path<S: Source + AllocGlobal>(
    source: &mut S,
    request: &Request<'_>,
    folders: Folders<'_>,
    first: &Vec<u8>,
    second: &Vec<u8>,
) -> Judged
    requires lists { ListsBoth (plain_folders folders) }
    requires there { Contains (plain_folders folders).left.files first.now.items
        ⊎ Contains (plain_folders folders).right.files second.now.items }
    ensures judges { JudgesAt (S.may_open (S.content_of source.old)) (S.may_refuse (S.content_of source.old))
        S.Stream.remaining (plain_request request.now) (plain_folders folders.entry) first.now.items second.now.items
        result.verdict result.left result.right }
    ensures opens { OpensFor S.content_of S.opened first.now.items second.now.items result.verdict source.old source.new }
{
    if !is_among(folders.right.files, second) {
        return unread(PathVerdict::Left);
    }
    if !is_among(folders.left.files, first) {
        return unread(PathVerdict::Right);
    }
    judge_files(source, request, first.as_slice(), second.as_slice())
}

/// The verdict without reading a file.
fn unread(verdict: PathVerdict) -> Judged
    ensures verdict { result.verdict ≡ verdict }
    ensures counts { (result.left ≡ none_rounded) × (result.right ≡ none_rounded) }
{
    Judged {
        verdict,
        left: NONE_ROUNDED,
        right: NONE_ROUNDED,
    }
}

/// Whether a path is among these, which are in the order of their bytes.
fn is_among(files: &[Vec<u8>], path: &Vec<u8>) -> bool
    requires { IsStrictlySortedBy (slice_cmp nat_cmp) (paths_of files.now) }
    ensures found { result ≡ true → Contains (paths_of files.now) path.now.items }
    ensures lost { result ≡ false → Contains (paths_of files.now) path.now.items → ⊥ }
{
    files.binary_search(path).is_ok()
}

/// The verdict on the files at two paths.
fn judge_files<S: Source + AllocGlobal>(
    source: &mut S,
    request: &Request<'_>,
    first: &[u8],
    second: &[u8],
) -> Judged
    ensures judges { ComparesFiles (S.may_open (S.content_of source.old)) (S.may_refuse (S.content_of source.old))
        S.Stream.remaining (plain_request request.now) first.now second.now result.verdict result.left result.right }
    ensures opens { OpensFor S.content_of S.opened first.now second.now result.verdict source.old source.new }
{
    let (left, right) = match open_files(source, first, second) {
        Ok(both) => both,
        Err(fault) => return unread(PathVerdict::Unjudged(fault)),
    };
    let mut left = PricedInput::new(left, request.prices);
    let mut right = PricedInput::new(right, request.prices);
    let answer = compare(source.alloc(), &mut left, &mut right, request.options);
    Judged {
        verdict: verdict_of(answer),
        left: left.rounded(),
        right: right.rounded(),
    }
}

/// Opens the files at two paths, the second unless the first is refused. `compare` gives no reason.
fn open_files<S: Source>(
    source: &mut S,
    first: &[u8],
    second: &[u8],
) -> Result<(Watched<S::Stream>, Watched<S::Stream>), RunFault>
    ensures opened { IfOk result (λ both. IsOpened (S.may_open (S.content_of source.old)) first.now both.0
        × IsOpened (S.may_open (S.content_of source.old)) second.now both.1
        × Opens S.content_of S.opened source.old source.new (openings_of (in_way Regular (first.now ∷ second.now ∷ [])))) }
    ensures refused { IfErr result (OpensNeither S.content_of S.opened first.now second.now
        (S.may_refuse (S.content_of source.old)) source.old source.new) }
{
    let Ok(left) = open_path(source, first, Way::Regular) else {
        return Err(RunFault::NotOpened(Which::First, Unopened::Other));
    };
    let Ok(right) = open_path(source, second, Way::Regular) else {
        return Err(RunFault::NotOpened(Which::Second, Unopened::Other));
    };
    Ok((left, right))
}

/// The verdict that `compare` answers.
fn verdict_of(answer: Result<Answer, RunFault>) -> PathVerdict
    ensures { result ≡ verdict_of answer }
{
    match answer {
        Ok(answer) if answer.status == DONE => PathVerdict::Same,
        Ok(_) => PathVerdict::Different,
        Err(fault) => PathVerdict::Unjudged(fault),
    }
}

/// The status of a row, whose report may be lost.
fn status_of_verdict(lost: bool, verdict: &PathVerdict) -> u8
    ensures { result ≡ status_of_verdict lost verdict.now }
{
    match verdict {
        PathVerdict::Same => status_if_lost(lost, DONE),
        PathVerdict::Unjudged(fault) => status(fault),
        _ => status_if_lost(lost, DIFFERENT),
    }
}

/// The row of a path, if it is printed.
fn row_text(
    alloc: Global,
    path: &[u8],
    verdict: &PathVerdict,
    all: bool,
) -> Result<Vec<u8>, AllocError>
    ensures { IfOk result (λ text. text.items ≡ row_of all path.now verdict.now) }
{
    let mut text = Vec::new(alloc);
    if all || !is_same(verdict) {
        push_row(alloc, &mut text, path, verdict)?;
    }
    Ok(text)
}

fn is_same(verdict: &PathVerdict) -> bool
    ensures { result ≡ is_same verdict.now }
{
    matches!(verdict, PathVerdict::Same)
}

fn push_row(
    alloc: Global,
    text: &mut Vec<u8>,
    path: &[u8],
    verdict: &PathVerdict,
) -> Result<(), AllocError>
    ensures { OnOk result (text.new.items ≡ text.old.items ++ whole_row path.now verdict.now) }
{
    escape_into(path, text)?;
    text.push(b'\t')?;
    text.extend_from_slice(word_of(verdict).as_bytes())?;
    text.push(b'\t')?;
    if let PathVerdict::Unjudged(fault) = verdict {
        push_fault_text(alloc, text, fault)?;
    }
    text.push(b'\n')?;
    Ok(())
}

fn word_of(verdict: &PathVerdict) -> &'static str
    ensures { result.now ≡ word_of verdict.now }
{
    match verdict {
        PathVerdict::Same => "same",
        PathVerdict::Different => "different",
        PathVerdict::Left => "left",
        PathVerdict::Right => "right",
        PathVerdict::Unjudged(_) => "",
    }
}
