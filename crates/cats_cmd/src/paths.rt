//! The loop over many files. They are judged one after the other, and what is made of each is printed when it ends.

ghost use Rattle.std.specs.Prelude.{◌≡◌, ◌++◌, ℕ, List, Option, [], ◌∷◌, map, IfErr, IfOk, OnErr};
ghost use Rattle.std.specs.Prelude.{false};
ghost use Rattle.canon.specs.declared.which.Which.TheVariants.{Only};
ghost use Rattle.cats_cmd.specs.Inputs.{IsOpened};
ghost use Rattle.cats_cmd.specs.Internal.Gathering.{Gathers};
ghost use Rattle.cats_cmd.specs.Internal.Judging.{AddsFile, AddsJudgement, AddsOpened, AddsPathAs, BeginsRun, HasSome};
ghost use Rattle.cats_cmd.specs.Internal.Judging.{JudgesAllAs, OpensAllAs, SendsNext, ShowsNext, opening_of};
ghost use Rattle.cats_cmd.specs.Opening.{KeepsFiles, Opens, OpensEach, openings_of};
ghost use Rattle.cats_cmd.specs.Openings.{status_of_run};
ghost use Rattle.cats_cmd.specs.Paths.{IsUnopened, RunsOnPaths, progress_line, progress_lines, refusal_line};
ghost use Rattle.cats_cmd.specs.Paths.{refusal_lines, removal_lines, status_if, terminal_line, turn_text};
ghost use Rattle.cats_cmd.specs.PricedInputs.{IsReady, JudgesStream};
ghost use Rattle.cats_cmd.specs.Reports.{Reports, ReportsAll};
ghost use Rattle.cats_cmd.specs.Stores.{Attempt, WritesEach};
ghost use Rattle.cats_cmd.specs.declared.source.Way.TheVariants.{NoFolder};
ghost use Rattle.cats_text.specs.Streams.{has_failed};
ghost use Rattle.commands.specs.Judgements.{Judgement, IsUnjudged};
ghost use Rattle.commands.specs.declared.faults.RunFault.{RunFault};
ghost use Rattle.commands.specs.declared.faults.RunFault.TheVariants.{NotOpened};
ghost use Rattle.valuation.specs.declared.search.options.SearchOptions.{SearchOptions};

use crate::lines::{LineBuffer, report};
use crate::priced_input::{NONE_ROUNDED, PricedInput, RoundedCount, report_rounded};
use crate::run::{is_lost, status_if_lost};
use crate::source::{Source, Way};
use crate::text_paths::TextPlace;
use canon::Which;
use cats_text::{SendFault, Watched, send};
use commands::faults::{RunFault, Unopened};
use commands::printed::{fault_pieces, status};
use commands::statuses::DONE;
use rounding::replacement::PriceRule;
use std::alloc::{AllocError, AllocGlobal, Global};
use std::io::Write;
use valuation::search::SearchOptions;

/// How a run on many files reads them, reports and prints.
#[derive(Clone, Copy)]
pub struct ManyFiles<'a> {
    /// How each file is searched, and how many steps its searches may take.
    pub options: SearchOptions,
    pub progress: Progress,
    pub ending: Ending,
    /// What becomes of each price, if prices are rounded.
    pub prices: Option<PriceRule>,
    /// Whether `duplicates` prints the files too that are the only ones of their auction, and `publish` writes one text
    /// for each file.
    pub all: bool,
    /// How what is at a path is opened, if no folder is found there. Of the files below one, only regular ones are.
    pub way: Way,
    /// Where texts are written, if they are.
    pub target: Option<Target<'a>>,
}

/// Where the texts of files are written: a folder, and below it the path of the text of each file.
#[derive(Clone, Copy)]
pub struct Target<'a> {
    pub folder: &'a str,
    pub places: &'a [TextPlace],
}

/// How it is reported which file is read.
#[derive(Clone, Copy)]
pub enum Progress {
    /// It is not.
    Silent,
    /// By a line before each file.
    Lines,
    /// By one line of a terminal, which is removed once the file is read.
    Terminal,
}

/// How the paths of the output end.
#[derive(Clone, Copy)]
pub enum Ending {
    /// With LF.
    Line,
    /// With NUL.
    Null,
}

/// The path of a file, and how it is opened.
#[derive(Clone, Copy)]
pub(crate) struct FilePath<'a> {
    pub(crate) path: &'a [u8],
    pub(crate) way: Way,
}

/// One of many paths: how it is opened, its number, counted from 1, and how many there are.
#[derive(Clone, Copy)]
struct Turn<'a> {
    path: &'a [u8],
    way: Way,
    number: usize,
    count: usize,
}

/// What removes the line above, on a terminal: the cursor moves up, and the line is erased.
const REMOVAL: &str = "\x1b[A\x1b[K";

/// What keeps a terminal from wrapping a line that is too long, and what ends that.
const UNWRAPPED: &str = "\x1b[?7l";

const WRAPPED: &str = "\x1b[?7h";

/// What a run makes of the files at some paths, which are judged one after the other. What is printed of a file is printed
/// when the file ends; `Shows` says what is printed and written so far, and `Makes` what is in the end.
pub(crate) trait Collection: Sized + Drop {
    ghost use Rattle.cats_cmd.specs.declared.paths.ManyFiles.{ManyFiles};

    ghost searched: { SearchOptions → Option SearchOptions };

    ghost keeps: { Self → List (List ℕ × Judgement) → Type 0 };

    ghost Shows: { ManyFiles → List (List ℕ × Judgement) → List ℕ → List Attempt → Type 0 };

    ghost Makes: { ManyFiles → List (List ℕ × Judgement) → List ℕ → List Attempt → Type 0 };

    ghost refusals: { List ℕ → Option RunFault → List (List ℕ) };

    /// What is made of no files, and what is printed before all.
    fn begin(alloc: Global, many: ManyFiles<'_>) -> Result<(Self, Vec<u8>), AllocError>
        ensures { IfOk result (λ begun. keeps begun.0 [] × Shows many.entry [] begun.1.items []) };

    /// Judges the file at one more path.
    fn add<S: Source + AllocGlobal>(
        &mut self,
        source: &mut S,
        path: &[u8],
        input: &mut PricedInput<S::Stream>,
        many: ManyFiles<'_>,
    ) -> Result<Added, AllocError>
        requires { IsReady input.old }
        ensures adds { IfOk result (λ added. AddsOpened keeps (Shows many.entry)
            (WritesEach (S.may_not_write (S.content_of source.old)) (S.texts source.old) (S.texts source.new))
            (JudgesStream S.Stream.remaining (searched many.entry.options)) path.now self.old self.new input.old input.new
            added.fault added.text.items) }
        ensures unwritten { OnErr result (S.texts source.new ≡ S.texts source.old) }
        ensures files { KeepsFiles S.content_of S.opened source.old source.new };

    /// Adds a path at which no file was opened, for this reason, and answers what is printed of it.
    fn add_unopened(
        &mut self,
        alloc: Global,
        path: &[u8],
        why: Unopened,
        many: ManyFiles<'_>,
    ) -> Result<Vec<u8>, AllocError>
        ensures { IfOk result (λ text. AddsJudgement keeps path.now (IsUnjudged (NotOpened Only why)) self.old self.new
            × ShowsNext keeps (Shows many.entry) path.now (IsUnjudged (NotOpened Only why)) text.items [] self.old) };

    /// Reports why the file at a path was not judged, unless the text of all says it.
    fn report_refusal<E: Write>(path: &[u8], fault: &Option<RunFault>, err: &mut Watched<E>)
        ensures { ReportsAll E.contents (refusals path.now fault.now) err.old err.new };

    /// What is printed behind the rest, once all files were judged.
    fn end(&self, alloc: Global, many: ManyFiles<'_>) -> Result<Vec<u8>, AllocError>
        requires { HasSome keeps self.now }
        ensures { (judgements : List (List ℕ × Judgement)) (printed : List ℕ) (attempts : List Attempt)
            → keeps self.now judgements → Shows many.entry judgements printed attempts
            → IfOk result (λ text. Makes many.entry judgements (printed ++ text.items) attempts) };
}

/// Why a file was not judged, if it was not, and what is printed of it.
#[derive(Drop)]
pub(crate) struct Added {
    pub(crate) fault: Option<RunFault>,
    pub(crate) text: Vec<u8>,
}

/// What became of all files: the greatest status, and how many bytes were sent.
#[derive(Clone, Copy)]
struct Judged {
    greatest: u8,
    sent: u64,
}

/// Judges the files at these paths, one after the other, and sends what is made of each when it ends.
///
/// A file that cannot be judged is reported on `err` at once, unless the text says it, and the others go on; so is, where
/// prices are rounded, how many of a file's were. With `progress`, it is reported there before each file which one it is.
/// The status is the greatest of the files' statuses. That of a file that was judged is 0, or says that it could not be
/// reported that prices were rounded.
pub(crate) fn run_on_paths<C: Collection, S: Source + AllocGlobal, W: Write, E: Write>(
    source: &mut S,
    paths: &[FilePath<'_>],
    many: ManyFiles<'_>,
    out: &mut Watched<W>,
    err: &mut Watched<E>,
) -> Result<u8, RunFault>
    requires { has_failed out.old ≡ false }
    ensures runs { RunsOnPaths (S.may_open (S.content_of source.old))
        (S.may_refuse (S.content_of source.old)) S.Stream.remaining W.contents E.contents (C.searched many.entry.options)
        many.entry.prices (C.Shows many.entry)
        (WritesEach (S.may_not_write (S.content_of source.old)) (S.texts source.old) (S.texts source.new))
        (map (λ file. file.path.now) paths.now) (record { refusals = C.refusals; progress = many.entry.progress })
        (C.Makes many.entry) out.old out.new err.old err.new result }
    ensures opens { OpensEach S.content_of S.opened (map opening_of paths.now) source.old source.new
        (status_of_run result) }
{
    let (mut collection, head) = C::begin(source.alloc(), many)?;
    let sent = send_next(out, 0, head.as_slice())?;
    let work = Work { paths, many, sent };
    let judged = judge_all(source, &mut collection, &work, out, err)?;
    let text = collection.end(source.alloc(), many)?;
    send_next(out, judged.sent, text.as_slice())?;
    Ok(judged.greatest)
}

/// The paths of a run, how it reads them, and how many bytes were sent before the first is read.
#[derive(Clone, Copy)]
struct Work<'a> {
    paths: &'a [FilePath<'a>],
    many: ManyFiles<'a>,
    sent: u64,
}

/// Judges the files at these paths, and sends what is printed of each.
fn judge_all<C: Collection, S: Source + AllocGlobal, W: Write, E: Write>(
    source: &mut S,
    collection: &mut C,
    work: &Work<'_>,
    out: &mut Watched<W>,
    err: &mut Watched<E>,
) -> Result<Judged, RunFault>
    requires works { has_failed out.old ≡ false }
    requires empty { C.keeps collection.old [] }
    ensures judges { (start : Watched W) (printed : List ℕ)
        → BeginsRun W.contents (C.Shows work.now.many) start out.old printed work.now.sent
        → JudgesAllAs C.keeps (C.Shows work.now.many)
        (WritesEach (S.may_not_write (S.content_of source.old)) (S.texts source.old) (S.texts source.new))
        (S.may_open (S.content_of source.old)) (S.may_refuse (S.content_of source.old)) S.Stream.remaining
        (C.searched work.now.many.options) work.now.many.prices W.contents E.contents
        (record { refusals = C.refusals; progress = work.now.many.progress })
        (map (λ file. file.path.now) work.now.paths.now) collection.new start out.new err.old err.new result }
    ensures opens { OpensAllAs S.content_of S.opened (map opening_of work.now.paths.now) source.old source.new result }
{
    let mut greatest = DONE;
    let mut sent = work.sent;
    let count = work.paths.len();
    for (number, file) in work.paths.iter().enumerate() {
        let number = number + 1;
        let turn = Turn {
            path: file.path,
            way: file.way,
            number,
            count,
        };
        let (status, text) = judge_path(source, collection, &turn, work.many, err)?;
        sent = send_next(out, sent, text.as_slice())?;
        greatest = greatest.max(status);
    }
    Ok(Judged { greatest, sent })
}

/// Sends a text behind the bytes that were sent before, of which there are so many, and answers how many there are then. The
/// fault of the output counts them all. The count stops at the greatest number.
pub(crate) fn send_next<W: Write>(
    out: &mut Watched<W>,
    sent: u64,
    text: &[u8],
) -> Result<u64, RunFault>
    requires { has_failed out.old ≡ false }
    ensures { SendsNext W.contents sent text.now out.old out.new result }
{
    if text.is_empty() {
        return Ok(sent);
    }
    match send(out, text) {
        Ok(()) => Ok(sent.saturating_add(text.len() as u64)),
        Err(fault) => Err(RunFault::Sent(SendFault {
            written: sent.saturating_add(fault.written),
        })),
    }
}

/// Judges the file at a path, reports it, and answers its status, and what is printed of it.
fn judge_path<C: Collection, S: Source + AllocGlobal, E: Write>(
    source: &mut S,
    collection: &mut C,
    turn: &Turn<'_>,
    many: ManyFiles<'_>,
    err: &mut Watched<E>,
) -> Result<(u8, Vec<u8>), AllocError>
    ensures adds { AddsPathAs C.keeps (C.Shows many.entry)
        (WritesEach (S.may_not_write (S.content_of source.old)) (S.texts source.old) (S.texts source.new))
        (S.may_open (S.content_of source.old))
        (S.may_refuse (S.content_of source.old)) S.Stream.remaining (C.searched many.entry.options) many.entry.prices
        E.contents (record { refusals = C.refusals; progress = many.entry.progress }) turn.now.count turn.now.number
        turn.now.path.now collection.old collection.new err.old err.new result }
    ensures opens { Opens S.content_of S.opened source.old source.new
        (openings_of ((turn.now.path.now, turn.now.way) ∷ [])) }
{
    report_progress(many.progress, turn, err);
    let (added, rounded) = judge(source, collection, turn, many)?;
    remove_progress(many.progress, err);
    report_rounded(turn.path, rounded, err);
    let lost = is_lost(rounded.count, err);
    C::report_refusal(turn.path, &added.fault, err);
    Ok((status_if(lost, &added.fault), added.text))
}

/// The status of a file that was judged, whose report may be lost, or of the reason why it was not.
fn status_if(lost: bool, fault: &Option<RunFault>) -> u8
    ensures { result ≡ status_if lost fault.now }
{
    match fault {
        None => status_if_lost(lost, DONE),
        Some(fault) => status(fault),
    }
}

/// Judges the file at a path, and answers what became of it, and how many of its prices were rounded.
fn judge<C: Collection, S: Source + AllocGlobal>(
    source: &mut S,
    collection: &mut C,
    turn: &Turn<'_>,
    many: ManyFiles<'_>,
) -> Result<(Added, RoundedCount), AllocError>
    ensures adds { IfOk result (λ judged. AddsFile C.keeps (C.Shows many.entry)
        (WritesEach (S.may_not_write (S.content_of source.old)) (S.texts source.old) (S.texts source.new))
        (S.may_open (S.content_of source.old))
        (S.may_refuse (S.content_of source.old)) S.Stream.remaining (C.searched many.entry.options) many.entry.prices
        turn.now.path.now collection.old collection.new judged.1 judged.0.fault judged.0.text.items) }
    ensures unwritten { OnErr result (S.texts source.new ≡ S.texts source.old) }
    ensures opens { Opens S.content_of S.opened source.old source.new
        (openings_of ((turn.now.path.now, turn.now.way) ∷ [])) }
{
    let path = turn.path;
    match open_path(source, path, turn.way) {
        Ok(stream) => {
            let mut input = PricedInput::new(stream, many.prices);
            let added = collection.add(source, path, &mut input, many)?;
            Ok((added, input.rounded()))
        }
        Err(why) => {
            let text = collection.add_unopened(source.alloc(), path, why, many)?;
            let fault = Some(RunFault::NotOpened(Which::Only, why));
            Ok((Added { fault, text }, NONE_ROUNDED))
        }
    }
}

/// Opens the file at a path. There is none at a path that is not UTF-8, as the library opens no such path.
pub(crate) fn open_path<S: Source>(
    source: &mut S,
    path: &[u8],
    way: Way,
) -> Result<Watched<S::Stream>, Unopened>
    ensures opened { IfOk result (IsOpened (S.may_open (S.content_of source.old)) path.now) }
    ensures refused { IfErr result (IsUnopened (S.may_refuse (S.content_of source.old)) path.now) }
    ensures opens { Opens S.content_of S.opened source.old source.new (openings_of ((path.now, way) ∷ [])) }
    ensures unwritten { S.texts source.new ≡ S.texts source.old }
{
    let Ok(path) = str::from_utf8(path) else {
        return Err(Unopened::Other);
    };
    match source.open(path, way) {
        Ok(stream) => Ok(Watched::new(stream)),
        Err(why) => Err(why),
    }
}

/// Opens a file, and refuses a folder.
pub(crate) fn open_file<S: Source>(
    source: &mut S,
    path: &str,
) -> Result<Watched<S::Stream>, Unopened>
    ensures opened { IfOk result (IsOpened (S.may_open (S.content_of source.old)) path.now) }
    ensures refused { IfErr result (S.may_refuse (S.content_of source.old) path.now) }
    ensures opens { Opens S.content_of S.opened source.old source.new ((path.now, NoFolder) ∷ []) }
    ensures unwritten { S.texts source.new ≡ S.texts source.old }
{
    match source.open(path, Way::NoFolder) {
        Ok(stream) => Ok(Watched::new(stream)),
        Err(why) => Err(why),
    }
}

/// Reports why the file at a path was not judged.
pub(crate) fn report_refusal<E: Write>(err: &mut Watched<E>, path: &[u8], fault: &RunFault)
    ensures { Reports E.contents (refusal_line path.now fault.now) err.old err.new }
{
    let mut line = LineBuffer::new();
    line.push_escaped(err, path);
    line.push(err, b": ");
    line.push_pieces(err, &fault_pieces(fault));
    line.send(err);
}

/// Removes the line of progress of a terminal.
fn remove_progress<E: Write>(progress: Progress, err: &mut Watched<E>)
    ensures { ReportsAll E.contents (removal_lines progress) err.old err.new }
{
    if let Progress::Terminal = progress {
        report(err, REMOVAL.as_bytes());
    }
}

/// Reports why the file at a path was not judged, if it was not.
pub(crate) fn report_if_refused<E: Write>(
    path: &[u8],
    fault: &Option<RunFault>,
    err: &mut Watched<E>,
)
    ensures { ReportsAll E.contents (refusal_lines path.now fault.now) err.old err.new }
{
    if let Some(fault) = fault {
        report_refusal(err, path, fault);
    }
}

/// Reports which file is read, and how many of how many it is.
fn report_progress<E: Write>(progress: Progress, turn: &Turn<'_>, err: &mut Watched<E>)
    ensures { ReportsAll E.contents
        (progress_lines progress turn.now.number turn.now.count turn.now.path.now) err.old err.new }
{
    match progress {
        Progress::Silent => {}
        Progress::Lines => report_path(turn, err),
        Progress::Terminal => show_path(turn, err),
    }
}

fn report_path<E: Write>(turn: &Turn<'_>, err: &mut Watched<E>)
    ensures { Reports E.contents (progress_line turn.now.number turn.now.count turn.now.path.now) err.old err.new }
{
    let mut line = LineBuffer::new();
    push_turn(&mut line, err, turn);
    line.push(err, b"\n");
    line.send(err);
}

/// Reports it on a terminal, so that it is one line there.
fn show_path<E: Write>(turn: &Turn<'_>, err: &mut Watched<E>)
    ensures { Reports E.contents (terminal_line turn.now.number turn.now.count turn.now.path.now) err.old err.new }
{
    let mut line = LineBuffer::new();
    line.push(err, UNWRAPPED.as_bytes());
    push_turn(&mut line, err, turn);
    line.push(err, WRAPPED.as_bytes());
    line.push(err, b"\n");
    line.send(err);
}

fn push_turn<E: Write>(line: &mut LineBuffer, err: &mut Watched<E>, turn: &Turn<'_>)
    ensures { Gathers E.contents (turn_text turn.now.number turn.now.count turn.now.path.now) line.old line.new err.old
        err.new }
{
    line.push_number(err, turn.number as u64);
    line.push(err, b" of ");
    line.push_number(err, turn.count as u64);
    line.push(err, b" ");
    line.push_escaped(err, turn.path);
}
