//! Lines on one text in memory, or two. The program answers them, and so do the runs that are promised by themselves.

ghost use Rattle.std.specs.Prelude.{◌≡◌, None, false};
ghost use Rattle.cats_text.specs.Streams.{has_failed};

use super::each_command::words_of;
use super::memory::answer_on;
use super::streams::{
    AMPLE, Limits, RunAnswer, StepReader, StepWriter, input, limited_writer, text_taken,
};
use cats_cmd::source::{Source, Way};
use cats_cmd::{run_check, run_compare, run_normalise, run_show, run_value};
use cats_text::Watched;
use command_line::help::VERSION;
use command_line::request::parse;
use commands::faults::{RunFault, Unopened, Unwritten};
use commands::printed::{fault_line, status};
use requests::request::Request;
use requests::task::Task;
use std::alloc::{Alloc, AllocError, Global};
use std::process::Abort;
use std::test::Fail;
use valuation::search::SearchKind;

/// The streams at each path but OTHER, and at that.
#[derive(Clone, Copy)]
pub(super) struct Inputs<'a> {
    pub(super) file: StepReader<'a>,
    pub(super) other: StepReader<'a>,
}

impl<'a> Inputs<'a> {
    fn at(&self, path: &str) -> StepReader<'a> {
        match path {
            "OTHER" => self.other,
            _ => self.file,
        }
    }
}

#[derive(Drop)]
struct TwoStreams<'a> {
    inputs: Inputs<'a>,
    alloc: Global,
}

impl<'a> Source for TwoStreams<'a> {
    type Stream = StepReader<'a>;

    ghost Content = { Unit {0} };

    ghost content_of = { λ _. tt };

    ghost may_open = { λ _ _ _. Unit {0} };

    ghost may_refuse = { λ _ _ _. Unit {0} };

    ghost may_find = { λ _ _ _. Unit {0} };

    ghost opened = { λ _. None };

    ghost may_not_write = { λ _ _ _. Unit {0} };

    ghost texts = { λ _. None };

    fn open(&mut self, path: &str, _way: Way) -> Result<StepReader<'a>, Unopened> {
        Ok(self.inputs.at(path))
    }

    fn find(&self, _alloc: Global, _path: &str) -> Result<Option<Vec<Vec<u8>>>, AllocError> {
        Ok(None)
    }

    fn make_folder(&mut self, _folder: &str) -> Result<(), Unwritten> {
        Err(Unwritten::Other)
    }

    fn is_taken(&self, _alloc: Global, _folder: &str, _path: &str) -> Result<bool, AllocError> {
        Ok(false)
    }

    fn write_new(
        &mut self,
        _alloc: Global,
        _folder: &str,
        _path: &str,
        _text: &[u8],
    ) -> Result<Result<(), Unwritten>, AllocError> {
        Ok(Err(Unwritten::Other))
    }
}

impl Alloc for TwoStreams<'_> {
    type A = Global;

    fn alloc(&self) -> Global {
        self.alloc
    }
}

/// What the program answers to a command line, whose words have a blank between each two, of one stream at each path.
pub(super) fn answer_on_input(
    alloc: Global,
    line: &str,
    input: StepReader<'_>,
    out: Watched<StepWriter>,
) -> Result<RunAnswer, Fail>
    requires { has_failed out ≡ false }
{
    let words = words_of(alloc, line, "FILE", "OTHER")?;
    let (file, other) = (input, input);
    let inputs = Inputs { file, other };
    answer_on(
        &mut TwoStreams { inputs, alloc },
        words.as_slice(),
        out,
        false,
    )
}

/// The words of a command line, and the request that they are, if they are one.
#[derive(Drop)]
pub(super) struct Line<'a> {
    words: &'a [&'a str],
    request: Option<Request<'a>>,
}

impl<'a> Line<'a> {
    pub(super) fn new(alloc: Global, words: &'a [&'a str]) -> Line<'a> {
        let request = parse(alloc, VERSION, &[], words).ok();
        Line { words, request }
    }
}

fn run_answer(
    alloc: Global,
    answer: Result<u8, RunFault>,
    out: Watched<StepWriter>,
) -> Result<RunAnswer, Fail> {
    let (status, line) = match answer {
        Ok(status) => (status, Vec::new(alloc)),
        Err(fault) => (status(&fault), fault_line(alloc, &fault)?),
    };
    Ok(RunAnswer {
        status,
        sent: text_taken(out)?,
        line: String::from_utf8(line)?,
        torn: false,
    })
}

/// What the run of a request answers, if it is one of the five that are promised by themselves.
fn answer_of_run(
    alloc: Global,
    request: &Request<'_>,
    inputs: Inputs<'_>,
    limits: Limits,
) -> Result<Option<RunAnswer>, Fail> {
    let is_plain = request.options.kind == SearchKind::Plain;
    let steps = request.options.each;
    let paths = request.files.as_slice();
    let mut file = Watched::new(inputs.at(paths.first().copied().unwrap_or("")));
    let mut other = Watched::new(inputs.at(paths.get(1).copied().unwrap_or("")));
    let mut out = limited_writer(alloc, limits);
    let answer = match (request.task, is_plain) {
        (Task::Check, _) => run_check(alloc, &mut file, &mut out),
        (Task::Show, _) => run_show(alloc, &mut file, &mut out),
        (Task::Value, true) => run_value(alloc, &mut file, &request.goods, steps, &mut out),
        (Task::Normalise, true) => run_normalise(alloc, &mut file, steps, &mut out),
        (Task::Compare, true) => run_compare(alloc, &mut file, &mut other, steps, &mut out),
        _ => return Ok(None),
    };
    Ok(Some(run_answer(alloc, answer, out)?))
}

/// A status, what is printed, and what is reported.
pub(super) type Answer<'a> = (u8, &'a str, &'a str);

fn expect_answer(rt: &impl Abort, words: &[&str], found: &RunAnswer, wanted: Answer<'_>) {
    let same = (found.status, found.sent.as_str(), found.line.as_str()) == wanted;
    assert!(rt; same && !found.torn, "of {words:?}, {wanted:?}: {found:?}");
}

/// That a line has this answer: by the program, and by its run.
pub(super) fn judge(
    rt: &(impl Abort + AllocGlobal),
    line: &Line<'_>,
    inputs: Inputs<'_>,
    limits: Limits,
    wanted: Answer<'_>,
) -> Result<(), Fail> {
    let alloc = rt.alloc();
    let mut source = TwoStreams { inputs, alloc };
    let answer = answer_on(
        &mut source,
        line.words,
        limited_writer(alloc, limits),
        false,
    )?;
    expect_answer(rt, line.words, &answer, wanted);
    if let Some(request) = &line.request {
        if let Some(answer) = answer_of_run(alloc, request, inputs, limits)? {
            expect_answer(rt, line.words, &answer, wanted);
        }
    }
    Ok(())
}

/// Where a notation is.
#[derive(Clone, Copy)]
enum Place {
    Outside,
    Goods,
    Bids,
    BidLine,
}

/// The text of a notation: `{g b d}` means the three header lines with these numbers, and `[n p g ..]` a bid line, its words
/// joined by tabs. Other bytes are themselves.
fn spell(alloc: Global, notation: &[u8]) -> Result<Vec<u8>, AllocError> {
    let mut text = Vec::new(alloc);
    let mut place = Place::Outside;
    for byte in notation {
        let (piece, next): (&[u8], Place) = match (place, *byte) {
            (_, b'{') => (b"goods ", Place::Goods),
            (Place::Goods, b' ') => (b"\nbids ", Place::Bids),
            (Place::Bids, b' ') => (b"\ndummy ", Place::Outside),
            (_, b'}') => (b"\n", Place::Outside),
            (_, b'[') => (b"", Place::BidLine),
            (Place::BidLine, b' ') => (b"\t", Place::BidLine),
            (_, b']') => (b"\t#\n", Place::Outside),
            (_, other) => {
                text.push(other)?;
                continue;
            }
        };
        text.extend_from_slice(piece)?;
        place = next;
    }
    Ok(text)
}

/// A line behind `cats`, the texts at FILE and at OTHER, and the answer. The texts and what is printed are in notation.
pub(super) type Row<'a> = (&'a str, &'a [&'a [u8]], u8, &'a str, &'a str);

pub(super) fn judge_rows(rt: &(impl Abort + AllocGlobal), rows: &[Row<'_>]) -> Result<(), Fail> {
    let alloc = rt.alloc();
    for (line, texts, status, printed, reported) in rows {
        let file = spell(alloc, texts.first().copied().unwrap_or(b""))?;
        let other = spell(alloc, texts.get(1).copied().unwrap_or(b""))?;
        let printed = String::from_utf8(spell(alloc, printed.as_bytes())?)?;
        let inputs = Inputs {
            file: input(file.as_slice(), false),
            other: input(other.as_slice(), false),
        };
        let line = format!(in alloc; "cats {line}")?;
        let words = words_of(alloc, line.as_str(), "FILE", "OTHER")?;
        let wanted: Answer<'_> = (*status, printed.as_str(), reported);
        judge(
            rt,
            &Line::new(alloc, words.as_slice()),
            inputs,
            AMPLE,
            wanted,
        )?;
    }
    Ok(())
}
