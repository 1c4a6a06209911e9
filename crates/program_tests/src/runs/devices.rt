//! Every command with an input or an output that fails at each place.

use super::each_command::{CANONICAL, COMMANDS, TEXT, prefixes, words_of};
use super::inputs::{Answer, Inputs, Line, judge};
use super::streams::{AMPLE, Ending, Limits, StepReader, input};
use std::io::ErrorKind;
use std::process::Abort;
use std::test::Fail;

/// This stream is the second file, if faults begin with this prefix, and else the first. The other file is `CANONICAL`.
fn inputs_of<'a>(prefix: &str, stream: StepReader<'a>) -> Inputs<'a> {
    let canonical = input(CANONICAL.as_bytes(), false);
    let (file, other) = match prefix {
        "second: " => (canonical, stream),
        _ => (stream, canonical),
    };
    Inputs { file, other }
}

/// Texts, how their inputs fail, and how many of their first bytes have the fault of line 5.
static FAILURES: &[(&str, ErrorKind, usize)] = rows! {
    (TEXT, ErrorKind::BrokenPipe, usize::MAX),
    (TEXT, ErrorKind::Interrupted, usize::MAX),
    ("goods 2\nbids 2\ndummy 2\n0\t1\t0\t2\t#\n1\t1\t1\t2\t3\t#\n", ErrorKind::BrokenPipe, 43),
};

/// What a line reports of an input that fails after each number of bytes of a text: its fault, once it is complete, and else
/// the failure.
fn fails_in(
    rt: &(impl Abort + AllocGlobal),
    line: &Line<'_>,
    prefix: &str,
    failing: &(&str, ErrorKind, usize),
) -> Result<(), Fail> {
    let (text, failure, faulty_from) = *failing;
    let device = format!(in rt.alloc(); "{prefix}Device\n")?;
    let fault = format!(in rt.alloc(); "{prefix}line 5: TwoDummies\n")?;
    for count in 0..=text.len() {
        let stream = StepReader {
            text: &text.as_bytes()[..count],
            step: 1,
            failure: Some(failure),
        };
        let wanted = if count < faulty_from {
            (5, "", device.as_str())
        } else {
            (2, "", fault.as_str())
        };
        judge(rt, line, inputs_of(prefix, stream), AMPLE, wanted)?;
    }
    Ok(())
}

/// What a line answers if its output ends so after so many bytes of what it sends.
fn cut_off(
    rt: &(impl Abort + AllocGlobal),
    line: &Line<'_>,
    inputs: Inputs<'_>,
    limits: Limits,
    sent: &str,
) -> Result<(), Fail> {
    let count = limits.capacity.min(sent.len());
    let reported = format!(in rt.alloc(); "output failed after {count} bytes\n")?;
    let wanted: Answer<'_> = (5, sent.get(..count).unwrap_or(sent), reported.as_str());
    judge(rt, line, inputs, limits, wanted)
}

/// What a line answers if its output takes a byte a call, and if it fails, or stalls, after each number of bytes of what it
/// sends, or at its flush.
fn outputs_end(
    rt: &(impl Abort + AllocGlobal),
    line: &Line<'_>,
    inputs: Inputs<'_>,
    sent: &str,
) -> Result<(), Fail> {
    let mut limits = AMPLE;
    limits.ending = Ending::FailsAtFlush;
    cut_off(rt, line, inputs, limits, sent)?;
    for capacity in 0..sent.len() {
        limits.capacity = capacity;
        limits.ending = Ending::Fails;
        cut_off(rt, line, inputs, limits, sent)?;
        limits.ending = Ending::Stalls;
        cut_off(rt, line, inputs, limits, sent)?;
    }
    limits = AMPLE;
    limits.step = 1;
    judge(rt, line, inputs, limits, (0, sent, ""))
}

#[test]
fn inputs_fail(rt: HostRuntime) -> Result<(), Fail> {
    for (name, arguments, _, _) in COMMANDS {
        let line = format!(in rt.alloc(); "cats {name} {arguments}")?;
        let words = words_of(rt.alloc(), line.as_str(), "FILE", "OTHER")?;
        let line = Line::new(rt.alloc(), words.as_slice());
        for prefix in prefixes(arguments) {
            for failing in FAILURES {
                fails_in(&rt, &line, prefix, failing)?;
            }
        }
    }
    Ok(())
}

#[test]
fn outputs_fail(rt: HostRuntime) -> Result<(), Fail> {
    for (name, arguments, sent, _) in COMMANDS {
        let line = format!(in rt.alloc(); "cats {name} {arguments}")?;
        let words = words_of(rt.alloc(), line.as_str(), "FILE", "OTHER")?;
        let line = Line::new(rt.alloc(), words.as_slice());
        for prefix in prefixes(arguments) {
            let stream = StepReader {
                text: TEXT.as_bytes(),
                step: 1,
                failure: None,
            };
            outputs_end(&rt, &line, inputs_of(prefix, stream), sent)?;
        }
    }
    Ok(())
}

/// Lines, texts whose inputs fail or end, the capacity of the output, and the answer.
static ROWS: &[(&str, &str, bool, usize, Answer<'_>)] = rows! {
    ("check FILE", "goods 0\nbids 0\ndummy 0\n", false, 5, (5, "goods", "output failed after 5 bytes\n")),
    ("check FILE", "goods 0\nbids 0\ndummy 0\n", true, 4096, (5, "", "Device\n")),
    ("check FILE", "goods 0\n", true, 4096, (5, "", "Device\n")),
    ("check FILE", "Goods 0\n", true, 4096, (2, "", "line 1: Header\n")),
    ("normalise FILE", "goods 0\nbids 0\ndummy 0\n", false, 5, (5, "goods", "output failed after 5 bytes\n")),
    ("normalise FILE", "goods 0\n", true, 4096, (5, "", "Device\n")),
    ("normalise FILE", "Goods 0\n", true, 4096, (2, "", "line 1: Header\n")),
    // the file is read before its goods and bids are judged, and the first file before the second
    ("value FILE 9 9", "goods 0\n", true, 4096, (5, "", "Device\n")),
    ("revenue FILE 0", "goods 0\n", true, 4096, (5, "", "Device\n")),
    ("round FILE", "goods 0\n", true, 4096, (5, "", "Device\n")),
    ("compare FILE OTHER", "goods 0\n", true, 4096, (5, "", "first: Device\n")),
    ("diff FILE OTHER", "goods 0\n", true, 4096, (5, "", "first: Device\n")),
};

#[test]
fn faults_and_failures_in_order(rt: HostRuntime) -> Result<(), Fail> {
    for (line, text, fails, capacity, wanted) in ROWS {
        let stream = input(text.as_bytes(), *fails);
        let inputs = Inputs {
            file: stream,
            other: stream,
        };
        let mut limits = AMPLE;
        limits.capacity = *capacity;
        let line = format!(in rt.alloc(); "cats {line}")?;
        let words = words_of(rt.alloc(), line.as_str(), "FILE", "OTHER")?;
        judge(
            &rt,
            &Line::new(rt.alloc(), words.as_slice()),
            inputs,
            limits,
            *wanted,
        )?;
    }
    Ok(())
}
