//! Tests of `bid_file` and `cats_text`, on known files and faults.

mod bid_lines;
mod faults;
mod layout;
mod limits;
mod long_words;
mod pieces;
mod places;
mod streams;
mod whole_files;

use bid_file::{BidFile, Bids};
use cats_text::packed::read_packed;
use cats_text::{Kind, MAX_STREAM, ReadFault, Reader, read, write};
use std::alloc::{AllocError, Global};
use std::process::Abort;
use std::test::Fail;

/// What reading gave: the text of the file, or the fault.
type Outcome = Result<Vec<u8>, ReadFault>;

fn outcome(alloc: Global, answer: Result<BidFile, ReadFault>) -> Result<Outcome, AllocError> {
    match answer {
        Ok(file) => Ok(Ok(write(alloc, &file)?)),
        Err(fault) => Ok(Err(fault)),
    }
}

/// The fault of a text, if there is one.
fn fault_of(alloc: Global, text: &[u8]) -> Option<ReadFault> {
    read(alloc, text).err()
}

fn fault(line: u64, kind: Kind) -> Option<ReadFault> {
    Some(ReadFault { line, kind })
}

/// The numbers of goods, bids and dummies that a text says.
fn sizes(alloc: Global, text: &[u8]) -> Result<(u16, usize, u32), ReadFault> {
    let file = read(alloc, text)?;
    Ok((file.goods(), file.bids().len(), file.dummy()))
}

/// Asserts the numbers of goods, bids and dummies of a file.
fn assert_sizes<B: Bids>(rt: &impl Abort, file: &B, want: (u16, usize, u32)) {
    assert_eq!(rt; (file.goods(), file.len(), file.dummy()), want);
}

/// The text of the file that a text spells.
fn written(alloc: Global, text: &[u8]) -> Result<Vec<u8>, Fail> {
    let file = read(alloc, text)?;
    Ok(write(alloc, &file)?)
}

/// The parts, one behind the other.
fn joined(alloc: Global, parts: &[&[u8]]) -> Result<Vec<u8>, AllocError> {
    let mut text = Vec::new(alloc);
    for part in parts {
        text.extend_from_slice(part)?;
    }
    Ok(text)
}

/// A byte, many times.
fn many(alloc: Global, byte: u8, count: usize) -> Result<Vec<u8>, AllocError> {
    Ok(vec![in alloc; byte; count]?)
}

/// Asserts that these are the bytes.
fn assert_bytes(rt: &impl Abort, bytes: &[u8], want: &[u8]) {
    assert_eq!(rt; bytes, want);
}

/// Asserts what is written of a file.
fn assert_written<B: Bids>(
    rt: &impl Abort,
    alloc: Global,
    file: &B,
    want: &[u8],
) -> Result<(), Fail> {
    assert_bytes(rt, &write(alloc, file)?, want);
    Ok(())
}

/// Asserts that this is the fault of a text, or that it has none.
fn assert_fault(rt: &impl Abort, alloc: Global, text: &[u8], want: Option<ReadFault>) {
    assert_eq!(rt; fault_of(alloc, text), want);
}

/// What reading byte by byte gives.
fn outcome_of_bytes(alloc: Global, text: &[u8]) -> Result<Outcome, AllocError> {
    let mut reader = Reader::new(alloc, MAX_STREAM);
    for byte in text {
        if let Err(fault) = reader.feed(&[*byte]) {
            return Ok(Err(fault));
        }
    }
    outcome(alloc, reader.finish())
}

/// What reading two pieces gives.
fn outcome_of_two(alloc: Global, front: &[u8], back: &[u8]) -> Result<Outcome, AllocError> {
    let mut reader = Reader::new(alloc, MAX_STREAM);
    let _ = reader.feed(front);
    let _ = reader.feed(back);
    outcome(alloc, reader.finish())
}

/// What reading as a file in little memory gives.
fn outcome_of_packed(alloc: Global, text: &[u8]) -> Result<Outcome, AllocError> {
    match read_packed(alloc, text) {
        Ok(file) => Ok(Ok(write(alloc, &file.to_file(alloc)?)?)),
        Err(fault) => Ok(Err(fault)),
    }
}

/// Asserts what one way of reading a text gave.
fn assert_same(rt: &impl Abort, text: &[u8], outcome: &Outcome, want: &Outcome) {
    assert_eq!(rt; *outcome, *want, "{text:?}");
}

/// Asserts that a text gives this file's text or this fault: whole, as a file in little memory, in two pieces wherever
/// it is cut, and byte by byte.
fn assert_outcome(
    rt: &impl Abort,
    alloc: Global,
    text: &[u8],
    want: &Outcome,
) -> Result<(), AllocError> {
    assert_same(rt, text, &outcome(alloc, read(alloc, text))?, want);
    assert_same(rt, text, &outcome_of_packed(alloc, text)?, want);
    assert_same(rt, text, &outcome_of_bytes(alloc, text)?, want);
    for place in 0..=text.len() {
        let (front, back) = text.split_at(place);
        assert_same(rt, text, &outcome_of_two(alloc, front, back)?, want);
    }
    Ok(())
}
