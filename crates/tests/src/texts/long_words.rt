//! Words, blanks, empty lines and comments of a million bytes.

use super::{assert_bytes, fault, fault_of, many, written};
use cats_text::Kind;
use cats_text::Kind::{
    AfterEnd, BidNumber, GoodRange, Header, NoEnd, NotANumber, TooFine, TooLarge,
};
use std::alloc::{AllocError, Global};
use std::test::Fail;

/// The parts, with a million times this byte between each and the next.
fn with_many_between(alloc: Global, byte: u8, parts: &[&[u8]]) -> Result<Vec<u8>, AllocError> {
    let bytes = many(alloc, byte, 1_000_000)?;
    let mut text = Vec::new(alloc);
    for (place, part) in parts.iter().enumerate() {
        if place > 0 {
            text.extend_from_slice(&bytes)?;
        }
        text.extend_from_slice(part)?;
    }
    Ok(text)
}

/// Parts between which zeros are, and what is written.
static ZEROS: &[(&[&[u8]], &[u8])] = rows! {
    (&[b"goods ", b"2\nbids 0\ndummy 0\n"], b"goods 2\nbids 0\ndummy 0\n"),
    (&[b"goods 2\nbids 1\ndummy 0\n", b"0 ", b"1.5", b" ", b"1 #"], b"goods 2\nbids 1\ndummy 0\n0\t1.5\t1\t#\n"),
};

#[test]
fn zeros_before_numbers(rt: HostRuntime) -> Result<(), Fail> {
    for (parts, want) in ZEROS {
        let text = with_many_between(rt.alloc(), b'0', parts)?;
        assert_bytes(&rt, &written(rt.alloc(), &text)?, want);
    }
    Ok(())
}

/// A byte and the parts that it is between, and the line and the kind of the fault.
static FAULTS: &[(u8, &[&[u8]], u64, Kind)] = rows! {
    (b'0', &[b"goods 2\nbids 1\ndummy 0\n0 0.", b"1 0 #"], 4, TooFine),
    (b'9', &[b"goods ", b"\n"], 1, TooLarge),
    (b'9', &[b"goods 1\nbids ", b"\n"], 2, TooLarge),
    (b'9', &[b"goods 1\nbids 1\ndummy ", b"\n"], 3, TooLarge),
    (b'9', &[b"", b" 1\n"], 1, Header),
    (b'9', &[b"goods", b" 1\n"], 1, Header),
    (b'9', &[b"goods 2\nbids 1\ndummy 0\n0 ", b" 0 #\n"], 4, TooLarge),
    (b'9', &[b"goods 2\nbids 1\ndummy 0\n0 ", b".5 0 #\n"], 4, TooLarge),
    (b'9', &[b"goods 2\nbids 1\ndummy 0\n0 1.", b" 0 #\n"], 4, TooFine),
    (b'9', &[b"goods 2\nbids 1\ndummy 0\n0 1 ", b" #\n"], 4, GoodRange),
    (b'9', &[b"goods 2\nbids 1\ndummy 0\n", b" 1 0 #\n"], 4, BidNumber),
    (b'9', &[b"goods 2\nbids 1\ndummy 0\n0 1 0 #", b"\n"], 4, NotANumber),
    (b'9', &[b"goods 2\nbids 1\ndummy 0\n0 1 0 # ", b"\n"], 4, AfterEnd),
    (b'x', &[b"goods 1\nbids ", b"\r\n"], 2, NotANumber),
    (b' ', &[b"", b"\n\tgoods", b"x"], 2, NotANumber),
    (b'\n', &[b"", b"x\n"], 1_000_001, Header),
    (b'\n', &[b"goods 1\nbids 1\ndummy 0", b"0 1 0\n"], 1_000_003, NoEnd),
    (b'%', &[b"", b"\nx\n"], 2, Header),
};

#[test]
fn long_runs_in_each_place(rt: HostRuntime) -> Result<(), Fail> {
    for (byte, parts, line, kind) in FAULTS {
        let text = with_many_between(rt.alloc(), *byte, parts)?;
        let want = fault(*line, *kind);
        assert_eq!(rt; fault_of(rt.alloc(), &text), want, "{parts:?}");
    }
    Ok(())
}

#[test]
fn comments_of_each_length(rt: HostRuntime) -> Result<(), Fail> {
    for count in 1..=200 {
        let mut text = many(rt.alloc(), b'%', count)?;
        text.extend_from_slice(b"\nx\n")?;
        assert_eq!(rt;
            fault_of(rt.alloc(), &text),
            fault(2, Header),
            "{count} bytes"
        );
    }
    Ok(())
}
