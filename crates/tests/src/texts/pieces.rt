//! Texts that come in pieces.

ghost use Rattle.std.specs.Prelude.{◌<◌, ◌^◌};

use super::whole_files::CATS;
use super::{fault, fault_of, many, outcome_of_bytes};
use cats_text::Kind::{Header, Missing, NoEnd};
use cats_text::{Kind, MAX_STREAM, ReadFault, Reader};
use std::alloc::{AllocError, Global};
use std::process::Abort;
use std::test::Fail;

/// The least and the greatest of some numbers of first bytes of `CATS`, and the line and the kind of their fault.
static FIRST_BYTES: &[(usize, usize, Option<(u64, Kind)>)] = rows! {
    (0, 0, Some((1, Missing))),
    (1, 13, Some((2, Missing))),
    (14, 14, Some((3, Missing))),
    (15, 20, Some((3, Header))),
    (21, 22, Some((4, Missing))),
    (23, 27, Some((4, Header))),
    (28, 29, Some((5, Missing))),
    (30, 35, Some((5, Header))),
    (36, 37, Some((6, Missing))),
    (38, 38, Some((7, Missing))),
    (39, 49, Some((7, NoEnd))),
    (50, 51, Some((8, Missing))),
    (52, 57, Some((8, NoEnd))),
    (58, 59, None),
};

/// Asserts the fault of so many bytes.
fn assert_fault_of_bytes(
    rt: &impl Abort,
    reported: Option<ReadFault>,
    want: Option<ReadFault>,
    count: usize,
) {
    assert_eq!(rt; reported, want, "{count} bytes");
}

/// Asserts the fault of so many first bytes of `CATS`: whole, and byte by byte.
fn assert_first_bytes(
    rt: &impl Abort,
    alloc: Global,
    count: usize,
    want: Option<ReadFault>,
) -> Result<(), Fail> {
    let text = CATS.get(..count).ok_or("too short")?;
    assert_fault_of_bytes(rt, fault_of(alloc, text), want, count);
    let reported = outcome_of_bytes(alloc, text)?.err();
    assert_fault_of_bytes(rt, reported, want, count);
    Ok(())
}

#[test]
fn first_bytes_of_a_file(rt: HostRuntime) -> Result<(), Fail> {
    for (least, greatest, want) in FIRST_BYTES {
        let want = match want {
            Some((line, kind)) => fault(*line, *kind),
            None => None,
        };
        for count in *least..=*greatest {
            assert_first_bytes(&rt, rt.alloc(), count, want)?;
        }
    }
    Ok(())
}

#[test]
fn fault_reported_once_it_is_complete(rt: HostRuntime) -> Result<(), Fail> {
    let text = b"goods 2\nbids 2\ndummy 2\n0\t1\t0\t2\t#\n1\t1\t1\t2\t3\t#\n";
    let two_dummies = fault(5, Kind::TwoDummies);
    for count in 0..=45 {
        let piece = text.get(..count).ok_or("too short")?;
        let reported = Reader::new(rt.alloc(), MAX_STREAM).feed(piece).err();
        let want = if count < 43 { None } else { two_dummies };
        assert_fault_of_bytes(&rt, reported, want, count);
    }
    Ok(())
}

const NOT_A_NUMBER: Option<ReadFault> = Some(ReadFault {
    line: 1,
    kind: Kind::NotANumber,
});

const HEADER: Option<ReadFault> = Some(ReadFault {
    line: 1,
    kind: Kind::Header,
});

const MISSING_1: Option<ReadFault> = Some(ReadFault {
    line: 1,
    kind: Kind::Missing,
});

const MISSING_2: Option<ReadFault> = Some(ReadFault {
    line: 2,
    kind: Kind::Missing,
});

const TOO_LONG: Option<ReadFault> = Some(ReadFault {
    line: 0,
    kind: Kind::TooLong,
});

/// A limit and pieces, and what a reader answers to each and at the end.
type Answers = (
    u64,
    &'static [&'static [u8]],
    &'static [Option<ReadFault>],
    Option<ReadFault>,
);

/// Carriage returns wait for the byte behind them; limits, faults and ends.
static ANSWERS: &[Answers] = rows! {
    (MAX_STREAM, &[b"goods 0\r", b"\nbids 0\ndummy 0\n"], &[None, None], None),
    (MAX_STREAM, &[b"goods 0\r", b"1", b"\n"], &[None, None, NOT_A_NUMBER], NOT_A_NUMBER),
    (MAX_STREAM, &[b"\r%", b" "], &[None, HEADER], HEADER),
    (MAX_STREAM, &[b"\r", b"%", b"\n"], &[None, None, HEADER], HEADER),
    (MAX_STREAM, &[b"\r", b"\r", b"\n"], &[None, None, HEADER], HEADER),
    (MAX_STREAM, &[b"\r", b"", b"\n"], &[None, None, None], MISSING_2),
    (MAX_STREAM, &[b"\r"], &[None], MISSING_2),
    (MAX_STREAM, &[b"x\r"], &[None], HEADER),
    (MAX_STREAM, &[b"x\r", b"\n"], &[None, HEADER], HEADER),
    (4, &[b"goods 0\n"], &[TOO_LONG], TOO_LONG),
    (6, &[b"x y z 1", b"goods"], &[HEADER, HEADER], HEADER),
    (6, &[b"x y z 1", b""], &[HEADER, HEADER], HEADER),
    (8, &[b"goods 0\n", b"", b"b"], &[None, None, TOO_LONG], TOO_LONG),
    (8, &[b"goods 0\n", b"b", b""], &[None, TOO_LONG, TOO_LONG], TOO_LONG),
    (1, &[b"x "], &[TOO_LONG], TOO_LONG),
    (2, &[b"x "], &[HEADER], HEADER),
    (0, &[b""], &[None], MISSING_1),
    (0, &[b"\n"], &[TOO_LONG], TOO_LONG),
    (MAX_STREAM, &[], &[], MISSING_1),
    (MAX_STREAM, &[b"goods 0"], &[None], MISSING_2),
    (23, &[b"goods 0\nbids 0\ndummy 0\n"], &[None], None),
};

/// What a reader of this limit answers to each piece and at the end.
fn answers(
    alloc: Global,
    limit: u64,
    pieces: &[&[u8]],
) -> Result<(Vec<Option<ReadFault>>, Option<ReadFault>), AllocError>
    requires { limit < 2 ^ 63 }
{
    let mut reader = Reader::new(alloc, limit);
    let mut reported = Vec::new(alloc);
    for piece in pieces {
        reported.push(reader.feed(piece).err())?;
    }
    Ok((reported, reader.finish().err()))
}

/// Asserts what was reported of pieces.
fn assert_reported(
    rt: &impl Abort,
    reported: &[Option<ReadFault>],
    want: &[Option<ReadFault>],
    pieces: &[&[u8]],
) {
    assert_eq!(rt; reported, want, "{pieces:?}");
}

#[test]
fn answers_to_each_piece_and_at_the_end(rt: HostRuntime) -> Result<(), Fail> {
    for (limit, pieces, want, end) in ANSWERS {
        let (reported, last) = answers(rt.alloc(), (*limit).min(MAX_STREAM), pieces)?;
        assert_reported(&rt, &reported, want, pieces);
        assert_reported(&rt, &[last], &[*end], pieces);
    }
    Ok(())
}

/// Asserts that a stream is too long.
fn assert_too_long(rt: &impl Abort, reported: Option<ReadFault>) {
    assert_eq!(rt; reported, fault(0, Kind::TooLong));
}

#[test]
fn endless_comment_is_too_long(rt: HostRuntime) -> Result<(), Fail> {
    let piece = many(rt.alloc(), b'%', 4_096)?;
    let mut reader = Reader::new(rt.alloc(), 1_000_000);
    for _ in 0..244 {
        reader.feed(&piece)?;
    }
    for _ in 245..300 {
        assert_too_long(&rt, reader.feed(&piece).err());
    }
    assert_too_long(&rt, reader.finish().err());
    Ok(())
}
