//! What reading a stream answers that fails, ends, or gives byte by byte.

use super::{ByteReader, reader};
use bid_file::{BidFile, PackedFile};
use cats_text::packed::{Header, check_from, read_packed_from};
use cats_text::{Kind, MAX_STREAM, ReadFault, Watched, read_from};
use std::io;
use std::io::ErrorKind::{self, BrokenPipe, Interrupted, Other};
use std::io::Read;
use std::process::Abort;

/// The sizes of a file, or the fault.
type Sizes = Result<(u16, usize, u32), ReadFault>;

/// A text, and where and how its reader fails; what reading it answers; whether the reader has ended, and has failed,
/// afterwards; and how many reads reach it.
type Stream = (
    &'static [u8],
    Option<usize>,
    ErrorKind,
    Sizes,
    bool,
    bool,
    u64,
);

const DEVICE: ReadFault = ReadFault {
    line: 0,
    kind: Kind::Device,
};

const HEADER: ReadFault = ReadFault {
    line: 1,
    kind: Kind::Header,
};

const REPEATED: ReadFault = ReadFault {
    line: 5,
    kind: Kind::RepeatedNumber,
};

static STREAMS: &[Stream] = rows! {
    (b"goods 3\nbids 2\ndummy 1\n1 1 0 2 #\n0 2.5 1 0 3 #\n", None, Other, Ok((3, 2, 1)), true, false, 48),
    (b"goods 3\nbids 2\ndummy 0\n1 1 0 #\n1 2 1 #\n", None, Other, Err(REPEATED), false, false, 33),
    (b"goods 3\nbids 0\ndummy 1\n", None, Other, Ok((3, 0, 1)), true, false, 24),
    (b"x y", None, Other, Err(HEADER), false, false, 2),
    (b"goods 0\nbids 0\n", Some(8), BrokenPipe, Err(DEVICE), false, true, 9),
    (b"goods 0\nbids 0\n", Some(8), Interrupted, Err(DEVICE), false, true, 9),
    (b"Goods 0\n", Some(8), BrokenPipe, Err(HEADER), false, false, 6),
};

/// The sizes of the file, or the fault.
fn sizes(answer: Result<BidFile, ReadFault>) -> Sizes {
    let file = answer?;
    Ok((file.goods(), file.bids().len(), file.dummy()))
}

/// The same of a packed file.
fn packed_sizes(answer: Result<PackedFile, ReadFault>) -> Sizes {
    let file = answer?;
    Ok((file.goods(), file.bids().len(), file.dummy()))
}

/// What the header lines said, or the fault.
fn header_sizes(answer: Result<Header, ReadFault>) -> Sizes {
    let header = answer?;
    Ok((header.goods, header.bids as usize, header.dummy))
}

/// Asserts what a way of reading answered, and how it left the reader.
fn assert_read(rt: &impl Abort, stream: &Stream, answer: Sizes, input: Watched<ByteReader<'_>>) {
    let (text, _, _, sizes, ended, failed, calls) = *stream;
    let left = (input.ended(), input.failed(), input.into_inner().calls);
    assert!(rt;
        answer == sizes && left == (ended, failed, calls),
        "of {text:?}"
    );
}

#[test]
fn reads_until_a_fault_or_the_end(rt: HostRuntime) {
    let alloc = rt.alloc();
    for stream in STREAMS {
        let (text, cut, kind, ..) = *stream;
        let mut input = reader(text, cut, kind);
        let answer = sizes(read_from(alloc, &mut input));
        assert_read(&rt, stream, answer, input);
        let mut input = reader(text, cut, kind);
        let answer = packed_sizes(read_packed_from(alloc, &mut input));
        assert_read(&rt, stream, answer, input);
        let mut input = reader(text, cut, kind);
        let answer = header_sizes(check_from(alloc, &mut input));
        assert_read(&rt, stream, answer, input);
    }
}

/// Gives a comment in each piece, and has no end. It counts the calls.
#[derive(Drop)]
struct EndlessReader {
    calls: u64,
}

impl Read for EndlessReader {
    fn read(&mut self, piece: &mut [u8]) -> io::Result<usize> {
        self.calls = self.calls.saturating_add(1);
        piece.fill(b'%');
        if let Some(last) = piece.last_mut() {
            *last = b'\n';
        }
        Ok(piece.len())
    }
}

#[test]
fn endless_stream_is_too_long(rt: HostRuntime) {
    let mut input = Watched::new(EndlessReader { calls: 0 });
    let answer = read_from(rt.alloc(), &mut input).err();
    let (line, kind) = (0, Kind::TooLong);
    assert_eq!(rt; answer, Some(ReadFault { line, kind }));
    assert!(rt; !input.ended());
    assert_eq!(rt; input.into_inner().calls, MAX_STREAM / 16_384 + 1);
}
