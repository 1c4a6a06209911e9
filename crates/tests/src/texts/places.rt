//! Where the first fault of a text is.

use cats_text::Kind;
use cats_text::Kind::{AfterEnd, Header, Missing, NoEnd, NotANumber, RepeatedGood, TooFine};
use cats_text::fault_finder::{FaultFinder, FaultLine};
use cats_text::fault_place::place_of_fault;
use std::alloc::{AllocError, Global};
use std::test::Fail;

/// Texts with a fault, and its line, its word, the bytes of the word, and its kind.
static TEXTS: &[(&[u8], u64, u64, &[u8], Kind)] = rows! {
    (b"Goods 2\n", 1, 1, b"Goods", Header),
    (b"goods 2 3\n", 1, 3, b"3", Header),
    (b"% x y z\r\n\r\n \t goods\t-1\r\n", 3, 2, b"-1", NotANumber),
    (b"goods 2\nbids 1\ndummy 0\n0\t0.0123456\t0\t#\n", 4, 2, b"0.0123456", TooFine),
    (b"goods 2\nbids 1\ndummy 0\n0 1 0 1 0 #", 4, 5, b"0", RepeatedGood),
    (b"goods 2\nbids 1\ndummy 0\n0 1 0 # 7", 4, 5, b"7", AfterEnd),
    (b"goods 2\nbids 1\ndummy 0\n0 1 0 \r\n", 4, 4, b"", NoEnd),
    (b"goods 2\nbids 1\ndummy 0\n% 0 1 0 #", 5, 1, b"", Missing),
    (b"", 1, 1, b"", Missing),
};

#[test]
fn places_of_faults(rt: HostRuntime) -> Result<(), Fail> {
    for (text, line, word, bytes, kind) in TEXTS {
        let Some(place) = place_of_fault(rt.alloc(), text)? else {
            panic!(&rt; "no fault of {text:?}");
        };
        let found = (place.line, place.word, place.text, place.kind);
        assert_eq!(rt; found, (*line, *word, *bytes, *kind), "of {text:?}");
    }
    let faultless = place_of_fault(rt.alloc(), b"goods 0\nbids 0\ndummy 0\n")?;
    assert!(rt; faultless.is_none());
    Ok(())
}

/// What a finder finds in a text that comes in two pieces, the first of which has this length.
fn found_in_pieces(
    alloc: Global,
    text: &[u8],
    length: usize,
) -> Result<Option<FaultLine>, AllocError> {
    let (first, second) = text.split_at(length.min(text.len()));
    let finder = FaultFinder::new(alloc);
    finder.feed(first)?.feed(second)?.finish()
}

#[test]
fn places_in_pieces(rt: HostRuntime) -> Result<(), Fail> {
    for (text, line, word, _, kind) in TEXTS {
        let lines = text.split(|byte| *byte == b'\n');
        let bytes = lines.skip(*line as usize - 1).next().unwrap_or(b"");
        for length in 0..=text.len() {
            let Some(found) = found_in_pieces(rt.alloc(), text, length)? else {
                panic!(&rt; "no fault of {text:?} after {length} bytes");
            };
            let place = (found.line, found.word, found.bytes.as_slice(), found.kind);
            assert_eq!(rt;
                place,
                (*line, *word, bytes, *kind),
                "of {text:?} after {length} bytes"
            );
        }
    }
    let faultless = found_in_pieces(rt.alloc(), b"goods 0\nbids 0\ndummy 0\n", 1)?;
    assert!(rt; faultless.is_none());
    Ok(())
}
