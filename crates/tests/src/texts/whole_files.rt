//! Files that are accepted, and how they are written.

use super::{assert_bytes, assert_outcome, assert_sizes, assert_written, sizes};
use bid_file::{Bid, PackedBids, PackedFile};
use cats_text::packed::check;
use cats_text::{Kind, MAX_STREAM, ReadFault, Reader, Watched, read, read_from, send};
use std::alloc::Global;
use std::process::Abort;
use std::test::Fail;

/// Another text of the file "goods 2, bids 1, dummy 0, bid 0 of price 5 on the goods 0 and 1".
const LENIENT: &[u8] =
    b"%% \xff\xe9\r\n\r\n \t% note\ngoods\t002\r\nbids  1 \r\n dummy 0\r\n\r\n00 0005 1 0 #\r";

/// As CATS lays a file out.
pub const CATS: &[u8] =
    b"%% a comment\n\ngoods 3\nbids 2\ndummy 1\n\n0\t20\t0\t2\t3\t#\n1\t7\t1\t#\n";

/// What is written of its file.
const WRITTEN_CATS: &[u8] = b"goods 3\nbids 2\ndummy 1\n0\t20\t0\t2\t3\t#\n1\t7\t1\t#\n";

/// Texts, and what is written of their files.
static ACCEPTED: &[(&[u8], &[u8])] = rows! {
    (b"goods 0\nbids 0\ndummy 0\n", b"goods 0\nbids 0\ndummy 0\n"),
    (b"goods 0\nbids 0\ndummy 0", b"goods 0\nbids 0\ndummy 0\n"),
    (LENIENT, b"goods 2\nbids 1\ndummy 0\n0\t5\t0\t1\t#\n"),
    (CATS, WRITTEN_CATS),
    (WRITTEN_CATS, WRITTEN_CATS),
    (b"goods 1\nbids 3\ndummy 0\n2\t1\t0\t#\n0\t3\t0\t#\n1\t2\t0\t#\n",
     b"goods 1\nbids 3\ndummy 0\n0\t3\t0\t#\n1\t2\t0\t#\n2\t1\t0\t#\n"),
    (b"goods 2\nbids 1\ndummy 0\n0\t1\t0\t#\n% a comment after the bids\n", b"goods 2\nbids 1\ndummy 0\n0\t1\t0\t#\n"),
    (b"goods 2\nbids 0\ndummy 3\n", b"goods 2\nbids 0\ndummy 3\n"),
    (b"goods 3\nbids 1\ndummy 2\n0 1 4 2 0 #\n", b"goods 3\nbids 1\ndummy 2\n0\t1\t0\t2\t4\t#\n"),
    (b"goods 2\nbids 3\ndummy 0\n0\t3\t0\t#\n1\t4\t1\t#\n2\t7\t0\t1\t#\n",
     b"goods 2\nbids 3\ndummy 0\n0\t3\t0\t#\n1\t4\t1\t#\n2\t7\t0\t1\t#\n"),
    (b"goods 2\nbids 4\ndummy 0\n0\t8\t0\t1\t#\n1\t3\t0\t#\n2\t4\t1\t#\n3\t8\t0\t1\t#\n",
     b"goods 2\nbids 4\ndummy 0\n0\t8\t0\t1\t#\n1\t3\t0\t#\n2\t4\t1\t#\n3\t8\t0\t1\t#\n"),
    (b"goods 2\nbids 3\ndummy 1\n0\t5\t0\t2\t#\n1\t5\t0\t1\t2\t#\n2\t6\t0\t1\t2\t#\n",
     b"goods 2\nbids 3\ndummy 1\n0\t5\t0\t2\t#\n1\t5\t0\t1\t2\t#\n2\t6\t0\t1\t2\t#\n"),
    (b"goods 2\nbids 2\ndummy 2\n0\t0\t0\t2\t#\n1\t2\t1\t3\t#\n",
     b"goods 2\nbids 2\ndummy 2\n0\t0\t0\t2\t#\n1\t2\t1\t3\t#\n"),
    (b"goods 2\nbids 3\ndummy 0\n0 1.50 0 #\n1 02.25 1 #\n2 3.75 0 1 #\n",
     b"goods 2\nbids 3\ndummy 0\n0\t1.5\t0\t#\n1\t2.25\t1\t#\n2\t3.75\t0\t1\t#\n"),
    (b"goods 1024\nbids 1\ndummy 0\n0\t1000000000000\t1023\t#\n",
     b"goods 1024\nbids 1\ndummy 0\n0\t1000000000000\t1023\t#\n"),
    (b"goods 4096\nbids 1\ndummy 0\n0\t1\t4095\t#\n", b"goods 4096\nbids 1\ndummy 0\n0\t1\t4095\t#\n"),
    (b"goods 4096\nbids 1\ndummy 65536\n0\t1\t4095\t69631\t#\n", b"goods 4096\nbids 1\ndummy 65536\n0\t1\t4095\t69631\t#\n"),
    (b"goods 4096\nbids 1\ndummy 65536\n0\t1\t0\t65536\t#\n", b"goods 4096\nbids 1\ndummy 65536\n0\t1\t0\t65536\t#\n"),
    (b"goods 4096\nbids 0\ndummy 65536\n", b"goods 4096\nbids 0\ndummy 65536\n"),
    (b"goods 1025\nbids 0\ndummy 0\n", b"goods 1025\nbids 0\ndummy 0\n"),
};

#[test]
fn accepted_texts_as_they_are_written(rt: HostRuntime) -> Result<(), Fail> {
    for (text, want) in ACCEPTED {
        let outcome = Ok(Vec::from_slice(rt.alloc(), want)?);
        assert_outcome(&rt, rt.alloc(), text, &outcome)?;
        assert_outcome(&rt, rt.alloc(), want, &outcome)?;
    }
    Ok(())
}

/// Texts, and their numbers of goods, bids and dummies.
static SIZES: &[(&[u8], (u16, usize, u32))] = rows! {
    (b"goods 0\nbids 0\ndummy 0\n", (0, 0, 0)),
    (LENIENT, (2, 1, 0)),
    (CATS, (3, 2, 1)),
    (b"goods 1025\nbids 0\ndummy 0\n", (1_025, 0, 0)),
};

/// The numbers that the header lines of a text say, if all of it is a bid file.
fn checked(alloc: Global, text: &[u8]) -> Result<(u16, usize, u32), ReadFault> {
    let header = check(alloc, text)?;
    Ok((header.goods, header.bids as usize, header.dummy))
}

/// By files, and by checks.
#[test]
fn sizes_of_texts(rt: HostRuntime) {
    for (text, want) in SIZES {
        assert_eq!(rt; sizes(rt.alloc(), text), Ok(*want), "of {text:?}");
        assert_eq!(rt; checked(rt.alloc(), text), Ok(*want), "of {text:?}");
    }
    let (line, kind) = (4, Kind::GoodRange);
    let text = b"goods 1\nbids 1\ndummy 0\n0 5 1 #\n";
    assert_eq!(rt; checked(rt.alloc(), text), Err(ReadFault { line, kind }));
}

/// The price, the goods and the dummy good of a bid.
type BidRow = (u64, &'static [u16], Option<u32>);

/// The bids of `CATS`.
static BIDS: &[BidRow] = rows! {
    (20_000_000, &[0, 2], Some(0)),
    (7_000_000, &[1], None),
};

fn assert_bid(rt: &impl Abort, bid: &Bid, want: &BidRow) {
    assert_eq!(rt; (bid.price, bid.goods.as_slice(), bid.dummy), *want);
}

#[test]
fn bids_as_values(rt: HostRuntime) -> Result<(), Fail> {
    let file = read(rt.alloc(), CATS)?;
    let bids = file.bids();
    assert_eq!(rt; bids.len(), BIDS.len());
    for (place, want) in BIDS.iter().enumerate() {
        assert_bid(&rt, &bids[place], want);
    }
    Ok(())
}

#[test]
fn pieces_and_streams(rt: HostRuntime) -> Result<(), Fail> {
    let mut reader = Reader::new(rt.alloc(), MAX_STREAM);
    reader.feed(CATS)?;
    assert_sizes(&rt, &reader.finish()?, (3, 2, 1));
    let mut input = Watched::new(CATS);
    assert_sizes(&rt, &read_from(rt.alloc(), &mut input)?, (3, 2, 1));
    assert!(rt; input.ended() && !input.failed() && input.into_inner().is_empty());
    let mut out = Watched::new(Vec::new(rt.alloc()));
    send(&mut out, CATS)?;
    assert_bytes(&rt, &out.into_inner(), CATS);
    Ok(())
}

#[test]
fn makes_a_packed_file(rt: HostRuntime) -> Result<(), Fail> {
    let alloc = rt.alloc();
    let mut bids = PackedBids::new(alloc);
    bids.reserve(2)?;
    bids.push(20_000_000, &[0, 2], Some(0))?;
    bids.push(7_000_000, &[1], None)?;
    assert_eq!(rt; bids.len(), 2);
    let (price, goods, dummy) = bids.at(1);
    assert_eq!(rt; (price, goods.len(), dummy), (7_000_000, 1, None));
    let file = PackedFile::new(3, 1, bids);
    assert_sizes(&rt, &file, (3, 2, 1));
    assert_written(&rt, alloc, &file, WRITTEN_CATS)
}
