//! What sending a text or a file answers to a writer that fails, or takes few bytes.

ghost use Rattle.std.specs.Prelude.{◌≡◌, false};
ghost use Rattle.cats_text.specs.Streams.{has_failed};

use super::{BROKEN, Full, StepWriter, writer};
use crate::texts::assert_bytes;
use bid_file::PackedFile;
use cats_text::packed::{read_packed_from, send_file};
use cats_text::{SendFault, Watched, send};
use std::alloc::{AllocError, Global};
use std::io::ErrorKind;
use std::process::Abort;
use std::test::Fail;

/// Asserts what a writer took of a text: its first bytes, so many or all of them. A flush reaches it once all are written.
fn assert_sent(rt: &impl Abort, inner: &StepWriter, text: &[u8], answer: Result<(), SendFault>) {
    let all = text.len() as u64;
    let written = match answer {
        Ok(()) => all,
        Err(fault) => fault.written,
    };
    let is_right = inner.taken.len() as u64 == written && text.starts_with(&inner.taken);
    assert!(rt;
        is_right && inner.flushes == u64::from(written == all),
        "{written} bytes"
    );
}

/// Asserts what a writer makes of a text that is sent.
fn assert_sends(
    rt: &impl Abort,
    mut out: Watched<StepWriter>,
    text: &[u8],
    want: Result<(), SendFault>,
)
    requires { has_failed out ≡ false }
{
    assert_eq!(rt; send(&mut out, text), want);
    assert_eq!(rt; out.failed(), want.is_err());
    assert_sent(rt, &out.into_inner(), text, want);
}

#[test]
fn sends_the_whole_text_and_flushes_once(rt: HostRuntime) {
    for step in 1..9 {
        let out = writer(rt.alloc(), step, 7, BROKEN, false);
        assert_sends(&rt, out, b"goods 0", Ok(()));
    }
    let out = writer(rt.alloc(), 1, 0, BROKEN, false);
    assert_sends(&rt, out, b"", Ok(()));
}

#[test]
fn counts_what_went_out(rt: HostRuntime) {
    for full in [
        BROKEN,
        Full::Fails(ErrorKind::Interrupted),
        Full::TakesNothing,
    ] {
        for capacity in 0..7 {
            let out = writer(rt.alloc(), 2, capacity, full, false);
            let written = capacity as u64;
            assert_sends(&rt, out, b"goods 0", Err(SendFault { written }));
        }
    }
    let out = writer(rt.alloc(), 2, 9, BROKEN, true);
    assert_sends(&rt, out, b"goods 0", Err(SendFault { written: 7 }));
}

/// The text of a file of so many bids, each on all of 4,096 goods: its lines have some 20,000 bytes.
fn long_text(alloc: Global, bids: u32) -> Result<String, AllocError> {
    let mut text = format!(in alloc; "goods 4096\nbids {bids}\ndummy 0\n")?;
    for number in 0..bids {
        write!(text, "{number}\t7.000001")?;
        for good in 0u32..4096 {
            write!(text, "\t{good}")?;
        }
        text.push_str("\t#\n")?;
    }
    Ok(text)
}

/// Asserts what a writer makes of a file that is sent, whose text this is.
fn assert_sends_file(
    rt: &(impl Abort + AllocGlobal),
    mut out: Watched<StepWriter>,
    file: &PackedFile,
    text: &[u8],
    want: Result<(), SendFault>,
) -> Result<(), Fail>
    requires { has_failed out ≡ false }
{
    assert_eq!(rt; send_file(rt.alloc(), &mut out, file)?, want);
    assert_eq!(rt; out.failed(), want.is_err());
    assert_sent(rt, &out.into_inner(), text, want);
    Ok(())
}

#[test]
fn sends_a_file_in_pages(rt: HostRuntime) -> Result<(), Fail> {
    let text = long_text(rt.alloc(), 9)?;
    let text = text.as_bytes();
    let file = read_packed_from(rt.alloc(), &mut Watched::new(text))?;
    for capacity in [0, 1, 22, 23, 20_000, 65_536, 100_000, 150_000] {
        let out = writer(rt.alloc(), 30_000, capacity, BROKEN, false);
        let written = capacity as u64;
        assert_sends_file(&rt, out, &file, text, Err(SendFault { written }))?;
    }
    let out = writer(rt.alloc(), 30_000, text.len(), BROKEN, false);
    assert_sends_file(&rt, out, &file, text, Ok(()))?;
    let out = writer(rt.alloc(), 30_000, text.len(), BROKEN, true);
    let written = text.len() as u64;
    assert_sends_file(&rt, out, &file, text, Err(SendFault { written }))
}

/// A text, and what is sent of its file: bids in order, in no order, and in order up to one that comes late.
static SENT: &[(&[u8], &[u8])] = rows! {
    (b"goods 3\nbids 2\ndummy 1\n0 1 0 2 #\n1 2.5 1 0 3 #\n",
     b"goods 3\nbids 2\ndummy 1\n0\t1\t0\t2\t#\n1\t2.5\t0\t1\t3\t#\n"),
    (b"goods 3\nbids 2\ndummy 1\n1 1 0 2 #\n0 2.5 3 2 1 #\n",
     b"goods 3\nbids 2\ndummy 1\n0\t2.5\t1\t2\t3\t#\n1\t1\t0\t2\t#\n"),
    (b"goods 3\nbids 4\ndummy 0\n0 1 2 #\n2 3 1 2 #\n1 2 0 #\n3 4 2 1 0 #\n",
     b"goods 3\nbids 4\ndummy 0\n0\t1\t2\t#\n1\t2\t0\t#\n2\t3\t1\t2\t#\n3\t4\t0\t1\t2\t#\n"),
};

#[test]
fn sends_what_was_read(rt: HostRuntime) -> Result<(), Fail> {
    for (text, want) in SENT {
        let file = read_packed_from(rt.alloc(), &mut Watched::new(*text))?;
        let mut out = Watched::new(Vec::new(rt.alloc()));
        send_file(rt.alloc(), &mut out, &file)??;
        assert_bytes(&rt, &out.into_inner(), want);
    }
    Ok(())
}
