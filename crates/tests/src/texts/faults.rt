//! Texts that are refused, and their first faults.

use super::{assert_outcome, joined};
use cats_text::Kind::{
    AfterEnd, BidNumber, EmptyBundle, ExtraBid, GoodRange, Header, Missing, NoEnd, NotANumber,
    RepeatedGood, RepeatedNumber, TooFine, TooLarge, TwoDummies,
};
use cats_text::{Kind, ReadFault, SendFault};
use std::alloc::{AllocError, Global};
use std::process::Abort;
use std::test::Fail;

/// Texts, and the lines and kinds of their faults: in the header, behind other headers and bids, and where a number is above
/// its limit, or is at it.
static TEXTS: &[(&[u8], u64, Kind)] = rows! {
    (b"goods\n", 1, Header),
    (b"Goods 2\n", 1, Header),
    (b"goods 2x\n", 1, NotANumber),
    (b"goods 2 3\n", 1, Header),
    (b"goods 1025 x\n", 1, Header),
    (b"goods 4097 x\n", 1, TooLarge),
    (b"bids 1\n", 1, Header),
    (b"% only a comment\n", 2, Missing),
    (b"", 1, Missing),
    (b"goods 0", 2, Missing),
    (b"x y z 1", 1, Header),
    (b"good 1\n", 1, Header),
    (b"goodss 1\n", 1, Header),
    (b"goods# 1\n", 1, Header),
    (b"goods +1\n", 1, NotANumber),
    (b"goods 1.0\n", 1, NotANumber),
    (b"goods #\n", 1, NotANumber),
    (b"goods goods\n", 1, NotANumber),
    (b"goods 1 #\n", 1, Header),
    (b"goods 1\ngoods 1\n", 2, Header),
    (b"goods 1\nbids\n", 2, Header),
    (b"goods 1\nbids 65537\n", 2, TooLarge),
    (b"goods 1\nbids 1\nbids 1\n", 3, Header),
    (b"goods 1\nbids 1\ndummy 65537\n", 3, TooLarge),
    (b"goods 1\nbids 1\ndummy -1\n", 3, NotANumber),
    (b"\n% c\n\ngoods 1\n\nbids x\n", 6, NotANumber),
    (b"\xef\xbb\xbfgoods 1\n", 1, Header),
    (b"goods 1\nbids 1\ndummy 1\n0 1 1 #\n", 4, EmptyBundle),
    (b"goods 1\nbids 1\ndummy 2\n0 1 0 1 2 #\n", 4, TwoDummies),
    (b"goods 1\nbids 1\ndummy 2\n0 1 0 1 1 #\n", 4, RepeatedGood),
    (b"goods 1\nbids 1\ndummy 2\n0 1 1 2 #\n", 4, TwoDummies),
    (b"goods 1\nbids 1\ndummy 2\n0 1 0 3 #\n", 4, GoodRange),
    (b"goods 0\nbids 1\ndummy 1\n0 1 0 #\n", 4, EmptyBundle),
    (b"goods 2\nbids 2\ndummy 2\n0\t1\t0\t2\t#\n1\t1\t1\t2\t3\t#\n", 5, TwoDummies),
    (b"goods 2\nbids 2\ndummy 2\n0\t1\t0\t2\t#\n1\t1\t1\t2\t2\t#\n", 5, RepeatedGood),
    (b"goods 2\nbids 1\ndummy 0\n0\t1\t0\t#\n0 1 0 #\n", 5, ExtraBid),
    (b"goods 2\nbids 1\ndummy 0\n0\t1\t0\t#\nx\n", 5, NotANumber),
    (b"goods 2\nbids 2\ndummy 0\n0\t1\t0\t#\n0 1 1 #\n", 5, RepeatedNumber),
    (b"goods 1\nbids 3\ndummy 0\n0\t1\t0\t#\n0\t3\t0\t#\n1\t2\t0\t#\n", 5, RepeatedNumber),
    (b"goods 1\nbids 3\ndummy 0\n2\t1\t0\t#\n0\t3\t0\t#\n2\t2\t0\t#\n", 6, RepeatedNumber),
    (b"goods 2\nbids 0\ndummy 3\n0 1 0 #\n", 4, ExtraBid),
    (b"goods 2\nbids 0\ndummy 3\n5 1 0 #\n", 4, ExtraBid),
    (b"goods 2\nbids 0\ndummy 3\n0 1 0 #", 4, ExtraBid),
    (b"goods 1\nbids 1\ndummy 0\n", 4, Missing),
    (b"goods 1\nbids 3\ndummy 0\n0\t5\t0\t#\n1\t5\t0\t#\n2 5 0", 6, NoEnd),
    (b"goods 1\nbids 3\ndummy 0\n0\t5\t0\t#\n1\t5\t0\t#\n", 6, Missing),
    (b"goods 1\nbids 3\ndummy 0\n0\t5\t0\t#\n1\t5\t0\t#\n%", 7, Missing),
    (b"goods 1\nbids 3\ndummy 0\n0\t5\t0\t#\n1\t5\t0\t#\n\r", 7, Missing),
    (b"goods 1\nbids 1\ndummy 0\n\r%\n0 5 0 #\n", 4, NotANumber),
    (b"goods 1024\nbids 1\ndummy 0\n0\t1000000000001\t1023\t#\n", 4, TooLarge),
    (b"goods 1024\nbids 1\ndummy 0\n0\t1000000000000\t1024\t#\n", 4, GoodRange),
    (b"goods 4097\nbids 0\ndummy 0\n", 1, TooLarge),
    (b"goods 0\nbids 65537\ndummy 0\n", 2, TooLarge),
    (b"goods 0\nbids 65536\ndummy 65537\n", 3, TooLarge),
    (b"goods 4096\nbids 1\ndummy 65536\n0\t1\t4095\t69632\t#\n", 4, GoodRange),
    (b"goods 1024\nbids 65536\ndummy 65536\n", 4, Missing),
    (b"goods 4096\nbids 65536\ndummy 65536\n", 4, Missing),
    (b"goods 4096\nbids 65536\ndummy 0\n65535 1 0 #\n65536 1 0 #\n", 5, BidNumber),
};

/// Fourth lines behind the header of two goods and one bid, and the kinds of their faults.
static BID_LINES: &[(&[u8], Kind)] = rows! {
    (b"x 1 0 #", NotANumber),
    (b"1 1 0 #", BidNumber),
    (b"0 .5 0 #", NotANumber),
    (b"0 5. 0 #", NotANumber),
    (b"0 -1 0 #", NotANumber),
    (b"0 1e3 0 #", NotANumber),
    (b"0 1 2 2 #", GoodRange),
    (b"0 1 0 00 #", RepeatedGood),
    (b"0 1 #", EmptyBundle),
    (b"0 1 0#", NotANumber),
    (b"0 1 0 # 1", AfterEnd),
    (b"0 1 0", NoEnd),
    (b"0", NoEnd),
    (b"0 #", NotANumber),
    (b"0 0.1234567 0 #", TooFine),
    (b"0 1000000000000.0000001 0 #", TooLarge),
    (b"0 1.2.3 0 #", NotANumber),
    (b"0 1000000000001 0 #", TooLarge),
    (b"0 1000000000000.000001 0 #", TooLarge),
    (b"0 1000000000001.0000001 0 #", TooLarge),
    (b"0 999999999999.9999999 0 #", TooFine),
    (b"0 1. 0 #", NotANumber),
    (b"0 . 0 #", NotANumber),
    (b"0 0.12345x 0 #", NotANumber),
    (b"0 +1 0 #", NotANumber),
    (b"0 1,5 0 #", NotANumber),
    (b"0 1", NoEnd),
    (b"0.0 1 0 #", NotANumber),
    (b"# 1 0 #", NotANumber),
    (b"0 1 0.0 #", NotANumber),
    (b"0 1 -0 #", NotANumber),
    (b"0 1 goods #", NotANumber),
    (b"0 1 ## #", NotANumber),
    (b"0 1 0 %", NotANumber),
    (b"0 1 0 # %", AfterEnd),
    (b"0 1 0 # #", AfterEnd),
    (b"0 1 0 1 0 #", RepeatedGood),
    (b"0 1 0\r #", NotANumber),
};

/// Asserts that a text is refused, by each way of reading it.
fn assert_refused(
    rt: &impl Abort,
    alloc: Global,
    text: &[u8],
    line: u64,
    kind: Kind,
) -> Result<(), AllocError> {
    assert_outcome(rt, alloc, text, &Err(ReadFault { line, kind }))
}

#[test]
fn faults_of_texts(rt: HostRuntime) -> Result<(), Fail> {
    for (text, line, kind) in TEXTS {
        assert_refused(&rt, rt.alloc(), text, *line, *kind)?;
    }
    for (line, kind) in BID_LINES {
        let text = joined(rt.alloc(), &[b"goods 2\nbids 1\ndummy 0\n", line, b"\n"])?;
        assert_refused(&rt, rt.alloc(), &text, 4, *kind)?;
    }
    Ok(())
}

#[test]
fn faults_as_text(rt: HostRuntime) -> Result<(), Fail> {
    let fault = ReadFault {
        line: 5,
        kind: TwoDummies,
    };
    assert_eq!(rt; fault.to_string(rt.alloc())?.as_str(), "line 5: TwoDummies");
    let fault = SendFault { written: 5 };
    assert_eq!(rt;
        fault.to_string(rt.alloc())?.as_str(),
        "the writer failed after 5 bytes"
    );
    Ok(())
}
