//! Prices and their places.

use super::{assert_bytes, joined, written};
use std::test::Fail;

/// Prices as words, and as they are written.
static PRICES: &[(&[u8], &[u8])] = rows! {
    (b"0.12345600", b"0.123456"),
    (b"1000000000000.0000000", b"1000000000000"),
    (b"0.000", b"0"),
    (b"1.50", b"1.5"),
    (b"1.5", b"1.5"),
    (b"02.25", b"2.25"),
    (b"3.75", b"3.75"),
    (b"3.750001", b"3.750001"),
    (b"0005", b"5"),
    (b"1000000000000", b"1000000000000"),
    (b"999999999999.999999", b"999999999999.999999"),
    (b"0.000001", b"0.000001"),
    (b"00000000000000000000.1", b"0.1"),
    (b"0", b"0"),
};

#[test]
fn prices_as_they_are_written(rt: HostRuntime) -> Result<(), Fail> {
    let header = b"goods 2\nbids 1\ndummy 0\n";
    for (price, want) in PRICES {
        let text = joined(rt.alloc(), &[header, b"0 ", price, b" 0 #\n"])?;
        let want = joined(rt.alloc(), &[header, b"0\t", want, b"\t0\t#\n"])?;
        assert_bytes(&rt, &written(rt.alloc(), &text)?, &want);
    }
    Ok(())
}
