//! A call with room for what is printed, and one with too little.

use crate::call::{CallRequest, CallText, cats_call};
use std::test::Fail;

/// A bid of 3 and one of 4.5 on the same good.
static TEXT: &[u8] = b"goods 1\nbids 2\ndummy 0\n0 3 0 #\n1 4.50 0 #\n";

/// Its canonical text.
static CANONICAL: &[u8] = b"goods 1\nbids 1\ndummy 0\n0\t4.5\t0\t#\n";

/// The command `normalise`, by bounded searches.
static NORMALISE: CallRequest<'static> = CallRequest {
    goods: &[],
    bids: &[],
    steps: 1_000,
    total: 0,
    task: 5,
    prices: 0,
    bound: true,
    all: false,
    null: false,
    table: false,
};

#[test]
fn canonical_text(rt: HostRuntime) -> Result<(), Fail> {
    let texts = [CallText {
        bytes: TEXT,
        name: b"",
    }];
    let (mut out, mut err) = ([b'.'; 40], [b'.'; 4]);
    let (mut needed, mut err_needed) = (9, 9);
    let alloc = rt.alloc();
    let status = cats_call(
        alloc,
        &NORMALISE,
        &texts,
        &mut out,
        &mut needed,
        &mut err,
        &mut err_needed,
    );
    assert_eq!(rt; (status, needed, err_needed), (0, CANONICAL.len(), 0));
    assert!(rt; out.starts_with(CANONICAL));
    let status = cats_call(
        alloc,
        &NORMALISE,
        &texts,
        &mut out[..5],
        &mut needed,
        &mut err,
        &mut err_needed,
    );
    assert_eq!(rt; (status, needed, err_needed), (0, CANONICAL.len(), 0));
    assert!(rt; err == *b"....");
    Ok(())
}
