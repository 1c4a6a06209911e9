//! Files whose text is known, written.

ghost use Rattle.std.specs.Prelude.{◌≡◌, IfOk};
ghost use Rattle.bid_file.specs.Files.{plain_bid};

use super::{assert_bytes, assert_sizes, assert_written};
use bid_file::{Bid, BidFile};
use cats_text::packed::read_packed;
use cats_text::price::push_price;
use std::alloc::{AllocError, Global};
use std::test::Fail;

fn bid(alloc: Global, price: u64, goods: &[u16], dummy: Option<u32>) -> Result<Bid, AllocError>
    ensures { IfOk result (λ b. plain_bid b ≡ record { price = price; goods = goods.now; dummy = dummy }) }
{
    let goods = Vec::from_slice(alloc, goods)?;
    Ok(Bid {
        price,
        goods,
        dummy,
    })
}

#[test]
fn minimal_file(rt: HostRuntime) -> Result<(), Fail> {
    let file = BidFile::new(0, 0, Vec::new(rt.alloc()));
    assert_sizes(&rt, &file, (0, 0, 0));
    assert_written(&rt, rt.alloc(), &file, b"goods 0\nbids 0\ndummy 0\n")
}

#[test]
fn cats_layout(rt: HostRuntime) -> Result<(), Fail> {
    let mut bids = Vec::new(rt.alloc());
    bids.push(bid(rt.alloc(), 20_000_000, &[0, 2], Some(0))?)?;
    bids.push(bid(rt.alloc(), 7_500_000, &[1], None)?)?;
    let file = BidFile::new(3, 1, bids);
    let want = b"goods 3\nbids 2\ndummy 1\n0\t20\t0\t2\t3\t#\n1\t7.5\t1\t#\n";
    assert_written(&rt, rt.alloc(), &file, want)?;
    assert_written(&rt, rt.alloc(), &read_packed(rt.alloc(), want)?, want)
}

#[test]
fn prices_and_sums(rt: HostRuntime) -> Result<(), Fail> {
    let prices = [
        (3_750_000, "3.75"),
        (3_750_001, "3.750001"),
        (1_500_000, "1.5"),
        (2_250_000, "2.25"),
        (10, "0.00001"),
        (19_000_000_000_000_000_000, "19000000000000"),
    ];
    for (millionths, want) in prices {
        let mut out = Vec::new(rt.alloc());
        push_price(&mut out, millionths)?;
        assert_bytes(&rt, &out, want.as_bytes());
    }
    Ok(())
}
