//! `write`: the text of a bid file.

ghost use Rattle.std.specs.Prelude.{
  ◌≡◌,
  ◌+◌,
  ◌*◌,
  ◌++◌,
  ◌∷◌,
  ◌<◌,
  ◌≤◌,
  Some,
  length,
  drop,
  slice_get,
  codes,
  vec_capacity,
  IfOk,
  OnOk,
  decimal,
};
ghost use Rattle.bid_file.specs.Files.{PlainBid, dummy_good};
ghost use Rattle.cats_text.specs.Grammar.{Spells};
ghost use Rattle.cats_text.specs.Layout.{layout, header_text, headers_text, bid_text, bids_text, tabbed, price_text};
ghost use Rattle.cats_text.specs.declared.layout.TheConstants.{NUMBER_AND_PRICE, GOOD, DUMMY, LONGEST_LINE};

use crate::price::write_price;
use bid_file::Bids;
use bid_file::limits::MAX_GOODS;
use itoa::{Buffer, write_digits};
use std::alloc::{AllocError, Global};

/// The text of a file: its header, then its bids in order of number, each with its goods rising and its dummy good
/// last. Words are joined by single tabs in a bid line and by a space in a header line; nothing else is there.
pub fn write<B: Bids>(alloc: Global, file: &B) -> Result<Vec<u8>, AllocError>
    ensures layout { IfOk result (λ out. out.items ≡ layout (B.file file.now)) }
    ensures spells { IfOk result (λ out. Spells out.items (B.file file.now)) }
{
    let mut out = Vec::with_capacity(alloc, buffer_size(file))?;
    push_header(&mut out, file.goods(), file.len(), file.dummy() as usize)?;
    push_bids(&mut out, file)?;
    Ok(out)
}

/// The bytes that the line of any bid has at most.
pub const LONGEST_LINE: usize = LINE + GOOD * MAX_GOODS as usize;

/// The bytes that a header line, or a bid line without its real goods, has at most.
const LINE: usize = 64;

/// The bytes that a number and a price have at most, with the tab between them.
const NUMBER_AND_PRICE: usize = 48;

/// The bytes that a real good has at most, with the tab before it.
const GOOD: usize = 6;

/// The bytes that a dummy good has at most, with the tab before it.
const DUMMY: usize = 11;

/// As many bytes as the text of a file has at most. No file is so large that it saturates.
fn buffer_size<B: Bids>(file: &B) -> usize {
    let mut space = 3 * LINE;
    for number in 0..file.len() {
        let goods = file.at(number).goods.len();
        space = space.saturating_add(goods.saturating_mul(GOOD).saturating_add(LINE));
    }
    space
}

/// Appends the header of a file of so many goods, bids and dummy goods. If memory is refused, some of it may be there.
pub fn push_header(
    out: &mut Vec<u8>,
    goods: u16,
    bids: usize,
    dummy: usize,
) -> Result<(), AllocError>
    ensures text { OnOk result (out.new.items ≡ out.old.items ++ headers_text goods bids dummy) }
    ensures capacity { vec_capacity out.old ≤ vec_capacity out.new }
{
    push_header_line(out, b"goods", u64::from(goods))?;
    push_header_line(out, b"bids", bids as u64)?;
    push_header_line(out, b"dummy", dummy as u64)
}

fn push_header_line(out: &mut Vec<u8>, keyword: &[u8], value: u64) -> Result<(), AllocError>
    ensures text { OnOk result (out.new.items ≡ out.old.items ++ header_text keyword.now value) }
    ensures capacity { vec_capacity out.old ≤ vec_capacity out.new }
{
    out.extend_from_slice(keyword)?;
    out.push(b' ')?;
    out.extend_from_slice(Buffer::new().format(value).as_bytes())?;
    out.push(b'\n')?;
    Ok(())
}

/// Appends the lines of a file's bids.
fn push_bids<B: Bids>(out: &mut Vec<u8>, file: &B) -> Result<(), AllocError>
    ensures { let f = B.file file.now in
        OnOk result (out.new.items ≡ out.old.items ++ bids_text f.goods 0 f.bids) }
{
    let mut line = [0; LONGEST_LINE];
    for number in 0..file.len() {
        let start = write_bid(file, number, &mut line);
        out.extend_from_slice(&line[start..])?;
    }
    Ok(())
}

/// Writes the line of a bid at the end of a buffer, and returns where it starts. It is written from its end to its
/// start, as the digits of a number come.
pub fn write_bid<B: Bids>(file: &B, number: usize, line: &mut [u8]) -> usize
    requires number { number < length (B.file file.now).bids }
    requires space { length line.old ≡ LONGEST_LINE }
    ensures start { result ≤ LONGEST_LINE }
    ensures written { let f = B.file file.now in (bid : PlainBid)
        × (slice_get f.bids number ≡ Some bid) × (drop result line.new ≡ bid_text f.goods number bid) }
{
    let goods = file.goods();
    let bid = file.at(number);
    let end = write_line_end(line);
    let end = write_dummy(goods, bid.dummy, line, end);
    let end = write_goods(bid.goods, line, end);
    write_number_and_price(number, bid.price, line, end)
}

/// Writes the number and the price of a bid, so that their text ends at `end`, and returns where it starts.
#[inline(always)]
fn write_number_and_price(number: usize, price: u64, text: &mut [u8], end: usize) -> usize
    requires space { NUMBER_AND_PRICE ≤ end }
    requires inside { end ≤ length text.old }
    ensures start { result ≤ end }
    ensures written { drop result text.new ≡ (decimal number ++ 9 ∷ price_text price) ++ drop end text.old }
{
    let tab = write_price(price, text, end) - 1;
    text[tab] = b'\t';
    write_digits(number as u64, text, tab)
}

fn write_line_end(line: &mut [u8]) -> usize
    requires space { length line.old ≡ LONGEST_LINE }
    ensures start { result + 3 ≡ LONGEST_LINE }
    ensures written { drop result line.new ≡ codes "\t#\n" }
{
    let start = line.len() - 3;
    line[start] = b'\t';
    line[start + 1] = b'#';
    line[start + 2] = b'\n';
    start
}

/// The dummy good of a bid, if it has one, numbered behind the real goods.
fn write_dummy(goods: u16, dummy: Option<u32>, text: &mut [u8], end: usize) -> usize
    requires space { DUMMY ≤ end }
    requires inside { end ≤ length text.old }
    ensures start { (result ≤ end) × (end ≤ result + DUMMY) }
    ensures written { drop result text.new ≡ tabbed (dummy_good goods dummy) ++ drop end text.old }
{
    match dummy {
        Some(dummy) => write_good(u64::from(goods) + u64::from(dummy), text, end),
        None => end,
    }
}

/// Writes goods, each behind a tab, so that their text ends at `end`, and returns where it starts.
fn write_goods(goods: &[u16], text: &mut [u8], end: usize) -> usize
    requires space { GOOD * length goods.now ≤ end }
    requires inside { end ≤ length text.old }
    ensures start { (result ≤ end) × (end ≤ result + GOOD * length goods.now) }
    ensures written { drop result text.new ≡ tabbed goods.now ++ drop end text.old }
{
    let mut left = goods;
    let mut start = end;
    while let [prefix @ .., good] = left {
        start = write_good(u64::from(*good), text, start);
        left = prefix;
    }
    start
}

fn write_good(good: u64, text: &mut [u8], end: usize) -> usize
    requires space { length (decimal good) < end }
    requires inside { end ≤ length text.old }
    ensures start { result + length (decimal good) + 1 ≡ end }
    ensures written { drop result text.new ≡ (9 ∷ decimal good) ++ drop end text.old }
{
    let tab = write_digits(good, text, end) - 1;
    text[tab] = b'\t';
    tab
}
