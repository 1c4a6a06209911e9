//! What is reported on standard error. A line is gathered, so that it is sent by one write and does not tear where others
//! write to the same place. It needs no memory. Nothing is sent to a stream that has failed.

ghost use Rattle.std.specs.Prelude.{◌≡◌, ◌∷◌, ◌++◌, ◌+◌, ◌<◌, ◌≤◌, [], decimal, length};
ghost use Rattle.commands.specs.Outputs.{after_commas, bundle_text};
ghost use Rattle.commands.specs.Pieces.{text_of_piece, text_of_pieces};
ghost use Rattle.cats_text.specs.Layout.{price_text};
ghost use Rattle.cats_cmd.specs.Escaping.{escaped, escaped_byte};
ghost use Rattle.cats_cmd.specs.Internal.Gathering.{Gathers, GathersNext};
ghost use Rattle.cats_cmd.specs.Reports.{Reports};
ghost use Rattle.cats_cmd.specs.declared.lines.TheConstants.{LINE_SIZE};

use crate::escaping::{hex_escape, plain_run};
use cats_text::price::{PRICE_SIZE, write_price};
use cats_text::{Watched, send};
use commands::printed::Piece;
use itoa::Buffer;
use std::io::Write;
use std::marker::Model;

/// The longest line that is sent by one write. A pipe takes no more bytes at once.
const LINE_SIZE: usize = 4096;

/// What of a line is not yet sent.
#[derive(Drop)]
pub(crate) struct LineBuffer {
    bytes: [u8; LINE_SIZE],
    count: usize,
}

impl Model for LineBuffer {
    ghost use Rattle.std.specs.Prelude.{ℕ, List, take, ◌≤◌};
    ghost use Rattle.cats_cmd.specs.declared.lines.TheConstants.{LINE_SIZE};

    ghost Value = { List ℕ };

    ghost view = { λ b. take b.count b.bytes };

    ghost invariant = { λ b. b.count ≤ LINE_SIZE };
}

/// Sends a text, unless the stream has failed.
pub(crate) fn report<E: Write>(err: &mut Watched<E>, text: &[u8])
    ensures { Reports E.contents text.now err.old err.new }
{
    if !err.failed() {
        let _ = send(err, text);
    }
}

/// Reports a line of these pieces.
pub(crate) fn report_pieces<E: Write>(err: &mut Watched<E>, pieces: &[Piece<'_>])
    ensures { Reports E.contents (text_of_pieces pieces.now) err.old err.new }
{
    let mut line = LineBuffer::new();
    line.push_pieces(err, pieces);
    line.send(err);
}

impl LineBuffer {
    pub(crate) fn new() -> LineBuffer
        ensures { result ≡ [] }
    {
        LineBuffer {
            bytes: [0; LINE_SIZE],
            count: 0,
        }
    }

    /// Sends what of the line is not yet sent.
    pub(crate) fn send<E: Write>(&mut self, err: &mut Watched<E>)
        ensures reports { Reports E.contents self.old err.old err.new }
        ensures empty { self.new ≡ [] }
    {
        report(err, &self.bytes[..self.count]);
        self.count = 0;
    }

    /// Puts a text behind the line. What was there is sent where the two do not fit.
    pub(crate) fn push<E: Write>(&mut self, err: &mut Watched<E>, text: &[u8])
        ensures { Gathers E.contents text.now self.old self.new err.old err.new }
    {
        if text.len() <= LINE_SIZE - self.count {
            self.append(text);
        } else if text.len() <= LINE_SIZE {
            self.send(err);
            self.append(text);
        } else {
            self.send(err);
            report(err, text);
        }
    }

    fn append(&mut self, text: &[u8])
        requires { length self.old + length text.now ≤ LINE_SIZE }
        ensures { self.new ≡ self.old ++ text.now }
    {
        let end = self.count + text.len();
        self.bytes[self.count..end].copy_from_slice(text);
        self.count = end;
    }

    pub(crate) fn push_pieces<E: Write>(&mut self, err: &mut Watched<E>, pieces: &[Piece<'_>])
        ensures { Gathers E.contents (text_of_pieces pieces.now) self.old self.new err.old err.new }
    {
        for piece in pieces {
            self.push_piece(err, piece);
        }
    }

    fn push_piece<E: Write>(&mut self, err: &mut Watched<E>, piece: &Piece<'_>)
        ensures { Gathers E.contents (text_of_piece piece.now) self.old self.new err.old err.new }
    {
        match piece {
            Piece::Text(text) => self.push(err, text),
            Piece::Number(number) => self.push_number(err, *number),
            Piece::Goods(goods) => self.push_goods(err, goods),
            Piece::Price(price) => self.push_price(err, *price),
        }
    }

    pub(crate) fn push_number<E: Write>(&mut self, err: &mut Watched<E>, number: u64)
        ensures { Gathers E.contents (decimal number) self.old self.new err.old err.new }
    {
        self.push(err, Buffer::new().format(number).as_bytes());
    }

    /// Puts goods behind the line, with a comma between each two.
    fn push_goods<E: Write>(&mut self, err: &mut Watched<E>, goods: &[u16])
        ensures { Gathers E.contents (bundle_text goods.now) self.old self.new err.old err.new }
    {
        let Some((first, rest)) = goods.split_first() else {
            return self.push(err, b"");
        };
        self.push_number(err, u64::from(*first));
        self.push_after_commas(err, rest);
    }

    fn push_after_commas<E: Write>(&mut self, err: &mut Watched<E>, goods: &[u16])
        ensures { Gathers E.contents (after_commas goods.now) self.old self.new err.old err.new }
    {
        for good in goods {
            self.push_after_comma(err, *good);
        }
    }

    fn push_after_comma<E: Write>(&mut self, err: &mut Watched<E>, good: u16)
        ensures { Gathers E.contents (44 ∷ decimal good) self.old self.new err.old err.new }
    {
        self.push(err, b",");
        self.push_number(err, u64::from(good));
    }

    /// Puts a price behind the line, given in millionths.
    fn push_price<E: Write>(&mut self, err: &mut Watched<E>, millionths: u64)
        ensures { Gathers E.contents (price_text millionths) self.old self.new err.old err.new }
    {
        let mut text = [0; PRICE_SIZE];
        let start = write_price(millionths, &mut text, PRICE_SIZE);
        self.push(err, &text[start..]);
    }

    /// Puts a path behind the line as it is printed there.
    pub(crate) fn push_escaped<E: Write>(&mut self, err: &mut Watched<E>, path: &[u8])
        ensures { Gathers E.contents (escaped path.now) self.old self.new err.old err.new }
    {
        let mut rest = path;
        while !rest.is_empty() {
            rest = self.push_next(err, rest);
        }
    }

    /// Puts the bytes at the start that are not escaped behind the line, or one that is, and answers those behind.
    fn push_next<'a, E: Write>(&mut self, err: &mut Watched<E>, rest: &'a [u8]) -> &'a [u8]
        requires { 0 < length rest.now }
        ensures gathers { GathersNext E.contents rest.now result.now self.old self.new err.old err.new }
        ensures fewer { length result.now < length rest.now }
    {
        let plain = plain_run(rest);
        if plain == 0 {
            self.push_escape(err, rest[0]);
            &rest[1..]
        } else {
            self.push(err, &rest[..plain]);
            &rest[plain..]
        }
    }

    /// Puts an escaped byte behind the line.
    fn push_escape<E: Write>(&mut self, err: &mut Watched<E>, byte: u8)
        ensures { Gathers E.contents (escaped_byte byte) self.old self.new err.old err.new }
    {
        match byte {
            b'\\' => self.push(err, b"\\\\"),
            b'\n' => self.push(err, b"\\n"),
            b'\t' => self.push(err, b"\\t"),
            _ => self.push(err, &hex_escape(byte)),
        }
    }
}
