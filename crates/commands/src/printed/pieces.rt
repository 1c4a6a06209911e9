//! Lines in pieces. Each piece is sent as it is, so that a line needs no memory.

ghost use Rattle.std.specs.Prelude.{◌≡◌, ◌++◌, IfOk, OnOk, codes};
ghost use Rattle.commands.specs.Pieces.{text_of_piece, text_of_pieces};

use crate::printed::cells::{push_list, push_number};
use cats_text::price::push_price;
use std::alloc::{AllocError, Global};

/// A piece of a line.
#[derive(Clone, Copy)]
pub enum Piece<'a> {
    Text(&'a [u8]),
    Number(u64),
    /// Goods, with a comma between each two.
    Goods(&'a [u16]),
    /// A price in millionths.
    Price(u64),
}

pub(crate) const NOTHING: Piece<'static> = Piece::Text(b"");

/// The pieces of a line of up to four texts, with a value behind the second.
pub(crate) fn line_pieces<'a>(
    prefix: &'static str,
    before: &'static str,
    value: Piece<'a>,
    between: &'static str,
    behind: &'static str,
) -> [Piece<'a>; 14]
    ensures { text_of_pieces result
        ≡ prefix.now ++ before.now ++ text_of_piece value.entry ++ between.now ++ behind.now ++ codes "\n" }
{
    [
        Piece::Text(prefix.as_bytes()),
        Piece::Text(before.as_bytes()),
        value,
        Piece::Text(between.as_bytes()),
        Piece::Text(behind.as_bytes()),
        Piece::Text(b"\n"),
        NOTHING,
        NOTHING,
        NOTHING,
        NOTHING,
        NOTHING,
        NOTHING,
        NOTHING,
        NOTHING,
    ]
}

/// The text of the pieces.
pub(crate) fn text_of(alloc: Global, pieces: &[Piece<'_>]) -> Result<Vec<u8>, AllocError>
    ensures { IfOk result (λ text. text.items ≡ text_of_pieces pieces.now) }
{
    let mut text = Vec::new(alloc);
    for piece in pieces {
        push_piece(&mut text, piece)?;
    }
    Ok(text)
}

fn push_piece(text: &mut Vec<u8>, piece: &Piece<'_>) -> Result<(), AllocError>
    ensures { OnOk result (text.new.items ≡ text.old.items ++ text_of_piece piece.now) }
{
    match piece {
        Piece::Text(piece) => text.extend_from_slice(piece),
        Piece::Number(number) => push_number(text, *number),
        Piece::Goods(goods) => push_list(text, b',', goods),
        Piece::Price(price) => push_price(text, u128::from(*price)),
    }
}
