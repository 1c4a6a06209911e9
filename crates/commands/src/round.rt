//! `cats round`: the line of a price that it changed.

ghost use Rattle.std.specs.Prelude.{codes};
ghost use Rattle.std.specs.Prelude.{◌≡◌};
ghost use Rattle.rounding.specs.Views.{plain_change};
ghost use Rattle.commands.specs.Pieces.{text_of_pieces};
ghost use Rattle.commands.specs.Round.{rounded_line};

use crate::printed::pieces::Piece;
use requests::help::CommandHelp;
use rounding::text::RoundedPrice;

/// What `--help` prints of it.
pub fn help<'a>() -> CommandHelp<'a> {
    CommandHelp {
        name: "round",
        about: "Prints a bid file with prices rounded, and reports which changed",
        arguments: &[(
            "times",
            "\
Multiplies all prices by N before they are rounded: a
power of ten, from 1 to 1000000000000",
        )],
        after: "\
Prints the text of a bid file in which each price that is a decimal, such as
1.02345e+06, .5 or 0.0123456, is written so that it is read: rounded to the
nearest millionth, and halfway between two to the even one. A valid price and
every other byte stay as they are. For example:
  $ cats round examples/six_digits.cats

Each price whose value changed is one line on standard error:
  line 8: 0.0123456 rounded to 0.012346
If there is no such line, each price has the value that it had. With --exact, a
price that would be rounded is refused as TooFine, and nothing is printed.

With --times N all prices are multiplied by N first, valid ones too. So prices
of a few millionths become numbers that stay as they are. Revenues are N times
as large then, and auctions that are compared need the same N:
  $ cats round --times 100000 examples/six_digits.cats

The output is always a bid file. If the text with its prices rounded is not
one, its first fault is reported as by 'cats check', and nothing is printed.
Other commands round prices before they read a file, if --round is given:
  $ cats normalise --round auction.txt

Statuses: 0, whether or not a price was rounded; 2 if the text with its prices
rounded is not a bid file; 4, 5 and 64 as 'cats --help' lists them",
    }
}

/// The line in which the price is, as it is written there, and its new value, in pieces.
pub fn price_pieces(price: &RoundedPrice) -> [Piece<'_>; 7]
    ensures { text_of_pieces result ≡ rounded_line (plain_change price.now) }
{
    [
        Piece::Text(b"line "),
        Piece::Number(price.line),
        Piece::Text(b": "),
        Piece::Text(price.word.as_slice()),
        Piece::Text(b" rounded to "),
        Piece::Price(price.price),
        Piece::Text(b"\n"),
    ]
}

/// The line of a price whose value changed.
pub fn rounded_lines()
    ensures { rounded_line (record { line = 12; word = codes "0.0123456"; price = 12346 })
        ≡ codes "line 12: 0.0123456 rounded to 0.012346\n" }
{}
