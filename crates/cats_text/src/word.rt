//! What the reader keeps of a word. It suffices for every test of the grammar, whatever the word's length.

ghost use Rattle.std.specs.Prelude.{◌≡◌, ◌≤◌};
ghost use Rattle.cats_text.specs.Internal.Machine.{keyword_text, with_digit};

use crate::price::Decimal;

/// The words that begin the header lines.
#[derive(Clone, Copy, PartialEq, Eq)]
pub enum Keyword {
    Goods,
    Bids,
    Dummy,
}

impl Keyword {
    pub fn text(self) -> &'static [u8]
        ensures { result.now ≡ keyword_text self }
    {
        match self {
            Keyword::Goods => b"goods",
            Keyword::Bids => b"bids",
            Keyword::Dummy => b"dummy",
        }
    }
}

/// From here on a number takes no further digits: it is above every limit.
pub const HELD: u64 = 10_000_000_000_000;

/// The number with one more digit.
pub fn with_digit(value: u64, digit: u8) -> u64
    requires { digit ≤ 9 }
    ensures { result ≡ with_digit value digit }
{
    if value < HELD {
        value * 10 + u64::from(digit)
    } else {
        value
    }
}

/// A word so far.
#[derive(Clone, Copy, PartialEq, Eq)]
pub enum Word {
    /// So many bytes of a keyword.
    Keyword(Keyword, usize),
    /// Digits alone.
    Number(u64),
    /// Digits and a point.
    Decimal(Decimal),
    /// The word `#`.
    End,
    /// Nothing that the grammar takes, however it goes on.
    Other,
}

impl Word {
    ghost use Rattle.cats_text.specs.Internal.Machine.{word_from, word_with};

    /// The word of one byte.
    pub fn new(byte: u8) -> Word
        ensures { result ≡ word_from byte }
    {
        match byte {
            b'0'..=b'9' => Word::Number(u64::from(byte - b'0')),
            b'#' => Word::End,
            b'g' => Word::Keyword(Keyword::Goods, 1),
            b'b' => Word::Keyword(Keyword::Bids, 1),
            b'd' => Word::Keyword(Keyword::Dummy, 1),
            _ => Word::Other,
        }
    }

    /// The word with one more byte.
    pub fn with(self, byte: u8) -> Word
        ensures { result ≡ word_with self byte }
    {
        match self {
            Word::Number(value) => match byte {
                b'0'..=b'9' => Word::Number(with_digit(value, byte - b'0')),
                b'.' => Word::Decimal(Decimal {
                    whole: value,
                    millionths: 0,
                    decimals: 0,
                    fine: false,
                }),
                _ => Word::Other,
            },
            Word::Decimal(decimal) => match byte {
                b'0'..=b'9' => Word::Decimal(decimal.with(byte - b'0')),
                _ => Word::Other,
            },
            Word::Keyword(keyword, length) => {
                let text = keyword.text();
                if length < text.len() && text[length] == byte {
                    Word::Keyword(keyword, length + 1)
                } else {
                    Word::Other
                }
            }
            Word::End | Word::Other => Word::Other,
        }
    }
}
