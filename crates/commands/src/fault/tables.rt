//! The tables of hints. The code and the definitions read them, one for each kind of fault whose hint depends on the
//! place. The first row that fits has the hint.

use super::rows::{At, Bytes, Ends, Hint, HintRow, Starts, Test, Words};

/// Of a header line. The first rows know other files by their first bytes.
pub const HEADER_HINTS: [HintRow; 36] = [
    HintRow {
        at: At::TextStart,
        test: Test::Begins(Starts::Gzip),
        hint: Hint::Gzip,
    },
    HintRow {
        at: At::TextStart,
        test: Test::Begins(Starts::Bzip2),
        hint: Hint::Bzip2,
    },
    HintRow {
        at: At::TextStart,
        test: Test::Begins(Starts::Xz),
        hint: Hint::Xz,
    },
    HintRow {
        at: At::TextStart,
        test: Test::Begins(Starts::Zstd),
        hint: Hint::Zstd,
    },
    HintRow {
        at: At::TextStart,
        test: Test::Begins(Starts::Zip),
        hint: Hint::Zip,
    },
    HintRow {
        at: At::TextStart,
        test: Test::Tar,
        hint: Hint::Tar,
    },
    HintRow {
        at: At::TextStart,
        test: Test::Begins(Starts::Mark),
        hint: Hint::Mark,
    },
    HintRow {
        at: At::TextStart,
        test: Test::Begins(Starts::Wide),
        hint: Hint::Wide,
    },
    HintRow {
        at: At::TextStart,
        test: Test::Begins(Starts::WideLittle),
        hint: Hint::WideLittle,
    },
    HintRow {
        at: At::TextStart,
        test: Test::Begins(Starts::WideBig),
        hint: Hint::WideBig,
    },
    HintRow {
        at: At::LineStart,
        test: Test::Begins(Starts::Conflict),
        hint: Hint::Conflict,
    },
    HintRow {
        at: At::TextStart,
        test: Test::Begins(Starts::RichText),
        hint: Hint::RichText,
    },
    HintRow {
        at: At::TextStart,
        test: Test::Begins(Starts::Json),
        hint: Hint::Json,
    },
    HintRow {
        at: At::TextStart,
        test: Test::Is(Words::JsonList),
        hint: Hint::Json,
    },
    HintRow {
        at: At::TextStart,
        test: Test::Begins(Starts::Page),
        hint: Hint::Page,
    },
    HintRow {
        at: At::TextStart,
        test: Test::Begins(Starts::Answer),
        hint: Hint::Answer,
    },
    HintRow {
        at: At::TextStart,
        test: Test::Is(Words::Pointer),
        hint: Hint::Pointer,
    },
    HintRow {
        at: At::TextStart,
        test: Test::Is(Words::LinearProgram),
        hint: Hint::LinearProgram,
    },
    HintRow {
        at: At::TextStart,
        test: Test::Begins(Starts::CommentedProgram),
        hint: Hint::LinearProgram,
    },
    HintRow {
        at: At::TextStart,
        test: Test::Is(Words::Mps),
        hint: Hint::Mps,
    },
    HintRow {
        at: At::LineStart,
        test: Test::Is(Words::Keyword),
        hint: Hint::Order,
    },
    HintRow {
        at: At::LineStart,
        test: Test::Is(Words::Capital),
        hint: Hint::Capital,
    },
    HintRow {
        at: At::LineStart,
        test: Test::Begins(Starts::Keyword),
        hint: Hint::Colon,
    },
    HintRow {
        at: At::LineStart,
        test: Test::Begins(Starts::Comment),
        hint: Hint::Comment,
    },
    HintRow {
        at: At::LineStart,
        test: Test::Begins(Starts::Quote),
        hint: Hint::Quoted,
    },
    HintRow {
        at: At::TextStart,
        test: Test::Has(Bytes::Table),
        hint: Hint::Table,
    },
    HintRow {
        at: At::TextStart,
        test: Test::Number,
        hint: Hint::NoHeader,
    },
    HintRow {
        at: At::PdfStart,
        test: Test::Number,
        hint: Hint::Pdf,
    },
    HintRow {
        at: At::LineStart,
        test: Test::Number,
        hint: Hint::NoDummy,
    },
    HintRow {
        at: At::LineStart,
        test: Test::Has(Bytes::Control),
        hint: Hint::NoText,
    },
    HintRow {
        at: At::LineStart,
        test: Test::Other,
        hint: Hint::NotAscii,
    },
    HintRow {
        at: At::Second,
        test: Test::Any,
        hint: Hint::NoNumber,
    },
    HintRow {
        at: At::BehindSecond,
        test: Test::Is(Words::Keyword),
        hint: Hint::OneLine,
    },
    HintRow {
        at: At::BehindSecond,
        test: Test::Begins(Starts::CommentBehind),
        hint: Hint::CommentBehind,
    },
    HintRow {
        at: At::BehindSecond,
        test: Test::Number,
        hint: Hint::TwoNumbers,
    },
    HintRow {
        at: At::BehindSecond,
        test: Test::Any,
        hint: Hint::MoreWords,
    },
];

/// Of a word that has to be a number or a price.
pub const NUMBER_HINTS: [HintRow; 38] = [
    HintRow {
        at: At::LineStart,
        test: Test::Begins(Starts::Conflict),
        hint: Hint::Conflict,
    },
    HintRow {
        at: At::LineStart,
        test: Test::Is(Words::Keyword),
        hint: Hint::Joined,
    },
    HintRow {
        at: At::LineStart,
        test: Test::Begins(Starts::Mark),
        hint: Hint::NumberMark,
    },
    HintRow {
        at: At::LineStart,
        test: Test::Begins(Starts::Comment),
        hint: Hint::Comment,
    },
    HintRow {
        at: At::LineStart,
        test: Test::Begins(Starts::OldEnd),
        hint: Hint::OldEnd,
    },
    HintRow {
        at: At::Anywhere,
        test: Test::Has(Bytes::Zeros),
        hint: Hint::Zeros,
    },
    HintRow {
        at: At::Anywhere,
        test: Test::Has(Bytes::Returns),
        hint: Hint::Returns,
    },
    HintRow {
        at: At::Anywhere,
        test: Test::Begins(Starts::Quote),
        hint: Hint::Quoted,
    },
    HintRow {
        at: At::BehindStart,
        test: Test::Begins(Starts::Remark),
        hint: Hint::CommentBehind,
    },
    HintRow {
        at: At::Anywhere,
        test: Test::Is(Words::NotFinite),
        hint: Hint::NotFinite,
    },
    HintRow {
        at: At::Anywhere,
        test: Test::Begins(Starts::NotFiniteNumber),
        hint: Hint::NotFinite,
    },
    HintRow {
        at: At::Anywhere,
        test: Test::Is(Words::Missing),
        hint: Hint::Missing,
    },
    HintRow {
        at: At::BehindStart,
        test: Test::Is(Words::NoPrice),
        hint: Hint::NoPrice,
    },
    HintRow {
        at: At::BehindStart,
        test: Test::Ends(Ends::NoBlank),
        hint: Hint::NoBlank,
    },
    HintRow {
        at: At::BehindStart,
        test: Test::Begins(Starts::RemarkToo),
        hint: Hint::Remark,
    },
    HintRow {
        at: At::Anywhere,
        test: Test::Begins(Starts::Hexadecimal),
        hint: Hint::Hexadecimal,
    },
    HintRow {
        at: At::HeaderNumber,
        test: Test::Decimal,
        hint: Hint::HeaderDecimal,
    },
    HintRow {
        at: At::Second,
        test: Test::Exponent,
        hint: Hint::Exponent,
    },
    HintRow {
        at: At::Second,
        test: Test::Decimal,
        hint: Hint::Point,
    },
    HintRow {
        at: At::Anywhere,
        test: Test::Decimal,
        hint: Hint::DecimalGood,
    },
    HintRow {
        at: At::HeaderNumber,
        test: Test::Begins(Starts::Sign),
        hint: Hint::HeaderSign,
    },
    HintRow {
        at: At::Second,
        test: Test::Begins(Starts::Sign),
        hint: Hint::Sign,
    },
    HintRow {
        at: At::BehindSecond,
        test: Test::Is(Words::MinusOne),
        hint: Hint::MinusOne,
    },
    HintRow {
        at: At::Anywhere,
        test: Test::Begins(Starts::Sign),
        hint: Hint::SignedGood,
    },
    HintRow {
        at: At::Second,
        test: Test::Begins(Starts::Currency),
        hint: Hint::Currency,
    },
    HintRow {
        at: At::Second,
        test: Test::Ends(Ends::Currency),
        hint: Hint::Currency,
    },
    HintRow {
        at: At::Anywhere,
        test: Test::Begins(Starts::Bracket),
        hint: Hint::Brackets,
    },
    HintRow {
        at: At::Anywhere,
        test: Test::Ends(Ends::BracketBehind),
        hint: Hint::Brackets,
    },
    HintRow {
        at: At::LineStart,
        test: Test::Has(Bytes::Commas),
        hint: Hint::Commas,
    },
    HintRow {
        at: At::Second,
        test: Test::Has(Bytes::Commas),
        hint: Hint::Comma,
    },
    HintRow {
        at: At::Anywhere,
        test: Test::Has(Bytes::Commas),
        hint: Hint::List,
    },
    HintRow {
        at: At::Anywhere,
        test: Test::Has(Bytes::Colon),
        hint: Hint::NumberColon,
    },
    HintRow {
        at: At::LineStart,
        test: Test::Letter,
        hint: Hint::Text,
    },
    HintRow {
        at: At::Second,
        test: Test::Letter,
        hint: Hint::Letters,
    },
    HintRow {
        at: At::Anywhere,
        test: Test::Letter,
        hint: Hint::Name,
    },
    HintRow {
        at: At::Anywhere,
        test: Test::Has(Bytes::Thousands),
        hint: Hint::Thousands,
    },
    HintRow {
        at: At::BehindSecond,
        test: Test::Has(Bytes::Range),
        hint: Hint::Range,
    },
    HintRow {
        at: At::Anywhere,
        test: Test::Other,
        hint: Hint::NotAscii,
    },
];

/// Of a number above its limit.
pub const LIMIT_HINTS: [HintRow; 4] = [
    HintRow {
        at: At::FirstNumber,
        test: Test::Any,
        hint: Hint::TooManyGoods,
    },
    HintRow {
        at: At::Anywhere,
        test: Test::Digits(4),
        hint: Hint::TooManyGoods,
    },
    HintRow {
        at: At::HeaderNumber,
        test: Test::Any,
        hint: Hint::Header,
    },
    HintRow {
        at: At::Anywhere,
        test: Test::Digits(12),
        hint: Hint::Header,
    },
];

/// Of a bid without a real good.
pub const BUNDLE_HINTS: [HintRow; 1] = [HintRow {
    at: At::BehindFirstGood,
    test: Test::Any,
    hint: Hint::DummyAlone,
}];

/// Of a line without `#`. None says to write it, since the line may be cut.
pub const CUT_LINE_HINTS: [HintRow; 1] = [HintRow {
    at: At::CutBid,
    test: Test::Any,
    hint: Hint::NoGoods,
}];

/// Of a file that ends too early.
pub const CUT_FILE_HINTS: [HintRow; 2] = [
    HintRow {
        at: At::TextStart,
        test: Test::Any,
        hint: Hint::Empty,
    },
    HintRow {
        at: At::SecondLine,
        test: Test::Any,
        hint: Hint::FileOneLine,
    },
];

/// Of a word behind `#`.
pub const BEHIND_END_HINTS: [HintRow; 4] = [
    HintRow {
        at: At::Anywhere,
        test: Test::Is(Words::NoPrice),
        hint: Hint::Again,
    },
    HintRow {
        at: At::Anywhere,
        test: Test::Begins(Starts::Remark),
        hint: Hint::CommentBehind,
    },
    HintRow {
        at: At::Anywhere,
        test: Test::Letter,
        hint: Hint::CommentBehind,
    },
    HintRow {
        at: At::Anywhere,
        test: Test::Number,
        hint: Hint::Bid,
    },
];
