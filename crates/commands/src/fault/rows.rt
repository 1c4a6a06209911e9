//! A row of the tables of hints: places, a test of the word there, and a hint.

/// Some places.
#[derive(Clone, Copy)]
pub enum At {
    Anywhere,
    LineStart,
    TextStart,
    /// The start of the second line.
    SecondLine,
    /// Where the first number of a PDF is: the lines before it begin with `%`.
    PdfStart,
    /// Behind the first word.
    BehindStart,
    /// The number of a header line, or the price of a bid.
    Second,
    /// The number of a header line: three lines are before a bid.
    HeaderNumber,
    /// The number of the first line.
    FirstNumber,
    /// The goods of a bid, or what is behind the number of a header line.
    BehindSecond,
    BehindFirstGood,
    /// The end of a bid line without goods.
    CutBid,
}

/// What the word at a place has to be.
#[derive(Clone, Copy)]
pub enum Test {
    Any,
    /// One of these words.
    Is(Words),
    /// It begins with one of these.
    Begins(Starts),
    /// It ends with one of these.
    Ends(Ends),
    /// It has one of these bytes.
    Has(Bytes),
    /// The first word of a tar archive.
    Tar,
    /// It has a letter.
    Letter,
    /// It has a byte that is not ASCII.
    Other,
    /// Digits alone.
    Number,
    /// At most so many digits alone.
    Digits(usize),
    /// A decimal, as `cats round` takes it.
    Decimal,
    /// A decimal with an exponent.
    Exponent,
}

/// Words.
#[derive(Clone, Copy)]
pub enum Words {
    JsonList,
    Pointer,
    LinearProgram,
    Mps,
    Keyword,
    Capital,
    NotFinite,
    Missing,
    NoPrice,
    MinusOne,
}

/// What a word begins with.
#[derive(Clone, Copy)]
pub enum Starts {
    Gzip,
    Bzip2,
    Xz,
    Zstd,
    Zip,
    Mark,
    Wide,
    WideLittle,
    WideBig,
    Conflict,
    RichText,
    Json,
    Page,
    Answer,
    CommentedProgram,
    Keyword,
    Comment,
    Quote,
    CommentBehind,
    OldEnd,
    Remark,
    NotFiniteNumber,
    RemarkToo,
    Hexadecimal,
    Sign,
    Currency,
    Bracket,
}

/// What a word ends with.
#[derive(Clone, Copy)]
pub enum Ends {
    NoBlank,
    Currency,
    BracketBehind,
}

/// Bytes of a word.
#[derive(Clone, Copy)]
pub enum Bytes {
    Table,
    Control,
    Zeros,
    Returns,
    Commas,
    Colon,
    Thousands,
    Range,
}

/// Hints.
#[derive(Clone, Copy)]
pub enum Hint {
    Gzip,
    Bzip2,
    Xz,
    Zstd,
    Zip,
    Tar,
    Mark,
    Wide,
    WideLittle,
    WideBig,
    Conflict,
    RichText,
    Json,
    Page,
    Answer,
    Pointer,
    LinearProgram,
    Mps,
    Order,
    Capital,
    Colon,
    Comment,
    Quoted,
    Table,
    NoHeader,
    Pdf,
    NoDummy,
    NoText,
    NotAscii,
    NoNumber,
    OneLine,
    CommentBehind,
    TwoNumbers,
    MoreWords,
    Joined,
    NumberMark,
    OldEnd,
    Zeros,
    Returns,
    NotFinite,
    Missing,
    NoPrice,
    NoBlank,
    Remark,
    Hexadecimal,
    HeaderDecimal,
    Exponent,
    Point,
    DecimalGood,
    HeaderSign,
    Sign,
    MinusOne,
    SignedGood,
    Currency,
    Brackets,
    Commas,
    Comma,
    List,
    NumberColon,
    Text,
    Letters,
    Name,
    Thousands,
    Range,
    TooManyGoods,
    Header,
    DummyAlone,
    NoGoods,
    Empty,
    FileOneLine,
    Again,
    Bid,
}

/// At these places such a word has this hint.
#[derive(Clone, Copy)]
pub struct HintRow {
    pub at: At,
    pub test: Test,
    pub hint: Hint,
}
