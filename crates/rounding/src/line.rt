//! The parts of a line. They are blanks, and the first and the second word.

ghost use Rattle.std.specs.Prelude.{◌≡◌, suc, ◌<◌, ◌≤◌, length, take, drop, slice_index, true, false};
ghost use Rattle.cats_text.specs.Lines.{is_blank, line_byte, line_ends, blank_returns, line_words, is_significant};
ghost use Rattle.rounding.specs.Texts.{blanks, behind_blanks, leading_word, behind_word, before_second, from_second};

/// Whether a line ends before these bytes.
fn line_ends(bytes: &[u8]) -> bool
    ensures { result ≡ line_ends bytes.now }
{
    matches!(bytes, [] | [b'\n', ..])
}

/// Whether the byte at an offset is a blank: a space, a tab, or a CR that ends the line.
pub fn is_blank(line: &[u8], offset: usize) -> bool
    requires { offset < length line.now }
    ensures { result ≡ is_blank (line_byte (slice_index line.now offset) (drop (suc offset) line.now)) }
{
    let byte = line[offset];
    byte == b' ' || byte == b'\t' || (byte == b'\r' && line_ends(&line[offset + 1..]))
}

/// How many blanks are at the beginning.
pub fn count_blanks(line: &[u8]) -> usize
    ensures count { result ≡ length (blanks line.now) }
    ensures within { result ≤ length line.now }
{
    for offset in 0..line.len() {
        if !is_blank(line, offset) {
            return offset;
        }
    }
    line.len()
}

/// How many bytes the word at the beginning has.
fn word_length(line: &[u8]) -> usize
    ensures count { result ≡ length (leading_word line.now) }
    ensures within { result ≤ length line.now }
{
    for offset in 0..line.len() {
        if is_blank(line, offset) {
            return offset;
        }
    }
    line.len()
}

/// A line behind the blanks at its beginning.
pub fn from_first(line: &[u8]) -> &[u8]
    ensures { result.now ≡ behind_blanks line.now }
{
    &line[count_blanks(line)..]
}

/// A line behind its first word.
pub fn behind_first(line: &[u8]) -> &[u8]
    ensures { result.now ≡ behind_word (behind_blanks line.now) }
{
    split_word(from_first(line)).1
}

/// Whether a line is neither empty nor a comment.
pub fn is_significant(line: &[u8]) -> bool
    ensures { result ≡ is_significant (line_words (blank_returns line.now)) }
{
    let start = count_blanks(line);
    start < line.len() && line[start] != b'%'
}

/// Where the second word of a line begins.
pub fn second_start(line: &[u8]) -> usize
    ensures count { result ≡ length (before_second line.now) }
    ensures within { result ≤ length line.now }
{
    let first = count_blanks(line);
    let behind = first + word_length(&line[first..]);
    behind + count_blanks(&line[behind..])
}

/// A word at the beginning of bytes, and what is behind it.
pub fn split_word(bytes: &[u8]) -> (&[u8], &[u8])
    ensures word { result.0.now ≡ leading_word bytes.now }
    ensures behind { result.1.now ≡ behind_word bytes.now }
{
    bytes.split_at(word_length(bytes))
}
