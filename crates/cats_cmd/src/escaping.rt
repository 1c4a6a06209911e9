//! Paths as they are printed. On a line, all that is not a printable character is escaped, and backslashes.

ghost use Rattle.std.specs.Prelude.{◌≡◌, ◌<◌, ◌≤◌, ◌++◌, IfOk, OnOk, drop, get_or, length, take};
ghost use Rattle.std.specs.Char.{digit_char};
ghost use Rattle.cats_cmd.specs.Escaping.{code_at, end_of, escaped, escaped_behind, escaped_byte, hex_escape, is_invisible};
ghost use Rattle.cats_cmd.specs.Escaping.{is_printable, low_bits, path_text, plain_length};

use crate::paths::Ending;
use std::alloc::{AllocError, Global};

/// Puts a path behind the text as it is printed on standard output, with its end.
pub(crate) fn push_path(text: &mut Vec<u8>, path: &[u8], ending: Ending) -> Result<(), AllocError>
    ensures { OnOk result (text.new.items ≡ text.old.items ++ path_text ending path.now) }
{
    match ending {
        Ending::Line => {
            escape_into(path, text)?;
            text.push(b'\n')?;
        }
        Ending::Null => {
            text.extend_from_slice(path)?;
            text.push(0)?;
        }
    }
    Ok(())
}

/// Puts what is behind each path behind the text.
pub(crate) fn push_end(text: &mut Vec<u8>, ending: Ending) -> Result<(), AllocError>
    ensures { OnOk result (text.new.items ≡ text.old.items ++ end_of ending) }
{
    match ending {
        Ending::Line => text.push(b'\n')?,
        Ending::Null => text.push(0)?,
    }
    Ok(())
}

/// Puts a path behind the text as it is printed on a line.
pub(crate) fn escape_into(path: &[u8], text: &mut Vec<u8>) -> Result<(), AllocError>
    ensures { OnOk result (text.new.items ≡ text.old.items ++ escaped path.now) }
{
    let mut left = 0;
    let mut rest = path;
    while let [_, behind @ ..] = rest {
        left = escape_next(rest, left, text)?;
        rest = behind;
    }
    Ok(())
}

/// A path, or a word, as it is printed on a line.
pub(crate) fn escaped(alloc: Global, path: &[u8]) -> Result<Vec<u8>, AllocError>
    ensures { IfOk result (λ text. text.items ≡ escaped path.now) }
{
    let mut text = Vec::new(alloc);
    escape_into(path, &mut text)?;
    Ok(text)
}

/// Puts the first of these bytes behind the text, of which `left` are of a character that is not escaped. Answers how
/// many of the others are.
fn escape_next(bytes: &[u8], left: usize, text: &mut Vec<u8>) -> Result<usize, AllocError>
    requires { 0 < length bytes.now }
    ensures { IfOk result (λ next. text.new.items ++ escaped_behind next (drop 1 bytes.now)
        ≡ text.old.items ++ escaped_behind left bytes.now) }
{
    let now = if left == 0 { plain_length(bytes) } else { left };
    if now == 0 {
        escape_byte(bytes[0], text)?;
        Ok(0)
    } else {
        text.push(bytes[0])?;
        Ok(now - 1)
    }
}

/// How many bytes at the start are of characters that are not escaped.
pub(crate) fn plain_run(bytes: &[u8]) -> usize
    requires { 0 < length bytes.now }
    ensures within { result ≤ length bytes.now }
    ensures plain { escaped bytes.now ≡ take result bytes.now ++ escaped (drop result bytes.now) }
    ensures stops { result ≡ 0 → plain_length bytes.now ≡ 0 }
{
    let mut run = 0;
    while run < bytes.len() {
        let plain = plain_length(&bytes[run..]);
        if plain == 0 {
            return run;
        }
        run += plain;
    }
    run
}

/// How many bytes the character has that is at the start, if it is not escaped, and else 0.
fn plain_length(bytes: &[u8]) -> usize
    ensures { result ≡ plain_length bytes.now }
{
    let Some(character) = char::from_u32(code_at(bytes)) else {
        return 0;
    };
    let mut buffer = [0; 4];
    let encoded = character.encode_utf8(&mut buffer).as_bytes();
    if is_printable(character) && character != '\\' && bytes.starts_with(encoded) {
        encoded.len()
    } else {
        0
    }
}

/// The number of the character with which the bytes begin, if they begin with one.
fn code_at(bytes: &[u8]) -> u32
    ensures { result ≡ code_at bytes.now }
{
    let first = byte_at(bytes, 0);
    if first < 128 {
        first
    } else if first < 224 {
        first % 32 * 64 + low_bits(bytes, 1)
    } else if first < 240 {
        first % 16 * 4096 + low_bits(bytes, 1) * 64 + low_bits(bytes, 2)
    } else {
        first % 8 * 262_144
            + low_bits(bytes, 1) * 4096
            + low_bits(bytes, 2) * 64
            + low_bits(bytes, 3)
    }
}

/// The six low bits of one of the bytes behind the first.
fn low_bits(bytes: &[u8], index: usize) -> u32
    ensures value { result ≡ low_bits bytes.now index }
    ensures few { result < 64 }
{
    byte_at(bytes, index) % 64
}

/// The byte at an index, or 0 if there is none.
fn byte_at(bytes: &[u8], index: usize) -> u32
    ensures value { result ≡ get_or bytes.now index 0 }
    ensures byte { result < 256 }
{
    match bytes.get(index) {
        Some(byte) => u32::from(*byte),
        None => 0,
    }
}

/// Whether it is neither a control character nor invisible.
fn is_printable(character: char) -> bool
    ensures { result ≡ is_printable character }
{
    !(character.is_control() || is_invisible(character))
}

/// Whether it ends a line, controls the direction of writing, or has no width.
fn is_invisible(character: char) -> bool
    ensures { result ≡ is_invisible character }
{
    matches!(
        character,
        '\u{AD}'
            | '\u{61C}'
            | '\u{200B}'..='\u{200F}'
            | '\u{2028}'..='\u{202E}'
            | '\u{2060}'..='\u{206F}'
            | '\u{FEFF}'
    )
}

fn escape_byte(byte: u8, text: &mut Vec<u8>) -> Result<(), AllocError>
    ensures { OnOk result (text.new.items ≡ text.old.items ++ escaped_byte byte) }
{
    match byte {
        b'\\' => text.extend_from_slice(b"\\\\")?,
        b'\n' => text.extend_from_slice(b"\\n")?,
        b'\t' => text.extend_from_slice(b"\\t")?,
        _ => push_hex(byte, text)?,
    }
    Ok(())
}

fn push_hex(byte: u8, text: &mut Vec<u8>) -> Result<(), AllocError>
    ensures { OnOk result (text.new.items ≡ text.old.items ++ hex_escape byte) }
{
    text.extend_from_slice(&hex_escape(byte))
}

/// The byte as `\x` and two hexadecimal digits.
pub(crate) fn hex_escape(byte: u8) -> [u8; 4]
    ensures { result ≡ hex_escape byte }
{
    [b'\\', b'x', hex_digit(byte / 16), hex_digit(byte % 16)]
}

fn hex_digit(digit: u8) -> u8
    requires { digit < 16 }
    ensures { result ≡ digit_char digit }
{
    if digit < 10 { 48 + digit } else { 87 + digit }
}
