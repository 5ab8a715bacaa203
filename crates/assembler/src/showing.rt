//! The line in which a text is refused, and a caret under the column.

ghost use Rattle.std.specs.Prelude.{◌≡◌, ◌<◌, ◌++◌, ◌∷◌, [], map, IfOk, OnOk};
ghost use Rattle.std.specs.String.{string_bytes};
ghost use Rattle.assembler.specs.Shown.{after_line, after_lines, line_of, before, from, searched, shown_byte, padding_byte, shown_line, shown};

use super::errors::AsmError;
use super::hints::hint;
use crate::line_len;
use std::alloc::{AllocError, Global};

/// The most bytes of a line that is shown.
const MAX_SHOWN: usize = 160;

/// The most bytes on each side of a column that a hint looks at.
pub const MAX_SEARCHED: usize = 1024;

// What follows the first line feed.
fn after_line(text: &[u8]) -> &[u8]
    ensures { result.now ≡ after_line text.now }
{
    match &text[line_len(text)..] {
        [_, rest @ ..] => rest,
        [] => &[],
    }
}

// The text without its first `count` lines.
fn after_lines(text: &[u8], count: usize) -> &[u8]
    ensures { result.now ≡ after_lines count text.now }
{
    let mut rest = text;
    for skipped in 0..count {
        rest = after_line(rest);
    }
    rest
}

// The bytes of a line.
fn line_of(text: &[u8], line: usize) -> &[u8]
    ensures { result.now ≡ line_of line text.now }
{
    let rest = after_lines(text, line.saturating_sub(1));
    &rest[..line_len(rest)]
}

// The bytes of a line before a column, and those from there on.
fn parted(line: &[u8], column: usize) -> (&[u8], &[u8])
    ensures front { result.0.now ≡ before column line.now }
    ensures back { result.1.now ≡ from column line.now }
{
    let count = column.saturating_sub(1);
    if count <= line.len() {
        line.split_at(count)
    } else {
        (line, &[])
    }
}

// The bytes that a hint looks at.
fn searched(bytes: &[u8]) -> &[u8]
    ensures { result.now ≡ searched bytes.now }
{
    &bytes[..MAX_SEARCHED.min(bytes.len())]
}

fn shown_byte(byte: u8) -> u8
    ensures value { result ≡ shown_byte byte }
    ensures ascii { result < 128 }
{
    if byte == b'\t' || (byte >= b' ' && byte < 127) {
        byte
    } else {
        b'?'
    }
}

fn padding_byte(byte: u8) -> u8
    ensures value { result ≡ padding_byte byte }
    ensures ascii { result < 128 }
{
    if byte == b'\t' { b'\t' } else { b' ' }
}

// Adds a byte of ASCII.
fn push_byte(written: &mut String, byte: u8) -> Result<(), AllocError>
    requires { byte < 128 }
    ensures { OnOk result (string_bytes written.new ≡ string_bytes written.old ++ (byte ∷ [])) }
{
    written.push(char::from(byte))
}

// The bytes of a line as they are shown.
fn shown_bytes(alloc: Global, line: &[u8]) -> Result<String, AllocError>
    ensures { IfOk result (λ written. string_bytes written ≡ map shown_byte line.now) }
{
    let mut written = String::new(alloc);
    for byte in line {
        push_byte(&mut written, shown_byte(*byte))?;
    }
    Ok(written)
}

// What is written below these bytes, before the caret.
fn padding(alloc: Global, front: &[u8]) -> Result<String, AllocError>
    ensures { IfOk result (λ written. string_bytes written ≡ map padding_byte front.now) }
{
    let mut written = String::new(alloc);
    for byte in front {
        push_byte(&mut written, padding_byte(*byte))?;
    }
    Ok(written)
}

// A line, and a line with a caret under the column.
fn shown_line(alloc: Global, line: &[u8], column: usize) -> Result<String, AllocError>
    ensures { IfOk result (λ written. string_bytes written ≡ shown_line column line.now) }
{
    if line.is_empty() || line.len() > MAX_SHOWN {
        return Ok(String::new(alloc));
    }
    let (front, _) = parted(line, column);
    let printable = shown_bytes(alloc, line)?;
    let padding = padding(alloc, front)?;
    format!(in alloc; "{printable}\n{padding}^\n")
}

/// The message about a text that is refused, after the sentence with line and column: the
/// line with a caret under the column, and a hint.
pub fn shown(alloc: Global, text: &[u8], error: AsmError) -> Result<String, AllocError>
    ensures { IfOk result (λ message. string_bytes message ≡ shown text.now error) }
{
    let line = line_of(text, error.line);
    let (front, back) = parted(line, error.column);
    let lines = shown_line(alloc, line, error.column)?;
    let help = hint(error.kind, searched(front), searched(back));
    format!(in alloc; "{lines}{help}\n")
}
