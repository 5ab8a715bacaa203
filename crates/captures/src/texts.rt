//! Writes the text of a frame.

ghost use Rattle.std.specs.Prelude.{◌≡◌, ◌+◌, ◌≤◌, ◌++◌, [], length, take, OnOk, OnErr};
ghost use Rattle.std.specs.Io.KnownBytes.{Appends};
ghost use Rattle.isa_model.specs.Code.Limits.{max_packet};
ghost use Rattle.exact_io.specs.Transfers.{AppendsBeginning};
ghost use Rattle.captures.specs.Texts.{frame_text, head_line, reason_text, row_count, rows_text};

use super::rows::{LINE, spell_row};
use crate::put;
use frames::{Unwritten, write_whole};
use isa_model::FrameHead;
use itoa::Buffer;
use std::io::Write;

// Puts a reason after the first `start` bytes, if there is one.
#[inline(never)]
fn put_reason(buffer: &mut [u8; LINE], start: usize, reason: u32) -> usize
    requires { start ≤ 70 }
    ensures front { take result buffer.new ≡ take start buffer.old ++ reason_text reason }
    ensures few { result ≤ start + 18 }
{
    if reason == 0 {
        return start;
    }
    let mut digits = Buffer::new();
    let at = put(buffer, start, b" reason ");
    put(buffer, at, digits.format(reason).as_bytes())
}

// Spells the first line of a frame, and returns how many bytes it has.
fn spell_head(buffer: &mut [u8; LINE], head: &FrameHead, reason: u32) -> usize
    ensures front { take result buffer.new
        ≡ head_line (record { head = head.now; body = []; reason = reason }) }
    ensures inside { result ≤ 96 }
{
    let mut digits = Buffer::new();
    let at = put(buffer, 0, b"frame ");
    let at = put(buffer, at, digits.format(head.time).as_bytes());
    let at = put(buffer, at, b" interface ");
    let at = put(buffer, at, digits.format(head.interface).as_bytes());
    let at = put(buffer, at, b" queue ");
    let at = put(buffer, at, digits.format(head.queue).as_bytes());
    let at = put_reason(buffer, at, reason);
    put(buffer, at, b"\n")
}

// Writes the lines of a frame's bytes.
fn write_rows<W: Write>(out: &mut W, body: &[u8]) -> Result<(), Unwritten>
    requires { length body.now ≤ max_packet }
    ensures ok { OnOk result (Appends (W.contents out.old) (W.contents out.new)
        (rows_text body.now (row_count body.now))) }
    ensures err { OnErr result (AppendsBeginning (W.contents out.old) (W.contents out.new)
        (rows_text body.now (row_count body.now))) }
{
    let mut line = [0; LINE];
    let count = (body.len() + 15) / 16;
    'rows: for number in 0..count {
        let offset = 16 * number;
        let rest = &body[offset..];
        let row = &rest[..rest.len().min(16)];
        let size = spell_row(&mut line, offset as u16, row);
        write_whole(out, &line[..size])?;
    }
    Ok(())
}

/// Writes the text of a frame.
pub fn write_text<W: Write>(
    out: &mut W,
    head: &FrameHead,
    body: &[u8],
    reason: u32,
) -> Result<(), Unwritten>
    requires { length body.now ≤ max_packet }
    ensures ok { OnOk result (Appends (W.contents out.old) (W.contents out.new)
        (frame_text (record { head = head.now; body = body.now; reason = reason }))) }
    ensures err { OnErr result (AppendsBeginning (W.contents out.old) (W.contents out.new)
        (frame_text (record { head = head.now; body = body.now; reason = reason }))) }
{
    let mut line = [0; LINE];
    let size = spell_head(&mut line, head, reason);
    write_whole(out, &line[..size])?;
    write_rows(out, body)
}
