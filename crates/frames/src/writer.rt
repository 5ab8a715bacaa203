//! Writes the records of a stream one by one.
ghost use Rattle.std.specs.Prelude.{◌<◌, ◌≤◌, ◌++◌, length, drop, OnOk, OnErr};
ghost use Rattle.std.specs.Io.KnownBytes.{Appends};
ghost use Rattle.isa_model.specs.declared.versions.Version.TheVariants.{One, Two};
ghost use Rattle.isa_model.specs.Code.Limits.{max_body};
ghost use Rattle.isa_model.specs.Reporting.Streams.{record_bytes};
ghost use Rattle.exact_io.specs.Transfers.{AppendsBeginning};

use super::heads::{encode_head, encode_head2};
use arrayvec::ArrayVec;
use exact_io::write_bytes;
use isa_model::{FrameHead, Version};
use std::io;
use std::io::Write;

// The most bytes that are put together before they are written.
const SHORT: usize = 256;

/// A writer returned an error, or took none of the bytes. The error itself is not kept.
#[derive(Clone, Copy)]
pub struct Unwritten;

/// Writes all the bytes. Nothing is tried again after a failure.
///
/// It does what `write_bytes` does, and costs less where one call of the writer takes all of the
/// bytes and nobody asks why a write failed.
#[inline(always)]
pub fn write_whole<W: Write>(writer: &mut W, bytes: &[u8]) -> Result<(), Unwritten>
    ensures ok { OnOk result (Appends (W.contents writer.old) (W.contents writer.new) bytes.now) }
    ensures err { OnErr result
        (AppendsBeginning (W.contents writer.old) (W.contents writer.new) bytes.now) }
{
    if bytes.is_empty() {
        return Ok(());
    }
    match writer.write(bytes) {
        Ok(count) => {
            if count == bytes.len() {
                Ok(())
            } else {
                write_rest(writer, bytes, count)
            }
        }
        Err(_) => Err(Unwritten),
    }
}

// Writes what is left of some bytes, after the writer took `count` of them, if it took any.
#[cold]
#[inline(never)]
fn write_rest<W: Write>(writer: &mut W, bytes: &[u8], count: usize) -> Result<(), Unwritten>
    requires { count < length bytes.now }
    ensures ok { OnOk result (Appends (W.contents writer.old) (W.contents writer.new)
        (drop count bytes.now)) }
    ensures err { OnErr result (AppendsBeginning (W.contents writer.old) (W.contents writer.new)
        (drop count bytes.now)) }
{
    if count == 0 {
        return Err(Unwritten);
    }
    match write_bytes(writer, &bytes[count..]) {
        Ok(()) => Ok(()),
        Err(_) => Err(Unwritten),
    }
}

// Writes some bytes, and then others; by one call of the writer where they are few.
#[inline(always)]
fn write_parts<W: Write>(writer: &mut W, front: &[u8], rest: &[u8]) -> Result<(), Unwritten>
    ensures ok { OnOk result (Appends (W.contents writer.old) (W.contents writer.new)
        (front.now ++ rest.now)) }
    ensures err { OnErr result (AppendsBeginning (W.contents writer.old) (W.contents writer.new)
        (front.now ++ rest.now)) }
{
    if front.len() > SHORT || rest.len() > SHORT - front.len() {
        return write_apart(writer, front, rest);
    }
    let mut record = ArrayVec::<u8, SHORT>::new();
    let _ = record.try_extend_from_slice(front);
    let _ = record.try_extend_from_slice(rest);
    write_whole(writer, record.as_slice())
}

// Writes some bytes, and then others, where they are many.
#[inline(never)]
fn write_apart<W: Write>(writer: &mut W, front: &[u8], rest: &[u8]) -> Result<(), Unwritten>
    ensures ok { OnOk result (Appends (W.contents writer.old) (W.contents writer.new)
        (front.now ++ rest.now)) }
    ensures err { OnErr result (AppendsBeginning (W.contents writer.old) (W.contents writer.new)
        (front.now ++ rest.now)) }
{
    match write_whole(writer, front) {
        Ok(()) => write_whole(writer, rest),
        Err(failed) => Err(failed),
    }
}

/// Writes a record of a stream of this version, without the magic before the first one. Version 1
/// has no reasons, so there the reason is not written.
///
/// The body has at most as many bytes as a reader takes: the caller has to ensure that. Nothing is
/// tried again after a failure.
pub fn write_record<W: Write>(
    writer: &mut W,
    version: Version,
    head: &FrameHead,
    body: &[u8],
    reason: u32,
) -> Result<(), Unwritten>
    requires { length body.now ≤ max_body version }
    ensures ok { OnOk result (Appends (W.contents writer.old) (W.contents writer.new)
        (record_bytes version record { head = head.now; body = body.now; reason = reason })) }
    ensures err { OnErr result (AppendsBeginning (W.contents writer.old) (W.contents writer.new)
        (record_bytes version record { head = head.now; body = body.now; reason = reason })) }
{
    let length = body.len() as u32;
    match version {
        Version::One => write_parts(writer, &encode_head(head, length), body),
        Version::Two => write_parts(writer, &encode_head2(head, length, reason), body),
    }
}

/// Writes a record of an `XPF1` stream, without the magic before the first one.
///
/// The body has at most 4,096 bytes: the caller has to ensure that, for example by a buffer of that
/// size, since no reader takes a record with a longer one (`TooLong`).
///
/// The writer's first error, whichever it is, is returned; a write of no byte is the error
/// `ErrorKind::WriteZero`. Nothing is tried again.
pub fn write_frame<W: Write>(writer: &mut W, head: &FrameHead, body: &[u8]) -> io::Result<()>
    requires { length body.now ≤ max_body One }
    ensures ok { OnOk result (Appends (W.contents writer.old) (W.contents writer.new)
        (record_bytes One record { head = head.now; body = body.now; reason = 0 })) }
    ensures err { OnErr result (AppendsBeginning (W.contents writer.old) (W.contents writer.new)
        (record_bytes One record { head = head.now; body = body.now; reason = 0 })) }
{
    write_bytes(writer, &encode_head(head, body.len() as u32))?;
    write_bytes(writer, body)
}

/// Writes a record of an `XPF2` stream, with its reason, without the magic before the first one.
///
/// The body has at most 9,216 bytes: the caller has to ensure that. A writer's failure is returned
/// as by `write_frame`.
pub fn write_frame2<W: Write>(
    writer: &mut W,
    head: &FrameHead,
    body: &[u8],
    reason: u32,
) -> io::Result<()>
    requires { length body.now ≤ max_body Two }
    ensures ok { OnOk result (Appends (W.contents writer.old) (W.contents writer.new)
        (record_bytes Two record { head = head.now; body = body.now; reason = reason })) }
    ensures err { OnErr result (AppendsBeginning (W.contents writer.old) (W.contents writer.new)
        (record_bytes Two record { head = head.now; body = body.now; reason = reason })) }
{
    write_bytes(writer, &encode_head2(head, body.len() as u32, reason))?;
    write_bytes(writer, body)
}
