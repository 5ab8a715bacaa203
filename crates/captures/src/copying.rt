//! Writes the frames of a stream, each as it comes.

ghost use Rattle.std.specs.Prelude.{◌≡◌, ◌≤◌, length, OnOk, OnErr};
ghost use Rattle.std.specs.Io.KnownBytes.{Appends, Keeps};
ghost use Rattle.isa_model.specs.Code.Limits.{max_body};
ghost use Rattle.isa_model.specs.declared.versions.Version.TheVariants.{One};
ghost use Rattle.captures.specs.declared.frame_forms.FrameForm.TheVariants.{Plain};
ghost use Rattle.exact_io.specs.Transfers.{AppendsBeginning};
ghost use Rattle.frames.specs.Inputs.{IsBegunVersion};
ghost use Rattle.captures.specs.Copies.{CopiesFrames, frame_as, start_as};

use super::frame_forms::{CopyCounts, FrameForm, StreamEnd};
use super::placing::Placing;
use super::texts::write_text;
use frames::{FrameReader, Next, Source, Unwritten, write_record, write_whole};
use isa_model::{Fault, Finish, FrameHead, MAX_PACKET, Version};
use std::io::Write;

// The version of a stream, by what its reader found as the magic; version 1 if it found none.
fn version_begun(begun: Result<u8, (Fault, u64)>) -> Version
    ensures { IsBegunVersion begun result }
{
    match begun {
        Ok(number) if number == 2 => Version::Two,
        _ => Version::One,
    }
}

// Writes what stands before the frames.
fn write_start<W: Write>(out: &mut W, form: FrameForm, version: Version) -> Result<(), Unwritten>
    ensures ok { OnOk result (Appends (W.contents out.old) (W.contents out.new)
        (start_as form version)) }
    ensures err { OnErr result (AppendsBeginning (W.contents out.old) (W.contents out.new)
        (start_as form version)) }
{
    match (form, version) {
        (FrameForm::Records, Version::One) => write_whole(out, b"XPF1"),
        (FrameForm::Records, Version::Two) => write_whole(out, b"XPF2"),
        (FrameForm::Plain, _) => write_whole(out, b"XPF1"),
        (FrameForm::Reasoned, _) => write_whole(out, b"XPF2"),
        (FrameForm::Text, _) => Ok(()),
    }
}

// Writes a frame as version 1 has it, or nothing of one that it does not take.
fn write_plain<W: Write>(
    out: &mut W,
    head: &FrameHead,
    body: &[u8],
    reason: u32,
) -> Result<(), Unwritten>
    ensures ok { OnOk result (Appends (W.contents out.old) (W.contents out.new)
        (frame_as Plain One
        (record { head = head.now; body = body.now; reason = reason }))) }
    ensures err { OnErr result (AppendsBeginning (W.contents out.old) (W.contents out.new)
        (frame_as Plain One
        (record { head = head.now; body = body.now; reason = reason }))) }
{
    if FrameForm::Plain.is_left_out(body, reason) {
        return Ok(());
    }
    write_record(out, Version::One, head, body, reason)
}

// Writes a frame.
fn write_as<W: Write>(
    out: &mut W,
    form: FrameForm,
    version: Version,
    head: &FrameHead,
    body: &[u8],
    reason: u32,
) -> Result<(), Unwritten>
    requires { length body.now ≤ max_body version }
    ensures ok { OnOk result (Appends (W.contents out.old) (W.contents out.new)
        (frame_as form version
        (record { head = head.now; body = body.now; reason = reason }))) }
    ensures err { OnErr result (AppendsBeginning (W.contents out.old) (W.contents out.new)
        (frame_as form version
        (record { head = head.now; body = body.now; reason = reason }))) }
{
    match form {
        FrameForm::Records => write_record(out, version, head, body, reason),
        FrameForm::Plain => write_plain(out, head, body, reason),
        FrameForm::Reasoned => write_record(out, Version::Two, head, body, reason),
        FrameForm::Text => write_text(out, head, body, reason),
    }
}

// Hands on what was written, if more frames may have to be waited for. A writer that fails here has
// to fail again when it is next written to or flushed.
#[inline(always)]
fn hand_on<R: Source, W: Write>(reader: &FrameReader<R>, out: &mut W)
    ensures { Keeps (W.contents out.old) (W.contents out.new) }
{
    if !reader.may_wait() {
        return;
    }
    let _ = out.flush();
}

/// Writes the frames of the stream that a source returns, each of them before the next one is
/// waited for, and returns how many there were, of how many not all was written, and how the stream
/// ended. Each frame gets the interface and the queue of the placing, where it has them.
pub fn copy_frames<R: Source + Drop, W: Write>(
    form: FrameForm,
    placing: Placing,
    source: R,
    out: &mut W,
) -> Result<StreamEnd, Unwritten>
    ensures { CopiesFrames form placing
        record { bytes = R.remaining source; may_fail = R.may_fail }
        (W.contents out.old) (W.contents out.new) result }
{
    let mut reader = FrameReader::new(source);
    let mut buffer = [0; MAX_PACKET];
    let version = version_begun(reader.begin());
    match write_start(out, form, version) {
        Ok(()) => {}
        Err(failed) => return Err(failed),
    }
    let mut counts = CopyCounts::none();
    'frames: loop {
        hand_on(&reader, out);
        match reader.next(&mut buffer) {
            Next::Frame(head, length, reason) => {
                let body = &buffer[..length];
                let own = placing.placed(&head);
                match write_as(out, form, version, &own, body, reason) {
                    Ok(()) => counts = counts.after(form, body, reason),
                    Err(failed) => return Err(failed),
                }
            }
            Next::End => {
                return Ok(StreamEnd {
                    counts,
                    finish: Finish::End,
                });
            }
            Next::Fault(fault, offset) => {
                return Ok(StreamEnd {
                    counts,
                    finish: Finish::Fault(fault, offset),
                });
            }
        }
    }
}
