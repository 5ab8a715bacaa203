//! The loop over all packet frames of a stream, written once for every machine. It takes no memory.
ghost use Rattle.std.specs.Prelude.{◌≡◌, ◌≢◌, ◌≤◌, length};
ghost use Rattle.std.specs.Io.KnownBytes.{Keeps};
ghost use Rattle.isa_model.specs.Code.Limits.{max_body};
ghost use Rattle.isa_model.specs.Reporting.Reports.{frame_pieces, skip_pieces, turn_pieces, turn_on, contents_left};
ghost use Rattle.host.specs.Forms.{report_form_by};
ghost use Rattle.host.specs.Stops.{noted_on};
ghost use Rattle.host.specs.Turns.{rule_of, TakesFrames};
ghost use Rattle.host.specs.Writing.{WritesEach};

use super::endings::StreamEnded;
use super::errors::HostError;
use super::forms::ReportForm;
use super::magics::write_magic;
use super::reasons::{end_reason, is_written};
use super::reports::Report;
use super::runners::Runner;
use super::versions::version_begun;
use frames::{FrameReader, Next, Source, write_record};
use isa_model::{Finish, FrameHead, MAX_PACKET, Version};
use std::io::Write;

// A frame of the stream without its body: its number, its head, and its reason.
#[derive(Clone, Copy)]
struct Arrival {
    number: u32,
    head: FrameHead,
    reason: u32,
}

// Runs a frame, and writes its line and then its record, if it is sent on.
fn run_frame<M: Runner, L: Report, W: Write>(
    machine: &mut M,
    form: ReportForm,
    frame: Arrival,
    body: &mut [u8],
    report: &mut L,
    out: &mut W,
) -> Result<(), HostError>
    requires { length body.old ≤ max_body form.stream }
    ensures writes { WritesEach
        record { report = L.written report.old; sent = W.contents out.old }
        record { report = L.written report.new; sent = W.contents out.new } result
        (frame_pieces (report_form_by form) frame.number
        record { head = frame.head; body = body.old; reason = frame.reason }
        (rule_of (M.bounded machine.old) frame.head body.old (M.contents machine.old))) }
    ensures contents { M.contents machine.new
        ≡ (rule_of (M.bounded machine.old) frame.head body.old
        (M.contents machine.old)).contents }
    ensures noted { M.noted machine.new
        ≡ (M.notes machine.old).run (M.noted machine.old) frame.number frame.head body.old
        (M.contents machine.old) }
    ensures notes { M.notes machine.new ≡ M.notes machine.old }
    ensures bounded { M.bounded machine.new ≡ M.bounded machine.old }
    ensures made { result ≢ Err HostError.Memory }
{
    let length = body.len();
    let end = machine.run_packet(frame.number, frame.head, body);
    match report.put_frame(form, frame.number, end, length) {
        Ok(()) => {}
        Err(_) => return Err(HostError::Report),
    }
    if is_written(form.stream, end) {
        let reason = end_reason(form.program, end);
        match write_record(out, form.stream, &frame.head, body, reason) {
            Ok(()) => {}
            Err(_) => return Err(HostError::Frames),
        }
    }
    Ok(())
}

// Writes the line of a frame that is not run, and then its record as it came.
fn skip_frame<L: Report, W: Write>(
    form: ReportForm,
    frame: Arrival,
    body: &[u8],
    report: &mut L,
    out: &mut W,
) -> Result<(), HostError>
    requires { length body.now ≤ max_body form.stream }
    ensures writes { WritesEach
        record { report = L.written report.old; sent = W.contents out.old }
        record { report = L.written report.new; sent = W.contents out.new } result
        (skip_pieces (report_form_by form) frame.number
        record { head = frame.head; body = body.now; reason = frame.reason }) }
    ensures made { result ≢ Err HostError.Memory }
{
    match report.put_skip(frame.number, body.len(), frame.reason) {
        Ok(()) => {}
        Err(_) => return Err(HostError::Report),
    }
    match write_record(out, form.stream, &frame.head, body, frame.reason) {
        Ok(()) => Ok(()),
        Err(_) => Err(HostError::Frames),
    }
}

// Runs a frame, unless it has a reason already.
fn take_frame<M: Runner, L: Report, W: Write>(
    machine: &mut M,
    form: ReportForm,
    frame: Arrival,
    body: &mut [u8],
    report: &mut L,
    out: &mut W,
) -> Result<(), HostError>
    requires { length body.old ≤ max_body form.stream }
    ensures writes { WritesEach
        record { report = L.written report.old; sent = W.contents out.old }
        record { report = L.written report.new; sent = W.contents out.new } result
        (turn_pieces (report_form_by form) frame.number
        record { head = frame.head; body = body.old; reason = frame.reason }
        (turn_on (rule_of (M.bounded machine.old)) (M.contents machine.old)
        record { head = frame.head; body = body.old; reason = frame.reason })) }
    ensures contents { M.contents machine.new ≡ contents_left (M.contents machine.old)
        (turn_on (rule_of (M.bounded machine.old)) (M.contents machine.old)
        record { head = frame.head; body = body.old; reason = frame.reason }) }
    ensures noted { M.noted machine.new
        ≡ noted_on (M.notes machine.old) (M.noted machine.old) frame.number
        (M.contents machine.old)
        record { head = frame.head; body = body.old; reason = frame.reason } }
    ensures notes { M.notes machine.new ≡ M.notes machine.old }
    ensures bounded { M.bounded machine.new ≡ M.bounded machine.old }
    ensures made { result ≢ Err HostError.Memory }
{
    if frame.reason == 0 {
        run_frame(machine, form, frame, body, report, out)
    } else {
        machine.pass_over();
        skip_frame(form, frame, body, report, out)
    }
}

// Hands on what was written, if more frames may have to be waited for. A writer that fails here has
// to fail again when it is next written to or flushed.
#[inline(always)]
fn hand_on<R: Source, L: Report, W: Write>(reader: &FrameReader<R>, report: &mut L, out: &mut W)
    ensures report { Keeps (L.written report.old) (L.written report.new) }
    ensures out { Keeps (W.contents out.old) (W.contents out.new) }
{
    if !reader.may_wait() {
        return;
    }
    report.hand_on();
    let _ = out.flush();
}

/// Runs a machine on the frames of the stream that a source returns, each run within `limit` steps.
/// The frames' lines are put into a report, and the frames out are written with the magic of the
/// stream that is read. Before frames are waited for, both are handed on.
pub fn run_frames<M: Runner, R: Source + Drop, L: Report, W: Write>(
    machine: &mut M,
    limit: u32,
    program: Version,
    source: R,
    report: &mut L,
    out: &mut W,
) -> Result<StreamEnded, HostError>
    requires limit { limit ≡ (M.bounded machine.old).bound }
    requires program { program ≡ (M.bounded machine.old).program.version }
    ensures takes { TakesFrames
        record { bytes = R.remaining source; may_fail = R.may_fail }
        record { report = L.written report.old; sent = W.contents out.old }
        record {
          bounded = M.bounded machine.old;
          contents = M.contents machine.old;
          noted = M.noted machine.old;
          notes = M.notes machine.old;
        }
        record { report = L.written report.new; sent = W.contents out.new }
        record {
          bounded = M.bounded machine.new;
          contents = M.contents machine.new;
          noted = M.noted machine.new;
          notes = M.notes machine.new;
        } result }
    ensures made { result ≢ Err HostError.Memory }
{
    let mut reader = FrameReader::new(source);
    let mut buffer = [0; MAX_PACKET];
    let stream = version_begun(reader.begin());
    match write_magic(out, stream) {
        Ok(()) => {}
        Err(_) => return Err(HostError::Frames),
    }
    let form = ReportForm {
        limit,
        program,
        stream,
    };
    let mut number = 0u32;
    'frames: loop {
        hand_on(&reader, report, out);
        match reader.next(&mut buffer) {
            Next::Frame(head, length, reason) => {
                let frame = Arrival {
                    number,
                    head,
                    reason,
                };
                let body = &mut buffer[..length];
                match take_frame(machine, form, frame, body, report, out) {
                    Ok(()) => number += 1,
                    Err(error) => return Err(error),
                }
            }
            Next::End => {
                return Ok(StreamEnded {
                    frames: number,
                    finish: Finish::End,
                });
            }
            Next::Fault(fault, offset) => {
                return Ok(StreamEnded {
                    frames: number,
                    finish: Finish::Fault(fault, offset),
                });
            }
        }
    }
}
