//! The call that runs an open program over a frame stream.

ghost use Rattle.std.specs.Prelude.{◌≡◌, ◌≢◌, ◌↔◌, None, IfSome, IfNone};
ghost use Rattle.calls.specs.OpenSessions.{StaysOpen};
ghost use Rattle.calls.specs.MapTexts.{IsListing};
ghost use Rattle.calls.specs.SessionStreams.{StopsStream, StreamsMachine, StreamsSession};

use crate::sessions::Session;
use crate::statuses::{MEMORY, OK, WRONG};
use crate::streaming::{Streamed, Written, fill_streamed};
use frames::InMemory;
use host::run_on;
use machine::Machine;
use std::alloc::Global;

// The report and the frames out of a run over a stream. None: memory ran out.
fn stream_on(alloc: Global, machine: &mut Machine, stream: &[u8]) -> Option<Written>
    ensures written { IfSome result (λ w. StreamsMachine stream.now
        w.report.items w.sent.items w.tally machine.old machine.new) }
    ensures stopped { IfNone result (StopsStream stream.now machine.old machine.new) }
{
    let mut report = Vec::new(alloc);
    let mut sent = Vec::new(alloc);
    let source = InMemory { bytes: stream };
    match run_on(machine, source, &mut report, &mut sent) {
        Ok(tally) => Some(Written {
            report,
            sent,
            tally,
        }),
        Err(_) => None,
    }
}

/// Runs an open program on the packet frames of a stream, from what its maps hold on, and they go
/// on. The report is written to `report` and the frames out to `sent`, as far as there is room. It
/// takes memory for all of them.
pub fn stream_session(
    alloc: Global,
    session: &mut Session,
    stream: &[u8],
    report: &mut [u8],
    sent: &mut [u8],
    out: &mut Streamed,
) -> u32
    ensures ran { result ≡ OK → StaysOpen session.old.held session.new.held
        (StreamsSession stream.now report.old sent.old report.new sent.new out.new) }
    ensures read { result ≡ OK → out.new.fault ≢ 5 }
    ensures wrong { (result ≡ WRONG) ↔ (session.old.held ≡ None) }
    ensures memory { result ≡ MEMORY → StaysOpen session.old.held session.new.held
        (StopsStream stream.now) }
    ensures session_kept { result ≡ WRONG → session.new.held ≡ session.old.held }
    ensures report_kept { result ≢ OK → report.new ≡ report.old }
    ensures sent_kept { result ≢ OK → sent.new ≡ sent.old }
    ensures out_kept { result ≢ OK → out.new ≡ out.old }
    ensures status { IsListing result }
{
    let Some(mut machine) = session.take(alloc) else {
        return WRONG;
    };
    let written = stream_on(alloc, &mut machine, stream);
    session.put(machine);
    let Some(written) = written else {
        return MEMORY;
    };
    *out = fill_streamed(&written, report, sent);
    OK
}
