//! Exports that open and close sessions, and run their programs.

ghost use Rattle.std.specs.Prelude.{◌≡◌, ◌≢◌, ◌↔◌, None, ◌<◌, ◌≤◌, ◌⊎◌, length};
ghost use Rattle.isa_model.specs.{max_packet};
ghost use Rattle.calls.specs.Crossing.{IsStatus, IsChange};
ghost use Rattle.calls.specs.Verdicts.{IsRefusedImage};
ghost use Rattle.calls.specs.OpenSessions.{HoldsOpen, OpensSession, OpensByTable, StaysOpen};
ghost use Rattle.calls.specs.MapTexts.{IsListing};
ghost use Rattle.calls.specs.Sessions.{RunsSession};
ghost use Rattle.calls.specs.SessionStreams.{StopsStream, StreamsSession};
ghost use Rattle.calls.specs.Tables.{IsRefusedTable};

use calls::Session;
use calls::opening::{close_session, open_image, open_with_table};
use calls::running::{Ended, Head};
use calls::session_runs::run_session;
use calls::session_streams::stream_session;
use calls::statuses::{MEMORY, OK, REFUSED, WRONG};
use calls::streaming::Streamed;
use std::alloc::Global;

/// Verifies an image, and opens a session on its program, with starting maps. Before the call the
/// session is closed: all zero bytes, or what `xdpvm_close` left.
#[unsafe(no_mangle)]
pub extern "C" fn xdpvm_open(alloc: Global, image: &[u8], session: &mut Session) -> u32
    ensures opened { result ≡ OK → OpensSession image.now session.new.held }
    ensures wrong { (result ≡ WRONG) ↔ (session.old.held ≢ None) }
    ensures refused { result ≡ REFUSED → IsRefusedImage image.now }
    ensures kept { result ≢ OK → session.new.held ≡ session.old.held }
    ensures status { IsStatus result }
{
    open_image(alloc, image, session)
}

/// Opens a session on the program of an image that a proof table shows to be safe, whoever made the
/// table: the session has the bound that the table shows.
#[unsafe(no_mangle)]
pub extern "C" fn xdpvm_open_with_table(
    alloc: Global,
    image: &[u8],
    table: &[u8],
    session: &mut Session,
) -> u32
    ensures opened { result ≡ OK → OpensByTable image.now table.now session.new.held }
    ensures wrong { (result ≡ WRONG) ↔ (session.old.held ≢ None) }
    ensures refused { result ≡ REFUSED → IsRefusedTable image.now table.now }
    ensures kept { result ≢ OK → session.new.held ≡ session.old.held }
    ensures status { IsStatus result }
{
    open_with_table(alloc, image, table, session)
}

/// Runs an open program on a packet, in place. Its maps keep their contents from run to run.
#[unsafe(no_mangle)]
pub extern "C" fn xdpvm_run(
    alloc: Global,
    session: &mut Session,
    head: &Head,
    packet: &mut [u8],
    out: &mut Ended,
) -> u32
    ensures ran { result ≡ OK → RunsSession session.old.held session.new.held (record {
      time = head.now.time;
      interface = head.now.interface;
      queue = head.now.queue;
    }) packet.old (record { r0 = out.new.r0; steps = out.new.steps }) packet.new }
    ensures within { result ≡ OK → HoldsOpen session.old.held (λ m. out.new.steps ≤ m.bound) }
    ensures wrong { (result ≡ WRONG)
        ↔ ((session.old.held ≡ None) ⊎ (max_packet < length packet.old)) }
    ensures session_kept { result ≢ OK → session.new.held ≡ session.old.held }
    ensures out_kept { result ≢ OK → out.new ≡ out.old }
    ensures packet_kept { result ≢ OK → packet.new ≡ packet.old }
    ensures status { IsChange result }
{
    run_session(alloc, session, head, packet, out)
}

/// Runs an open program on the packet frames of a stream, from what its maps hold on, and they go
/// on. The report is written to `report` and the frames out to `sent`, as far as there is room. It
/// takes memory for all of them.
#[unsafe(no_mangle)]
pub extern "C" fn xdpvm_stream(
    alloc: Global,
    session: &mut Session,
    stream: &[u8],
    report: &mut [u8],
    sent: &mut [u8],
    out: &mut Streamed,
) -> u32
    ensures ran { result ≡ OK → StaysOpen session.old.held session.new.held
        (StreamsSession stream.now report.old sent.old report.new sent.new out.new) }
    ensures read { result ≡ OK → out.new.fault ≢ 5 }
    ensures wrong { (result ≡ WRONG) ↔ (session.old.held ≡ None) }
    ensures memory { result ≡ MEMORY → StaysOpen session.old.held session.new.held
        (StopsStream stream.now) }
    ensures session_kept { result ≡ WRONG → session.new.held ≡ session.old.held }
    ensures report_kept { result ≢ OK → report.new ≡ report.old }
    ensures sent_kept { result ≢ OK → sent.new ≡ sent.old }
    ensures out_kept { result ≢ OK → out.new ≡ out.old }
    ensures status { IsListing result }
{
    stream_session(alloc, session, stream, report, sent, out)
}

/// Closes a session, and frees its memory. A closed one stays closed.
#[unsafe(no_mangle)]
pub extern "C" fn xdpvm_close(alloc: Global, session: &mut Session)
    ensures { session.new.held ≡ None }
{
    close_session(alloc, session);
}
