//! Exports that run a program on one packet, or over a stream.

ghost use Rattle.std.specs.Prelude.{◌≡◌, ◌≢◌, ◌<◌, ◌↔◌, length, ◌⊎◌};
ghost use Rattle.isa_model.specs.Code.Limits.{max_steps};
ghost use Rattle.isa_model.specs.{max_packet};
ghost use Rattle.calls.specs.Crossing.{IsStatus, IsVerdictStatus};
ghost use Rattle.calls.specs.Verdicts.{IsRefusedImage, IsNoImage};
ghost use Rattle.calls.specs.Runs.{RunsProgram};
ghost use Rattle.calls.specs.Streams.{RunsStream};
ghost use Rattle.calls.specs.Traces.{ReturnsTrace};

use calls::running::{Ended, Head, run_once};
use calls::statuses::{OK, REFUSED, WRONG};
use calls::streaming::{Streamed, run_stream};
use calls::tracing::{TracedEnd, trace_once};
use std::alloc::Global;

/// Verifies an image, and runs its program on a packet, on starting maps. `xdpvm_verify` says
/// why an image is refused.
#[unsafe(no_mangle)]
pub extern "C" fn xdpvm_run_once(
    alloc: Global,
    image: &[u8],
    head: &Head,
    packet: &mut [u8],
    out: &mut Ended,
) -> u32
    ensures ran { result ≡ OK → RunsProgram image.now (record {
      time = head.now.time;
      interface = head.now.interface;
      queue = head.now.queue;
    }) packet.old (record { r0 = out.new.r0; steps = out.new.steps }) packet.new }
    ensures wrong { (result ≡ WRONG) ↔ (max_packet < length packet.old) }
    ensures refused { result ≡ REFUSED → IsRefusedImage image.now }
    ensures out_kept { result ≢ OK → out.new ≡ out.old }
    ensures packet_kept { result ≢ OK → packet.new ≡ packet.old }
    ensures status { IsStatus result }
{
    run_once(alloc, image, head, packet, out)
}

/// Runs the program of an image on a packet, on starting maps, at most `limit` steps (1 to
/// 1,000,000), verified or not. After a trap or the limit the packet is as the last step left it.
#[unsafe(no_mangle)]
pub extern "C" fn xdpvm_trace_once(
    alloc: Global,
    image: &[u8],
    head: &Head,
    packet: &mut [u8],
    limit: u32,
    out: &mut TracedEnd,
) -> u32
    ensures traced { result ≡ OK → ReturnsTrace image.now (record {
      time = head.now.time;
      interface = head.now.interface;
      queue = head.now.queue;
    }) packet.old limit out.new packet.new }
    ensures wrong { (result ≡ WRONG)
        ↔ ((max_packet < length packet.old) ⊎ ((limit ≡ 0) ⊎ (max_steps < limit))) }
    ensures refused { result ≡ REFUSED → IsNoImage image.now }
    ensures out_kept { result ≢ OK → out.new ≡ out.old }
    ensures packet_kept { result ≢ OK → packet.new ≡ packet.old }
    ensures status { IsStatus result }
{
    trace_once(alloc, image, head, packet, limit, out)
}

/// Verifies an image, and runs its program on the packet frames of a stream. The report is written
/// to `report` and the frames out to `sent`, as far as there is room; the maps keep their contents
/// from frame to frame.
#[unsafe(no_mangle)]
pub extern "C" fn xdpvm_run_stream(
    alloc: Global,
    image: &[u8],
    stream: &[u8],
    report: &mut [u8],
    sent: &mut [u8],
    out: &mut Streamed,
) -> u32
    ensures ran { result ≡ OK → RunsStream image.now stream.now
        report.old sent.old report.new sent.new out.new }
    ensures read { result ≡ OK → out.new.fault ≢ 5 }
    ensures refused { result ≡ REFUSED → IsRefusedImage image.now }
    ensures report_kept { result ≢ OK → report.new ≡ report.old }
    ensures sent_kept { result ≢ OK → sent.new ≡ sent.old }
    ensures out_kept { result ≢ OK → out.new ≡ out.old }
    ensures status { IsVerdictStatus result }
{
    run_stream(alloc, image, stream, report, sent, out)
}
