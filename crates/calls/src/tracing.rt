//! The call that runs a program on a packet with every access tested.

ghost use Rattle.std.specs.Prelude.{◌≡◌, ◌≢◌, ◌<◌, ◌≤◌, ◌↔◌, ◌⊎◌, length};
ghost use Rattle.isa_model.specs.{max_packet};
ghost use Rattle.isa_model.specs.Code.Limits.{max_steps};
ghost use Rattle.calls.specs.Crossing.{IsStatus};
ghost use Rattle.calls.specs.Verdicts.{IsNoImage};
ghost use Rattle.calls.specs.Traces.{ReturnsTrace, trap_number, end_of};

use crate::clocks::clock_at;
use crate::running::Head;
use crate::statuses::{MEMORY, OK, REFUSED, WRONG};
use checked_vm::Checked;
use image::{Image, ImageError};
use isa_model::{End, FrameHead, MAX_PACKET, MAX_STEPS, TrapReason};
use std::alloc::Global;

/// Says how a traced run ended: `kind` is 0 at an exit, 1 at a trap and 2 at the limit. `r0` is the
/// answer of an exit, and `reason` the number of a trap's reason; they are 0 elsewhere.
#[repr(C)]
#[derive(Clone, Copy, Drop)]
pub struct TracedEnd {
    pub r0: u64,
    pub steps: u32,
    pub kind: u32,
    pub reason: u32,
}

// The number of a reason, from 1 on in the order of docs/REFUSALS.md.
fn number_of(reason: TrapReason) -> u32
    ensures { result ≡ trap_number reason }
{
    match reason {
        TrapReason::NoCode => 1,
        TrapReason::UnsetRead => 2,
        TrapReason::ReadOnly => 3,
        TrapReason::BadPointer => 4,
        TrapReason::OutOfRange => 5,
        TrapReason::BadAccess => 6,
        TrapReason::BadCompare => 7,
        TrapReason::BadHelper => 8,
        TrapReason::TooManyCallFrames => 9,
        TrapReason::NoResult => 10,
        TrapReason::BadAction => 11,
    }
}

fn end_of(end: End, limit: u32) -> TracedEnd
    ensures { result ≡ end_of end limit }
{
    match end {
        End::Exit(r0, steps) => TracedEnd {
            r0,
            steps,
            kind: 0,
            reason: 0,
        },
        End::Trap(reason, steps) => TracedEnd {
            r0: 0,
            steps,
            kind: 1,
            reason: number_of(reason),
        },
        End::Limit => TracedEnd {
            r0: 0,
            steps: limit,
            kind: 2,
            reason: 0,
        },
    }
}

/// Runs the program of an image on a packet, on starting maps, at most `limit` steps (1 to
/// 1,000,000), verified or not. After a trap or the limit the packet is as the last step left it.
pub fn trace_once(
    alloc: Global,
    image: &[u8],
    head: &Head,
    packet: &mut [u8],
    limit: u32,
    out: &mut TracedEnd,
) -> u32
    ensures traced { result ≡ OK → ReturnsTrace image.now (record {
      time = head.now.time;
      interface = head.now.interface;
      queue = head.now.queue;
    }) packet.old limit out.new packet.new }
    ensures wrong { (result ≡ WRONG)
        ↔ ((max_packet < length packet.old) ⊎ ((limit ≡ 0) ⊎ (max_steps < limit))) }
    ensures refused { result ≡ REFUSED → IsNoImage image.now }
    ensures out_kept { result ≢ OK → out.new ≡ out.old }
    ensures packet_kept { result ≢ OK → packet.new ≡ packet.old }
    ensures status { IsStatus result }
{
    if packet.len() > MAX_PACKET || limit == 0 || limit > MAX_STEPS {
        return WRONG;
    }
    let program = match Image::parse(alloc, image) {
        Ok(program) => program,
        Err(ImageError::Memory) => return MEMORY,
        Err(_) => return REFUSED,
    };
    let Ok(mut machine) = Checked::new(alloc, program) else {
        return MEMORY;
    };
    let time = head.time;
    let head = FrameHead {
        time,
        interface: head.interface,
        queue: head.queue,
    };
    let mut clock = clock_at(time);
    let end = machine.run(head, packet, &mut clock, limit);
    *out = end_of(end, limit);
    OK
}
