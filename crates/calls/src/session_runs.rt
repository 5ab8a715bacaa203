//! The call that runs an open program on a packet.

ghost use Rattle.std.specs.Prelude.{◌≡◌, ◌≢◌, ◌<◌, ◌≤◌, ◌↔◌, ◌⊎◌, length, None};
ghost use Rattle.isa_model.specs.{max_packet};
ghost use Rattle.calls.specs.Crossing.{IsChange};
ghost use Rattle.calls.specs.OpenSessions.{HoldsOpen};
ghost use Rattle.calls.specs.Sessions.{RunsSession};

use crate::clocks::clock_at;
use crate::running::{Ended, Head};
use crate::sessions::Session;
use crate::statuses::{OK, WRONG};
use isa_model::{FrameHead, MAX_PACKET};
use std::alloc::Global;

/// Runs an open program on a packet, in place. Its maps keep their contents from run to run.
pub fn run_session(
    alloc: Global,
    session: &mut Session,
    head: &Head,
    packet: &mut [u8],
    out: &mut Ended,
) -> u32
    ensures ran { result ≡ OK → RunsSession session.old.held session.new.held (record {
      time = head.now.time;
      interface = head.now.interface;
      queue = head.now.queue;
    }) packet.old (record { r0 = out.new.r0; steps = out.new.steps }) packet.new }
    ensures within { result ≡ OK → HoldsOpen session.old.held (λ m. out.new.steps ≤ m.bound) }
    ensures wrong { (result ≡ WRONG)
        ↔ ((session.old.held ≡ None) ⊎ (max_packet < length packet.old)) }
    ensures session_kept { result ≢ OK → session.new.held ≡ session.old.held }
    ensures out_kept { result ≢ OK → out.new ≡ out.old }
    ensures packet_kept { result ≢ OK → packet.new ≡ packet.old }
    ensures status { IsChange result }
{
    if packet.len() > MAX_PACKET {
        return WRONG;
    }
    let Some(mut machine) = session.take(alloc) else {
        return WRONG;
    };
    let time = head.time;
    let head = FrameHead {
        time,
        interface: head.interface,
        queue: head.queue,
    };
    let mut clock = clock_at(time);
    let exit = machine.run(head, packet, &mut clock);
    session.put(machine);
    *out = Ended {
        r0: exit.r0,
        steps: exit.steps,
    };
    OK
}
