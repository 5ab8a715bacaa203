//! The call that runs an accepted program on a packet.

ghost use Rattle.std.specs.Prelude.{◌≡◌, ◌≢◌, ◌<◌, ◌↔◌, length, IfSome};
ghost use Rattle.isa_model.specs.{max_packet};
ghost use Rattle.isa_model.specs.Reporting.Reports.{starting_contents};
ghost use Rattle.calls.specs.Crossing.{IsStatus};
ghost use Rattle.calls.specs.Verdicts.{IsRefusedImage};
ghost use Rattle.calls.specs.Runs.{RunsProgram};

use crate::clocks::clock_at;
use crate::judging::verified_of;
use crate::statuses::{MEMORY, NotAccepted, OK, REFUSED, WRONG};
use bounds::Verified;
use isa_model::{FrameHead, MAX_PACKET};
use machine::Machine;
use maps::Maps;
use std::alloc::Global;

/// Says what comes with a packet: a time in nanoseconds, which helper 5 answers, and the interface
/// and queue that it came in by.
#[repr(C)]
#[derive(Clone, Copy, Drop)]
pub struct Head {
    pub time: u64,
    pub interface: u32,
    pub queue: u32,
}

/// Says how a run ended: the number in r0, and how many steps it took.
#[repr(C)]
#[derive(Clone, Copy, Drop)]
pub struct Ended {
    pub r0: u64,
    pub steps: u32,
}

/// The machine of an accepted program, on starting maps. None: memory ran out.
pub fn machine_of(alloc: Global, verified: Verified) -> Option<Machine>
    ensures made { IfSome result (λ machine. machine ≡ record {
      program = verified.program;
      bound = verified.bound;
      contents = starting_contents verified.program.maps;
    }) }
{
    let Ok(maps) = Maps::new(alloc, verified.image()) else {
        return None;
    };
    match Machine::new(alloc, verified, maps) {
        Ok(machine) => Some(machine),
        Err(_) => None,
    }
}

/// Verifies an image, and runs its program on a packet, on starting maps. `verify_image` says
/// why an image is refused.
pub fn run_once(alloc: Global, image: &[u8], head: &Head, packet: &mut [u8], out: &mut Ended) -> u32
    ensures ran { result ≡ OK → RunsProgram image.now (record {
      time = head.now.time;
      interface = head.now.interface;
      queue = head.now.queue;
    }) packet.old (record { r0 = out.new.r0; steps = out.new.steps }) packet.new }
    ensures wrong { (result ≡ WRONG) ↔ (max_packet < length packet.old) }
    ensures refused { result ≡ REFUSED → IsRefusedImage image.now }
    ensures out_kept { result ≢ OK → out.new ≡ out.old }
    ensures packet_kept { result ≢ OK → packet.new ≡ packet.old }
    ensures status { IsStatus result }
{
    if packet.len() > MAX_PACKET {
        return WRONG;
    }
    let verified = match verified_of(alloc, image) {
        Ok(verified) => verified,
        Err(NotAccepted::Refused) => return REFUSED,
        Err(NotAccepted::Memory) => return MEMORY,
    };
    let Some(mut machine) = machine_of(alloc, verified) else {
        return MEMORY;
    };
    let time = head.time;
    let head = FrameHead {
        time,
        interface: head.interface,
        queue: head.queue,
    };
    let mut clock = clock_at(time);
    let exit = machine.run(head, packet, &mut clock);
    *out = Ended {
        r0: exit.r0,
        steps: exit.steps,
    };
    OK
}
