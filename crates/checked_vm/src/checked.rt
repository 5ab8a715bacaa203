//! The checked machine: an image, and the memory to run it.

ghost use Rattle.std.specs.Prelude.{◌≡◌, ◌+◌, ◌≤◌, ℕ, List, ◌++◌, length, IfOk};
ghost use Rattle.isa_model.specs.{max_packet};
ghost use Rattle.isa_model.specs.Code.Limits.{max_steps};
ghost use Rattle.isa_model.specs.Machine.States.{State};
ghost use Rattle.isa_model.specs.Reporting.Reports.{starting_contents};
ghost use Rattle.maps.specs.Maps.{rows_of, contents_of};
ghost use Rattle.checked_vm.specs.Machines.{turn_from};
ghost use Rattle.checked_vm.specs.Stops.{stop_of};
ghost use Rattle.checked_vm.specs.Watching.{begun_on};

use crate::VmError;
use crate::core_state::Core;
use crate::stops::RunEnd;
use crate::watching::{Unwatched, Watcher};
use image::Image;
use isa_model::{Clock, End, FrameHead, Version};
use live_maps::LiveMaps;
use maps::Maps;
use std::alloc::Global;
use std::marker::Model;

/// A machine that runs an image's program with every access tested.
///
/// Contracts see its program and the maps' contents between runs.
#[derive(Drop)]
pub struct Checked {
    image: Image,
    core: Core,
}

impl Model for Checked {
    ghost use Rattle.isa_model.specs.Code.Limits.{max_call_frames};
    ghost use Rattle.isa_model.specs.Machine.States.{key_values_of};
    ghost use Rattle.std.specs.Prelude.{◌≡◌, ◌≤◌, map, vec_capacity};
    ghost use Rattle.checked_vm.specs.Machines.{LoadedProgram};

    ghost Value = { LoadedProgram };

    ghost view = { λ machine. record {
      program = machine.image;
      contents = map key_values_of machine.core.maps.contents;
    } };

    ghost invariant = { λ machine. (vec_capacity machine.core.frames ≡ max_call_frames)
        × (machine.core.maps.rows ≡ machine.image.maps) };
}

// The version of an image.
fn version_of(image: &Image) -> Version
    ensures { result ≡ image.now.version }
{
    if image.version() == 1 {
        Version::One
    } else {
        Version::Two
    }
}

impl Checked {
    /// Makes the maps with their starting contents, and takes all memory that runs need.
    pub fn new(alloc: Global, image: Image) -> Result<Self, VmError>
        ensures made { IfOk result (λ machine. machine
            ≡ record { program = image; contents = starting_contents image.maps }) }
    {
        let Ok(maps) = Maps::new(alloc, &image) else {
            return Err(VmError::Memory);
        };
        Checked::with_maps(alloc, image, maps)
    }

    /// Takes maps of the image's rows, and all memory that runs need.
    pub fn with_maps(alloc: Global, image: Image, maps: Maps) -> Result<Self, VmError>
        requires rows { rows_of maps ≡ image.maps }
        ensures made { IfOk result (λ machine. machine
            ≡ record { program = image; contents = contents_of maps }) }
    {
        image.recall();
        let core = Core::new(alloc, LiveMaps::new(alloc, maps)?)?;
        Ok(Checked { image, core })
    }

    /// Runs the program on a packet from the start, at most `limit` steps.
    ///
    /// After a trap or the limit the packet and the maps are as the last step left them.
    pub fn run<C: Clock>(
        &mut self,
        head: FrameHead,
        packet: &mut [u8],
        clock: &mut C,
        limit: u32,
    ) -> End
        requires short { length packet.old ≤ max_packet }
        requires some { 1 ≤ limit }
        requires most { limit ≤ max_steps }
        ensures ends { result
            ≡ (turn_from self.old limit (C.at clock.old) head packet.old).ends }
        ensures packet { packet.new
            ≡ (turn_from self.old limit (C.at clock.old) head packet.old).packet }
        ensures contents { self.new.contents
            ≡ (turn_from self.old limit (C.at clock.old) head packet.old).contents }
        ensures program { self.new.program ≡ self.old.program }
        ensures clock { (k : ℕ) → C.at clock.new k
            ≡ C.at clock.old
            ((turn_from self.old limit (C.at clock.old) head packet.old).clock_calls + k) }
    {
        self.run_to_stop(head, packet, clock, limit).end
    }

    /// Runs the program as `run` does, and returns where the run stopped.
    pub fn run_to_stop<C: Clock>(
        &mut self,
        head: FrameHead,
        packet: &mut [u8],
        clock: &mut C,
        limit: u32,
    ) -> RunEnd
        requires short { length packet.old ≤ max_packet }
        requires some { 1 ≤ limit }
        requires most { limit ≤ max_steps }
        ensures stop { result
            ≡ stop_of self.old.program limit (C.at clock.old) head packet.old self.old.contents }
        ensures ends { result.end
            ≡ (turn_from self.old limit (C.at clock.old) head packet.old).ends }
        ensures packet { packet.new
            ≡ (turn_from self.old limit (C.at clock.old) head packet.old).packet }
        ensures contents { self.new.contents
            ≡ (turn_from self.old limit (C.at clock.old) head packet.old).contents }
        ensures program { self.new.program ≡ self.old.program }
        ensures clock { (k : ℕ) → C.at clock.new k
            ≡ C.at clock.old
            ((turn_from self.old limit (C.at clock.old) head packet.old).clock_calls + k) }
    {
        self.run_watched(head, packet, clock, limit, &mut Unwatched)
    }

    /// Runs the program as `run_to_stop` does; before each step a watcher sees the state.
    #[tactic(auto, unfolding(crate::specs::Stops::stop_of))]
    pub fn run_watched<C: Clock, W: Watcher>(
        &mut self,
        head: FrameHead,
        packet: &mut [u8],
        clock: &mut C,
        limit: u32,
        watcher: &mut W,
    ) -> RunEnd
        requires short { length packet.old ≤ max_packet }
        requires some { 1 ≤ limit }
        requires most { limit ≤ max_steps }
        ensures stop { result
            ≡ stop_of self.old.program limit (C.at clock.old) head packet.old self.old.contents }
        ensures ends { result.end
            ≡ (turn_from self.old limit (C.at clock.old) head packet.old).ends }
        ensures packet { packet.new
            ≡ (turn_from self.old limit (C.at clock.old) head packet.old).packet }
        ensures contents { self.new.contents
            ≡ (turn_from self.old limit (C.at clock.old) head packet.old).contents }
        ensures program { self.new.program ≡ self.old.program }
        ensures clock { (k : ℕ) → C.at clock.new k
            ≡ C.at clock.old
            ((turn_from self.old limit (C.at clock.old) head packet.old).clock_calls + k) }
        ensures seen { (states : List State)
            → W.has_seen watcher.old self.old.program.insns states
            → W.has_seen watcher.new self.old.program.insns
            (states ++ begun_on self.old.program limit (C.at clock.old) head packet.old
            self.old.contents) }
    {
        self.image.recall();
        let version = version_of(&self.image);
        let end = self.core.run(
            self.image.code(),
            version,
            head,
            packet,
            clock,
            limit,
            watcher,
        );
        let slot = self.core.slot;
        RunEnd {
            end,
            slot,
            insn: self.image.at(slot).copied(),
            registers: self.core.regs,
        }
    }

    /// Returns the maps.
    pub fn into_maps(self) -> Maps
        ensures rows { rows_of result ≡ self.program.maps }
        ensures contents { contents_of result ≡ self.contents }
    {
        let Checked { core, .. } = self;
        let Core { maps, .. } = core;
        maps.into_maps()
    }
}
