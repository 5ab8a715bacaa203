//! The machine's fields: all of the state of a run but the packet.

ghost use Rattle.std.specs.Prelude.{◌≡◌, ◌≤◌, ◌^◌, ℕ, List, length, map, slice_set, IfOk, vec_len, vec_capacity};
ghost use Rattle.isa_model.specs.Code.Registers.{reg_number};
ghost use Rattle.isa_model.specs.Machine.States.{key_values_of, value_at, new_call_frame};
ghost use Rattle.isa_model.specs.Machine.Memory.{call_frame_index};
ghost use Rattle.isa_model.specs.Code.Limits.{max_call_frames};
ghost use Rattle.isa_model.specs.Running.Runs.{start_state};
ghost use Rattle.checked_vm.specs.Machine.{state_of};

use isa_model::{CallFrame, Cell, FrameHead, MAX_CALL_FRAMES, Reg, Region, STACK_SIZE, Value};
use live_maps::LiveMaps;
use std::alloc::{AllocError, Global};

/// The state of a run, without the packet.
#[derive(Drop)]
pub struct Core {
    /// Says where the next instruction begins.
    pub slot: usize,
    /// r0 to r10.
    pub regs: [Value; 11],
    /// The live call frames, the innermost last.
    pub frames: Vec<CallFrame>,
    /// The interface and the queue that the packet came in by.
    pub interface: u32,
    pub queue: u32,
    /// The maps, and the serials of map values and call frames. None is used twice in a run.
    pub maps: LiveMaps,
    /// Says how often the run asked the clock.
    pub clock_calls: u64,
}

/// A call frame whose cells are unwritten.
#[tactic(auto, unfolding(isa_model::specs::Machine::States::new_call_frame))]
pub fn new_call_frame(serial: u64, return_slot: usize, saved: [Value; 4]) -> CallFrame
    ensures { result ≡ new_call_frame serial return_slot saved }
{
    CallFrame {
        serial,
        cells: [Cell::Unwritten; STACK_SIZE],
        return_slot,
        saved,
    }
}

impl Core {
    /// A machine with room for all call frames, not started.
    pub fn new(alloc: Global, maps: LiveMaps) -> Result<Self, AllocError>
        ensures room { IfOk result (λ core. vec_capacity core.frames ≡ max_call_frames) }
        ensures maps { IfOk result (λ core. core.maps ≡ maps) }
    {
        Ok(Core {
            slot: 0,
            regs: [Value::Unset; 11],
            frames: Vec::with_capacity(alloc, MAX_CALL_FRAMES)?,
            interface: 0,
            queue: 0,
            maps,
            clock_calls: 0,
        })
    }

    /// Goes to the start of a run.
    #[tactic(auto, unfolding(isa_model::specs::Running::Runs::start_state))]
    pub fn start(&mut self, head: FrameHead)
        requires room { max_call_frames ≤ vec_capacity self.old.frames }
        ensures state { (packet : List ℕ) → state_of self.new packet
            ≡ start_state head packet (map key_values_of self.old.maps.contents) }
        ensures frames { vec_len self.new.frames ≡ 1 }
        ensures room { vec_capacity self.new.frames ≡ vec_capacity self.old.frames }
        ensures rows { self.new.maps.rows ≡ self.old.maps.rows }
        ensures serial { self.new.maps.next_serial ≤ 2 ^ 33 }
        ensures clock { self.new.clock_calls ≡ 0 }
    {
        self.maps.renumber();
        let serial = self.maps.take_serial();
        self.slot = 0;
        self.regs = [
            Value::Unset,
            Value::Ptr(Region::Context, 0),
            Value::Unset,
            Value::Unset,
            Value::Unset,
            Value::Unset,
            Value::Unset,
            Value::Unset,
            Value::Unset,
            Value::Unset,
            Value::Ptr(Region::CallFrame(serial), 0),
        ];
        self.frames.clear();
        self.frames
            .push_reserved(new_call_frame(serial, 0, [Value::Unset; 4]));
        self.interface = head.interface;
        self.queue = head.queue;
        self.clock_calls = 0;
    }

    /// Returns what a register holds.
    pub fn value(&self, r: Reg) -> Value
        ensures { result ≡ value_at self.now.regs (reg_number r) }
    {
        self.regs[r.number()]
    }

    /// Sets a register, r10 too: whether it may be written is tested before.
    pub fn set(&mut self, r: Reg, value: Value)
        ensures { self.new ≡ record self.old {
          regs = slice_set self.old.regs
              (reg_number r) value;
        } }
    {
        self.regs[r.number()] = value;
    }

    /// Returns how many call frames are live.
    pub fn depth(&self) -> usize
        ensures frames { result ≡ length self.now.frames.items }
        ensures len { result ≡ vec_len self.now.frames }
    {
        let frames: &[CallFrame] = &self.frames;
        frames.len()
    }

    /// The index of the live call frame of a serial.
    pub fn call_frame_index(&self, serial: u64) -> Option<usize>
        ensures { result ≡ call_frame_index self.now.frames.items serial }
    {
        self.frames.iter().position(|frame| frame.serial == serial)
    }
}
