//! Local calls and their exits.

ghost use Rattle.std.specs.Prelude.{◌≡◌, ◌+◌, ◌<◌, ◌≤◌, ◌^◌, ℕ, List, vec_len, vec_capacity};
ghost use Rattle.isa_model.specs.Code.Limits.{max_call_frames};
ghost use Rattle.isa_model.specs.Machine.Calls.{enter, leave};
ghost use Rattle.checked_vm.specs.Machine.{state_of};

use crate::core_state::{Core, new_call_frame};
use isa_model::{Region, Value};

impl Core {
    /// Enters the function at a slot.
    pub fn enter(&mut self, target: usize)
        requires few { vec_len self.old.frames < max_call_frames }
        requires room { max_call_frames ≤ vec_capacity self.old.frames }
        requires slot { self.old.slot < 2 ^ 63 }
        requires serial { self.old.maps.next_serial < 2 ^ 63 }
        ensures state { (packet : List ℕ)
            → state_of self.new packet ≡ enter (state_of self.old packet) target }
        ensures frames { vec_len self.new.frames ≡ vec_len self.old.frames + 1 }
        ensures room { vec_capacity self.new.frames ≡ vec_capacity self.old.frames }
        ensures rows { self.new.maps.rows ≡ self.old.maps.rows }
        ensures serial { self.new.maps.next_serial ≡ self.old.maps.next_serial + 1 }
        ensures clock { self.new.clock_calls ≡ self.old.clock_calls }
    {
        let saved = [self.regs[6], self.regs[7], self.regs[8], self.regs[9]];
        let serial = self.maps.take_serial();
        let frame = new_call_frame(serial, self.slot + 1, saved);
        self.frames.push_reserved(frame);
        self.slot = target;
        self.regs = [
            Value::Unset,
            self.regs[1],
            self.regs[2],
            self.regs[3],
            self.regs[4],
            self.regs[5],
            Value::Unset,
            Value::Unset,
            Value::Unset,
            Value::Unset,
            Value::Ptr(Region::CallFrame(serial), 0),
        ];
    }

    /// Leaves the innermost call frame, which is not the first.
    pub fn leave(&mut self)
        requires { 2 ≤ vec_len self.old.frames }
        ensures state { (packet : List ℕ)
            → state_of self.new packet ≡ leave (state_of self.old packet) }
        ensures frames { vec_len self.new.frames + 1 ≡ vec_len self.old.frames }
        ensures room { vec_capacity self.new.frames ≡ vec_capacity self.old.frames }
        ensures rows { self.new.maps.rows ≡ self.old.maps.rows }
        ensures serial { self.new.maps.next_serial ≡ self.old.maps.next_serial }
        ensures clock { self.new.clock_calls ≡ self.old.clock_calls }
    {
        let Some(frame) = self.frames.pop() else {
            unreachable!()
        };
        let caller = self.frames[self.frames.len() - 1].serial;
        self.slot = frame.return_slot;
        self.regs = [
            self.regs[0],
            Value::Unset,
            Value::Unset,
            Value::Unset,
            Value::Unset,
            Value::Unset,
            frame.saved[0],
            frame.saved[1],
            frame.saved[2],
            frame.saved[3],
            Value::Ptr(Region::CallFrame(caller), 0),
        ];
    }
}
