//! Calls of helpers: the arguments are tested first, then the key is read, then the map value, and
//! the map is changed last.

ghost use Rattle.std.specs.Prelude.{◌≡◌, ◌+◌, ◌<◌, ◌≤◌, ◌^◌, ℕ, List, length, slice_get, Some, Ok, Err, IfOk, MatchResult};
ghost use Rattle.isa_model.specs.Code.Limits.{max_key_size, max_value_size};
ghost use Rattle.isa_model.specs.declared.instructions.Insn.{Insn};
ghost use Rattle.isa_model.specs.Code.Instructions.{Program};
ghost use Rattle.isa_model.specs.Code.MapRows.{IsRow};
ghost use Rattle.isa_model.specs.Machine.States.{go_to};
ghost use Rattle.isa_model.specs.Machine.Steps.{act};
ghost use Rattle.isa_model.specs.Machine.HelperCalls.{map_argument, bytes_argument, number_argument, bytes_at, answered, lookup_call, update_call, delete_call};
ghost use Rattle.checked_vm.specs.Machine.{state_of, KeepsFrames, IsRunning, StaysRunning, Helps};
ghost use Rattle.checked_vm.specs.StepResults.{IsStep, after_time};

use crate::cells;
use crate::core_state::Core;
use crate::places::index_of_pointer;
use crate::steps::Stepped;
use isa_model::{Helper, MapDef, Reg, Region, TrapReason, Value};
use maps::{KEY_ROOM, VALUE_ROOM};

/// Returns the place of the bytes of a key or a map value.
fn bytes_argument(value: Value) -> Result<(Region, i64), TrapReason>
    ensures { MatchResult result
        (λ at. bytes_argument value ≡ Ok (record { region = at.0; offset = at.1 }))
        (λ e. bytes_argument value ≡ Err e) }
{
    match value {
        Value::Ptr(Region::Packet, offset) => Ok((Region::Packet, offset)),
        Value::Ptr(Region::CallFrame(serial), offset) => Ok((Region::CallFrame(serial), offset)),
        Value::Ptr(Region::MapValue(index, serial), offset) => {
            Ok((Region::MapValue(index, serial), offset))
        }
        _ => Err(TrapReason::BadHelper),
    }
}

fn number_argument(value: Value) -> Result<u64, TrapReason>
    ensures { result ≡ number_argument value }
{
    match value {
        Value::Num(n) => Ok(n),
        _ => Err(TrapReason::BadHelper),
    }
}

/// Room for the longest key.
fn key_room() -> [u8; KEY_ROOM]
    ensures { length result ≡ max_key_size }
{
    [0; KEY_ROOM]
}

/// Room for the longest map value.
fn map_value_room() -> [u8; VALUE_ROOM]
    ensures { length result ≡ max_value_size }
{
    [0; VALUE_ROOM]
}

impl Core {
    /// A map's index and its row.
    fn map_argument(&self, value: Value) -> Result<(u32, MapDef), TrapReason>
        ensures argument { MatchResult result
            (λ m. (p : Program) → p.maps ≡ self.now.maps.rows
            → map_argument p value ≡ Ok (record { index = m.0; row = m.1 }))
            (λ e. (p : Program) → p.maps ≡ self.now.maps.rows → map_argument p value ≡ Err e) }
        ensures row { IfOk result (λ m. slice_get self.now.maps.rows m.0 ≡ Some m.1) }
        ensures fits { IfOk result (λ m. IsRow m.1) }
    {
        match value {
            Value::Ptr(Region::Map(index), _) => match self.maps.row(index as usize) {
                Some(row) => Ok((index, row)),
                None => Err(TrapReason::BadHelper),
            },
            _ => Err(TrapReason::BadHelper),
        }
    }

    /// Reads as many number bytes as the buffer has.
    fn read_argument(
        &self,
        packet: &[u8],
        region: Region,
        offset: i64,
        bytes: &mut [u8],
    ) -> Result<(), TrapReason>
        requires { length bytes.old ≤ max_value_size }
        ensures read { MatchResult result
            (λ _. bytes_at (state_of self.now packet.now)
            (record { region = region; offset = offset }) (length bytes.old) ≡ Ok bytes.new)
            (λ e. bytes_at (state_of self.now packet.now)
            (record { region = region; offset = offset }) (length bytes.old) ≡ Err e) }
        ensures len { length bytes.new ≡ length bytes.old }
    {
        let at = index_of_pointer(region, offset);
        match region {
            Region::CallFrame(serial) => {
                cells::copy_bytes(self.read_frame(serial, at, bytes.len())?, bytes)
            }
            Region::Packet => {
                bytes.copy_from_slice(self.read_packet(packet, at, bytes.len())?);
                Ok(())
            }
            Region::MapValue(index, serial) => {
                bytes.copy_from_slice(self.read_map_value(index, serial, at, bytes.len())?);
                Ok(())
            }
            _ => Err(TrapReason::BadAccess),
        }
    }

    /// Puts an answer into r0, leaves r1 to r5 unset, and goes on.
    fn answer(&mut self, value: Value)
        requires { self.old.slot + 1 < 2 ^ 64 }
        ensures kept { KeepsFrames self.old self.new }
        ensures maps { self.new.maps ≡ self.old.maps }
        ensures state { (packet : List ℕ) → state_of self.new packet
            ≡ go_to (answered (record { answer = value; state = state_of self.old packet }))
            (self.old.slot + 1) }
    {
        self.regs = [
            value,
            Value::Unset,
            Value::Unset,
            Value::Unset,
            Value::Unset,
            Value::Unset,
            self.regs[6],
            self.regs[7],
            self.regs[8],
            self.regs[9],
            self.regs[10],
        ];
        self.slot += 1;
    }

    /// The answer of ktime_get_ns.
    pub fn answer_time(&mut self, time: u64)
        requires slot { self.old.slot + 1 < 2 ^ 64 }
        requires clock_calls { self.old.clock_calls < 2 ^ 63 }
        ensures frames { KeepsFrames (record self.old {
          clock_calls = self.old.clock_calls + 1;
        }) self.new }
        ensures state { (packet : List ℕ) (clock : ℕ → ℕ) → clock self.old.clock_calls ≡ time
            → state_of self.new packet ≡ after_time clock (state_of self.old packet) }
    {
        self.clock_calls += 1;
        self.answer(Value::Num(time));
    }

    /// map_lookup_elem.
    fn do_lookup(&mut self, packet: &[u8]) -> Result<(), TrapReason>
        requires { self.old.slot + 1 < 2 ^ 64 }
        ensures kept { KeepsFrames self.old self.new }
        ensures done { Helps lookup_call result self.old packet.now self.new }
    {
        let (index, row) = self.map_argument(self.value(Reg::R1))?;
        let (region, offset) = bytes_argument(self.value(Reg::R2))?;
        let mut key = key_room();
        let key = &mut key[..usize::from(row.key_size)];
        self.read_argument(packet, region, offset, key)?;
        let answer = match self.maps.lookup(index as usize, key) {
            Some(serial) => Value::Ptr(Region::MapValue(index, serial), 0),
            None => Value::Num(0),
        };
        self.answer(answer);
        Ok(())
    }

    /// map_update_elem.
    fn do_update(&mut self, packet: &[u8]) -> Result<(), TrapReason>
        requires running { IsRunning self.old }
        requires slot { self.old.slot + 1 < 2 ^ 64 }
        requires serial { self.old.maps.next_serial < 2 ^ 63 }
        ensures stays { StaysRunning self.old self.new }
        ensures done { Helps update_call result self.old packet.now self.new }
    {
        let (index, row) = self.map_argument(self.value(Reg::R1))?;
        let (region, offset) = bytes_argument(self.value(Reg::R2))?;
        let (value_region, value_offset) = bytes_argument(self.value(Reg::R3))?;
        let flags = number_argument(self.value(Reg::R4))?;
        let mut key = key_room();
        let key = &mut key[..usize::from(row.key_size)];
        self.read_argument(packet, region, offset, key)?;
        let mut map_value = map_value_room();
        let map_value = &mut map_value[..row.value_size as usize];
        self.read_argument(packet, value_region, value_offset, map_value)?;
        let answer = self.maps.update(index as usize, key, map_value, flags);
        self.answer(Value::Num(answer));
        Ok(())
    }

    /// map_delete_elem.
    fn do_delete(&mut self, packet: &[u8]) -> Result<(), TrapReason>
        requires { self.old.slot + 1 < 2 ^ 64 }
        ensures kept { KeepsFrames self.old self.new }
        ensures done { Helps delete_call result self.old packet.now self.new }
    {
        let (index, row) = self.map_argument(self.value(Reg::R1))?;
        let (region, offset) = bytes_argument(self.value(Reg::R2))?;
        let mut key = key_room();
        let key = &mut key[..usize::from(row.key_size)];
        self.read_argument(packet, region, offset, key)?;
        let answer = self.maps.delete(index as usize, key);
        self.answer(Value::Num(answer));
        Ok(())
    }

    /// CALL of a helper. A call of ktime_get_ns is not answered here, since the machine has no
    /// clock.
    #[tactic(auto, unfolding(isa_model::specs::Machine::Steps::act))]
    pub fn call_helper(&mut self, number: i32, packet: &[u8]) -> Stepped
        requires running { IsRunning self.old }
        requires slot { self.old.slot + 1 < 2 ^ 64 }
        requires serial { self.old.maps.next_serial < 2 ^ 63 }
        ensures stays { StaysRunning self.old self.new }
        ensures step { (p : Program) (clock : ℕ → ℕ) → p.maps ≡ self.old.maps.rows →
            IsStep clock (act p clock (state_of self.old packet.now) (Insn.CallHelper number))
            result (state_of self.old packet.now) (state_of self.new packet.now) }
    {
        let helped = match Helper::numbered(number) {
            Some(Helper::MapLookupElem) => self.do_lookup(packet),
            Some(Helper::MapUpdateElem) => self.do_update(packet),
            Some(Helper::MapDeleteElem) => self.do_delete(packet),
            Some(Helper::KtimeGetNs) => return Stepped::AsksTime,
            None => Err(TrapReason::BadHelper),
        };
        match helped {
            Ok(()) => Stepped::Went,
            Err(reason) => Stepped::Trapped(reason),
        }
    }
}
