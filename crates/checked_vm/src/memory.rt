//! Loads and stores in call frames, the packet, map values and the context.

ghost use Rattle.std.specs.Prelude.{◌≡◌, ◌+◌, ◌<◌, ◌≤◌, ℕ, ◌+ℤ◌, List, length, map, slice_index, Some, Ok, Err, MatchResult, vec_len};
ghost use Rattle.isa_model.specs.Code.Numbers.{number_from};
ghost use Rattle.isa_model.specs.Code.Sizes.{unsigned_size, size_extension};
ghost use Rattle.isa_model.specs.Machine.States.{call_frame_at};
ghost use Rattle.isa_model.specs.Machine.Memory.{call_frame_index, place_of, read, number_at, context_field, context_load, memory_load, load, load_number, load_signed, write, store_number, store_pointer, store};
ghost use Rattle.checked_vm.specs.declared.core_state.Core.{Core};
ghost use Rattle.checked_vm.specs.Machine.{state_of, KeepsFrames};
ghost use Rattle.checked_vm.specs.Reads.{read_cells};

use crate::cells;
use crate::core_state::Core;
use crate::places::{index_at, place_within};
use crate::reads::number_from;
use isa_model::numbers::sign_extend;
use isa_model::{Cell, Extension, Place, Region, SignedSize, Size, TrapReason, Value};

/// Writes bytes at a place of the packet.
fn write_packet(packet: &mut [u8], at: Option<usize>, new: &[u8]) -> Result<(), TrapReason>
    requires { length new.now ≤ 8 }
    ensures { MatchResult result
        (λ _. (core : Core)
        → write (state_of core packet.old) Region.Packet at (map Cell.Byte new.now)
        ≡ Ok (state_of core packet.new))
        (λ e. ((core : Core)
        → write (state_of core packet.old) Region.Packet at (map Cell.Byte new.now) ≡ Err e)
        × (packet.new ≡ packet.old)) }
{
    match at {
        Some(i) if i <= packet.len() && i + new.len() <= packet.len() => {
            packet[i..i + new.len()].copy_from_slice(new);
            Ok(())
        }
        _ => Err(TrapReason::BadAccess),
    }
}

// ---- loads

fn unsigned_size(size: SignedSize) -> Size
    ensures { result ≡ unsigned_size size }
{
    match size {
        SignedSize::S8 => Size::U8,
        SignedSize::S16 => Size::U16,
        SignedSize::S32 => Size::U32,
    }
}

fn size_extension(size: SignedSize) -> Extension
    ensures { result ≡ size_extension size }
{
    match size {
        SignedSize::S8 => Extension::Full8,
        SignedSize::S16 => Extension::Full16,
        SignedSize::S32 => Extension::Full32,
    }
}

impl Core {
    fn context_field(&self, at: Option<usize>) -> Result<Value, TrapReason>
        ensures { (packet : List ℕ) → result ≡ context_field (state_of self.now packet) at }
    {
        match at {
            Some(0) => Ok(Value::Ptr(Region::Packet, 0)),
            Some(4) => Ok(Value::Ptr(Region::PacketEnd, 0)),
            Some(12) => Ok(Value::Num(u64::from(self.interface))),
            Some(16) => Ok(Value::Num(u64::from(self.queue))),
            _ => Err(TrapReason::BadAccess),
        }
    }

    fn context_load(&self, size: Size, at: Option<usize>) -> Result<Value, TrapReason>
        ensures { (packet : List ℕ) → result ≡ context_load (state_of self.now packet) size at }
    {
        match size {
            Size::U32 => self.context_field(at),
            _ => Err(TrapReason::BadAccess),
        }
    }

    /// The number in n bytes at a place.
    fn number_at(
        &self,
        packet: &[u8],
        region: Region,
        at: Option<usize>,
        n: usize,
    ) -> Result<u64, TrapReason>
        requires { n ≤ 8 }
        ensures { result ≡ number_at (state_of self.now packet.now) region at n }
    {
        match region {
            Region::CallFrame(serial) => cells::number_in(self.read_frame(serial, at, n)?),
            Region::Packet => Ok(number_from(self.read_packet(packet, at, n)?)),
            Region::MapValue(index, serial) => {
                Ok(number_from(self.read_map_value(index, serial, at, n)?))
            }
            _ => Err(TrapReason::BadAccess),
        }
    }

    /// The number or the whole pointer in eight bytes at a place.
    fn value_at_place(
        &self,
        packet: &[u8],
        region: Region,
        at: Option<usize>,
    ) -> Result<Value, TrapReason>
        ensures { result ≡ memory_load (state_of self.now packet.now) Size.U64 region at }
    {
        match region {
            Region::CallFrame(serial) => cells::value_in(self.read_frame(serial, at, 8)?),
            Region::Packet => Ok(Value::Num(number_from(self.read_packet(packet, at, 8)?))),
            Region::MapValue(index, serial) => {
                Ok(Value::Num(number_from(self.read_map_value(index, serial, at, 8)?)))
            }
            _ => Err(TrapReason::BadAccess),
        }
    }

    fn memory_load(
        &self,
        packet: &[u8],
        size: Size,
        region: Region,
        at: Option<usize>,
    ) -> Result<Value, TrapReason>
        ensures { result ≡ memory_load (state_of self.now packet.now) size region at }
    {
        let n = match size {
            Size::U8 => self.number_at(packet, region, at, 1)?,
            Size::U16 => self.number_at(packet, region, at, 2)?,
            Size::U32 => self.number_at(packet, region, at, 4)?,
            Size::U64 => return self.value_at_place(packet, region, at),
        };
        Ok(Value::Num(n))
    }

    /// LDX MEM.
    pub fn load(
        &self,
        packet: &[u8],
        size: Size,
        base: Value,
        place: Place,
    ) -> Result<Value, TrapReason>
        ensures { result ≡ load (state_of self.now packet.now) size base place.offset }
    {
        let Value::Ptr(region, offset) = base else {
            return Err(TrapReason::BadAccess);
        };
        let at = index_at(region, offset, place);
        match region {
            Region::Context => self.context_load(size, at),
            _ => self.memory_load(packet, size, region, at),
        }
    }

    /// The number at a place; a pointer there is a trap.
    pub fn load_number(
        &self,
        packet: &[u8],
        size: Size,
        base: Value,
        place: Place,
    ) -> Result<u64, TrapReason>
        ensures { result ≡ load_number (state_of self.now packet.now) size base place.offset }
    {
        let Value::Ptr(region, offset) = base else {
            return Err(TrapReason::BadAccess);
        };
        self.number_at(
            packet,
            region,
            index_at(region, offset, place),
            size.bytes(),
        )
    }

    /// LDX MEMSX.
    pub fn load_signed(
        &self,
        packet: &[u8],
        size: SignedSize,
        base: Value,
        place: Place,
    ) -> Result<Value, TrapReason>
        ensures { result ≡ load_signed (state_of self.now packet.now) size base place.offset }
    {
        let n = self.load_number(packet, unsigned_size(size), base, place)?;
        Ok(Value::Num(sign_extend(size_extension(size), n)))
    }

    // ---- stores

    /// Writes cells at a place of a call frame.
    fn write_frame(
        &mut self,
        serial: u64,
        at: Option<usize>,
        new: &[Cell],
    ) -> Result<(), TrapReason>
        requires { length new.now ≤ 8 }
        ensures kept { KeepsFrames self.old self.new }
        ensures slot { self.new.slot ≡ self.old.slot }
        ensures wrote { MatchResult result
            (λ _. (packet : List ℕ)
            → write (state_of self.old packet) (Region.CallFrame serial) at new.now
            ≡ Ok (state_of self.new packet))
            (λ e. ((packet : List ℕ)
            → write (state_of self.old packet) (Region.CallFrame serial) at new.now ≡ Err e)
            × (self.new ≡ self.old)) }
    {
        let (frame_index, i) = self.place_in_frame(serial, at, new.len())?;
        cells::put_cells(&mut self.frames[frame_index].cells, i, new);
        Ok(())
    }

    /// Writes bytes at a place of a map value.
    fn write_map_value(
        &mut self,
        index: u32,
        serial: u64,
        at: Option<usize>,
        new: &[u8],
    ) -> Result<(), TrapReason>
        requires { length new.now ≤ 8 }
        ensures kept { KeepsFrames self.old self.new }
        ensures slot { self.new.slot ≡ self.old.slot }
        ensures wrote { MatchResult result
            (λ _. (packet : List ℕ) → write (state_of self.old packet)
            (Region.MapValue index serial) at (map Cell.Byte new.now)
            ≡ Ok (state_of self.new packet))
            (λ e. ((packet : List ℕ) → write (state_of self.old packet)
            (Region.MapValue index serial) at (map Cell.Byte new.now) ≡ Err e)
            × (self.new ≡ self.old)) }
    {
        let Some(map_value) = self.maps.value(index as usize, serial) else {
            return Err(TrapReason::BadAccess);
        };
        let i = place_within(map_value.len(), at, new.len())?;
        self.maps.write(index as usize, serial, i, new);
        Ok(())
    }

    /// Writes a number's low bytes.
    pub fn store_number(
        &mut self,
        packet: &mut [u8],
        size: Size,
        base: Value,
        place: Place,
        n: u64,
    ) -> Result<(), TrapReason>
        ensures kept { KeepsFrames self.old self.new }
        ensures slot { self.new.slot ≡ self.old.slot }
        ensures wrote { MatchResult result
            (λ _. store_number (state_of self.old packet.old) size base place.offset n
            ≡ Ok (state_of self.new packet.new))
            (λ e. (store_number (state_of self.old packet.old) size base place.offset n ≡ Err e)
            × (self.new ≡ self.old) × (packet.new ≡ packet.old)) }
    {
        let Value::Ptr(region, offset) = base else {
            return Err(TrapReason::BadAccess);
        };
        let at = index_at(region, offset, place);
        match region {
            Region::CallFrame(serial) => self.write_frame(
                serial,
                at,
                &cells::byte_cells(n)[..size.bytes()],
            ),
            Region::Packet => write_packet(packet, at, &n.to_le_bytes()[..size.bytes()]),
            Region::MapValue(index, serial) => {
                self.write_map_value(index, serial, at, &n.to_le_bytes()[..size.bytes()])
            }
            _ => Err(TrapReason::BadAccess),
        }
    }

    /// Writes a pointer, as eight pieces, into a call frame.
    fn store_pointer(
        &mut self,
        size: Size,
        base: Value,
        place: Place,
        region: Region,
        offset: i64,
    ) -> Result<(), TrapReason>
        ensures kept { KeepsFrames self.old self.new }
        ensures slot { self.new.slot ≡ self.old.slot }
        ensures wrote { MatchResult result
            (λ _. (packet : List ℕ)
            → store_pointer (state_of self.old packet) size base place.offset region offset
            ≡ Ok (state_of self.new packet))
            (λ e. ((packet : List ℕ)
            → store_pointer (state_of self.old packet) size base place.offset region offset
            ≡ Err e) × (self.new ≡ self.old)) }
    {
        match (size, base) {
            (Size::U64, Value::Ptr(Region::CallFrame(serial), base_offset)) => self.write_frame(
                serial,
                index_at(Region::CallFrame(serial), base_offset, place),
                &cells::pieces(region, offset),
            ),
            _ => Err(TrapReason::BadAccess),
        }
    }

    /// ST and STX.
    pub fn store(
        &mut self,
        packet: &mut [u8],
        size: Size,
        base: Value,
        place: Place,
        value: Value,
    ) -> Result<(), TrapReason>
        ensures kept { KeepsFrames self.old self.new }
        ensures slot { self.new.slot ≡ self.old.slot }
        ensures wrote { MatchResult result
            (λ _. store (state_of self.old packet.old) size base place.offset value
            ≡ Ok (state_of self.new packet.new))
            (λ e. (store (state_of self.old packet.old) size base place.offset value ≡ Err e)
            × (self.new ≡ self.old) × (packet.new ≡ packet.old)) }
    {
        match value {
            Value::Num(n) => self.store_number(packet, size, base, place, n),
            Value::Ptr(region, offset) => self.store_pointer(size, base, place, region, offset),
            Value::Unset => Err(TrapReason::UnsetRead),
        }
    }
}
