//! Atomic instructions.

ghost use Rattle.std.specs.Prelude.{false, ◌≡◌, ◌+ℤ◌};
ghost use Rattle.isa_model.specs.Code.Instructions.{is_frame_pointer};
ghost use Rattle.isa_model.specs.Code.Sizes.{size_bytes};
ghost use Rattle.transfer.specs.Values.{AreInValue};
ghost use Rattle.transfer.specs.Atomics.{with_old, StackSwaps, ValueSwaps, IsPacketRefusal, SwapsAt, Swaps, Compares};

use crate::bytes::{are_in_packet, are_in_value, value_size};
use crate::packets::of_size;
use crate::refusals::Refusal;
use isa_model::{MapDef, Reg, Size};
use reg_state::{Kind, Scalar};
use stack_state::{State, stack_place};

/// The old number goes into a register, if the form writes one.
fn keep_old(state: &mut State, register: Option<Reg>, old: Scalar)
    requires { is_frame_pointer register ≡ false }
    ensures { state.new ≡ with_old register old state.old }
{
    if let Some(register) = register {
        state.set_register(register, Kind::Number(old));
    }
}

/// Through a frame pointer.
fn stack_swap(
    state: &mut State,
    frame: u8,
    offset: i32,
    by: i16,
    size: Size,
    register: Option<Reg>,
) -> Result<(), Refusal>
    requires { is_frame_pointer register ≡ false }
    ensures { StackSwaps state.old frame (offset +ℤ by) size register state.new result }
{
    let Some(stack) = state.stack_of(frame) else {
        return Err(Refusal::StackPlace);
    };
    let Some(at) = stack_place(offset, by, size) else {
        return Err(Refusal::StackPlace);
    };
    let Some(old) = stack.load(at, size) else {
        return Err(Refusal::StackBytes);
    };
    state.store(frame, at, size);
    keep_old(state, register, old);
    Ok(())
}

/// In a map's value; nothing is known of its bytes.
fn value_swap(
    state: &mut State,
    value_bytes: u32,
    least: i32,
    greatest: i32,
    by: i16,
    size: Size,
    register: Option<Reg>,
) -> Result<(), Refusal>
    requires { is_frame_pointer register ≡ false }
    ensures { ValueSwaps (AreInValue value_bytes least greatest by (size_bytes size)) state.old size
        register state.new result }
{
    if !are_in_value(value_bytes, least, greatest, by, size.bytes() as u32) {
        return Err(Refusal::MapValueBytes);
    }
    keep_old(state, register, of_size(size));
    Ok(())
}

/// The refusal of an atomic instruction in the packet, whose bytes are tested first.
fn packet_refusal(fixed: i32, least: i32, proved: u32, by: i16, size: Size) -> Refusal
    ensures { IsPacketRefusal fixed least proved by size result }
{
    if are_in_packet(fixed, least, proved, by, size.bytes() as u32) {
        Refusal::PacketAtomic
    } else {
        Refusal::PacketBytes
    }
}

/// On numbers, through a base of that kind.
fn swap_at(
    maps: &[MapDef],
    state: &mut State,
    base: Kind,
    by: i16,
    size: Size,
    register: Option<Reg>,
) -> Result<(), Refusal>
    requires { is_frame_pointer register ≡ false }
    ensures { SwapsAt maps.now state.old base by size register state.new result }
{
    match base {
        Kind::Stack { frame, offset } => stack_swap(state, frame, offset, by, size, register),
        Kind::Context => Err(Refusal::PacketAtomic),
        Kind::Packet {
            fixed,
            least,
            proved,
            ..
        } => Err(packet_refusal(fixed, least, proved, by, size)),
        Kind::MapValue {
            index,
            least,
            greatest,
        } => value_swap(
            state,
            value_size(maps, index),
            least,
            greatest,
            by,
            size,
            register,
        ),
        Kind::MapValueOrNull { .. } => Err(Refusal::NullNotTested),
        _ => Err(Refusal::NotMemory),
    }
}

/// An atomic instruction that puts the old number into a register, if one is given. After a refusal
/// the state is as before.
pub fn swap(
    maps: &[MapDef],
    state: &mut State,
    source: Kind,
    base: Kind,
    by: i16,
    size: Size,
    register: Option<Reg>,
) -> Result<(), Refusal>
    requires { is_frame_pointer register ≡ false }
    ensures { Swaps maps.now state.old source base by size register state.new result }
{
    match source {
        Kind::Number(_) => swap_at(maps, state, base, by, size, register),
        _ => Err(Refusal::PointerOperand),
    }
}

/// CMPXCHG: r0 is an operand too, and takes the old number.
pub fn compare_and_swap(
    maps: &[MapDef],
    state: &mut State,
    source: Kind,
    base: Kind,
    by: i16,
    size: Size,
) -> Result<(), Refusal>
    ensures { Compares maps.now state.old source base by size state.new result }
{
    match state.kind_of(Reg::R0) {
        Kind::Number(_) => swap(maps, state, source, base, by, size, Some(Reg::R0)),
        _ => Err(Refusal::PointerOperand),
    }
}
