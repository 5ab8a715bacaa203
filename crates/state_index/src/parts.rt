//! What is known of a call frame, part by part.

ghost use Rattle.std.specs.Prelude.{◌≡◌, ℕ, ◌+◌, ◌*◌, ◌<◌, ◌≤◌, ◌++◌, OnOk, IsTrue, length, slice_set, option_to_list};
ghost use Rattle.stack_state.specs.Slots.{frame_slots, slot_at};
ghost use Rattle.state_index.specs.Parts.{register_part, slot_part, register_parts, slot_parts, AreParts, AreBlankBeside, with_part, IsPartOf};

use control_flow::SlotMask;
use reg_state::{Domain, Kind};
use stack_state::{AbstractFrame, FRAME_SLOTS, StackSlot, StackState};
use std::alloc::AllocError;

/// Says what is known of one part of a call frame.
#[derive(Clone, Copy, Drop)]
pub enum Part {
    /// Of a register, by its number.
    InRegister(u8, Kind),
    /// Of a stack slot, by its index.
    InSlot(u8, StackSlot),
}

// ---- from a frame

fn push_register(parts: &mut Vec<Part>, number: u8, kind: &Kind) -> Result<(), AllocError>
    ensures { OnOk result (parts.new.items
        ≡ parts.old.items ++ option_to_list (register_part number kind.now)) }
{
    match kind {
        Kind::Unset => {}
        kind => parts.push(Part::InRegister(number, *kind))?,
    }
    Ok(())
}

fn push_slot(parts: &mut Vec<Part>, index: u8, slot: &StackSlot) -> Result<(), AllocError>
    ensures { OnOk result (parts.new.items
        ≡ parts.old.items ++ option_to_list (slot_part index slot.now)) }
{
    match slot {
        StackSlot::Written(marks) => {
            if *marks != 0 {
                parts.push(Part::InSlot(index, *slot))?;
            }
        }
        StackSlot::Spilled(_) => parts.push(Part::InSlot(index, *slot))?,
    }
    Ok(())
}

/// Appends the registers that are set.
fn push_registers(parts: &mut Vec<Part>, registers: &[Kind; 10]) -> Result<(), AllocError>
    ensures pushed { OnOk result (parts.new.items
        ≡ parts.old.items ++ register_parts 0 registers.now) }
    ensures ten { length registers.now ≡ 10 }
{
    for index in 0..10 {
        push_register(parts, index as u8, &registers[index])?;
    }
    Ok(())
}

/// Returns whether nothing is known of eight stack slots, those of a byte of `kept`. Nothing is
/// known of a stack slot that is not in `kept`.
#[inline(always)]
fn are_blank(slots: &[StackSlot; FRAME_SLOTS], kept: SlotMask, byte: usize) -> bool
    requires inside { byte < 8 }
    requires blank { AreBlankBeside kept slots.now }
    ensures { IsTrue result → (j : ℕ) → 8 * byte ≤ j → j < 8 * byte + 8
        → slot_at slots.now j ≡ StackSlot.Written 0 }
{
    if kept.is_empty_in(byte as u8) {
        return true;
    }
    for bit in 0..8 {
        let StackSlot::Written(0) = &slots[8 * byte + bit] else {
            return false;
        };
    }
    true
}

/// Appends the stack slots about which something is known; all of them are in `kept`. Most often
/// nothing is known about eight in a row, and they are skipped.
fn push_slots(
    parts: &mut Vec<Part>,
    slots: &[StackSlot; FRAME_SLOTS],
    kept: SlotMask,
) -> Result<(), AllocError>
    requires { AreBlankBeside kept slots.now }
    ensures pushed { OnOk result (parts.new.items ≡ parts.old.items ++ slot_parts 0 slots.now) }
    ensures wide { length slots.now ≡ frame_slots }
{
    if kept.is_empty() {
        return Ok(());
    }
    for byte in 0..FRAME_SLOTS / 8 {
        if !are_blank(slots, kept, byte) {
            for bit in 0..8 {
                let index = 8 * byte + bit;
                push_slot(parts, index as u8, &slots[index])?;
            }
        }
    }
    Ok(())
}

/// Replaces `parts` by those of the frame. Nothing is known of the stack slots that are not in
/// `kept`.
pub fn take_parts_in(
    parts: &mut Vec<Part>,
    frame: &AbstractFrame,
    kept: SlotMask,
) -> Result<(), AllocError>
    requires { AreBlankBeside kept frame.now.stack.slots }
    ensures { OnOk result (AreParts parts.new.items frame.now) }
{
    parts.clear();
    push_registers(parts, &frame.registers)?;
    push_slots(parts, frame.stack.slots(), kept)?;
    Ok(())
}

/// Replaces `parts` by those of the frame.
pub fn take_parts(parts: &mut Vec<Part>, frame: &AbstractFrame) -> Result<(), AllocError>
    ensures { OnOk result (AreParts parts.new.items frame.now) }
{
    take_parts_in(parts, frame, SlotMask::all())
}

// ---- into a frame

fn set_register(registers: &mut [Kind; 10], number: u8, kind: Kind)
    ensures { registers.new ≡ slice_set registers.old number kind }
{
    let number = usize::from(number);
    if number >= 10 {
        return;
    }
    registers[number] = kind;
}

fn set_slot(stack: &mut StackState, index: u8, slot: StackSlot)
    ensures { stack.new.slots ≡ slice_set stack.old.slots index slot }
{
    let index = usize::from(index);
    if stack.slots().get(index).is_some() {
        stack.set(index, slot);
    }
}

/// Writes a part where it belongs.
pub fn write(frame: &mut AbstractFrame, part: &Part)
    ensures { frame.new ≡ with_part frame.old part.now }
{
    match *part {
        Part::InRegister(number, kind) => set_register(&mut frame.registers, number, kind),
        Part::InSlot(index, slot) => set_slot(&mut frame.stack, index, slot),
    }
}

// ---- a quick test

/// Returns whether a kind may allow all that the other one does. `false` says that it does not.
fn may_allow(kind: &Kind, other: &Kind) -> bool
    ensures { kind.now ≡ other.now → IsTrue result }
{
    match kind {
        Kind::Unset => true,
        Kind::Number(numbers) => match other {
            Kind::Number(others) => numbers.range.covers(others.range),
            _ => false,
        },
        _ => !matches!(other, Kind::Unset | Kind::Number(_)),
    }
}

/// Returns whether a stack slot may hold all that the other one does. `false` says that it does
/// not.
fn may_hold(slot: &StackSlot, other: &StackSlot) -> bool
    ensures { slot.now ≡ other.now → IsTrue result }
{
    match slot {
        StackSlot::Written(_) => true,
        StackSlot::Spilled(kind) => match other {
            StackSlot::Spilled(known) => may_allow(kind, known),
            StackSlot::Written(_) => false,
        },
    }
}

/// Returns whether what is known of a part may cover what is known of it in a frame. `false` says
/// that it does not.
pub fn may_cover_part(part: &Part, frame: &AbstractFrame) -> bool
    ensures { IsPartOf frame.now part.now → IsTrue result }
{
    match *part {
        Part::InRegister(number, kind) => {
            let number = usize::from(number);
            if number >= 10 {
                return true;
            }
            let registers = &frame.registers;
            may_allow(&kind, &registers[number])
        }
        Part::InSlot(index, slot) => {
            let index = usize::from(index);
            if index >= FRAME_SLOTS {
                return true;
            }
            may_hold(&slot, &frame.stack.slots()[index])
        }
    }
}
