//! Call frames, spelled as a table has them.

ghost use Rattle.std.specs.Prelude.{◌≡◌, ◌++◌, OnOk};
ghost use Rattle.std.specs.List.{flat_map};
ghost use Rattle.byteorder.specs.Endian.{little_bytes};
ghost use Rattle.proof_table.specs.Spelling.{kind_bytes, stack_slot_bytes, frame_bytes};

use crate::kinds::{spell_kind, spell_stack_slot};
use reg_state::Kind;
use stack_state::{AbstractFrame, FRAME_SLOTS, StackSlot};
use std::alloc::AllocError;

/// Puts a slot of the code, its lowest 16 bits, after what the buffer has.
pub fn spell_code_slot(slot: usize, buffer: &mut Vec<u8>) -> Result<(), AllocError>
    ensures { OnOk result (buffer.new.items ≡ buffer.old.items ++ little_bytes 2 slot) }
{
    buffer.extend_from_slice(&slot.to_le_bytes()[..2])
}

fn spell_registers(registers: &[Kind; 10], buffer: &mut Vec<u8>) -> Result<(), AllocError>
    ensures { OnOk result
        (buffer.new.items ≡ buffer.old.items ++ flat_map kind_bytes registers.now) }
{
    for kind in registers {
        spell_kind(kind, buffer)?;
    }
    Ok(())
}

fn spell_stack_slots(
    slots: &[StackSlot; FRAME_SLOTS],
    buffer: &mut Vec<u8>,
) -> Result<(), AllocError>
    ensures { OnOk result
        (buffer.new.items ≡ buffer.old.items ++ flat_map stack_slot_bytes slots.now) }
{
    for slot in slots {
        spell_stack_slot(slot, buffer)?;
    }
    Ok(())
}

/// Puts a call frame after what the buffer has.
#[tactic(auto, unfolding(crate::specs::Spelling::frame_bytes))]
pub fn spell_frame(frame: &AbstractFrame, buffer: &mut Vec<u8>) -> Result<(), AllocError>
    ensures { OnOk result (buffer.new.items ≡ buffer.old.items ++ frame_bytes frame.now) }
{
    spell_code_slot(frame.return_slot, buffer)?;
    spell_registers(&frame.registers, buffer)?;
    spell_stack_slots(frame.stack.slots(), buffer)
}

/// Puts frames after what the buffer has, one after the other.
pub fn spell_frames(frames: &[AbstractFrame], buffer: &mut Vec<u8>) -> Result<(), AllocError>
    ensures { OnOk result
        (buffer.new.items ≡ buffer.old.items ++ flat_map frame_bytes frames.now) }
{
    for frame in frames {
        spell_frame(frame, buffer)?;
    }
    Ok(())
}
