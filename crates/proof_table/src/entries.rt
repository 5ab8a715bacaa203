//! Entries, spelled as a table has them.

ghost use Rattle.std.specs.Prelude.{◌≡◌, ◌≤◌, ◌++◌, OnOk, length};
ghost use Rattle.std.specs.List.{flat_map};
ghost use Rattle.byteorder.specs.Endian.{little_bytes};
ghost use Rattle.proof_table.specs.Spelling.{named_bytes, entry_bytes};

use crate::frames::{spell_code_slot, spell_frame, spell_frames};
use stack_state::State;
use std::alloc::AllocError;

fn spell_indexes(indexes: &[u32], buffer: &mut Vec<u8>) -> Result<(), AllocError>
    ensures { OnOk result
        (buffer.new.items ≡ buffer.old.items ++ flat_map (little_bytes 4) indexes.now) }
{
    for index in indexes {
        buffer.extend_from_slice(&index.to_le_bytes())?;
    }
    Ok(())
}

fn spell_named(successors: &[u32], buffer: &mut Vec<u8>) -> Result<(), AllocError>
    requires { length successors.now ≤ 2 }
    ensures { OnOk result (buffer.new.items ≡ buffer.old.items ++ named_bytes successors.now) }
{
    buffer.extend_from_slice(&[successors.len() as u8])?;
    spell_indexes(successors, buffer)
}

/// Puts an entry after what the buffer has.
#[tactic(auto, unfolding(crate::specs::Spelling::entry_bytes))]
pub fn spell_entry(
    number: u32,
    state: &State,
    successors: &[u32],
    buffer: &mut Vec<u8>,
) -> Result<(), AllocError>
    requires { length successors.now ≤ 2 }
    ensures { OnOk result (buffer.new.items ≡ buffer.old.items ++ entry_bytes (record {
      number = number;
      state = state.now;
      successors = successors.now;
    })) }
{
    buffer.extend_from_slice(&number.to_le_bytes())?;
    spell_code_slot(state.slot, buffer)?;
    buffer.extend_from_slice(&[state.callers.len() as u8 + 1])?;
    spell_frames(&state.callers, buffer)?;
    spell_frame(&state.innermost, buffer)?;
    spell_named(successors, buffer)
}
