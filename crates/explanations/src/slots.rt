//! What is known of the stack slots, as text.

ghost use Rattle.std.specs.Prelude.{◌≡◌, ◌<◌, ◌≤◌, IfOk, IfSome, ◌+◌};
ghost use Rattle.std.specs.String.{string_bytes};
ghost use Rattle.stack_state.specs.Meaning.{stack_slots_of};
ghost use Rattle.isa_model.specs.Code.Limits.{stack_size};
ghost use Rattle.stack_state.specs.Slots.{slot_at, frame_slots};
ghost use Rattle.explanations.specs.Slots.{offset_of, byte_word, written_words, slot_words, slot_line, byte_at, first_open};

use crate::kinds::{calls_up, kind_words};
use isa_model::STACK_SIZE;
use stack_state::{StackSlot, State};
use std::alloc::{AllocError, Global};

/// The offset of a byte of a stack slot, counted from the end of the call frame.
pub fn offset_of(slot: usize, byte: u8) -> i64
    requires slot { slot < frame_slots }
    requires byte { byte < 8 }
    ensures { result ≡ offset_of slot byte }
{
    (8 * slot + usize::from(byte)) as i64 - STACK_SIZE as i64
}

/// The byte's offset, if it is a written number byte.
fn byte_word(alloc: Global, slot: usize, marks: u8, byte: u8) -> Result<String, AllocError>
    requires slot { slot < frame_slots }
    requires byte { byte < 8 }
    ensures { IfOk result (λ text. string_bytes text ≡ byte_word slot marks byte) }
{
    if (marks >> byte) & 1 != 1 {
        return Ok(String::new(alloc));
    }
    let offset = offset_of(slot, byte);
    format!(in alloc; " {offset}")
}

/// The offsets of the written number bytes of a stack slot.
fn written_words(alloc: Global, slot: usize, marks: u8) -> Result<String, AllocError>
    requires { slot < frame_slots }
    ensures { IfOk result (λ text. string_bytes text ≡ written_words slot marks 8) }
{
    let mut text = String::new(alloc);
    for count in 0..8u8 {
        let word = byte_word(alloc, slot, marks, 7 - count)?;
        text = format!(in alloc; "{word}{text}")?;
    }
    Ok(text)
}

/// Returns what is known of a stack slot, where the innermost frame has this index.
pub fn slot_words(
    alloc: Global,
    innermost: usize,
    slot: usize,
    known: StackSlot,
) -> Result<String, AllocError>
    requires { slot < frame_slots }
    ensures { IfOk result (λ text. string_bytes text ≡ slot_words innermost slot known) }
{
    match known {
        StackSlot::Written(0) => String::from_str(alloc, "unset"),
        StackSlot::Written(255) => String::from_str(alloc, "written"),
        StackSlot::Written(marks) => {
            let offsets = written_words(alloc, slot, marks)?;
            format!(in alloc; "written bytes{offsets}")
        }
        StackSlot::Spilled(kind) => kind_words(alloc, innermost, kind),
    }
}

/// A stack slot of a frame; if there is none with this index, one about which nothing is known.
fn slot_of(state: &State, frame: u8, slot: usize) -> StackSlot
    ensures { result ≡ slot_at (stack_slots_of state.now frame) slot }
{
    match state.stack_of(frame) {
        Some(stack) => stack
            .slots()
            .get(slot)
            .copied()
            .unwrap_or(StackSlot::Written(0)),
        None => StackSlot::Written(0),
    }
}

/// The line of a stack slot of a frame.
pub fn slot_line(alloc: Global, state: &State, frame: u8, slot: usize) -> Result<String, AllocError>
    requires { slot < frame_slots }
    ensures { IfOk result (λ text. string_bytes text ≡ slot_line state.now frame slot) }
{
    let innermost = state.callers.len();
    let start = offset_of(slot, 0);
    let up = calls_up(alloc, innermost.saturating_sub(usize::from(frame)))?;
    let words = slot_words(alloc, innermost, slot, slot_of(state, frame, slot))?;
    format!(in alloc; "stack {start}{up}: {words}\n")
}

/// The byte of a frame at that distance from its end.
pub fn byte_at(from_end: i64) -> Option<usize>
    ensures found { result ≡ byte_at from_end }
    ensures inside { IfSome result (λ at. at < stack_size) }
{
    let size = STACK_SIZE as i64;
    if from_end < -size || from_end >= 0 {
        return None;
    }
    Some((from_end + size) as usize)
}

/// The first stack slot, among this count of them from one on, that has a byte which is no written
/// number byte.
pub fn first_open(state: &State, frame: u8, slot: usize, count: usize) -> Option<usize>
    requires { slot + count ≤ frame_slots }
    ensures found { result ≡ first_open (stack_slots_of state.now frame) slot count }
    ensures inside { IfSome result (λ at. at < frame_slots) }
{
    for at in slot..slot + count {
        if slot_of(state, frame, at).marks() != 255 {
            return Some(at);
        }
    }
    None
}
