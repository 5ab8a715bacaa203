//! What an entry says nothing of, forgotten of a call frame: the search forgets so what is dead
//! where paths meet. Where the bytes of the entry are looked at is advice.

ghost use Rattle.std.specs.Prelude.{◌≡◌, ◌⊎◌};
ghost use Rattle.stack_state.specs.declared.slots.StackSlot.TheVariants.{Written};
ghost use Rattle.table_entries.specs.Forgetting.{IsWeakerList, IsWeakerFrame};

use crate::blanks::blank_stack_slots;
use crate::slices::skip;
use reg_state::Kind;
use stack_state::{AbstractFrame, FRAME_SLOTS, StackState};

/// Returns what follows the first bytes, if there are as many.
pub fn after(bytes: &[u8], count: usize) -> &[u8] {
    if bytes.len() < count {
        &[]
    } else {
        skip(bytes, count)
    }
}

/// The bytes after the fields of a kind.
fn after_fields(kind: u8, bytes: &[u8]) -> &[u8] {
    let count = match kind {
        1 => 64,
        3 | 8 => 5,
        4 => 20,
        6 => 1,
        7 => 9,
        _ => 0,
    };
    after(bytes, count)
}

/// A register is forgotten if the bytes begin with one that is unset. Returns the bytes after it.
fn forget_register<'a>(bytes: &'a [u8], register: &mut Kind) -> &'a [u8]
    ensures { (register.new ≡ register.old) ⊎ (register.new ≡ Kind.Unset) }
{
    match bytes {
        [] => bytes,
        [0, rest @ ..] => {
            *register = Kind::Unset;
            rest
        }
        [kind, rest @ ..] => after_fields(*kind, rest),
    }
}

/// Returns whether the bytes begin with a stack slot of which nothing is known, and the bytes after
/// it.
#[inline(always)]
fn next_slot(bytes: &[u8]) -> (bool, &[u8]) {
    match bytes {
        [0, marks, rest @ ..] => (*marks == 0, rest),
        [_, kind, rest @ ..] => (false, after_fields(*kind, rest)),
        _ => (false, bytes),
    }
}

fn forget_registers<'a>(bytes: &'a [u8], registers: &mut [Kind; 10]) -> &'a [u8]
    ensures { IsWeakerList Kind.Unset registers.old registers.new }
{
    let mut rest = bytes;
    for index in 0..10 {
        rest = forget_register(rest, &mut registers[index]);
    }
    rest
}

fn forget_slots(bytes: &[u8], stack: &mut StackState)
    ensures { IsWeakerList (Written 0) stack.old.slots stack.new.slots }
{
    let blank = blank_stack_slots(bytes);
    stack.forget_before(blank);
    let known_from = stack.known_from();
    let mut rest = skip(bytes, 2 * blank);
    for index in blank..FRAME_SLOTS {
        let (is_blank, after) = next_slot(rest);
        if is_blank && index >= known_from {
            stack.mark(index, 0);
        }
        rest = after;
    }
}

/// Forgets of a call frame what its bytes in an entry say nothing of.
pub fn forget_unsaid(bytes: &[u8], frame: &mut AbstractFrame)
    ensures { IsWeakerFrame frame.old frame.new }
{
    let rest = forget_registers(after(bytes, 2), &mut frame.registers);
    forget_slots(rest, &mut frame.stack);
}
