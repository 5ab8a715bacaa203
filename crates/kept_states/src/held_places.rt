//! Which places of a call frame a state knows.

ghost use Rattle.std.specs.Prelude.{◌≡◌, ◌<◌, ◌==◌};
ghost use Rattle.std.specs.Int.{bit_at};
ghost use Rattle.stack_state.specs.Slots.{frame_slots};
ghost use Rattle.state_index.specs.Parts.{all_written};
ghost use Rattle.kept_states.specs.HeldPlaces.{held_part, held_registers, held_slots, seen};

use crate::blanks::clear_frame;
use reg_state::Kind;
use stack_state::{AbstractFrame, FRAME_SLOTS, StackSlot};
use state_index::{Part, write};

/// Says of which places of a call frame a state knows what another frame does, and which of its
/// places have any number.
#[derive(Clone, Copy, Drop)]
pub struct HeldPlaces {
    slots: u64,
    any_slots: u64,
    registers: u16,
    any_registers: u16,
}

/// Returns whether a number is in a set.
#[inline(always)]
fn is_in(set: u64, number: usize) -> bool
    requires { number < 64 }
    ensures { result ≡ (bit_at set number == 1) }
{
    (set >> number) & 1 == 1
}

#[inline(always)]
fn with(set: u64, number: u8) -> u64 {
    set | (1 << (number & 63))
}

#[inline(always)]
fn with_register(set: u16, number: u8) -> u16 {
    set | (1 << (number & 15))
}

/// Writes what a state knows of a register: any number, or what another frame does.
#[inline(always)]
fn see_register(frame: &mut AbstractFrame, number: u8, known: (bool, bool), any: &Kind, kind: &Kind)
    ensures { frame.new ≡ all_written frame.old (held_part known.0 known.1
        (Part.InRegister number any.now) (Part.InRegister number kind.now)) }
{
    if known.0 {
        write(frame, &Part::InRegister(number, *any));
    } else if known.1 {
        write(frame, &Part::InRegister(number, *kind));
    }
}

/// Writes what a state knows of a stack slot: eight bytes of any number, or what another frame
/// does.
#[inline(always)]
fn see_slot(frame: &mut AbstractFrame, index: u8, known: (bool, bool), slot: &StackSlot)
    requires { index < frame_slots }
    ensures { frame.new ≡ all_written frame.old (held_part known.0 known.1
        (Part.InSlot index (StackSlot.Written 255)) (Part.InSlot index slot.now)) }
{
    if known.0 {
        frame.stack.mark(usize::from(index), 255);
    } else if known.1 {
        frame.stack.set(usize::from(index), *slot);
    }
}

impl HeldPlaces {
    /// No places.
    pub fn none() -> Self {
        HeldPlaces {
            slots: 0,
            any_slots: 0,
            registers: 0,
            any_registers: 0,
        }
    }

    /// Adds the place of a part, unless it is any number.
    #[inline(always)]
    pub fn add(&mut self, part: &Part, any: &Kind) -> bool {
        match part {
            Part::InRegister(number, kind) => {
                if *kind == *any {
                    self.any_registers = with_register(self.any_registers, *number);
                    return false;
                }
                self.registers = with_register(self.registers, *number);
            }
            Part::InSlot(index, slot) => {
                if let StackSlot::Written(255) = slot {
                    self.any_slots = with(self.any_slots, *index);
                    return false;
                }
                self.slots = with(self.slots, *index);
            }
        }
        true
    }

    fn see_registers(&self, any: &Kind, registers: &[Kind; 10], frame: &mut AbstractFrame)
        ensures { frame.new
            ≡ all_written frame.old (held_registers self.now any.now 0 registers.now) }
    {
        for index in 0..10 {
            let is_any = is_in(u64::from(self.any_registers), index);
            let is_held = is_in(u64::from(self.registers), index);
            let known = (is_any, is_held);
            see_register(frame, index as u8, known, any, &registers[index]);
        }
    }

    fn see_slots(&self, slots: &[StackSlot; FRAME_SLOTS], frame: &mut AbstractFrame)
        ensures { frame.new ≡ all_written frame.old (held_slots self.now 0 slots.now) }
    {
        for index in 0..FRAME_SLOTS {
            let is_any = is_in(self.any_slots, index);
            let is_held = is_in(self.slots, index);
            see_slot(frame, index as u8, (is_any, is_held), &slots[index]);
        }
    }

    /// Makes the frame what a state knows.
    pub fn see(
        &self,
        return_slot: usize,
        any: &Kind,
        full: &AbstractFrame,
        frame: &mut AbstractFrame,
    )
        ensures { frame.new ≡ seen self.now return_slot any.now full.now }
    {
        frame.return_slot = return_slot;
        clear_frame(frame);
        self.see_registers(any, &full.registers, frame);
        self.see_slots(full.stack.slots(), frame);
    }
}
