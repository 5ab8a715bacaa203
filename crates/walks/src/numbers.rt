//! Numbers that are forgotten when a path reaches a state, since they do not matter there.

ghost use Rattle.std.specs.Prelude.{◌≡◌, ◌<◌, ◌↔◌, IsTrue, slice_set};
ghost use Rattle.stack_state.specs.Slots.{frame_slots, slot_at};
ghost use Rattle.branch_refine.specs.Refining.{IsNumberKind};
ghost use Rattle.control_flow.specs.Liveness.{InRegister, InSlot, IsSlotLive};
ghost use Rattle.control_flow.specs.Masks.{HasRegister, HasSlot};
ghost use Rattle.control_flow.specs.TestedNumbers.{MayForgetNumbers, IsNumberTested};
ghost use Rattle.walks.specs.Forgetting.{AreNumberRegisters, ForgetsNumber, ForgetsNumbersBeside, ForgetsNumbersIn, ForgetsSpilled};

use control_flow::{Flow, RegisterMask, SlotMask};
use isa_model::{Reg, Width};
use reg_state::{Domain, Kind, Scalar};
use stack_state::{FRAME_SLOTS, StackSlot, StackState};

/// Makes any number of a number.
#[inline(always)]
fn forget_number(kind: &mut Kind)
    ensures { ForgetsNumber kind.old kind.new }
{
    if let Kind::Number(_) = kind {
        *kind = Kind::Number(Scalar::any(Width::Full64));
    }
}

/// Forgets the numbers in all registers but these.
pub(crate) fn forget_registers_beside(kept: RegisterMask, registers: &mut [Kind; 10])
    ensures { ForgetsNumbersBeside (HasRegister kept) registers.old registers.new }
{
    for number in 0..10u8 {
        let Some(register) = Reg::numbered(number) else {
            unreachable!()
        };
        if !kept.has(register) {
            forget_number(&mut registers[usize::from(number)]);
        }
    }
}

/// Makes any number of a number that was spilled in a stack slot.
#[inline(always)]
fn forget_spilled(index: usize, stack: &mut StackState)
    requires { index < frame_slots }
    ensures forgets { ForgetsSpilled (slot_at stack.old.slots index)
        (slot_at stack.new.slots index) }
    ensures others { stack.new.slots
        ≡ slice_set stack.old.slots index (slot_at stack.new.slots index) }
{
    if let StackSlot::Spilled(Kind::Number(_)) = &stack.slots()[index] {
        stack.mark(index, 255);
    }
}

/// Forgets the numbers in these stack slots.
pub(crate) fn forget_slots_of(chosen: SlotMask, stack: &mut StackState)
    ensures { ForgetsNumbersIn (HasSlot chosen) stack.old.slots stack.new.slots }
{
    for index in stack.known_from()..FRAME_SLOTS {
        if chosen.has(index as u8) {
            forget_spilled(index, stack);
        }
    }
}

/// Returns whether it is a number.
fn is_number(kind: &Kind) -> bool
    ensures { IsTrue result ↔ IsNumberKind kind.now }
{
    matches!(kind, Kind::Number(_))
}

/// Returns whether each of these registers is a number. r10 is none.
pub(crate) fn are_numbers(live: RegisterMask, registers: &[Kind; 10]) -> bool
    ensures { IsTrue result ↔ AreNumberRegisters live registers.now }
{
    if live.has(Reg::R10) {
        return false;
    }
    for number in 0..10u8 {
        let Some(register) = Reg::numbered(number) else {
            unreachable!()
        };
        if live.has(register) && !is_number(&registers[usize::from(number)]) {
            return false;
        }
    }
    true
}

/// Forgets the numbers of a call frame that no path from a join tests.
pub(crate) fn forget_untested(
    flow: &Flow<'_>,
    slot: usize,
    registers: &mut [Kind; 10],
    stack: &mut StackState,
)
    ensures registers { MayForgetNumbers flow.now → ForgetsNumbersBeside
        (λ r. IsNumberTested flow.now (InRegister r) slot) registers.old registers.new }
    ensures slots { MayForgetNumbers flow.now → ForgetsNumbersIn
        (λ j. IsSlotLive flow.now j slot × (¬ IsNumberTested flow.now (InSlot j) slot))
        stack.old.slots stack.new.slots }
{
    forget_registers_beside(flow.tested(slot), registers);
    forget_slots_of(
        flow.live_slots(slot).without(flow.tested_slots(slot)),
        stack,
    );
}
