//! What is forgotten of a state when a path reaches it.

ghost use Rattle.std.specs.Prelude.{◌≡◌, ◌↔◌, ℕ, ◌<◌, false, IsTrue};
ghost use Rattle.stack_state.specs.Slots.{AreKnownFrom};
ghost use Rattle.control_flow.specs.Masks.{HasSlot};
ghost use Rattle.walks.specs.Forgetting.{AreKept, AreSlotsLeft, AreSlotsKept, CallersForgotten, DeadForgotten, Exact, Coarse, Forgets, IsSlotDeadAt, KeepsNumbersOf, KnowsNoNumber, KnowsNumbersOf, KnowsTestedNumbers, MayForgetAll, NumbersForgotten};

use crate::numbers::{are_numbers, forget_registers_beside, forget_slots_of, forget_untested};
use control_flow::{Flow, RegisterMask, SlotMask};
use isa_model::Reg;
use reg_state::Kind;
use stack_state::{FRAME_SLOTS, StackState, State};

/// Forgets what is known of a register, which is written only if something is.
#[inline(always)]
fn unset(kind: &mut Kind)
    ensures { kind.new ≡ Kind.Unset }
{
    if let Kind::Unset = kind {
        return;
    }
    *kind = Kind::Unset;
}

/// Forgets what is known of the registers that are dead at a slot, if it is a join.
fn forget_registers(flow: &Flow<'_>, slot: usize, registers: &mut [Kind; 10])
    ensures { AreKept flow.now slot registers.old registers.new }
{
    if !flow.is_join(slot) {
        return;
    }
    let live = flow.live(slot);
    for number in 0..10u8 {
        let Some(register) = Reg::numbered(number) else {
            unreachable!()
        };
        if !live.has(register) {
            unset(&mut registers[usize::from(number)]);
        }
    }
}

/// Forgets what is known of the stack slots of a frame that are dead at a slot of the code. Nothing
/// is known of those before `known_from`.
fn forget_slots(flow: &Flow<'_>, slot: usize, known_from: usize, stack: &mut StackState)
    requires { AreKnownFrom known_from stack.old.slots }
    ensures { AreSlotsLeft flow.now slot stack.old.slots stack.new.slots }
{
    let live = flow.live_slots(slot);
    if live.is_full() {
        return;
    }
    if live.is_empty() {
        stack.clear();
        return;
    }
    for index in known_from..FRAME_SLOTS {
        if !live.has(index as u8) {
            stack.mark(index, 0);
        }
    }
}

/// Forgets what is known of the registers and of the stack slots of a frame that are dead at a
/// slot of the code, if it is a join.
fn forget_places(flow: &Flow<'_>, slot: usize, registers: &mut [Kind; 10], stack: &mut StackState)
    ensures registers { AreKept flow.now slot registers.old registers.new }
    ensures slots { AreSlotsKept flow.now slot stack.old.slots stack.new.slots }
{
    let known_from = stack.known_from();
    if !flow.is_join(slot) {
        return;
    }
    forget_registers(flow, slot, registers);
    forget_slots(flow, slot, known_from, stack);
}

/// Forgets what is known of the stack slots of the last caller that are dead where it goes on, if
/// it has just called.
fn forget_caller(flow: &Flow<'_>, has_called: bool, state: &mut State)
    ensures forgets { CallersForgotten flow.now state.old state.new }
    ensures same { has_called ≡ false → state.new ≡ state.old }
{
    if !has_called {
        return;
    }
    let Some(last) = state.callers.len().checked_sub(1) else {
        return;
    };
    let slot = state.innermost.return_slot;
    let caller = &mut state.callers[last];
    let known_from = caller.stack.known_from();
    forget_slots(flow, slot, known_from, &mut caller.stack);
}

/// Forgets what is known of the registers and of the stack slots of the innermost frame that are
/// dead at a state's slot, if it is a join: no path from there reads them before it writes them,
/// and states that differ only in them become one. After a call it forgets dead stack slots of the
/// caller too; until the return they stay as they are.
fn forget_dead(flow: &Flow<'_>, has_called: bool, state: &mut State)
    ensures forgets { DeadForgotten flow.now state.old state.new }
    ensures callers { has_called ≡ false → state.new.callers ≡ state.old.callers }
{
    forget_caller(flow, has_called, state);
    let frame = &mut state.innermost;
    forget_places(flow, state.slot, &mut frame.registers, &mut frame.stack);
}

/// Forgets what does not matter at a state's slot: what is dead there, and numbers that no path
/// tests. States that differ only in that become one. `has_called`: the step to the state called a
/// function, and dead stack slots of the caller are forgotten too.
pub fn forget(flow: &Flow<'_>, has_called: bool, state: &mut State)
    ensures forgets { Forgets Exact flow.now state.old state.new }
    ensures all { KnowsTestedNumbers flow.now state.new }
    ensures callers { has_called ≡ false → state.new.callers ≡ state.old.callers }
{
    forget_dead(flow, has_called, state);
    if flow.forgets_numbers() && flow.is_join(state.slot) {
        let frame = &mut state.innermost;
        forget_untested(flow, state.slot, &mut frame.registers, &mut frame.stack);
    }
}

/// Forgets what is dead at a state's slot, and at a join all numbers of the innermost call frame
/// but those in these registers and stack slots, also numbers that some path tests. More states
/// become one so, and some steps may be refused that the forgotten numbers would allow.
pub fn forget_beside(
    flow: &Flow<'_>,
    registers: RegisterMask,
    slots: SlotMask,
    has_called: bool,
    state: &mut State,
)
    ensures forgets { Forgets Coarse flow.now state.old state.new }
    ensures all { KnowsNumbersOf registers slots flow.now state.new }
    ensures keeps { KeepsNumbersOf registers slots flow.now state.old state.new }
    ensures callers { has_called ≡ false → state.new.callers ≡ state.old.callers }
{
    forget_dead(flow, has_called, state);
    if flow.takes_input() && flow.is_join(state.slot) {
        let frame = &mut state.innermost;
        forget_registers_beside(registers, &mut frame.registers);
        forget_slots_of(SlotMask::all().without(slots), &mut frame.stack);
    }
}

/// Returns whether all numbers of a state may be forgotten without a refusal: only plain code
/// follows, and each live register is a number.
pub fn may_forget_all(flow: &Flow<'_>, state: &State) -> bool
    ensures { IsTrue result ↔ MayForgetAll flow.now state.now }
{
    flow.forgets_numbers()
        && flow.is_join(state.slot)
        && flow.ends_plainly(state.slot)
        && are_numbers(flow.live(state.slot), &state.innermost.registers)
}

/// Forgets all numbers of a state's innermost call frame, which [`may_forget_all`] allows.
pub fn forget_all(flow: &Flow<'_>, state: &mut State)
    requires { MayForgetAll flow.now state.old }
    ensures forgets { NumbersForgotten Exact flow.now state.old state.new }
    ensures all { KnowsNoNumber state.new }
{
    let frame = &mut state.innermost;
    forget_registers_beside(RegisterMask::none(), &mut frame.registers);
    forget_slots_of(SlotMask::all(), &mut frame.stack);
}

/// The stack slots of the innermost frame about which something may be known where a path reaches a
/// slot of the code: at a join those that are live.
pub fn kept_slots(flow: &Flow<'_>, slot: usize) -> SlotMask
    ensures { (j : ℕ) → j < 64 → ¬ HasSlot result j → IsSlotDeadAt flow.now slot j }
{
    if !flow.is_join(slot) {
        return SlotMask::all();
    }
    flow.live_slots(slot)
}
