//! One abstract step: the successors of a state.
#![tactic(auto)]

ghost use Rattle.std.specs.Prelude.{◌≡◌, Some, IfOk, IsSome, IsTrue};
ghost use Rattle.isa_model.specs.declared.instructions.Insn.{Insn};
ghost use Rattle.isa_model.specs.Code.Instructions.{fetch};
ghost use Rattle.transfer.specs.Following.{GoesOnTo};
ghost use Rattle.transfer.specs.Leading.{OnSuccessors, LeadsTo, EachWay};
ghost use Rattle.transfer.specs.Exact.{Steps};
ghost use Rattle.transfer.specs.Beside.{beside, ways_in, beside_in};

mod arithmetic;
mod atomics;
mod bytes;
mod context;
mod exits;
mod helpers;
mod jumps;
mod memory;
mod offsets;
mod packets;
mod pointers;
pub mod refusals;
mod stacks;
mod steps;
mod values;

use crate::jumps::jump_beside;
use crate::steps::{keeps_callers, perform, reads_unset};
use image::Image;
use isa_model::{Insn, Version};
pub use refusals::Refusal;
use stack_state::State;

/// Says how many successors an instruction has.
#[derive(Clone, Copy, Drop)]
pub enum Ways {
    /// It exits, or no member goes on.
    None,
    /// One, left in the state.
    One,
    /// Two: the fall-through's in the state, the jump's in the other.
    Two,
}

/// The successors of a state, the fall-through first.
#[derive(Drop)]
pub enum Successors {
    /// It exits, or no member goes on.
    None,
    One(State),
    Two(State, State),
}

/// The successors of a state: no member traps at its instruction, and each exits or becomes a
/// member of a successor.
pub fn step(image: &Image, state: &State) -> Result<Successors, Refusal>
    requires { IsSome (fetch image.now state.now.slot) }
    ensures leads { OnSuccessors result
        (λ r a b. IfOk r (λ ways. LeadsTo image.now state.now ways a b)) }
    ensures steps { (i : Insn) → fetch image.now state.now.slot ≡ Some i
        → OnSuccessors result (λ r a b. Steps image.now state.now i r a b) }
{
    let mut first = state.copy();
    let mut second = state.copy();
    match step_in_place(image, &mut first, &mut second) {
        Ok(Ways::None) => Ok(Successors::None),
        Ok(Ways::One) => Ok(Successors::One(first)),
        Ok(Ways::Two) => Ok(Successors::Two(first, second)),
        Err(refusal) => Err(refusal),
    }
}

/// Does what `step` does in place. After a refusal the two states may hold anything.
pub fn step_in_place(image: &Image, state: &mut State, other: &mut State) -> Result<Ways, Refusal>
    requires { IsSome (fetch image.now state.old.slot) }
    ensures leads { IfOk result (λ ways. LeadsTo image.now state.old ways state.new other.new) }
    ensures follows { IfOk result
        (λ ways. EachWay ways state.new other.new (GoesOnTo image.now state.old)) }

    // The successors or the refusal, exactly.
    ensures steps { (i : Insn) → fetch image.now state.old.slot ≡ Some i
        → Steps image.now state.old i result state.new other.new }
{
    let Some(insn) = image.at(state.slot) else {
        unreachable!()
    };
    if reads_unset(state, insn) {
        return Err(Refusal::UnsetRegister);
    }
    if insn.writes_frame_pointer() {
        return Err(Refusal::ReadOnlyRegister);
    }
    let ways = perform(
        insn,
        image.slots(),
        image.maps(),
        version_of(image),
        state,
        other,
    )?;
    Ok(ways)
}

/// Does what `step_in_place` does. True: the callers of the state stay as they are, and a second
/// successor has them too, though `other` may have others.
pub fn step_beside(
    image: &Image,
    state: &mut State,
    other: &mut State,
) -> Result<(Ways, bool), Refusal>
    requires { IsSome (fetch image.now state.old.slot) }
    ensures leads { IfOk result (λ left. LeadsTo image.now state.old left.0 state.new
        (beside left.1 state.new other.new)) }
    ensures follows { IfOk result (λ left. EachWay left.0 state.new
        (beside left.1 state.new other.new) (GoesOnTo image.now state.old)) }
    ensures steps { (i : Insn) → fetch image.now state.old.slot ≡ Some i
        → Steps image.now state.old i (ways_in result) state.new
        (beside_in result state.new other.new) }
    ensures callers { IfOk result
        (λ left. IsTrue left.1 → state.new.callers ≡ state.old.callers) }
{
    let slots = image.slots();
    let Some(insn) = image.at(state.slot) else {
        unreachable!()
    };
    if let Insn::JumpIf(cond, by) = *insn {
        if !reads_unset(state, insn) {
            let left = jump_beside(cond, i32::from(by), slots, state, other)?;
            return Ok(left);
        }
    }
    let keeps = keeps_callers(insn);
    let ways = step_in_place(image, state, other)?;
    Ok((ways, keeps))
}

// The version of an image's program.
fn version_of(image: &Image) -> Version
    ensures { result ≡ image.now.version }
{
    match image.version() {
        1 => Version::One,
        _ => Version::Two,
    }
}
