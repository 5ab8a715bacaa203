//! Which parts of a state a step surely leaves as they are.

ghost use Rattle.std.specs.Prelude.{◌≡◌, Some};
ghost use Rattle.isa_model.specs.declared.instructions.Insn.{Insn as TheInsn};
ghost use Rattle.isa_model.specs.Code.Instructions.{fetch};
ghost use Rattle.stack_state.specs.Places.{kind_of};
ghost use Rattle.rechecking.specs.Changes.{LeavesParts};
ghost use Rattle.rechecking.specs.Untouched as untouched_defs;
ghost use Rattle.rechecking.specs.Untouched.{KeptByTest, KeptByDelete, KeptByHelper, KeptBy};

use crate::changes::{KindChange, are_slots_kept, frames_kept};
use branch_refine::{Compared, compared_by};
use image::Image;
use isa_model::{Helper, Insn, Reg};
use reg_state::Kind;
use stack_state::State;
use transfer::Ways;

/// Says how many outer call frames, the outermost first, and whether the stack slots of the
/// innermost.
#[derive(Clone, Copy, Drop)]
pub struct UntouchedParts {
    pub frames: usize,
    pub slots: bool,
}

fn none_kept() -> UntouchedParts
    ensures { result ≡ untouched_defs.none_kept }
{
    UntouchedParts {
        frames: 0,
        slots: false,
    }
}

/// All outer frames, and the stack slots of the innermost if `slots` says so.
fn outer_kept(state: &State, slots: bool) -> UntouchedParts
    ensures { result ≡ untouched_defs.outer_kept state.now slots }
{
    UntouchedParts {
        frames: state.callers.len(),
        slots,
    }
}

/// Returns what a write through a pointer of that kind leaves: all but the frame that it points
/// into, and the outer ones after that.
fn kept_by_write(state: &State, base: Kind) -> UntouchedParts
    ensures { result ≡ untouched_defs.kept_by_write state.now base }
{
    match base {
        Kind::Stack { frame, .. } => {
            let frames = usize::from(frame);
            if frames == state.callers.len() {
                outer_kept(state, false)
            } else {
                UntouchedParts {
                    frames,
                    slots: true,
                }
            }
        }
        _ => outer_kept(state, true),
    }
}

/// Returns what a change of kinds leaves: the first outer frames, up to one that it changes, and
/// the slots if it changes none.
fn left_by(change: KindChange, state: &State) -> UntouchedParts
    ensures { LeavesParts change state.now result }
{
    UntouchedParts {
        frames: frames_kept(change, state.callers.as_slice()),
        slots: are_slots_kept(change, state.innermost.stack.slots()),
    }
}

/// Returns what a conditional jump leaves.
fn kept_by_test(state: &State, compared: Compared) -> UntouchedParts
    ensures { KeptByTest state.now compared result }
{
    match compared {
        Compared::Numbers | Compared::Live { .. } => outer_kept(state, true),
        Compared::Packet {
            identity,
            bytes,
            ..
        } => left_by(KindChange::Proves(identity, bytes), state),
        Compared::OrNull { identity, .. } => left_by(KindChange::Tests(identity), state),
        Compared::Undefined => none_kept(),
    }
}

/// Returns what a delete in that map leaves.
fn kept_by_delete(state: &State, map: Kind) -> UntouchedParts
    ensures { KeptByDelete state.now map result }
{
    match map {
        Kind::Map { index } => left_by(KindChange::Forgets(index), state),
        _ => none_kept(),
    }
}

/// Returns what the call of a helper leaves.
fn kept_by_helper(state: &State, helper: Option<Helper>) -> UntouchedParts
    ensures { KeptByHelper state.now helper result }
{
    match helper {
        Some(Helper::MapDeleteElem) => kept_by_delete(state, state.kind_of(Reg::R1)),
        _ => outer_kept(state, true),
    }
}

/// Returns what the step of an instruction leaves.
fn kept_by(state: &State, insn: &Insn) -> UntouchedParts
    ensures { KeptBy state.now insn.now result }
{
    match *insn {
        Insn::JumpIf(cond, _) => kept_by_test(state, compared_by(cond, state)),
        Insn::CallLocal(_) => outer_kept(state, false),
        Insn::Exit => UntouchedParts {
            frames: state.callers.len().saturating_sub(1),
            slots: false,
        },
        Insn::StoreConstant(_, place, _)
        | Insn::Store(_, place, _)
        | Insn::Atomic(_, _, _, place, _)
        | Insn::Exchange(_, place, _)
        | Insn::CompareExchange(_, place, _) => kept_by_write(state, state.kind_of(place.base)),
        Insn::CallHelper(number) => kept_by_helper(state, Helper::numbered(number)),
        Insn::Alu(..)
        | Insn::Neg(..)
        | Insn::MovSx(..)
        | Insn::ByteSwap(..)
        | Insn::LoadNumber(..)
        | Insn::LoadMap(..)
        | Insn::LoadMapValue(..)
        | Insn::Load(..)
        | Insn::LoadSx(..)
        | Insn::Jump(_)
        | Insn::JumpLong(_) => outer_kept(state, true),
    }
}

/// Returns what the step of a state leaves.
pub fn parts_kept(image: &Image, state: &State) -> UntouchedParts
    ensures { (i : TheInsn) → fetch image.now state.now.slot ≡ Some i
        → KeptBy state.now i result }
{
    match image.at(state.slot) {
        Some(insn) => kept_by(state, insn),
        None => none_kept(),
    }
}

/// Returns what of these parts the step leaves: none, if it has no successor.
pub fn kept_after(ways: Ways, parts: UntouchedParts) -> UntouchedParts
    ensures { result ≡ untouched_defs.kept_after ways parts }
{
    match ways {
        Ways::None => none_kept(),
        Ways::One | Ways::Two => parts,
    }
}
