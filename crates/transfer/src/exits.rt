//! Local calls and exits.

ghost use Rattle.std.specs.Prelude.{◌≡◌, ◌+◌, ◌<◌, ◌^◌, length};
ghost use Rattle.stack_state.specs.Meaning.{depth};
ghost use Rattle.stack_state.specs.Places.{kind_of};
ghost use Rattle.isa_model.specs.Code.Instructions.{Program};
ghost use Rattle.transfer.specs.Exact.{shows_action, exit_result, points_into, StepsCall, StepsExit, StepsReturn};

use crate::Ways;
use crate::refusals::Refusal;
use isa_model::{Reg, Version, destination};
use reg_state::{Kind, Scalar};
use stack_state::State;

// The greatest number that names an action.
const MOST: u32 = 4;

/// Returns whether known bits or limits show that the low half of each number names an action, if
/// the version requires that.
fn shows_action(version: Version, numbers: Scalar) -> bool
    ensures { result ≡ shows_action version numbers }
{
    match version {
        Version::One => true,
        Version::Two => {
            numbers.bits.low_greatest() <= MOST
                || numbers.range.low.greatest <= MOST
                || numbers.range.wide.greatest <= u64::from(MOST)
        }
    }
}

/// The exit of a program of this version, with this kind in r0: no successor, or a refusal.
fn exit_result(version: Version, kind: Kind) -> Result<Ways, Refusal>
    ensures { result ≡ exit_result version kind }
{
    match kind {
        Kind::Number(numbers) => {
            if shows_action(version, numbers) {
                Ok(Ways::None)
            } else {
                Err(Refusal::NoAction)
            }
        }
        _ => Err(Refusal::ExitValue),
    }
}

/// Returns whether it points into a call frame, counted from the outermost, 0.
fn points_into(kind: Kind, frame: usize) -> bool
    ensures { result ≡ points_into frame kind }
{
    match kind {
        Kind::Stack { frame: into, .. } => usize::from(into) == frame,
        _ => false,
    }
}

/// A call of a function of the program.
pub fn call(by: i32, slots: usize, state: &mut State) -> Result<Ways, Refusal>
    requires { state.old.slot + 1 < 2 ^ 63 }
    ensures { (p : Program) → length p.insns ≡ slots → StepsCall p state.old by result state.new }
{
    if state.callers.is_full() {
        return Err(Refusal::TooManyFrames);
    }
    let target = destination(state.slot, by, slots);
    state.enter(target);
    Ok(Ways::One)
}

/// The exit of an inner frame, which returns r0.
fn return_to_caller(state: &mut State) -> Result<Ways, Refusal>
    requires { 1 < depth state.old }
    ensures { StepsReturn state.old result state.new }
{
    if points_into(state.kind_of(Reg::R0), state.callers.len()) {
        return Err(Refusal::ExitValue);
    }
    state.leave();
    Ok(Ways::One)
}

/// An exit: the first frame answers, and every other one returns to its caller.
pub fn exit(version: Version, state: &mut State) -> Result<Ways, Refusal>
    ensures { StepsExit version state.old result state.new }
{
    if state.callers.is_empty() {
        return exit_result(version, state.kind_of(Reg::R0));
    }
    let ways = return_to_caller(state)?;
    Ok(ways)
}
