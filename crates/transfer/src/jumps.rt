//! Jumps.

ghost use Rattle.std.specs.Prelude.{◌≡◌, ◌+◌, ◌<◌, ◌^◌, ◌↔◌, IsTrue, IfOk, length};
ghost use Rattle.isa_model.specs.Code.Instructions.{Program};
ghost use Rattle.stack_state.specs.Places.{go_to};
ghost use Rattle.branch_refine.specs.Comparing.{compared_by, IsDefined};
ghost use Rattle.branch_refine.specs.Leaving.{goes, left_in, MayBePut};
ghost use Rattle.transfer.specs.Refusing.{is_untested, is_untested_operand, comparison_refusal};
ghost use Rattle.transfer.specs.Exact.{Sides, BranchesOr};
ghost use Rattle.transfer.specs.Beside.{beside, ways_in, beside_in};

use crate::Ways;
use crate::refusals::Refusal;
use branch_refine::{BranchOutcome, Compared, compared_by, outcome_of};
use isa_model::{Cond, Operand, destination};
use reg_state::Kind;
use stack_state::State;

/// Returns whether the comparison is defined.
fn is_defined(cond: Cond, state: &State) -> bool
    ensures { IsTrue result ↔ IsDefined (compared_by state.now cond) }
{
    match compared_by(cond, state) {
        Compared::Undefined => false,
        _ => true,
    }
}

pub fn is_untested(kind: Kind) -> bool
    ensures { result ≡ is_untested kind }
{
    match kind {
        Kind::MapValueOrNull { .. } => true,
        _ => false,
    }
}

fn is_untested_operand(state: &State, operand: Operand) -> bool
    ensures { result ≡ is_untested_operand state.now operand }
{
    match operand {
        Operand::Constant(_) => false,
        Operand::Register(register) => is_untested(state.kind_of(register)),
    }
}

/// Returns why a comparison that is not defined is refused.
fn comparison_refusal(cond: Cond, state: &State) -> Refusal
    ensures { result ≡ comparison_refusal state.now cond }
{
    if is_untested(state.kind_of(cond.register)) || is_untested_operand(state, cond.operand) {
        Refusal::NullNotTested
    } else {
        Refusal::Comparison
    }
}

/// The two sides of a conditional jump: `state` becomes the fall-through's, at `next`, and `other`
/// the jump's, at `target`. If only one side is taken, `state` becomes that side's, and no state is
/// copied. True: the callers stay as they are, and of a second side they are not copied either.
fn split(
    cond: Cond,
    outcomes: (BranchOutcome, BranchOutcome),
    destinations: (usize, usize),
    state: &mut State,
    other: &mut State,
) -> (Ways, bool)
    requires stay { MayBePut cond outcomes.0 }
    requires go { MayBePut cond outcomes.1 }
    ensures sides { Sides (goes outcomes.0) (goes outcomes.1)
        (go_to (left_in cond state.old outcomes.0) destinations.0)
        (go_to (left_in cond state.old outcomes.1) destinations.1) result.0 state.new
        (beside result.1 state.new other.new) }
    ensures callers { IsTrue result.1 → state.new.callers ≡ state.old.callers }
{
    let (stay, go) = outcomes;
    let (next, target) = destinations;
    let stay_learns = matches!(stay, BranchOutcome::Learned(_));
    let go_learns = matches!(go, BranchOutcome::Learned(_));
    match (stay.goes(), go.goes()) {
        (true, true) => {
            let shares = !stay_learns && !go_learns;
            match shares {
                true => other.innermost.copy_from(&state.innermost),
                false => other.copy_from(state),
            }
            go.put(cond, other);
            other.slot = target;
            stay.put(cond, state);
            state.slot = next;
            (Ways::Two, shares)
        }
        (true, false) => {
            stay.put(cond, state);
            state.slot = next;
            (Ways::One, !stay_learns)
        }
        (false, true) => {
            go.put(cond, state);
            state.slot = target;
            (Ways::One, !go_learns)
        }
        (false, false) => (Ways::None, false),
    }
}

/// A conditional jump. True: the callers of the state stay as they are, and of a second successor
/// they are not copied.
pub fn jump_beside(
    cond: Cond,
    by: i32,
    slots: usize,
    state: &mut State,
    other: &mut State,
) -> Result<(Ways, bool), Refusal>
    requires { state.old.slot < 2 ^ 63 }
    ensures branches { (p : Program) → length p.insns ≡ slots
        → BranchesOr p state.old cond by (ways_in result) state.new
        (beside_in result state.new other.new) }
    ensures callers { IfOk result
        (λ left. IsTrue left.1 → state.new.callers ≡ state.old.callers) }
{
    if !is_defined(cond, state) {
        return Err(comparison_refusal(cond, state));
    }
    let stay = outcome_of(cond, false, state);
    let go = outcome_of(cond, true, state);
    let next = state.slot + 1;
    let target = destination(state.slot, by, slots);
    Ok(split(cond, (stay, go), (next, target), state, other))
}

/// A conditional jump.
pub fn jump_if(
    cond: Cond,
    by: i32,
    slots: usize,
    state: &mut State,
    other: &mut State,
) -> Result<Ways, Refusal>
    requires { state.old.slot < 2 ^ 63 }
    ensures { (p : Program) → length p.insns ≡ slots
        → BranchesOr p state.old cond by result state.new other.new }
{
    let (ways, shares) = jump_beside(cond, by, slots, state, other)?;
    if shares && matches!(ways, Ways::Two) {
        other.copy_callers(state);
    }
    Ok(ways)
}
