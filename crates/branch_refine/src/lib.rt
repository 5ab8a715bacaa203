//! What the test of a conditional jump shows of an abstract state.
#![tactic(auto)]

ghost use Rattle.std.specs.Prelude.{◌≡◌, ◌≢◌, ℕ, ◌<◌, ◌^◌, IsTrue, false, None, IfSome, IsSome};
ghost use Rattle.isa_model.specs.Code.Numbers.{holds};
ghost use Rattle.reg_state.specs.Scalars.{Has, IsConstant};
ghost use Rattle.reg_state.specs.Shown.{NarrowsBoth};
ghost use Rattle.stack_state.specs.Places.{kind_of};
ghost use Rattle.stack_state.specs.declared.states.State.{State as TheState};
ghost use Rattle.isa_model.specs.declared.instructions.Cond.{Cond as TheCond};
ghost use Rattle.branch_refine.specs.Refining.{IsJust, IsJustOperand, AreCompared, KeepsMembers, Narrows, KeepsOtherRegisters, Refined, LearnsOf, Refines, IsRefined};
ghost use Rattle.branch_refine.specs.Comparing.{same};
ghost use Rattle.branch_refine.specs.Leaving.{goes, left_in, MayBePut};

mod comparing;
mod operands;
mod outcomes;

pub use crate::comparing::{Compared, compared_by};
use crate::operands::{operand_numbers, register_numbers};
pub use crate::outcomes::BranchOutcome;
use isa_model::Cond;
use reg_state::{Domain, Scalar};
use stack_state::{Fact, State};

/// Says what is left of a state on one edge of a conditional jump.
#[derive(Drop)]
pub enum Branch {
    /// No member takes this edge.
    Never,
    Goes(State),
}

/// Returns what is left of a state where the test comes out as `taken` says.
pub fn refine(cond: Cond, taken: bool, state: &State) -> Branch
    ensures { IsRefined cond taken state.now result }
{
    let outcome = outcome_of(cond, taken, state);
    if !outcome.goes() {
        return Branch::Never;
    }
    let mut narrow = state.copy();
    outcome.put(cond, &mut narrow);
    Branch::Goes(narrow)
}

/// Returns what the test shows of a state where it comes out as `taken` says.
pub fn outcome_of(cond: Cond, taken: bool, state: &State) -> BranchOutcome
    ensures refines { Refines cond taken state.now (goes result) (left_in cond state.now result) }
    ensures put { MayBePut cond result }
{
    match compared_by(cond, state) {
        Compared::Numbers => numbers_outcome(cond, taken, state),
        pointers => pointers_outcome(pointers, taken),
    }
}

// What the test shows where pointers are compared.
fn pointers_outcome(compared: Compared, taken: bool) -> BranchOutcome
    ensures leaves { (a : TheState) → (cond : TheCond)
        → LearnsOf compared taken a (goes result) (left_in cond a result) }
    ensures put { (cond : TheCond) → MayBePut cond result }
{
    match compared {
        Compared::Packet {
            identity,
            shows,
            bytes,
        } => {
            if is_same(taken, shows) {
                BranchOutcome::Learned(Fact::Proved { identity, bytes })
            } else {
                BranchOutcome::Same
            }
        }
        Compared::OrNull { identity, null } => {
            BranchOutcome::Learned(Fact::Tested {
                identity,
                null: is_same(taken, null),
                zero: Scalar::constant(0),
            })
        }
        Compared::Live { null } => {
            if is_same(taken, null) {
                BranchOutcome::Never
            } else {
                BranchOutcome::Same
            }
        }
        _ => BranchOutcome::Same,
    }
}

fn is_same(taken: bool, shows: bool) -> bool
    ensures { result ≡ same taken shows }
{
    if taken { shows } else { !shows }
}

// What the test shows where two numbers are compared; of other operands it shows nothing.
fn numbers_outcome(cond: Cond, taken: bool, state: &State) -> BranchOutcome
    ensures kept { KeepsMembers cond taken state.now (goes result) (left_in cond state.now result) }
    ensures narrowed { Narrows state.now (left_in cond state.now result) }
    ensures others { KeepsOtherRegisters cond state.now (left_in cond state.now result) }
    ensures shown { AreCompared state.now cond → IsTrue (goes result)
        → Refined cond taken state.now (left_in cond state.now result) }
    ensures constants { (x y : ℕ) → IsJust (kind_of state.now cond.register) x
        → IsJustOperand state.now cond.width cond.operand y
        → holds cond.comparison cond.width x y ≢ taken → goes result ≡ false }
    ensures constants_go { (x y : ℕ) → IsJust (kind_of state.now cond.register) x
        → IsJustOperand state.now cond.width cond.operand y
        → holds cond.comparison cond.width x y ≡ taken → IsTrue (goes result) }
    ensures never { goes result ≡ false → left_in cond state.now result ≡ state.now }
    ensures put { MayBePut cond result }
{
    let Some(left) = register_numbers(state, cond.register) else {
        return BranchOutcome::Same;
    };
    let Some(right) = operand_numbers(state, cond.width, cond.operand) else {
        return BranchOutcome::Same;
    };
    let Some((new_left, new_right)) = narrowed(cond, taken, left, right) else {
        return BranchOutcome::Never;
    };
    BranchOutcome::Narrowed(new_left, new_right)
}

// What the comparison leaves of two numbers.
fn narrowed(cond: Cond, taken: bool, left: Scalar, right: Scalar) -> Option<(Scalar, Scalar)>
    ensures narrows { IfSome result
        (λ p. NarrowsBoth cond.comparison cond.width taken left right p.0 p.1) }
    ensures none { result ≡ None → (x y : ℕ) → Has left x → Has right y
        → holds cond.comparison cond.width x y ≢ taken }
    ensures stays { (x y : ℕ) → x < 2 ^ 64 → y < 2 ^ 64 → IsConstant left x → IsConstant right y
        → holds cond.comparison cond.width x y ≡ taken → IsSome result }
    ensures constants { (x y : ℕ) → IsConstant left x → IsConstant right y
        → holds cond.comparison cond.width x y ≢ taken → result ≡ None }
{
    reg_state::refine(cond.comparison, cond.width, taken, left, right)
}
