//! What the outcome of a test shows of a state.

ghost use Rattle.std.specs.Prelude.{◌≡◌};
ghost use Rattle.branch_refine.specs.Leaving.{goes, left_in, MayBePut};

use crate::operands::set_operand;
use isa_model::Cond;
use reg_state::{Kind, Scalar};
use stack_state::{Fact, State};

/// Says what a conditional jump shows of a state on one of its two edges: where its test is true,
/// or where it is false.
#[derive(Clone, Copy)]
pub enum BranchOutcome {
    /// No member takes this edge.
    Never,
    /// The test shows nothing.
    Same,
    /// The two compared numbers are narrowed to these.
    Narrowed(Scalar, Scalar),
    /// This holds of all values that it is about.
    Learned(Fact),
}

impl BranchOutcome {
    /// Returns whether some member may take this edge.
    pub fn goes(&self) -> bool
        ensures { result ≡ goes self.now }
    {
        !matches!(self, BranchOutcome::Never)
    }

    /// Narrows a state to the members that take this edge; if none does, it is unchanged.
    pub fn put(&self, cond: Cond, state: &mut State)
        requires { MayBePut cond self.now }
        ensures { state.new ≡ left_in cond state.old self.now }
    {
        match *self {
            BranchOutcome::Never | BranchOutcome::Same => {}
            BranchOutcome::Narrowed(left, right) => {
                state.set_register(cond.register, Kind::Number(left));
                set_operand(state, cond.operand, right);
            }
            BranchOutcome::Learned(fact) => state.learn(fact),
        }
    }
}
