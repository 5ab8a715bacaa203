//! Local calls and the exits of inner call frames: a frame pushed, and popped.

ghost use Rattle.std.specs.Prelude.{◌≡◌, ◌+◌, ◌<◌, ◌^◌, length};
ghost use Rattle.stack_state.specs.Calls as call_defs;
ghost use Rattle.stack_state.specs.Calls.{caller_of, callee_of, resumed_of, entered, ended};
ghost use Rattle.stack_state.specs.Meaning.{depth};
ghost use Rattle.isa_model.specs.Code.Limits.{max_call_frames};

use crate::facts::Fact;
use crate::stacks::StackState;
use crate::states::{AbstractFrame, State};
use isa_model::Reg;
use reg_state::Kind;

// ---- registers

/// r6 to r9, which a call keeps.
fn kept_kinds(kinds: &[Kind; 10]) -> [Kind; 10]
    ensures { result ≡ call_defs.kept_kinds kinds.now }
{
    let none = Kind::Unset;
    let [_, _, _, _, _, _, r6, r7, r8, r9] = *kinds;
    [none, none, none, none, none, none, r6, r7, r8, r9]
}

/// r1 to r5, which it passes to the function.
fn argument_kinds(kinds: &[Kind; 10]) -> [Kind; 10]
    ensures { result ≡ call_defs.argument_kinds kinds.now }
{
    let none = Kind::Unset;
    let [_, r1, r2, r3, r4, r5, ..] = *kinds;
    [none, r1, r2, r3, r4, r5, none, none, none, none]
}

/// r0 as the callee leaves it, and r6 to r9 as they were kept.
fn left_kinds(answer: Kind, kinds: &[Kind; 10]) -> [Kind; 10]
    ensures { result ≡ call_defs.left_kinds answer kinds.now }
{
    let none = Kind::Unset;
    let [_, _, _, _, _, _, r6, r7, r8, r9] = *kinds;
    [answer, none, none, none, none, none, r6, r7, r8, r9]
}

// ---- frames

impl AbstractFrame {
    /// The frame becomes a caller's: only r6 to r9 are kept.
    fn become_caller(&mut self)
        ensures { self.new ≡ caller_of self.old }
    {
        self.registers = kept_kinds(&self.registers);
    }

    /// A caller's frame becomes that of the function that it calls, which returns to the slot of
    /// the code.
    #[tactic(auto, unfolding(crate::specs::Calls::unset_slots))]
    fn become_callee(&mut self, slot: usize)
        ensures { self.new ≡ callee_of self.old slot }
    {
        self.return_slot = slot;
        self.registers = argument_kinds(&self.registers);
        self.stack.clear();
    }

    /// The caller's frame after a return, with this in r0.
    pub(crate) fn resume(&mut self, answer: Kind)
        ensures { self.new ≡ resumed_of self.old answer }
    {
        self.registers = left_kinds(answer, &self.registers);
    }
}

// ---- states

impl State {
    /// A call of the function at a slot of the code. It returns to the slot after the call.
    pub fn enter(&mut self, target: usize)
        requires room { depth self.old < max_call_frames }
        requires slot { self.old.slot + 1 < 2 ^ 63 }
        ensures { self.new ≡ entered self.old target }
    {
        let mut caller = self.innermost.copy();
        caller.become_caller();
        self.callers.push(caller);
        self.innermost.become_callee(self.slot + 1);
        self.slot = target;
    }

    /// The exit of the innermost frame to its caller. What points into the frame is forgotten in
    /// all others.
    pub fn leave(&mut self)
        requires { 1 < depth self.old }
        ensures { self.new ≡ ended self.old }
    {
        let frame = self.callers.len() as u8;
        self.learn(Fact::Ended { frame });
        let slot = self.innermost.return_slot;
        let answer = self.kind_of(Reg::R0);
        let Some(caller) = self.callers.pop() else {
            unreachable!()
        };
        self.innermost = caller;
        self.innermost.resume(answer);
        self.slot = slot;
    }
}
