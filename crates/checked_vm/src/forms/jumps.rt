//! Jump instructions.

ghost use Rattle.std.specs.Prelude.{◌≡◌, ◌<◌, ◌^◌, ℕ, List, [], length, unwrap_or};
ghost use Rattle.isa_model.specs.Machine.Steps.{target, test_of};
ghost use Rattle.checked_vm.specs.Machine.{state_of, KeepsFrames, PerformsIn};

use crate::comparisons::{compared, compared_constant};
use crate::core_state::Core;
use isa_model::{Cond, Insn, Operand, TrapReason, destination};

impl Core {
    /// Goes on at the slot that a distance leads to.
    pub fn jump(&mut self, by: i32, slots: usize)
        requires { self.old.slot < 2 ^ 63 }
        ensures { self.new ≡ record self.old { slot = unwrap_or (target self.old.slot by) slots } }
    {
        self.slot = destination(self.slot, by, slots);
    }

    /// Returns whether the test of a conditional jump holds, in a run on a packet of this length.
    pub fn test(&self, cond: Cond, len: usize) -> Result<bool, TrapReason>
        requires { len < 2 ^ 63 }
        ensures { (packet : List ℕ) → length packet ≡ len
            → result ≡ test_of (state_of self.now packet) cond }
    {
        let value = self.value(cond.register);
        match cond.operand {
            Operand::Constant(k) => compared_constant(cond.comparison, cond.width, value, k),
            Operand::Register(r) => compared(
                len,
                cond.comparison,
                cond.width,
                value,
                self.value(r),
            ),
        }
    }

    /// A conditional jump.
    #[tactic(auto, unfolding(isa_model::specs::Machine::Steps::act))]
    pub fn do_jump_if(
        &mut self,
        packet: &[u8],
        cond: Cond,
        by: i16,
        slots: usize,
    ) -> Result<(), TrapReason>
        requires { self.old.slot < 2 ^ 63 }
        ensures kept { KeepsFrames self.old self.new }
        ensures done { PerformsIn slots
            (Insn.JumpIf cond by) result self.old packet.now self.new packet.now }
    {
        if self.test(cond, packet.len())? {
            self.jump(i32::from(by), slots);
        } else {
            self.slot += 1;
        }
        Ok(())
    }
}
