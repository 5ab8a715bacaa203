//! The forms that set a register from registers and constants only.

ghost use Rattle.std.specs.Prelude.{◌≡◌, ◌+◌, ◌<◌, ◌^◌, ℕ, List, [], slice_set};
ghost use Rattle.isa_model.specs.Code.Registers.{reg_number};
ghost use Rattle.isa_model.specs.Machine.Steps.{operand_value};
ghost use Rattle.checked_vm.specs.Machine.{state_of, KeepsFrames, PerformsApart};

use crate::core_state::Core;
use crate::values::{arithmetic, negated, reordered, sign_extended};
use isa_model::numbers::unsigned;
use isa_model::{
    AluOp, ByteOrder, Extension, Insn, Operand, Reg, SwapWidth, TrapReason, Value, Width,
};

impl Core {
    /// Sets a register and goes on at the slot that is `by` slots later.
    pub fn set_and_go_on(&mut self, d: Reg, value: Value, by: usize)
        requires { self.old.slot + by < 2 ^ 64 }
        ensures { self.new ≡ record self.old {
          slot = self.old.slot
              + by;
          regs = slice_set self.old.regs (reg_number d) value;
        } }
    {
        self.set(d, value);
        self.slot += by;
    }

    fn operand(&self, width: Width, source: Operand) -> Value
        ensures { (packet : List ℕ)
            → result ≡ operand_value (state_of self.now packet) width source }
    {
        match source {
            Operand::Constant(k) => Value::Num(unsigned(width, k)),
            Operand::Register(r) => self.value(r),
        }
    }

    /// Every operation with two operands, MOV included.
    #[tactic(auto, unfolding(isa_model::specs::Machine::Steps::act))]
    pub fn do_alu(
        &mut self,
        width: Width,
        op: AluOp,
        d: Reg,
        source: Operand,
    ) -> Result<(), TrapReason>
        requires { self.old.slot + 1 < 2 ^ 64 }
        ensures kept { KeepsFrames self.old self.new }
        ensures done { PerformsApart (Insn.Alu width op d source) result self.old self.new }
    {
        let value = arithmetic(op, width, self.value(d), self.operand(width, source))?;
        self.set_and_go_on(d, value, 1);
        Ok(())
    }

    /// NEG.
    #[tactic(auto, unfolding(isa_model::specs::Machine::Steps::act))]
    pub fn do_neg(&mut self, width: Width, d: Reg) -> Result<(), TrapReason>
        requires { self.old.slot + 1 < 2 ^ 64 }
        ensures kept { KeepsFrames self.old self.new }
        ensures done { PerformsApart (Insn.Neg width d) result self.old self.new }
    {
        let value = negated(width, self.value(d))?;
        self.set_and_go_on(d, value, 1);
        Ok(())
    }

    /// MOVSX.
    #[tactic(auto, unfolding(isa_model::specs::Machine::Steps::act))]
    pub fn do_mov_sx(&mut self, extension: Extension, d: Reg, source: Reg) -> Result<(), TrapReason>
        requires { self.old.slot + 1 < 2 ^ 64 }
        ensures kept { KeepsFrames self.old self.new }
        ensures done { PerformsApart (Insn.MovSx extension d source) result self.old self.new }
    {
        let value = sign_extended(extension, self.value(source))?;
        self.set_and_go_on(d, value, 1);
        Ok(())
    }

    /// END.
    #[tactic(auto, unfolding(isa_model::specs::Machine::Steps::act))]
    pub fn do_byte_swap(
        &mut self,
        order: ByteOrder,
        span: SwapWidth,
        d: Reg,
    ) -> Result<(), TrapReason>
        requires { self.old.slot + 1 < 2 ^ 64 }
        ensures kept { KeepsFrames self.old self.new }
        ensures done { PerformsApart (Insn.ByteSwap order span d) result self.old self.new }
    {
        let value = reordered(order, span, self.value(d))?;
        self.set_and_go_on(d, value, 1);
        Ok(())
    }
}
