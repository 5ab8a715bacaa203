//! Which registers an instruction reads and writes.

ghost use Rattle.std.specs.Prelude.{◌≡◌, ◌↔◌, ◌⊎◌, ◌∷◌, [], Some};
ghost use Rattle.isa_model.specs.declared.registers.Reg.{Reg as TheReg};
ghost use Rattle.isa_model.specs.declared.registers.Reg.TheVariants.{R1, R2, R3, R4, R5};
ghost use Rattle.isa_model.specs.MustAccept.Paths.{IsOneOf};
ghost use Rattle.control_flow.specs.Accesses.{read_registers, written_registers};
ghost use Rattle.control_flow.specs.Masks.{HasRegister};

use crate::masks::RegisterMask;
use isa_model::{Insn, Reg};

/// r1 to r5: what a local call passes to the function, and what every call leaves unset.
fn arguments() -> RegisterMask
    ensures { (r : TheReg) → HasRegister result r ↔ IsOneOf (R1 ∷ R2 ∷ R3 ∷ R4 ∷ R5 ∷ []) r }
{
    RegisterMask::none()
        .with(Reg::R1)
        .with(Reg::R2)
        .with(Reg::R3)
        .with(Reg::R4)
        .with(Reg::R5)
}

/// These registers, and one more if there is one.
fn with_found(mask: RegisterMask, found: Option<Reg>) -> RegisterMask
    ensures { (r : TheReg) → HasRegister result r ↔ (HasRegister mask r ⊎ (found ≡ Some r)) }
{
    match found {
        Some(register) => mask.with(register),
        None => mask,
    }
}

/// The registers that an instruction reads.
pub fn registers_read(insn: &Insn) -> RegisterMask
    ensures { (r : TheReg) → HasRegister result r ↔ IsOneOf (read_registers insn.now) r }
{
    match insn {
        Insn::Exit => RegisterMask::none().with(Reg::R0),
        Insn::CallLocal(_) => arguments(),
        insn => {
            let (first, second, third, fourth) = insn.read();
            let two = with_found(with_found(RegisterMask::none(), first), second);
            with_found(with_found(two, third), fourth)
        }
    }
}

/// The registers that have another value after an instruction.
pub fn registers_written(insn: &Insn) -> RegisterMask
    ensures { (r : TheReg) → HasRegister result r ↔ IsOneOf (written_registers insn.now) r }
{
    match insn {
        Insn::CallHelper(_) | Insn::CallLocal(_) => arguments().with(Reg::R0),
        insn => with_found(RegisterMask::none(), insn.written()),
    }
}
