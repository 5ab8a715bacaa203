//! The numbers that a condition compares.

ghost use Rattle.std.specs.Prelude.{◌≡◌, ◌≢◌};
ghost use Rattle.stack_state.specs.Places.{kind_of};
ghost use Rattle.branch_refine.specs.Numbers.{numbers_in, AreNumbersOf, with_operand};

use isa_model::numbers::unsigned;
use isa_model::{Operand, Reg, Width};
use reg_state::{Domain, Kind, Scalar};
use stack_state::State;

/// The numbers in a register, if it is known to hold one.
pub fn register_numbers(state: &State, register: Reg) -> Option<Scalar>
    ensures { result ≡ numbers_in (kind_of state.now register) }
{
    match state.kind_of(register) {
        Kind::Number(numbers) => Some(numbers),
        _ => None,
    }
}

/// The numbers of an operand, if it is known to be a number.
pub fn operand_numbers(state: &State, width: Width, operand: Operand) -> Option<Scalar>
    ensures { AreNumbersOf state.now width operand result }
{
    match operand {
        Operand::Constant(k) => Some(Scalar::constant(unsigned(width, k))),
        Operand::Register(register) => register_numbers(state, register),
    }
}

/// Sets what is known of an operand; a constant stays one.
pub fn set_operand(state: &mut State, operand: Operand, numbers: Scalar)
    requires { operand ≢ Operand.Register Reg.R10 }
    ensures { state.new ≡ with_operand state.old operand numbers }
{
    if let Operand::Register(register) = operand {
        state.set_register(register, Kind::Number(numbers));
    }
}
