//! Arithmetic on kinds.

ghost use Rattle.reg_state.specs.Arithmetic.{IsAlu, IsNegated, IsSignExtended, IsReordered};
ghost use Rattle.branch_refine.specs.Refining.{IsJust};
ghost use Rattle.transfer.specs.Results.{OfNumber, IsLowNumber, NumberAnd, PointerAnd, Combined, Copied, Arithmetic};

use crate::pointers::{number_and_pointer, pointer_and_number};
use crate::refusals::Refusal;
use isa_model::{AluOp, ByteOrder, Extension, SwapWidth, Width};
use reg_state::{Domain, Kind, Scalar};
use stack_state::State;

/// The kind of a constant.
pub fn constant(number: u64) -> Kind
    ensures { IsJust result number }
{
    Kind::Number(Scalar::constant(number))
}

/// NEG.
pub fn negated(width: Width, kind: Kind) -> Result<Kind, Refusal>
    ensures { OfNumber (IsNegated width) kind result }
{
    match kind {
        Kind::Number(a) => Ok(Kind::Number(Scalar::negate(width, a))),
        _ => Err(Refusal::PointerOperand),
    }
}

/// MOVSX.
pub fn sign_extended(extension: Extension, kind: Kind) -> Result<Kind, Refusal>
    ensures { OfNumber (IsSignExtended extension) kind result }
{
    match kind {
        Kind::Number(a) => Ok(Kind::Number(Scalar::sign_extend(extension, a))),
        _ => Err(Refusal::PointerOperand),
    }
}

/// END.
pub fn reordered(order: ByteOrder, span: SwapWidth, kind: Kind) -> Result<Kind, Refusal>
    ensures { OfNumber (IsReordered order span) kind result }
{
    match kind {
        Kind::Number(a) => Ok(Kind::Number(Scalar::reorder(order, span, a))),
        _ => Err(Refusal::PointerOperand),
    }
}

/// The results of an operation on two numbers.
fn computed(op: AluOp, width: Width, a: Scalar, b: Scalar) -> Scalar
    ensures { IsAlu op width a b result }
{
    Scalar::alu(op, width, a, b)
}

/// The low 32 bits of a number.
fn low_number(kind: Kind) -> Result<Kind, Refusal>
    ensures { OfNumber IsLowNumber kind result }
{
    match kind {
        Kind::Number(a) => Ok(Kind::Number(computed(AluOp::Mov, Width::Low32, a, a))),
        _ => Err(Refusal::PointerOperand),
    }
}

/// MOV: anything is copied at 64 bits, only a number at 32.
fn copied(width: Width, source: Kind) -> Result<Kind, Refusal>
    ensures { Copied width source result }
{
    match width {
        Width::Full64 => Ok(source),
        Width::Low32 => low_number(source),
    }
}

/// A number on the left.
fn number_and(state: &State, op: AluOp, width: Width, a: Scalar, b: Kind) -> Result<Kind, Refusal>
    ensures { NumberAnd state.now op width a b result }
{
    match b {
        Kind::Number(number) => Ok(Kind::Number(computed(op, width, a, number))),
        _ => number_and_pointer(state, op, width, a, b),
    }
}

/// A pointer on the left.
fn pointer_and(state: &State, op: AluOp, width: Width, a: Kind, b: Kind) -> Result<Kind, Refusal>
    ensures { PointerAnd state.now op width a b result }
{
    match b {
        Kind::Number(number) => pointer_and_number(state, op, width, a, number),
        _ => Err(Refusal::PointerOperand),
    }
}

/// Every operation but MOV.
fn combined(state: &State, op: AluOp, width: Width, a: Kind, b: Kind) -> Result<Kind, Refusal>
    ensures { Combined state.now op width a b result }
{
    match a {
        Kind::Number(number) => number_and(state, op, width, number, b),
        _ => pointer_and(state, op, width, a, b),
    }
}

/// The result of an arithmetic instruction on two operands in a state.
pub fn arithmetic(state: &State, op: AluOp, width: Width, a: Kind, b: Kind) -> Result<Kind, Refusal>
    ensures { Arithmetic state.now op width a b result }
{
    match op {
        AluOp::Mov => copied(width, b),
        _ => combined(state, op, width, a, b),
    }
}
