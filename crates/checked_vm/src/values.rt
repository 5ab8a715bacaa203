//! Arithmetic on values, pointers included.

ghost use Rattle.std.specs.Prelude.{◌≡◌, ℕ, Ok};
ghost use Rattle.isa_model.specs.Code.Numbers.{low, negated, sign_extended, reordered};
ghost use Rattle.isa_model.specs.Machine.Pointers.{moved_to, pointer_and_number, number_and_pointer, moved, combined, arithmetic, on_number};
ghost use Rattle.isa_model.specs.Machine.Memory.{and_then};

use isa_model::numbers::{compute, low_32_bits, negate, reorder, sign_extend};
use isa_model::{
    AluOp, ByteOrder, Extension, OFFSET_LIMIT, Region, SwapWidth, TrapReason, Value, Width,
};

/// The pointer at a new offset.
fn moved_to(region: Region, offset: i128) -> Result<Value, TrapReason>
    ensures { result ≡ moved_to region offset }
{
    match region {
        Region::Packet | Region::CallFrame(_) | Region::MapValue(_, _) => {
            if -OFFSET_LIMIT <= offset && offset <= OFFSET_LIMIT {
                Ok(Value::Ptr(region, offset as i64))
            } else {
                Err(TrapReason::OutOfRange)
            }
        }
        _ => Err(TrapReason::BadPointer),
    }
}

/// A pointer on the left and a number on the right.
fn pointer_and_number(
    op: AluOp,
    width: Width,
    region: Region,
    offset: i64,
    n: u64,
) -> Result<Value, TrapReason>
    ensures { result ≡ pointer_and_number op width region offset n }
{
    match (op, width) {
        (AluOp::Add, Width::Full64) => moved_to(
            region,
            i128::from(offset) + i128::from(n.cast_signed()),
        ),
        (AluOp::Sub, Width::Full64) => moved_to(
            region,
            i128::from(offset) - i128::from(n.cast_signed()),
        ),
        _ => Err(TrapReason::BadPointer),
    }
}

/// A number on the left and a pointer on the right.
fn number_and_pointer(
    op: AluOp,
    width: Width,
    n: u64,
    region: Region,
    offset: i64,
) -> Result<Value, TrapReason>
    ensures { result ≡ number_and_pointer op width n region offset }
{
    match (op, width) {
        (AluOp::Add, Width::Full64) => moved_to(
            region,
            i128::from(offset) + i128::from(n.cast_signed()),
        ),
        _ => Err(TrapReason::BadPointer),
    }
}

/// The low half of a number, or all of it, by the width.
pub fn low(width: Width, n: u64) -> u64
    ensures { result ≡ low width n }
{
    match width {
        Width::Low32 => u64::from(low_32_bits(n)),
        Width::Full64 => n,
    }
}

/// MOV: a pointer is copied whole, at 64 bits only.
fn moved(width: Width, value: Value) -> Result<Value, TrapReason>
    ensures { result ≡ moved width value }
{
    match (width, value) {
        (_, Value::Num(n)) => Ok(Value::Num(low(width, n))),
        (Width::Full64, Value::Ptr(_, _)) => Ok(value),
        (Width::Low32, Value::Ptr(_, _)) => Err(TrapReason::BadPointer),
        (_, Value::Unset) => Err(TrapReason::UnsetRead),
    }
}

/// Every operation but MOV.
fn combined(op: AluOp, width: Width, a: Value, b: Value) -> Result<Value, TrapReason>
    ensures { result ≡ combined op width a b }
{
    match (a, b) {
        (Value::Num(m), Value::Num(n)) => Ok(Value::Num(compute(op, width, m, n))),
        (Value::Ptr(region, offset), Value::Num(n)) => {
            pointer_and_number(op, width, region, offset, n)
        }
        (Value::Num(n), Value::Ptr(region, offset)) => {
            number_and_pointer(op, width, n, region, offset)
        }
        (Value::Ptr(_, _), Value::Ptr(_, _)) => Err(TrapReason::BadPointer),
        _ => Err(TrapReason::UnsetRead),
    }
}

/// The result of an arithmetic instruction on its two operands.
pub fn arithmetic(op: AluOp, width: Width, a: Value, b: Value) -> Result<Value, TrapReason>
    ensures { result ≡ arithmetic op width a b }
{
    match op {
        AluOp::Mov => moved(width, b),
        _ => combined(op, width, a, b),
    }
}

/// The operand of an operation that is defined on numbers only.
fn only_number(value: Value) -> Result<u64, TrapReason>
    ensures { (f : ℕ → ℕ) → on_number f value ≡ and_then result (λ n. Ok (Value.Num (f n))) }
{
    match value {
        Value::Num(n) => Ok(n),
        Value::Ptr(_, _) => Err(TrapReason::BadPointer),
        Value::Unset => Err(TrapReason::UnsetRead),
    }
}

/// NEG.
pub fn negated(width: Width, value: Value) -> Result<Value, TrapReason>
    ensures { result ≡ on_number (negated width) value }
{
    Ok(Value::Num(negate(width, only_number(value)?)))
}

/// MOVSX.
pub fn sign_extended(extension: Extension, value: Value) -> Result<Value, TrapReason>
    ensures { result ≡ on_number (sign_extended extension) value }
{
    Ok(Value::Num(sign_extend(extension, only_number(value)?)))
}

/// END.
pub fn reordered(order: ByteOrder, span: SwapWidth, value: Value) -> Result<Value, TrapReason>
    ensures { result ≡ on_number (reordered order span) value }
{
    Ok(Value::Num(reorder(order, span, only_number(value)?)))
}
