//! Arithmetic, comparisons and byte order on numbers. RFC 9669, sections 4.1 to 4.3.
//!
//! Machines and abstract domains compute with these functions and have no others.

ghost use Rattle.std.specs.Prelude.{◌≡◌, ◌%◌, ◌^◌};
ghost use Rattle.isa_model.specs.Code.Numbers.{low, signed, unsigned, alu, result_of, negated, sign_extended, reordered, holds};

use crate::instructions::{AluOp, Comparison};
use crate::sizes::{ByteOrder, Extension, SwapWidth, Width};

/// The low 32 bits.
pub fn low_32_bits(a: u64) -> u32
    ensures { result ≡ a % 2 ^ 32 }
{
    (a % 0x1_0000_0000) as u32
}

/// A constant as a number of a width: at 64 bits it is sign-extended.
pub fn unsigned(width: Width, k: i32) -> u64
    ensures { result ≡ unsigned width k }
{
    match width {
        Width::Low32 => u64::from(k.cast_unsigned()),
        Width::Full64 => i64::from(k).cast_unsigned(),
    }
}

/// The result of the operation on the numbers in two registers. At 32 bits its upper half is zero.
#[tactic(auto, unfolding(crate::specs::Code::Numbers::alu))]
pub fn compute(op: AluOp, width: Width, a: u64, b: u64) -> u64
    ensures { result ≡ alu op width a b }
{
    match width {
        Width::Low32 => u64::from(compute32(op, low_32_bits(a), low_32_bits(b))),
        Width::Full64 => compute64(op, a, b),
    }
}

// The operation on two numbers of an unsigned type with this number of bits.
macro_rules! operation {
    ($op:expr, $a:expr, $b:expr, $bits:literal) => {
        match $op {
            AluOp::Add => $a.wrapping_add($b),
            AluOp::Sub => $a.wrapping_sub($b),
            AluOp::Mul => $a.wrapping_mul($b),
            AluOp::Div => if $b == 0 { 0 } else { $a / $b },
            AluOp::SignedDiv => {
                if $b == 0 {
                    0
                } else {
                    $a.cast_signed()
                        .wrapping_div($b.cast_signed())
                        .cast_unsigned()
                }
            }
            AluOp::Or => $a | $b,
            AluOp::And => $a & $b,
            AluOp::Lsh => $a << ($b % $bits),
            AluOp::Rsh => $a >> ($b % $bits),
            AluOp::Mod => if $b == 0 { $a } else { $a % $b },
            AluOp::SignedMod => {
                if $b == 0 {
                    $a
                } else {
                    $a.cast_signed()
                        .wrapping_rem($b.cast_signed())
                        .cast_unsigned()
                }
            }
            AluOp::Xor => $a ^ $b,
            AluOp::Mov => $b,
            AluOp::Arsh => ($a.cast_signed() >> ($b % $bits)).cast_unsigned(),
        }
    };
}

fn compute64(op: AluOp, a: u64, b: u64) -> u64
    ensures { result ≡ result_of op Width.Full64 a b }
{
    operation!(op, a, b, 64)
}

fn compute32(op: AluOp, a: u32, b: u32) -> u32
    ensures { result ≡ result_of op Width.Low32 a b }
{
    operation!(op, a, b, 32)
}

/// The number with its sign changed, at the width.
pub fn negate(width: Width, a: u64) -> u64
    ensures { result ≡ negated width a }
{
    compute(AluOp::Sub, width, 0, a)
}

/// The low bits, sign-extended to the extension's width; a 32-bit result has an upper half of
/// zeros.
#[tactic(auto, unfolding(crate::specs::Code::Numbers::sign_extended))]
pub fn sign_extend(extension: Extension, a: u64) -> u64
    ensures { result ≡ sign_extended extension a }
{
    match extension {
        Extension::Low8 => u64::from(i32::from(low_byte(a).cast_signed()).cast_unsigned()),
        Extension::Low16 => u64::from(i32::from(low16(a).cast_signed()).cast_unsigned()),
        Extension::Full8 => i64::from(low_byte(a).cast_signed()).cast_unsigned(),
        Extension::Full16 => i64::from(low16(a).cast_signed()).cast_unsigned(),
        Extension::Full32 => i64::from(low_32_bits(a).cast_signed()).cast_unsigned(),
    }
}

fn low_byte(a: u64) -> u8
    ensures { result ≡ a % 2 ^ 8 }
{
    (a % 0x100) as u8
}

fn low16(a: u64) -> u16
    ensures { result ≡ a % 2 ^ 16 }
{
    (a % 0x1_0000) as u16
}

/// The low bytes in their order or reversed, zero-extended.
#[tactic(auto, unfolding(crate::specs::Code::Numbers::reordered))]
pub fn reorder(order: ByteOrder, span: SwapWidth, a: u64) -> u64
    ensures { result ≡ reordered order span a }
{
    match (order, span) {
        (ByteOrder::Little, SwapWidth::B16) => u64::from(low16(a)),
        (ByteOrder::Little, SwapWidth::B32) => u64::from(low_32_bits(a)),
        (ByteOrder::Little, SwapWidth::B64) => a,
        (_, SwapWidth::B16) => u64::from(low16(a).swap_bytes()),
        (_, SwapWidth::B32) => u64::from(low_32_bits(a).swap_bytes()),
        (_, SwapWidth::B64) => a.swap_bytes(),
    }
}

/// The low bits of the width.
pub fn truncate(width: Width, a: u64) -> u64
    ensures { result ≡ low width a }
{
    match width {
        Width::Low32 => u64::from(low_32_bits(a)),
        Width::Full64 => a,
    }
}

/// The low bits of the width, read as a signed number.
pub fn as_signed(width: Width, a: u64) -> i64
    ensures { result ≡ signed width (low width a) }
{
    match width {
        Width::Low32 => i64::from(low_32_bits(a).cast_signed()),
        Width::Full64 => a.cast_signed(),
    }
}

/// Returns whether the comparison holds of the numbers in two registers, at the width.
#[tactic(auto, unfolding(crate::specs::Code::Numbers::holds))]
pub fn compare(comparison: Comparison, width: Width, a: u64, b: u64) -> bool
    ensures { result ≡ holds comparison width a b }
{
    let x = truncate(width, a);
    let y = truncate(width, b);
    match comparison {
        Comparison::Equal => x == y,
        Comparison::NotEqual => x != y,
        Comparison::Greater => x > y,
        Comparison::GreaterEqual => x >= y,
        Comparison::Less => x < y,
        Comparison::LessEqual => x <= y,
        Comparison::AnyBit => x & y != 0,
        Comparison::SignedGreater => as_signed(width, a) > as_signed(width, b),
        Comparison::SignedGreaterEqual => as_signed(width, a) >= as_signed(width, b),
        Comparison::SignedLess => as_signed(width, a) < as_signed(width, b),
        Comparison::SignedLessEqual => as_signed(width, a) <= as_signed(width, b),
    }
}
