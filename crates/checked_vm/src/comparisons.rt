//! Comparisons of values, pointers included.

ghost use Rattle.std.specs.Prelude.{◌≡◌, ◌<◌, ◌^◌};
ghost use Rattle.isa_model.specs.Machine.Pointers.{packet_order, pointer_order, compared, null_test, compared_constant};

use isa_model::numbers::{compare, unsigned};
use isa_model::{Comparison, Region, TrapReason, Value, Width};

/// A packet offset against the packet's length, in the order of the operands.
fn packet_order(comparison: Comparison, a: i64, b: i64) -> Result<bool, TrapReason>
    ensures { result ≡ packet_order comparison a b }
{
    match comparison {
        Comparison::Greater => Ok(a > b),
        Comparison::GreaterEqual => Ok(a >= b),
        Comparison::Less => Ok(a < b),
        Comparison::LessEqual => Ok(a <= b),
        _ => Err(TrapReason::BadCompare),
    }
}

/// The comparison of two registers' values, in a run on a packet of this length.
pub fn compared(
    length: usize,
    comparison: Comparison,
    width: Width,
    a: Value,
    b: Value,
) -> Result<bool, TrapReason>
    requires { length < 2 ^ 63 }
    ensures { result ≡ compared length comparison width a b }
{
    match (a, b) {
        (Value::Num(m), Value::Num(n)) => Ok(compare(comparison, width, m, n)),
        (Value::Ptr(region, offset), Value::Ptr(other, other_offset)) => match (
            width, region, other,
        ) {
            (Width::Full64, Region::Packet, Region::PacketEnd) => {
                packet_order(comparison, offset, length as i64)
            }
            (Width::Full64, Region::PacketEnd, Region::Packet) => {
                packet_order(comparison, length as i64, other_offset)
            }
            _ => Err(TrapReason::BadCompare),
        },
        (Value::Unset, _) | (_, Value::Unset) => Err(TrapReason::UnsetRead),
        _ => Err(TrapReason::BadCompare),
    }
}

/// The test of a pointer to a map value against 0. The pointer is never 0, even where the map
/// value is gone.
fn null_test(comparison: Comparison, width: Width, region: Region) -> Result<bool, TrapReason>
    ensures { result ≡ null_test comparison width region }
{
    match (comparison, width, region) {
        (Comparison::Equal, Width::Full64, Region::MapValue(_, _)) => Ok(false),
        (Comparison::NotEqual, Width::Full64, Region::MapValue(_, _)) => Ok(true),
        _ => Err(TrapReason::BadCompare),
    }
}

/// The comparison of a register's value and a constant.
pub fn compared_constant(
    comparison: Comparison,
    width: Width,
    value: Value,
    k: i32,
) -> Result<bool, TrapReason>
    ensures { result ≡ compared_constant comparison width value k }
{
    match value {
        Value::Num(n) => Ok(compare(comparison, width, n, unsigned(width, k))),
        Value::Ptr(region, _) => {
            if k == 0 {
                null_test(comparison, width, region)
            } else {
                Err(TrapReason::BadCompare)
            }
        }
        Value::Unset => Err(TrapReason::UnsetRead),
    }
}
