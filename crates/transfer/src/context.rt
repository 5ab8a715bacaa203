//! Loads of the context's fields.

ghost use Rattle.std.specs.Prelude.{◌≡◌};
ghost use Rattle.transfer.specs.ContextLoads.{packet_start, FieldLoads, ContextLoads};
ghost use Rattle.transfer.specs.Results.{IsNumber32};

use crate::refusals::Refusal;
use isa_model::{Size, Width};
use reg_state::{Domain, Kind, Scalar};

/// Any number of 32 bits.
fn number32() -> Kind
    ensures { IsNumber32 result }
{
    Kind::Number(Scalar::any(Width::Low32))
}

/// A pointer to the packet's first byte.
fn packet_start() -> Kind
    ensures { result ≡ packet_start }
{
    Kind::Packet {
        fixed: 0,
        identity: 0,
        least: 0,
        greatest: 0,
        proved: 0,
    }
}

/// The result of a 4-byte load.
fn field(offset: i16) -> Result<Kind, Refusal>
    ensures { FieldLoads offset result }
{
    match offset {
        0 => Ok(packet_start()),
        4 => Ok(Kind::PacketEnd),
        12 | 16 => Ok(number32()),
        _ => Err(Refusal::ContextAccess),
    }
}

/// The result of a load that extends no sign; one that extends it is refused.
pub fn context_load(size: Size, offset: i16) -> Result<Kind, Refusal>
    ensures { ContextLoads size offset result }
{
    match size {
        Size::U32 => field(offset),
        _ => Err(Refusal::ContextAccess),
    }
}
