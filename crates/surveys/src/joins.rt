//! What several states know of a value together: what each of them allows.

ghost use Rattle.std.specs.Prelude.{ℕ, IfSome};
ghost use Rattle.reg_state.specs.Scalars.{Has};

use isa_model::Width;
use known_bits::Bits;
use ranges::{Low, Range, Wide};
use reg_state::{Domain, Kind, Scalar};
use stack_state::StackSlot;

/// Says what several states know of a value.
#[derive(Clone, Copy, PartialEq, Eq, Drop)]
pub enum CommonKind {
    Kind(Kind),
    /// Pointers into the packet at an offset within limits; and how many bytes of the packet all of
    /// them have proved, where no pointer has a variable part.
    Packet {
        least: i32,
        greatest: i32,
        proved: Option<u32>,
    },
    /// Values of different kinds.
    Differs,
}

/// The limits at 64 bits that both pairs keep within.
fn joined_wide(a: Wide, b: Wide) -> Wide {
    Wide {
        least: a.least.min(b.least),
        greatest: a.greatest.max(b.greatest),
        signed_least: a.signed_least.min(b.signed_least),
        signed_greatest: a.signed_greatest.max(b.signed_greatest),
    }
}

/// The limits of low halves that both pairs keep within.
fn joined_low(a: Low, b: Low) -> Low {
    Low {
        least: a.least.min(b.least),
        greatest: a.greatest.max(b.greatest),
        signed_least: a.signed_least.min(b.signed_least),
        signed_greatest: a.signed_greatest.max(b.signed_greatest),
    }
}

/// The numbers within the limits of both, if they are seen to cover both.
fn joined_numbers(a: Scalar, b: Scalar) -> Option<Scalar>
    ensures first { IfSome result (λ joined. (x : ℕ) → Has a x → Has joined x) }
    ensures second { IfSome result (λ joined. (x : ℕ) → Has b x → Has joined x) }
{
    let joined = Scalar {
        bits: Bits::any(Width::Full64),
        range: Range {
            wide: joined_wide(a.range.wide, b.range.wide),
            low: joined_low(a.range.low, b.range.low),
        },
    };
    if joined.covers(a) && joined.covers(b) {
        Some(joined)
    } else {
        None
    }
}

/// A pointer into the packet as an offset within limits.
fn packet_of(known: CommonKind) -> Option<(i32, i32, Option<u32>)> {
    match known {
        CommonKind::Kind(
            Kind::Packet {
                fixed,
                identity,
                least,
                greatest,
                proved,
            },
        ) => {
            let proved = if identity == 0 { Some(proved) } else { None };
            Some((
                fixed.saturating_add(least),
                fixed.saturating_add(greatest),
                proved,
            ))
        }
        CommonKind::Packet {
            least,
            greatest,
            proved,
        } => Some((least, greatest, proved)),
        CommonKind::Kind(_) | CommonKind::Differs => None,
    }
}

/// Two pointers into the packet.
fn joined_packets(a: CommonKind, b: CommonKind) -> CommonKind {
    match (packet_of(a), packet_of(b)) {
        (Some((least, greatest, proved)), Some((other_least, other_greatest, other_proved))) => {
            let proved = match (proved, other_proved) {
                (Some(a), Some(b)) => Some(a.min(b)),
                _ => None,
            };
            CommonKind::Packet {
                least: least.min(other_least),
                greatest: greatest.max(other_greatest),
                proved,
            }
        }
        _ => CommonKind::Differs,
    }
}

/// Two pointers into values of one map.
fn joined_values(a: Kind, b: Kind) -> CommonKind {
    match (a, b) {
        (
            Kind::MapValue {
                index,
                least,
                greatest,
            },
            Kind::MapValue {
                index: other,
                least: other_least,
                greatest: other_greatest,
            },
        ) if index == other => CommonKind::Kind(Kind::MapValue {
            index,
            least: least.min(other_least),
            greatest: greatest.max(other_greatest),
        }),
        _ => CommonKind::Differs,
    }
}

/// What is known of a value of which states know the one, and one more state the other.
pub fn joined(a: CommonKind, b: Kind) -> CommonKind {
    match (a, b) {
        (CommonKind::Kind(a), b) if a == b => CommonKind::Kind(a),
        (CommonKind::Kind(Kind::Unset), _) | (_, Kind::Unset) => CommonKind::Kind(Kind::Unset),
        (CommonKind::Kind(Kind::Number(a)), Kind::Number(b)) => match joined_numbers(a, b) {
            Some(numbers) => CommonKind::Kind(Kind::Number(numbers)),
            None => CommonKind::Differs,
        },
        (CommonKind::Kind(a), Kind::MapValue { .. }) => joined_values(a, b),
        _ => joined_packets(a, CommonKind::Kind(b)),
    }
}

/// What is known of a stack slot of which states know the one, and one more state the other.
pub fn joined_slot(a: StackSlot, b: StackSlot) -> StackSlot {
    if let (StackSlot::Spilled(a), StackSlot::Spilled(b)) = (a, b) {
        if let CommonKind::Kind(kind) = joined(CommonKind::Kind(a), b) {
            return StackSlot::Spilled(kind);
        }
    }
    StackSlot::Written(a.marks() & b.marks())
}
