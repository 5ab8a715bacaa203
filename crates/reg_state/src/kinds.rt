//! Kinds: what an abstract state knows of a value.

ghost use Rattle.std.specs.Prelude.{◌≡◌, ℕ, IsSome, IsTrue};

use crate::domains::Domain;
use crate::scalars::Scalar;

/// Says what is known of the value of a register or of a stack slot. Offsets are in bytes.
///
/// An identity is shared by values that were copied from one another: what a test shows of one of
/// them holds of all. Identity 0 of a packet pointer stands for none: its variable part is 0.
#[derive(Clone, Copy, PartialEq, Eq, Debug, Default)]
pub enum Kind {
    /// Nothing: it may be unset.
    #[default]
    Unset,
    Number(Scalar),
    /// The context, `struct xdp_md`.
    Context,
    /// A pointer into a call frame, counted from the outermost, 0; the offset is from the frame's
    /// end.
    Stack {
        frame: u8,
        offset: i32,
    },
    /// A pointer into the packet: a fixed part, and a variable part within limits, which all
    /// pointers of the identity share. Where `proved` is not 0, that many bytes after the variable
    /// part are in the packet.
    Packet {
        fixed: i32,
        identity: u32,
        least: i32,
        greatest: i32,
        proved: u32,
    },
    PacketEnd,
    Map {
        index: u8,
    },
    /// A pointer to a live map value, at an offset within limits.
    MapValue {
        index: u8,
        least: i32,
        greatest: i32,
    },
    /// The answer of a look-up: a pointer to a live map value, or 0. All values of the identity are
    /// that pointer, or all are 0.
    MapValueOrNull {
        index: u8,
        identity: u32,
    },
}

impl Kind {
    ghost use Rattle.reg_state.specs.KindCover.{packet_identity_of, null_identity_of, IsCalled};
    ghost use Rattle.reg_state.specs.KindCover.{KindCovers, KindEncloses, IsNoNumber};

    /// The packet identity that it names, 0 included, if it names one.
    pub fn packet_identity(self) -> Option<u32>
        ensures { result ≡ packet_identity_of self }
    {
        match self {
            Kind::Packet { identity, .. } => Some(identity),
            _ => None,
        }
    }

    /// The null identity that it names, if it names one.
    pub fn null_identity(self) -> Option<u32>
        ensures { result ≡ null_identity_of self }
    {
        match self {
            Kind::MapValueOrNull { identity, .. } => Some(identity),
            _ => None,
        }
    }

    /// Returns whether it allows what `other` does, where `counterpart` is what `other`'s state
    /// calls the identity that it names. `packet` and `null` rename identities to those of
    /// `other`'s state.
    pub fn covers(self, other: Kind, counterpart: u32) -> bool
        ensures yes { IsTrue result → (packet null : ℕ → ℕ) → IsCalled packet null self counterpart
            → KindCovers packet null self other }
        ensures encloses { (packet null : ℕ → ℕ) → IsCalled packet null self counterpart
            → KindEncloses packet null self other → IsTrue result }
        ensures no { IsNoNumber self → (packet null : ℕ → ℕ) → IsCalled packet null self counterpart
            → KindCovers packet null self other → IsTrue result }
        ensures equal { self ≡ other → IsCalled (λ i. i) (λ i. i) self counterpart → IsTrue result }
    {
        match self {
            Kind::Unset => true,
            Kind::Number(numbers) => match other {
                Kind::Number(others) => numbers.covers(others),
                _ => false,
            },
            Kind::Context => matches!(other, Kind::Context),
            Kind::Stack { frame, offset } => match other {
                Kind::Stack {
                    frame: other_frame,
                    offset: other_offset,
                } => frame == other_frame && offset == other_offset,
                _ => false,
            },
            Kind::Packet { .. } => self.covers_packet(other, counterpart),
            Kind::PacketEnd => matches!(other, Kind::PacketEnd),
            Kind::Map { index } => match other {
                Kind::Map { index: map } => index == map,
                _ => false,
            },
            Kind::MapValue {
                index,
                least,
                greatest,
            } => match other {
                Kind::MapValue {
                    index: map,
                    least: other_least,
                    greatest: other_greatest,
                } => index == map && least <= other_least && other_greatest <= greatest,
                _ => false,
            },
            Kind::MapValueOrNull { index, .. } => match other {
                Kind::MapValueOrNull {
                    index: map,
                    identity: name,
                } => index == map && counterpart == name,
                _ => false,
            },
        }
    }

    // The same, of a packet pointer.
    fn covers_packet(self, other: Kind, counterpart: u32) -> bool
        requires { IsSome (packet_identity_of self) }
        ensures yes { IsTrue result → (packet null : ℕ → ℕ) → IsCalled packet null self counterpart
            → KindCovers packet null self other }
        ensures no { (packet null : ℕ → ℕ) → IsCalled packet null self counterpart
            → KindCovers packet null self other → IsTrue result }
        ensures equal { self ≡ other → IsCalled (λ i. i) (λ i. i) self counterpart → IsTrue result }
    {
        match self {
            Kind::Packet {
                fixed,
                least,
                greatest,
                proved,
                ..
            } => match other {
                Kind::Packet {
                    fixed: other_fixed,
                    identity: name,
                    least: other_least,
                    greatest: other_greatest,
                    proved: other_proved,
                } => {
                    if fixed != other_fixed || counterpart != name || other_proved < proved {
                        return false;
                    }
                    if other_least < least || greatest < other_greatest {
                        return false;
                    }
                    true
                }
                _ => false,
            },
            _ => false,
        }
    }
}
