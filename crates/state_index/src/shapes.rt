//! Shapes of states: which bits of the numbers in their registers and stack slots are known.
//!
//! A state covers another one only if each bit that it knows is known in the other as the same, and
//! if the exits of both return to the same slots of the code. So stored states are indexed by their
//! shape, and by the known bits in it and those slots.

use crate::fingerprints::mixed;
use crate::keys::Key;
use crate::parts::Part;
use reg_state::Kind;
use stack_state::StackSlot;
use std::alloc::{AllocError, Global};

/// A register or a stack slot that is known to hold a number.
#[derive(Clone, Copy, Drop)]
struct KnownNumber {
    /// The index of the part: registers come first, then stack slots.
    part_index: u64,
    /// The bits that are not known.
    unknown: u64,
}

impl KnownNumber {
    fn is_same(&self, other: KnownNumber) -> bool {
        self.part_index == other.part_index && self.unknown == other.unknown
    }
}

/// The numbers in the innermost call frame of a state, in the order of their parts.
#[derive(Drop)]
pub struct Shape {
    known_numbers: Vec<KnownNumber>,
}

/// Returns what a part is known to hold, if that is known to be a number, and its known bits.
fn number_in(part: &Part) -> Option<(KnownNumber, u64)> {
    let (part_index, kind) = match part {
        Part::InRegister(number, kind) => (u64::from(*number), kind),
        Part::InSlot(index, StackSlot::Spilled(kind)) => (16 + u64::from(*index), kind),
        Part::InSlot(_, StackSlot::Written(_)) => return None,
    };
    let Kind::Number(numbers) = kind else {
        return None;
    };
    let unknown = numbers.bits.mask;
    Some((
        KnownNumber {
            part_index,
            unknown,
        },
        numbers.bits.value,
    ))
}

/// A shape that stored states have, and the next one of its slot.
#[derive(Drop)]
pub struct ShapeLink {
    pub shape: Shape,
    pub next: u32,
}

/// Says what a state knows in a shape.
#[derive(Clone, Copy, Drop)]
pub struct KnownIn {
    /// A fingerprint of the shape, of its known bits as they are in the state, and of the slots of
    /// the code to which the state's frames return.
    pub print: u64,
    /// Says whether the shape is that of the state, which knows no other bits.
    pub is_own: bool,
}

/// A state's own shape, where it was met among those of its slot.
#[derive(Clone, Copy, Drop)]
pub struct OwnShape {
    /// A fingerprint of what the state knows in it.
    pub known: u64,
    /// Says how many look-ups it takes to find it again, and what is known in it.
    pub tried: usize,
}

impl KnownIn {
    /// The state's own shape: the one that was met before, or this one, which it takes so many
    /// look-ups to find again.
    #[inline(always)]
    pub fn own_after(&self, before: Option<OwnShape>, tried: usize) -> Option<OwnShape> {
        match before {
            None if self.is_own => Some(OwnShape {
                known: self.print,
                tried,
            }),
            before => before,
        }
    }
}

impl Shape {
    /// The shape of a state that has these parts. Every state has the shape of no parts, in which
    /// nothing is known.
    pub fn of(alloc: Global, parts: &[Part]) -> Result<Self, AllocError> {
        let mut known_numbers = Vec::new(alloc);
        for part in parts {
            if let Some((number, _)) = number_in(part) {
                known_numbers.push(number)?;
            }
        }
        Ok(Shape { known_numbers })
    }

    /// Returns whether it is the shape of a state.
    pub fn is_of(&self, key: &Key) -> bool {
        let mut rest = self.known_numbers.as_slice();
        for part in &key.parts {
            if let Some((number, _)) = number_in(part) {
                match rest {
                    [first, others @ ..] if first.is_same(number) => rest = others,
                    _ => return false,
                }
            }
        }
        rest.is_empty()
    }

    /// Returns what a state knows in the shape, which has this index. None if it does not know all
    /// bits that the shape knows.
    pub fn known_of(&self, index: usize, key: &Key) -> Option<KnownIn> {
        let mut rest = self.known_numbers.as_slice();
        let mut print = key.fingerprints.returns;
        let mut is_own = true;
        for part in &key.parts {
            if let Some((number, bits)) = number_in(part) {
                let [first, others @ ..] = rest else {
                    is_own = false;
                    break;
                };
                if first.part_index == number.part_index {
                    if number.unknown & !first.unknown != 0 {
                        break;
                    }
                    is_own = is_own && number.unknown == first.unknown;
                    print = mixed(print, bits & !first.unknown);
                    rest = others;
                } else {
                    is_own = false;
                }
            }
        }
        match rest.is_empty() {
            true => Some(KnownIn {
                print: mixed(print, index as u64),
                is_own,
            }),
            false => None,
        }
    }
}
