//! Fingerprints of states, by which the index finds equal ones.
//!
//! Identities are left out, since they may have other names in another state.

use crate::parts::Part;
use reg_state::{Kind, Scalar};
use stack_state::{AbstractFrame, FRAME_SLOTS, StackSlot};

/// Fingerprints of call frames from the outermost on.
#[derive(Clone, Copy, Drop)]
pub struct Fingerprints {
    /// Of the slots to which the frames' exits lead: a state has the same one as those that cover
    /// it.
    pub returns: u64,
    /// Of all that is known: two states that cover one another have the same one.
    pub whole: u64,
}

impl Fingerprints {
    /// Of no frames yet, of a state at the slot.
    pub fn of(slot: usize) -> Self {
        Fingerprints {
            returns: 0,
            whole: slot as u64,
        }
    }

    /// With the next frame, which has no parts yet.
    pub fn with_frame(self, return_slot: usize) -> Self {
        let returns = mixed(self.returns, return_slot as u64);
        Fingerprints {
            returns,
            whole: mixed(self.whole, returns),
        }
    }

    /// With all parts of the last frame.
    pub fn with_parts_of(self, frame: &AbstractFrame) -> Self {
        let mut whole = self.whole;
        let registers = &frame.registers;
        for index in 0..10 {
            let kind = &registers[index];
            if !matches!(kind, Kind::Unset) {
                whole = with_register(whole, index as u8, kind);
            }
        }
        for index in 0..FRAME_SLOTS {
            let stack_slot = &frame.stack.slots()[index];
            if !matches!(stack_slot, StackSlot::Written(0)) {
                whole = with_stack_slot(whole, index as u8, stack_slot);
            }
        }
        Fingerprints {
            returns: self.returns,
            whole,
        }
    }

    /// With the next parts of the last frame.
    pub fn with_parts(self, parts: &[Part]) -> Self {
        let mut whole = self.whole;
        for part in parts {
            whole = with_part(whole, part);
        }
        Fingerprints {
            returns: self.returns,
            whole,
        }
    }
}

/// A fingerprint and one more word.
pub fn mixed(print: u64, word: u64) -> u64 {
    (print ^ word)
        .wrapping_mul(0x9e37_79b9_7f4a_7c15)
        .rotate_left(29)
}

fn with_signed(print: u64, number: i32) -> u64 {
    mixed(print, u64::from(number.cast_unsigned()))
}

/// Two numbers of 32 bits in a word.
fn pair(low: u32, upper: u32) -> u64 {
    u64::from(low) | u64::from(upper) << 32
}

/// A factor for each word of a number, so that the products do not depend on one another.
const FACTORS: [u64; 8] = [
    0xbf58_476d_1ce4_e5b9,
    0x94d0_49bb_1331_11eb,
    0xd6e8_feb8_6659_fd93,
    0xff51_afd7_ed55_8ccd,
    0xc4ce_b9fe_1a85_ec53,
    0xa076_1d64_78bd_642f,
    0xe703_7ed1_a0b4_28db,
    0x8ebc_6af0_9c88_c6e3,
];

fn with_numbers(print: u64, numbers: &Scalar) -> u64 {
    let wide = &numbers.range.wide;
    let low = &numbers.range.low;
    let words = [
        numbers.bits.value,
        numbers.bits.mask,
        wide.least,
        wide.greatest,
        wide.signed_least.cast_unsigned(),
        wide.signed_greatest.cast_unsigned(),
        pair(low.least, low.greatest),
        pair(
            low.signed_least.cast_unsigned(),
            low.signed_greatest.cast_unsigned(),
        ),
    ];
    let mut sum: u64 = 0;
    for index in 0..8 {
        sum = sum.wrapping_add(words[index].wrapping_mul(FACTORS[index]));
    }
    mixed(print, sum ^ sum >> 29)
}

fn with_kind(print: u64, kind: &Kind) -> u64 {
    match kind {
        Kind::Unset => mixed(print, 1),
        Kind::Number(numbers) => with_numbers(mixed(print, 2), numbers),
        Kind::Context => mixed(print, 3),
        Kind::Stack { frame, offset } => {
            with_signed(mixed(mixed(print, 4), u64::from(*frame)), *offset)
        }
        Kind::Packet {
            fixed,
            least,
            greatest,
            proved,
            ..
        } => {
            let limits = with_signed(
                with_signed(with_signed(mixed(print, 5), *fixed), *least),
                *greatest,
            );
            mixed(limits, u64::from(*proved))
        }
        Kind::PacketEnd => mixed(print, 6),
        Kind::Map { index } => mixed(mixed(print, 7), u64::from(*index)),
        Kind::MapValue {
            index,
            least,
            greatest,
        } => with_signed(
            with_signed(mixed(mixed(print, 8), u64::from(*index)), *least),
            *greatest,
        ),
        Kind::MapValueOrNull { index, .. } => mixed(mixed(print, 9), u64::from(*index)),
    }
}

fn with_register(print: u64, number: u8, kind: &Kind) -> u64 {
    with_kind(mixed(print, u64::from(number)), kind)
}

fn with_stack_slot(print: u64, index: u8, stack_slot: &StackSlot) -> u64 {
    match stack_slot {
        StackSlot::Written(marks) => {
            mixed(mixed(print, 128 + u64::from(index)), u64::from(*marks))
        }
        StackSlot::Spilled(kind) => with_kind(mixed(print, 64 + u64::from(index)), kind),
    }
}

fn with_part(print: u64, part: &Part) -> u64 {
    match part {
        Part::InRegister(number, kind) => with_register(print, *number, kind),
        Part::InSlot(index, stack_slot) => with_stack_slot(print, *index, stack_slot),
    }
}
