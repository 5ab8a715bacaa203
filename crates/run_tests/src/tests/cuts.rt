//! Instructions that are cut off.

use super::rows::holds_at;
use insn_codec::{CodecError, decode};

/// A wide load of r1: 0x18, the register byte, the offset, the low half, the reserved bits and the
/// upper half.
const WIDE: [u8; 16] = [
    0x18, 0x01, 0, 0, 0x08, 0x07, 0x06, 0x05, 0, 0, 0, 0, 0x04, 0x03, 0x02, 0x01,
];

/// Returns why the first bytes are not an instruction, if they are not.
fn refusal_of(length: usize) -> Option<CodecError> {
    match WIDE.get(..length) {
        Some(bytes) => decode(bytes).err(),
        None => None,
    }
}

/// The first number of bytes that are refused so, or are an instruction if there is no error, and
/// the first number that are not.
const REFUSALS: &[(usize, usize, Option<CodecError>)] = &[
    (0, 8, Some(CodecError::Short)),
    (8, 16, Some(CodecError::SecondSlot)),
    (16, 17, None),
];

#[test]
fn cut_instructions(rt: HostRuntime) {
    for (index, (from, to, error)) in REFUSALS.iter().enumerate() {
        for length in *from..*to {
            holds_at(&rt, refusal_of(length) == *error, index, length);
        }
    }
}
