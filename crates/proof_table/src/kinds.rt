//! The kinds of registers and stack slots, spelled as a table has them.

ghost use Rattle.std.specs.Prelude.{◌≡◌, ◌++◌, OnOk};
ghost use Rattle.proof_table.specs.Spelling.{bits_bytes, wide_bytes, low_bytes, scalar_bytes, stack_bytes, packet_bytes, value_bytes, null_bytes, kind_bytes, stack_slot_bytes};

use byteorder::{ByteOrder, LittleEndian};
use known_bits::Bits;
use ranges::{Low, Wide};
use reg_state::{Kind, Scalar};
use stack_state::StackSlot;
use std::alloc::AllocError;

// ---- numbers

#[tactic(auto, unfolding(crate::specs::Spelling::bits_bytes))]
fn bits_bytes(bits: &Bits) -> [u8; 16]
    ensures { result ≡ bits_bytes bits.now }
{
    let mut bytes = [0; 16];
    LittleEndian::write_u64(&mut bytes, bits.value);
    LittleEndian::write_u64(&mut bytes[8..], bits.mask);
    bytes
}

#[tactic(auto, unfolding(crate::specs::Spelling::wide_bytes))]
fn wide_bytes(wide: &Wide) -> [u8; 32]
    ensures { result ≡ wide_bytes wide.now }
{
    let mut bytes = [0; 32];
    LittleEndian::write_u64(&mut bytes, wide.least);
    LittleEndian::write_u64(&mut bytes[8..], wide.greatest);
    LittleEndian::write_u64(&mut bytes[16..], wide.signed_least.cast_unsigned());
    LittleEndian::write_u64(&mut bytes[24..], wide.signed_greatest.cast_unsigned());
    bytes
}

#[tactic(auto, unfolding(crate::specs::Spelling::low_bytes))]
fn low_bytes(low: &Low) -> [u8; 16]
    ensures { result ≡ low_bytes low.now }
{
    let mut bytes = [0; 16];
    LittleEndian::write_u32(&mut bytes, low.least);
    LittleEndian::write_u32(&mut bytes[4..], low.greatest);
    LittleEndian::write_u32(&mut bytes[8..], low.signed_least.cast_unsigned());
    LittleEndian::write_u32(&mut bytes[12..], low.signed_greatest.cast_unsigned());
    bytes
}

fn spell_scalar(numbers: &Scalar, buffer: &mut Vec<u8>) -> Result<(), AllocError>
    ensures { OnOk result (buffer.new.items ≡ buffer.old.items ++ scalar_bytes numbers.now) }
{
    buffer.extend_from_slice(&bits_bytes(&numbers.bits))?;
    buffer.extend_from_slice(&wide_bytes(&numbers.range.wide))?;
    buffer.extend_from_slice(&low_bytes(&numbers.range.low))
}

// ---- pointers

#[tactic(auto, unfolding(crate::specs::Spelling::stack_bytes))]
fn stack_bytes(frame: u8, offset: i32) -> [u8; 6]
    ensures { result ≡ stack_bytes frame offset }
{
    let mut bytes = [3, frame, 0, 0, 0, 0];
    LittleEndian::write_u32(&mut bytes[2..], offset.cast_unsigned());
    bytes
}

#[tactic(auto, unfolding(crate::specs::Spelling::packet_bytes))]
fn packet_bytes(fixed: i32, identity: u32, least: i32, greatest: i32, proved: u32) -> [u8; 21]
    ensures { result ≡ packet_bytes fixed identity least greatest proved }
{
    let mut bytes = [4; 21];
    LittleEndian::write_u32(&mut bytes[1..], fixed.cast_unsigned());
    LittleEndian::write_u32(&mut bytes[5..], identity);
    LittleEndian::write_u32(&mut bytes[9..], least.cast_unsigned());
    LittleEndian::write_u32(&mut bytes[13..], greatest.cast_unsigned());
    LittleEndian::write_u32(&mut bytes[17..], proved);
    bytes
}

#[tactic(auto, unfolding(crate::specs::Spelling::value_bytes))]
fn value_bytes(index: u8, least: i32, greatest: i32) -> [u8; 10]
    ensures { result ≡ value_bytes index least greatest }
{
    let mut bytes = [7, index, 0, 0, 0, 0, 0, 0, 0, 0];
    LittleEndian::write_u32(&mut bytes[2..], least.cast_unsigned());
    LittleEndian::write_u32(&mut bytes[6..], greatest.cast_unsigned());
    bytes
}

#[tactic(auto, unfolding(crate::specs::Spelling::null_bytes))]
fn null_bytes(index: u8, identity: u32) -> [u8; 6]
    ensures { result ≡ null_bytes index identity }
{
    let mut bytes = [8, index, 0, 0, 0, 0];
    LittleEndian::write_u32(&mut bytes[2..], identity);
    bytes
}

// ---- kinds and stack slots

/// Puts a kind after what the buffer has.
#[tactic(auto, unfolding(crate::specs::Spelling::kind_bytes))]
pub fn spell_kind(kind: &Kind, buffer: &mut Vec<u8>) -> Result<(), AllocError>
    ensures { OnOk result (buffer.new.items ≡ buffer.old.items ++ kind_bytes kind.now) }
{
    match *kind {
        Kind::Unset => buffer.extend_from_slice(&[0]),
        Kind::Number(numbers) => {
            buffer.extend_from_slice(&[1])?;
            spell_scalar(&numbers, buffer)
        }
        Kind::Context => buffer.extend_from_slice(&[2]),
        Kind::Stack { frame, offset } => buffer.extend_from_slice(&stack_bytes(frame, offset)),
        Kind::Packet {
            fixed,
            identity,
            least,
            greatest,
            proved,
        } => {
            let bytes = packet_bytes(fixed, identity, least, greatest, proved);
            buffer.extend_from_slice(&bytes)
        }
        Kind::PacketEnd => buffer.extend_from_slice(&[5]),
        Kind::Map { index } => buffer.extend_from_slice(&[6, index]),
        Kind::MapValue {
            index,
            least,
            greatest,
        } => buffer.extend_from_slice(&value_bytes(index, least, greatest)),
        Kind::MapValueOrNull { index, identity } => {
            buffer.extend_from_slice(&null_bytes(index, identity))
        }
    }
}

/// Puts a stack slot after what the buffer has.
///
/// An exit leaves an unset value where a pointer into its call frame was spilled. A table has no
/// spelling for it: it says that no byte of the stack slot is written, which says as little.
#[tactic(auto, unfolding(crate::specs::Spelling::stack_slot_bytes))]
pub fn spell_stack_slot(slot: &StackSlot, buffer: &mut Vec<u8>) -> Result<(), AllocError>
    ensures { OnOk result (buffer.new.items ≡ buffer.old.items ++ stack_slot_bytes slot.now) }
{
    match slot {
        StackSlot::Written(marks) => buffer.extend_from_slice(&[0, *marks]),
        StackSlot::Spilled(Kind::Unset) => buffer.extend_from_slice(&[0, 0]),
        StackSlot::Spilled(kind) => {
            buffer.extend_from_slice(&[1])?;
            spell_kind(kind, buffer)
        }
    }
}
