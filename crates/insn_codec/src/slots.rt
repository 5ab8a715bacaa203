//! Slots as bytes. RFC 9669, section 3.

ghost use Rattle.std.specs.Prelude.{◌≡◌, ◌≤◌, ◌<◌, ◌++◌, Some, length, drop};
ghost use Rattle.isa_model.specs.Code.Spelling.{slot_bytes, second_bytes};
ghost use Rattle.insn_codec.specs.Decoding.{slot_at};

use byteorder::{ByteOrder, LittleEndian};
use isa_model::Slot;

/// The fields of the first 8 bytes.
pub fn read(bytes: &[u8]) -> Slot
    requires { 8 ≤ length bytes.now }
    ensures { result ≡ slot_at bytes.now }
{
    Slot {
        opcode: bytes[0],
        dst: bytes[1] % 16,
        src: bytes[1] / 16,
        offset: LittleEndian::read_u16(&bytes[2..]),
        imm: LittleEndian::read_u32(&bytes[4..]),
    }
}

/// The slot's 8 bytes.
pub fn bytes_of(slot: &Slot) -> [u8; 8]
    requires dst { slot.now.dst < 16 }
    requires src { slot.now.src < 16 }
    ensures { result ≡ slot_bytes slot.now }
{
    let mut bytes = [0; 8];
    bytes[0] = slot.opcode;
    bytes[1] = slot.dst + 16 * slot.src;
    LittleEndian::write_u16(&mut bytes[2..], slot.offset);
    LittleEndian::write_u32(&mut bytes[4..], slot.imm);
    bytes
}

/// Writes the 8 bytes of a second slot.
pub fn write_second(next_imm: u32, out: &mut [u8])
    requires { length out.old ≡ 8 }
    ensures { out.new ≡ second_bytes (Some next_imm) }
{
    LittleEndian::write_u32(out, 0);
    LittleEndian::write_u32(&mut out[4..], next_imm);
}
