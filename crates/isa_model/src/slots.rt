//! The 8-byte slots that programs are stored in. RFC 9669, section 3.1.

/// The fields of a slot, as its bytes have them: `offset` and `imm` are the unsigned numbers of
/// their two's complement.
#[derive(Clone, Copy)]
pub struct Slot {
    pub opcode: u8,
    /// `dst_reg`, the low four bits of the register byte.
    pub dst: u8,
    /// `src_reg`, its high four bits.
    pub src: u8,
    pub offset: u16,
    pub imm: u32,
}
