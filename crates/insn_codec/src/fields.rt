//! The fields after an opcode.

ghost use Rattle.std.specs.Prelude.{◌≡◌};
ghost use Rattle.insn_codec.specs.Forms.{zero_unused};
ghost use Rattle.insn_codec.specs.Decoding.{place_in, constant_in, offset_in};

use crate::forms::Uses;
use isa_model::{Operand, Place, Reg};

/// A slot's fields, the opcode aside, once both registers are known. `offset` and `imm` are
/// unsigned.
#[derive(Clone, Copy)]
pub struct Fields {
    pub dst: Reg,
    pub src: Reg,
    pub offset: u16,
    pub imm: u32,
}

impl Uses {
    /// Returns whether the fields that are not used are zero.
    pub fn leave_zero(self, fields: Fields) -> bool
        ensures { result ≡ zero_unused self fields }
    {
        (self.dst || matches!(fields.dst, Reg::R0))
            && (self.src || matches!(fields.src, Reg::R0))
            && (self.offset || fields.offset == 0)
            && (self.imm || fields.imm == 0)
    }
}

impl Fields {
    /// `imm` as a signed number.
    pub fn constant(self) -> i32
        ensures { result ≡ constant_in self }
    {
        self.imm.cast_signed()
    }

    /// `imm` as the right operand.
    pub fn constant_operand(self) -> Operand
        ensures { result ≡ Operand.Constant (constant_in self) }
    {
        Operand::Constant(self.constant())
    }

    /// `offset` as a signed number.
    pub fn signed_offset(self) -> i16
        ensures { result ≡ offset_in self }
    {
        self.offset.cast_signed()
    }

    /// The place at `offset` from a register.
    pub fn place(self, base: Reg) -> Place
        ensures { result ≡ place_in self base }
    {
        Place {
            base,
            offset: self.signed_offset(),
        }
    }
}
