//! Decodes a form and its fields to an instruction.

ghost use Rattle.std.specs.Prelude.{◌≡◌};
ghost use Rattle.insn_codec.specs.Decoding.{op_selected, extension_selected, span_selected, arithmetic, moved, swapped, atomic, wide, called, next_imm_read, meaning, slot_meaning, jump_if};

use crate::errors::CodecError;
use crate::fields::Fields;
use crate::forms::{AluCode, Form};
use byteorder::{ByteOrder as _, LittleEndian};
use isa_model::{
    AluOp, AtomicOp, ByteOrder, Comparison, Cond, Extension, Insn, Operand, Reg, Slot, SwapWidth,
    Width,
};

/// The operation that the code and the selector in `offset` name.
fn op_selected(code: AluCode, offset: u16) -> Option<AluOp>
    ensures { result ≡ op_selected code offset }
{
    match code {
        AluCode::Add => Some(AluOp::Add),
        AluCode::Sub => Some(AluOp::Sub),
        AluCode::Mul => Some(AluOp::Mul),
        AluCode::Div => match offset {
            0 => Some(AluOp::Div),
            1 => Some(AluOp::SignedDiv),
            _ => None,
        },
        AluCode::Or => Some(AluOp::Or),
        AluCode::And => Some(AluOp::And),
        AluCode::Lsh => Some(AluOp::Lsh),
        AluCode::Rsh => Some(AluOp::Rsh),
        AluCode::Mod => match offset {
            0 => Some(AluOp::Mod),
            1 => Some(AluOp::SignedMod),
            _ => None,
        },
        AluCode::Xor => Some(AluOp::Xor),
        AluCode::Mov => Some(AluOp::Mov),
        AluCode::Arsh => Some(AluOp::Arsh),
    }
}

/// The extension whose number of bits is in `offset`.
fn extension_selected(width: Width, offset: u16) -> Option<Extension>
    ensures { result ≡ extension_selected width offset }
{
    match width {
        Width::Low32 => match offset {
            8 => Some(Extension::Low8),
            16 => Some(Extension::Low16),
            _ => None,
        },
        Width::Full64 => match offset {
            8 => Some(Extension::Full8),
            16 => Some(Extension::Full16),
            32 => Some(Extension::Full32),
            _ => None,
        },
    }
}

/// Returns how many bits are swapped.
fn span_selected(imm: u32) -> Option<SwapWidth>
    ensures { result ≡ span_selected imm }
{
    match imm {
        16 => Some(SwapWidth::B16),
        32 => Some(SwapWidth::B32),
        64 => Some(SwapWidth::B64),
        _ => None,
    }
}

/// `next_imm` of the second slot, which the bytes begin with.
fn next_imm(rest: &[u8]) -> Result<u32, CodecError>
    ensures { result ≡ next_imm_read rest.now }
{
    if rest.len() < 8 || LittleEndian::read_u32(rest) != 0 {
        return Err(CodecError::SecondSlot);
    }
    Ok(LittleEndian::read_u32(&rest[4..]))
}

impl Fields {
    fn arithmetic(self, width: Width, code: AluCode, operand: Operand) -> Result<Insn, CodecError>
        ensures { result ≡ arithmetic width code self operand }
    {
        match op_selected(code, self.offset) {
            Some(op) => Ok(Insn::Alu(width, op, self.dst, operand)),
            None => Err(CodecError::UnknownSelector),
        }
    }

    /// MOV of a register, or where `offset` is not 0 MOVSX.
    fn moved(self, width: Width) -> Result<Insn, CodecError>
        ensures { result ≡ moved width self }
    {
        if self.offset == 0 {
            return Ok(Insn::Alu(width, AluOp::Mov, self.dst, Operand::Register(self.src)));
        }
        match extension_selected(width, self.offset) {
            Some(extension) => Ok(Insn::MovSx(extension, self.dst, self.src)),
            None => Err(CodecError::UnknownSelector),
        }
    }

    fn swapped(self, order: ByteOrder) -> Result<Insn, CodecError>
        ensures { result ≡ swapped order self }
    {
        match span_selected(self.imm) {
            Some(span) => Ok(Insn::ByteSwap(order, span, self.dst)),
            None => Err(CodecError::UnknownSelector),
        }
    }

    /// The atomic instruction that `imm` selects.
    fn atomic(self, width: Width) -> Result<Insn, CodecError>
        ensures { result ≡ atomic width self }
    {
        let place = self.place(self.dst);
        let (op, fetch) = match self.imm {
            0xe1 => return Ok(Insn::Exchange(width, place, self.src)),
            0xf1 => return Ok(Insn::CompareExchange(width, place, self.src)),
            0x00 => (AtomicOp::Add, false),
            0x01 => (AtomicOp::Add, true),
            0x40 => (AtomicOp::Or, false),
            0x41 => (AtomicOp::Or, true),
            0x50 => (AtomicOp::And, false),
            0x51 => (AtomicOp::And, true),
            0xa0 => (AtomicOp::Xor, false),
            0xa1 => (AtomicOp::Xor, true),
            _ => return Err(CodecError::UnknownSelector),
        };
        Ok(Insn::Atomic(width, op, fetch, place, self.src))
    }

    /// The wide load that `src` selects; its second slot is at the front of the rest.
    fn wide(self, rest: &[u8]) -> Result<Insn, CodecError>
        ensures { result ≡ wide self rest.now }
    {
        match self.src {
            Reg::R0 => {
                let high = u64::from(next_imm(rest)?);
                Ok(Insn::LoadNumber(self.dst, u64::from(self.imm) + high * 0x1_0000_0000))
            }
            Reg::R5 => match next_imm(rest)? {
                0 => Ok(Insn::LoadMap(self.dst, self.imm)),
                _ => Err(CodecError::SecondSlot),
            },
            Reg::R6 => Ok(Insn::LoadMapValue(self.dst, self.imm, next_imm(rest)?)),
            _ => Err(CodecError::UnknownSelector),
        }
    }

    /// The call that `src` selects.
    fn called(self) -> Result<Insn, CodecError>
        ensures { result ≡ called self }
    {
        match self.src {
            Reg::R0 => Ok(Insn::CallHelper(self.constant())),
            Reg::R1 => Ok(Insn::CallLocal(self.constant())),
            _ => Err(CodecError::UnknownSelector),
        }
    }

    fn jump_if(self, width: Width, comparison: Comparison, operand: Operand) -> Insn
        ensures { result ≡ jump_if width comparison self operand }
    {
        let cond = Cond {
            width,
            comparison,
            register: self.dst,
            operand,
        };
        Insn::JumpIf(cond, self.signed_offset())
    }
}

impl Form {
    /// The instruction with these fields, and these bytes after the first slot.
    fn meaning(self, fields: Fields, rest: &[u8]) -> Result<Insn, CodecError>
        ensures { result ≡ meaning self fields rest.now }
    {
        let Fields { dst, src, .. } = fields;
        let constant = fields.constant_operand();
        let register = Operand::Register(src);
        Ok(match self {
            Form::AluConstant(width, code) => return fields.arithmetic(width, code, constant),
            Form::AluRegister(width, code) => return fields.arithmetic(width, code, register),
            Form::MovRegister(width) => return fields.moved(width),
            Form::Negate(width) => Insn::Neg(width, dst),
            Form::ByteSwap(order) => return fields.swapped(order),
            Form::WideLoad => return fields.wide(rest),
            Form::Load(size) => Insn::Load(size, dst, fields.place(src)),
            Form::LoadSx(size) => Insn::LoadSx(size, dst, fields.place(src)),
            Form::StoreConstant(size) => {
                Insn::StoreConstant(size, fields.place(dst), fields.constant())
            }
            Form::Store(size) => Insn::Store(size, fields.place(dst), src),
            Form::Atomic(width) => return fields.atomic(width),
            Form::Jump => Insn::Jump(fields.signed_offset()),
            Form::JumpLong => Insn::JumpLong(fields.constant()),
            Form::JumpIfConstant(width, comparison) => fields.jump_if(width, comparison, constant),
            Form::JumpIfRegister(width, comparison) => fields.jump_if(width, comparison, register),
            Form::Call => return fields.called(),
            Form::Exit => Insn::Exit,
        })
    }
}

/// The instruction that the slot and the bytes after it spell.
#[tactic(auto, unfolding(crate::specs::Decoding::slot_meaning))]
pub fn insn_of(slot: &Slot, rest: &[u8]) -> Result<Insn, CodecError>
    ensures { result ≡ slot_meaning slot.now rest.now }
{
    let Some(form) = Form::of(slot.opcode) else {
        return Err(CodecError::UnknownOpcode);
    };
    let (Some(dst), Some(src)) = (Reg::numbered(slot.dst), Reg::numbered(slot.src)) else {
        return Err(CodecError::UnknownRegister);
    };
    let fields = Fields {
        dst,
        src,
        offset: slot.offset,
        imm: slot.imm,
    };
    if !form.uses().leave_zero(fields) {
        return Err(CodecError::UnusedField);
    }
    form.meaning(fields, rest)
}
