//! The instructions, one variant for each form of the encoding. RFC 9669, sections 3 to 5.
//!
//! The parts' types admit only what can be spelled, so nothing else is an `Insn`.

ghost use Rattle.std.specs.Prelude.{◌≡◌, ◌++◌};
ghost use Rattle.std.specs.Option.{option_to_list};
ghost use Rattle.isa_model.specs.Code.Instructions.{slots_filled, operand_reads, reads, writes, is_frame_pointer};

use crate::helpers::Helper;
use crate::registers::Reg;
use crate::sizes::{ByteOrder, Extension, SignedSize, Size, SwapWidth, Width};

/// The operations of arithmetic on two numbers.
#[derive(Clone, Copy)]
pub enum AluOp {
    Add,
    Sub,
    Mul,
    Div,
    SignedDiv,
    Or,
    And,
    Lsh,
    Rsh,
    Mod,
    SignedMod,
    Xor,
    Mov,
    Arsh,
}

/// The right operand: a constant (K), in which `imm` is sign-extended, or a register (X).
#[derive(Clone, Copy)]
pub enum Operand {
    Constant(i32),
    Register(Reg),
}

impl Operand {
    /// The register, if it is one.
    pub fn register(self) -> Option<Reg>
        ensures { option_to_list result ≡ operand_reads self }
    {
        match self {
            Operand::Constant(_) => None,
            Operand::Register(register) => Some(register),
        }
    }
}

/// The comparisons of conditional jumps, the destination register on the left.
#[derive(Clone, Copy)]
pub enum Comparison {
    Equal,
    NotEqual,
    Greater,
    GreaterEqual,
    Less,
    LessEqual,
    /// JSET: the operands have a bit in common.
    AnyBit,
    SignedGreater,
    SignedGreaterEqual,
    SignedLess,
    SignedLessEqual,
}

/// The whole test of a conditional jump.
#[derive(Clone, Copy)]
pub struct Cond {
    pub width: Width,
    pub comparison: Comparison,
    pub register: Reg,
    pub operand: Operand,
}

/// A place in memory: a base register and an offset in bytes.
#[derive(Clone, Copy)]
pub struct Place {
    pub base: Reg,
    pub offset: i16,
}

/// Says what an atomic instruction does to memory.
#[derive(Clone, Copy)]
pub enum AtomicOp {
    Add,
    Or,
    And,
    Xor,
}

/// An instruction. Distances of jumps count 8-byte slots from the slot after the instruction.
#[derive(Clone, Copy)]
pub enum Insn {
    /// destination = destination op source; MOV is the source only.
    Alu(Width, AluOp, Reg, Operand),
    /// destination = -destination.
    Neg(Width, Reg),
    /// MOVSX: destination = the low bits of source, sign-extended.
    MovSx(Extension, Reg, Reg),
    /// END: destination = its low bytes in that order, zero-extended.
    ByteSwap(ByteOrder, SwapWidth, Reg),
    /// A wide load: destination = a 64-bit number. It fills two slots.
    LoadNumber(Reg, u64),
    /// A wide load: destination = the map of an index. It fills two slots.
    LoadMap(Reg, u32),
    /// A wide load: destination = a pointer into the one value of an array of one key: the map's
    /// index, and an offset in bytes. It fills two slots.
    LoadMapValue(Reg, u32, u32),
    /// LDX MEM: destination = the bytes, zero-extended.
    Load(Size, Reg, Place),
    /// LDX MEMSX: destination = the bytes, sign-extended.
    LoadSx(SignedSize, Reg, Place),
    /// ST MEM: the bytes = a constant, sign-extended.
    StoreConstant(Size, Place, i32),
    /// STX MEM: the bytes = a register.
    Store(Size, Place, Reg),
    /// The bytes = the bytes op source; with FETCH (`true`) source = the old bytes.
    Atomic(Width, AtomicOp, bool, Place, Reg),
    /// XCHG: the bytes = source, and source = the old bytes.
    Exchange(Width, Place, Reg),
    /// CMPXCHG: where the bytes equal r0, the bytes = source; r0 = the old bytes either way.
    CompareExchange(Width, Place, Reg),
    /// JA of class JMP.
    Jump(i16),
    /// JA of class JMP32.
    JumpLong(i32),
    /// A conditional jump: on by the distance where the test holds, else to the next slot.
    JumpIf(Cond, i16),
    /// CALL of a helper, by its number.
    CallHelper(i32),
    /// CALL of the function at a distance.
    CallLocal(i32),
    /// EXIT.
    Exit,
}

impl Insn {
    /// Returns how many 8-byte slots it fills: 2 for a wide load, else 1.
    pub fn slots(&self) -> usize
        ensures { result ≡ slots_filled self.now }
    {
        match self {
            Insn::LoadNumber(_, _) | Insn::LoadMap(_, _) | Insn::LoadMapValue(_, _, _) => 2,
            _ => 1,
        }
    }

    /// The registers that it reads, at most four: they have to be set. EXIT tests r0 itself, and a
    /// local call passes r1 to r5 unchanged.
    pub fn read(&self) -> (Option<Reg>, Option<Reg>, Option<Reg>, Option<Reg>)
        ensures { option_to_list result.0 ++ option_to_list result.1 ++ option_to_list result.2
            ++ option_to_list result.3 ≡ reads self.now }
    {
        match *self {
            Insn::Alu(_, AluOp::Mov, _, source) => (source.register(), None, None, None),
            Insn::Alu(_, _, d, source) => (Some(d), source.register(), None, None),
            Insn::Neg(_, d) | Insn::ByteSwap(_, _, d) => (Some(d), None, None, None),
            Insn::MovSx(_, _, source) => (Some(source), None, None, None),
            Insn::Load(_, _, place) => (Some(place.base), None, None, None),
            Insn::LoadSx(_, _, place) => (Some(place.base), None, None, None),
            Insn::StoreConstant(_, place, _) => (Some(place.base), None, None, None),
            Insn::Store(_, place, source) => (Some(place.base), Some(source), None, None),
            Insn::Atomic(_, _, _, place, source) => (Some(place.base), Some(source), None, None),
            Insn::Exchange(_, place, source) => (Some(place.base), Some(source), None, None),
            Insn::CompareExchange(_, place, source) => {
                (Some(place.base), Some(source), Some(Reg::R0), None)
            }
            Insn::JumpIf(cond, _) => (Some(cond.register), cond.operand.register(), None, None),
            Insn::CallHelper(number) => match Helper::numbered(number) {
                Some(helper) => helper.arguments(),
                None => (None, None, None, None),
            },
            Insn::LoadNumber(_, _)
            | Insn::LoadMap(_, _)
            | Insn::LoadMapValue(_, _, _)
            | Insn::Jump(_)
            | Insn::JumpLong(_)
            | Insn::CallLocal(_)
            | Insn::Exit => (None, None, None, None),
        }
    }

    /// The register that it writes, those of calls and exits aside.
    pub fn written(&self) -> Option<Reg>
        ensures { result ≡ writes self.now }
    {
        match *self {
            Insn::Alu(_, _, d, _)
            | Insn::Neg(_, d)
            | Insn::MovSx(_, d, _)
            | Insn::ByteSwap(_, _, d)
            | Insn::LoadNumber(d, _)
            | Insn::LoadMap(d, _)
            | Insn::LoadMapValue(d, _, _)
            | Insn::Load(_, d, _)
            | Insn::LoadSx(_, d, _) => Some(d),
            Insn::Atomic(_, _, true, _, source) | Insn::Exchange(_, _, source) => Some(source),
            Insn::CompareExchange(_, _, _) => Some(Reg::R0),
            _ => None,
        }
    }

    /// Returns whether it writes r10, which no instruction may.
    pub fn writes_frame_pointer(&self) -> bool
        ensures { result ≡ is_frame_pointer (writes self.now) }
    {
        matches!(self.written(), Some(Reg::R10))
    }
}
