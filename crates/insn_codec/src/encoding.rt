//! The slots of instructions.

ghost use Rattle.std.specs.Prelude.{◌≡◌, ◌+◌, ◌<◌};
ghost use Rattle.std.specs.Int.{w32, cast_unsigned};
ghost use Rattle.isa_model.specs.Code.Registers.{reg_number};
ghost use Rattle.isa_model.specs.Code.Sizes.{span_bits};
ghost use Rattle.isa_model.specs.Code.Spelling.{first_slot, next_imm, slot, offset16, alu_code, alu_offset, alu_class, jump_code, jump_class, operand_bit, operand_src, operand_imm, extension_class, extension_offset, order_opcode, size_code, signed_code, atomic_opcode, atomic_code, fetch_bit};

use isa_model::{
    AluOp, AtomicOp, ByteOrder, Comparison, Cond, Extension, Insn, Operand, Place, Reg, SignedSize,
    Size, Slot, SwapWidth, Width,
};

fn register_field(register: Reg) -> u8
    ensures { result ≡ reg_number register }
{
    register.number() as u8
}

fn alu_code(op: AluOp) -> u8
    ensures { result ≡ alu_code op }
{
    match op {
        AluOp::Add => 0x00,
        AluOp::Sub => 0x10,
        AluOp::Mul => 0x20,
        AluOp::Div | AluOp::SignedDiv => 0x30,
        AluOp::Or => 0x40,
        AluOp::And => 0x50,
        AluOp::Lsh => 0x60,
        AluOp::Rsh => 0x70,
        AluOp::Mod | AluOp::SignedMod => 0x90,
        AluOp::Xor => 0xa0,
        AluOp::Mov => 0xb0,
        AluOp::Arsh => 0xc0,
    }
}

fn alu_offset(op: AluOp) -> u16
    ensures { result ≡ alu_offset op }
{
    match op {
        AluOp::SignedDiv | AluOp::SignedMod => 1,
        _ => 0,
    }
}

fn alu_class(width: Width) -> u8
    ensures { result ≡ alu_class width }
{
    match width {
        Width::Low32 => 0x04,
        Width::Full64 => 0x07,
    }
}

fn jump_class(width: Width) -> u8
    ensures { result ≡ jump_class width }
{
    match width {
        Width::Low32 => 0x06,
        Width::Full64 => 0x05,
    }
}

fn jump_code(comparison: Comparison) -> u8
    ensures { result ≡ jump_code comparison }
{
    match comparison {
        Comparison::Equal => 0x10,
        Comparison::Greater => 0x20,
        Comparison::GreaterEqual => 0x30,
        Comparison::AnyBit => 0x40,
        Comparison::NotEqual => 0x50,
        Comparison::SignedGreater => 0x60,
        Comparison::SignedGreaterEqual => 0x70,
        Comparison::Less => 0xa0,
        Comparison::LessEqual => 0xb0,
        Comparison::SignedLess => 0xc0,
        Comparison::SignedLessEqual => 0xd0,
    }
}

/// The source bit, the source register's number and `imm`.
fn operand_fields(operand: Operand) -> (u8, u8, u32)
    ensures bit { result.0 ≡ operand_bit operand }
    ensures src { result.1 ≡ operand_src operand }
    ensures imm { result.2 ≡ operand_imm operand }
{
    match operand {
        Operand::Constant(constant) => (0x00, 0, constant.cast_unsigned()),
        Operand::Register(register) => (0x08, register_field(register), 0),
    }
}

fn extension_class(extension: Extension) -> u8
    ensures { result ≡ extension_class extension }
{
    match extension {
        Extension::Low8 | Extension::Low16 => 0x04,
        Extension::Full8 | Extension::Full16 | Extension::Full32 => 0x07,
    }
}

fn extension_offset(extension: Extension) -> u16
    ensures { result ≡ extension_offset extension }
{
    match extension {
        Extension::Low8 | Extension::Full8 => 8,
        Extension::Low16 | Extension::Full16 => 16,
        Extension::Full32 => 32,
    }
}

fn order_opcode(order: ByteOrder) -> u8
    ensures { result ≡ order_opcode order }
{
    match order {
        ByteOrder::Little => 0xd4,
        ByteOrder::Big => 0xdc,
        ByteOrder::Swap => 0xd7,
    }
}

fn span_bits(span: SwapWidth) -> u32
    ensures { result ≡ span_bits span }
{
    match span {
        SwapWidth::B16 => 16,
        SwapWidth::B32 => 32,
        SwapWidth::B64 => 64,
    }
}

fn size_code(size: Size) -> u8
    ensures { result ≡ size_code size }
{
    match size {
        Size::U32 => 0x00,
        Size::U16 => 0x08,
        Size::U8 => 0x10,
        Size::U64 => 0x18,
    }
}

fn signed_code(size: SignedSize) -> u8
    ensures { result ≡ signed_code size }
{
    match size {
        SignedSize::S32 => 0x00,
        SignedSize::S16 => 0x08,
        SignedSize::S8 => 0x10,
    }
}

fn atomic_opcode(width: Width) -> u8
    ensures { result ≡ atomic_opcode width }
{
    match width {
        Width::Low32 => 0xc3,
        Width::Full64 => 0xdb,
    }
}

fn atomic_imm(op: AtomicOp, fetch: bool) -> u32
    ensures { result ≡ atomic_code op + fetch_bit fetch }
{
    let code = match op {
        AtomicOp::Add => 0x00,
        AtomicOp::Or => 0x40,
        AtomicOp::And => 0x50,
        AtomicOp::Xor => 0xa0,
    };
    if fetch { code + 0x01 } else { code }
}

fn slot(opcode: u8, dst: u8, src: u8, offset: u16, imm: u32) -> Slot
    ensures { result ≡ slot opcode dst src offset imm }
{
    Slot {
        opcode,
        dst,
        src,
        offset,
        imm,
    }
}

fn alu_slot(width: Width, op: AluOp, dst: Reg, operand: Operand) -> Slot
    ensures { result ≡ first_slot (Insn.Alu width op dst operand) }
{
    let (bit, src, imm) = operand_fields(operand);
    let opcode = alu_code(op) + bit + alu_class(width);
    slot(opcode, register_field(dst), src, alu_offset(op), imm)
}

fn jump_if_slot(cond: Cond, by: i16) -> Slot
    ensures { result ≡ first_slot (Insn.JumpIf cond by) }
{
    let (bit, src, imm) = operand_fields(cond.operand);
    let opcode = jump_code(cond.comparison) + bit + jump_class(cond.width);
    slot(
        opcode,
        register_field(cond.register),
        src,
        by.cast_unsigned(),
        imm,
    )
}

/// The slot of an instruction of two registers.
fn register_slot(opcode: u8, dst: Reg, src: Reg, offset: u16) -> Slot
    ensures { result ≡ slot opcode (reg_number dst) (reg_number src) offset 0 }
{
    slot(opcode, register_field(dst), register_field(src), offset, 0)
}

/// The slot of an instruction of one register and `imm`.
fn constant_slot(opcode: u8, dst: Reg, imm: u32) -> Slot
    ensures { result ≡ slot opcode (reg_number dst) 0 0 imm }
{
    slot(opcode, register_field(dst), 0, 0, imm)
}

/// The slot of an instruction that loads a register from a place.
fn load_slot(opcode: u8, dst: Reg, place: Place) -> Slot
    ensures { result ≡ slot opcode (reg_number dst) (reg_number place.base)
        (offset16 place.offset) 0 }
{
    register_slot(opcode, dst, place.base, place.offset.cast_unsigned())
}

/// The slot of an instruction that stores a register at a place.
fn store_slot(opcode: u8, place: Place, src: Reg, imm: u32) -> Slot
    ensures { result ≡ slot opcode (reg_number place.base) (reg_number src)
        (offset16 place.offset) imm }
{
    let offset = place.offset.cast_unsigned();
    slot(
        opcode,
        register_field(place.base),
        register_field(src),
        offset,
        imm,
    )
}

fn store_constant_slot(size: Size, place: Place, constant: i32) -> Slot
    ensures { result ≡ first_slot (Insn.StoreConstant size place constant) }
{
    let base = register_field(place.base);
    let offset = place.offset.cast_unsigned();
    slot(
        0x62 + size_code(size),
        base,
        0,
        offset,
        constant.cast_unsigned(),
    )
}

/// The first slot of the instruction.
pub fn first_slot(insn: &Insn) -> Slot
    ensures { result ≡ first_slot insn.now }
{
    match *insn {
        Insn::Alu(width, op, dst, operand) => alu_slot(width, op, dst, operand),
        Insn::Neg(width, dst) => constant_slot(0x80 + alu_class(width), dst, 0),
        Insn::MovSx(extension, dst, src) => {
            let opcode = 0xb8 + extension_class(extension);
            register_slot(opcode, dst, src, extension_offset(extension))
        }
        Insn::ByteSwap(order, span, dst) => constant_slot(
            order_opcode(order),
            dst,
            span_bits(span),
        ),
        Insn::LoadNumber(dst, number) => constant_slot(0x18, dst, (number % 0x1_0000_0000) as u32),
        Insn::LoadMap(dst, map) => slot(0x18, register_field(dst), 5, 0, map),
        Insn::LoadMapValue(dst, map, _) => slot(0x18, register_field(dst), 6, 0, map),
        Insn::Load(size, dst, place) => load_slot(0x61 + size_code(size), dst, place),
        Insn::LoadSx(size, dst, place) => load_slot(0x81 + signed_code(size), dst, place),
        Insn::StoreConstant(size, place, constant) => store_constant_slot(size, place, constant),
        Insn::Store(size, place, src) => store_slot(0x63 + size_code(size), place, src, 0),
        Insn::Atomic(width, op, fetch, place, src) => {
            store_slot(atomic_opcode(width), place, src, atomic_imm(op, fetch))
        }
        Insn::Exchange(width, place, src) => store_slot(atomic_opcode(width), place, src, 0xe1),
        Insn::CompareExchange(width, place, src) => {
            store_slot(atomic_opcode(width), place, src, 0xf1)
        }
        Insn::Jump(by) => slot(0x05, 0, 0, by.cast_unsigned(), 0),
        Insn::JumpLong(by) => slot(0x06, 0, 0, 0, by.cast_unsigned()),
        Insn::JumpIf(cond, by) => jump_if_slot(cond, by),
        Insn::CallHelper(number) => slot(0x85, 0, 0, 0, number.cast_unsigned()),
        Insn::CallLocal(by) => slot(0x85, 0, 1, 0, by.cast_unsigned()),
        Insn::Exit => slot(0x95, 0, 0, 0, 0),
    }
}

/// `next_imm` of a wide load.
pub fn next_imm(insn: &Insn) -> Option<u32>
    ensures { result ≡ next_imm insn.now }
{
    match *insn {
        Insn::LoadNumber(_, number) => Some((number / 0x1_0000_0000) as u32),
        Insn::LoadMap(_, _) => Some(0),
        Insn::LoadMapValue(_, _, offset) => Some(offset),
        _ => None,
    }
}
