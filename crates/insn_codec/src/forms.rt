//! The forms that opcodes name. RFC 9669, sections 4 and 5.

ghost use Rattle.std.specs.Prelude.{◌≡◌};
ghost use Rattle.insn_codec.specs.Forms.{alu_code_numbered, has_selector, comparison_numbered, size_numbered, signed_numbered, swap_form, arithmetic_form, jump_form, full_only, load_form, store_constant_form, store_form, form_of, uses};

use isa_model::{ByteOrder, Comparison, SignedSize, Size, Width};

/// The operations by their codes in an opcode. A selector says whether a division is signed.
#[derive(Clone, Copy)]
pub enum AluCode {
    Add,
    Sub,
    Mul,
    Div,
    Or,
    And,
    Lsh,
    Rsh,
    Mod,
    Xor,
    Mov,
    Arsh,
}

/// A form, with the parts of it that the opcode has.
#[derive(Clone, Copy)]
pub enum Form {
    AluConstant(Width, AluCode),
    /// Every operation but MOV.
    AluRegister(Width, AluCode),
    MovRegister(Width),
    Negate(Width),
    ByteSwap(ByteOrder),
    WideLoad,
    Load(Size),
    LoadSx(SignedSize),
    StoreConstant(Size),
    Store(Size),
    Atomic(Width),
    Jump,
    JumpLong,
    JumpIfConstant(Width, Comparison),
    JumpIfRegister(Width, Comparison),
    Call,
    Exit,
}

/// Says which fields a form uses, as operands or as selectors.
#[derive(Clone, Copy)]
pub struct Uses {
    pub dst: bool,
    pub src: bool,
    pub offset: bool,
    pub imm: bool,
}

impl AluCode {
    /// The operation whose code this is, the high four bits of an opcode.
    fn numbered(code: u8) -> Option<Self>
        ensures { result ≡ alu_code_numbered code }
    {
        match code {
            0x0 => Some(AluCode::Add),
            0x1 => Some(AluCode::Sub),
            0x2 => Some(AluCode::Mul),
            0x3 => Some(AluCode::Div),
            0x4 => Some(AluCode::Or),
            0x5 => Some(AluCode::And),
            0x6 => Some(AluCode::Lsh),
            0x7 => Some(AluCode::Rsh),
            0x9 => Some(AluCode::Mod),
            0xa => Some(AluCode::Xor),
            0xb => Some(AluCode::Mov),
            0xc => Some(AluCode::Arsh),
            _ => None,
        }
    }

    /// Returns whether `offset` selects between an unsigned and a signed division or modulo.
    fn has_selector(self) -> bool
        ensures { result ≡ has_selector self }
    {
        matches!(self, AluCode::Div | AluCode::Mod)
    }
}

fn comparison_numbered(code: u8) -> Option<Comparison>
    ensures { result ≡ comparison_numbered code }
{
    match code {
        0x1 => Some(Comparison::Equal),
        0x2 => Some(Comparison::Greater),
        0x3 => Some(Comparison::GreaterEqual),
        0x4 => Some(Comparison::AnyBit),
        0x5 => Some(Comparison::NotEqual),
        0x6 => Some(Comparison::SignedGreater),
        0x7 => Some(Comparison::SignedGreaterEqual),
        0xa => Some(Comparison::Less),
        0xb => Some(Comparison::LessEqual),
        0xc => Some(Comparison::SignedLess),
        0xd => Some(Comparison::SignedLessEqual),
        _ => None,
    }
}

/// The size of a load or a store, by the high five bits of its opcode.
fn size_numbered(code: u8) -> Option<Size>
    ensures { result ≡ size_numbered code }
{
    match code {
        0xc => Some(Size::U32),
        0xd => Some(Size::U16),
        0xe => Some(Size::U8),
        0xf => Some(Size::U64),
        _ => None,
    }
}

fn signed_numbered(code: u8) -> Option<SignedSize>
    ensures { result ≡ signed_numbered code }
{
    match code {
        0x10 => Some(SignedSize::S32),
        0x11 => Some(SignedSize::S16),
        0x12 => Some(SignedSize::S8),
        _ => None,
    }
}

fn swap_form(width: Width, register: bool) -> Option<Form>
    ensures { result ≡ swap_form width register }
{
    match (width, register) {
        (Width::Low32, false) => Some(Form::ByteSwap(ByteOrder::Little)),
        (Width::Low32, true) => Some(Form::ByteSwap(ByteOrder::Big)),
        (Width::Full64, false) => Some(Form::ByteSwap(ByteOrder::Swap)),
        (Width::Full64, true) => None,
    }
}

fn arithmetic_form(width: Width, register: bool, code: u8) -> Option<Form>
    ensures { result ≡ arithmetic_form width register code }
{
    match (code, register) {
        (0x8, false) => Some(Form::Negate(width)),
        (0x8, true) => None,
        (0xb, true) => Some(Form::MovRegister(width)),
        (0xd, _) => swap_form(width, register),
        (_, false) => Some(Form::AluConstant(width, AluCode::numbered(code)?)),
        (_, true) => Some(Form::AluRegister(width, AluCode::numbered(code)?)),
    }
}

/// The form, in class JMP and with a clear source bit only.
fn full_only(width: Width, register: bool, form: Form) -> Option<Form>
    ensures { result ≡ full_only width register form }
{
    match (width, register) {
        (Width::Full64, false) => Some(form),
        _ => None,
    }
}

fn jump_form(width: Width, register: bool, code: u8) -> Option<Form>
    ensures { result ≡ jump_form width register code }
{
    match (code, register) {
        (0x0, true) => None,
        (0x0, false) => match width {
            Width::Low32 => Some(Form::JumpLong),
            Width::Full64 => Some(Form::Jump),
        },
        (0x8, _) => full_only(width, register, Form::Call),
        (0x9, _) => full_only(width, register, Form::Exit),
        (_, false) => Some(Form::JumpIfConstant(width, comparison_numbered(code)?)),
        (_, true) => Some(Form::JumpIfRegister(width, comparison_numbered(code)?)),
    }
}

fn load_form(code: u8) -> Option<Form>
    ensures { result ≡ load_form code }
{
    match size_numbered(code) {
        Some(size) => Some(Form::Load(size)),
        None => Some(Form::LoadSx(signed_numbered(code)?)),
    }
}

fn store_constant_form(code: u8) -> Option<Form>
    ensures { result ≡ store_constant_form code }
{
    Some(Form::StoreConstant(size_numbered(code)?))
}

fn store_form(code: u8) -> Option<Form>
    ensures { result ≡ store_form code }
{
    match code {
        0x18 => Some(Form::Atomic(Width::Low32)),
        0x1b => Some(Form::Atomic(Width::Full64)),
        _ => Some(Form::Store(size_numbered(code)?)),
    }
}

impl Form {
    /// The form that an opcode names: the class is in the low three bits, and in arithmetic and
    /// jumps the source bit is above them.
    pub fn of(opcode: u8) -> Option<Self>
        ensures { result ≡ form_of opcode }
    {
        let register = opcode / 8 % 2 == 1;
        match opcode % 8 {
            0 => if opcode == 0x18 {
                Some(Form::WideLoad)
            } else {
                None
            },
            1 => load_form(opcode / 8),
            2 => store_constant_form(opcode / 8),
            3 => store_form(opcode / 8),
            4 => arithmetic_form(Width::Low32, register, opcode / 16),
            5 => jump_form(Width::Full64, register, opcode / 16),
            6 => jump_form(Width::Low32, register, opcode / 16),
            _ => arithmetic_form(Width::Full64, register, opcode / 16),
        }
    }

    /// Returns which fields it uses.
    pub fn uses(self) -> Uses
        ensures { result ≡ uses self }
    {
        let (dst, src, offset, imm) = match self {
            Form::AluConstant(_, code) => (true, false, code.has_selector(), true),
            Form::AluRegister(_, code) => (true, true, code.has_selector(), false),
            Form::MovRegister(_) => (true, true, true, false),
            Form::Negate(_) => (true, false, false, false),
            Form::ByteSwap(_) => (true, false, false, true),
            Form::WideLoad => (true, true, false, true),
            Form::Load(_) | Form::LoadSx(_) | Form::Store(_) => (true, true, true, false),
            Form::StoreConstant(_) | Form::JumpIfConstant(..) => (true, false, true, true),
            Form::Atomic(_) => (true, true, true, true),
            Form::Jump => (false, false, true, false),
            Form::JumpLong => (false, false, false, true),
            Form::JumpIfRegister(..) => (true, true, true, false),
            Form::Call => (false, true, false, true),
            Form::Exit => (false, false, false, false),
        };
        Uses {
            dst,
            src,
            offset,
            imm,
        }
    }
}
