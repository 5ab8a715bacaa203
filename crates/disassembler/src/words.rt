//! The words and signs of instructions, and the words of map types.

ghost use Rattle.std.specs.Prelude.{◌≡◌, ◌≤◌, length};
ghost use Rattle.isa_model.specs.Text.CanonicalText.{reg_digits, size_text, signed_text, extension_text, extension_width, span_text, order_text, width_text, op_text, comparison_text, atomic_text, fetch_text, map_type_text};

use isa_model::{
    AluOp, AtomicOp, ByteOrder, Comparison, Extension, MapType, Reg, SignedSize, Size, SwapWidth,
    Width,
};

/// A register's number.
pub fn reg_digits(register: Reg) -> &'static str
    ensures text { result.now ≡ reg_digits register }
    ensures short { length result.now ≤ 2 }
{
    match register {
        Reg::R0 => "0",
        Reg::R1 => "1",
        Reg::R2 => "2",
        Reg::R3 => "3",
        Reg::R4 => "4",
        Reg::R5 => "5",
        Reg::R6 => "6",
        Reg::R7 => "7",
        Reg::R8 => "8",
        Reg::R9 => "9",
        Reg::R10 => "10",
    }
}

/// The size of a load or a store.
pub fn size_word(size: Size) -> &'static str
    ensures text { result.now ≡ size_text size }
    ensures short { length result.now ≤ 3 }
{
    match size {
        Size::U8 => "u8",
        Size::U16 => "u16",
        Size::U32 => "u32",
        Size::U64 => "u64",
    }
}

/// The size of a sign-extending load.
pub fn signed_word(size: SignedSize) -> &'static str
    ensures text { result.now ≡ signed_text size }
    ensures short { length result.now ≤ 3 }
{
    match size {
        SignedSize::S8 => "s8",
        SignedSize::S16 => "s16",
        SignedSize::S32 => "s32",
    }
}

/// Returns what MOVSX extends.
pub fn extension_word(extension: Extension) -> &'static str
    ensures text { result.now ≡ extension_text extension }
    ensures short { length result.now ≤ 3 }
{
    match extension {
        Extension::Low8 | Extension::Full8 => "s8",
        Extension::Low16 | Extension::Full16 => "s16",
        Extension::Full32 => "s32",
    }
}

/// Returns what MOVSX extends to.
pub fn extension_width(extension: Extension) -> Width
    ensures { result ≡ extension_width extension }
{
    match extension {
        Extension::Low8 | Extension::Low16 => Width::Low32,
        Extension::Full8 | Extension::Full16 | Extension::Full32 => Width::Full64,
    }
}

/// Returns how many bits a byte swap instruction swaps.
pub fn span_word(span: SwapWidth) -> &'static str
    ensures text { result.now ≡ span_text span }
    ensures short { length result.now ≤ 2 }
{
    match span {
        SwapWidth::B16 => "16",
        SwapWidth::B32 => "32",
        SwapWidth::B64 => "64",
    }
}

/// The order of bytes that a byte swap instruction makes.
pub fn order_word(order: ByteOrder) -> &'static str
    ensures text { result.now ≡ order_text order }
    ensures short { length result.now ≤ 5 }
{
    match order {
        ByteOrder::Little => "le",
        ByteOrder::Big => "be",
        ByteOrder::Swap => "bswap",
    }
}

/// Returns how many bits an atomic instruction works on.
pub fn width_word(width: Width) -> &'static str
    ensures text { result.now ≡ width_text width }
    ensures short { length result.now ≤ 2 }
{
    match width {
        Width::Low32 => "32",
        Width::Full64 => "64",
    }
}

/// The sign of an operation.
pub fn op_sign(op: AluOp) -> &'static str
    ensures text { result.now ≡ op_text op }
    ensures short { length result.now ≤ 4 }
{
    match op {
        AluOp::Add => "+=",
        AluOp::Sub => "-=",
        AluOp::Mul => "*=",
        AluOp::Div => "/=",
        AluOp::SignedDiv => "s/=",
        AluOp::Or => "|=",
        AluOp::And => "&=",
        AluOp::Lsh => "<<=",
        AluOp::Rsh => ">>=",
        AluOp::Mod => "%=",
        AluOp::SignedMod => "s%=",
        AluOp::Xor => "^=",
        AluOp::Mov => "=",
        AluOp::Arsh => "s>>=",
    }
}

/// The sign of a comparison.
pub fn comparison_sign(comparison: Comparison) -> &'static str
    ensures text { result.now ≡ comparison_text comparison }
    ensures short { length result.now ≤ 3 }
{
    match comparison {
        Comparison::Equal => "==",
        Comparison::NotEqual => "!=",
        Comparison::Greater => ">",
        Comparison::GreaterEqual => ">=",
        Comparison::Less => "<",
        Comparison::LessEqual => "<=",
        Comparison::AnyBit => "&",
        Comparison::SignedGreater => "s>",
        Comparison::SignedGreaterEqual => "s>=",
        Comparison::SignedLess => "s<",
        Comparison::SignedLessEqual => "s<=",
    }
}

/// The sign of an atomic instruction without FETCH.
pub fn atomic_sign(op: AtomicOp) -> &'static str
    ensures text { result.now ≡ atomic_text op }
    ensures short { length result.now ≤ 2 }
{
    match op {
        AtomicOp::Add => "+=",
        AtomicOp::Or => "|=",
        AtomicOp::And => "&=",
        AtomicOp::Xor => "^=",
    }
}

/// The word of an atomic instruction with FETCH, without its bits.
pub fn fetch_word(op: AtomicOp) -> &'static str
    ensures text { result.now ≡ fetch_text op }
    ensures short { length result.now ≤ 17 }
{
    match op {
        AtomicOp::Add => "atomic_fetch_add_",
        AtomicOp::Or => "atomic_fetch_or_",
        AtomicOp::And => "atomic_fetch_and_",
        AtomicOp::Xor => "atomic_fetch_xor_",
    }
}

/// A map type.
pub fn map_type_word(kind: MapType) -> &'static str
    ensures text { result.now ≡ map_type_text kind }
    ensures short { length result.now ≤ 5 }
{
    match kind {
        MapType::Hash => "hash",
        MapType::Array => "array",
    }
}
