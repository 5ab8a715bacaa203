//! The words of program text, by their bytes.

ghost use Rattle.std.specs.Prelude.{◌≡◌, bytes_eq};
ghost use Rattle.assembler.specs.Words.{reg_of, register_word, word_of, keyword, size_word, swap_word, atomic_word, map_word};

use super::tokens::Word;
use isa_model::{AtomicOp, ByteOrder, MapType, Reg, SignedSize, Size, SwapWidth, Width};

fn reg_of(digits: &[u8]) -> Option<Reg>
    ensures { result ≡ reg_of digits.now }
{
    match digits {
        b"0" => Some(Reg::R0),
        b"1" => Some(Reg::R1),
        b"2" => Some(Reg::R2),
        b"3" => Some(Reg::R3),
        b"4" => Some(Reg::R4),
        b"5" => Some(Reg::R5),
        b"6" => Some(Reg::R6),
        b"7" => Some(Reg::R7),
        b"8" => Some(Reg::R8),
        b"9" => Some(Reg::R9),
        b"10" => Some(Reg::R10),
        _ => None,
    }
}

fn register_word(width: Width, reg: Option<Reg>) -> Word
    ensures { result ≡ register_word width reg }
{
    match reg {
        Some(reg) => Word::Register(width, reg),
        None => Word::Other,
    }
}

fn is_spelled(word: &[u8], spelling: &str) -> bool
    ensures { result ≡ bytes_eq word.now spelling.now }
{
    word == spelling.as_bytes()
}

fn map_word(word: &[u8]) -> Word
    ensures { result ≡ map_word word.now }
{
    if is_spelled(word, "map") {
        Word::Map
    } else if is_spelled(word, "hash") {
        Word::MapType(MapType::Hash)
    } else if is_spelled(word, "array") {
        Word::MapType(MapType::Array)
    } else if is_spelled(word, "map_by_idx") {
        Word::MapByIndex
    } else if is_spelled(word, "map_val") {
        Word::MapValue
    } else if is_spelled(word, "version") {
        Word::Version
    } else {
        Word::Other
    }
}

fn atomic_word(word: &[u8]) -> Word
    ensures { result ≡ atomic_word word.now }
{
    if is_spelled(word, "atomic_fetch_add_32") {
        Word::Fetch(AtomicOp::Add, Width::Low32)
    } else if is_spelled(word, "atomic_fetch_add_64") {
        Word::Fetch(AtomicOp::Add, Width::Full64)
    } else if is_spelled(word, "atomic_fetch_or_32") {
        Word::Fetch(AtomicOp::Or, Width::Low32)
    } else if is_spelled(word, "atomic_fetch_or_64") {
        Word::Fetch(AtomicOp::Or, Width::Full64)
    } else if is_spelled(word, "atomic_fetch_and_32") {
        Word::Fetch(AtomicOp::And, Width::Low32)
    } else if is_spelled(word, "atomic_fetch_and_64") {
        Word::Fetch(AtomicOp::And, Width::Full64)
    } else if is_spelled(word, "atomic_fetch_xor_32") {
        Word::Fetch(AtomicOp::Xor, Width::Low32)
    } else if is_spelled(word, "atomic_fetch_xor_64") {
        Word::Fetch(AtomicOp::Xor, Width::Full64)
    } else if is_spelled(word, "xchg_32") {
        Word::Exchange(Width::Low32)
    } else if is_spelled(word, "xchg_64") {
        Word::Exchange(Width::Full64)
    } else if is_spelled(word, "cmpxchg_32") {
        Word::CompareExchange(Width::Low32)
    } else if is_spelled(word, "cmpxchg_64") {
        Word::CompareExchange(Width::Full64)
    } else {
        map_word(word)
    }
}

fn swap_word(word: &[u8]) -> Word
    ensures { result ≡ swap_word word.now }
{
    if is_spelled(word, "le16") {
        Word::Swapped(ByteOrder::Little, SwapWidth::B16)
    } else if is_spelled(word, "le32") {
        Word::Swapped(ByteOrder::Little, SwapWidth::B32)
    } else if is_spelled(word, "le64") {
        Word::Swapped(ByteOrder::Little, SwapWidth::B64)
    } else if is_spelled(word, "be16") {
        Word::Swapped(ByteOrder::Big, SwapWidth::B16)
    } else if is_spelled(word, "be32") {
        Word::Swapped(ByteOrder::Big, SwapWidth::B32)
    } else if is_spelled(word, "be64") {
        Word::Swapped(ByteOrder::Big, SwapWidth::B64)
    } else if is_spelled(word, "bswap16") {
        Word::Swapped(ByteOrder::Swap, SwapWidth::B16)
    } else if is_spelled(word, "bswap32") {
        Word::Swapped(ByteOrder::Swap, SwapWidth::B32)
    } else if is_spelled(word, "bswap64") {
        Word::Swapped(ByteOrder::Swap, SwapWidth::B64)
    } else {
        atomic_word(word)
    }
}

fn size_word(word: &[u8]) -> Word
    ensures { result ≡ size_word word.now }
{
    if is_spelled(word, "u8") {
        Word::Unsigned(Size::U8)
    } else if is_spelled(word, "u16") {
        Word::Unsigned(Size::U16)
    } else if is_spelled(word, "u32") {
        Word::Unsigned(Size::U32)
    } else if is_spelled(word, "u64") {
        Word::Unsigned(Size::U64)
    } else if is_spelled(word, "s8") {
        Word::SignExtended(SignedSize::S8)
    } else if is_spelled(word, "s16") {
        Word::SignExtended(SignedSize::S16)
    } else if is_spelled(word, "s32") {
        Word::SignExtended(SignedSize::S32)
    } else {
        swap_word(word)
    }
}

fn keyword(word: &[u8]) -> Word
    ensures { result ≡ keyword word.now }
{
    if is_spelled(word, "if") {
        Word::If
    } else if is_spelled(word, "goto") {
        Word::Goto
    } else if is_spelled(word, "gotol") {
        Word::GotoLong
    } else if is_spelled(word, "call") {
        Word::Call
    } else if is_spelled(word, "pc") {
        Word::Pc
    } else if is_spelled(word, "exit") {
        Word::Exit
    } else if is_spelled(word, "lock") {
        Word::Lock
    } else if is_spelled(word, "ll") {
        Word::Wide
    } else {
        size_word(word)
    }
}

/// The word that has these bytes.
pub fn word_of(word: &[u8]) -> Word
    ensures { result ≡ word_of word.now }
{
    match word {
        [b'r', digits @ ..] => register_word(Width::Full64, reg_of(digits)),
        [b'w', digits @ ..] => register_word(Width::Low32, reg_of(digits)),
        _ => keyword(word),
    }
}
