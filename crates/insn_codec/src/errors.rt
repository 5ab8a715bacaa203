//! Why bytes are no instruction.

ghost use Rattle.std.specs.Prelude.{◌≡◌, Some};
ghost use Rattle.insn_codec.specs.Messages.{code_of, hint_of, sentence_of};

use std::error::Error;
use std::fmt;

/// Says why no front of the bytes spells an instruction: the first of these tests that fails.
#[derive(Clone, Copy, PartialEq, Eq, Debug)]
pub enum CodecError {
    /// Fewer than 8 bytes.
    Short,
    /// An opcode of no form.
    UnknownOpcode,
    /// A register field over 10.
    UnknownRegister,
    /// A field that the form does not use is not zero.
    UnusedField,
    /// A selector that selects no form.
    UnknownSelector,
    /// The second slot of a wide load is missing, its reserved bits are not zero, or its `next_imm`
    /// is not zero where the load is one of a map.
    SecondSlot,
}

impl CodecError {
    /// Its code in docs/REFUSALS.md, such as `C1`.
    pub fn code(self) -> &'static str
        ensures { result.now ≡ code_of self }
    {
        match self {
            CodecError::Short => "C1",
            CodecError::UnknownOpcode => "C2",
            CodecError::UnknownRegister => "C3",
            CodecError::UnusedField => "C4",
            CodecError::UnknownSelector => "C5",
            CodecError::SecondSlot => "C6",
        }
    }

    /// Returns what is wrong, in a sentence.
    pub fn sentence(self) -> &'static str
        ensures { result.now ≡ sentence_of self }
    {
        match self {
            CodecError::Short => "fewer than 8 bytes are left for the instruction",
            CodecError::UnknownOpcode => "the opcode is unknown",
            CodecError::UnknownRegister => "a register number is over 10",
            CodecError::UnusedField => "a field that the instruction does not use is not 0",
            CodecError::UnknownSelector => "the selector is unknown",
            CodecError::SecondSlot => "the second slot of the wide load is missing, \
                 or a field that it does not use is not 0",
        }
    }

    /// The hint, in a line without its line feed.
    pub fn hint(self) -> &'static str
        ensures { result.now ≡ hint_of self }
    {
        match self {
            CodecError::Short => "the file was cut: make it again",
            CodecError::UnknownOpcode => "no instruction begins with this byte; \
                 legacy packet loads become loads by a pointer",
            CodecError::UnknownRegister =>
                "registers are 0 to 10; the second byte has two, 4 bits each",
            CodecError::UnusedField =>
                "set each field to 0 that the form does not use, as src_reg beside a constant",
            CodecError::UnknownSelector =>
                "no form has this offset, imm or src_reg; a call has src_reg 0 or 1",
            CodecError::SecondSlot => "a wide load has a second slot: 4 bytes 0, \
                 then the upper half, 0 for a map, or the offset",
        }
    }
}

/// Writes the sentence.
impl fmt::Display for CodecError {
    ghost output = { λ error. Some (sentence_of error) };

    fn fmt<W: fmt::Write>(&self, f: &mut fmt::Formatter<W>) -> fmt::Result {
        f.write_str(self.sentence())
    }
}

impl Error for CodecError {}
