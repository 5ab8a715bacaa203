//! Why an instruction is refused in an abstract state.

ghost use Rattle.std.specs.Prelude.{◌≡◌, Some};
ghost use Rattle.transfer.specs.Messages.{code_of, sentence_of};

use std::error::Error;
use std::fmt;

/// The test that an abstract state fails at an instruction; of several, the one of the lowest
/// number.
#[derive(Clone, Copy, PartialEq, Eq, Debug)]
pub enum Refusal {
    /// A register is read that may be unset.
    UnsetRegister,
    /// r10 is written.
    ReadOnlyRegister,
    /// A pointer in arithmetic that is not defined on it, or as an operand of an atomic
    /// instruction.
    PointerOperand,
    /// A pointer's offset may leave the limit, or a frame pointer moves by a number that is not
    /// constant.
    PointerOffset,
    /// An access through a number, a map or the packet's end.
    NotMemory,
    /// Stack bytes out of the call frame, or not aligned.
    StackPlace,
    /// Stack bytes that may be unwritten are read, or a stored pointer otherwise than whole.
    StackBytes,
    /// An access of the context that is not a load of one of its fields.
    ContextAccess,
    /// Packet bytes that are not proved to be there.
    PacketBytes,
    /// Bytes that are not proved to be in the map's value.
    MapValueBytes,
    /// The pointer that a look-up answered is used before a test that it is not 0.
    NullNotTested,
    /// A pointer is stored in part or elsewhere than on the stack, or a frame pointer into an outer
    /// frame.
    PointerStored,
    /// A comparison that is not defined on its operands.
    Comparison,
    /// No helper has the number, or an argument is of another kind than it takes.
    HelperArgument,
    /// Key or value bytes of a helper that are not all known to be there and to be number bytes.
    HelperBytes,
    /// A call at the deepest frame.
    TooManyFrames,
    /// The last exit without a number in r0, or an inner one with a pointer in r0 into the frame
    /// that ends.
    ExitValue,
    /// An atomic instruction on the context or the packet.
    PacketAtomic,
    /// The last exit of a program of version 2 with a number in r0 that is not proved to name an
    /// action.
    NoAction,
}

impl Refusal {
    /// Its code in docs/REFUSALS.md, such as `V1`.
    pub fn code(self) -> &'static str
        ensures { result.now ≡ code_of self }
    {
        match self {
            Refusal::UnsetRegister => "V1",
            Refusal::ReadOnlyRegister => "V2",
            Refusal::PointerOperand => "V3",
            Refusal::PointerOffset => "V4",
            Refusal::NotMemory => "V5",
            Refusal::StackPlace => "V6",
            Refusal::StackBytes => "V7",
            Refusal::ContextAccess => "V8",
            Refusal::PacketBytes => "V9",
            Refusal::MapValueBytes => "V10",
            Refusal::NullNotTested => "V11",
            Refusal::PointerStored => "V12",
            Refusal::Comparison => "V13",
            Refusal::HelperArgument => "V14",
            Refusal::HelperBytes => "V15",
            Refusal::TooManyFrames => "V16",
            Refusal::ExitValue => "V17",
            Refusal::PacketAtomic => "V20",
            Refusal::NoAction => "V21",
        }
    }

    /// Returns what is wrong, in a sentence.
    pub fn sentence(self) -> &'static str
        ensures { result.now ≡ sentence_of self }
    {
        match self {
            Refusal::UnsetRegister => "a register is read that may be unset",
            Refusal::ReadOnlyRegister => "r10 is written, and it is read-only",
            Refusal::PointerOperand => "the operation is not defined for a pointer",
            Refusal::PointerOffset =>
                "the offset may leave its limit, or a frame pointer moves by a variable number",
            Refusal::NotMemory => "the load or store does not go through a pointer to memory",
            Refusal::StackPlace =>
                "the stack access is outside the frame's 512 bytes, or not aligned to its size",
            Refusal::StackBytes =>
                "stack bytes are read that may be unwritten, or a part of a stored pointer",
            Refusal::ContextAccess => "the context has only 4-byte loads at 0, 4, 12 and 16",
            Refusal::PacketBytes => "the packet bytes are not proved to be there",
            Refusal::MapValueBytes => "the bytes are not proved to be in the map's value",
            Refusal::NullNotTested => "the pointer may be null, and is used before its null test",
            Refusal::PointerStored =>
                "a pointer is stored in part or off the stack, or a frame pointer in an outer one",
            Refusal::Comparison => "the comparison is not defined for a pointer",
            Refusal::HelperArgument =>
                "there is no such helper, or it does not take such an argument",
            Refusal::HelperBytes => "the helper's key or value bytes are not all there and written",
            Refusal::TooManyFrames => "the call makes a ninth frame, and 8 may be live",
            Refusal::ExitValue =>
                "r0 is no number at the last exit, or points into the frame that ends",
            Refusal::PacketAtomic => "the atomic instruction is on the context or the packet",
            Refusal::NoAction =>
                "r0 is not proved to name an action at the last exit of a version 2 program",
        }
    }
}

/// Writes the sentence.
impl fmt::Display for Refusal {
    ghost output = { λ error. Some (sentence_of error) };

    fn fmt<W: fmt::Write>(&self, f: &mut fmt::Formatter<W>) -> fmt::Result {
        f.write_str(self.sentence())
    }
}

impl Error for Refusal {}
