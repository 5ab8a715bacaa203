//! Why the control flow of a program is refused.

ghost use Rattle.std.specs.Prelude.{◌≡◌, Some};
ghost use Rattle.control_flow.specs.Messages.{code_of, sentence_of};

use std::error::Error;
use std::fmt;

/// Says why the control flow is refused: the first of these that is found, in this order and for
/// each at the lowest slot. G6 is possible at any of these tests, with slot 0.
#[derive(Clone, Copy, PartialEq, Eq, Debug)]
pub enum FlowError {
    /// The target of a jump or a call is outside the code.
    TargetOutside,
    /// The target of a jump or a call is the second half of a wide load.
    SecondHalf,
    /// A jump goes from one function into another.
    OtherFunction,
    /// The last instruction of a function falls through.
    FallsOff,
    /// No path goes from slot 0 to the instruction.
    Unreachable,
    /// Out of memory.
    Memory,
}

impl FlowError {
    /// Its code in docs/REFUSALS.md, such as `G1`.
    pub fn code(self) -> &'static str
        ensures { result.now ≡ code_of self }
    {
        match self {
            FlowError::TargetOutside => "G1",
            FlowError::SecondHalf => "G2",
            FlowError::OtherFunction => "G5",
            FlowError::FallsOff => "G3",
            FlowError::Unreachable => "G4",
            FlowError::Memory => "G6",
        }
    }

    /// Returns what is wrong, in a sentence.
    pub fn sentence(self) -> &'static str
        ensures { result.now ≡ sentence_of self }
    {
        match self {
            FlowError::TargetOutside => "the jump or call leads outside the code",
            FlowError::SecondHalf => "the jump or call leads into the second half of a wide load",
            FlowError::OtherFunction => "the jump leads into another function",
            FlowError::FallsOff => "the last instruction of the function falls through",
            FlowError::Unreachable => "no path leads from slot 0 to the instruction",
            FlowError::Memory => "out of memory",
        }
    }
}

/// Writes the sentence.
impl fmt::Display for FlowError {
    ghost output = { λ error. Some (sentence_of error) };

    fn fmt<W: fmt::Write>(&self, f: &mut fmt::Formatter<W>) -> fmt::Result {
        f.write_str(self.sentence())
    }
}

impl Error for FlowError {}
