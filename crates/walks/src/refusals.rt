//! Why a program is refused.

ghost use Rattle.std.specs.Prelude.{◌≡◌, Some};
ghost use Rattle.walks.specs.Messages.{code_of, sentence_of};

use control_flow::FlowError;
use std::error::Error;
use std::fmt;

/// Says why a program is refused; each comes with a slot, and the refusal for memory with slot 0.
#[derive(Clone, Copy, PartialEq, Eq, Debug)]
pub enum Refusal {
    /// Its control flow is not good.
    Flow(FlowError),
    /// An instruction is not safe in a state at its slot.
    Step(transfer::Refusal),
    /// A path returns to a state that it has been in.
    Repeats,
    /// More instructions than `MAX_EXPLORED` would have to be explored.
    TooLong,
    /// Memory ran out.
    Memory,
}

impl Refusal {
    /// Its code in docs/REFUSALS.md, such as `V18`.
    pub fn code(self) -> &'static str
        ensures { result.now ≡ code_of self }
    {
        match self {
            Refusal::Flow(error) => error.code(),
            Refusal::Step(refusal) => refusal.code(),
            Refusal::Repeats => "V18",
            Refusal::TooLong => "V19",
            Refusal::Memory => "V0",
        }
    }

    /// Returns what is wrong, in a sentence.
    pub fn sentence(self) -> &'static str
        ensures { result.now ≡ sentence_of self }
    {
        match self {
            Refusal::Flow(error) => error.sentence(),
            Refusal::Step(refusal) => refusal.sentence(),
            Refusal::Repeats => "a path comes back to a state that it was in: the loop has no end",
            Refusal::TooLong => "more than 1000000 instructions would have to be explored",
            Refusal::Memory => "out of memory",
        }
    }
}

/// Writes the sentence.
impl fmt::Display for Refusal {
    ghost output = { λ error. Some (sentence_of error) };

    fn fmt<W: fmt::Write>(&self, f: &mut fmt::Formatter<W>) -> fmt::Result {
        f.write_str(self.sentence())
    }
}

impl Error for Refusal {}
