//! Why a table is refused.

ghost use Rattle.std.specs.Prelude.{◌≡◌, Some};
ghost use Rattle.rechecking.specs.Messages.{bytes_code, bytes_sentence, code_of, sentence_of};

use control_flow::FlowError;
use std::error::Error;
use std::fmt;
use table_entries::TableRefusal;
use transfer::Refusal;

/// Says why a table is refused. An entry is named by its index.
#[derive(Clone, Copy, Debug, Drop)]
pub enum TableError {
    /// G1 to G6: the program's control flow is not good, at this slot.
    Flow(FlowError, usize),
    /// P1 to P5 and P9: the bytes are no table, or memory ran out.
    Bytes(TableRefusal),
    /// P6: entry 0 does not cover the start state.
    Start,
    /// P7: the step of an entry is refused.
    Step(usize, Refusal),
    /// P8: the entries named do not cover the successors, or have no smaller numbers.
    Successor(usize),
}

fn bytes_code(refusal: TableRefusal) -> &'static str
    ensures { result.now ≡ bytes_code refusal }
{
    match refusal {
        TableRefusal::Magic => "P1",
        TableRefusal::Short => "P2",
        TableRefusal::Long => "P3",
        TableRefusal::Count => "P4",
        TableRefusal::Entry(_) => "P5",
        TableRefusal::Memory => "P9",
    }
}

fn bytes_sentence(refusal: TableRefusal) -> &'static str
    ensures { result.now ≡ bytes_sentence refusal }
{
    match refusal {
        TableRefusal::Magic => "the bytes do not begin with XPT1",
        TableRefusal::Short => "the table is shorter than its head, or than its entries",
        TableRefusal::Long => "the table is longer than its entries",
        TableRefusal::Count => "the table has no entries, or more than 1000000",
        TableRefusal::Entry(_) => "a field of the entry has a value that is not allowed",
        TableRefusal::Memory => "out of memory",
    }
}

impl TableError {
    /// Its code in docs/REFUSALS.md, such as `P7`.
    pub fn code(self) -> &'static str
        ensures { result.now ≡ code_of self }
    {
        match self {
            TableError::Flow(error, _) => error.code(),
            TableError::Bytes(refusal) => bytes_code(refusal),
            TableError::Start => "P6",
            TableError::Step(_, _) => "P7",
            TableError::Successor(_) => "P8",
        }
    }

    /// Returns what is wrong, in a sentence.
    pub fn sentence(self) -> &'static str
        ensures { result.now ≡ sentence_of self }
    {
        match self {
            TableError::Flow(error, _) => error.sentence(),
            TableError::Bytes(refusal) => bytes_sentence(refusal),
            TableError::Start => "the first entry does not cover the start of a run",
            TableError::Step(_, _) => "the step of the entry is refused",
            TableError::Successor(_) =>
                "the named entries do not cover its successors, or their numbers are not smaller",
        }
    }
}

/// Writes the sentence.
impl fmt::Display for TableError {
    ghost output = { λ error. Some (sentence_of error) };

    fn fmt<W: fmt::Write>(&self, f: &mut fmt::Formatter<W>) -> fmt::Result {
        f.write_str(self.sentence())
    }
}

impl Error for TableError {}
