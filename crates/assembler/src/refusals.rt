//! Refusals with their lines and columns.

ghost use Rattle.std.specs.Prelude.{◌≡◌};
ghost use Rattle.assembler.specs.Positions.{line_behind, column_behind, error_at};

use super::errors::{AsmError, AsmErrorKind};

/// Says what is wrong, and at which byte of the text.
#[derive(Clone, Copy)]
pub struct Refusal {
    pub kind: AsmErrorKind,
    pub offset: usize,
}

pub fn line_behind(front: &[u8]) -> usize
    ensures { result ≡ line_behind front.now }
{
    let mut line: usize = 1;
    for byte in front {
        if *byte == b'\n' {
            line += 1;
        }
    }
    line
}

#[tactic(auto, using(crate::proofs::ColumnCounts::columns))]
pub fn column_behind(front: &[u8]) -> usize
    ensures { result ≡ column_behind front.now }
{
    let mut column: usize = 1;
    for byte in front {
        if *byte == b'\n' {
            column = 1;
        } else {
            column += 1;
        }
    }
    column
}

/// The refusal with its line and column.
pub fn located(text: &[u8], refusal: Refusal) -> AsmError
    ensures { result ≡ error_at text.now refusal }
{
    let front = match text.get(..refusal.offset) {
        Some(front) => front,
        None => text,
    };
    AsmError {
        kind: refusal.kind,
        line: line_behind(front),
        column: column_behind(front),
    }
}
