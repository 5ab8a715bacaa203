//! Bytes of a text that change nothing, and where refusals are in a text without them.

ghost use Rattle.std.specs.Prelude.{◌≡◌, ◌<◌, ◌≤◌, IfSome, IfOk, length};
ghost use Rattle.assembler.specs.Gaps.{gap_of, is_before, placed, IsIdle};

use super::draft::Draft;
use super::errors::{AsmError, AsmErrorKind};
use super::fronts::{idle_end, is_line_start, read_front};
use super::refusals::{column_behind, line_behind};
use super::showing::MAX_SEARCHED;
use std::alloc::{AllocError, Global};

/// Says where bytes of a text were dropped: the line and the column of the next byte without them,
/// and with them.
#[derive(Clone, Copy)]
pub struct Gap {
    pub line: usize,
    pub column: usize,
    pub old_line: usize,
    pub old_column: usize,
}

/// Bytes of a text, from one index up to another one.
#[derive(Clone, Copy)]
pub struct IdlePart {
    pub from: usize,
    pub to: usize,
}

impl Gap {
    /// The gap where the bytes of a text from one index up to another one are dropped.
    pub fn of(from: usize, to: usize, text: &[u8]) -> Self
        ensures { result ≡ gap_of from to text.now }
    {
        let front = &text[..from.min(text.len())];
        let whole = &text[..to.min(text.len())];
        Gap {
            line: line_behind(front),
            column: column_behind(front),
            old_line: line_behind(whole),
            old_column: column_behind(whole),
        }
    }

    // Whether a position is before the gap.
    fn is_behind(&self, error: AsmError) -> bool
        ensures { result ≡ is_before self.now error }
    {
        error.line < self.line || (error.line == self.line && error.column < self.column)
    }

    /// Where an error was before the bytes were dropped, unless there is no number for its line or
    /// its column.
    pub fn placed(&self, error: AsmError) -> Option<AsmError>
        ensures { IfSome result (λ e. e ≡ placed self.now error) }
    {
        if self.is_behind(error) {
            return Some(error);
        }
        let line = error
            .line
            .saturating_sub(self.line)
            .checked_add(self.old_line)?;
        let column = if error.line == self.line {
            let behind = error.column.saturating_sub(self.column);
            behind.checked_add(self.old_column)?
        } else {
            error.column
        };
        Some(AsmError {
            kind: error.kind,
            line,
            column,
        })
    }
}

// How many bytes of a text are read before a part is looked for that changes nothing: a sixteenth,
// or the lines of it and three bytes of the next one.
fn enough_bytes(text: &[u8]) -> usize
    ensures { result ≤ length text.now }
{
    let most = text.len() / 16;
    let half = most / 2;
    let enough = match text[half..most].iter().rposition(|byte| *byte == b'\n') {
        Some(at) => half.saturating_add(at).saturating_add(4),
        None => most,
    };
    enough.min(text.len())
}

// Where the last token begins that a refusal may be at.
fn last_token(draft: &Draft<'_>) -> usize {
    let spanned = draft.spans.last().map_or(0, |span| span.offset);
    let used = draft.uses.last().map_or(0, |used| used.offset);
    spanned.max(used)
}

// Whether a line that is shown, and what a hint looks at, are the same without a part of a text:
// whole lines, or a part far from the beginning of the line and from each token.
fn keeps_hints(draft: &Draft<'_>, text: &[u8], from: usize, to: usize) -> bool {
    let Some(part) = text.get(from..to) else {
        return false;
    };
    let line = match text[..from].iter().rposition(|byte| *byte == b'\n') {
        Some(at) => at + 1,
        None => 0,
    };
    if part.contains(&b'\n') {
        line == from && is_line_start(text, to)
    } else {
        let far = from.saturating_sub(MAX_SEARCHED);
        line <= far && last_token(draft) <= far
    }
}

/// A part of a text that changes nothing, if one is found that is large for the text: such are most
/// bytes of a text with a long line or many lines of blanks, comments or needless tokens.
pub fn idle_part(alloc: Global, text: &[u8]) -> Result<Option<IdlePart>, AllocError>
    ensures idle { IfOk result (λ found. IfSome found
        (λ part. IsIdle part.from part.to text.now)) }
    ensures within { IfOk result (λ found. IfSome found
        (λ part. (part.from < part.to) × (part.to ≤ length text.now))) }
{
    let begun = &text[..enough_bytes(text)];
    let front = match read_front(alloc, begun) {
        Ok(front) => front,
        Err(refusal) => match refusal.kind {
            AsmErrorKind::Memory => return Err(AllocError),
            _ => return Ok(None),
        },
    };
    let from = begun.len().saturating_sub(front.rest.len());
    let to = idle_end(&front.draft, text, from, front.rest);
    if from > 0 && to > from && keeps_hints(&front.draft, text, from, to) {
        Ok(Some(IdlePart { from, to }))
    } else {
        Ok(None)
    }
}
