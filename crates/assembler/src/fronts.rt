//! The lexemes of a text that surely end in its first bytes.

ghost use Rattle.std.specs.Prelude.{◌≡◌, ◌≢◌, ◌≤◌, ◌⊎◌, IfOk, IfErr, IsTrue, length, drop, take};
ghost use Rattle.assembler.specs.declared.errors.AsmErrorKind.TheVariants as AsmErrorKind;
ghost use Rattle.assembler.specs.Settled.{IsTextSettled};
ghost use Rattle.assembler.specs.Fronts.{ReadsOn, IsTextFront};
ghost use Rattle.assembler.specs.Drafts.{progress_of};

use super::assembly::after;
use super::draft::{Draft, Span};
use super::errors::AsmErrorKind;
use super::refusals::Refusal;
use crate::lexeme_at;
use std::alloc::Global;

// As many bytes as the longest sign has.
const LONGEST_SIGN: usize = 4;

/// The draft after the first lexemes of a text, and what is left of its bytes.
#[derive(Drop)]
pub struct Front<'a> {
    pub draft: Draft<'a>,
    pub rest: &'a [u8],
}

/// Takes the lexemes of a text that surely end in these bytes, however it goes on.
pub fn read_front<'a>(alloc: Global, bytes: &'a [u8]) -> Result<Front<'a>, Refusal>
    ensures settled { IfErr result
        (λ e. e.kind ≢ AsmErrorKind.Memory → IsTextSettled bytes.now) }
    ensures front { IfOk result (λ f. IsTextFront bytes.now f.rest.now (progress_of f.draft)) }
{
    let mut draft = Draft::new(alloc);
    let mut rest = bytes;
    while rest.len() >= LONGEST_SIGN {
        if let Some(len) = draft.passes(rest) {
            if len < rest.len() {
                rest = after(rest, len);
                continue;
            }
        }
        let offset = bytes.len().saturating_sub(rest.len());
        let (lexeme, len) = match lexeme_at(rest) {
            Ok(found) => found,
            Err(at) => {
                return Err(Refusal {
                    kind: AsmErrorKind::UnknownByte,
                    offset: offset.saturating_add(at),
                });
            }
        };
        if len >= rest.len() {
            return Ok(Front { draft, rest });
        }
        let token = &rest[..len];
        match draft.accept(
            lexeme,
            Span {
                offset,
                bytes: token,
            },
        ) {
            Ok(()) => {}
            Err(refusal) => return Err(refusal),
        }
        rest = after(rest, len);
    }
    Ok(Front { draft, rest })
}

/// Whether a line begins at that index of a text, behind another one.
pub fn is_line_start(text: &[u8], at: usize) -> bool {
    match text.get(..at) {
        Some([.., byte]) => *byte == b'\n',
        _ => false,
    }
}

// Whether bytes begin with these.
fn begins_with(bytes: &[u8], start: &[u8]) -> bool
    ensures { IsTrue result → take (length start.now) bytes.now ≡ start.now }
{
    start.len() <= bytes.len() && &bytes[..start.len()] == start
}

/// Returns an offset up to which lexemes change nothing, and at which the text goes on as at the
/// first one: the last in the second half of the text, or the first one. If a line begins at the
/// first one, a line begins at this.
pub fn idle_end(draft: &Draft<'_>, text: &[u8], from: usize, start: &[u8]) -> usize
    requires { from ≤ length text.now }
    ensures idle { ReadsOn text.now (drop from text.now) from (progress_of draft.now)
        → ReadsOn text.now (drop result text.now) result (progress_of draft.now) }
    ensures after { from ≤ result }
    ensures within { result ≤ length text.now }
    ensures alike { (result ≡ from)
        ⊎ (take (length start.now) (drop result text.now) ≡ start.now) }
{
    let by_lines = is_line_start(text, from);
    let half = text.len() / 2;
    let mut end = from;
    let mut rest = &text[from..];
    while LONGEST_SIGN <= rest.len() {
        let Some(len) = draft.passes(rest) else {
            return end;
        };
        if rest.len() <= len {
            return end;
        }
        rest = after(rest, len);
        let at = text.len().saturating_sub(rest.len());
        if at >= half && begins_with(rest, start) && (!by_lines || is_line_start(text, at)) {
            end = at;
        }
    }
    end
}
