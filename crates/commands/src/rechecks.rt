//! What standard output says of a proof table that was tested.

ghost use Rattle.std.specs.Prelude.{◌≡◌, IfOk, IfErr, OnOk};
ghost use Rattle.bounds.specs.Bounds.{IsVerified};
ghost use Rattle.rechecking.specs.Refusing.{ShowsBound};
ghost use Rattle.commands.specs.Judging.{SaysTable, SaysOfTable, RefusesTable};
ghost use Rattle.commands.specs.Known.{IsKnownOfTable, position_found, why_found, with_refusal};

use super::endings::Ending;
use super::outcomes::TaskOutcome;
use super::verdicts::{say_made, say_refused};
use bounds::Verified;
use explanations::{EntryReason, entry_reason};
use image::Image;
use messages::{Rejection, table_line};
use rechecking::{TableError, recheck};
use std::alloc::Global;
use std::io::Write;
use table_entries::TableRefusal;
use walks::Refusal;

// How a task ended, with what is known of the refusal, if it ended in one.
fn ending_with<'a>(outcome: TaskOutcome<'a>, why: Option<String>) -> Ending<'a>
    ensures outcome { result.outcome ≡ outcome.entry }
    ensures why { result.why ≡ with_refusal outcome.entry why }
{
    match outcome {
        TaskOutcome::Refused(_) => Ending { outcome, why },
        _ => Ending::plain(outcome),
    }
}

// Says that a table is refused, with what was found about the entry.
fn say_found<'a, W: Write>(
    alloc: Global,
    error: TableError,
    found: Option<EntryReason>,
    out: &mut W,
) -> Ending<'a>
    ensures said { SaysTable error (position_found found) (W.contents out.old) (W.contents out.new)
        result.outcome }
    ensures why { result.why ≡ with_refusal result.outcome (why_found found) }
{
    let (position, why) = match found {
        Some(found) => (Some((found.slot, found.insn)), Some(found.text)),
        None => (None, None),
    };
    let refused = TaskOutcome::Refused(Rejection::Table(error, position));
    let outcome = say_made(table_line(alloc, error), refused, out);
    ending_with(outcome, why)
}

// Says that a table is refused, and looks for what is known of it.
fn say_rejected<'a, W: Write>(
    alloc: Global,
    image: &Image,
    bytes: &[u8],
    error: TableError,
    out: &mut W,
) -> Ending<'a>
    ensures said { SaysOfTable image.now error (W.contents out.old) (W.contents out.new)
        result.outcome }
    ensures known { IsKnownOfTable image.now bytes.now result }
{
    match error {
        TableError::Flow(flow, slot) => {
            let insn = image.at(slot).copied();
            Ending::plain(say_refused(alloc, Refusal::Flow(flow), slot, insn, out))
        }
        TableError::Bytes(TableRefusal::Memory) => Ending::plain(TaskOutcome::NoMemory),
        _ => say_found(alloc, error, entry_reason(alloc, image, bytes, error), out),
    }
}

/// The program with the bound that a table shows, or how the task ends without one: a refusal is
/// said, with what is known of it.
pub fn shown<'a, W: Write>(
    alloc: Global,
    image: Image,
    bytes: &[u8],
    out: &mut W,
) -> Result<Verified, Ending<'a>>
    ensures ok { OnOk result (W.contents out.new ≡ W.contents out.old) }
    ensures program { IfOk result (λ verified. verified.program ≡ image) }
    ensures verified { IfOk result IsVerified }
    ensures shows { IfOk result (λ verified. ShowsBound image bytes.now verified.bound) }
    ensures refused { IfErr result (λ ended. RefusesTable image bytes.now
        (W.contents out.old) (W.contents out.new) ended.outcome) }
    ensures known { IfErr result (IsKnownOfTable image bytes.now) }
{
    // A copy, since the tests of the table take the image, and after a refusal the entry is read
    // again.
    let Ok(copy) = image.copy(alloc) else {
        return Err(Ending::plain(TaskOutcome::NoMemory));
    };
    match recheck(alloc, image, bytes) {
        Ok(verified) => Ok(verified),
        Err(error) => Err(say_rejected(alloc, &copy, bytes, error, out)),
    }
}
