//! The lines that say how many frames ended in each way.

ghost use Rattle.std.specs.Prelude.{◌≡◌, IfOk};
ghost use Rattle.std.specs.String.{string_bytes};
ghost use Rattle.host.specs.Counts.{totals_of};
ghost use Rattle.host.specs.CountLines.{access_lines, action_lines, answer_lines, count_line, counts_text, end_line, reason_line, reason_lines, trap_line, trap_lines};

use crate::counts::{FrameCounts, ReasonCount};
use crate::end_counts::{ActionCounts, TrapCounts};
use crate::tallies::Tally;
use isa_model::TrapReason;
use std::alloc::{AllocError, Global};

// A line with a count, unless it is 0.
fn count_line(alloc: Global, name: &str, count: u32) -> Result<String, AllocError>
    ensures { IfOk result (λ line. string_bytes line ≡ count_line name.now count) }
{
    if count == 0 {
        return Ok(String::new(alloc));
    }
    format!(in alloc; "{name} {count}\n")
}

// The lines of actions.
fn action_lines(alloc: Global, counts: &ActionCounts) -> Result<String, AllocError>
    ensures { IfOk result (λ text. string_bytes text ≡ action_lines counts.now) }
{
    let pass = count_line(alloc, "PASS", counts.pass)?;
    let tx = count_line(alloc, "TX", counts.tx)?;
    let redirect = count_line(alloc, "REDIRECT", counts.redirect)?;
    let drop = count_line(alloc, "DROP", counts.drop)?;
    let aborted = count_line(alloc, "ABORTED", counts.aborted)?;
    let invalid = count_line(alloc, "INVALID", counts.invalid)?;
    format!(in alloc; "{pass}{tx}{redirect}{drop}{aborted}{invalid}")
}

// The line of the runs that met a trap for a reason.
fn trap_line(alloc: Global, counts: &TrapCounts, reason: TrapReason) -> Result<String, AllocError>
    ensures { IfOk result (λ line. string_bytes line ≡ trap_line counts.now reason) }
{
    let count = counts.of(reason);
    if count == 0 {
        return Ok(String::new(alloc));
    }
    let name = reason.name();
    format!(in alloc; "TRAP {name} {count}\n")
}

// The lines of runs that met a trap by what they read, moved or accessed.
fn access_lines(alloc: Global, counts: &TrapCounts) -> Result<String, AllocError>
    ensures { IfOk result (λ text. string_bytes text ≡ access_lines counts.now) }
{
    let code = trap_line(alloc, counts, TrapReason::NoCode)?;
    let unset = trap_line(alloc, counts, TrapReason::UnsetRead)?;
    let read_only = trap_line(alloc, counts, TrapReason::ReadOnly)?;
    let pointer = trap_line(alloc, counts, TrapReason::BadPointer)?;
    let range = trap_line(alloc, counts, TrapReason::OutOfRange)?;
    let access = trap_line(alloc, counts, TrapReason::BadAccess)?;
    format!(in alloc; "{code}{unset}{read_only}{pointer}{range}{access}")
}

// The lines of runs that met a trap by what they compared, called or answered.
fn answer_lines(alloc: Global, counts: &TrapCounts) -> Result<String, AllocError>
    ensures { IfOk result (λ text. string_bytes text ≡ answer_lines counts.now) }
{
    let compare = trap_line(alloc, counts, TrapReason::BadCompare)?;
    let helper = trap_line(alloc, counts, TrapReason::BadHelper)?;
    let frames = trap_line(alloc, counts, TrapReason::TooManyCallFrames)?;
    let exit = trap_line(alloc, counts, TrapReason::NoResult)?;
    let action = trap_line(alloc, counts, TrapReason::BadAction)?;
    format!(in alloc; "{compare}{helper}{frames}{exit}{action}")
}

// The lines of runs that met a trap.
fn trap_lines(alloc: Global, counts: &TrapCounts) -> Result<String, AllocError>
    ensures { IfOk result (λ text. string_bytes text ≡ trap_lines counts.now) }
{
    let front = access_lines(alloc, counts)?;
    let back = answer_lines(alloc, counts)?;
    format!(in alloc; "{front}{back}")
}

// The line of a reason.
fn reason_line(alloc: Global, counted: &ReasonCount) -> Result<String, AllocError>
    ensures { IfOk result (λ line. string_bytes line ≡ reason_line counted.now) }
{
    let reason = counted.reason;
    let frames = counted.frames;
    format!(in alloc; "reason {reason} {frames}\n")
}

// The lines of the reasons.
fn reason_lines(alloc: Global, reasons: &[ReasonCount]) -> Result<String, AllocError>
    ensures { IfOk result (λ text. string_bytes text ≡ reason_lines reasons.now) }
{
    let mut text = String::new(alloc);
    for index in 0..reasons.len() {
        let line = reason_line(alloc, &reasons[index])?;
        text = format!(in alloc; "{text}{line}")?;
    }
    Ok(text)
}

// The report's last line.
#[tactic(auto, unfolding(isa_model::specs::Reporting::Reports::last_line))]
fn end_line(alloc: Global, tally: &Tally) -> Result<String, AllocError>
    ensures { IfOk result (λ line. string_bytes line ≡ end_line tally.now) }
{
    match tally.fault {
        None => {
            let frames = tally.frames;
            format!(in alloc; "end {frames}\n")
        }
        Some((fault, at)) => {
            let code = fault.code();
            format!(in alloc; "fault {code} at {at}\n")
        }
    }
}

/// The lines of all counts that are not 0, and the report's last line.
pub fn counts_text(alloc: Global, counts: &FrameCounts, tally: &Tally) -> Result<String, AllocError>
    ensures { IfOk result (λ text. string_bytes text
        ≡ counts_text (totals_of counts.now) tally.now) }
{
    let actions = action_lines(alloc, &counts.actions)?;
    let skipped = count_line(alloc, "SKIP", counts.skipped)?;
    let traps = trap_lines(alloc, &counts.traps)?;
    let limit = count_line(alloc, "LIMIT", counts.limit)?;
    let reasons = reason_lines(alloc, counts.reasons.as_slice())?;
    let others = count_line(alloc, "other reasons", counts.other_reasons)?;
    let end = end_line(alloc, tally)?;
    format!(in alloc; "{actions}{skipped}{traps}{limit}{reasons}{others}{end}")
}
