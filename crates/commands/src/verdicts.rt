//! What standard output says of programs, with what is known where one is refused.

ghost use Rattle.std.specs.Prelude.{◌≡◌, OnOk, IfOk, IfErr, false, MatchResult};
ghost use Rattle.std.specs.String.{string_bytes};
ghost use Rattle.commands.specs.Statuses.{is_silent};
ghost use Rattle.commands.specs.Judging.{Accepts, RefusesProgram, SaysRefused, Verifies};
ghost use Rattle.messages.specs.Lines.{bound_line};
ghost use Rattle.commands.specs.Saying.{Says, LacksMemory};
ghost use Rattle.bounds.specs.Bounds.{IsVerified};
ghost use Rattle.stack_state.specs.Starts.{start};
ghost use Rattle.walks.specs.Accepting.{BoundsAll};
ghost use Rattle.walks.specs.Counts.{HasNumber};
ghost use Rattle.walks.specs.Refused.{IsRefused};
ghost use Rattle.commands.specs.Known.{IfRefusal, IsKnownOfProgram};

use super::endings::Ending;
use super::outcomes::TaskOutcome;
use super::searches::verify_watched;
use bounds::Verified;
use control_flow::FlowError;
use exact_io::write_bytes;
use image::Image;
use isa_model::Insn;
use listeners::{Rejected, SearchPath, explain};
use messages::{Rejection, STANDARD_OUTPUT, reason, verdict_line};
use std::alloc::{AllocError, Global};
use std::io::Write;
use std::rt::{Clock, Files};
use walks::Refusal;

/// Writes a line, and ends the task with this outcome.
pub fn say_line<'a, W: Write>(line: &str, ended: TaskOutcome<'a>, out: &mut W) -> TaskOutcome<'a>
    requires { is_silent ended ≡ false }
    ensures loud { is_silent result ≡ false }
    ensures said { Says (W.contents out.old) (W.contents out.new) line.now ended.entry result }
{
    match write_bytes(out, line.as_bytes()) {
        Ok(()) => ended,
        Err(error) => TaskOutcome::CannotWrite(STANDARD_OUTPUT, Some(error.kind())),
    }
}

/// Writes a line if there was memory for it, and ends the task with this outcome.
pub fn say_made<'a, W: Write>(
    line: Result<String, AllocError>,
    ended: TaskOutcome<'a>,
    out: &mut W,
) -> TaskOutcome<'a>
    requires { is_silent ended ≡ false }
    ensures { MatchResult line
        (λ text. Says (W.contents out.old) (W.contents out.new)
        (string_bytes text) ended.entry result)
        (λ _. LacksMemory (W.contents out.old) (W.contents out.new) result) }
{
    match line {
        Ok(line) => say_line(line.as_str(), ended, out),
        Err(_) => TaskOutcome::NoMemory,
    }
}

/// Writes that a program is refused at a slot, at which this instruction begins.
pub fn say_refused<'a, W: Write>(
    alloc: Global,
    refusal: Refusal,
    slot: usize,
    insn: Option<Insn>,
    out: &mut W,
) -> TaskOutcome<'a>
    ensures { SaysRefused refusal slot insn (W.contents out.old) (W.contents out.new) result }
{
    match refusal {
        Refusal::Memory | Refusal::Flow(FlowError::Memory) => TaskOutcome::NoMemory,
        _ => say_made(
            verdict_line(alloc, refusal, slot),
            TaskOutcome::Refused(Rejection::Program(refusal, slot, insn)),
            out,
        ),
    }
}

/// The line that says the most steps of a run.
pub fn bound_line(alloc: Global, verified: &Verified) -> Result<String, AllocError>
    ensures { IfOk result (λ line. string_bytes line ≡ bound_line verified.now.bound) }
{
    let bound = verified.bound();
    format!(in alloc; "ok bound {bound}\n")
}

/// Says the most steps of a run.
pub fn accepted<'a, W: Write>(alloc: Global, verified: &Verified, out: &mut W) -> TaskOutcome<'a>
    ensures { Accepts verified.now (W.contents out.old) (W.contents out.new) result }
{
    say_made(bound_line(alloc, verified), TaskOutcome::Done, out)
}

// How a task that judged this program ended. If the program was refused, this looks for what is
// known of the refusal, by the path there if the search came to its limit; if memory runs out,
// nothing is.
fn program_ending<'a>(
    alloc: Global,
    image: &Image,
    path: Option<SearchPath>,
    outcome: TaskOutcome<'a>,
) -> Ending<'a>
    requires refused { IfRefusal outcome (IsRefused image.now) }
    ensures outcome { result.outcome ≡ outcome.entry }
    ensures known { IsKnownOfProgram image.now result }
{
    let why = match outcome {
        TaskOutcome::Refused(Rejection::Program(refusal, slot, _)) => {
            let found = explain(alloc, image, refusal, slot, path);
            reason(alloc, image, refusal, slot, found)
        }
        _ => None,
    };
    Ending { outcome, why }
}

/// The verifier's verdict. If it refuses, writes why, with the slot, and returns the task's outcome
/// with what is known there.
pub fn judge<'a, R: Files + Clock, W: Write>(
    rt: &R,
    alloc: Global,
    image: Image,
    out: &mut W,
) -> Result<Verified, Ending<'a>>
    ensures ok { OnOk result (W.contents out.new ≡ W.contents out.old) }
    ensures program { IfOk result (λ verified. verified.program ≡ image) }
    ensures verified { IfOk result IsVerified }
    ensures number { IfOk result (λ verified. HasNumber image start verified.bound) }
    ensures bounds { IfOk result (λ verified. BoundsAll image verified.bound) }
    ensures refused { IfErr result
        (λ ended. RefusesProgram image (W.contents out.old) (W.contents out.new) ended.outcome) }
    ensures known { IfErr result (IsKnownOfProgram image) }
{
    // A copy, since the verifier takes the image, and after a refusal its instruction is shown, and
    // what is known there is looked for. To read it again from the image's bytes would keep those
    // as long, and could run out of memory after the program was judged.
    let Ok(copy) = image.copy(alloc) else {
        return Err(Ending::plain(TaskOutcome::NoMemory));
    };
    match verify_watched(rt, alloc, image) {
        Ok(verified) => Ok(verified),
        Err(
            Rejected {
                refusal,
                slot,
                path,
            },
        ) => {
            let insn = copy.at(slot).copied();
            let outcome = say_refused(alloc, refusal, slot, insn, out);
            Err(program_ending(alloc, &copy, path, outcome))
        }
    }
}

/// Verifies a program: standard output says the most steps of a run, or the refusal.
pub fn say_verdict<'a, R: Files + Clock, W: Write>(
    rt: &R,
    alloc: Global,
    image: Image,
    out: &mut W,
) -> Ending<'a>
    ensures verifies { Verifies image (W.contents out.old) (W.contents out.new) result.outcome }
    ensures known { IsKnownOfProgram image result }
{
    match judge(rt, alloc, image, out) {
        Ok(verified) => Ending::plain(accepted(alloc, &verified, out)),
        Err(ending) => ending,
    }
}
