//! The message about packet frames whose runs ended without an action.

ghost use Rattle.std.specs.Prelude.{◌≡◌, ◌<◌, ◌^◌, None, IfOk, IfSome, length, sum_by};
ghost use Rattle.std.specs.String.{string_bytes};
ghost use Rattle.isa_model.specs.Text.CanonicalText as canonical;
ghost use Rattle.host.specs.Stops.{noted_of};
ghost use Rattle.messages.specs.Stopped.{insn_lines, trap_line, end_line, others_words, stop_line, first_lines, told_at, more_line, stop_lines, TellsStopsOf};

use disassembler::write_insn;
use explanations::value_lines;
use host::{FrameStop, HostError, Stops, Traced};
use isa_model::{End, Insn, TrapReason, Value};
use std::alloc::{AllocError, Global};

/// A hint for an answer that names no action.
pub const NO_ACTION: &str = "r0 names no action: 0 ABORTED, 1 DROP, 2 PASS, 3 TX, 4 REDIRECT\n";

// The text of an instruction.
fn insn_text(alloc: Global, insn: &Insn) -> Result<String, AllocError>
    ensures { IfOk result (λ text. string_bytes text ≡ canonical.line_of insn.now) }
{
    let mut bytes = Vec::new(alloc);
    match write_insn(&mut bytes, insn) {
        Ok(()) => match String::from_utf8(bytes) {
            Ok(text) => Ok(text),
            Err(_) => Err(AllocError),
        },
        Err(_) => Err(AllocError),
    }
}

// The instruction where a run stopped, and the values of the registers that it reads.
fn insn_lines(
    alloc: Global,
    insn: Option<Insn>,
    registers: &[Value; 11],
) -> Result<String, AllocError>
    ensures { IfOk result (λ text. string_bytes text ≡ insn_lines insn registers.now) }
{
    match insn {
        None => String::from_str(alloc, "no instruction begins there\n"),
        Some(insn) => {
            let line = insn_text(alloc, &insn)?;
            let value_text = value_lines(alloc, registers, &insn)?;
            format!(in alloc; "{line}{value_text}")
        }
    }
}

// A hint for a trap.
fn trap_line(reason: TrapReason) -> &'static str
    ensures { result.now ≡ trap_line reason }
{
    match reason {
        TrapReason::NoCode => "end each path by exit, and jump to where an instruction begins\n",
        TrapReason::UnsetRead =>
            "a register or a stack byte is read that was not written: write it first\n",
        TrapReason::ReadOnly =>
            "r10 is written, and it is read-only: copy it and change the copy\n",
        TrapReason::BadPointer =>
            "stack, packet and value pointers move by += and -= of a number, at 64 bits\n",
        TrapReason::OutOfRange => "a pointer moves by at most 536870912 bytes\n",
        TrapReason::BadAccess => "bytes are not there: test the packet's length or a look-up's r0, \
             or correct the offset\n",
        TrapReason::BadCompare =>
            "compare a packet pointer with the packet end, a value pointer with 0, at 64 bits\n",
        TrapReason::BadHelper =>
            "there are helpers 1, 2, 3 and 5; r1 is a map, r2 points to a key, r3 to a value\n",
        TrapReason::TooManyCallFrames =>
            "8 functions are running: write this one's instructions in place of the call\n",
        TrapReason::NoResult => "r0 has to be a number: 0 ABORTED, 1 DROP, 2 PASS, 3 TX\n",
        TrapReason::BadAction =>
            "the low half of r0 has to be 0 to 4: mask it (r0 &= 3) or test it\n",
    }
}

// A hint for how a run ended.
fn end_line(end: End) -> &'static str
    ensures { result.now ≡ end_line end }
{
    match end {
        End::Exit(_, _) => NO_ACTION,
        End::Trap(reason, _) => trap_line(reason),
        End::Limit => "the limit of steps is reached: give more by --limit, or end a loop\n",
    }
}

/// How many frames more there are.
pub fn others_words(alloc: Global, count: u32) -> Result<String, AllocError>
    ensures { IfOk result (λ text. string_bytes text ≡ others_words count) }
{
    if count > 1 {
        let others = count - 1;
        format!(in alloc; " and {others} more")
    } else {
        Ok(String::new(alloc))
    }
}

// The lines for the first packet frame whose run stopped at a slot.
fn stop_line(alloc: Global, found: &FrameStop) -> Result<String, AllocError>
    ensures { IfOk result (λ text. string_bytes text ≡ stop_line found.now) }
{
    let frame = found.frame;
    let others = others_words(alloc, found.count)?;
    let slot = found.stop.slot;
    let lines = insn_lines(alloc, found.stop.insn, &found.stop.registers)?;
    let hint = end_line(found.stop.end);
    format!(in alloc; "frame {frame}{others}, slot {slot}: {lines}{hint}")
}

// The lines for the first frames.
fn first_lines(alloc: Global, first: &[FrameStop]) -> Result<String, AllocError>
    ensures { IfOk result (λ text. string_bytes text ≡ first_lines first.now) }
{
    let mut text = String::new(alloc);
    for index in 0..first.len() {
        let line = stop_line(alloc, &first[index])?;
        text = format!(in alloc; "{text}{line}")?;
    }
    Ok(text)
}

// How many frames are counted with the first ones.
fn told_of(first: &[FrameStop]) -> u64
    requires { length first.now < 2 ^ 32 }
    ensures { result ≡ sum_by told_at first.now }
{
    let mut count = 0;
    for found in first {
        count += u64::from(found.count);
    }
    count
}

// The line that says how many more frames there are, if any.
fn more_line(alloc: Global, more: u64) -> Result<String, AllocError>
    ensures { IfOk result (λ text. string_bytes text ≡ more_line more) }
{
    if more == 0 {
        return Ok(String::new(alloc));
    }
    format!(in alloc; "and {more} more frames that ended without an action\n")
}

// The lines for the first frames, and how many more there are.
fn stop_lines(alloc: Global, stops: &Stops) -> Result<String, AllocError>
    ensures { IfOk result (λ text. string_bytes text ≡ stop_lines (noted_of stops.now)) }
{
    let first = stops.first.as_slice();
    let more = u64::from(stops.count).saturating_sub(told_of(first));
    let lines = first_lines(alloc, first)?;
    let rest = more_line(alloc, more)?;
    format!(in alloc; "{lines}{rest}")
}

// The lines for the first frames, and how many more there are. `None`: no frame is noted, or memory
// ran out.
fn known_of(alloc: Global, stops: &Stops) -> Option<String>
    ensures none { stops.now.count ≡ 0 → result ≡ None }
    ensures told { IfSome result (λ text. string_bytes text ≡ stop_lines (noted_of stops.now)) }
{
    if stops.count == 0 {
        return None;
    }
    stop_lines(alloc, stops).ok()
}

/// The message about the packet frames of a trace, if its report was completed.
pub fn lines_of_stops(alloc: Global, ended: &Result<Traced, HostError>) -> Option<String>
    ensures { TellsStopsOf ended.now result }
{
    match ended {
        Ok(traced) => known_of(alloc, &traced.stops),
        Err(_) => None,
    }
}
