//! The steps of a frame's run, as text for people and as JSON.

ghost use Rattle.std.specs.Prelude.{◌≡◌, ◌≢◌, IfSome, None, Some, option_map, slice_get};
ghost use Rattle.isa_model.specs.declared.ends.End.TheVariants.{Limit};

use crate::jsons::quoted;
use crate::reads::{Held, read_by};
use crate::report_words::end_words;
use crate::words::insn_words;
use crate::writes::written_by;
use crate::{FrameSteps, StepTaken};
use exact_io::write_bytes;
use isa_model::{End, Value, Version};
use std::alloc::{AllocError, Global};
use std::io;
use std::io::{ErrorKind, Write};

/// A frame's run, and what is said of it: the image's path and the frame's number, the version of
/// the program, and the limit of steps.
#[derive(Clone, Copy, Drop)]
pub struct FrameShown<'a> {
    pub image: &'a str,
    pub frame: u32,
    pub program: Version,
    pub limit: u32,
}

/// A step with what it read and wrote.
#[derive(Drop)]
struct StepShown {
    number: usize,
    slot: usize,
    insn: String,
    read: Vec<Held>,
    wrote: Vec<Held>,
}

/// What the registers hold before the step of an index, or after the last one; `None` where that
/// one ended the run, and changed nothing.
fn registers_at<'a>(shown: &'a FrameSteps, index: usize) -> Option<&'a [Value; 11]>
    ensures step { IfSome (slice_get shown.now.steps.items index)
        (λ step. option_map (λ registers. registers.now) result ≡ Some step.registers) }
    ensures limit { slice_get shown.now.steps.items index ≡ None → shown.now.stop.end ≡ Limit
        → option_map (λ registers. registers.now) result ≡ Some shown.now.stop.registers }
    ensures ended { slice_get shown.now.steps.items index ≡ None → shown.now.stop.end ≢ Limit
        → result ≡ None }
{
    match shown.steps.get(index) {
        Some(step) => Some(&step.registers),
        None => match shown.stop.end {
            End::Limit => Some(&shown.stop.registers),
            End::Exit(_, _) | End::Trap(_, _) => None,
        },
    }
}

/// The text of the instruction where a step begins.
fn step_insn(alloc: Global, step: &StepTaken) -> Result<String, AllocError> {
    match step.insn {
        Some(insn) => insn_words(alloc, &insn),
        None => String::from_str(alloc, "no instruction begins there"),
    }
}

/// The step of an index.
fn step_shown(
    alloc: Global,
    shown: &FrameSteps,
    index: usize,
    step: &StepTaken,
) -> Result<StepShown, AllocError> {
    let next = index.saturating_add(1);
    let wrote = match registers_at(shown, next) {
        Some(after) => written_by(alloc, step, after)?,
        None => Vec::new(alloc),
    };
    Ok(StepShown {
        number: next,
        slot: step.slot,
        insn: step_insn(alloc, step)?,
        read: read_by(alloc, step)?,
        wrote,
    })
}

/// A list of what was read or written, in words.
fn held_words(alloc: Global, front: &str, held: &[Held]) -> Result<String, AllocError> {
    let mut text = String::new(alloc);
    for one in held {
        text.push_str(if text.is_empty() { front } else { ", " })?;
        text.push_str(one.name.as_str())?;
        text.push_str(": ")?;
        text.push_str(one.words.as_str())?;
    }
    Ok(text)
}

/// A step as a line of text.
fn step_text(alloc: Global, step: &StepShown) -> Result<String, AllocError> {
    let (number, slot) = (step.number, step.slot);
    let insn = step.insn.as_str();
    let read = held_words(alloc, "; read ", step.read.as_slice())?;
    let wrote = held_words(alloc, "; wrote ", step.wrote.as_slice())?;
    format!(in alloc; "{number} slot {slot}: {insn}{read}{wrote}\n")
}

/// What was read or written as a JSON object.
fn held_json(alloc: Global, held: &[Held]) -> Result<String, AllocError> {
    let mut text = String::from_str(alloc, "{")?;
    for index in 0..held.len() {
        let name = quoted(alloc, held[index].name.as_str())?;
        let words = quoted(alloc, held[index].words.as_str())?;
        let comma = if index == 0 { "" } else { "," };
        let member = format!(in alloc; "{comma}{name}:{words}")?;
        text.push_str(member.as_str())?;
    }
    text.push('}')?;
    Ok(text)
}

/// A step as a JSON object, after a comma if it is not the first.
fn step_json(alloc: Global, step: &StepShown) -> Result<String, AllocError> {
    let (number, slot) = (step.number, step.slot);
    let comma = if number == 1 { "" } else { "," };
    let insn = quoted(alloc, step.insn.as_str())?;
    let read = held_json(alloc, step.read.as_slice())?;
    let wrote = held_json(alloc, step.wrote.as_slice())?;
    format!(in alloc;
        "{comma}{{\"step\":{number},\"slot\":{slot},\"instruction\":{insn},\"read\":{read},\"wrote\":{wrote}}}"
    )
}

/// What stands before the steps in JSON.
fn json_front(alloc: Global, about: FrameShown<'_>) -> Result<String, AllocError> {
    let image = quoted(alloc, about.image)?;
    let frame = about.frame;
    format!(in alloc; "{{\"image\":{image},\"frame\":{frame},\"steps\":[")
}

/// What stands after them, with how the run ended.
fn json_back(alloc: Global, end: &str) -> Result<String, AllocError> {
    let end = quoted(alloc, end)?;
    format!(in alloc; "],\"end\":{end}}}\n")
}

/// The last line of a frame's text.
fn text_back(alloc: Global, frame: u32, end: &str) -> Result<String, AllocError> {
    format!(in alloc; "frame {frame}: {end}\n")
}

/// A frame with a reason as JSON: it has no steps.
pub fn skip_json(alloc: Global, about: FrameShown<'_>, end: &str) -> Result<String, AllocError> {
    let front = json_front(alloc, about)?;
    let back = json_back(alloc, end)?;
    format!(in alloc; "{front}{back}")
}

/// A frame with a reason as text.
pub fn skip_text(alloc: Global, about: FrameShown<'_>, end: &str) -> Result<String, AllocError> {
    text_back(alloc, about.frame, end)
}

/// Writes a text, if memory is left for it.
fn put<W: Write>(text: Result<String, AllocError>, out: &mut W) -> io::Result<()> {
    match text {
        Ok(text) => write_bytes(out, text.as_bytes()),
        Err(_) => Err(io::Error::from(ErrorKind::OutOfMemory)),
    }
}

/// Writes a step.
fn put_step<W: Write>(
    alloc: Global,
    shown: &FrameSteps,
    index: usize,
    step: &StepTaken,
    is_json: bool,
    out: &mut W,
) -> io::Result<()> {
    match step_shown(alloc, shown, index, step) {
        Ok(step) => put(
            if is_json {
                step_json(alloc, &step)
            } else {
                step_text(alloc, &step)
            },
            out,
        ),
        Err(_) => Err(io::Error::from(ErrorKind::OutOfMemory)),
    }
}

/// Writes the steps of a frame's run, one after another.
fn put_steps<W: Write>(
    alloc: Global,
    shown: &FrameSteps,
    is_json: bool,
    out: &mut W,
) -> io::Result<()> {
    for index in 0..shown.steps.len() {
        put_step(alloc, shown, index, &shown.steps[index], is_json, out)?;
    }
    Ok(())
}

/// Writes the steps of a frame's run as one JSON object. A failure to make a text is one of memory.
pub fn write_json<W: Write>(
    alloc: Global,
    about: FrameShown<'_>,
    shown: &FrameSteps,
    out: &mut W,
) -> io::Result<()> {
    put(json_front(alloc, about), out)?;
    put_steps(alloc, shown, true, out)?;
    match end_words(alloc, shown, about.program, about.limit) {
        Ok(end) => put(json_back(alloc, end.as_str()), out),
        Err(_) => Err(io::Error::from(ErrorKind::OutOfMemory)),
    }
}

/// Writes the steps of a frame's run as text, a line each, and then how it ended.
pub fn write_text<W: Write>(
    alloc: Global,
    about: FrameShown<'_>,
    shown: &FrameSteps,
    out: &mut W,
) -> io::Result<()> {
    put_steps(alloc, shown, false, out)?;
    match end_words(alloc, shown, about.program, about.limit) {
        Ok(end) => put(text_back(alloc, about.frame, end.as_str()), out),
        Err(_) => Err(io::Error::from(ErrorKind::OutOfMemory)),
    }
}
