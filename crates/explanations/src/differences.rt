//! Why an entry of a table cannot be named for a state, as text.

ghost use Rattle.std.specs.Prelude.{◌≡◌, ◌<◌, IfOk, decimal};
ghost use Rattle.std.specs.String.{string_bytes};
ghost use Rattle.stack_state.specs.Meaning.{depth};
ghost use Rattle.stack_state.specs.Slots.{frame_slots};
ghost use Rattle.explanations.specs.Mismatches.{IsInBoth, difference_lines, mismatch_lines, register_words, stack_words, stack_difference, returns_words, up_words};

use crate::kinds::{calls_up, kind_words};
use crate::mismatches::{Mismatch, frame_of};
use crate::slots::{offset_of, slot_words};
use reg_state::Kind;
use stack_state::{StackSlot, State};
use std::alloc::{AllocError, Global};

/// Returns how many calls up from the innermost call frame this one is.
fn up_words(alloc: Global, state: &State, frame: usize) -> Result<String, AllocError>
    ensures { IfOk result (λ text. string_bytes text ≡ up_words state.now frame) }
{
    calls_up(alloc, state.callers.len().saturating_sub(frame))
}

/// Returns what is known of a register of a frame.
pub fn register_words(
    alloc: Global,
    state: &State,
    frame: usize,
    register: usize,
) -> Result<String, AllocError>
    requires { frame < depth state.now }
    ensures { IfOk result (λ text. string_bytes text ≡ register_words state.now frame register) }
{
    let kind = frame_of(state, frame)
        .registers
        .get(register)
        .copied()
        .unwrap_or(Kind::Unset);
    kind_words(alloc, state.callers.len(), kind)
}

/// Returns what is known of a stack slot of a frame.
pub fn stack_words(
    alloc: Global,
    state: &State,
    frame: usize,
    slot: usize,
) -> Result<String, AllocError>
    requires frame { frame < depth state.now }
    requires slot { slot < frame_slots }
    ensures { IfOk result (λ text. string_bytes text ≡ stack_words state.now frame slot) }
{
    let known = frame_of(state, frame)
        .stack
        .slots()
        .get(slot)
        .copied()
        .unwrap_or(StackSlot::Written(0));
    slot_words(alloc, state.callers.len(), slot, known)
}

fn depth_words(alloc: Global, state: &State) -> Result<String, AllocError>
    ensures { IfOk result (λ text. string_bytes text ≡ decimal (depth state.now)) }
{
    let depth = state.callers.len() + 1;
    format!(in alloc; "{depth}")
}

fn returns_words(alloc: Global, state: &State, frame: usize) -> Result<String, AllocError>
    requires { frame < depth state.now }
    ensures { IfOk result (λ text. string_bytes text ≡ returns_words state.now frame) }
{
    let slot = frame_of(state, frame).return_slot;
    format!(in alloc; "slot {slot}")
}

fn stack_difference(
    alloc: Global,
    state: &State,
    frame: usize,
    slot: usize,
) -> Result<String, AllocError>
    requires { slot < frame_slots }
    ensures { IfOk result (λ text. string_bytes text ≡ stack_difference state.now frame slot) }
{
    let up = up_words(alloc, state, frame)?;
    let start = offset_of(slot, 0);
    format!(in alloc; "does not cover stack {start}{up}")
}

/// The successor, the entry that is named for it, in what that differs, and what each of them has
/// there.
fn difference_lines(
    alloc: Global,
    nth: usize,
    index: u32,
    what: &str,
    here: &str,
    there: &str,
) -> Result<String, AllocError>
    ensures { IfOk result (λ text. string_bytes text
        ≡ difference_lines nth index what.now here.now there.now) }
{
    format!(in alloc;
        "successor {nth}: entry {index} {what}\nafter the step: {here}\nin the entry: {there}\n"
    )
}

fn slot_mismatch_lines(
    alloc: Global,
    nth: usize,
    index: u32,
    entry: &State,
    state: &State,
) -> Result<String, AllocError>
    ensures { IfOk result (λ text. string_bytes text
        ≡ mismatch_lines 0 nth index entry.now state.now Mismatch.Slot) }
{
    let there = entry.slot;
    let here = state.slot;
    let there = format!(in alloc; "slot {there}")?;
    let here = format!(in alloc; "slot {here}")?;
    difference_lines(
        alloc,
        nth,
        index,
        "is at another slot",
        here.as_str(),
        there.as_str(),
    )
}

fn frames_mismatch_lines(
    alloc: Global,
    nth: usize,
    index: u32,
    entry: &State,
    state: &State,
) -> Result<String, AllocError>
    ensures { IfOk result (λ text. string_bytes text
        ≡ mismatch_lines 0 nth index entry.now state.now Mismatch.Frames) }
{
    let there = depth_words(alloc, entry)?;
    let here = depth_words(alloc, state)?;
    let what = "has another number of frames";
    difference_lines(alloc, nth, index, what, here.as_str(), there.as_str())
}

fn returns_mismatch_lines(
    alloc: Global,
    nth: usize,
    index: u32,
    entry: &State,
    state: &State,
    frame: usize,
) -> Result<String, AllocError>
    requires entry { frame < depth entry.now }
    requires state { frame < depth state.now }
    ensures { IfOk result (λ text. string_bytes text
        ≡ mismatch_lines 0 nth index entry.now state.now (Mismatch.Returns frame)) }
{
    let up = up_words(alloc, state, frame)?;
    let what = format!(in alloc; "returns to another slot{up}")?;
    let there = returns_words(alloc, entry, frame)?;
    let here = returns_words(alloc, state, frame)?;
    difference_lines(
        alloc,
        nth,
        index,
        what.as_str(),
        here.as_str(),
        there.as_str(),
    )
}

fn register_mismatch_lines(
    alloc: Global,
    nth: usize,
    index: u32,
    entry: &State,
    state: &State,
    frame: usize,
    register: usize,
) -> Result<String, AllocError>
    requires entry { frame < depth entry.now }
    requires state { frame < depth state.now }
    ensures { IfOk result (λ text. string_bytes text
        ≡ mismatch_lines 0 nth index entry.now state.now (Mismatch.Register frame register)) }
{
    let up = up_words(alloc, state, frame)?;
    let what = format!(in alloc; "does not cover r{register}{up}")?;
    let there = register_words(alloc, entry, frame, register)?;
    let here = register_words(alloc, state, frame, register)?;
    difference_lines(
        alloc,
        nth,
        index,
        what.as_str(),
        here.as_str(),
        there.as_str(),
    )
}

fn stack_mismatch_lines(
    alloc: Global,
    nth: usize,
    index: u32,
    entry: &State,
    state: &State,
    frame: usize,
    slot: usize,
) -> Result<String, AllocError>
    requires entry { frame < depth entry.now }
    requires state { frame < depth state.now }
    requires slot { slot < frame_slots }
    ensures { IfOk result (λ text. string_bytes text
        ≡ mismatch_lines 0 nth index entry.now state.now (Mismatch.Stack frame slot)) }
{
    let what = stack_difference(alloc, state, frame, slot)?;
    let there = stack_words(alloc, entry, frame, slot)?;
    let here = stack_words(alloc, state, frame, slot)?;
    difference_lines(
        alloc,
        nth,
        index,
        what.as_str(),
        here.as_str(),
        there.as_str(),
    )
}

/// Returns why the entry with that index does not cover the nth successor of an entry with that
/// number.
pub fn mismatch_lines(
    alloc: Global,
    number: u32,
    nth: usize,
    index: u32,
    entry: &State,
    state: &State,
    found: Mismatch,
) -> Result<String, AllocError>
    requires { IsInBoth entry.now state.now found }
    ensures { IfOk result (λ text. string_bytes text
        ≡ mismatch_lines number nth index entry.now state.now found) }
{
    match found {
        Mismatch::Missing => format!(in alloc; "successor {nth}: there is no entry {index}\n"),
        Mismatch::NotSmaller(other) => format!(in alloc;
            "successor {nth}: entry {index} has number {other}, not smaller than {number}\n"
        ),
        Mismatch::Slot => slot_mismatch_lines(alloc, nth, index, entry, state),
        Mismatch::Frames => frames_mismatch_lines(alloc, nth, index, entry, state),
        Mismatch::Returns(frame) => returns_mismatch_lines(alloc, nth, index, entry, state, frame),
        Mismatch::Register(frame, register) => {
            register_mismatch_lines(alloc, nth, index, entry, state, frame, register)
        }
        Mismatch::Stack(frame, slot) => {
            stack_mismatch_lines(alloc, nth, index, entry, state, frame, slot)
        }
    }
}
