//! Entries passed over: whether they are allowed, and where they end.

ghost use Rattle.std.specs.Prelude.{◌≡◌, ◌==◌, ◌||◌, ◌≤◌, not, false, true, length, []};
ghost use Rattle.std.specs.Option.{is_some};
ghost use Rattle.stack_state.specs.Slots.{frame_slots};
ghost use Rattle.table_entries.specs.Kinds.{kind_in, stack_slot_in, stack_in};
ghost use Rattle.table_entries.specs.Frames.{frame_in, callers_in};
ghost use Rattle.table_entries.specs.Entries.{rest_in, entry_in};
ghost use Rattle.table_entries.specs.Reading.{ReturnsRead, seen, many};
ghost use Rattle.table_entries.specs.KnownBytes.{ArePassed};

use crate::blanks::{begins_unset, blank_stack_slots};
use crate::entries::{head_allowed, named_in};
use crate::frames::frame_allowed;
use crate::kinds::{kind_in, packet_in, scalar_in, stack_slot_in};
use crate::known_bytes::{FrameBytes, after_known, note};
use crate::loops::{both, read_registers};
use crate::slices::{before, skip, u16_at, u32_at};
use crate::stops::StopReason;
use arrayvec::ArrayVec;
use image::Image;
use isa_model::MAX_CALL_FRAMES;
use reg_state::Kind;
use stack_state::{FRAME_SLOTS, MAX_CALLERS};

/// Says what is kept as entries are passed over: room for the registers of an outer frame, and the
/// bytes of the outer frames that were passed over last, whose fields are allowed.
#[derive(Drop)]
pub struct Passing<'a> {
    pub room: [Kind; 10],
    pub frames: ArrayVec<FrameBytes<'a>, MAX_CALLERS>,
}

impl<'a> Passing<'a> {
    /// No bytes are known.
    pub fn new() -> Passing<'a>
        ensures { result.frames.items ≡ [] }
    {
        Passing {
            room: [Kind::Unset; 10],
            frames: ArrayVec::new(),
        }
    }
}

// One of the rare kinds, or bytes whose fields are not allowed, or that begin with no kind.
#[inline(never)]
fn pass_other(rows: usize, holder: usize, bytes: &[u8]) -> Result<(bool, &[u8]), StopReason>
    ensures { ReturnsRead (λ x. (x.0, x.1.now)) result (seen (kind_in rows holder bytes.now)) }
{
    let (kind, rest) = kind_in(rows, holder, bytes)?;
    Ok((kind.is_some(), rest))
}

// Whether the bytes begin with the index of a call frame up to the one that holds the pointer.
#[inline(always)]
#[tactic(auto, unfolding(crate::specs::Kinds::stack_in))]
fn is_stack(holder: usize, bytes: &[u8]) -> bool
    requires { 5 ≤ length bytes.now }
    ensures { result ≡ is_some (stack_in holder bytes.now) }
{
    let frame = bytes[0];
    if usize::from(frame) > holder {
        return false;
    }
    true
}

#[inline(always)]
#[tactic(auto, using(crate::proofs::NumberStackSlots::number_there), unfolding(crate::specs::Kinds::kind_in, crate::specs::Kinds::fields_in))]
fn pass_kind(rows: usize, holder: usize, bytes: &[u8]) -> Result<(bool, &[u8]), StopReason>
    ensures { ReturnsRead (λ x. (x.0, x.1.now)) result (seen (kind_in rows holder bytes.now)) }
{
    match bytes {
        [0, rest @ ..] => Ok((true, rest)),
        [1, rest @ ..] => {
            if rest.len() < 64 {
                return Err(StopReason::Short);
            }
            Ok((scalar_in(rest).is_some(), skip(rest, 64)))
        }
        [2, rest @ ..] => Ok((true, rest)),
        [3, rest @ ..] => {
            if rest.len() < 5 {
                return Err(StopReason::Short);
            }
            Ok((is_stack(holder, rest), skip(rest, 5)))
        }
        [4, rest @ ..] => {
            if rest.len() < 20 {
                return Err(StopReason::Short);
            }
            Ok((packet_in(rest).is_some(), skip(rest, 20)))
        }
        [5, rest @ ..] => Ok((true, rest)),
        _ => pass_other(rows, holder, bytes),
    }
}

// A stack slot with the kind of a spilled value, or bytes that begin with no stack slot.
#[inline(never)]
fn pass_spilled(rows: usize, holder: usize, bytes: &[u8]) -> Result<(bool, &[u8]), StopReason>
    ensures { ReturnsRead (λ x. (x.0, x.1.now)) result
        (seen (stack_slot_in rows holder bytes.now)) }
{
    let (found, rest) = stack_slot_in(rows, holder, bytes)?;
    Ok((found.is_some(), rest))
}

#[inline(always)]
#[tactic(auto, using(crate::proofs::NumberStackSlots::spilled_number), unfolding(crate::specs::Kinds::stack_slot_in, crate::specs::Kinds::kind_in, crate::specs::Kinds::fields_in))]
fn pass_stack_slot(rows: usize, holder: usize, bytes: &[u8]) -> Result<(bool, &[u8]), StopReason>
    ensures { ReturnsRead (λ x. (x.0, x.1.now)) result
        (seen (stack_slot_in rows holder bytes.now)) }
{
    match bytes {
        [0, _, rest @ ..] => Ok((true, rest)),
        [1, 1, rest @ ..] => {
            if rest.len() < 64 {
                return Err(StopReason::Short);
            }
            Ok((scalar_in(rest).is_some(), skip(rest, 64)))
        }
        [1, 2, rest @ ..] => Ok((true, rest)),
        [1, 5, rest @ ..] => Ok((true, rest)),
        _ => pass_spilled(rows, holder, bytes),
    }
}

fn pass_kinds(rows: usize, holder: usize, bytes: &[u8]) -> Result<(bool, &[u8]), StopReason>
    ensures { ReturnsRead (λ x. (x.0, x.1.now)) result
        (seen (many (λ k. kind_in rows holder) 10 0 bytes.now)) }
{
    let mut rest = bytes;
    let mut allowed = true;
    for index in 0..10usize {
        let (fits, after) = pass_kind(rows, holder, rest)?;
        allowed = both(allowed, fits);
        rest = after;
    }
    Ok((allowed, rest))
}

fn pass_stack_slots(rows: usize, holder: usize, bytes: &[u8]) -> Result<(bool, &[u8]), StopReason>
    ensures { ReturnsRead (λ x. (x.0, x.1.now)) result
        (seen (many (λ k. stack_slot_in rows holder) frame_slots 0 bytes.now)) }
{
    let blank = blank_stack_slots(bytes);
    let mut rest = skip(bytes, 2 * blank);
    let mut allowed = true;
    for index in blank..FRAME_SLOTS {
        let (fits, after) = pass_stack_slot(rows, holder, rest)?;
        allowed = both(allowed, fits);
        rest = after;
    }
    Ok((allowed, rest))
}

fn returns_right(holder: usize, return_slot: u16) -> bool
    ensures { result ≡ (not (holder == 0) || return_slot == 0) }
{
    holder != 0 || return_slot == 0
}

/// Passes over the innermost call frame, and returns whether it is allowed, and what follows it.
///
/// `rows` is the number of the image's map rows, and `holder` the index of the frame, counted from
/// the outermost, 0. No frame after it may be pointed into.
fn pass_frame(rows: usize, holder: usize, bytes: &[u8]) -> Result<(bool, &[u8]), StopReason>
    ensures { ReturnsRead (λ x. (x.0, x.1.now)) result
        (seen (frame_in rows holder false bytes.now)) }
{
    if bytes.len() < 2 {
        return Err(StopReason::Short);
    }
    let fits = returns_right(holder, u16_at(bytes, 0));
    let (kinds, rest) = pass_kinds(rows, holder, skip(bytes, 2))?;
    let (stack_slots, rest) = pass_stack_slots(rows, holder, rest)?;
    Ok((both(both(kinds, stack_slots), fits), rest))
}

/// An outer frame, whose registers are read into `room`.
fn pass_registers<'a>(
    rows: usize,
    holder: usize,
    bytes: &'a [u8],
    room: &mut [Kind; 10],
) -> Result<(bool, &'a [u8]), StopReason>
    ensures { ReturnsRead (λ x. (x.0, x.1.now)) result
        (seen (frame_in rows holder true bytes.now)) }
{
    if bytes.len() < 2 {
        return Err(StopReason::Short);
    }
    let (kinds, rest) = read_registers(rows, holder, skip(bytes, 2), room)?;
    let (stack_slots, rest) = pass_stack_slots(rows, holder, rest)?;
    let fits = frame_allowed(holder, true, usize::from(u16_at(bytes, 0)), room);
    Ok((both(both(kinds, stack_slots), fits), rest))
}

/// An outer call frame. Where r0 to r5 are unset, as they have to be, it is read as an innermost
/// one.
fn pass_other_caller<'a>(
    rows: usize,
    holder: usize,
    bytes: &'a [u8],
    room: &mut [Kind; 10],
) -> Result<(bool, &'a [u8]), StopReason>
    ensures { ReturnsRead (λ x. (x.0, x.1.now)) result
        (seen (frame_in rows holder true bytes.now)) }
{
    if begins_unset(bytes) {
        return pass_frame(rows, holder, bytes);
    }
    pass_registers(rows, holder, bytes, room)
}

/// An outer frame, which is not looked at field by field if the one passed over last at that index
/// has the same bytes.
fn pass_caller<'a>(
    rows: usize,
    holder: usize,
    bytes: &'a [u8],
    passing: &mut Passing<'a>,
) -> Result<(bool, &'a [u8]), StopReason>
    requires { ArePassed rows passing.old.frames.items }
    ensures passed { ArePassed rows passing.new.frames.items }
    ensures read { ReturnsRead (λ x. (x.0, x.1.now)) result
        (seen (frame_in rows holder true bytes.now)) }
{
    if let Some(rest) = after_known(passing.frames.as_slice(), holder, bytes) {
        return Ok((true, rest));
    }
    let (allowed, rest) = pass_other_caller(rows, holder, bytes, &mut passing.room)?;
    if !allowed {
        return Ok((false, rest));
    }
    passing.frames.truncate(holder);
    note(&mut passing.frames, holder, before(bytes, rest));
    Ok((true, rest))
}

/// The outer frames.
fn pass_callers<'a>(
    rows: usize,
    count: usize,
    bytes: &'a [u8],
    passing: &mut Passing<'a>,
) -> Result<(bool, &'a [u8]), StopReason>
    requires { ArePassed rows passing.old.frames.items }
    ensures passed { ArePassed rows passing.new.frames.items }
    ensures read { ReturnsRead (λ x. (x.0, x.1.now)) result
        (seen (callers_in rows count bytes.now)) }
{
    let mut rest = bytes;
    let mut allowed = true;
    for holder in 0..count {
        let (fits, after) = pass_caller(rows, holder, rest, passing)?;
        allowed = both(allowed, fits);
        rest = after;
    }
    Ok((allowed, rest))
}

// The call frames, the innermost one last, and the entries that are named.
fn pass_rest<'a>(
    image: &Image,
    number: u32,
    slot: usize,
    caller_count: usize,
    bytes: &'a [u8],
    passing: &mut Passing<'a>,
) -> Result<(bool, &'a [u8]), StopReason>
    requires { ArePassed (length image.now.maps) passing.old.frames.items }
    ensures passed { ArePassed (length image.now.maps) passing.new.frames.items }
    ensures read { ReturnsRead (λ x. (x.0, x.1.now)) result
        (seen (rest_in image.now number slot caller_count bytes.now)) }
{
    let rows = image.maps().len();
    let (callers, rest) = pass_callers(rows, caller_count, bytes, passing)?;
    let (innermost, rest) = pass_frame(rows, caller_count, rest)?;
    let (_, rest) = named_in(rest)?;
    let fits = head_allowed(image, number, slot);
    Ok((both(both(callers, innermost), fits), rest))
}

/// Returns whether the entry at the front of the bytes has only fields that are allowed, and the
/// bytes after it. Which bytes of outer call frames were passed over is kept.
#[tactic(auto, unfolding(crate::specs::Entries::entry_in))]
pub fn pass_entry<'a>(
    image: &Image,
    bytes: &'a [u8],
    passing: &mut Passing<'a>,
) -> Result<(bool, &'a [u8]), StopReason>
    requires { ArePassed (length image.now.maps) passing.old.frames.items }
    ensures passed { ArePassed (length image.now.maps) passing.new.frames.items }
    ensures read { ReturnsRead (λ x. (x.0, x.1.now)) result (seen (entry_in image.now bytes.now)) }
{
    if bytes.len() < 7 {
        return Err(StopReason::Short);
    }
    let frames = usize::from(bytes[6]);
    if frames == 0 || frames > MAX_CALL_FRAMES {
        return Err(StopReason::Meaningless);
    }
    let number = u32_at(bytes, 0);
    let slot = usize::from(u16_at(bytes, 4));
    pass_rest(image, number, slot, frames - 1, skip(bytes, 7), passing)
}
