//! Loads and stores through frame pointers.

ghost use Rattle.std.specs.Prelude.{◌≡◌, ◌+◌, ◌%◌, ◌<◌, ◌≤◌, ◌+ℤ◌};
ghost use Rattle.isa_model.specs.Code.Limits.{stack_size};
ghost use Rattle.isa_model.specs.Code.Sizes.{size_bytes, unsigned_size, size_extension};
ghost use Rattle.transfer.specs.StackAccesses.{FindsFramePlace, IsNumberLoad, IsStackLoad, IsSignedLoad, StackLoads, StackLoadsSigned, whole_or, store_refusal, IsLeft, StackStores};
ghost use Rattle.stack_state.specs.Meaning.{depth};

use crate::refusals::Refusal;
use isa_model::{Extension, SignedSize, Size};
use reg_state::{Domain, Kind, Scalar};
use stack_state::{StackState, State, stack_place};

/// The byte of a live call frame to which the offsets of a frame pointer and an instruction lead.
pub fn frame_place(state: &State, frame: u8, offset: i32, by: i16, size: Size) -> Option<usize>
    ensures { FindsFramePlace state.now frame (offset +ℤ by) size result }
{
    match state.stack_of(frame) {
        Some(_) => stack_place(offset, by, size),
        None => None,
    }
}

// ---- loads

/// The size of a sign-extending load.
pub fn unsigned_size(size: SignedSize) -> Size
    ensures { result ≡ unsigned_size size }
{
    match size {
        SignedSize::S8 => Size::U8,
        SignedSize::S16 => Size::U16,
        SignedSize::S32 => Size::U32,
    }
}

fn size_extension(size: SignedSize) -> Extension
    ensures { result ≡ size_extension size }
{
    match size {
        SignedSize::S8 => Extension::Full8,
        SignedSize::S16 => Extension::Full16,
        SignedSize::S32 => Extension::Full32,
    }
}

/// The number that bytes spell.
fn number(stack: &StackState, at: usize, size: Size) -> Option<Kind>
    requires inside { at < stack_size }
    requires in_slot { at % 8 + size_bytes size ≤ 8 }
    ensures { IsNumberLoad stack.now.slots at size result }
{
    match stack.load(at, size) {
        Some(numbers) => Some(Kind::Number(numbers)),
        None => None,
    }
}

/// Returns the kind that a load of the bytes puts into its register.
fn loaded(stack: &StackState, at: usize, size: Size) -> Option<Kind>
    requires inside { at < stack_size }
    requires in_slot { at % 8 + size_bytes size ≤ 8 }
    ensures { IsStackLoad stack.now.slots at size result }
{
    match size {
        Size::U64 => stack.fill(at / 8),
        _ => number(stack, at, size),
    }
}

/// Returns the kind that a load of the bytes with the sign extended puts into its register.
fn loaded_signed(stack: &StackState, at: usize, size: SignedSize) -> Option<Kind>
    requires inside { at < stack_size }
    requires in_slot { at % 8 + size_bytes (unsigned_size size) ≤ 8 }
    ensures { IsSignedLoad stack.now.slots at size result }
{
    match stack.load(at, unsigned_size(size)) {
        Some(numbers) => Some(Kind::Number(Scalar::sign_extend(size_extension(size), numbers))),
        None => None,
    }
}

/// The result of a load (LDX MEM) through a frame pointer.
pub fn stack_load(
    state: &State,
    frame: u8,
    offset: i32,
    by: i16,
    size: Size,
) -> Result<Kind, Refusal>
    ensures { StackLoads state.now frame (offset +ℤ by) size result }
{
    let Some(stack) = state.stack_of(frame) else {
        return Err(Refusal::StackPlace);
    };
    let Some(at) = stack_place(offset, by, size) else {
        return Err(Refusal::StackPlace);
    };
    match loaded(stack, at, size) {
        Some(kind) => Ok(kind),
        None => Err(Refusal::StackBytes),
    }
}

/// The result of a sign-extending load (LDX MEMSX) through a frame pointer.
pub fn stack_load_signed(
    state: &State,
    frame: u8,
    offset: i32,
    by: i16,
    size: SignedSize,
) -> Result<Kind, Refusal>
    ensures { StackLoadsSigned state.now frame (offset +ℤ by) size result }
{
    let Some(stack) = state.stack_of(frame) else {
        return Err(Refusal::StackPlace);
    };
    let Some(at) = stack_place(offset, by, unsigned_size(size)) else {
        return Err(Refusal::StackPlace);
    };
    match loaded_signed(stack, at, size) {
        Some(kind) => Ok(kind),
        None => Err(Refusal::StackBytes),
    }
}

// ---- stores

/// The refusal, unless the access has 8 bytes.
fn whole_or(refusal: Refusal, size: Size) -> Option<Refusal>
    ensures { result ≡ whole_or refusal size }
{
    match size {
        Size::U64 => None,
        _ => Some(refusal),
    }
}

/// Returns why a value is not stored in a call frame.
fn store_refusal(state: &State, frame: u8, size: Size, source: Kind) -> Option<Refusal>
    ensures { result ≡ store_refusal state.now frame size source }
{
    match source {
        Kind::Unset => Some(Refusal::PointerStored),
        Kind::Number(_) => None,
        Kind::Stack { .. } => {
            if usize::from(frame) == state.callers.len() {
                whole_or(Refusal::PointerStored, size)
            } else {
                Some(Refusal::PointerStored)
            }
        }
        Kind::MapValueOrNull { .. } => whole_or(Refusal::NullNotTested, size),
        _ => whole_or(Refusal::PointerStored, size),
    }
}

/// Writes a value into bytes of a live call frame.
fn write(state: &mut State, frame: u8, at: usize, size: Size, source: Kind)
    requires live { frame < depth state.old }
    requires inside { at < stack_size }
    requires in_slot { at % 8 + size_bytes size ≤ 8 }
    ensures { IsLeft state.old frame at size source state.new }
{
    match size {
        Size::U64 => state.spill(frame, at / 8, source),
        _ => match source {
            Kind::Number(numbers) => state.store_number(frame, at, size, numbers),
            _ => state.store(frame, at, size),
        },
    }
}

/// A store (ST and STX) through a frame pointer. After a refusal the state is as before.
pub fn stack_store(
    state: &mut State,
    frame: u8,
    offset: i32,
    by: i16,
    size: Size,
    source: Kind,
) -> Result<(), Refusal>
    ensures { StackStores state.old frame (offset +ℤ by) size source state.new result }
{
    let Some(at) = frame_place(state, frame, offset, by, size) else {
        return Err(Refusal::StackPlace);
    };
    if let Some(refusal) = store_refusal(state, frame, size, source) {
        return Err(refusal);
    }
    write(state, frame, at, size, source);
    Ok(())
}
