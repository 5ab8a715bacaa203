//! Entries in the bytes of a table.

ghost use Rattle.std.specs.Prelude.{◌≡◌, ◌<◌, Some};
ghost use Rattle.std.specs.Option.{option_map};
ghost use Rattle.isa_model.specs.Code.Limits.{max_call_frames};
ghost use Rattle.table_entries.specs.Entries.{entry_in, entry_of, head_allowed, list_of, named_in, rest_in};
ghost use Rattle.table_entries.specs.Reading.{ReturnsRead, kept};

use crate::frames::{read_callers, read_frame};
use crate::loops::both;
use crate::slices::{skip, u16_at, u32_at};
use crate::stops::StopReason;
use image::Image;
use isa_model::{MAX_CALL_FRAMES, MAX_STEPS};
use stack_state::State;

/// The entries that an entry names, the fall-through first.
#[derive(Clone, Copy, Drop)]
pub enum NamedEntries {
    None,
    One(u32),
    Two(u32, u32),
}

/// Says what an entry says besides its state.
#[derive(Clone, Copy, Drop)]
pub struct EntryHead {
    /// Says how many steps a run makes at most from the state on.
    pub number: u32,
    /// The entries to which its step leads.
    pub named: NamedEntries,
}

/// The entries that are named, and the bytes after them.
#[tactic(auto, unfolding(crate::specs::Entries::named_in))]
pub fn named_in(bytes: &[u8]) -> Result<(NamedEntries, &[u8]), StopReason>
    ensures { ReturnsRead (λ x. (Some (list_of x.0), x.1.now)) result (named_in bytes.now) }
{
    match bytes {
        [] => Err(StopReason::Short),
        [0, rest @ ..] => Ok((NamedEntries::None, rest)),
        [1, rest @ ..] => {
            if rest.len() < 4 {
                return Err(StopReason::Short);
            }
            Ok((NamedEntries::One(u32_at(rest, 0)), skip(rest, 4)))
        }
        [2, rest @ ..] => {
            if rest.len() < 8 {
                return Err(StopReason::Short);
            }
            Ok((
                NamedEntries::Two(u32_at(rest, 0), u32_at(rest, 4)),
                skip(rest, 8),
            ))
        }
        [_, ..] => Err(StopReason::Meaningless),
    }
}

/// Returns whether an entry may have this number, and a state at this slot.
pub fn head_allowed(image: &Image, number: u32, slot: usize) -> bool
    ensures { result ≡ head_allowed image.now number slot }
{
    number != 0 && number <= MAX_STEPS && image.at(slot).is_some()
}

fn head_if(allowed: bool, head: EntryHead) -> Option<EntryHead>
    ensures { result ≡ kept allowed head }
{
    if allowed { Some(head) } else { None }
}

// The call frames, the innermost one last, and the entries that are named.
fn read_rest<'a>(
    image: &Image,
    number: u32,
    caller_count: usize,
    bytes: &'a [u8],
    state: &mut State,
) -> Result<(Option<EntryHead>, &'a [u8]), StopReason>
    requires { caller_count < max_call_frames }
    ensures { ReturnsRead (λ x. (option_map (λ head. entry_of head state.new) x.0, x.1.now)) result
        (rest_in image.now number state.old.slot caller_count bytes.now) }
{
    let rows = image.maps().len();
    let (callers, rest) = read_callers(
        rows,
        caller_count,
        bytes,
        &mut state.callers,
        &mut state.innermost,
    )?;
    let (innermost, rest) = read_frame(rows, caller_count, false, rest, &mut state.innermost)?;
    let (named, rest) = named_in(rest)?;
    let fits = head_allowed(image, number, state.slot);
    let head = head_if(
        both(both(callers, innermost), fits),
        EntryHead { number, named },
    );
    Ok((head, rest))
}

/// The entry that the bytes begin with, and the bytes after it; its state is read into `state`.
/// None: it has a field that is not allowed.
#[tactic(auto, unfolding(crate::specs::Entries::entry_in))]
pub fn read_entry<'a>(
    image: &Image,
    bytes: &'a [u8],
    state: &mut State,
) -> Result<(Option<EntryHead>, &'a [u8]), StopReason>
    ensures { ReturnsRead (λ x. (option_map (λ head. entry_of head state.new) x.0, x.1.now)) result
        (entry_in image.now bytes.now) }
{
    if bytes.len() < 7 {
        return Err(StopReason::Short);
    }
    let frames = usize::from(bytes[6]);
    if frames == 0 || frames > MAX_CALL_FRAMES {
        return Err(StopReason::Meaningless);
    }
    let number = u32_at(bytes, 0);
    state.slot = usize::from(u16_at(bytes, 4));
    read_rest(image, number, frames - 1, skip(bytes, 7), state)
}
