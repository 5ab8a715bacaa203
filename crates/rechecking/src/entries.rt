//! Entries tested, one by one.

ghost use Rattle.std.specs.Prelude.{◌≡◌, ◌<◌, ℕ, length, Some, None, IsSome, IsTrue, IfOk, IfErr, IfSome, Ok, true, false};
ghost use Rattle.isa_model.specs.Code.Instructions.{Program};
ghost use Rattle.stack_state.specs.declared.states.State.{State};
ghost use Rattle.stack_state.specs.Meaning.{Covers};
ghost use Rattle.table_entries.specs.Entries.{Entry, list_of};
ghost use Rattle.table_entries.specs.Tables.{entry_at, count_of};
ghost use Rattle.table_entries.specs.Growing.{MayGrow, Grows, AllThere};
ghost use Rattle.table_entries.specs.KnownBytes.{AreSpelled};
ghost use Rattle.table_entries.specs.declared.known_bytes.KnownBytes.{KnownBytes as TheBytes};
ghost use Rattle.rechecking.specs.Tables.{EntryAt, IsClosedEntry};
ghost use Rattle.rechecking.specs.Checking.{Enters, EntersClearly, FollowsBy, Covering, CoversClearly, AllFineBefore, IsRefusedAt, IsFirstRefused};
ghost use Rattle.rechecking.specs.KnownEntries.{HasEntry, IsKnownEntry, IsKnownSpelled};

use crate::errors::TableError;
use crate::untouched::{kept_after, parts_kept};
use image::Image;
use stack_state::State;
use state_cover::covers;
use table_entries::{EntryHead, Growing, KnownBytes, NamedEntries, Table};
use transfer::{Ways, step_in_place};

/// An entry, by its index, whose state is in `state` or in `room` already: it is not read again.
#[derive(Clone, Copy, Drop)]
pub enum Known {
    None,
    First(usize, EntryHead),
    Second(usize, EntryHead),
}

/// Returns the entry after `state` and `room` were swapped.
fn swapped(known: Known) -> Known
    ensures known { (p : Program) (t : EntryAt) (a b : State) → IsKnownEntry p t a b known
        → IsKnownEntry p t b a result }
    ensures spelled { (rows : ℕ) (bytes : TheBytes) (a b : State)
        → IsKnownSpelled rows bytes a b known → IsKnownSpelled rows bytes b a result }
{
    match known {
        Known::None => Known::None,
        Known::First(index, head) => Known::Second(index, head),
        Known::Second(index, head) => Known::First(index, head),
    }
}

/// Returns whether the number of the entry of that index is below this one. Its state is not read.
fn is_smaller(table: &Table, index: usize, number: u32) -> bool
    ensures yes { IsTrue result → (p : Program) (e : Entry) → entry_at p table.now index ≡ Some e
        → e.number < number }
    ensures no { (p : Program) (e : Entry) → entry_at p table.now index ≡ Some e
        → e.number < number → IsTrue result }
{
    match table.number(index) {
        None => false,
        Some(there) => there < number,
    }
}

/// Reads the entry of that index, if it covers a state; its own state is read into `room`.
fn read_covering(
    image: &Image,
    table: &Table,
    index: usize,
    state: &State,
    room: &mut State,
) -> Option<EntryHead>
    ensures has { IfSome result
        (λ head. HasEntry image.now (entry_at image.now table.now) index head room.new) }
    ensures covers { IfSome result
        (λ _. Covering (entry_at image.now table.now) index state.now) }
    ensures none { result ≡ None
        → CoversClearly (entry_at image.now table.now) index state.now → ⊥ }
{
    let head = table.read(image, index, room)?;
    if covers(room, state) {
        Some(head)
    } else {
        None
    }
}

/// Returns whether the entry of that index, which is placed, covers a state, and its number is
/// smaller, tested first. Where its bytes spell the state, or that without what they say nothing of
/// in the innermost frame, the state becomes the entry's; else that is read into `room`.
fn enters_placed<'a>(
    image: &Image,
    table: &Table<'a>,
    number: u32,
    index: usize,
    state: &mut State,
    room: &mut State,
    bytes: &mut KnownBytes<'a>,
) -> Option<Known>
    requires { AreSpelled (length image.now.maps) bytes.old state.old }
    ensures spelled { IfSome result
        (IsKnownSpelled (length image.now.maps) bytes.new state.new room.new) }
    ensures yes { IfSome result
        (λ _. Enters (entry_at image.now table.now) number index state.old) }
    ensures known { IfSome result
        (IsKnownEntry image.now (entry_at image.now table.now) state.new room.new) }
    ensures none { result ≡ None
        → EntersClearly (entry_at image.now table.now) number index state.old → ⊥ }
{
    if !is_smaller(table, index, number) {
        return None;
    }
    if let Some(head) = table.head_of(image, index, state, bytes) {
        return Some(Known::First(index, head));
    }
    if let Some(weaker) = table.head_of_weaker(image, index, state, bytes) {
        return Some(Known::First(index, weaker));
    }
    let head = read_covering(image, table, index, state, room)?;
    bytes.forget();
    Some(Known::Second(index, head))
}

/// The next entry to be placed, if it has this index, and its bytes spell the state, or else the
/// state without what they say nothing of in the innermost frame, and its number is smaller.
fn take_next<'a>(
    image: &Image,
    growing: &mut Growing<'a>,
    number: u32,
    index: usize,
    state: &mut State,
    bytes: &mut KnownBytes<'a>,
) -> Option<EntryHead>
    requires may { MayGrow image.now growing.old }
    requires spelled { AreSpelled (length image.now.maps) bytes.old state.old }
    ensures spelled { AreSpelled (length image.now.maps) bytes.new state.new }
    ensures grows { Grows image.now growing.old growing.new }
    ensures left { result ≡ None → state.new ≡ state.old }
    ensures covers { IfSome result (λ _. (p : Program) → Covers p state.new state.old) }
    ensures number { IfSome result (λ head. head.number < number) }
    ensures entry { IfSome result (λ head. HasEntry image.now
        (entry_at image.now growing.new.table) index head state.new) }
{
    match growing.take(image, index, state, bytes) {
        Some(next) => {
            if next.number < number {
                Some(next)
            } else {
                None
            }
        }
        None => growing.take_weaker(image, number, index, state, bytes),
    }
}

/// Returns whether the entry of that index covers a state, and its number is smaller; it is placed
/// if it is not yet. The state becomes the entry's, or that is read into `room`.
fn enters<'a>(
    image: &Image,
    growing: &mut Growing<'a>,
    number: u32,
    index: usize,
    state: &mut State,
    room: &mut State,
    bytes: &mut KnownBytes<'a>,
) -> Option<Known>
    requires may { MayGrow image.now growing.old }
    requires spelled { AreSpelled (length image.now.maps) bytes.old state.old }
    ensures grows { Grows image.now growing.old growing.new }
    ensures spelled { IfSome result
        (IsKnownSpelled (length image.now.maps) bytes.new state.new room.new) }
    ensures yes { IfSome result
        (λ _. Enters (entry_at image.now growing.new.table) number index state.old) }
    ensures known { IfSome result
        (IsKnownEntry image.now (entry_at image.now growing.new.table) state.new room.new) }
    ensures none { result ≡ None
        → EntersClearly (entry_at image.now growing.new.table) number index state.old → ⊥ }
{
    if let Some(next) = take_next(image, growing, number, index, state, bytes) {
        return Some(Known::First(index, next));
    }
    let _there = growing.reach(image, index);
    enters_placed(image, growing.placed(), number, index, state, room, bytes)
}

/// Returns whether an entry names as many entries as it has successors, and each covers its
/// successor. The first successor's entry is then the known one.
fn follows<'a>(
    image: &Image,
    growing: &mut Growing<'a>,
    head: EntryHead,
    ways: Ways,
    state: &mut State,
    other: &mut State,
    room: &mut State,
    bytes: &mut KnownBytes<'a>,
) -> Option<Known>
    requires may { MayGrow image.now growing.old }
    requires spelled { AreSpelled (length image.now.maps) bytes.old state.old }
    requires others { ways ≡ Ways.Two → AreSpelled (length image.now.maps) bytes.old other.old }
    ensures grows { Grows image.now growing.old growing.new }
    ensures spelled { IfSome result
        (IsKnownSpelled (length image.now.maps) bytes.new state.new room.new) }
    ensures yes { IfSome result
        (λ _. FollowsBy (Enters (entry_at image.now growing.new.table) head.number)
        (list_of head.named) ways state.old other.old) }
    ensures known { IfSome result
        (IsKnownEntry image.now (entry_at image.now growing.new.table) state.new room.new) }
    ensures none { result ≡ None
        → FollowsBy (EntersClearly (entry_at image.now growing.new.table) head.number)
        (list_of head.named) ways state.old other.old → ⊥ }
{
    let number = head.number;
    match (head.named, ways) {
        (NamedEntries::None, Ways::None) => Some(Known::None),
        (NamedEntries::One(first), Ways::One) => {
            enters(image, growing, number, first as usize, state, room, bytes)
        }
        (NamedEntries::Two(first, second), Ways::Two) => {
            let others = &mut bytes.copy();
            enters(image, growing, number, second as usize, other, room, others)?;
            enters(image, growing, number, first as usize, state, room, bytes)
        }
        _ => None,
    }
}

/// Tests the entry of that index, whose state was read into `state`: P7 and P8.
///
/// `head` is what the entry says besides. The step of `state` leaves its successors in `state` and
/// `other`. `growing` is the table with the entries that were placed; the ones that are named here
/// are placed too. The result names an entry that is known afterwards: the state of the first is
/// then in `state`, that of the second in `room`. `bytes` spell parts of the state, and then of the
/// known entry's.
fn test_read_entry<'a>(
    image: &Image,
    growing: &mut Growing<'a>,
    index: usize,
    head: EntryHead,
    state: &mut State,
    other: &mut State,
    room: &mut State,
    bytes: &mut KnownBytes<'a>,
) -> Result<Known, TableError>
    requires may { MayGrow image.now growing.old }
    requires spelled { AreSpelled (length image.now.maps) bytes.old state.old }
    requires there { HasEntry image.now (entry_at image.now growing.old.table)
        index head state.old }
    ensures spelled { IfOk result
        (IsKnownSpelled (length image.now.maps) bytes.new state.new room.new) }
    ensures grows { Grows image.now growing.old growing.new }
    ensures fine { IfOk result (λ _. (e : Entry)
        → entry_at image.now growing.new.table index ≡ Some e
        → IsClosedEntry image.now (entry_at image.now growing.new.table) e) }
    ensures known { IfOk result
        (IsKnownEntry image.now (entry_at image.now growing.new.table) state.new room.new) }
    ensures refused { IfErr result
        (IsRefusedAt image.now (entry_at image.now growing.new.table) index) }
{
    let parts = parts_kept(image, state);
    let ways = match step_in_place(image, state, other) {
        Ok(ways) => ways,
        Err(refusal) => return Err(TableError::Step(index, refusal)),
    };
    let kept = kept_after(ways, parts);
    bytes.keep(kept.frames, kept.slots);
    match follows(image, growing, head, ways, state, other, room, bytes) {
        Some(known) => Ok(known),
        None => Err(TableError::Successor(index)),
    }
}

/// Tests an entry, which is read unless it is known: P7 and P8. Returns which entry is known after
/// it. The bytes spell parts of the known entry's state.
fn test_entry<'a>(
    image: &Image,
    growing: &mut Growing<'a>,
    index: usize,
    known: Known,
    state: &mut State,
    other: &mut State,
    room: &mut State,
    bytes: &mut KnownBytes<'a>,
) -> Result<Known, TableError>
    requires may { MayGrow image.now growing.old }
    requires spelled { IsKnownSpelled (length image.now.maps) bytes.old state.old room.old known }
    requires there { IsSome (entry_at image.now growing.old.table index) }
    requires known { IsKnownEntry image.now (entry_at image.now growing.old.table)
        state.old room.old known }
    ensures spelled { IfOk result
        (IsKnownSpelled (length image.now.maps) bytes.new state.new room.new) }
    ensures grows { Grows image.now growing.old growing.new }
    ensures fine { IfOk result (λ _. (e : Entry)
        → entry_at image.now growing.new.table index ≡ Some e
        → IsClosedEntry image.now (entry_at image.now growing.new.table) e) }
    ensures known { IfOk result
        (IsKnownEntry image.now (entry_at image.now growing.new.table) state.new room.new) }
    ensures refused { IfErr result
        (IsRefusedAt image.now (entry_at image.now growing.new.table) index) }
{
    match known {
        Known::First(there, head) if there == index => {
            test_read_entry(image, growing, index, head, state, other, room, bytes)
        }
        Known::Second(there, head) if there == index => {
            match test_read_entry(image, growing, index, head, room, other, state, bytes) {
                Ok(known) => Ok(swapped(known)),
                Err(error) => Err(error),
            }
        }
        _ => {
            let Some(head) = growing.placed().read(image, index, state) else {
                unreachable!()
            };
            bytes.forget();
            test_read_entry(image, growing, index, head, state, other, room, bytes)
        }
    }
}

/// Tests each entry, from the first on. False: one of them cannot be placed.
pub fn test_all(image: &Image, growing: &mut Growing) -> Result<bool, TableError>
    requires may { MayGrow image.now growing.old }
    requires there { AllThere image.now growing.old }
    ensures grows { Grows image.now growing.old growing.new }
    ensures fine { result ≡ Ok true → AllFineBefore image.now
        (entry_at image.now growing.new.table) growing.new.count }
    ensures short { result ≡ Ok false → count_of growing.old.table < growing.old.count }
    ensures refused { IfErr result
        (IsFirstRefused image.now (entry_at image.now growing.new.table)) }
{
    let mut state = State::start();
    let mut other = State::start();
    let mut room = State::start();
    let mut known = Known::None;
    let mut bytes = KnownBytes::none();
    for index in 0..growing.count() {
        if !growing.reach(image, index) {
            return Ok(false);
        }
        known = test_entry(
            image, growing, index, known, &mut state, &mut other, &mut room, &mut bytes,
        )?;
    }
    Ok(true)
}
