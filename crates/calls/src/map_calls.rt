//! Calls on the maps of an open program, between runs.

ghost use Rattle.std.specs.Prelude.{◌≡◌, ◌≢◌, ◌↔◌, length, true, None, Some};
ghost use Rattle.std.specs.List.{slice_get};
ghost use Rattle.isa_model.specs.Machine.MapContents.{at_key};
ghost use Rattle.machine.specs.BetweenRuns.{content_at, ordered_at, AnswersUpdate, AnswersDelete, CopiesKeyValue};
ghost use Rattle.calls.specs.Crossing.{IsLookUp, IsChange};
ghost use Rattle.calls.specs.OpenSessions.{HoldsOpen, StaysOpen, FitsKey, FitsMap};

use crate::sessions::Session;
use crate::statuses::{ABSENT, OK, WRONG};
use machine::Machine;
use std::alloc::Global;

/// The answer to an update or a delete: 0, or a negative error in 64 bits, as for the helpers of a
/// program, and then nothing has changed.
#[repr(C)]
#[derive(Clone, Copy, Drop)]
pub struct Changed {
    pub answer: u64,
}

// Whether there is a map with this index, and its keys have this size.
fn has_map_with_key_size(machine: &Machine, map: usize, key_size: usize) -> bool
    ensures { (result ≡ true) ↔ FitsKey machine.now map key_size }
{
    map < machine.map_count() && key_size == usize::from(machine.map_row(map).key_size)
}

// Whether there is a map with this index, and its keys and values have these sizes.
fn has_map_with_sizes(machine: &Machine, map: usize, key_size: usize, value_size: usize) -> bool
    ensures { (result ≡ true) ↔ FitsMap machine.now map key_size value_size }
{
    has_map_with_key_size(machine, map, key_size)
        && value_size == machine.map_row(map).value_size as usize
}

fn look_up(machine: &Machine, map: usize, key: &[u8], value: &mut [u8]) -> u32
    ensures found { result ≡ OK → at_key key.now (content_at machine.now map) ≡ Some value.new }
    ensures absent { result ≡ ABSENT → at_key key.now (content_at machine.now map) ≡ None }
    ensures fits { (result ≢ WRONG)
        ↔ FitsMap machine.now map (length key.now) (length value.old) }
    ensures kept { result ≢ OK → value.new ≡ value.old }
    ensures status { IsLookUp result }
{
    if !has_map_with_sizes(machine, map, key.len(), value.len()) {
        return WRONG;
    }
    match machine.lookup(map, key) {
        Some(found) => {
            value.copy_from_slice(found);
            OK
        }
        None => ABSENT,
    }
}

/// Looks a key up in a map of an open program. Key and value have the sizes of the map's row.
pub fn look_up_key(
    alloc: Global,
    session: &mut Session,
    map: usize,
    key: &[u8],
    value: &mut [u8],
) -> u32
    ensures found { result ≡ OK → HoldsOpen session.old.held
        (λ m. at_key key.now (content_at m map) ≡ Some value.new) }
    ensures absent { result ≡ ABSENT → HoldsOpen session.old.held
        (λ m. at_key key.now (content_at m map) ≡ None) }
    ensures fits { (result ≢ WRONG) ↔ HoldsOpen session.old.held
        (λ m. FitsMap m map (length key.now) (length value.old)) }
    ensures session_kept { session.new.held ≡ session.old.held }
    ensures kept { result ≢ OK → value.new ≡ value.old }
    ensures status { IsLookUp result }
{
    let Some(machine) = session.take(alloc) else {
        return WRONG;
    };
    let status = look_up(&machine, map, key, value);
    session.put(machine);
    status
}

/// Writes the value of a key in a map of an open program, or adds the key, as the helper of a
/// program does. Key and value have the sizes of the map's row.
pub fn update_key(
    alloc: Global,
    session: &mut Session,
    map: usize,
    key: &[u8],
    value: &[u8],
    flags: u64,
    out: &mut Changed,
) -> u32
    ensures updated { result ≡ OK → StaysOpen session.old.held session.new.held
        (AnswersUpdate map key.now value.now flags out.new.answer) }
    ensures fits { (result ≢ WRONG) ↔ HoldsOpen session.old.held
        (λ m. FitsMap m map (length key.now) (length value.now)) }
    ensures session_kept { result ≢ OK → session.new.held ≡ session.old.held }
    ensures kept { result ≢ OK → out.new ≡ out.old }
    ensures status { IsChange result }
{
    let Some(mut machine) = session.take(alloc) else {
        return WRONG;
    };
    if !has_map_with_sizes(&machine, map, key.len(), value.len()) {
        session.put(machine);
        return WRONG;
    }
    let answer = machine.update(map, key, value, flags);
    session.put(machine);
    *out = Changed { answer };
    OK
}

/// Removes a key from a map of an open program, as the helper of a program does. The key has the
/// size of the map's row.
pub fn delete_key(
    alloc: Global,
    session: &mut Session,
    map: usize,
    key: &[u8],
    out: &mut Changed,
) -> u32
    ensures deleted { result ≡ OK → StaysOpen session.old.held session.new.held
        (AnswersDelete map key.now out.new.answer) }
    ensures fits { (result ≢ WRONG)
        ↔ HoldsOpen session.old.held (λ m. FitsKey m map (length key.now)) }
    ensures session_kept { result ≢ OK → session.new.held ≡ session.old.held }
    ensures kept { result ≢ OK → out.new ≡ out.old }
    ensures status { IsChange result }
{
    let Some(mut machine) = session.take(alloc) else {
        return WRONG;
    };
    if !has_map_with_key_size(&machine, map, key.len()) {
        session.put(machine);
        return WRONG;
    }
    let answer = machine.delete(map, key);
    session.put(machine);
    *out = Changed { answer };
    OK
}

// Copies the key at a rank with its value, and returns the status.
fn copy(machine: &mut Machine, map: usize, rank: usize, key: &mut [u8], value: &mut [u8]) -> u32
    ensures copied { result ≡ OK → slice_get (ordered_at machine.old map) rank
        ≡ Some (key.new, value.new) }
    ensures absent { result ≡ ABSENT → slice_get (ordered_at machine.old map) rank ≡ None }
    ensures fits { (result ≢ WRONG)
        ↔ FitsMap machine.old map (length key.old) (length value.old) }
    ensures same { machine.new ≡ machine.old }
    ensures key_kept { result ≢ OK → key.new ≡ key.old }
    ensures value_kept { result ≢ OK → value.new ≡ value.old }
    ensures status { IsLookUp result }
{
    if !has_map_with_sizes(machine, map, key.len(), value.len()) {
        return WRONG;
    }
    if machine.copy_key_value(map, rank, key, value) {
        OK
    } else {
        ABSENT
    }
}

/// The key at a rank, from 0, in the order of the report, with its value: of an array by its index,
/// of a hash map by the bytes of the keys. Key and value have the sizes of the map's row.
pub fn key_at_rank(
    alloc: Global,
    session: &mut Session,
    map: usize,
    rank: usize,
    key: &mut [u8],
    value: &mut [u8],
) -> u32
    ensures copied { result ≡ OK → HoldsOpen session.old.held
        (λ m. slice_get (ordered_at m map) rank ≡ Some (key.new, value.new)) }
    ensures absent { result ≡ ABSENT → HoldsOpen session.old.held
        (λ m. slice_get (ordered_at m map) rank ≡ None) }
    ensures fits { (result ≢ WRONG) ↔ HoldsOpen session.old.held
        (λ m. FitsMap m map (length key.old) (length value.old)) }
    ensures session_kept { session.new.held ≡ session.old.held }
    ensures key_kept { result ≢ OK → key.new ≡ key.old }
    ensures value_kept { result ≢ OK → value.new ≡ value.old }
    ensures status { IsLookUp result }
{
    let Some(mut machine) = session.take(alloc) else {
        return WRONG;
    };
    let status = copy(&mut machine, map, rank, key, value);
    session.put(machine);
    status
}
