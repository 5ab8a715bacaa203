//! Exports on the maps of an open program, between runs.

ghost use Rattle.std.specs.Prelude.{◌≡◌, ◌≢◌, ◌↔◌, length, None, Some};
ghost use Rattle.std.specs.List.{slice_get};
ghost use Rattle.isa_model.specs.Machine.MapContents.{at_key};
ghost use Rattle.machine.specs.BetweenRuns.{content_at, AnswersUpdate, AnswersDelete, ordered_at};
ghost use Rattle.calls.specs.Crossing.{IsLookUp, IsChange};
ghost use Rattle.calls.specs.OpenSessions.{HoldsOpen, FitsMap, StaysOpen, FitsKey};

use calls::Session;
use calls::map_calls::{Changed, delete_key, key_at_rank, look_up_key, update_key};
use calls::statuses::{ABSENT, OK, WRONG};
use std::alloc::Global;

/// Looks a key up in a map of an open program. Key and value have the sizes of the map's row.
#[unsafe(no_mangle)]
pub extern "C" fn xdpvm_lookup(
    alloc: Global,
    session: &mut Session,
    map: usize,
    key: &[u8],
    value: &mut [u8],
) -> u32
    ensures found { result ≡ OK → HoldsOpen session.old.held
        (λ m. at_key key.now (content_at m map) ≡ Some value.new) }
    ensures absent { result ≡ ABSENT → HoldsOpen session.old.held
        (λ m. at_key key.now (content_at m map) ≡ None) }
    ensures fits { (result ≢ WRONG) ↔ HoldsOpen session.old.held
        (λ m. FitsMap m map (length key.now) (length value.old)) }
    ensures session_kept { session.new.held ≡ session.old.held }
    ensures kept { result ≢ OK → value.new ≡ value.old }
    ensures status { IsLookUp result }
{
    look_up_key(alloc, session, map, key, value)
}

/// Writes the value of a key in a map of an open program, or adds the key, as the helper of a
/// program does. Key and value have the sizes of the map's row.
#[unsafe(no_mangle)]
pub extern "C" fn xdpvm_update(
    alloc: Global,
    session: &mut Session,
    map: usize,
    key: &[u8],
    value: &[u8],
    flags: u64,
    out: &mut Changed,
) -> u32
    ensures updated { result ≡ OK → StaysOpen session.old.held session.new.held
        (AnswersUpdate map key.now value.now flags out.new.answer) }
    ensures fits { (result ≢ WRONG) ↔ HoldsOpen session.old.held
        (λ m. FitsMap m map (length key.now) (length value.now)) }
    ensures session_kept { result ≢ OK → session.new.held ≡ session.old.held }
    ensures kept { result ≢ OK → out.new ≡ out.old }
    ensures status { IsChange result }
{
    update_key(alloc, session, map, key, value, flags, out)
}

/// Removes a key from a map of an open program, as the helper of a program does. The key has the
/// size of the map's row.
#[unsafe(no_mangle)]
pub extern "C" fn xdpvm_delete(
    alloc: Global,
    session: &mut Session,
    map: usize,
    key: &[u8],
    out: &mut Changed,
) -> u32
    ensures deleted { result ≡ OK → StaysOpen session.old.held session.new.held
        (AnswersDelete map key.now out.new.answer) }
    ensures fits { (result ≢ WRONG)
        ↔ HoldsOpen session.old.held (λ m. FitsKey m map (length key.now)) }
    ensures session_kept { result ≢ OK → session.new.held ≡ session.old.held }
    ensures kept { result ≢ OK → out.new ≡ out.old }
    ensures status { IsChange result }
{
    delete_key(alloc, session, map, key, out)
}

/// The key at a rank, from 0, in the order of the report, with its value: of an array by its index,
/// of a hash map by the bytes of the keys. Key and value have the sizes of the map's row.
#[unsafe(no_mangle)]
pub extern "C" fn xdpvm_next(
    alloc: Global,
    session: &mut Session,
    map: usize,
    rank: usize,
    key: &mut [u8],
    value: &mut [u8],
) -> u32
    ensures copied { result ≡ OK → HoldsOpen session.old.held
        (λ m. slice_get (ordered_at m map) rank ≡ Some (key.new, value.new)) }
    ensures absent { result ≡ ABSENT → HoldsOpen session.old.held
        (λ m. slice_get (ordered_at m map) rank ≡ None) }
    ensures fits { (result ≢ WRONG) ↔ HoldsOpen session.old.held
        (λ m. FitsMap m map (length key.old) (length value.old)) }
    ensures session_kept { session.new.held ≡ session.old.held }
    ensures key_kept { result ≢ OK → key.new ≡ key.old }
    ensures value_kept { result ≢ OK → value.new ≡ value.old }
    ensures status { IsLookUp result }
{
    key_at_rank(alloc, session, map, rank, key, value)
}
