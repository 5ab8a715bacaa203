//! Updates, deletes and look-ups on any map store, and their answers.

use maps::{MapStore, delete, lookup, update};

pub const E2BIG: u64 = 0xffff_ffff_ffff_fff9;

/// This is no answer of a store: a key or a value does not have the map's size.
pub const WRONG_SIZE: u64 = 1;

/// The answer to an update with these flags, or to a delete if there are none.
pub fn answer<S: MapStore>(store: &mut S, key: &[u8], value: &[u8], flags: Option<u64>) -> u64 {
    let row = store.row();
    if key.len() != usize::from(row.key_size) || value.len() != row.value_size as usize {
        return WRONG_SIZE;
    }
    match flags {
        Some(flags) => update(store, key, value, flags),
        None => delete(store, key),
    }
}

/// The map value of a key, if there is one; a key of another size than the map's has none.
pub fn value_of<'a, S: MapStore>(store: &'a S, key: &[u8]) -> Option<&'a [u8]> {
    if key.len() != usize::from(store.row().key_size) {
        return None;
    }
    lookup(store, key)
}
