//! Each map store by itself, and compared with another.

use super::answers::{E2BIG, answer, value_of};
use crate::tests::rows::holds_at;
use maps::{ArrayMap, HashMapChain, HashMapScan, MapStore};
use std::alloc::Global;

/// The answer to an update with a number as the key and as the value.
fn put(chained: &mut HashMapChain, number: u32) -> u64 {
    let value = u64::from(number).to_le_bytes();
    answer(chained, &number.to_be_bytes(), &value, Some(0))
}

/// Returns whether a number is a key with itself as the value, its delete is done, and it is gone
/// then.
fn is_deleted(chained: &mut HashMapChain, number: u32) -> bool {
    let key = number.to_be_bytes();
    let value = u64::from(number).to_le_bytes();
    value_of(chained, &key) == Some(value.as_slice())
        && answer(chained, &key, &value, None) == 0
        && value_of(chained, &key).is_none()
}

/// Returns how many of the numbers below 65,536 are added, one after another.
fn count_added(chained: &mut HashMapChain) -> usize {
    for number in 0..65_536u32 {
        if put(chained, number) != 0 {
            return number as usize;
        }
    }
    65_536
}

/// Returns how many of them are deleted.
fn count_deleted(chained: &mut HashMapChain) -> usize {
    for number in 0..65_536u32 {
        if !is_deleted(chained, number) {
            return number as usize;
        }
    }
    65_536
}

/// Returns what is counted, and whether one more key finds no room before, and is added and deleted
/// after.
fn filled_and_emptied(chained: &mut HashMapChain) -> (usize, usize, bool) {
    let added = count_added(chained);
    let is_full = put(chained, 65_536) == E2BIG;
    let deleted = count_deleted(chained);
    let is_late = put(chained, 65_536) == 0 && is_deleted(chained, 65_536);
    (added, deleted, is_full && is_late)
}

fn of_full_map(alloc: Global) -> (usize, usize, bool) {
    match HashMapChain::new(alloc, 4, 8, 65_536) {
        Ok(mut chained) => filled_and_emptied(&mut chained),
        Err(_) => (0, 0, false),
    }
}

#[test]
fn full_map_takes_a_key_once_all_are_gone(rt: HostRuntime) {
    let (added, deleted, is_so) = of_full_map(rt.alloc());
    holds_at(
        &rt,
        added == 65_536 && deleted == 65_536 && is_so,
        added,
        deleted,
    );
}

/// The next number of a sequence that repeats late.
fn next(number: u64) -> u64 {
    number
        .wrapping_mul(6_364_136_223_846_793_005)
        .wrapping_add(1_442_695_040_888_963_407)
}

/// The answer to an update with these flags, or to a delete, and then the value of 4 bytes.
fn done<S: MapStore>(
    store: &mut S,
    key: &[u8],
    round: u32,
    flags: Option<u64>,
) -> (u64, Option<[u8; 4]>) {
    let found = answer(store, key, &round.to_le_bytes(), flags);
    match value_of(store, key) {
        Some([a, b, c, d]) => (found, Some([*a, *b, *c, *d])),
        _ => (found, None),
    }
}

/// The flags of the update that a number of the sequence asks for; `None` is a delete.
fn flags_of(number: u64) -> Option<u64> {
    let part = number >> 40 & 7;
    if part < 5 { Some(part & 3) } else { None }
}

/// In how many turns of a long list of updates and deletes both stores answer the same.
fn count_alike(chained: &mut HashMapChain, scanned: &mut HashMapScan) -> usize {
    let mut number = 1;
    for round in 0..20_000u32 {
        number = next(number);
        let key = [(number >> 58) as u8, 5];
        let flags = flags_of(number);
        if done(chained, &key, round, flags) != done(scanned, &key, round, flags) {
            return round as usize;
        }
    }
    20_000
}

fn of_two_stores(alloc: Global) -> usize {
    let (chained, scanned) = (
        HashMapChain::new(alloc, 2, 4, 40),
        HashMapScan::new(alloc, 2, 4, 40),
    );
    match (chained, scanned) {
        (Ok(mut chained), Ok(mut scanned)) => count_alike(&mut chained, &mut scanned),
        _ => 0,
    }
}

#[test]
fn stores_agree_over_a_long_list(rt: HostRuntime) {
    let count = of_two_stores(rt.alloc());
    holds_at(&rt, count == 20_000, 0, count);
}

/// Updates the keys 0 to 39, and returns whether each update was done.
fn has_put_all(chained: &mut HashMapChain) -> bool {
    let mut is_taken = true;
    for index in 0..40u32 {
        let found = answer(chained, &index.to_le_bytes(), &[0; 4], Some(1));
        is_taken = is_taken && found == 0;
    }
    is_taken
}

/// In how many turns of a list of updates an array and a hash map that gets all its keys answer the
/// same.
fn count_alike_of_array(array: &mut ArrayMap, chained: &mut HashMapChain) -> usize {
    if !has_put_all(chained) {
        return 0;
    }
    let mut number = 1;
    for round in 0..2_000u32 {
        number = next(number);
        let key = [(number >> 58) as u8, 0, 0, 0];
        let flags = Some(number >> 40 & 1);
        if done(array, &key, round, flags) != done(chained, &key, round, flags) {
            return round as usize;
        }
    }
    2_000
}

fn of_array(alloc: Global) -> usize {
    let (array, chained) = (
        ArrayMap::new(alloc, 4, 40),
        HashMapChain::new(alloc, 4, 4, 40),
    );
    match (array, chained) {
        (Ok(mut array), Ok(mut chained)) => count_alike_of_array(&mut array, &mut chained),
        _ => 0,
    }
}

#[test]
fn array_agrees_with_a_full_hash_map(rt: HostRuntime) {
    let count = of_array(rt.alloc());
    holds_at(&rt, count == 2_000, 0, count);
}
