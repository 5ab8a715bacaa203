//! Requests to the helpers on maps. None asks the clock.

ghost use Rattle.std.specs.Prelude.{◌≡◌, ◌<◌, length, slice_set};
ghost use Rattle.std.specs.FinMap.{get};
ghost use Rattle.std.proofs.Common.{lit<};
ghost use Rattle.maps.specs.Maps.{map_at, Updated, Deleted};

use isa_model::{Clock, Helper};
use maps::{Answer, Maps, Request, call};

// A clock that is not asked.
#[derive(Drop)]
struct Unasked;

impl Clock for Unasked {
    ghost at = { λ _ _. 0 };

    ghost within = { λ _ _. lit< tt };

    fn now(&mut self) -> u64 {
        0
    }
}

/// The place of a key.
pub fn find(maps: &mut Maps, map: usize, key: &[u8]) -> Option<usize>
    requires map { map < length maps.old }
    requires key_size { length key.now ≡ (map_at maps.old map).row.key_size }
    ensures place { result ≡ get (map_at maps.old map).places key.now }
    ensures maps { maps.new ≡ maps.old }
{
    let request = Request {
        helper: Helper::MapLookupElem,
        map,
        key,
        value: &[],
        flags: 0,
    };
    match call(maps, &request, &mut Unasked) {
        Answer::Value(place) => Some(place),
        Answer::Number(_) => None,
    }
}

/// Writes the value of a key, or adds the key. The answer is 0, or an error.
pub fn update(maps: &mut Maps, map: usize, key: &[u8], value: &[u8], flags: u64) -> u64
    requires map { map < length maps.old }
    requires key_size { length key.now ≡ (map_at maps.old map).row.key_size }
    requires value_size { length value.now ≡ (map_at maps.old map).row.value_size }
    ensures updated { Updated key.now value.now flags result (map_at maps.old map)
        (map_at maps.new map) }
    ensures others { maps.new ≡ slice_set maps.old map (map_at maps.new map) }
{
    let request = Request {
        helper: Helper::MapUpdateElem,
        map,
        key,
        value,
        flags,
    };
    match call(maps, &request, &mut Unasked) {
        Answer::Number(answer) => answer,
        Answer::Value(_) => unreachable!(),
    }
}

/// Removes a key. The answer is 0, or an error.
pub fn delete(maps: &mut Maps, map: usize, key: &[u8]) -> u64
    requires map { map < length maps.old }
    requires key_size { length key.now ≡ (map_at maps.old map).row.key_size }
    ensures deleted { Deleted key.now result (map_at maps.old map) (map_at maps.new map) }
    ensures others { maps.new ≡ slice_set maps.old map (map_at maps.new map) }
{
    let request = Request {
        helper: Helper::MapDeleteElem,
        map,
        key,
        value: &[],
        flags: 0,
    };
    match call(maps, &request, &mut Unasked) {
        Answer::Number(answer) => answer,
        Answer::Value(_) => unreachable!(),
    }
}
