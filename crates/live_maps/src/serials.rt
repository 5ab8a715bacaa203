//! The serials of all maps' values, by map and place.

ghost use Rattle.std.specs.Prelude.{◌≡◌, ◌<◌, ◌^◌, ℕ, length, IfOk, IfSome, Some, None, slice_set, vec_len, vec_capacity};
ghost use Rattle.std.specs.List.{position};
ghost use Rattle.live_maps.specs.PlaceOrders.{AreFresh, AreOrdersOf, ArePlacesBelow, given_now, kept_at, serials_in, since_in, taken_now, with_since};
ghost use Rattle.live_maps.specs.Giving.{GivesSerial, TakesSerial};
ghost use Rattle.live_maps.specs.Live.{serial_in, serials_at, has_serial};
ghost use Rattle.live_maps.specs.Numbering.{AreDistinct};

use crate::place_serials::PlaceSerials;
use maps::Maps;
use std::alloc::{AllocError, Global};

/// The serials of all maps' values, in each map from 0 on.
pub fn serials_for(alloc: Global, maps: &Maps) -> Result<Vec<PlaceSerials>, AllocError>
    ensures room { IfOk result (λ all. vec_capacity all ≡ length maps.now) }
    ensures kept { IfOk result (λ all. AreOrdersOf maps.now all.items) }
{
    let mut all = Vec::with_capacity(alloc, maps.count())?;
    for m in 0..maps.count() {
        all.push_reserved(PlaceSerials::new(alloc, maps, m)?);
    }
    Ok(all)
}

/// The serial at a place of a map.
pub fn serial_at(all: &Vec<PlaceSerials>, index: usize, place: usize) -> Option<u64>
    requires index { index < vec_len all.now }
    requires distinct { AreDistinct (kept_at all.now.items index).order }
    requires place { place < length (serials_at (serials_in all.now.items) index) }
    ensures { result ≡ serial_in (serials_at (serials_in all.now.items) index) place }
{
    all[index].at(place)
}

/// The place of a map that has a serial, which no two of its places have. None if no place has it,
/// or there is no map with this index.
pub fn find_serial(all: &Vec<PlaceSerials>, index: usize, serial: u64) -> Option<usize>
    requires distinct { index < vec_len all.now → AreDistinct (kept_at all.now.items index).order }
    requires within { index < vec_len all.now → ArePlacesBelow
        (length (kept_at all.now.items index).since) (kept_at all.now.items index).order }
    requires once { (p q : ℕ)
        → serial_in (serials_at (serials_in all.now.items) index) p ≡ Some serial
        → serial_in (serials_at (serials_in all.now.items) index) q ≡ Some serial → p ≡ q }
    ensures { result
        ≡ position (has_serial serial) (serials_at (serials_in all.now.items) index) }
{
    if index < all.len() {
        all[index].find(serial)
    } else {
        None
    }
}

// Gives a place of a map a serial.
fn give_serial(all: &mut Vec<PlaceSerials>, index: usize, place: usize, serial: u64)
    requires index { index < vec_len all.old }
    requires place { place < length (serials_at (serials_in all.old.items) index) }
    ensures given { serials_in all.new.items ≡ slice_set (serials_in all.old.items) index
        (slice_set (serials_at (serials_in all.old.items) index) place (Some serial)) }
    ensures kept { all.new.items ≡ slice_set all.old.items index
        (with_since (kept_at all.old.items index) place
        (given_now serial (since_in (kept_at all.old.items index).since place))) }
    ensures room { vec_capacity all.new ≡ vec_capacity all.old }
{
    all[index].give(place, serial);
}

/// Gives a place of a map the next serial, if there is such a place. Returns the serial that is
/// next then.
pub fn give_next(all: &mut Vec<PlaceSerials>, index: usize, place: Option<usize>, next: u64) -> u64
    requires index { index < vec_len all.old }
    requires place { IfSome place
        (λ p. p < length (serials_at (serials_in all.old.items) index)) }
    requires next { next < 2 ^ 63 }
    ensures given { GivesSerial index place next result all.old.items all.new.items }
    ensures room { vec_capacity all.new ≡ vec_capacity all.old }
{
    match place {
        Some(place) => {
            give_serial(all, index, place, next);
            next + 1
        }
        None => next,
    }
}

// Takes the serial of a place of a map away.
fn take_away(all: &mut Vec<PlaceSerials>, index: usize, place: usize)
    requires index { index < vec_len all.old }
    requires place { place < length (serials_at (serials_in all.old.items) index) }
    requires fresh { AreFresh (kept_at all.old.items index).since
        (kept_at all.old.items index).order }
    ensures taken { serials_in all.new.items ≡ slice_set (serials_in all.old.items) index
        (slice_set (serials_at (serials_in all.old.items) index) place None) }
    ensures kept { all.new.items ≡ slice_set all.old.items index
        (with_since (kept_at all.old.items index) place
        (taken_now (since_in (kept_at all.old.items index).since place))) }
    ensures room { vec_capacity all.new ≡ vec_capacity all.old }
{
    all[index].take(place);
}

/// Takes the serial of a place of a map away, if there is such a place.
pub fn take_from(all: &mut Vec<PlaceSerials>, index: usize, place: Option<usize>)
    requires index { index < vec_len all.old }
    requires place { IfSome place
        (λ p. p < length (serials_at (serials_in all.old.items) index)) }
    requires fresh { AreFresh (kept_at all.old.items index).since
        (kept_at all.old.items index).order }
    ensures taken { TakesSerial index place all.old.items all.new.items }
    ensures room { vec_capacity all.new ≡ vec_capacity all.old }
{
    match place {
        Some(place) => take_away(all, index, place),
        None => {}
    }
}
