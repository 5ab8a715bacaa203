//! The serials of one map's values, by place.

ghost use Rattle.std.specs.Prelude.{◌≡◌, ◌≢◌, ◌+◌, ◌/◌, ◌<◌, ◌≤◌, ◌^◌, ℕ, length, IfOk, IfSome, IfNone, Some, None, slice_set, vec_len, vec_capacity};
ghost use Rattle.std.specs.List.{position};
ghost use Rattle.std.specs.FinMap.{values};
ghost use Rattle.maps.specs.Maps.{map_at};
ghost use Rattle.live_maps.specs.Live.{serial_in, has_serial};
ghost use Rattle.live_maps.specs.Numbering.{AreDistinct};
ghost use Rattle.live_maps.specs.PlaceOrders.{AllSame, ArePlacesBelow, IsLater, IsOrderOf, given_now, is_given, serials_of, since_in, taken_now, with_since};

use crate::ranks::Ranks;
use crate::reordering::{list_places, reorder, since_at};
use map_indexes::rooms::exact;
use maps::Maps;
use std::alloc::{AllocError, Global};
use std::marker::Model;

/// What became of the value at a place since the last numbering.
#[derive(Clone, Copy)]
pub enum Since {
    /// Nothing: it has the serial that it was given then, if it had one.
    Same,
    /// It is gone.
    Gone,
    /// It is gone, and the place was given another one with this serial.
    Given(u64),
    /// The place had none, and was given one with this serial.
    New(u64),
}

impl Since {
    // Once a value has come with a serial.
    fn given(self, serial: u64) -> Since
        ensures { result ≡ given_now serial self }
    {
        match self {
            Since::Same => Since::New(serial),
            _ => Since::Given(serial),
        }
    }

    // Once the value is gone.
    fn taken(self) -> Since
        ensures { result ≡ taken_now self }
    {
        match self {
            Since::New(_) => Since::Same,
            _ => Since::Gone,
        }
    }
}

// Whether this serial was given since the last numbering.
fn is_given(serial: u64, since: &Since) -> bool
    ensures { result ≡ is_given serial since.now }
{
    match since {
        Since::Given(n) => *n == serial,
        Since::New(n) => *n == serial,
        _ => false,
    }
}

// The place that a serial was given since the last numbering, if it has it still.
fn place_given(since: &[Since], serial: u64) -> Option<usize>
    ensures { result ≡ position (is_given serial) since.now }
{
    since.iter().position(|it| is_given(serial, it))
}

// A serial that was given since the last numbering, and the place that it was given.
#[derive(Clone, Copy)]
struct Given {
    serial: u64,
    place: usize,
}

// Whether a place still has the serial that it was given.
fn is_kept(since: &[Since], given: &Given) -> bool {
    match since.get(given.place) {
        Some(it) => is_given(given.serial, it),
        None => false,
    }
}

// How many serials are noted that are given in a run: more than there are places, so that few are
// looked at for each when those that no place has any more are dropped.
fn room_for(places: u32) -> usize
    ensures { result ≡ places + places / 4 + 1 }
{
    places as usize + places as usize / 4 + 1
}

/// The serials of a map's places. A place without a key has none.
///
/// Contracts see the order of the places at the last numbering, and what became of each since.
#[derive(Drop)]
pub struct PlaceSerials {
    // The places that had keys at the last numbering, in the order of the keys: the serials of
    // these are `first` and the rank.
    ranks: Ranks,
    first: u64,
    since: Vec<Since>,
    // Where something became of the value since. If it is full, that may be anywhere.
    noted: Vec<usize>,
    // Where to look for a serial before all places are scanned, which is tested there.
    given: Vec<Given>,
}

impl Model for PlaceSerials {
    ghost use Rattle.std.specs.Prelude.{◌≡◌, ◌+◌, ◌/◌, ◌≤◌, ◌^◌, length, vec_capacity};
    ghost use Rattle.live_maps.specs.PlaceOrders.{AreNoted, PlaceOrder};

    ghost Value = { PlaceOrder };

    ghost view = { λ t. record {
      order = t.ranks.places;
      room = t.ranks.room;
      first = t.first;
      since = t.since.items;
    } };

    // there is room for the places and no more, and for some more serials that are given
    ghost invariant = { λ t. (AreNoted t.noted.items (vec_capacity t.noted) t.since.items)
        × (t.first ≤ 2 ^ 32)
        × (vec_capacity t.since ≡ length t.since.items)
        × (vec_capacity t.noted ≡ length t.since.items)
        × (vec_capacity t.given ≡ length t.since.items + length t.since.items / 4 + 1) };
}

// The places of a map's keys, in their order.
fn ranks_of(
    alloc: Global,
    maps: &Maps,
    map: usize,
    list: &mut Vec<usize>,
) -> Result<Ranks, AllocError>
    requires map { map < length maps.now }
    requires room { (map_at maps.now map).row.entries ≤ vec_capacity list.old }
    ensures places { IfOk result (λ r. r.places ≡ values (map_at maps.now map).places) }
    ensures room { IfOk result (λ r. r.room ≡ (map_at maps.now map).row.entries) }
    ensures capacity { vec_capacity list.new ≡ vec_capacity list.old }
{
    let mut ranks = Ranks::new(alloc, maps.row(map).entries)?;
    list_places(maps, map, &mut ranks, list);
    Ok(ranks)
}

impl PlaceSerials {
    /// The serials of a map's values, from 0 on.
    pub fn new(alloc: Global, maps: &Maps, map: usize) -> Result<Self, AllocError>
        requires { map < length maps.now }
        ensures order { IfOk result (λ k. k.order ≡ values (map_at maps.now map).places) }
        ensures room { IfOk result (λ k. k.room ≡ (map_at maps.now map).row.entries) }
        ensures long { IfOk result (λ k. length k.since ≡ (map_at maps.now map).row.entries) }
        ensures same { IfOk result (λ k. AllSame k.since) }
    {
        let places = maps.row(map).entries;
        let mut noted = Vec::with_capacity(alloc, places as usize)?;
        let ranks = ranks_of(alloc, maps, map, &mut noted)?;
        noted.clear();
        let same = vec![in alloc; Since::Same; places as usize]?;
        let given = Vec::with_capacity(alloc, room_for(places))?;
        let since = exact(same)?;
        Ok(PlaceSerials {
            ranks,
            first: 0,
            since,
            noted,
            given,
        })
    }

    /// The serial at a place.
    pub fn at(&self, place: usize) -> Option<u64>
        requires inside { place < length self.now.since }
        requires distinct { AreDistinct self.now.order }
        ensures { result ≡ serial_in (serials_of self.now) place }
    {
        match since_at(self.since.as_slice(), place) {
            Since::Same => match self.ranks.rank(place) {
                Some(rank) => {
                    let _few = self.ranks.len();
                    Some(self.first + rank as u64)
                }
                None => None,
            },
            Since::Gone => None,
            Since::Given(serial) => Some(serial),
            Since::New(serial) => Some(serial),
        }
    }

    // The place that has a serial of the last numbering, if it has it still.
    fn numbered(&self, serial: u64) -> Option<usize>
        requires distinct { AreDistinct self.now.order }
        requires inside { ArePlacesBelow (length self.now.since) self.now.order }
        ensures found { IfSome result (λ p. serial_in (serials_of self.now) p ≡ Some serial) }
        ensures none { IfNone result (IsLater serial self.now) }
    {
        if serial < self.first || serial - self.first >= self.ranks.len() as u64 {
            return None;
        }
        let place = self.ranks.at((serial - self.first) as usize);
        match since_at(self.since.as_slice(), place) {
            Since::Same => Some(place),
            _ => None,
        }
    }

    // The place that a serial was given since, if it was noted and has it still.
    fn noted_place(&self, serial: u64) -> Option<usize>
        ensures { IfSome result (λ p. serial_in (serials_of self.now) p ≡ Some serial) }
    {
        let given = self.given.as_slice();
        match given.binary_search_by(|it| it.serial.cmp(&serial)) {
            Ok(i) => {
                let place = given[i].place;
                if is_given(serial, &since_at(self.since.as_slice(), place)) {
                    Some(place)
                } else {
                    None
                }
            }
            Err(_) => None,
        }
    }

    /// The place that has a serial, if there is one, where no two places have it.
    pub fn find(&self, serial: u64) -> Option<usize>
        requires distinct { AreDistinct self.now.order }
        requires inside { ArePlacesBelow (length self.now.since) self.now.order }
        requires once { (p q : ℕ) → serial_in (serials_of self.now) p ≡ Some serial
            → serial_in (serials_of self.now) q ≡ Some serial → p ≡ q }
        ensures { result ≡ position (has_serial serial) (serials_of self.now) }
    {
        match self.numbered(serial) {
            Some(place) => Some(place),
            None => match self.noted_place(serial) {
                Some(place) => Some(place),
                None => place_given(self.since.as_slice(), serial),
            },
        }
    }

    // Notes which place is given a serial, in a list that drops what no place has any more as often
    // as it is full.
    fn note_given(&mut self, serial: u64, place: usize)
        ensures { self.new ≡ self.old }
    {
        if self.given.len() == self.given.capacity() {
            let since = self.since.as_slice();
            self.given.retain(|given| is_kept(since, given));
        }
        if self.given.len() < self.given.capacity() {
            self.given.push_reserved(Given { serial, place });
        }
    }

    // Says what became of the value at a place.
    fn set(&mut self, place: usize, since: Since)
        requires { place < length self.old.since }
        ensures { self.new ≡ with_since self.old place since }
    {
        if self.noted.len() < self.noted.capacity() {
            self.noted.push_reserved(place);
        }
        self.since[place] = since;
    }

    /// Gives a place a serial.
    pub fn give(&mut self, place: usize, serial: u64)
        requires { place < length self.old.since }
        ensures { self.new
            ≡ with_since self.old place (given_now serial (since_in self.old.since place)) }
    {
        let since = self.since[place];
        self.set(place, since.given(serial));
        self.note_given(serial, place);
    }

    /// Takes the serial of a place away.
    pub fn take(&mut self, place: usize)
        requires { place < length self.old.since }
        ensures { self.new
            ≡ with_since self.old place (taken_now (since_in self.old.since place)) }
    {
        let since = self.since[place];
        self.set(place, since.taken());
    }

    /// Numbers the values of a map from `first` on, and returns how many they are. That costs
    /// nothing for a value that was there at the last numbering.
    pub fn number(&mut self, maps: &Maps, map: usize, first: u64) -> u64
        requires map { map < length maps.now }
        requires few { first ≤ 2 ^ 32 }
        requires kept { IsOrderOf (map_at maps.now map) self.old }
        ensures count { result ≡ length (values (map_at maps.now map).places) }
        ensures order { self.new.order ≡ values (map_at maps.now map).places }
        ensures room { self.new.room ≡ self.old.room }
        ensures first { self.new.first ≡ first }
        ensures long { length self.new.since ≡ length self.old.since }
        ensures same { AllSame self.new.since }
    {
        reorder(
            maps,
            map,
            &mut self.ranks,
            self.since.as_mut_slice(),
            &mut self.noted,
        );
        self.noted.clear();
        self.given.clear();
        self.first = first;
        self.ranks.len() as u64
    }
}
