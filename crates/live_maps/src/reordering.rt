//! The order of a map's keys, brought up to date where something became of the values.

ghost use Rattle.std.specs.Prelude.{◌≡◌, ◌<◌, ◌≤◌, ℕ, List, length, Some, true, false, slice_get, slice_set, vec_capacity};
ghost use Rattle.std.specs.List.{filter};
ghost use Rattle.std.specs.FinMap.{get, values};
ghost use Rattle.maps.specs.Maps.{map_at};
ghost use Rattle.live_maps.specs.PlaceOrders.{AllSame, AreFresh, AreGone, AreNoted, HaveCome, IsBefore, IsRising, NotBefore, is_same_at, looked, places_without, since_in};
ghost use Rattle.live_maps.specs.Numbering.{AreDistinct};

use crate::place_serials::Since;
use crate::ranks::Ranks;
use maps::Maps;

/// What became of the value at a place.
pub fn since_at(since: &[Since], place: usize) -> Since
    ensures { result ≡ since_in since.now place }
{
    match since.get(place) {
        Some(it) => *it,
        None => Since::Same,
    }
}

// How many places are looked at.
fn look_count(noted: &Vec<usize>, places: usize) -> usize
    ensures { result ≡ length (looked noted.now.items (vec_capacity noted.now) places) }
{
    if noted.len() < noted.capacity() {
        noted.len()
    } else {
        places
    }
}

// The i-th of these places.
fn look_at(noted: &Vec<usize>, places: usize, i: usize) -> usize
    requires { i < length (looked noted.now.items (vec_capacity noted.now) places) }
    ensures { slice_get (looked noted.now.items (vec_capacity noted.now) places) i ≡ Some result }
{
    if noted.len() < noted.capacity() {
        noted[i]
    } else {
        i
    }
}

// Takes a place out, if it is there.
fn take_place(ranks: &mut Ranks, place: usize)
    requires { AreDistinct ranks.old.places }
    ensures places { ranks.new.places ≡ places_without place ranks.old.places }
    ensures room { ranks.new.room ≡ ranks.old.room }
{
    if let Some(rank) = ranks.rank(place) {
        ranks.remove(rank);
    }
}

/// Has the places of all keys in an order, by a list that has room for them.
pub fn list_places(maps: &Maps, map: usize, ranks: &mut Ranks, list: &mut Vec<usize>)
    requires map { map < length maps.now }
    requires room { ranks.old.room ≡ (map_at maps.now map).row.entries }
    requires list { (map_at maps.now map).row.entries ≤ vec_capacity list.old }
    ensures places { ranks.new.places ≡ values (map_at maps.now map).places }
    ensures room { ranks.new.room ≡ ranks.old.room }
    ensures list { vec_capacity list.new ≡ vec_capacity list.old }
{
    maps.say_fits();
    maps.list_places(map, list);
    ranks.refill(list.as_slice());
}

// Takes the places out of an order that had a value at the last numbering which they lost.
fn take_out(ranks: &mut Ranks, since: &[Since], noted: &Vec<usize>)
    requires distinct { AreDistinct ranks.old.places }
    requires fresh { AreFresh since.now ranks.old.places }
    requires covers { AreNoted noted.now.items (vec_capacity noted.now) since.now }
    ensures places { ranks.new.places ≡ filter (is_same_at since.now) ranks.old.places }
    ensures room { ranks.new.room ≡ ranks.old.room }
{
    for i in 0..look_count(noted, since.len()) {
        let place = look_at(noted, since.len(), i);
        match since_at(since, place) {
            Since::Same => {}
            Since::New(_) => {}
            _ => take_place(ranks, place),
        }
    }
}

// How many of some places have keys below that of another one.
fn rank_for(maps: &Maps, map: usize, ranks: &Ranks, place: usize) -> usize
    requires map { map < length maps.now }
    requires rising { IsRising (map_at maps.now map).places ranks.now.places }
    requires place { (k : List ℕ) × (get (map_at maps.now map).places k ≡ Some place) }
    ensures at_most { result ≤ length ranks.now.places }
    ensures below { (i p : ℕ) → i < result → slice_get ranks.now.places i ≡ Some p
        → IsBefore (map_at maps.now map).places p place }
    ensures after { (i p : ℕ) → result ≤ i → slice_get ranks.now.places i ≡ Some p
        → NotBefore (map_at maps.now map).places p place }
{
    let mut low = 0;
    let mut high = ranks.len();
    while low < high {
        let middle = low + (high - low) / 2;
        if maps.is_before(map, ranks.at(middle), place) {
            low = middle + 1;
        } else {
            high = middle;
        }
    }
    low
}

// Puts in the place of a key that is not in the order of the others.
fn put_place(maps: &Maps, map: usize, ranks: &mut Ranks, place: usize, since: &mut [Since])
    requires map { map < length maps.now }
    requires place { (k : List ℕ) × (get (map_at maps.now map).places k ≡ Some place) }
    requires order { ranks.old.places
        ≡ filter (is_same_at since.old) (values (map_at maps.now map).places) }
    requires other { is_same_at since.old place ≡ false }
    requires inside { place < length since.old }
    requires room { ranks.old.room ≡ (map_at maps.now map).row.entries }
    ensures order { ranks.new.places
        ≡ filter (is_same_at since.new) (values (map_at maps.now map).places) }
    ensures room { ranks.new.room ≡ ranks.old.room }
    ensures since { since.new ≡ slice_set since.old place Since.Same }
{
    maps.say_fits();
    let rank = rank_for(maps, map, ranks, place);
    since[place] = Since::Same;
    ranks.insert(rank, place as u32);
}

// Puts the places of the keys that have come into the order of the others. Then nothing has become
// of any value since.
fn put_in(maps: &Maps, map: usize, ranks: &mut Ranks, since: &mut [Since], noted: &Vec<usize>)
    requires map { map < length maps.now }
    requires order { ranks.old.places
        ≡ filter (is_same_at since.old) (values (map_at maps.now map).places) }
    requires gone { AreGone since.old (map_at maps.now map).places }
    requires came { HaveCome since.old (map_at maps.now map).places }
    requires room { ranks.old.room ≡ (map_at maps.now map).row.entries }
    requires covers { AreNoted noted.now.items (vec_capacity noted.now) since.old }
    ensures places { ranks.new.places ≡ values (map_at maps.now map).places }
    ensures room { ranks.new.room ≡ ranks.old.room }
    ensures same { AllSame since.new }
{
    for i in 0..look_count(noted, since.len()) {
        let place = look_at(noted, since.len(), i);
        match since_at(since, place) {
            Since::Same => {}
            Since::Gone => since[place] = Since::Same,
            _ => put_place(maps, map, ranks, place, since),
        }
    }
}

// Lists the places of all keys anew. Then nothing has become of any value since.
fn list_anew(maps: &Maps, map: usize, ranks: &mut Ranks, since: &mut [Since], list: &mut Vec<usize>)
    requires map { map < length maps.now }
    requires room { ranks.old.room ≡ (map_at maps.now map).row.entries }
    requires list { (map_at maps.now map).row.entries ≤ vec_capacity list.old }
    ensures places { ranks.new.places ≡ values (map_at maps.now map).places }
    ensures room { ranks.new.room ≡ ranks.old.room }
    ensures same { AllSame since.new }
    ensures long { length since.new ≡ length since.old }
    ensures list { vec_capacity list.new ≡ vec_capacity list.old }
{
    list_places(maps, map, ranks, list);
    for place in 0..since.len() {
        since[place] = Since::Same;
    }
}

/// Brings the order of a map's keys up to date. Then nothing has become of any value since.
pub fn reorder(
    maps: &Maps,
    map: usize,
    ranks: &mut Ranks,
    since: &mut [Since],
    noted: &mut Vec<usize>,
)
    requires map { map < length maps.now }
    requires distinct { AreDistinct ranks.old.places }
    requires order { filter (is_same_at since.old) ranks.old.places
        ≡ filter (is_same_at since.old) (values (map_at maps.now map).places) }
    requires fresh { AreFresh since.old ranks.old.places }
    requires gone { AreGone since.old (map_at maps.now map).places }
    requires came { HaveCome since.old (map_at maps.now map).places }
    requires room { ranks.old.room ≡ (map_at maps.now map).row.entries }
    requires covers { AreNoted noted.old.items (vec_capacity noted.old) since.old }
    requires list { (map_at maps.now map).row.entries ≤ vec_capacity noted.old }
    ensures places { ranks.new.places ≡ values (map_at maps.now map).places }
    ensures room { ranks.new.room ≡ ranks.old.room }
    ensures same { AllSame since.new }
    ensures long { length since.new ≡ length since.old }
    ensures list { vec_capacity noted.new ≡ vec_capacity noted.old }
{
    if noted.len() > since.len() / 2 {
        list_anew(maps, map, ranks, since, noted);
    } else {
        take_out(ranks, since, noted);
        put_in(maps, map, ranks, since, noted);
    }
}
