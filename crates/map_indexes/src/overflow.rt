//! The list of the places whose chains were full, in the order of their keys.

ghost use Rattle.std.specs.Prelude.{◌≡◌, ◌≢◌, ◌+◌, ◌<◌, ℕ, [], None, Some, IfOk, IfSome, IsTrue, length, nat_eq, vec_capacity, ◌||◌, true};
ghost use Rattle.std.specs.List.{remove};
ghost use Rattle.std.specs.List.Sorted.{IsBinarySearchResult, IsSearchInRange};
ghost use Rattle.isa_model.specs.Machine.MapContents.{key_order};
ghost use Rattle.map_indexes.specs.KeyOrder.{key_or_none};
ghost use Rattle.map_indexes.specs.PlaceKeys.{key_in};
ghost use Rattle.map_indexes.specs.Overflow.{place_at, is_listed, AreRising};

use crate::keys::Keys;
use std::alloc::{AllocError, Global};

/// The places whose chains were full when their keys came, in the order of the keys. A binary
/// search finds a key.
#[derive(Drop)]
pub struct Overflow {
    places: Vec<u32>,
}

impl Overflow {
    /// A list without places, and room for this many.
    pub fn new(alloc: Global, room: u32) -> Result<Self, AllocError>
        ensures empty { IfOk result (λ o. o.places.items ≡ []) }
        ensures room { IfOk result (λ o. vec_capacity o.places ≡ room) }
    {
        let places = Vec::with_capacity(alloc, room as usize)?;
        Ok(Overflow { places })
    }

    /// Returns whether there is room for one more place.
    pub fn has_room(&self) -> bool
        ensures { IsTrue result
            → length self.now.places.items < vec_capacity self.now.places }
    {
        self.places.len() < self.places.capacity()
    }

    // Where the place of a key is, or where it belongs.
    fn search(&self, keys: &Keys, key: &[u8]) -> Result<usize, usize>
        ensures bound { IsSearchInRange result (length self.now.places.items) }
        ensures position { IsBinarySearchResult
            (λ p. key_order (key_or_none keys.now.by_place p) key.now)
            self.now.places.items result }
    {
        self.places
            .as_slice()
            .binary_search_by(|place| keys.key_or_none(*place as usize).cmp(key))
    }

    /// The index of the place of a key.
    pub fn find(&self, keys: &Keys, key: &[u8]) -> Option<usize>
        requires { AreRising keys.now.by_place self.now.places.items }
        ensures inside { IfSome result (λ i. i < length self.now.places.items) }
        ensures found { IfSome result (λ i. key_in keys.now.by_place
            (place_at self.now.places.items i) ≡ Some key.now) }
        ensures absent { result ≡ None → (p : ℕ) → is_listed self.now.places.items p ≡ true
            → key_in keys.now.by_place p ≢ Some key.now }
    {
        match self.search(keys, key) {
            Ok(i) => Some(i),
            Err(_) => None,
        }
    }

    /// The place at an index.
    pub fn at(&self, i: usize) -> usize
        requires { i < length self.now.places.items }
        ensures { result ≡ place_at self.now.places.items i }
    {
        self.places[i] as usize
    }

    /// Puts the place of a key in, which no place in the list has.
    pub fn add(&mut self, keys: &Keys, place: u32, key: &[u8])
        requires rising { AreRising keys.now.by_place self.old.places.items }
        requires room { length self.old.places.items < vec_capacity self.old.places }
        requires key { key_in keys.now.by_place place ≡ Some key.now }
        requires absent { (p : ℕ) → is_listed self.old.places.items p ≡ true
            → key_in keys.now.by_place p ≢ Some key.now }
        ensures rising { AreRising keys.now.by_place self.new.places.items }
        ensures listed { (p : ℕ) → is_listed self.new.places.items p
            ≡ (nat_eq p place || is_listed self.old.places.items p) }
        ensures room { vec_capacity self.new.places ≡ vec_capacity self.old.places }
    {
        match self.search(keys, key) {
            Ok(_) => unreachable!(),
            Err(i) => {
                let _ = self.places.insert(i, place);
            }
        }
    }

    /// Takes the place at an index out.
    pub fn remove(&mut self, i: usize)
        requires { i < length self.old.places.items }
        ensures rest { self.new.places.items ≡ remove self.old.places.items i }
        ensures room { vec_capacity self.new.places ≡ vec_capacity self.old.places }
    {
        self.places.remove(i);
    }
}
