//! An index of a hash map that finds keys by chains, and by their order where a chain is long.

ghost use Rattle.std.specs.Prelude.{◌≡◌, ℕ, ◌+◌, ◌-◌, ◌<◌, ◌≤◌, length, None, IfOk, IfSome, IsSome, slice_index_or, slice_set, vec_capacity, is_some, true, Some};
ghost use Rattle.std.specs.FinMap as map;
ghost use Rattle.isa_model.specs.declared.map_defs.MapType.TheVariants.{Hash};
ghost use Rattle.map_indexes.specs.PlaceKeys.{places, key_in, AreKeys};
ghost use Rattle.map_indexes.specs.KeyOrder.{used_places};
ghost use Rattle.map_indexes.specs.Chains.{link_in};
ghost use Rattle.map_indexes.specs.ChainIndexes.{IsChainIndex, HasKey};
ghost use Rattle.map_indexes.specs.Overflow.{place_at, found_places, AreRising, AreUnlinked};

use crate::chains::Chains;
use crate::hashing::chain_of;
use crate::index::Index;
use crate::keys::{Keys, are_same};
use crate::overflow::Overflow;
use std::alloc::{AllocError, Global};

// All places, the first at the end.
fn all_places(alloc: Global, count: u32) -> Result<Vec<u32>, AllocError>
    ensures len { IfOk result (λ v. length v.items ≡ count) }
    ensures places { IfOk result (λ v. (i : ℕ) → i < count
        → slice_index_or v.items i 0 ≡ count - 1 - i) }
    ensures capacity { IfOk result (λ v. vec_capacity v ≡ count) }
{
    let mut places = Vec::with_capacity(alloc, count as usize)?;
    for i in 0..count {
        places.push_reserved(count - 1 - i);
    }
    Ok(places)
}

/// Says which place each key of a hash map has: a link of the key's chain names it, or, if that
/// chain was long when the key came, a list in the order of the keys. The place of a removed key is
/// the next to be given.
#[derive(Drop)]
pub struct ChainIndex {
    keys: Keys,
    chains: Chains,
    overflow: Overflow,
    free: Vec<u32>,
    ghost index: { IsChainIndex keys.by_place free.items chains.count (found_places keys.by_place
        chains.count overflow.places.items (link_in chains.chains chains.nexts)) },
    ghost rising: { AreRising keys.by_place overflow.places.items },
    ghost unlinked: { AreUnlinked (link_in chains.chains chains.nexts) overflow.places.items },
    ghost sized: { AreKeys keys.size keys.by_place },
    ghost some_chains: { 0 < chains.count },
    ghost enough: { length keys.by_place ≤ chains.count },
    ghost links_room: { length chains.chains ≡ length keys.by_place },
    ghost overflow_room: { vec_capacity overflow.places ≡ length keys.by_place },
    ghost free_room: { vec_capacity free ≡ length keys.by_place },
}

impl ChainIndex {
    /// An index without keys, for keys of this size.
    pub fn new(alloc: Global, key_size: u16, entries: u32) -> Result<Self, AllocError>
        ensures key_size { IfOk result (λ s. s.keys.size ≡ key_size) }
        ensures room { IfOk result (λ s. length s.keys.by_place ≡ entries) }
        ensures empty { IfOk result (λ s. places s.keys.by_place ≡ map.empty) }
    {
        let keys = Keys::new(alloc, key_size, entries)?;
        let chains = Chains::new(alloc, entries.max(1), entries)?;
        let overflow = Overflow::new(alloc, entries)?;
        let free = all_places(alloc, entries)?;
        Ok(ChainIndex {
            keys,
            chains,
            overflow,
            free,
        })
    }

    /// The key of a place that has one.
    pub fn key(&self, place: usize) -> &[u8]
        requires { is_some (key_in self.now.keys.by_place place) ≡ true }
        ensures key { key_in self.now.keys.by_place place ≡ Some result.now }
        ensures size { length result.now ≡ self.now.keys.size }
    {
        self.keys.key(place)
    }

    // Fills a list that has room with the places that have a key.
    fn list_used(&self, list: &mut Vec<usize>)
        requires { length self.now.keys.by_place ≤ vec_capacity list.old }
        ensures places { list.new.items ≡ used_places 0 self.now.keys.by_place }
        ensures capacity { vec_capacity list.new ≡ vec_capacity list.old }
    {
        list.clear();
        for i in 0..self.keys.places() {
            if self.keys.is_used(i) {
                list.push_reserved(i);
            }
        }
    }

    /// Fills a list that has room with the places of all keys, in the order of the keys.
    pub fn list(&self, list: &mut Vec<usize>)
        requires { length self.now.keys.by_place ≤ vec_capacity list.old }
        ensures places { list.new.items ≡ map.values (places self.now.keys.by_place) }
        ensures capacity { vec_capacity list.new ≡ vec_capacity list.old }
    {
        self.list_used(list);
        self.keys.sort_places(list.as_mut_slice());
    }

    // The place of the link of a key, which is the place of the key.
    fn find_link(&self, key: &[u8]) -> Option<usize>
        requires { length key.now ≡ self.now.keys.size }
        ensures found { IfSome result (HasKey self.now.keys.by_place
            (link_in self.now.chains.chains self.now.chains.nexts) key.now) }
        ensures absent { result ≡ None → (k : ℕ) → HasKey self.now.keys.by_place
            (link_in self.now.chains.chains self.now.chains.nexts) key.now k → ⊥ }
    {
        let mut next = self.chains.first(chain_of(key, self.chains.count()));
        while let Some(at) = next {
            if are_same(self.keys.key(at), key) {
                return Some(at);
            }
            next = self.chains.next(at);
        }
        None
    }

    // Takes the key of a place that has a link away.
    fn remove_link(&mut self, place: usize)
        requires { IsSome (link_in self.old.chains.chains self.old.chains.nexts place) }
        ensures keys { self.new.keys.by_place ≡ slice_set self.old.keys.by_place place None }
        ensures size { self.new.keys.size ≡ self.old.keys.size }
    {
        self.chains.remove(place);
        self.keys.clear(place);
        self.free.push_reserved(place as u32);
    }

    // Takes the key of the place at an index of the list away, and returns the place.
    fn remove_listed(&mut self, i: usize) -> usize
        requires { i < length self.old.overflow.places.items }
        ensures place { result ≡ place_at self.old.overflow.places.items i }
        ensures keys { self.new.keys.by_place ≡ slice_set self.old.keys.by_place result None }
        ensures size { self.new.keys.size ≡ self.old.keys.size }
    {
        let place = self.overflow.at(i);
        self.overflow.remove(i);
        self.keys.clear(place);
        self.free.push_reserved(place as u32);
        place
    }
}

impl Index for ChainIndex {
    ghost use Rattle.map_indexes.specs.ScanLaws.{scan_in_range, scan_apart, scan_few};

    ghost places = { λ s. places s.keys.by_place };

    ghost kind = { λ s. Hash };

    ghost key_size = { λ s. s.keys.size };

    ghost room = { λ s. length s.keys.by_place };

    fn find(&self, key: &[u8]) -> Option<usize> {
        match self.find_link(key) {
            Some(place) => Some(place),
            None => match self.overflow.find(&self.keys, key) {
                Some(i) => Some(self.overflow.at(i)),
                None => None,
            },
        }
    }

    fn is_full(&self) -> bool {
        self.free.is_empty()
    }

    fn add(&mut self, key: &[u8]) -> Option<usize> {
        let place = self.free.pop()?;
        let chain = chain_of(key, self.chains.count());
        self.keys.put(place as usize, key);
        if self.chains.is_long(chain) && self.overflow.has_room() {
            self.overflow.add(&self.keys, place, key);
            return Some(place as usize);
        }
        self.chains.add(chain, place as usize);
        Some(place as usize)
    }

    fn remove(&mut self, key: &[u8]) -> Option<usize> {
        match self.find_link(key) {
            Some(place) => {
                self.remove_link(place);
                Some(place)
            }
            None => {
                let i = self.overflow.find(&self.keys, key)?;
                Some(self.remove_listed(i))
            }
        }
    }

    ghost in_range = { λ s k p e. scan_in_range s.keys.by_place k p e };

    ghost apart = { λ s j k p e f. scan_apart s.keys.by_place j k p e f };

    ghost few = { λ s. scan_few s.keys.by_place
        (length s.keys.by_place - length s.free.items) s.index.scan };
}
