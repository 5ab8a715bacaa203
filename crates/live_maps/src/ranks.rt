//! Places in an order, by rank.

ghost use Rattle.std.specs.Prelude.{◌≡◌, ◌≢◌, ◌<◌, ◌≤◌, ◌^◌, [], ℕ, length, IfOk, IfSome, IfNone, Some, slice_get};
ghost use Rattle.std.specs.List.{insert, remove};

use crate::chunks::Chunks;
use std::alloc::{AllocError, Global};
use std::marker::Model;

/// Places in an order. One that comes or goes moves places of its own chunk only.
///
/// Contracts see the places, and how many there is room for.
#[derive(Drop)]
pub struct Ranks {
    chunks: Chunks,
}

impl Model for Ranks {
    ghost use Rattle.live_maps.specs.Ranks.{AreChunks, Ranked, all_places};

    ghost Value = { Ranked };

    ghost view = { λ r. record {
      places = all_places r.chunks.chunks.items;
      room = r.chunks.room;
    } };

    ghost invariant = { λ r. AreChunks r.chunks };
}

impl Ranks {
    /// Room for this number of places.
    pub fn new(alloc: Global, entries: u32) -> Result<Self, AllocError>
        ensures places { IfOk result (λ r. r.places ≡ []) }
        ensures room { IfOk result (λ r. r.room ≡ entries) }
    {
        let chunks = Chunks::new(alloc, entries)?;
        Ok(Ranks { chunks })
    }

    /// Returns how many places there are.
    pub fn len(&self) -> usize
        ensures len { result ≡ length self.now.places }
        ensures few { result ≤ self.now.room }
        ensures small { self.now.room < 2 ^ 32 }
    {
        self.chunks.len()
    }

    /// The place at a rank.
    pub fn at(&self, rank: usize) -> usize
        requires { rank < length self.now.places }
        ensures { slice_get self.now.places rank ≡ Some result }
    {
        self.chunks.at(rank)
    }

    /// The rank of a place.
    pub fn rank(&self, place: usize) -> Option<usize>
        ensures found { IfSome result (λ k. slice_get self.now.places k ≡ Some place) }
        ensures none { IfNone result ((k : ℕ) → slice_get self.now.places k ≢ Some place) }
    {
        self.chunks.rank(place)
    }

    /// Puts in a place at a rank.
    pub fn insert(&mut self, rank: usize, place: u32)
        requires rank { rank ≤ length self.old.places }
        requires few { length self.old.places < self.old.room }
        ensures places { self.new.places ≡ insert self.old.places rank place }
        ensures room { self.new.room ≡ self.old.room }
    {
        self.chunks.insert(rank, place);
    }

    /// Takes out the place at a rank.
    pub fn remove(&mut self, rank: usize)
        requires { rank < length self.old.places }
        ensures places { self.new.places ≡ remove self.old.places rank }
        ensures room { self.new.room ≡ self.old.room }
    {
        self.chunks.remove(rank);
    }

    /// Has these places in place of all others.
    pub fn refill(&mut self, places: &[usize])
        requires few { length places.now ≤ self.old.room }
        requires small { (i p : ℕ) → slice_get places.now i ≡ Some p → p < 2 ^ 32 }
        ensures places { self.new.places ≡ places.now }
        ensures room { self.new.room ≡ self.old.room }
    {
        self.chunks.refill(places);
    }
}
