//! Keys of one size in a block, by place.

ghost use Rattle.std.specs.Cmp.Lexicographic.{pointwise};
ghost use Rattle.std.specs.Prelude.{nat_eq, ◌≡◌, ◌+◌, ◌*◌, ◌≤◌, ◌<◌, length, Some, None, IfOk, replicate, slice_set, is_some, true, IsPermutation, vec_capacity};
ghost use Rattle.std.specs.List.{splice};
ghost use Rattle.std.specs.List.Sorted.{IsSortedByKey};
ghost use Rattle.isa_model.specs.Code.EachByte.{EachByte};
ghost use Rattle.isa_model.specs.Machine.MapContents.{key_order};
ghost use Rattle.map_indexes.specs.KeyOrder.{key_or_none};
ghost use Rattle.map_indexes.specs.PlaceKeys.{KeysByPlace, key_in, keys_by_place};

use crate::rooms::exact;
use byteorder::{ByteOrder, LittleEndian};
use std::alloc::{AllocError, Global};
use std::marker::Model;

/// Writes bytes into a block, from an index on.
pub fn put_bytes(block: &mut [u8], at: usize, new: &[u8])
    requires { at + length new.now ≤ length block.old }
    ensures { block.new ≡ splice block.old at (at + length new.now) new.now }
{
    block[at..at + new.len()].copy_from_slice(new);
}

// Recalls, for proofs, that each element of a slice of bytes is below 256. It does nothing.
fn are_bytes(bytes: &[u8])
    ensures { EachByte bytes.now }
{}

/// Returns whether two keys of one size are the same. Keys of 4 or 8 bytes are compared as numbers.
#[inline(always)]
pub fn are_same(a: &[u8], b: &[u8]) -> bool
    requires { length a.now ≡ length b.now }
    ensures { result ≡ pointwise nat_eq a.now b.now }
{
    are_bytes(a);
    are_bytes(b);
    if a.len() == 4 {
        return LittleEndian::read_u32(a) == LittleEndian::read_u32(b);
    }
    if a.len() == 8 {
        return LittleEndian::read_u64(a) == LittleEndian::read_u64(b);
    }
    a == b
}

/// Says which key each place has, if it has one. Contracts see the keys by place.
#[derive(Drop)]
pub struct Keys {
    size: usize,
    block: Vec<u8>,
    used: Vec<bool>,
}

impl Model for Keys {
    ghost Value = { KeysByPlace };

    ghost view = { λ k. record {
      size = k.size;
      by_place = keys_by_place k.size k.block.items 0
          k.used.items;
    } };

    // the block has the bytes of all places, and both lists have room for no more
    ghost invariant = { λ k. (length k.block.items ≡ length k.used.items * k.size)
        × (vec_capacity k.block ≡ length k.block.items)
        × (vec_capacity k.used ≡ length k.used.items) };
}

impl Keys {
    /// This many places, none of which has a key.
    pub fn new(alloc: Global, size: u16, places: u32) -> Result<Self, AllocError>
        ensures size { IfOk result (λ keys. keys.size ≡ size) }
        ensures empty { IfOk result (λ keys. keys.by_place ≡ replicate places None) }
    {
        let size = usize::from(size);
        let places = places as usize;
        let zeros = vec![in alloc; 0; places * size]?;
        let unused = vec![in alloc; false; places]?;
        let block = exact(zeros)?;
        let used = exact(unused)?;
        Ok(Keys { size, block, used })
    }

    /// Returns how many places there are.
    pub fn places(&self) -> usize
        ensures { result ≡ length self.now.by_place }
    {
        self.used.len()
    }

    /// Returns whether a place has a key.
    pub fn is_used(&self, place: usize) -> bool
        requires { place < length self.now.by_place }
        ensures { result ≡ is_some (key_in self.now.by_place place) }
    {
        self.used[place]
    }

    /// The key of a place that has one.
    pub fn key(&self, place: usize) -> &[u8]
        requires { is_some (key_in self.now.by_place place) ≡ true }
        ensures key { key_in self.now.by_place place ≡ Some result.now }
        ensures size { length result.now ≡ self.now.size }
    {
        let start = place * self.size;
        &self.block[start..start + self.size]
    }

    /// The key of a place, or no bytes where it has none.
    pub fn key_or_none(&self, place: usize) -> &[u8]
        ensures { result.now ≡ key_or_none self.now.by_place place }
    {
        if place >= self.places() {
            return &[];
        }
        if self.is_used(place) {
            self.key(place)
        } else {
            &[]
        }
    }

    /// Puts places in the order of their keys.
    pub fn sort_places(&self, places: &mut [usize])
        ensures permutation { IsPermutation places.old places.new }
        ensures sorted { IsSortedByKey (key_or_none self.now.by_place) key_order places.new }
    {
        places.sort_unstable_by(|a, b| self.key_or_none(*a).cmp(self.key_or_none(*b)));
    }

    /// Gives a place a key.
    pub fn put(&mut self, place: usize, key: &[u8])
        requires size { length key.now ≡ self.old.size }
        requires place { place < length self.old.by_place }
        ensures size { self.new.size ≡ self.old.size }
        ensures keys { self.new.by_place ≡ slice_set self.old.by_place place (Some key.now) }
    {
        let start = place * self.size;
        put_bytes(self.block.as_mut_slice(), start, key);
        self.used[place] = true;
    }

    /// Takes a place's key away.
    pub fn clear(&mut self, place: usize)
        requires place { place < length self.old.by_place }
        ensures size { self.new.size ≡ self.old.size }
        ensures keys { self.new.by_place ≡ slice_set self.old.by_place place None }
    {
        self.used[place] = false;
    }
}
