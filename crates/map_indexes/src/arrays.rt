//! The index of an array: a key, as a number, is its place.

ghost use Rattle.std.specs.Prelude.{◌≡◌, ◌<◌, ◌≤◌, ◌^◌, vec_capacity, IsPermutation};
ghost use Rattle.std.specs.FinMap.{values};
ghost use Rattle.std.specs.List.{range_with_len};
ghost use Rattle.std.specs.List.Sorted.{IsSortedByKey};
ghost use Rattle.byteorder.specs.Endian.{little_bytes};
ghost use Rattle.isa_model.specs.declared.map_defs.MapType.TheVariants.{Array};
ghost use Rattle.isa_model.specs.Machine.MapContents.{key_order};
ghost use Rattle.map_indexes.specs.ArrayPlaces.{array_places};

use crate::index::Index;
use byteorder::{ByteOrder, LittleEndian};

// The key of an index: four bytes, the lowest first.
fn key_of(index: usize) -> [u8; 4]
    ensures { result ≡ little_bytes 4 index }
{
    [
        (index % 256) as u8,
        (index / 256 % 256) as u8,
        (index / 65536 % 256) as u8,
        (index / 16777216 % 256) as u8,
    ]
}

// Puts indexes in the order of their keys.
fn sort_by_key(indexes: &mut [usize])
    ensures permutation { IsPermutation indexes.old indexes.new }
    ensures sorted { IsSortedByKey (little_bytes 4) key_order indexes.new }
{
    indexes.sort_unstable_by(|a, b| key_of(*a).cmp(&key_of(*b)));
}

/// Says which place each key of an array has: its index, which is the key as a number, the lowest
/// byte first.
#[derive(Drop)]
pub struct ArrayIndex {
    entries: u32,
    ghost small: { entries < 2 ^ 32 },
}

impl ArrayIndex {
    /// An array's index, with keys for all places.
    pub fn new(entries: u32) -> Self
        ensures { result.entries ≡ entries }
    {
        ArrayIndex { entries }
    }

    // Fills a list that has room with the indexes.
    fn list_indexes(&self, list: &mut Vec<usize>)
        requires { self.now.entries ≤ vec_capacity list.old }
        ensures indexes { list.new.items ≡ range_with_len 0 self.now.entries }
        ensures capacity { vec_capacity list.new ≡ vec_capacity list.old }
    {
        list.clear();
        for i in 0..self.entries as usize {
            list.push_reserved(i);
        }
    }

    /// Fills a list that has room with the indexes in the order of their keys.
    pub fn list(&self, list: &mut Vec<usize>)
        requires { self.now.entries ≤ vec_capacity list.old }
        ensures places { list.new.items ≡ values (array_places self.now.entries) }
        ensures capacity { vec_capacity list.new ≡ vec_capacity list.old }
    {
        self.list_indexes(list);
        sort_by_key(list.as_mut_slice());
    }

    /// Returns how many keys the array has.
    pub fn entries(&self) -> u32
        ensures { result ≡ self.now.entries }
    {
        self.entries
    }
}

impl Index for ArrayIndex {
    ghost use Rattle.map_indexes.specs.ArrayLaws.{array_in_range, array_apart, array_few};

    ghost places = { λ s. array_places s.entries };

    ghost kind = { λ s. Array };

    ghost key_size = { λ s. 4 };

    ghost room = { λ s. s.entries };

    fn find(&self, key: &[u8]) -> Option<usize> {
        let index = LittleEndian::read_u32(key);
        if index < self.entries {
            Some(index as usize)
        } else {
            None
        }
    }

    fn is_full(&self) -> bool {
        true
    }

    fn add(&mut self, _key: &[u8]) -> Option<usize> {
        None
    }

    fn remove(&mut self, _key: &[u8]) -> Option<usize> {
        None
    }

    ghost in_range = { λ s k p e. array_in_range s.entries k p e };

    ghost apart = { λ s j k p e f. array_apart s.entries j k p e f };

    ghost few = { λ s. array_few s.entries };
}
