//! The index that a map's row asks for.

ghost use Rattle.std.specs.Prelude.{◌≡◌, ◌<◌, ◌≤◌, ◌^◌, ℕ, List, IfOk, Some, length, vec_capacity};
ghost use Rattle.std.specs.FinMap.{get, remove, values};
ghost use Rattle.std.specs.List.{slice_get};
ghost use Rattle.std.specs.Option.{option_map};
ghost use Rattle.std.specs.Ordering.{is_lt};
ghost use Rattle.byteorder.specs.Endian.{little_bytes};
ghost use Rattle.isa_model.specs.declared.map_defs.MapType.TheVariants.{Hash, Array};
ghost use Rattle.isa_model.specs.Machine.MapContents.{key_order};
ghost use Rattle.map_indexes.specs.PlaceKeys.{places};

use crate::inserting::insert_place;
use byteorder::{ByteOrder, LittleEndian};
use isa_model::{MapDef, MapType};
use map_indexes::{ArrayIndex, ChainIndex, Index, put_bytes};
use std::alloc::{AllocError, Global};

// The key of an array's index.
fn index_key(index: u32) -> [u8; 4]
    ensures { result ≡ little_bytes 4 index }
{
    let mut key = [0; 4];
    LittleEndian::write_u32(&mut key, index);
    key
}

// Whether the key of one index of an array is below that of another.
fn is_index_before(index: u32, other: u32) -> bool
    ensures { result ≡ is_lt (key_order (little_bytes 4 index) (little_bytes 4 other)) }
{
    index_key(index).cmp(&index_key(other)).is_lt()
}

/// Says which place each key has: the keys of an array, or those of a hash map by chains.
#[derive(Drop)]
pub enum EitherIndex {
    Array(ArrayIndex),
    Chain(ChainIndex),
}

// The place of a key of a hash map. It is out of line, so that the look-up in an array keeps no
// registers for it.
#[cold]
#[inline(never)]
fn find_in_chains(index: &ChainIndex, key: &[u8]) -> Option<usize>
    requires { length key.now ≡ index.now.keys.size }
    ensures { result ≡ get (places index.now.keys.by_place) key.now }
{
    index.find(key)
}

impl EitherIndex {
    ghost use Rattle.maps.specs.Either.{kind_of, key_size_of, room_of, places_of};
    ghost use Rattle.maps.specs.Contents.{starting_places};
    ghost use Rattle.maps.specs.ReportOrder.{IsList, listed_of, with_key_of};

    /// The index of a map as it starts.
    pub fn new(alloc: Global, row: MapDef) -> Result<Self, AllocError>
        requires { row.kind ≡ Array → row.key_size ≡ 4 }
        ensures kind { IfOk result (λ s. kind_of s ≡ row.kind) }
        ensures key_size { IfOk result (λ s. key_size_of s ≡ row.key_size) }
        ensures room { IfOk result (λ s. room_of s ≡ row.entries) }
        ensures places { IfOk result (λ s. places_of s ≡ starting_places row.kind row.entries) }
    {
        match row.kind {
            MapType::Array => Ok(EitherIndex::Array(ArrayIndex::new(row.entries))),
            MapType::Hash => {
                let index = ChainIndex::new(alloc, row.key_size, row.entries)?;
                Ok(EitherIndex::Chain(index))
            }
        }
    }

    /// Fills a list that has room with the places of a hash map's keys, in the order of the keys.
    pub fn list(&self, list: &mut Vec<usize>)
        requires { kind_of self.now ≡ Hash → room_of self.now ≤ vec_capacity list.old }
        ensures places { IsList self.now list.new.items }
        ensures capacity { vec_capacity list.new ≡ vec_capacity list.old }
    {
        if let EitherIndex::Chain(index) = self {
            index.list(list);
        }
    }

    /// Fills a list that has room with the places of all keys, in the order of the keys' bytes.
    pub fn list_places(&self, list: &mut Vec<usize>)
        requires { room_of self.now ≤ vec_capacity list.old }
        ensures places { list.new.items ≡ values (places_of self.now) }
        ensures capacity { vec_capacity list.new ≡ vec_capacity list.old }
    {
        match self {
            EitherIndex::Array(index) => index.list(list),
            EitherIndex::Chain(index) => index.list(list),
        }
    }

    /// Puts the place of a key into a list of the places of all other keys, in the order of the
    /// keys' bytes. The list has room for the places of all keys.
    pub fn insert_place(&self, key: &[u8], place: usize, list: &mut Vec<usize>)
        requires place { get (places_of self.now) key.now ≡ Some place }
        requires others { list.old.items ≡ values (remove (places_of self.now) key.now) }
        requires room { room_of self.now ≤ vec_capacity list.old }
        ensures places { list.new.items ≡ values (places_of self.now) }
        ensures capacity { vec_capacity list.new ≡ vec_capacity list.old }
    {
        match self {
            EitherIndex::Array(index) => index.list(list),
            EitherIndex::Chain(index) => insert_place(index, key, place, list),
        }
    }

    /// Whether the key of one place is below that of another, by their bytes.
    pub fn is_before(&self, place: usize, other: usize) -> bool
        requires place { (k : List ℕ) × (get (places_of self.now) k ≡ Some place) }
        requires other { (k : List ℕ) × (get (places_of self.now) k ≡ Some other) }
        ensures { (j k : List ℕ) → get (places_of self.now) j ≡ Some place
            → get (places_of self.now) k ≡ Some other → result ≡ is_lt (key_order j k) }
    {
        match self {
            EitherIndex::Array(index) => {
                let _entries = index.entries();
                is_index_before(place as u32, other as u32)
            }
            EitherIndex::Chain(index) => index.key(place).cmp(index.key(other)).is_lt(),
        }
    }

    /// Puts the k-th key in the order of the report into the front of some bytes, and returns its
    /// place. The list has the places of a hash map's keys in that order.
    pub fn placed_key(&self, list: &[usize], k: usize, key: &mut [u8]) -> Option<usize>
        requires list { IsList self.now list.now }
        requires room { key_size_of self.now ≤ length key.old }
        ensures place { result ≡ option_map (λ e. e.1) (slice_get (listed_of self.now) k) }
        ensures key { key.new ≡ with_key_of (slice_get (listed_of self.now) k) key.old }
    {
        match self {
            EitherIndex::Array(index) => {
                if k >= index.entries() as usize {
                    return None;
                }
                LittleEndian::write_u32(key, k as u32);
                Some(k)
            }
            EitherIndex::Chain(index) => {
                if k >= list.len() {
                    return None;
                }
                put_bytes(key, 0, index.key(list[k]));
                Some(list[k])
            }
        }
    }
}

impl Index for EitherIndex {
    ghost use Rattle.maps.specs.Either.{places_of, kind_of, key_size_of, room_of};
    ghost use Rattle.maps.specs.Either.{either_in_range, either_apart, either_few};

    ghost places = { places_of };

    ghost kind = { kind_of };

    ghost key_size = { key_size_of };

    ghost room = { room_of };

    fn find(&self, key: &[u8]) -> Option<usize> {
        match self {
            EitherIndex::Array(index) => index.find(key),
            EitherIndex::Chain(index) => find_in_chains(index, key),
        }
    }

    fn is_full(&self) -> bool {
        match self {
            EitherIndex::Array(index) => index.is_full(),
            EitherIndex::Chain(index) => index.is_full(),
        }
    }

    fn add(&mut self, key: &[u8]) -> Option<usize> {
        match self {
            EitherIndex::Array(index) => index.add(key),
            EitherIndex::Chain(index) => index.add(key),
        }
    }

    fn remove(&mut self, key: &[u8]) -> Option<usize> {
        match self {
            EitherIndex::Array(index) => index.remove(key),
            EitherIndex::Chain(index) => index.remove(key),
        }
    }

    ghost in_range = { either_in_range };

    ghost apart = { either_apart };

    ghost few = { either_few };
}
