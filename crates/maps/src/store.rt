//! The keys and values of one map.

ghost use Rattle.std.specs.Prelude.{◌≡◌, ◌+◌, ◌*◌, ◌<◌, ◌≤◌, ℕ, List, length, nat_le, vec_len, replicate, refl, vec_capacity, None, Some, IsSome, IfSome, IfOk};
ghost use Rattle.std.specs.Borrow.{sem};
ghost use Rattle.maps.specs.LentBytes.{LendsBytes};
ghost use Rattle.std.specs.List.{splice};
ghost use Rattle.std.specs.FinMap as map;
ghost use Rattle.isa_model.specs.declared.map_defs.MapType.TheVariants.{Hash, Array};
ghost use Rattle.isa_model.specs.declared.map_defs.MapDef.{MapDef};
ghost use Rattle.map_indexes.specs.BlockRows.{block_row, with_block_row};
ghost use Rattle.maps.specs.Contents.{hash_row};
ghost use Rattle.map_indexes.specs.PlaceKeys.{Places, TakesPlace};

use isa_model::{MapDef, MapType};
use map_indexes::rooms::exact;
use map_indexes::{ArrayIndex, ChainIndex, Index, ScanIndex, put_bytes};
use std::alloc::{AllocError, Global};

/// The keys and values of a map, by its map row. Each key has a place, which it keeps until it is
/// removed, and its value is what the block of values has at that place.
pub trait MapStore {
    ghost row_of: { Self → MapDef };

    ghost places: { Self → Places };

    ghost block: { Self → List ℕ };

    // The map with other bytes for the value at a place.
    ghost with_value: { Self → ℕ → List ℕ → Self };

    /// The map row.
    fn row(&self) -> MapDef
        ensures { result ≡ row_of self.now };

    /// The place of a key.
    fn find(&self, key: &[u8]) -> Option<usize>
        requires { length key.now ≡ (row_of self.now).key_size }
        ensures { result ≡ map.get (places self.now) key.now };

    /// Returns whether the map has as many keys as it may have.
    fn is_full(&self) -> bool
        ensures { result ≡ nat_le (row_of self.now).entries (map.len (places self.now)) };

    /// Writes a key's value, and returns its place: a present key keeps its own, and a new one is
    /// given a free one. None if the key is new and the map is full, as an array always is.
    fn put(&mut self, key: &[u8], value: &[u8]) -> Option<usize>
        requires key_size { length key.now ≡ (row_of self.old).key_size }
        requires value_size { length value.now ≡ (row_of self.old).value_size }
        ensures present { (p : ℕ) → map.get (places self.old) key.now ≡ Some p
            → (result ≡ Some p) × (places self.new ≡ places self.old) }
        ensures full { map.get (places self.old) key.now ≡ None
            → map.len (places self.old) ≡ (row_of self.old).entries
            → (result ≡ None) × (places self.new ≡ places self.old)
            × (block self.new ≡ block self.old) }
        ensures added { map.get (places self.old) key.now ≡ None
            → map.len (places self.old) < (row_of self.old).entries
            → IsSome result × IfSome result (λ p. TakesPlace (places self.old) key.now p
            (places self.new)) }
        ensures written { IfSome result (λ p. block self.new
            ≡ with_block_row (row_of self.old).value_size (block self.old) p value.now) }
        ensures row { row_of self.new ≡ row_of self.old };

    /// Removes a key, and returns the place that it had. Nothing is removed from an array.
    fn remove(&mut self, key: &[u8]) -> Option<usize>
        requires { length key.now ≡ (row_of self.old).key_size }
        ensures hash { (row_of self.old).kind ≡ Hash
            → (result ≡ map.get (places self.old) key.now)
            × (places self.new ≡ map.remove (places self.old) key.now) }
        ensures array { (row_of self.old).kind ≡ Array
            → (result ≡ None) × (places self.new ≡ places self.old) }
        ensures block { block self.new ≡ block self.old }
        ensures row { row_of self.new ≡ row_of self.old };

    /// The value at a place.
    fn value(&self, place: usize) -> &[u8]
        requires { place < (row_of self.now).entries }
        ensures { result.now ≡ block_row (row_of self.now).value_size (block self.now) place };

    /// The value at a place, to be written.
    fn value_mut(&mut self, place: usize) -> &mut [u8]
        requires { place < (row_of self.old).entries }
        ensures* lends { sem 𝓛 (LendsBytes Self.row self.entry result
            (with_value self.old place)) }
        ensures value { result.now ≡ block_row (row_of self.old).value_size (block self.old)
            place };

    /// Writes the value at a place.
    fn write(&mut self, place: usize, value: &[u8])
        requires place { place < (row_of self.old).entries }
        requires value_size { length value.now ≡ (row_of self.old).value_size }
        ensures block { block self.new
            ≡ with_block_row (row_of self.old).value_size (block self.old) place value.now }
        ensures places { places self.new ≡ places self.old }
        ensures row { row_of self.new ≡ row_of self.old }
    {
        self.value_mut(place).copy_from_slice(value);
    }

    // Each place is below `entries`, no two keys have one place, there are no more keys than
    // `entries`, and the block has a value for each place.
    ghost in_range: { (s : Self) (k : List ℕ) (p : ℕ) → map.get (places s) k ≡ Some p
        → p < (row_of s).entries };

    ghost apart: { (s : Self) (j k : List ℕ) (p : ℕ) → map.get (places s) j ≡ Some p
        → map.get (places s) k ≡ Some p → j ≡ k };

    ghost few: { (s : Self) → map.len (places s) ≤ (row_of s).entries };

    ghost whole: { (s : Self) → length (block s) ≡ (row_of s).entries * (row_of s).value_size };

    // What is written into a value changes its bytes of the block, and nothing else.
    ghost written_map_row: { (s : Self) (p : ℕ) (v : List ℕ)
        → row_of (with_value s p v) ≡ row_of s };

    ghost written_places: { (s : Self) (p : ℕ) (v : List ℕ)
        → places (with_value s p v) ≡ places s };

    ghost written: { (s : Self) (p : ℕ) (v : List ℕ) → p < (row_of s).entries
        → length v ≡ (row_of s).value_size
        → block (with_value s p v) ≡ with_block_row (row_of s).value_size (block s) p v };
}

/// The keys and values of a map over an index of its keys.
#[derive(Drop)]
pub struct Store<I: Index> {
    row: MapDef,
    index: I,
    values: Vec<u8>,
    ghost kind: { I.kind index ≡ row.kind },
    ghost key_size: { I.key_size index ≡ row.key_size },
    ghost room: { I.room index ≡ row.entries },
    ghost whole: { length values.items ≡ row.entries * row.value_size },
    ghost exact: { vec_capacity values ≡ row.entries * row.value_size },
}

impl<I: Index> Store<I> {
    ghost use Rattle.maps.specs.Lending.{LendsBlock};

    /// The keys and values of a map as it starts: its values are zero-filled.
    pub fn over(alloc: Global, row: MapDef, index: I) -> Result<Self, AllocError>
        requires kind { I.kind index ≡ row.kind }
        requires key_size { I.key_size index ≡ row.key_size }
        requires room { I.room index ≡ row.entries }
        ensures row { IfOk result (λ s. s.row ≡ row) }
        ensures index { IfOk result (λ s. s.index ≡ index) }
        ensures zeros { IfOk result (λ s. s.values.items
            ≡ replicate (row.entries * row.value_size) 0) }
    {
        let count = row.entries as usize * row.value_size as usize;
        let zeros = vec![in alloc; 0; count]?;
        let values = exact(zeros)?;
        Ok(Store { row, index, values })
    }

    /// The index of the keys.
    pub fn index(&self) -> &I
        ensures { result.now ≡ self.now.index }
    {
        &self.index
    }

    /// Writes bytes into the value at a place, from its `at`th byte on.
    pub fn write_value(&mut self, place: usize, at: usize, bytes: &[u8])
        requires place { place < self.old.row.entries }
        requires within { at + length bytes.now ≤ self.old.row.value_size }
        ensures row { self.new.row ≡ self.old.row }
        ensures index { self.new.index ≡ self.old.index }
        ensures block { self.new.values.items ≡ with_block_row self.old.row.value_size
            self.old.values.items place
            (splice (block_row self.old.row.value_size self.old.values.items place) at
            (at + length bytes.now) bytes.now) }
    {
        let start = place * self.row.value_size as usize;
        put_bytes(self.values.as_mut_slice(), start + at, bytes);
    }

    /// The values of all places, place after place.
    pub fn block(&self) -> &[u8]
        ensures { result.now ≡ self.now.values.items }
    {
        self.values.as_slice()
    }

    /// The values of all places, to be written.
    pub fn block_mut(&mut self) -> &mut [u8]
        ensures* lends { sem 𝓛 (LendsBlock I.row I.Index self.entry result) }
        ensures value { result.now ≡ self.old.values.items }
    {
        self.values.as_mut_slice()
    }
}

impl<I: Index> MapStore for Store<I> {
    ghost use Rattle.map_indexes.specs.BlockRowLaws.{below-same, at_most-same};
    ghost use Rattle.maps.specs.Lending.{with_value_at, with_value_at-with_block_row};

    ghost row_of = { λ s. s.row };

    ghost places = { λ s. I.places s.index };

    ghost block = { λ s. s.values.items };

    ghost with_value = { with_value_at };

    fn row(&self) -> MapDef {
        self.row
    }

    fn find(&self, key: &[u8]) -> Option<usize> {
        self.index.find(key)
    }

    fn is_full(&self) -> bool {
        self.index.is_full()
    }

    fn put(&mut self, key: &[u8], value: &[u8]) -> Option<usize> {
        let place = match self.index.find(key) {
            Some(place) => place,
            None => self.index.add(key)?,
        };
        self.write(place, value);
        Some(place)
    }

    fn remove(&mut self, key: &[u8]) -> Option<usize> {
        self.index.remove(key)
    }

    fn value(&self, place: usize) -> &[u8] {
        let size = self.row.value_size as usize;
        &self.values[place * size..place * size + size]
    }

    fn value_mut(&mut self, place: usize) -> &mut [u8] {
        let size = self.row.value_size as usize;
        let start = place * size;
        self.values.slice_mut(start..start + size)
    }

    ghost in_range = { λ s k p e. below-same p s.room (I.in_range s.index k p e) };

    ghost apart = { λ s j k p e f. I.apart s.index j k p e f };

    ghost few = { λ s. at_most-same (map.len (I.places s.index)) s.room (I.few s.index) };

    ghost whole = { λ s. s.whole };

    ghost written_map_row = { λ s p v. refl };

    ghost written_places = { λ s p v. refl };

    ghost written = { λ s p v inside size. with_value_at-with_block_row s p v inside size };
}

// The map row of a hash map.
fn hash_row(key_size: u16, value_size: u32, entries: u32) -> MapDef
    ensures { result ≡ hash_row key_size value_size entries }
{
    MapDef {
        kind: MapType::Hash,
        key_size,
        value_size,
        entries,
    }
}

/// An array.
pub type ArrayMap = Store<ArrayIndex>;

impl Store<ArrayIndex> {
    ghost use Rattle.map_indexes.specs.ArrayPlaces.{array_places};

    /// An array with all its keys, and values that are zero-filled.
    pub fn new(alloc: Global, value_size: u32, entries: u32) -> Result<Self, AllocError>
        ensures row { IfOk result (λ s. ⟦<Store<ArrayIndex> as MapStore>⟧.row_of s
            ≡ record { kind = Array; key_size = 4; value_size = value_size; entries = entries }) }
        ensures places { IfOk result (λ s. ⟦<Store<ArrayIndex> as MapStore>⟧.places s
            ≡ array_places entries) }
        ensures zeros { IfOk result (λ s. ⟦<Store<ArrayIndex> as MapStore>⟧.block s
            ≡ replicate (entries * value_size) 0) }
    {
        let row = MapDef {
            kind: MapType::Array,
            key_size: 4,
            value_size,
            entries,
        };
        Store::over(alloc, row, ArrayIndex::new(entries))
    }
}

/// A hash map whose look-ups scan all its places; tests compare the chains with it.
pub type HashMapScan = Store<ScanIndex>;

impl Store<ScanIndex> {
    /// A hash map without keys.
    pub fn new(
        alloc: Global,
        key_size: u16,
        value_size: u32,
        entries: u32,
    ) -> Result<Self, AllocError>
        ensures row { IfOk result (λ s. ⟦<Store<ScanIndex> as MapStore>⟧.row_of s
            ≡ hash_row key_size value_size entries) }
        ensures empty { IfOk result (λ s. ⟦<Store<ScanIndex> as MapStore>⟧.places s ≡ map.empty) }
    {
        let index = ScanIndex::new(alloc, key_size, entries)?;
        Store::over(alloc, hash_row(key_size, value_size, entries), index)
    }
}

/// A hash map whose look-ups go through the chain of a key.
pub type HashMapChain = Store<ChainIndex>;

impl Store<ChainIndex> {
    /// A hash map without keys.
    pub fn new(
        alloc: Global,
        key_size: u16,
        value_size: u32,
        entries: u32,
    ) -> Result<Self, AllocError>
        ensures row { IfOk result (λ s. ⟦<Store<ChainIndex> as MapStore>⟧.row_of s
            ≡ hash_row key_size value_size entries) }
        ensures empty { IfOk result (λ s. ⟦<Store<ChainIndex> as MapStore>⟧.places s ≡ map.empty) }
    {
        let index = ChainIndex::new(alloc, key_size, entries)?;
        Store::over(alloc, hash_row(key_size, value_size, entries), index)
    }
}
