//! All maps of an image.

ghost use Rattle.std.specs.Prelude.{◌≡◌, ◌<◌, ◌≤◌, List, length, map, All, IfOk, Some, slice_set, option_copied, ◌+◌, ℕ, vec_capacity};
ghost use Rattle.std.specs.Borrow.{sem};
ghost use Rattle.std.specs.FinMap as finmap;
ghost use Rattle.std.specs.FinMap.{values};
ghost use Rattle.std.specs.Ordering.{is_lt};
ghost use Rattle.isa_model.specs.Machine.MapContents.{at_key, key_order};
ghost use Rattle.map_indexes.specs.BlockRows.{block_row};
ghost use Rattle.isa_model.specs.declared.map_defs.MapType.TheVariants.{Hash};
ghost use Rattle.isa_model.specs.Code.MapRows.{IsRow};
ghost use Rattle.maps.specs.Maps.{IsMap, Updated, Deleted, WritesValue, map_at, content_in, starting_map, ordered_in};

use crate::either::EitherIndex;
use crate::errors::MapError;
use crate::helpers;
use crate::ordered::Ordered;
use crate::store::{MapStore, Store};
use crate::stores::Stores;
use image::Image;
use isa_model::{MapDef, MapType};
use std::alloc::Global;
use std::marker::Model;

// The most keys that a hash map of these rows has.
fn most_keys(rows: &[MapDef]) -> usize
    ensures enough { All (λ row. row.kind ≡ Hash → row.entries ≤ result) rows.now }
    ensures least { (n : ℕ) → All (λ row. row.kind ≡ Hash → row.entries ≤ n) rows.now
        → result ≤ n }
{
    let mut most = 0;
    for row in rows {
        if row.kind == MapType::Hash && row.entries > most {
            most = row.entries;
        }
    }
    most as usize
}

// An image's rows keep their limits.
fn image_rows(image: &Image) -> &[MapDef]
    ensures rows { result.now ≡ image.now.maps }
    ensures limits { All IsRow result.now }
{
    let _slots = image.slots();
    image.maps()
}

/// All maps of an image, by index: arrays, and hash maps by chains. All room is reserved when they
/// are made; no later call takes memory.
///
/// Contracts see of each map its row, the places of its keys, and the block of its values.
#[derive(Drop)]
pub struct Maps {
    stores: Stores,
}

impl Model for Maps {
    ghost use Rattle.std.specs.Prelude.{List, map, vec_capacity};
    ghost use Rattle.std.specs.Coded.{coded_list};
    ghost use Rattle.maps.specs.Either.{places_of};
    ghost use Rattle.maps.specs.Maps.{MapState, map_code};
    ghost use Rattle.maps.specs.StoreStates.{state_by, HaveRoomAndList};

    ghost Value = { List MapState };

    ghost coded = { coded_list map_code };

    ghost view = { λ maps. map (state_by places_of) maps.stores.all.items };

    ghost invariant = { λ maps. HaveRoomAndList maps.stores.listed maps.stores.list.items
        (vec_capacity maps.stores.list) (vec_capacity maps.stores.all) maps.stores.all.items };
}

impl Maps {
    ghost use Rattle.maps.specs.Listing.{listed_key_values};
    ghost use Rattle.maps.specs.MapLends.{Stay, LendsMapBlock};

    /// The maps of an image as they start.
    pub fn new(alloc: Global, image: &Image) -> Result<Self, MapError>
        ensures { IfOk result (λ maps. maps ≡ map starting_map image.now.maps) }
    {
        Maps::of_rows(alloc, image_rows(image))
    }

    /// The maps of these rows as they start: arrays with all their keys, hash maps without keys,
    /// and all values zero-filled.
    pub fn of_rows(alloc: Global, rows: &[MapDef]) -> Result<Self, MapError>
        requires { All IsRow rows.now }
        ensures { IfOk result (λ maps. maps ≡ map starting_map rows.now) }
    {
        let list = Vec::with_capacity(alloc, most_keys(rows))?;
        let mut stores = Vec::with_capacity(alloc, rows.len())?;
        for i in 0..rows.len() {
            let index = EitherIndex::new(alloc, rows[i])?;
            stores.push_reserved(Store::over(alloc, rows[i], index)?);
        }
        let all = stores;
        Ok(Maps {
            stores: Stores {
                all,
                list,
                listed: None,
            },
        })
    }

    /// Returns how many maps there are.
    pub fn count(&self) -> usize
        ensures count { result ≡ length self.now }
        ensures maps { All IsMap self.now }
    {
        self.stores.count()
    }

    /// Does nothing: it is there for proofs, to which it says what is known of each map.
    pub fn say_fits(&self)
        ensures { All IsMap self.now }
    {
        let _count = self.count();
    }

    /// A map's row.
    pub fn row(&self, map: usize) -> MapDef
        requires { map < length self.now }
        ensures { result ≡ (map_at self.now map).row }
    {
        self.stores.all[map].row()
    }

    /// The place of a key.
    pub fn find(&self, map: usize, key: &[u8]) -> Option<usize>
        requires map { map < length self.now }
        requires key_size { length key.now ≡ (map_at self.now map).row.key_size }
        ensures { result ≡ finmap.get (map_at self.now map).places key.now }
    {
        self.stores.all[map].find(key)
    }

    /// The value of a key, if it has one.
    pub fn lookup(&self, map: usize, key: &[u8]) -> Option<&[u8]>
        requires map { map < length self.now }
        requires key_size { length key.now ≡ (map_at self.now map).row.key_size }
        ensures { option_copied result ≡ at_key key.now (content_in (map_at self.now map)) }
    {
        crate::lookup(&self.stores.all[map], key)
    }

    /// Writes the value of a key, or adds the key. The answer is 0, or the error of the first test
    /// that fails, and then the map stays as it is. A present key keeps its place, and a new one is
    /// given a free one.
    pub fn update(&mut self, map: usize, key: &[u8], value: &[u8], flags: u64) -> u64
        requires map { map < length self.old }
        requires key_size { length key.now ≡ (map_at self.old map).row.key_size }
        requires value_size { length value.now ≡ (map_at self.old map).row.value_size }
        ensures updated { Updated key.now value.now flags result (map_at self.old map)
            (map_at self.new map) }
        ensures others { self.new ≡ slice_set self.old map (map_at self.new map) }
    {
        self.stores.listed = None;
        crate::update(&mut self.stores.all[map], key, value, flags)
    }

    /// Removes a key. The answer is 0, or an error, and then the map stays as it is.
    pub fn delete(&mut self, map: usize, key: &[u8]) -> u64
        requires map { map < length self.old }
        requires key_size { length key.now ≡ (map_at self.old map).row.key_size }
        ensures deleted { Deleted key.now result (map_at self.old map) (map_at self.new map) }
        ensures others { self.new ≡ slice_set self.old map (map_at self.new map) }
    {
        self.stores.listed = None;
        crate::delete(&mut self.stores.all[map], key)
    }

    /// Fills a list that has room with the places of a map's keys, in the order of the keys' bytes.
    pub fn list_places(&self, map: usize, list: &mut Vec<usize>)
        requires map { map < length self.now }
        requires room { (map_at self.now map).row.entries ≤ vec_capacity list.old }
        ensures places { list.new.items ≡ values (map_at self.now map).places }
        ensures capacity { vec_capacity list.new ≡ vec_capacity list.old }
    {
        self.stores.all[map].index().list_places(list);
    }

    /// Puts the place of a key into a list of the places of all other keys of a map, in the order
    /// of the keys' bytes. The list has room for the places of all keys.
    pub fn insert_place(&self, map: usize, key: &[u8], place: usize, list: &mut Vec<usize>)
        requires map { map < length self.now }
        requires place { finmap.get (map_at self.now map).places key.now ≡ Some place }
        requires others { list.old.items
            ≡ values (finmap.remove (map_at self.now map).places key.now) }
        requires room { (map_at self.now map).row.entries ≤ vec_capacity list.old }
        ensures places { list.new.items ≡ values (map_at self.now map).places }
        ensures capacity { vec_capacity list.new ≡ vec_capacity list.old }
    {
        self.stores.all[map].index().insert_place(key, place, list);
    }

    /// Whether the key of one place of a map is below that of another, by their bytes.
    pub fn is_before(&self, map: usize, place: usize, other: usize) -> bool
        requires map { map < length self.now }
        requires place { (k : List ℕ) × (finmap.get (map_at self.now map).places k ≡ Some place) }
        requires other { (k : List ℕ) × (finmap.get (map_at self.now map).places k ≡ Some other) }
        ensures { (j k : List ℕ) → finmap.get (map_at self.now map).places j ≡ Some place
            → finmap.get (map_at self.now map).places k ≡ Some other
            → result ≡ is_lt (key_order j k) }
    {
        self.stores.all[map].index().is_before(place, other)
    }

    /// Writes bytes into the value at a place, from its `at`th byte on.
    pub fn write_value(&mut self, map: usize, place: usize, at: usize, bytes: &[u8])
        requires map { map < length self.old }
        requires place { place < (map_at self.old map).row.entries }
        requires within { at + length bytes.now ≤ (map_at self.old map).row.value_size }
        ensures written { WritesValue place at bytes.now (map_at self.old map)
            (map_at self.new map) }
        ensures others { self.new ≡ slice_set self.old map (map_at self.new map) }
    {
        self.stores.listed = None;
        self.stores.all[map].write_value(place, at, bytes);
    }

    /// The value at a place.
    pub fn value(&self, map: usize, place: usize) -> &[u8]
        requires map { map < length self.now }
        requires place { place < (map_at self.now map).row.entries }
        ensures { result.now ≡ block_row (map_at self.now map).row.value_size
            (map_at self.now map).block place }
    {
        self.stores.all[map].value(place)
    }

    /// The keys and values of a map in the order of the report. It takes no memory, and the maps
    /// stay as they are.
    pub fn order(&mut self, map: usize) -> Ordered<'_>
        requires { map < length self.old }
        ensures pairs { listed_key_values result ≡ ordered_in (map_at self.old map) }
        ensures* stay { sem 𝓛 (Stay self.entry) }
    {
        self.stores.order(map)
    }

    /// The values of all places: that at place p begins at p times the value size.
    pub fn block(&self, map: usize) -> &[u8]
        requires { map < length self.now }
        ensures { result.now ≡ (map_at self.now map).block }
    {
        self.stores.all[map].block()
    }

    /// The values of all places, to be written.
    #[inline(always)]
    pub fn block_mut(&mut self, map: usize) -> &mut [u8]
        requires { map < length self.old }
        ensures* lends { sem 𝓛 (LendsMapBlock self.entry map result) }
        ensures value { result.now ≡ (map_at self.old map).block }
    {
        self.stores.listed = None;
        let store = &mut self.stores.all[map];
        store.block_mut()
    }
}
