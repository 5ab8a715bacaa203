//! Maps whose values have serials.

ghost use Rattle.std.specs.Prelude.{◌≡◌, ◌+◌, ◌==◌, ◌<◌, ◌≤◌, ◌^◌, length, map, if◌then◌else◌, IfOk, IfSome, IsSomeAnd, slice_get, option_copied};
ghost use Rattle.std.specs.Option.{option_map};
ghost use Rattle.std.specs.FinMap.{get};
ghost use Rattle.isa_model.specs.declared.map_defs.MapType.TheVariants.{Array};
ghost use Rattle.isa_model.specs.Code.MapRows.{IsRow};
ghost use Rattle.isa_model.specs.Machine.States.{key_values_of};
ghost use Rattle.isa_model.specs.Machine.MachineStates.{FitRows};
ghost use Rattle.isa_model.specs.Machine.MapContents.{at_key, update_answer, delete_answer};
ghost use Rattle.isa_model.specs.Machine.Steps.{one_serial};
ghost use Rattle.isa_model.specs.Running.Runs.{numbered_maps, count_map_values};
ghost use Rattle.maps.specs.Maps.{rows_of, contents_of, map_at};
ghost use Rattle.live_maps.specs.Live.{place_if_new, content_at, value_bytes, with_value, with_bytes, without};

use crate::asked;
use crate::numbering::number_all;
use crate::place_serials::PlaceSerials;
use crate::serials::{find_serial, give_next, serial_at, serials_for, take_from};
use isa_model::MapDef;
use maps::Maps;
use std::alloc::{AllocError, Global};
use std::marker::Model;

/// All maps of a program in a run. The value of each key has a serial, which no other value has
/// had before it in the run.
///
/// Contracts see the rows, the contents with their serials, and the serial that is given next.
#[derive(Drop)]
pub struct LiveMaps {
    maps: Maps,
    serials: Vec<PlaceSerials>,
    next: u64,
}

impl Model for LiveMaps {
    ghost use Rattle.std.specs.Prelude.{vec_capacity};
    ghost use Rattle.maps.specs.Maps.{rows_of};
    ghost use Rattle.live_maps.specs.Live.{Live, live_contents};
    ghost use Rattle.live_maps.specs.PlaceOrders.{AreLiveMaps, serials_in};

    ghost Value = { Live };

    ghost view = { λ l. record {
      rows = rows_of l.maps;
      contents = live_contents l.maps (serials_in l.serials.items);
      next_serial = l.next;
    } };

    ghost invariant = { λ l. AreLiveMaps (vec_capacity l.serials) l.next l.maps l.serials.items };
}

// The place of a key that had none before.
fn new_place(maps: &Maps, index: usize, key: &[u8], before: Option<usize>) -> Option<usize>
    requires map { index < length maps.now }
    requires key_size { length key.now ≡ (map_at maps.now index).row.key_size }
    ensures { result ≡ place_if_new before (get (map_at maps.now index).places key.now) }
{
    match before {
        Some(_) => None,
        None => maps.find(index, key),
    }
}

// The place, if the answer says that something was done.
fn place_done(answer: u64, place: Option<usize>) -> Option<usize>
    ensures { result ≡ (if answer == 0 then place else None) }
{
    if answer == 0 { place } else { None }
}

impl LiveMaps {
    /// Takes all memory that runs need.
    pub fn new(alloc: Global, maps: Maps) -> Result<Self, AllocError>
        requires { length maps ≤ 2 ^ 16 }
        ensures rows { IfOk result (λ l. l.rows ≡ rows_of maps) }
        ensures contents { IfOk result (λ l. map key_values_of l.contents ≡ contents_of maps) }
    {
        let mut serials = serials_for(alloc, &maps)?;
        let next = number_all(&maps, &mut serials);
        Ok(LiveMaps {
            maps,
            serials,
            next,
        })
    }

    /// Returns how many maps there are. Their contents fit the rows.
    pub fn count(&self) -> usize
        ensures count { result ≡ length self.now.rows }
        ensures fit { FitRows self.now.rows (map key_values_of self.now.contents) }
    {
        self.maps.count()
    }

    /// A map's row, if there is a map with this index.
    pub fn row(&self, map: usize) -> Option<MapDef>
        ensures found { result ≡ slice_get self.now.rows map }
        ensures fits { IfSome result IsRow }
    {
        if map < self.serials.len() {
            Some(self.maps.row(map))
        } else {
            None
        }
    }

    /// The bytes of the value of a serial, if it is live.
    pub fn value(&self, map: usize, serial: u64) -> Option<&[u8]>
        ensures { option_copied result ≡ value_bytes (content_at self.now map) serial }
    {
        match find_serial(&self.serials, map, serial) {
            Some(place) => Some(self.maps.value(map, place)),
            None => None,
        }
    }

    /// Writes bytes into the value of a serial, from its `at`th byte on.
    pub fn write(&mut self, map: usize, serial: u64, at: usize, bytes: &[u8])
        requires { IsSomeAnd (value_bytes (content_at self.old map) serial)
            (λ value. at + length bytes.now ≤ length value) }
        ensures { self.new ≡ with_value self.old map serial at bytes.now }
    {
        match find_serial(&self.serials, map, serial) {
            Some(place) => {
                self.maps.write_value(map, place, at, bytes);
                self.maps.say_fits();
            }
            None => {}
        }
    }

    /// The serial of a key's value, if it has one.
    pub fn lookup(&mut self, map: usize, key: &[u8]) -> Option<u64>
        requires { IsSomeAnd (slice_get self.old.rows map) (λ row. length key.now ≡ row.key_size) }
        ensures serial { result
            ≡ option_map (λ v. v.serial) (at_key key.now (content_at self.old map)) }
        ensures same { self.new ≡ self.old }
    {
        let place = asked::find(&mut self.maps, map, key)?;
        serial_at(&self.serials, map, place)
    }

    /// Writes the value of a key, or adds the key with the next serial. The answer is 0, or the
    /// error of the first test that fails, and then all stays as it is.
    pub fn update(&mut self, map: usize, key: &[u8], value: &[u8], flags: u64) -> u64
        requires sizes { IsSomeAnd (slice_get self.old.rows map)
            (λ row. (length key.now ≡ row.key_size) × (length value.now ≡ row.value_size)) }
        requires serial { self.old.next_serial < 2 ^ 63 }
        ensures answer { IsSomeAnd (slice_get self.old.rows map) (λ row. result
            ≡ update_answer row (content_at self.old map) key.now flags) }
        ensures updated { self.new ≡ (if result == 0
            then with_bytes self.old map key.now value.now else self.old) }
    {
        let found = self.maps.find(map, key);
        let answer = asked::update(&mut self.maps, map, key, value, flags);
        self.maps.say_fits();
        let place = new_place(&self.maps, map, key, found);
        self.next = give_next(&mut self.serials, map, place, self.next);
        answer
    }

    /// Removes a key, and its value's serial with it. The answer is 0, or an error, and then all
    /// stays as it is.
    pub fn delete(&mut self, map: usize, key: &[u8]) -> u64
        requires { IsSomeAnd (slice_get self.old.rows map) (λ row. length key.now ≡ row.key_size) }
        ensures answer { IsSomeAnd (slice_get self.old.rows map) (λ row. result
            ≡ delete_answer row (content_at self.old map) key.now) }
        ensures deleted { self.new ≡ (if result == 0
            then without self.old map key.now else self.old) }
    {
        let found = self.maps.find(map, key);
        let answer = asked::delete(&mut self.maps, map, key);
        self.maps.say_fits();
        take_from(&mut self.serials, map, place_done(answer, found));
        answer
    }

    /// The serial of the only value of an array of one key.
    pub fn only_serial(&self, map: usize) -> u64
        requires { IsSomeAnd (slice_get self.now.rows map)
            (λ row. (row.kind ≡ Array) × (row.entries ≡ 1)) }
        ensures { result ≡ one_serial (content_at self.now map) }
    {
        serial_at(&self.serials, map, 0).unwrap_or(0)
    }

    /// Takes the next serial.
    pub fn take_serial(&mut self) -> u64
        requires { self.old.next_serial < 2 ^ 63 }
        ensures serial { result ≡ self.old.next_serial }
        ensures taken { self.new ≡ record self.old {
          next_serial = self.old.next_serial + 1;
        } }
    {
        let serial = self.next;
        self.next += 1;
        serial
    }

    /// Numbers all values from 0 on, map by map, and in each by the bytes of the keys. It takes no
    /// memory.
    pub fn renumber(&mut self)
        ensures few { self.new.next_serial ≤ 2 ^ 32 }
        ensures numbered { self.new ≡ record self.old {
          contents = numbered_maps 0 (map key_values_of self.old.contents);
          next_serial = count_map_values (map key_values_of self.old.contents);
        } }
    {
        let count = number_all(&self.maps, &mut self.serials);
        self.next = count;
    }

    /// Returns the maps.
    pub fn into_maps(self) -> Maps
        ensures rows { rows_of result ≡ self.rows }
        ensures contents { contents_of result ≡ map key_values_of self.contents }
    {
        self.maps
    }
}
