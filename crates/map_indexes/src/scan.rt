//! Keys found by comparing them one after the other.

ghost use Rattle.std.specs.Prelude.{◌≡◌, ◌<◌, length, None, slice_index_or};
ghost use Rattle.isa_model.specs.declared.map_defs.MapType.TheVariants.{Hash};
ghost use Rattle.map_indexes.specs.PlaceKeys.{places, key_in, IsScan};

use crate::index::Index;
use crate::keys::Keys;
use std::alloc::{AllocError, Global};

/// Says which place each key of a hash map has: a scan of all places. It is there to be compared
/// with.
#[derive(Drop)]
pub struct ScanIndex {
    keys: Keys,
    len: usize,
    ghost scan: { IsScan keys.by_place len },
}

impl ScanIndex {
    ghost use Rattle.std.specs.Prelude.{IfOk};
    ghost use Rattle.std.specs.FinMap as map;

    /// An index without keys, for keys of this size.
    pub fn new(alloc: Global, key_size: u16, entries: u32) -> Result<Self, AllocError>
        ensures key_size { IfOk result (λ s. s.keys.size ≡ key_size) }
        ensures room { IfOk result (λ s. length s.keys.by_place ≡ entries) }
        ensures empty { IfOk result (λ s. places s.keys.by_place ≡ map.empty) }
    {
        let keys = Keys::new(alloc, key_size, entries)?;
        Ok(ScanIndex { keys, len: 0 })
    }

    // A place that has no key.
    fn vacant(&self) -> usize
        requires { self.now.len < length self.now.keys.by_place }
        ensures in_range { result < length self.now.keys.by_place }
        ensures free { key_in self.now.keys.by_place result ≡ None }
    {
        for i in 0..self.keys.places() {
            if !self.keys.is_used(i) {
                return i;
            }
        }
        unreachable!()
    }
}

impl Index for ScanIndex {
    ghost use Rattle.map_indexes.specs.ScanLaws.{scan_in_range, scan_apart, scan_few};

    ghost places = { λ s. places s.keys.by_place };

    ghost kind = { λ s. Hash };

    ghost key_size = { λ s. s.keys.size };

    ghost room = { λ s. length s.keys.by_place };

    fn find(&self, key: &[u8]) -> Option<usize> {
        for i in 0..self.keys.places() {
            if self.keys.is_used(i) && self.keys.key(i) == key {
                return Some(i);
            }
        }
        None
    }

    fn is_full(&self) -> bool {
        self.len == self.keys.places()
    }

    fn add(&mut self, key: &[u8]) -> Option<usize> {
        if self.len == self.keys.places() {
            return None;
        }
        let place = self.vacant();
        self.keys.put(place, key);
        self.len += 1;
        Some(place)
    }

    fn remove(&mut self, key: &[u8]) -> Option<usize> {
        let place = self.find(key)?;
        self.keys.clear(place);
        self.len -= 1;
        Some(place)
    }

    ghost in_range = { λ s k p e. scan_in_range s.keys.by_place k p e };

    ghost apart = { λ s j k p e f. scan_apart s.keys.by_place j k p e f };

    ghost few = { λ s. scan_few s.keys.by_place s.len s.scan };
}
