//! The keys and values of a map, one by one in the order of the report.

ghost use Rattle.std.specs.Prelude.{◌≡◌, ◌≤◌, option_copied};
ghost use Rattle.std.specs.List.{slice_get};
ghost use Rattle.std.specs.Option.{option_map};
ghost use Rattle.isa_model.specs.Code.Limits.{max_key_size};
ghost use Rattle.maps.specs.Either.{places_of};
ghost use Rattle.maps.specs.Maps.{ordered_in};
ghost use Rattle.maps.specs.ReportOrder.{IsList, with_key_of};
ghost use Rattle.maps.specs.StoreStates.{state_by};

use crate::either::EitherIndex;
use crate::rooms::KEY_ROOM;
use crate::store::{MapStore, Store};

/// The keys and values of a map in the order of the report: those of a hash map by the bytes of
/// their keys, those of an array by their index. Contracts see them as `listed_key_values`.
#[derive(Drop)]
pub struct Ordered<'a> {
    store: &'a Store<EitherIndex>,
    list: &'a [usize],
    ghost listed: { IsList store.now.index list.now },
    ghost key_size: { store.now.row.key_size ≤ max_key_size },
}

impl<'a> Ordered<'a> {
    ghost use Rattle.maps.specs.Listing.{listed_key_values};

    /// Over a list of the places of a hash map's keys, in the order of the keys.
    pub fn new(store: &'a Store<EitherIndex>, list: &'a [usize]) -> Self
        requires list { IsList store.now.index list.now }
        requires key_size { store.now.row.key_size ≤ max_key_size }
        ensures { listed_key_values result ≡ ordered_in (state_by places_of store.now) }
    {
        Ordered { store, list }
    }

    /// The value of the k-th key, from 0, if there is one; the key is put into the front of `key`.
    pub fn key_value(&self, k: usize, key: &mut [u8; KEY_ROOM]) -> Option<&'a [u8]>
        ensures value { option_copied result
            ≡ option_map (λ e. e.1) (slice_get (listed_key_values self.now) k) }
        ensures key { key.new ≡ with_key_of (slice_get (listed_key_values self.now) k) key.old }
    {
        let place = self.store.index().placed_key(self.list, k, key)?;
        Some(self.store.value(place))
    }
}
