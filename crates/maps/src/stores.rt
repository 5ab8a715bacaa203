//! The stores of all maps, and the list by which one is put in the order of the report.

ghost use Rattle.std.specs.Prelude.{◌≡◌, ◌<◌, length, map, All, Some, vec_capacity};
ghost use Rattle.std.specs.Borrow.{sem};
ghost use Rattle.isa_model.specs.Machine.MachineStates.{AreBytes};
ghost use Rattle.maps.specs.Either.{places_of};
ghost use Rattle.maps.specs.Maps.{map_at, ordered_in};
ghost use Rattle.maps.specs.StoreStates.{state_by, IsListed, IsListOf};

use crate::either::EitherIndex;
use crate::ordered::Ordered;
use crate::store::Store;

// Recalls, for proofs, that each element of a slice of bytes is below 256. It does nothing.
fn are_bytes(bytes: &[u8])
    ensures { AreBytes bytes.now }
{}

/// The stores of all maps, and a list with room for the places of the largest hash map.
#[derive(Drop)]
pub struct Stores {
    pub all: Vec<Store<EitherIndex>>,
    pub list: Vec<usize>,
    /// The map whose places the list has, if no map has changed since it was made.
    pub listed: Option<usize>,
}

impl Stores {
    ghost use Rattle.maps.specs.Listing.{listed_key_values};
    ghost use Rattle.maps.specs.StoreLends.{StoresStay};

    /// The number of stores.
    pub fn count(&self) -> usize
        ensures count { result ≡ length self.now.all.items }
        ensures bytes { All (λ s. AreBytes s.values.items) self.now.all.items }
    {
        for store in &self.all {
            are_bytes(store.block());
        }
        self.all.len()
    }

    /// Makes the list that of a map, if it is not.
    fn list_places(&mut self, at: usize)
        requires at { at < length self.old.all.items }
        requires room { All (IsListed (vec_capacity self.old.list)) self.old.all.items }
        requires list { IsListOf self.old.listed self.old.list.items self.old.all.items }
        ensures list { IsListOf (Some at) self.new.list.items self.old.all.items }
        ensures listed { self.new.listed ≡ Some at }
        ensures all { self.new.all ≡ self.old.all }
        ensures capacity { vec_capacity self.new.list ≡ vec_capacity self.old.list }
    {
        if self.listed != Some(at) {
            self.all[at].index().list(&mut self.list);
            self.listed = Some(at);
        }
    }

    /// The keys and values of a map in the order of the report.
    pub fn order(&mut self, at: usize) -> Ordered<'_>
        requires at { at < length self.old.all.items }
        requires room { All (IsListed (vec_capacity self.old.list)) self.old.all.items }
        requires list { IsListOf self.old.listed self.old.list.items self.old.all.items }
        ensures pairs { listed_key_values result
            ≡ ordered_in (map_at (map (state_by places_of) self.old.all.items) at) }
        ensures* stay { sem 𝓛 (StoresStay self.entry) }
    {
        self.list_places(at);
        let sorted: &Stores = self;
        Ordered::new(&sorted.all[at], sorted.list.as_slice())
    }
}
