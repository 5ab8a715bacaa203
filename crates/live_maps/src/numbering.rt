//! The numbering at the start of a run: serials from 0 on.

ghost use Rattle.std.specs.Prelude.{◌≡◌, ◌≤◌, length, All, vec_capacity, ◌^◌};
ghost use Rattle.maps.specs.Maps.{IsMap};
ghost use Rattle.live_maps.specs.PlaceOrders.{AreOrdersOf, serials_in};
ghost use Rattle.live_maps.specs.Numbering.{IsNumbered};

use crate::place_serials::PlaceSerials;
use maps::Maps;

/// Numbers the values of all maps from 0 on, and returns how many there are. A map costs what its
/// keys that came or went since the last numbering cost.
pub fn number_all(maps: &Maps, all: &mut Vec<PlaceSerials>) -> u64
    requires few { length maps.now ≤ 2 ^ 16 }
    requires kept { AreOrdersOf maps.now all.old.items }
    ensures numbered { IsNumbered result maps.now (serials_in all.new.items) }
    ensures maps { All IsMap maps.now }
    ensures room { vec_capacity all.new ≡ vec_capacity all.old }
    ensures kept { AreOrdersOf maps.now all.new.items }
{
    let mut next = 0;
    for m in 0..maps.count() {
        next += all[m].number(maps, m, next);
    }
    next
}
