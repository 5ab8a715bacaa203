//! A key's place put into a list of the places of all other keys.

ghost use Rattle.std.specs.Prelude.{◌≡◌, ℕ, ◌<◌, ◌≤◌, List, length, Some, vec_capacity};
ghost use Rattle.std.specs.FinMap.{get, remove, values};
ghost use Rattle.std.specs.List.{insert};
ghost use Rattle.map_indexes.specs.PlaceKeys.{places};

use map_indexes::ChainIndex;

// How many of the listed keys are below a key.
fn count_below(index: &ChainIndex, list: &[usize], key: &[u8]) -> usize
    requires { list.now ≡ values (remove (places index.now.keys.by_place) key.now) }
    ensures at_most { result ≤ length list.now }
    ensures inserted { (place : ℕ) → get (places index.now.keys.by_place) key.now ≡ Some place
        → insert list.now result place ≡ values (places index.now.keys.by_place) }
{
    let mut low = 0;
    let mut high = list.len();
    while low < high {
        let middle = low + (high - low) / 2;
        if index.key(list[middle]).cmp(key).is_lt() {
            low = middle + 1;
        } else {
            high = middle;
        }
    }
    low
}

/// Puts the place of a key of a hash map into a list of the places of all other keys, in the order
/// of the keys. The list has room for the places of all keys.
pub fn insert_place(index: &ChainIndex, key: &[u8], place: usize, list: &mut Vec<usize>)
    requires place { get (places index.now.keys.by_place) key.now ≡ Some place }
    requires others { list.old.items ≡ values (remove (places index.now.keys.by_place) key.now) }
    requires room { length index.now.keys.by_place ≤ vec_capacity list.old }
    ensures places { list.new.items ≡ values (places index.now.keys.by_place) }
    ensures capacity { vec_capacity list.new ≡ vec_capacity list.old }
{
    let at = count_below(index, list.as_slice(), key);
    let _inserted = list.insert(at, place);
}
