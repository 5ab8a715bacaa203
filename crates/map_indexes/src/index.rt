//! Indexes: which place each key of a map has.

ghost use Rattle.std.specs.Prelude.{◌≡◌, ◌≢◌, ◌<◌, ◌≤◌, ℕ, List, length, nat_le, None, Some, IsSome, IfSome};
ghost use Rattle.std.specs.FinMap as map;
ghost use Rattle.isa_model.specs.declared.map_defs.MapType.{MapType};
ghost use Rattle.isa_model.specs.declared.map_defs.MapType.TheVariants.{Hash, Array};
ghost use Rattle.map_indexes.specs.PlaceKeys.{Places, TakesPlace};

/// Says which place each key of a map has. The places are the numbers below `room`, and a key keeps
/// its place until it is removed.
pub trait Index: Drop {
    ghost places: { Self → Places };

    ghost kind: { Self → MapType };

    ghost key_size: { Self → ℕ };

    ghost room: { Self → ℕ };

    /// The place of a key, if it has one.
    fn find(&self, key: &[u8]) -> Option<usize>
        requires { length key.now ≡ key_size self.now }
        ensures { result ≡ map.get (places self.now) key.now };

    /// Returns whether there are as many keys as places.
    fn is_full(&self) -> bool
        ensures { result ≡ nat_le (room self.now) (map.len (places self.now)) };

    /// Gives a new key a free place, if there is one.
    fn add(&mut self, key: &[u8]) -> Option<usize>
        requires size { length key.now ≡ key_size self.old }
        requires absent { map.get (places self.old) key.now ≡ None }
        ensures full { map.len (places self.old) ≡ room self.old → result ≡ None }
        ensures found { map.len (places self.old) < room self.old → IsSome result }
        ensures unchanged { result ≡ None → places self.new ≡ places self.old }
        ensures added { IfSome result (λ p. TakesPlace (places self.old) key.now p
            (places self.new)) }
        ensures kind { kind self.new ≡ kind self.old }
        ensures key_size { key_size self.new ≡ key_size self.old }
        ensures room { room self.new ≡ room self.old };

    /// Takes a key's place away, and returns it. Nothing is removed from an array.
    fn remove(&mut self, key: &[u8]) -> Option<usize>
        requires { length key.now ≡ key_size self.old }
        ensures hash { kind self.old ≡ Hash → (result ≡ map.get (places self.old) key.now)
            × (places self.new ≡ map.remove (places self.old) key.now) }
        ensures array { kind self.old ≡ Array → (result ≡ None)
            × (places self.new ≡ places self.old) }
        ensures kind { kind self.new ≡ kind self.old }
        ensures key_size { key_size self.new ≡ key_size self.old }
        ensures room { room self.new ≡ room self.old };

    // Each place is below the room, no two keys have one place, and there are no more keys than
    // places.
    ghost in_range: { (s : Self) (k : List ℕ) (p : ℕ) → map.get (places s) k ≡ Some p
        → p < room s };

    ghost apart: { (s : Self) (j k : List ℕ) (p : ℕ) → map.get (places s) j ≡ Some p
        → map.get (places s) k ≡ Some p → j ≡ k };

    ghost few: { (s : Self) → map.len (places s) ≤ room s };
}
