//! Room for the bytes of a map value.

ghost use Rattle.std.specs.Prelude.{◌≡◌, ◌≤◌, length, take, vec_capacity, IfOk};
ghost use Rattle.isa_model.specs.Code.Limits.{max_value_size};

use maps::VALUE_ROOM;
use std::alloc::{AllocError, Global};

/// A list of this number of zeros, with capacity for no more. `vec!` may make a list with more
/// capacity; that is treated as if memory ran out.
pub fn zeros(alloc: Global, count: usize) -> Result<Vec<u8>, AllocError>
    ensures zeros { IfOk result (λ bytes. length bytes.items ≡ count) }
    ensures exact { IfOk result (λ bytes. vec_capacity bytes ≡ count) }
{
    let bytes = vec![in alloc; 0; count]?;
    if bytes.capacity() == count {
        Ok(bytes)
    } else {
        Err(AllocError)
    }
}

/// Room for the bytes of a map value, which are kept at its front.
#[derive(Drop)]
pub struct Room {
    bytes: Vec<u8>,
    ghost whole: { length bytes.items ≡ max_value_size },
    ghost exact: { vec_capacity bytes ≡ max_value_size },
}

impl Room {
    /// Room for the longest map value.
    pub fn new(alloc: Global) -> Result<Self, AllocError> {
        let bytes = zeros(alloc, VALUE_ROOM)?;
        Ok(Room { bytes })
    }

    /// Copies some bytes to the front.
    pub fn keep(&mut self, bytes: &[u8])
        requires { length bytes.now ≤ max_value_size }
        ensures { take (length bytes.now) self.new.bytes.items ≡ bytes.now }
    {
        flatmem::copy(bytes, self.bytes.as_mut_slice(), 0);
    }

    /// The first `count` bytes.
    pub fn front(&self, count: usize) -> &[u8]
        requires { count ≤ max_value_size }
        ensures front { result.now ≡ take count self.now.bytes.items }
        ensures size { length result.now ≡ count }
    {
        &self.bytes[..count]
    }
}
