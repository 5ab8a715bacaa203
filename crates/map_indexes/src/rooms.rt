//! Lists that have room for no more than their elements.

ghost use Rattle.std.specs.Prelude.{◌≡◌, length, IfOk, vec_capacity};

use std::alloc::AllocError;

/// The list, if its elements fill all its room, which `vec!` does not promise. For a list with more
/// room the error is that memory ran out.
pub fn exact<T: Drop>(list: Vec<T>) -> Result<Vec<T>, AllocError>
    ensures same { IfOk result (λ l. l ≡ list) }
    ensures room { IfOk result (λ l. vec_capacity l ≡ length l.items) }
{
    if list.capacity() == list.len() {
        Ok(list)
    } else {
        Err(AllocError)
    }
}
