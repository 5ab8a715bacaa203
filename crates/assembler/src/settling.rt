//! Whether the first bytes of a text are enough to refuse it.

ghost use Rattle.std.specs.Prelude.{◌≡◌, IsTrue, false, IfOk};
ghost use Rattle.assembler.specs.Settled.{IsTextSettled, IsTextOpen};

use super::errors::AsmErrorKind;
use super::fronts::read_front;
use std::alloc::{AllocError, Global};

/// Returns whether every text that begins with these bytes is refused for the same, at the same
/// line and column. If not, all that surely ends in them is accepted.
pub fn is_text_settled(alloc: Global, front: &[u8]) -> Result<bool, AllocError>
    ensures settled { IfOk result (λ yes. IsTrue yes → IsTextSettled front.now) }
    ensures open { IfOk result (λ yes. yes ≡ false → IsTextOpen front.now) }
{
    match read_front(alloc, front) {
        Ok(_) => return Ok(false),
        Err(refusal) => match refusal.kind {
            AsmErrorKind::Memory => return Err(AllocError),
            _ => return Ok(true),
        },
    }
}
