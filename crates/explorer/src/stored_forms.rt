//! The form in which a state is stored.

ghost use Rattle.std.specs.Prelude.{◌≡◌, None, IfOk, IfSome};
ghost use Rattle.state_index.specs.Parts.{AreParts};

use kept_states::{Kept, Others};
use stack_state::State;
use state_index::Part;
use std::alloc::{AllocError, Global};

/// The state as it is stored: as it was kept already, if its parts are in groups; if not, it may
/// share with other states.
#[inline(always)]
pub fn stored_form(
    alloc: Global,
    state: &State,
    kept: Option<Kept>,
    parts: &mut Vec<Part>,
    others: Others<'_>,
) -> Result<Kept, AllocError>
    requires drawn { kept ≡ None → AreParts parts.old.items state.now.innermost }
    requires kept { IfSome kept (λ s. s ≡ state.now) }
    ensures { IfOk result (λ k. k ≡ state.now) }
{
    let Some(kept) = kept else {
        return Kept::of_parts(alloc, state, parts, others);
    };
    match kept.is_listed() {
        true => Kept::of_others(alloc, state, parts, others),
        false => Ok(kept),
    }
}
