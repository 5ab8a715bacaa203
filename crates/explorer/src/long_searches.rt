//! Searches that get long: they forget more numbers, so that more states become one.

ghost use Rattle.std.specs.Prelude.{◌≡◌, false, IsTrue};
ghost use Rattle.walks.specs.Forgetting.{Forgets, IsNoFiner};
ghost use Rattle.explorer.specs.Search.{precision_in};

use control_flow::{Flow, KeptNumbers};
use stack_state::State;
use std::alloc::{AllocError, Global};
use walks::{forget, forget_beside};

/// After how many explored instructions a search forgets more numbers at joins.
pub const LONG_SEARCH: u32 = 5000;

/// After many explored instructions fewer numbers are kept, unless the search is exact or the
/// program is one whose numbers all stay known.
#[inline(always)]
pub fn lengthen(
    alloc: Global,
    flow: &Flow<'_>,
    explored: u32,
    is_exact: bool,
    kept: &mut Option<KeptNumbers>,
) -> Result<(), AllocError>
    ensures exact { IsTrue is_exact → kept.new ≡ kept.old }
    ensures coarser { IsNoFiner (precision_in kept.new) (precision_in kept.old) }
{
    if explored == LONG_SEARCH && !is_exact && flow.takes_input() {
        *kept = Some(flow.kept_numbers(alloc)?);
    }
    Ok(())
}

/// Forgets what does not matter of a state at which a path arrives next, and numbers that a long
/// search does not keep.
#[inline(always)]
pub fn forget_by(flow: &Flow<'_>, kept: &Option<KeptNumbers>, has_called: bool, state: &mut State)
    ensures forgets { Forgets (precision_in kept.now) flow.now state.old state.new }
    ensures callers { has_called ≡ false → state.new.callers ≡ state.old.callers }
{
    let Some(kept) = kept else {
        forget(flow, has_called, state);
        return;
    };
    let slot = state.slot;
    forget_beside(
        flow,
        kept.registers(slot),
        kept.slots(slot),
        has_called,
        state,
    );
}
