//! Marks of slots.

ghost use Rattle.std.specs.Prelude.{◌≡◌, ◌↔◌, IsTrue, length};
ghost use Rattle.control_flow.specs.Flows.{IsMarked};

/// Returns whether a slot is marked; false outside the list.
pub fn is_marked(marks: &[bool], slot: usize) -> bool
    ensures { IsTrue result ↔ IsMarked marks.now slot }
{
    marks.get(slot).copied().unwrap_or(false)
}

/// Marks a slot, if there is one, and it is inside the list.
pub fn mark(marks: &mut [bool], slot: Option<usize>)
    ensures { length marks.new ≡ length marks.old }
{
    if let Some(slot) = slot {
        if let Some(marked) = marks.get_mut(slot) {
            *marked = true;
        }
    }
}
