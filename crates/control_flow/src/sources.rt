//! From which slots jumps go to a slot.

ghost use Rattle.std.specs.Prelude.{◌≡◌, ◌<◌, ℕ, Some, length, IfOk};
ghost use Rattle.control_flow.specs.Nodes.{jump_from};
ghost use Rattle.control_flow.specs.Sources.{AreSources};

use crate::nodes::Node;
use std::alloc::{AllocError, Global};

/// For each slot the jumps to it, as a chain from the last one back.
#[derive(Drop)]
pub struct Sources {
    /// For each slot the last slot with a jump to it.
    pub last: Vec<Option<usize>>,
    /// For each jump's slot the last slot below it with a jump to the same target.
    pub before: Vec<Option<usize>>,
}

/// The jumps of a program, by where they lead.
pub fn sources_of(alloc: Global, nodes: &[Node]) -> Result<Sources, AllocError>
    requires { (slot to : ℕ) → jump_from nodes.now slot ≡ Some to → to < length nodes.now }
    ensures { IfOk result (λ sources. AreSources nodes.now
        sources.last.items sources.before.items) }
{
    let mut last = vec![in alloc; None; nodes.len()]?;
    let mut before = Vec::with_capacity(alloc, nodes.len())?;
    for slot in 0..nodes.len() {
        let mut earlier = None;
        if let Some(to) = nodes[slot].jumps_to {
            earlier = last[to];
            last[to] = Some(slot);
        }
        before.push(earlier)?;
    }
    Ok(Sources { last, before })
}
