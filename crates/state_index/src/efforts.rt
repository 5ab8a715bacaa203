//! How much looking up stored states may cost.

/// Says how many parts may be compared in one verification. Past that nothing is looked up any
/// more.
const MOST: u64 = 250_000_000;

/// Says how many comparisons of parts a test of a row or of a link counts as, however many it
/// makes.
const TEST: usize = 8;

/// Says how many it takes to put a stored state into a tree, and how many for each of its parts.
const TREE: usize = 256;

const TREE_PART: usize = 16;

/// Says what looking up has cost, as a count of comparisons of parts. It does not depend on time,
/// so that the same program always has the same verdict.
#[derive(Clone, Copy, Drop)]
pub struct Effort {
    spent: u64,
}

impl Effort {
    /// Nothing was compared.
    pub fn new() -> Self {
        Effort { spent: 0 }
    }

    /// Returns whether nothing is to be compared any more.
    pub fn is_over(&self) -> bool {
        self.spent >= MOST
    }

    /// Notes this number of comparisons.
    pub fn spend(&mut self, comparisons: usize) {
        self.spent = self.spent.saturating_add(comparisons as u64);
    }

    /// Notes the cost of a test that usually ends at its first comparison.
    pub fn spend_test(&mut self) {
        self.spend(TEST);
    }

    /// Notes the cost of comparing this many parts, and of finding them.
    pub fn spend_look_up(&mut self, parts: usize) {
        self.spend(parts.saturating_add(TEST));
    }

    /// Notes the cost of this many look-ups, each of which compares this many parts.
    pub fn spend_look_ups(&mut self, count: usize, parts: usize) {
        self.spend(parts.saturating_add(TEST).saturating_mul(count));
    }

    /// Notes the cost of making a tree of states with this many parts each.
    pub fn spend_tree(&mut self, states: usize, parts: usize) {
        let each = parts.saturating_mul(TREE_PART).saturating_add(TREE);
        self.spend(states.saturating_mul(each));
    }
}
