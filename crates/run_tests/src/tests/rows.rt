//! Tables of tests: rows that hold or not.

use std::alloc::Global;
use std::process::Abort;

/// A row of a table.
pub trait Holds {
    fn holds(&self, alloc: Global) -> bool;
}

/// Fails with the table's name and the index of a row, unless all rows hold. All tests share this
/// one loop and this one assertion, which each take seconds of proof.
pub fn hold_all<R: Holds>(rt: &(impl AllocGlobal + Abort), table: &str, rows: &[R]) {
    for (index, row) in rows.iter().enumerate() {
        assert!(rt; row.holds(rt.alloc()), "{table}: row {index}");
    }
}

/// Fails with the index of a row and a number of bytes or of turns, unless the row holds with it.
pub fn holds_at(rt: &impl Abort, is_so: bool, index: usize, count: usize) {
    assert!(rt; is_so, "row {index} at {count}");
}
