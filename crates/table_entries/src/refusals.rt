//! Why the bytes are no table.

/// Says why the bytes are no table.
#[derive(Clone, Copy, PartialEq, Eq, Debug, Drop)]
pub enum TableRefusal {
    /// P1: they do not begin with `XPT1`.
    Magic,
    /// P2: they end too early.
    Short,
    /// P3: some are left over.
    Long,
    /// P4: there are no entries, or more than 1,000,000.
    Count,
    /// P5: the entry of this index has a field that is not allowed, or a byte that has no meaning.
    Entry(usize),
    /// P9: memory ran out.
    Memory,
}
