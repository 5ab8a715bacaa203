//! How runs end.

ghost use Rattle.std.specs.Prelude.{◌≡◌, ◌≤◌, length};
ghost use Rattle.isa_model.specs.Reporting.Reports.{trap_reason_name};

/// Says why a step is not defined. A trap changes nothing.
#[derive(Clone, Copy)]
pub enum TrapReason {
    /// No instruction begins at the slot.
    NoCode,
    /// An unset register or an unwritten byte is read.
    UnsetRead,
    /// r10 is written.
    ReadOnly,
    /// A pointer in arithmetic that is not defined on it, or as an atomic operand.
    BadPointer,
    /// A pointer's offset outside its limit.
    OutOfRange,
    /// A place outside live memory, or pieces that are no whole pointer.
    BadAccess,
    /// An undefined comparison.
    BadCompare,
    /// An unknown helper, or an argument of the wrong type.
    BadHelper,
    /// A ninth call frame.
    TooManyCallFrames,
    /// r0 is no number at the last exit.
    NoResult,
    /// The last exit of a program of version 2 names no action.
    BadAction,
}

impl TrapReason {
    /// Its name in a report.
    pub fn name(self) -> &'static str
        ensures name { result.now ≡ trap_reason_name self }
        ensures short { length result.now ≤ 8 }
    {
        match self {
            TrapReason::NoCode => "code",
            TrapReason::UnsetRead => "unset",
            TrapReason::ReadOnly => "readonly",
            TrapReason::BadPointer => "pointer",
            TrapReason::OutOfRange => "range",
            TrapReason::BadAccess => "access",
            TrapReason::BadCompare => "compare",
            TrapReason::BadHelper => "helper",
            TrapReason::TooManyCallFrames => "frames",
            TrapReason::NoResult => "exit",
            TrapReason::BadAction => "action",
        }
    }
}

/// Says how a run within a limit of steps ended.
#[derive(Clone, Copy)]
pub enum End {
    /// r0 at the last exit, and the steps done, the exit included.
    Exit(u64, u32),
    /// The reason, and the steps done before it.
    Trap(TrapReason, u32),
    /// The limit was reached.
    Limit,
}
