//! Packet frames: what a program is run on, and what is done with it.

ghost use Rattle.std.specs.Prelude.{◌≡◌, ◌≤◌, length};
ghost use Rattle.isa_model.specs.Reporting.Frames.{action_of};
ghost use Rattle.isa_model.specs.Reporting.Reports.{action_name, is_forwarded};

/// Says what a frame's record says beside the body: a time in nanoseconds, and the interface and
/// queue that it came in by.
#[derive(Clone, Copy)]
pub struct FrameHead {
    pub time: u64,
    pub interface: u32,
    pub queue: u32,
}

/// Says what is done with a frame. Linux, `enum xdp_action`; `Invalid` is for every other answer.
#[derive(Clone, Copy)]
pub enum Action {
    Aborted,
    Drop,
    Pass,
    Tx,
    Redirect,
    Invalid,
}

impl Action {
    /// The action that a program's answer names, by its low 32 bits.
    pub fn of(answer: u64) -> Self
        ensures { result ≡ action_of answer }
    {
        match answer % 0x1_0000_0000 {
            0 => Action::Aborted,
            1 => Action::Drop,
            2 => Action::Pass,
            3 => Action::Tx,
            4 => Action::Redirect,
            _ => Action::Invalid,
        }
    }

    /// Its name in a report.
    pub fn name(self) -> &'static str
        ensures name { result.now ≡ action_name self }
        ensures short { length result.now ≤ 8 }
    {
        match self {
            Action::Aborted => "ABORTED",
            Action::Drop => "DROP",
            Action::Pass => "PASS",
            Action::Tx => "TX",
            Action::Redirect => "REDIRECT",
            Action::Invalid => "INVALID",
        }
    }

    /// Returns whether a frame with this action is written out.
    pub fn is_forwarded(self) -> bool
        ensures { result ≡ is_forwarded self }
    {
        matches!(self, Action::Pass | Action::Tx)
    }
}
