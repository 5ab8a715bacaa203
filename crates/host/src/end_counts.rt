//! How many packet frames' runs ended by each action, and by each reason of a trap.
ghost use Rattle.std.specs.Prelude.{◌≡◌};
ghost use Rattle.host.specs.EndCounts.{no_actions, count_of_action, with_action, no_traps, count_of_trap, with_trap};

use isa_model::{Action, TrapReason};

/// Says how many frames' runs ended by each action.
#[derive(Clone, Copy)]
pub struct ActionCounts {
    pub aborted: u32,
    pub drop: u32,
    pub pass: u32,
    pub tx: u32,
    pub redirect: u32,
    pub invalid: u32,
}

impl ActionCounts {
    /// No frames.
    pub fn new() -> Self
        ensures { result ≡ no_actions }
    {
        ActionCounts {
            aborted: 0,
            drop: 0,
            pass: 0,
            tx: 0,
            redirect: 0,
            invalid: 0,
        }
    }

    /// Returns how many ended by this action.
    pub fn of(&self, action: Action) -> u32
        ensures { result ≡ count_of_action self.now action }
    {
        match action {
            Action::Aborted => self.aborted,
            Action::Drop => self.drop,
            Action::Pass => self.pass,
            Action::Tx => self.tx,
            Action::Redirect => self.redirect,
            Action::Invalid => self.invalid,
        }
    }

    /// Counts one more that ended by this action.
    #[inline(always)]
    pub fn add(&mut self, action: Action)
        ensures { self.new ≡ with_action self.old action }
    {
        match action {
            Action::Aborted => self.aborted = self.aborted.saturating_add(1),
            Action::Drop => self.drop = self.drop.saturating_add(1),
            Action::Pass => self.pass = self.pass.saturating_add(1),
            Action::Tx => self.tx = self.tx.saturating_add(1),
            Action::Redirect => self.redirect = self.redirect.saturating_add(1),
            Action::Invalid => self.invalid = self.invalid.saturating_add(1),
        }
    }
}

/// Says how many frames' runs ended by a trap of each reason.
#[derive(Clone, Copy)]
pub struct TrapCounts {
    pub no_code: u32,
    pub unset_read: u32,
    pub read_only: u32,
    pub bad_pointer: u32,
    pub out_of_range: u32,
    pub bad_access: u32,
    pub bad_compare: u32,
    pub bad_helper: u32,
    pub too_many_call_frames: u32,
    pub no_result: u32,
    pub bad_action: u32,
}

impl TrapCounts {
    /// No frames.
    pub fn new() -> Self
        ensures { result ≡ no_traps }
    {
        TrapCounts {
            no_code: 0,
            unset_read: 0,
            read_only: 0,
            bad_pointer: 0,
            out_of_range: 0,
            bad_access: 0,
            bad_compare: 0,
            bad_helper: 0,
            too_many_call_frames: 0,
            no_result: 0,
            bad_action: 0,
        }
    }

    /// Returns how many ended by a trap of this reason.
    pub fn of(&self, reason: TrapReason) -> u32
        ensures { result ≡ count_of_trap self.now reason }
    {
        match reason {
            TrapReason::NoCode => self.no_code,
            TrapReason::UnsetRead => self.unset_read,
            TrapReason::ReadOnly => self.read_only,
            TrapReason::BadPointer => self.bad_pointer,
            TrapReason::OutOfRange => self.out_of_range,
            TrapReason::BadAccess => self.bad_access,
            TrapReason::BadCompare => self.bad_compare,
            TrapReason::BadHelper => self.bad_helper,
            TrapReason::TooManyCallFrames => self.too_many_call_frames,
            TrapReason::NoResult => self.no_result,
            TrapReason::BadAction => self.bad_action,
        }
    }

    /// Counts one more that ended by a trap of this reason.
    pub fn add(&mut self, reason: TrapReason)
        ensures { self.new ≡ with_trap self.old reason }
    {
        match reason {
            TrapReason::NoCode => self.no_code = self.no_code.saturating_add(1),
            TrapReason::UnsetRead => self.unset_read = self.unset_read.saturating_add(1),
            TrapReason::ReadOnly => self.read_only = self.read_only.saturating_add(1),
            TrapReason::BadPointer => self.bad_pointer = self.bad_pointer.saturating_add(1),
            TrapReason::OutOfRange => self.out_of_range = self.out_of_range.saturating_add(1),
            TrapReason::BadAccess => self.bad_access = self.bad_access.saturating_add(1),
            TrapReason::BadCompare => self.bad_compare = self.bad_compare.saturating_add(1),
            TrapReason::BadHelper => self.bad_helper = self.bad_helper.saturating_add(1),
            TrapReason::TooManyCallFrames => {
                self.too_many_call_frames = self.too_many_call_frames.saturating_add(1);
            }
            TrapReason::NoResult => self.no_result = self.no_result.saturating_add(1),
            TrapReason::BadAction => self.bad_action = self.bad_action.saturating_add(1),
        }
    }
}
