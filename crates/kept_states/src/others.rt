//! Other states, with which a state that is kept may share what is the same.

use crate::around::Around;
use crate::callers::Callers;
use crate::groups::FEW;
use crate::kept::Kept;
use crate::kept_frames::KeptFrame;

/// Another state, with which a state may share what is the same.
#[derive(Clone, Copy)]
pub struct Other<'a> {
    pub innermost: Option<&'a KeptFrame>,
    pub callers: Option<&'a Callers>,
}

impl<'a> Other<'a> {
    /// The state, if there is one.
    pub fn of(state: Option<&'a Kept>) -> Self {
        match state {
            Some(state) => Other {
                innermost: Some(state.innermost()),
                callers: Some(state.callers()),
            },
            None => Other {
                innermost: None,
                callers: None,
            },
        }
    }

    /// A state of which only what is around its innermost call frame is kept so.
    pub fn around(around: &'a Around) -> Self {
        Other {
            innermost: None,
            callers: Some(&around.callers),
        }
    }
}

/// Two other states, with which a state may share what is the same.
#[derive(Clone, Copy)]
pub struct Others<'a> {
    pub first: Other<'a>,
    pub second: Other<'a>,
    /// Says how many parts the innermost call frame has at most in no groups.
    pub most: usize,
}

impl<'a> Others<'a> {
    /// Their callers.
    pub fn callers(self) -> (Option<&'a Callers>, Option<&'a Callers>) {
        (self.first.callers, self.second.callers)
    }

    /// One other state, if there is one.
    pub fn one(other: Option<&'a Kept>) -> Self {
        Others {
            first: Other::of(other),
            second: Other::of(None),
            most: FEW,
        }
    }
}
