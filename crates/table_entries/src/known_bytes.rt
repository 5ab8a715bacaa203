//! Bytes that are known to spell parts of a state: where an entry has the same bytes, it has the
//! same parts, which need not be compared with it one by one.

ghost use Rattle.std.specs.Prelude.{◌≡◌, ℕ, IfSome, take, None, if◌then◌else◌};
ghost use Rattle.stack_state.specs.declared.states.State.{State};
ghost use Rattle.table_entries.specs.KnownBytes.{AreSpelled, BeginsKnown, IsNoted};

use crate::forgetting::after;
use crate::slices::{begins_with, skip};
use arrayvec::ArrayVec;
use stack_state::MAX_CALLERS;

/// The bytes of an outer call frame.
#[derive(Clone, Copy, Drop)]
pub struct FrameBytes<'a> {
    pub bytes: &'a [u8],
}

impl<'a> Default for FrameBytes<'a> {
    fn default() -> Self {
        FrameBytes { bytes: &[] }
    }
}

/// The bytes of outer call frames, the outermost first, and those of the stack slots of the
/// innermost one.
#[derive(Drop)]
pub struct KnownBytes<'a> {
    pub(crate) frames: ArrayVec<FrameBytes<'a>, MAX_CALLERS>,
    pub(crate) slots: Option<&'a [u8]>,
}

impl<'a> KnownBytes<'a> {
    /// No bytes are known.
    pub fn none() -> KnownBytes<'a>
        ensures { (rows : ℕ) (a : State) → AreSpelled rows result a }
    {
        KnownBytes {
            frames: ArrayVec::new(),
            slots: None,
        }
    }

    /// Returns the same bytes.
    pub fn copy(&self) -> KnownBytes<'a>
        ensures { result ≡ self.now }
    {
        let mut frames = ArrayVec::new();
        let Ok(()) = frames.try_extend_from_slice(&self.frames) else {
            unreachable!()
        };
        KnownBytes {
            frames,
            slots: self.slots,
        }
    }

    /// Keeps only those of the first call frames, this many, and those of the stack slots if
    /// `with_slots` says so.
    pub fn keep(&mut self, count: usize, with_slots: bool)
        ensures frames { self.new.frames.items ≡ take count self.old.frames.items }
        ensures slots { self.new.slots ≡ (if with_slots then self.old.slots else None) }
    {
        self.frames.truncate(count);
        if !with_slots {
            self.slots = None;
        }
    }

    // The bytes of the innermost call frame in an entry, if those of all outer ones are known.
    pub(crate) fn inner_bytes(&self, entry: &'a [u8]) -> &'a [u8] {
        let mut rest = after(entry, 7);
        let frames = self.frames.as_slice();
        for holder in 0..frames.len() {
            rest = after(rest, frames[holder].bytes.len());
        }
        rest
    }

    /// Nothing is known any more.
    pub fn forget(&mut self)
        ensures { (rows : ℕ) (a : State) → AreSpelled rows self.new a }
    {
        self.keep(0, false);
    }
}

/// The bytes after those that are known for a call frame, if the bytes begin with these.
#[inline(always)]
pub fn after_known<'a>(known: &[FrameBytes<'a>], holder: usize, bytes: &'a [u8]) -> Option<&'a [u8]>
    ensures { IfSome result (λ rest. BeginsKnown known.now holder bytes.now rest.now) }
{
    match known.get(holder) {
        Some(frame) => {
            if begins_with(bytes, frame.bytes) {
                Some(skip(bytes, frame.bytes.len()))
            } else {
                None
            }
        }
        None => None,
    }
}

/// The bytes become known for a call frame, if it is the first for which none are.
pub fn note<'a>(known: &mut ArrayVec<FrameBytes<'a>, MAX_CALLERS>, holder: usize, bytes: &'a [u8])
    ensures { IsNoted holder bytes.now known.old.items known.new.items }
{
    if known.len() == holder && !known.is_full() {
        known.push(FrameBytes { bytes });
    }
}
