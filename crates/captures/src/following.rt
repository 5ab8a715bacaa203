//! What contracts know of the bytes that a capture is written for, of which nothing is kept.

ghost use Rattle.std.specs.Prelude.{◌≡◌, ℕ, List, Option, None};
ghost use Rattle.std.specs.Io.KnownBytes.{Appends};

/// Says to contracts which bytes a writer is handed, and what it writes of them. When the program
/// runs it does nothing.
pub trait Followed: Drop {
    ghost use Rattle.captures.specs.declared.kinds.CaptureForm.{CaptureForm};

    /// The capture that is written, where that is known.
    ghost form: { Option CaptureForm };

    /// What its output held before, where that is known.
    ghost before: { Option (List ℕ) };

    /// What the trail began with, where that is known.
    ghost origin: { Option (List ℕ) };

    /// That, and the bytes that were handed on so far, where they are known.
    ghost handed: { Self → Option (List ℕ) };

    /// Notes that these bytes were handed on.
    fn note(&mut self, bytes: &[u8])
        ensures { Appends (handed self.old) (handed self.new) bytes.now };
}

/// Knows of nothing.
#[derive(Drop)]
pub struct Unfollowed;

impl Followed for Unfollowed {
    ghost form = { None };

    ghost before = { None };

    ghost origin = { None };

    ghost handed = { λ _. None };

    #[inline(always)]
    fn note(&mut self, _bytes: &[u8]) {}
}
