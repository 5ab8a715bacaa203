//! Why maps, and machines that run on them, are not made.

ghost use Rattle.std.specs.Prelude.{◌≡◌, Some};
ghost use Rattle.maps.specs.Messages.{sentence_of};

use std::alloc::{AllocError, AllocFailed};
use std::error::Error;
use std::fmt;

/// Says why maps, or a machine on maps, were not made. It has no code.
#[derive(Clone, Copy, PartialEq, Eq, Debug)]
pub enum MapError {
    /// Out of memory.
    Memory,
}

impl MapError {
    /// Returns what is wrong, in a sentence.
    pub fn sentence(self) -> &'static str
        ensures { result.now ≡ sentence_of self }
    {
        match self {
            MapError::Memory => "out of memory",
        }
    }
}

/// Writes the sentence.
impl fmt::Display for MapError {
    ghost output = { λ error. Some (sentence_of error) };

    fn fmt<W: fmt::Write>(&self, f: &mut fmt::Formatter<W>) -> fmt::Result {
        f.write_str(self.sentence())
    }
}

impl Error for MapError {}

impl From<AllocError> for MapError {
    ghost use Rattle.maps.specs.declared.errors.MapError.TheVariants.{Memory};

    ghost from_gives = { λ _ e. e ≡ Memory };

    fn from(_error: AllocError) -> MapError {
        MapError::Memory
    }
}

impl<T: Drop> From<AllocFailed<T>> for MapError {
    ghost use Rattle.maps.specs.declared.errors.MapError.TheVariants.{Memory};

    ghost from_gives = { λ _ e. e ≡ Memory };

    fn from(_error: AllocFailed<T>) -> MapError {
        MapError::Memory
    }
}
