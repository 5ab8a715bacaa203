//! The error of a log, a listing or a graph.

use explorer::Refusal;
use std::alloc::AllocError;
use std::io;
use std::io::ErrorKind;

/// Says why a log, a listing or a graph of a program ends early.
#[derive(Clone, Copy, Drop)]
pub enum LookError {
    /// The program is refused, at a slot.
    Refused(Refusal, usize),
    /// The output failed.
    Writer(ErrorKind),
    Memory,
}

impl From<AllocError> for LookError {
    ghost use Rattle.std.specs.Prelude.{◌≡◌};
    ghost use Rattle.surveys.specs.declared.errors.LookError.TheVariants.{Memory};

    ghost from_gives = { λ _ e. e ≡ Memory };

    fn from(_error: AllocError) -> LookError {
        LookError::Memory
    }
}

impl From<io::Error> for LookError {
    ghost use Rattle.std.specs.Prelude.{◌≡◌};
    ghost use Rattle.std.specs.IoError.{error_kind};
    ghost use Rattle.surveys.specs.declared.errors.LookError.TheVariants.{Writer};

    ghost from_gives = { λ error e. e ≡ Writer (error_kind error) };

    fn from(error: io::Error) -> LookError {
        LookError::Writer(error.kind())
    }
}
