//! The arguments that the program is given.

ghost use Rattle.std.specs.Prelude.{◌≡◌, ◌≢◌};
ghost use Rattle.std.specs.IoError.{error_kind};
ghost use Rattle.words.specs.Asked.{IsWrong};

use super::tasks::WordsError;
use std::env::Env;
use std::io;
use std::io::ErrorKind;

// Why the arguments could not be read.
fn failure_of(error: &io::Error) -> WordsError
    ensures memory { error_kind error.now ≡ ErrorKind.OutOfMemory → result ≡ WordsError.Memory }
    ensures wrong { error_kind error.now ≢ ErrorKind.OutOfMemory → IsWrong result }
{
    match error.kind() {
        ErrorKind::OutOfMemory => WordsError::Memory,
        _ => WordsError::NotUnicode,
    }
}

/// The words that the program was given: its name, and then the arguments.
pub fn given_words<R: Env + AllocGlobal>(rt: &R) -> Result<Vec<String>, WordsError> {
    match std::env::args(rt) {
        Ok(words) => Ok(words.collect(rt.alloc())?),
        Err(error) => Err(failure_of(&error)),
    }
}
