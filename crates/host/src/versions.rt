//! Versions by their numbers.
ghost use Rattle.frames.specs.Inputs.{IsBegunVersion};
ghost use Rattle.host.specs.Forms.{IsVersionOf};

use isa_model::{Fault, Version};

/// The version with this number.
pub fn version_of(number: u8) -> Version
    ensures { IsVersionOf number result }
{
    if number == 2 {
        Version::Two
    } else {
        Version::One
    }
}

/// The version of a stream, by what its reader found as the magic; version 1 if it found none.
pub fn version_begun(begun: Result<u8, (Fault, u64)>) -> Version
    ensures { IsBegunVersion begun result }
{
    match begun {
        Ok(number) => version_of(number),
        Err(_) => Version::One,
    }
}
