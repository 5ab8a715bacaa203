//! The version of a stream.
ghost use Rattle.std.specs.Prelude.{◌≡◌};
ghost use Rattle.isa_model.specs.declared.versions.Version.{Version};
ghost use Rattle.isa_model.specs.Code.Versions.{version_number};
ghost use Rattle.frames.specs.Inputs.{IsBegunVersion};

use isa_model::{Fault, Version};

/// The version with this number.
fn version_of(number: u8) -> Version
    ensures { (v : Version) → number ≡ version_number v → result ≡ v }
{
    if number == 2 {
        Version::Two
    } else {
        Version::One
    }
}

/// The version of a stream, by what its reader found as the magic; version 1 if it found none.
pub fn version_begun(begun: Result<u8, (Fault, u64)>) -> Version
    ensures { IsBegunVersion begun result }
{
    match begun {
        Ok(number) => version_of(number),
        Err(_) => Version::One,
    }
}
