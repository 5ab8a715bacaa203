//! The version, and the action that a program's answer names.

ghost use Rattle.std.specs.Prelude.{◌≡◌, codes, length};
ghost use Rattle.isa_model.specs.Reporting.Frames.{action_of};
ghost use Rattle.calls.specs.Crossing.{filled};
ghost use Rattle.calls.specs.Naming.{action_number, version};

use crate::buffers::fill;
use isa_model::Action;

/// Writes the version, such as `0.1.0`, and returns how many bytes it has.
pub fn write_version(buffer: &mut [u8]) -> usize
    ensures size { result ≡ length version }
    ensures written { buffer.new ≡ filled buffer.old version }
{
    fill(buffer, b"0.1.0")
}

/// The action that a program's answer names: 0 aborted, 1 drop, 2 pass, 3 tx, 4 redirect, and 5 for
/// every other answer.
pub fn number_of_action(r0: u64) -> u32
    ensures { result ≡ action_number (action_of r0) }
{
    match Action::of(r0) {
        Action::Aborted => 0,
        Action::Drop => 1,
        Action::Pass => 2,
        Action::Tx => 3,
        Action::Redirect => 4,
        Action::Invalid => 5,
    }
}
