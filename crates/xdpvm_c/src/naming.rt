//! Exports of the version, and of the action that an answer names.

ghost use Rattle.std.specs.Prelude.{◌≡◌, length};
ghost use Rattle.isa_model.specs.Reporting.Frames.{action_of};
ghost use Rattle.calls.specs.Crossing.{filled};
ghost use Rattle.calls.specs.Naming.{version, action_number};

use calls::naming::{number_of_action, write_version};

/// Writes the version, such as `0.1.0`, and returns how many bytes it has.
#[unsafe(no_mangle)]
pub extern "C" fn xdpvm_version(buffer: &mut [u8]) -> usize
    ensures size { result ≡ length version }
    ensures written { buffer.new ≡ filled buffer.old version }
{
    write_version(buffer)
}

/// The action that a program's answer names: 0 aborted, 1 drop, 2 pass, 3 tx, 4 redirect, and 5 for
/// every other answer.
#[unsafe(no_mangle)]
pub extern "C" fn xdpvm_action(r0: u64) -> u32
    ensures { result ≡ action_number (action_of r0) }
{
    number_of_action(r0)
}
