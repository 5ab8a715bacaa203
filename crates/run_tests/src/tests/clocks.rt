//! A run with a clock that always answers the greatest time.

ghost use Rattle.std.proofs.Common.{lit<};

use super::programs::image_of;
use checked_vm::Checked;
use isa_model::{Clock, End, FrameHead};
use std::alloc::Global;

#[derive(Drop)]
struct GreatestTime;

impl Clock for GreatestTime {
    ghost at = { λ _ _. 0xffffffffffffffff };

    ghost within = { λ _ _. lit< tt };

    fn now(&mut self) -> u64 {
        0xffff_ffff_ffff_ffff
    }
}

const HEAD: FrameHead = FrameHead {
    time: 0,
    interface: 0,
    queue: 0,
};

/// Returns r0 at the last exit of a program and the steps that it took, on an empty packet with
/// that clock.
fn exit_of(alloc: Global, text: &str) -> Option<(u64, u32)> {
    let mut checked = Checked::new(alloc, image_of(alloc, text)?).ok()?;
    match checked.run(HEAD, &mut [], &mut GreatestTime, 100) {
        End::Exit(value, steps) => Some((value, steps)),
        _ => None,
    }
}

#[test]
fn the_clock_answers_in_64_bits(rt: HostRuntime) {
    assert!(rt; exit_of(rt.alloc(), "call 5; r0 &= 3; exit") == Some((3, 3)));
}
