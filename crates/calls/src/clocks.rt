//! The clock of a run on a packet.

ghost use Rattle.std.specs.Prelude.{◌≡◌, ◌<◌, ◌^◌, ℕ};

use isa_model::Clock;

/// A clock whose every answer is the same time, in nanoseconds.
#[derive(Clone, Copy)]
pub struct FrameClock {
    pub time: u64,
    ghost fits_64_bits: { time < 2 ^ 64 },
}

impl Clock for FrameClock {
    ghost at = { λ c k. c.time };

    ghost within = { λ c k. c.fits_64_bits };

    fn now(&mut self) -> u64 {
        self.time
    }
}

/// The clock whose every answer is this time.
pub fn clock_at(time: u64) -> FrameClock
    ensures { result.time ≡ time }
{
    FrameClock { time }
}
