//! The clock of a packet frame's run.
ghost use Rattle.std.specs.Prelude.{◌<◌, ◌^◌};

use isa_model::Clock;

/// A clock whose every answer is the same time, in nanoseconds.
#[derive(Clone, Copy)]
pub struct SameTime {
    pub time: u64,
    ghost fits_64_bits: { time < 2 ^ 64 },
}

impl Clock for SameTime {
    ghost at = { λ c k. c.time };

    ghost within = { λ c k. c.fits_64_bits };

    fn now(&mut self) -> u64 {
        self.time
    }
}
