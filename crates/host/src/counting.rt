//! Machines whose packet frames are counted.
ghost use Rattle.std.specs.Prelude.{◌≡◌, ◌≤◌, length};
ghost use Rattle.host.specs.Counts.{totals_of};
ghost use Rattle.host.specs.Counting.{counting_notes};

use super::counts::FrameCounts;
use super::runners::Runner;
use isa_model::{End, FrameHead, Version};

/// A machine, and how many frames ended in each way so far.
#[derive(Drop)]
pub struct Counting<M> {
    pub runner: M,
    pub program: Version,
    pub counts: FrameCounts,
}

impl<M: Runner> Runner for Counting<M> {
    ghost use Rattle.host.specs.Counts.{Totals, totals_of};
    ghost use Rattle.host.specs.Counting.{counting_notes};

    ghost Notes = { M.Notes × Totals };

    ghost bounded = { λ c. M.bounded c.runner };

    ghost contents = { λ c. M.contents c.runner };

    ghost noted = { λ c. (M.noted c.runner, totals_of c.counts) };

    ghost notes = { λ c. counting_notes c.program (M.bounded c.runner) (M.notes c.runner) };

    #[inline(always)]
    fn run_packet(&mut self, number: u32, head: FrameHead, body: &mut [u8]) -> End {
        let end = self.runner.run_packet(number, head, body);
        self.counts.add_end(self.program, end);
        end
    }

    fn pass_over(&mut self) {
        self.runner.pass_over();
        self.counts.add_skip(self.program);
    }
}
