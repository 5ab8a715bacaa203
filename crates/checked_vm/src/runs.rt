//! Whole runs within a limit of steps.

ghost use Rattle.std.specs.Prelude.{◌≡◌, ◌≢◌, ◌+◌, ◌<◌, ◌≤◌, ◌^◌, ℕ, List, ◌++◌, map, vec_capacity};
ghost use Rattle.isa_model.specs.Code.Instructions.{Program};
ghost use Rattle.isa_model.specs.Machine.States.{State, key_values_of};
ghost use Rattle.isa_model.specs.Code.Limits.{max_call_frames};
ghost use Rattle.isa_model.specs.Machine.Steps.{step};
ghost use Rattle.isa_model.specs.Running.Runs.{progress, turn_of, left, turn, start_state};
ghost use Rattle.checked_vm.specs.Machine.{state_of, NamesAllRows, IsRunning, StaysRunning};
ghost use Rattle.checked_vm.specs.declared.steps.Stepped.{Stepped};
ghost use Rattle.checked_vm.specs.StepResults.{IsStep, ClockAnswers};
ghost use Rattle.checked_vm.specs.Stops.{state_at};
ghost use Rattle.checked_vm.specs.Watching.{begun_in, begun_on};

use crate::core_state::Core;
use crate::steps::Stepped;
use crate::watching::Watcher;
use isa_model::{Clock, End, FrameHead, Insn, TrapReason, Version};

impl Core {
    /// One step of a program of this version, whose instructions are listed by slot.
    #[tactic(auto, unfolding(isa_model::specs::Machine::Steps::step))]
    fn step(&mut self, insns: &[Option<Insn>], version: Version, packet: &mut [u8]) -> Stepped
        requires running { IsRunning self.old }
        requires serial { self.old.maps.next_serial < 2 ^ 63 }
        requires named { NamesAllRows self.old.maps.rows insns.now }
        ensures stays { StaysRunning self.old self.new }
        ensures step { (p : Program) (clock : ℕ → ℕ) → p.insns ≡ insns.now
            → p.maps ≡ self.old.maps.rows → p.version ≡ version →
            IsStep clock (step p clock (state_of self.old packet.old)) result
            (state_of self.old packet.old) (state_of self.new packet.new) }
    {
        match insns.get(self.slot) {
            Some(Some(insn)) => self.perform(insn, insns.len(), version, packet),
            _ => Stepped::Trapped(TrapReason::NoCode),
        }
    }

    /// One step, in which the clock may be asked once.
    fn step_with<C: Clock>(
        &mut self,
        insns: &[Option<Insn>],
        version: Version,
        packet: &mut [u8],
        clock: &mut C,
    ) -> Stepped
        requires running { IsRunning self.old }
        requires serial { self.old.maps.next_serial < 2 ^ 63 }
        requires named { NamesAllRows self.old.maps.rows insns.now }
        requires clock_calls { self.old.clock_calls < 2 ^ 63 }
        ensures running { IsRunning self.new }
        ensures rows { self.new.maps.rows ≡ self.old.maps.rows }
        ensures serial { self.new.maps.next_serial ≤ self.old.maps.next_serial + 1 }
        ensures clock_calls { self.new.clock_calls ≤ self.old.clock_calls + 1 }
        ensures answered { result ≢ Stepped.AsksTime }
        ensures clock { (c : ℕ → ℕ) → ClockAnswers c self.old.clock_calls (C.at clock.old)
            → ClockAnswers c self.new.clock_calls (C.at clock.new) }
        ensures step { (p : Program) (c : ℕ → ℕ) → p.insns ≡ insns.now
            → p.maps ≡ self.old.maps.rows → p.version ≡ version
            → ClockAnswers c self.old.clock_calls (C.at clock.old) →
            IsStep c (step p c (state_of self.old packet.old)) result
            (state_of self.old packet.old) (state_of self.new packet.new) }
    {
        match self.step(insns, version, packet) {
            Stepped::AsksTime => {
                self.answer_time(clock.now());
                Stepped::Went
            }
            stepped => stepped,
        }
    }

    /// Goes on for at most `limit` steps; before each one a watcher sees the state.
    fn steps<C: Clock, W: Watcher>(
        &mut self,
        insns: &[Option<Insn>],
        version: Version,
        packet: &mut [u8],
        clock: &mut C,
        limit: u32,
        watcher: &mut W,
    ) -> End
        requires running { IsRunning self.old }
        requires serial { self.old.maps.next_serial ≤ 2 ^ 33 }
        requires named { NamesAllRows self.old.maps.rows insns.now }
        requires clock_calls { self.old.clock_calls ≡ 0 }
        ensures room { vec_capacity self.new.frames ≡ max_call_frames }
        ensures rows { self.new.maps.rows ≡ self.old.maps.rows }
        ensures clock { ClockAnswers (C.at clock.old) self.new.clock_calls (C.at clock.new) }
        ensures turn { (p : Program) → p.insns ≡ insns.now → p.maps ≡ self.old.maps.rows
            → p.version ≡ version →
            turn_of (progress p (C.at clock.old) limit (state_of self.old packet.old))
            ≡ left result (state_of self.new packet.new) }
        ensures stop { (p : Program) → p.insns ≡ insns.now → p.maps ≡ self.old.maps.rows
            → p.version ≡ version →
            state_at (progress p (C.at clock.old) limit (state_of self.old packet.old))
            ≡ state_of self.new packet.new }
        ensures seen { (p : Program) → p.insns ≡ insns.now → p.maps ≡ self.old.maps.rows
            → p.version ≡ version →
            (states : List State) → W.has_seen watcher.old insns.now states
            → W.has_seen watcher.new insns.now
            (states ++ begun_in p (C.at clock.old) limit (state_of self.old packet.old)) }
    {
        for done in 0..limit {
            watcher.see(insns, self, packet);
            match self.step_with(insns, version, packet, clock) {
                Stepped::Went => {}
                Stepped::AsksTime => unreachable!(),
                Stepped::Finished(number) => return End::Exit(number, done + 1),
                Stepped::Trapped(reason) => return End::Trap(reason, done),
            }
        }
        End::Limit
    }

    /// Runs the code of a program of this version on a packet from the start.
    #[tactic(auto, unfolding(isa_model::specs::Running::Runs::turn))]
    pub fn run<C: Clock, W: Watcher>(
        &mut self,
        insns: &[Option<Insn>],
        version: Version,
        head: FrameHead,
        packet: &mut [u8],
        clock: &mut C,
        limit: u32,
        watcher: &mut W,
    ) -> End
        requires room { vec_capacity self.old.frames ≡ max_call_frames }
        requires named { NamesAllRows self.old.maps.rows insns.now }
        ensures turn { (p : Program) → p.insns ≡ insns.now → p.maps ≡ self.old.maps.rows
            → p.version ≡ version →
            turn p limit (C.at clock.old) head packet.old (map key_values_of self.old.maps.contents)
            ≡ record {
              ends = result;
              packet = packet.new;
              contents = map key_values_of self.new.maps.contents;
              clock_calls = self.new.clock_calls;
            } }
        ensures stop { (p : Program) → p.insns ≡ insns.now → p.maps ≡ self.old.maps.rows
            → p.version ≡ version →
            state_at (progress p (C.at clock.old) limit
            (start_state head packet.old (map key_values_of self.old.maps.contents)))
            ≡ state_of self.new packet.new }
        ensures seen { (p : Program) → p.insns ≡ insns.now → p.maps ≡ self.old.maps.rows
            → p.version ≡ version →
            (states : List State) → W.has_seen watcher.old insns.now states
            → W.has_seen watcher.new insns.now
            (states ++ begun_on p limit (C.at clock.old) head packet.old
            (map key_values_of self.old.maps.contents)) }
        ensures clock { (k : ℕ) → C.at clock.new k ≡ C.at clock.old (self.new.clock_calls + k) }
        ensures room { vec_capacity self.new.frames ≡ max_call_frames }
        ensures rows { self.new.maps.rows ≡ self.old.maps.rows }
    {
        self.start(head);
        self.steps(insns, version, packet, clock, limit, watcher)
    }
}
