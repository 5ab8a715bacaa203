//! One step of a program: the tests before an instruction, and the instruction.

ghost use Rattle.std.specs.Prelude.{◌≡◌, ◌≢◌, ◌+◌, ◌<◌, ◌≤◌, ◌^◌, ℕ, ℤ, List, length};
ghost use Rattle.std.specs.List.{list_any};
ghost use Rattle.std.specs.Option.{option_to_list};
ghost use Rattle.isa_model.specs.declared.instructions.Insn.{Insn};
ghost use Rattle.isa_model.specs.Code.Registers.{reg_number};
ghost use Rattle.isa_model.specs.Code.Instructions.{Program, reads};
ghost use Rattle.isa_model.specs.Code.MapRows.{NamesRows};
ghost use Rattle.isa_model.specs.Machine.States.{value_at};
ghost use Rattle.isa_model.specs.Machine.Steps.{is_unset, is_answer, act, performed};
ghost use Rattle.checked_vm.specs.Machine.{state_of, IsRunning, StaysRunning, PerformsIn};
ghost use Rattle.checked_vm.specs.StepResults.{IsStep};

use crate::core_state::Core;
use isa_model::{Insn, MAX_CALL_FRAMES, Reg, Region, TrapReason, Value, Version, destination};

/// The result of a step.
#[derive(Clone, Copy)]
pub enum Stepped {
    Went,
    /// The last exit, with r0.
    Finished(u64),
    /// A call of ktime_get_ns, which has no answer yet.
    AsksTime,
    Trapped(TrapReason),
}

// Whether a number may be the answer of a run of a program of this version: in version 2 its low
// half names an action.
fn is_answer(version: Version, number: u64) -> bool
    ensures { result ≡ is_answer version number }
{
    match version {
        Version::One => true,
        Version::Two => number % 0x1_0000_0000 <= 4,
    }
}

impl Core {
    /// Returns whether there is a register, and it is unset.
    fn is_unset(&self, register: Option<Reg>) -> bool
        ensures { result ≡ list_any (λ r. is_unset (value_at self.now.regs (reg_number r)))
            (option_to_list register) }
    {
        match register {
            None => false,
            Some(register) => matches!(self.value(register), Value::Unset),
        }
    }

    /// Returns whether a register that an instruction reads is unset.
    fn is_reading_unset(&self, insn: &Insn) -> bool
        ensures { result ≡ list_any (λ r. is_unset (value_at self.now.regs (reg_number r)))
            (reads insn.now) }
    {
        let (first, second, third, fourth) = insn.read();
        self.is_unset(first)
            || self.is_unset(second)
            || self.is_unset(third)
            || self.is_unset(fourth)
    }

    /// Returns what an instruction other than EXIT and a helper's call does, once its registers are
    /// set.
    #[tactic(auto, unfolding(isa_model::specs::Machine::Steps::act))]
    fn act(&mut self, insn: &Insn, slots: usize, packet: &mut [u8]) -> Result<(), TrapReason>
        requires running { IsRunning self.old }
        requires other { insn.now ≢ Insn.Exit }
        requires no_helper { (number : ℤ) → insn.now ≢ Insn.CallHelper number }
        requires named { NamesRows self.old.maps.rows insn.now }
        requires slot { self.old.slot + 2 < 2 ^ 63 }
        requires serial { self.old.maps.next_serial < 2 ^ 63 }
        ensures stays { StaysRunning self.old self.new }
        ensures done { PerformsIn slots insn.now result self.old packet.old self.new packet.new }
    {
        match *insn {
            Insn::Alu(width, op, d, source) => self.do_alu(width, op, d, source),
            Insn::Neg(width, d) => self.do_neg(width, d),
            Insn::MovSx(extension, d, source) => self.do_mov_sx(extension, d, source),
            Insn::ByteSwap(order, span, d) => self.do_byte_swap(order, span, d),
            Insn::LoadNumber(d, n) => {
                self.set_and_go_on(d, Value::Num(n), 2);
                Ok(())
            }
            Insn::LoadMap(d, map) => {
                self.set_and_go_on(d, Value::Ptr(Region::Map(map), 0), 2);
                Ok(())
            }
            Insn::LoadMapValue(d, map, offset) => {
                let serial = self.maps.only_serial(map as usize);
                let value = Value::Ptr(Region::MapValue(map, serial), i64::from(offset));
                self.set_and_go_on(d, value, 2);
                Ok(())
            }
            Insn::Load(size, d, place) => self.do_load(packet, size, d, place),
            Insn::LoadSx(size, d, place) => self.do_load_sx(packet, size, d, place),
            Insn::StoreConstant(size, place, k) => self.do_store_constant(packet, size, place, k),
            Insn::Store(size, place, source) => self.do_store(packet, size, place, source),
            Insn::Atomic(width, op, fetched, place, source) => {
                self.do_atomic(packet, width, op, fetched, place, source)
            }
            Insn::Exchange(width, place, source) => self.do_exchange(packet, width, place, source),
            Insn::CompareExchange(width, place, source) => {
                self.do_compare_exchange(packet, width, place, source)
            }
            Insn::Jump(by) => {
                self.jump(i32::from(by), slots);
                Ok(())
            }
            Insn::JumpLong(by) => {
                self.jump(by, slots);
                Ok(())
            }
            Insn::JumpIf(cond, by) => self.do_jump_if(packet, cond, by, slots),
            Insn::CallLocal(by) => {
                if self.depth() == MAX_CALL_FRAMES {
                    return Err(TrapReason::TooManyCallFrames);
                }
                self.enter(destination(self.slot, by, slots));
                Ok(())
            }
            Insn::CallHelper(_) | Insn::Exit => unreachable!(),
        }
    }

    /// EXIT in a program of this version: the first call frame's ends the run, an inner one's leads
    /// back to the caller.
    #[tactic(auto, unfolding(isa_model::specs::Machine::Steps::act))]
    fn exit(&mut self, version: Version) -> Stepped
        requires { IsRunning self.old }
        ensures stays { StaysRunning self.old self.new }
        ensures step { (packet : List ℕ) (p : Program) (clock : ℕ → ℕ) → p.version ≡ version
            → IsStep clock (act p clock (state_of self.old packet) Insn.Exit) result
            (state_of self.old packet) (state_of self.new packet) }
    {
        if self.depth() == 1 {
            match self.value(Reg::R0) {
                Value::Num(n) if is_answer(version, n) => Stepped::Finished(n),
                Value::Num(_) => Stepped::Trapped(TrapReason::BadAction),
                _ => Stepped::Trapped(TrapReason::NoResult),
            }
        } else {
            self.leave();
            Stepped::Went
        }
    }

    /// Performs an instruction of a program of this version, after the tests of its registers.
    pub fn perform(
        &mut self,
        insn: &Insn,
        slots: usize,
        version: Version,
        packet: &mut [u8],
    ) -> Stepped
        requires running { IsRunning self.old }
        requires slot { self.old.slot + 2 < 2 ^ 63 }
        requires serial { self.old.maps.next_serial < 2 ^ 63 }
        requires named { NamesRows self.old.maps.rows insn.now }
        ensures stays { StaysRunning self.old self.new }
        ensures step { (p : Program) (clock : ℕ → ℕ) → length p.insns ≡ slots
            → p.maps ≡ self.old.maps.rows → p.version ≡ version →
            IsStep clock (performed p clock (state_of self.old packet.old) insn.now) result
            (state_of self.old packet.old) (state_of self.new packet.new) }
    {
        if self.is_reading_unset(insn) {
            return Stepped::Trapped(TrapReason::UnsetRead);
        }
        if insn.writes_frame_pointer() {
            return Stepped::Trapped(TrapReason::ReadOnly);
        }
        match insn {
            Insn::Exit => self.exit(version),
            Insn::CallHelper(number) => self.call_helper(*number, packet),
            _ => match self.act(insn, slots, packet) {
                Ok(()) => Stepped::Went,
                Err(reason) => Stepped::Trapped(reason),
            },
        }
    }
}
