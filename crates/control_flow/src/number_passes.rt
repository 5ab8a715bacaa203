//! Which numbers an instruction tests, and from where to where it may pass them on.

ghost use Rattle.std.specs.Prelude.{ℕ, ◌↔◌, IsTrue};
ghost use Rattle.isa_model.specs.declared.registers.Reg.{Reg as TheReg};
ghost use Rattle.isa_model.specs.MustAccept.Paths.{IsOneOf};
ghost use Rattle.control_flow.specs.Accesses.{read_registers};
ghost use Rattle.control_flow.specs.Liveness.{Home};
ghost use Rattle.control_flow.specs.TestedNumbers.{TakesInput, TakesInputAt, TestsNumbers, MayBeInSlot, MayReadSlot, MayWriteSlot, MayRead, MayWrite, HasInput, MayForgetNumbers};
ghost use Rattle.control_flow.specs.Masks.{HasHome, HasRegister, HasSlot};

use crate::accesses::{registers_read, registers_written};
use crate::homes::HomeMask;
use crate::masks::RegisterMask;
use crate::slot_masks::SlotMask;
use crate::stack_accesses::slot_of;
use crate::targets::call_target;
use image::Image;
use isa_model::{AluOp, Insn, Operand, Place, Reg, Width};

/// Returns whether the numbers that an instruction reads decide where control goes or what is
/// refused, or move a pointer.
fn tests_numbers(image: &Image, insn: &Insn) -> bool
    ensures { IsTrue result ↔ TestsNumbers image.now insn.now }
{
    match insn {
        Insn::JumpIf(_, _) => true,
        Insn::Alu(Width::Full64, AluOp::Add | AluOp::Sub, _, Operand::Register(_)) => true,
        Insn::Exit => image.version() == 2,
        _ => false,
    }
}

/// The registers whose numbers an instruction of a program tests.
pub fn registers_tested(image: &Image, insn: &Insn) -> RegisterMask
    ensures { (r : TheReg) → HasRegister result r
        ↔ (TestsNumbers image.now insn.now × IsOneOf (read_registers insn.now) r) }
{
    if tests_numbers(image, insn) {
        registers_read(insn)
    } else {
        RegisterMask::none()
    }
}

/// The stack slots in which a place may be.
fn slots_at(place: Place, taken: bool) -> SlotMask
    ensures { (j : ℕ) → HasSlot result j ↔ MayBeInSlot (IsTrue taken) place j }
{
    if place.base == Reg::R10 {
        SlotMask::of(slot_of(place))
    } else if taken {
        SlotMask::all()
    } else {
        SlotMask::none()
    }
}

/// The stack slots that an instruction may read.
fn slots_read(insn: &Insn, taken: bool) -> SlotMask
    ensures { (j : ℕ) → HasSlot result j ↔ MayReadSlot (IsTrue taken) insn.now j }
{
    match *insn {
        Insn::Load(_, _, place)
        | Insn::LoadSx(_, _, place)
        | Insn::Atomic(_, _, _, place, _)
        | Insn::Exchange(_, place, _)
        | Insn::CompareExchange(_, place, _) => slots_at(place, taken),
        _ => SlotMask::none(),
    }
}

/// The stack slots into which an instruction may put a number, or a part of one.
fn slots_written(insn: &Insn, taken: bool) -> SlotMask
    ensures { (j : ℕ) → HasSlot result j ↔ MayWriteSlot (IsTrue taken) insn.now j }
{
    match *insn {
        Insn::Store(_, place, _) => slots_at(place, taken),
        _ => SlotMask::none(),
    }
}

/// The registers and stack slots in which an instruction may read a number.
pub fn may_read(insn: &Insn, taken: bool) -> HomeMask
    ensures { (h : Home) → HasHome result h ↔ MayRead (IsTrue taken) insn.now h }
{
    HomeMask {
        registers: registers_read(insn),
        slots: slots_read(insn, taken),
    }
}

/// Those into which it may put one.
pub fn may_write(insn: &Insn, taken: bool) -> HomeMask
    ensures { (h : Home) → HasHome result h ↔ MayWrite (IsTrue taken) insn.now h }
{
    HomeMask {
        registers: registers_written(insn),
        slots: slots_written(insn, taken),
    }
}

/// Returns whether what an instruction writes into a register may differ from run to run.
fn takes_input(insn: &Insn) -> bool
    ensures { IsTrue result ↔ TakesInput insn.now }
{
    match insn {
        Insn::Load(_, _, place) => place.base != Reg::R10,
        Insn::CallHelper(_) => true,
        _ => false,
    }
}

/// Returns whether the instruction at a slot of the code does.
fn takes_input_at(image: &Image, slot: usize) -> bool
    ensures { IsTrue result ↔ TakesInputAt image.now slot }
{
    match image.at(slot) {
        Some(insn) => takes_input(insn),
        None => false,
    }
}

/// Returns whether a program takes input.
pub fn has_input(image: &Image) -> bool
    ensures { IsTrue result ↔ HasInput image.now }
{
    for slot in 0..image.slots() {
        if takes_input_at(image, slot) {
            return true;
        }
    }
    false
}

/// Returns whether numbers of a program may be forgotten that no path tests: it takes input, and
/// calls no function of its own.
pub fn may_forget_numbers(image: &Image) -> bool
    ensures { IsTrue result ↔ MayForgetNumbers image.now }
{
    let mut takes = false;
    for slot in 0..image.slots() {
        if call_target(image, slot).is_some() {
            return false;
        }
        takes = takes || takes_input_at(image, slot);
    }
    takes
}
