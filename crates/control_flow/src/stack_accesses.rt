//! Which stack slots of its call frame an instruction reads and writes through r10, and which
//! instructions take the address of the frame.

ghost use Rattle.std.specs.Prelude.{◌≡◌, ℕ, ◌<◌, ◌↔◌, ◌⊎◌, IsTrue, Some};
ghost use Rattle.isa_model.specs.declared.registers.Reg.{Reg as TheReg};
ghost use Rattle.isa_model.specs.MustAccept.Paths.{IsOneOf};
ghost use Rattle.control_flow.specs.Accesses.{read_registers};
ghost use Rattle.control_flow.specs.StackUse.{IsByte, IsWithinSlot, IsWholeSlot, ReadsSlot, WritesSlot, TakesFrameAddress, TakesFrameAddressAt, FrameAddressIsTaken};
ghost use Rattle.control_flow.specs.Liveness.{Home, IsReadBy, IsWrittenBy};
ghost use Rattle.control_flow.specs.Masks.{HasRegister, HasSlot, HasHome};

use crate::accesses::{registers_read, registers_written};
use crate::homes::HomeMask;
use crate::masks::RegisterMask;
use crate::slot_masks::SlotMask;
use image::Image;
use isa_model::{Insn, Place, Reg, STACK_SIZE, Size};

/// The byte of the frame, counted from its lowest address, at a place with the base r10.
fn byte_of(place: Place) -> Option<usize>
    ensures { (n : ℕ) → (result ≡ Some n) ↔ IsByte place n }
{
    let size = STACK_SIZE as i32;
    let at = i32::from(place.offset) + size;
    if place.base == Reg::R10 && at >= 0 && at < size {
        Some(at as usize)
    } else {
        None
    }
}

/// The stack slot that a place with the base r10 is in.
pub fn slot_of(place: Place) -> Option<u8>
    ensures { (j : ℕ) → (result ≡ Some j) ↔ IsWithinSlot place j }
{
    match byte_of(place) {
        Some(byte) => Some((byte / 8) as u8),
        None => None,
    }
}

/// The stack slot that begins at a place with the base r10.
fn slot_at(place: Place) -> Option<u8>
    ensures { (j : ℕ) → (result ≡ Some j) ↔ IsWholeSlot place j }
{
    match byte_of(place) {
        Some(byte) => {
            if byte % 8 == 0 {
                Some((byte / 8) as u8)
            } else {
                None
            }
        }
        None => None,
    }
}

/// The stack slot that an instruction reads through r10.
fn slot_read(insn: &Insn) -> Option<u8>
    ensures { (j : ℕ) → (result ≡ Some j) ↔ ReadsSlot insn.now j }
{
    match *insn {
        Insn::Load(_, _, place) => slot_of(place),
        Insn::LoadSx(_, _, place) => slot_of(place),
        _ => None,
    }
}

/// The stack slot that an instruction writes wholly through r10.
fn slot_written(insn: &Insn) -> Option<u8>
    ensures { (j : ℕ) → (result ≡ Some j) ↔ WritesSlot insn.now j }
{
    match *insn {
        Insn::Store(Size::U64, place, _) => slot_at(place),
        Insn::StoreConstant(Size::U64, place, _) => slot_at(place),
        _ => None,
    }
}

/// Returns whether an instruction takes the address of its frame: uses r10 other than as the base
/// of a load or a store. `read` has the registers that it reads.
fn takes_address(insn: &Insn, read: RegisterMask) -> bool
    requires { HasRegister read TheReg.R10 ↔ IsOneOf (read_registers insn.now) TheReg.R10 }
    ensures { IsTrue result ↔ TakesFrameAddress insn.now }
{
    match insn {
        Insn::Load(_, _, _) | Insn::LoadSx(_, _, _) | Insn::StoreConstant(_, _, _) => false,
        Insn::Store(_, _, source) => *source == Reg::R10,
        _ => read.has(Reg::R10),
    }
}

/// Returns whether the instruction at a slot of the code takes the address of its frame.
fn takes_address_at(image: &Image, slot: usize) -> bool
    ensures { IsTrue result ↔ TakesFrameAddressAt image.now slot }
{
    match image.at(slot) {
        Some(insn) => takes_address(insn, registers_read(insn)),
        None => false,
    }
}

/// Returns whether a program takes the address of a call frame.
pub fn takes_frame_address(image: &Image) -> bool
    ensures { IsTrue result ↔ FrameAddressIsTaken image.now }
{
    for slot in 0..image.slots() {
        if takes_address_at(image, slot) {
            return true;
        }
    }
    false
}

/// The stack slots that an instruction reads: all, if `taken` says that the program takes a frame's
/// address.
fn slots_read(insn: &Insn, taken: bool) -> SlotMask
    ensures { (j : ℕ) → HasSlot result j
        ↔ (ReadsSlot insn.now j ⊎ ((j < 64) × IsTrue taken)) }
{
    if taken {
        SlotMask::all()
    } else {
        SlotMask::of(slot_read(insn))
    }
}

/// The registers and stack slots that an instruction reads.
pub fn homes_read(insn: &Insn, taken: bool) -> HomeMask
    ensures { (h : Home) → HasHome result h ↔ IsReadBy (IsTrue taken) insn.now h }
{
    HomeMask {
        registers: registers_read(insn),
        slots: slots_read(insn, taken),
    }
}

/// The registers that have another value after an instruction, and the stack slots that it writes.
pub fn homes_written(insn: &Insn) -> HomeMask
    ensures { (h : Home) → HasHome result h ↔ IsWrittenBy insn.now h }
{
    HomeMask {
        registers: registers_written(insn),
        slots: SlotMask::of(slot_written(insn)),
    }
}
