//! The control flow of an accepted program: its joins, and what is live at each slot.

ghost use Rattle.std.specs.Prelude.{◌≡◌, ◌↔◌, ℕ, IsTrue, IfOk, IfErr};
ghost use Rattle.isa_model.specs.declared.registers.Reg.{Reg as TheReg};
ghost use Rattle.control_flow.specs.Endings.{EndsPlainly};
ghost use Rattle.control_flow.specs.Flows.{IsFlow, IsJoin, IsRefusal, Fails, AreTestedMasks, MarksEndings, KeepsTested};
ghost use Rattle.control_flow.specs.Liveness.{InRegister, InSlot, IsLive, IsSlotLive};
ghost use Rattle.control_flow.specs.StackUse.{FrameAddressIsTaken};
ghost use Rattle.control_flow.specs.TestedNumbers.{HasInput, MayForgetNumbers, IsNumberTested};
ghost use Rattle.control_flow.specs.Masks.{HasRegister, HasSlot};

use crate::endings::endings_of;
use crate::errors::FlowError;
use crate::functions::{first_falling_off, first_leaving, functions_of};
use crate::homes::{HomeMask, mask_of};
use crate::kept_numbers::{KeptNumbers, kept_numbers};
use crate::liveness::{live_homes, tested_homes};
use crate::marks::is_marked;
use crate::masks::RegisterMask;
use crate::number_passes::{has_input, may_forget_numbers};
use crate::reachability::{first_unreached, reached};
use crate::slot_masks::SlotMask;
use crate::stack_accesses::takes_frame_address;
use crate::targets::{first_into_half, first_outside, joins_of};
use image::Image;
use std::alloc::{AllocError, Global};
use std::marker::Model;

/// An image whose control flow is good: jumps stay in their functions, calls go to instructions,
/// nothing falls off an end, and each instruction can be reached.
///
/// Contracts see its program.
#[derive(Drop)]
pub struct Flow<'a> {
    image: &'a Image,
    joins: Vec<bool>,
    /// Says what is live at each slot.
    masks: Vec<HomeMask>,
    /// Says whether the program takes input.
    takes_input: bool,
    /// Says whether numbers may be forgotten that no path tests. If not, the fields below are
    /// empty.
    forgets: bool,
    /// Of what the numbers are tested.
    tested: Vec<HomeMask>,
    /// From which slots only plain code follows.
    endings: Vec<bool>,
}

impl<'a> Model for Flow<'a> {
    ghost use Rattle.isa_model.specs.Code.Instructions.{Program};
    ghost use Rattle.control_flow.specs.Flows.{DescribesFlow};

    ghost Value = { Program };

    ghost view = { λ flow. flow.image.now };

    ghost invariant = { λ flow. DescribesFlow flow.image.now flow.joins.items flow.masks.items
        flow.takes_input flow.forgets flow.tested.items flow.endings.items };
}

/// Makes the tests in their order; each looks at the whole code.
fn test_all(alloc: Global, image: &Image) -> Result<(), (FlowError, usize)>
    ensures good { IfOk result (λ _. IsFlow image.now) }
    ensures refused { IfErr result (λ refusal. IsRefusal image.now refusal.0 refusal.1) }
{
    image.recall();
    if let Some(slot) = first_outside(image) {
        return Err((FlowError::TargetOutside, slot));
    }
    if let Some(slot) = first_into_half(image) {
        return Err((FlowError::SecondHalf, slot));
    }
    let Ok(functions) = functions_of(alloc, image) else {
        return Err((FlowError::Memory, 0));
    };
    if let Some(slot) = first_leaving(image, &functions) {
        return Err((FlowError::OtherFunction, slot));
    }
    if let Some(slot) = first_falling_off(image, &functions) {
        return Err((FlowError::FallsOff, slot));
    }
    let Ok(marks) = reached(alloc, image) else {
        return Err((FlowError::Memory, 0));
    };
    if let Some(slot) = first_unreached(image, &marks) {
        return Err((FlowError::Unreachable, slot));
    }
    Ok(())
}

/// Of what the numbers are tested from each slot on, and from which slots only plain code follows;
/// nothing if no numbers may be forgotten.
fn numbers_of(
    alloc: Global,
    image: &Image,
    forgets: bool,
    taken: bool,
) -> Result<(Vec<HomeMask>, Vec<bool>), AllocError>
    requires inside { (slot : ℕ) → ¬ Fails image.now FlowError.TargetOutside slot }
    requires taken { IsTrue taken ↔ FrameAddressIsTaken image.now }
    ensures tested { IsTrue forgets → IfOk result (λ made. AreTestedMasks image.now made.0.items) }
    ensures endings { IsTrue forgets → IfOk result (λ made. MarksEndings image.now made.1.items) }
{
    if !forgets {
        return Ok((Vec::new(alloc), Vec::new(alloc)));
    }
    let tested = tested_homes(alloc, image, taken)?;
    let endings = endings_of(alloc, image)?;
    Ok((tested, endings))
}

impl<'a> Flow<'a> {
    /// The control flow of an image, or why it is refused and at which slot.
    pub fn of(alloc: Global, image: &'a Image) -> Result<Self, (FlowError, usize)>
        // Good programs are accepted, unless memory runs out, and no others.
        ensures found { IfOk result (λ flow. flow ≡ image.now) }
        ensures good { IfOk result (λ _. IsFlow image.now) }
        ensures only { IsFlow image.now → IfErr result (λ refusal. refusal.0 ≡ FlowError.Memory) }

        // All others get the first refusal at its lowest slot, or out of memory with slot 0.
        ensures refused { IfErr result (λ refusal. IsRefusal image.now refusal.0 refusal.1) }
    {
        test_all(alloc, image)?;
        let Ok(joins) = joins_of(alloc, image) else {
            return Err((FlowError::Memory, 0));
        };
        let taken = takes_frame_address(image);
        let Ok(masks) = live_homes(alloc, image, taken) else {
            return Err((FlowError::Memory, 0));
        };
        let forgets = may_forget_numbers(image);
        let Ok((tested, endings)) = numbers_of(alloc, image, forgets, taken) else {
            return Err((FlowError::Memory, 0));
        };
        Ok(Flow {
            image,
            joins,
            masks,
            takes_input: has_input(image),
            forgets,
            tested,
            endings,
        })
    }

    /// Returns whether the slot is the target of a jump: there paths may meet.
    pub fn is_join(&self, slot: usize) -> bool
        ensures join { IsTrue result ↔ IsJoin self.now slot }
        ensures good { IsFlow self.now }
    {
        is_marked(&self.joins, slot)
    }

    /// The registers whose values may still be read from this slot on: some path of jumps and
    /// fall-throughs reads them before it writes them. A verifier may forget the others.
    pub fn live(&self, slot: usize) -> RegisterMask
        ensures { (r : TheReg) → HasRegister result r ↔ IsLive self.now r slot }
    {
        mask_of(&self.masks, slot).registers
    }

    /// The stack slots of the call frame that may still be read from this slot of the code on: some
    /// path of jumps and fall-throughs reads them before it writes all of their bytes. If an
    /// instruction takes the address of a call frame, these are all stack slots. A verifier may
    /// forget the others.
    pub fn live_slots(&self, slot: usize) -> SlotMask
        ensures { (j : ℕ) → HasSlot result j ↔ IsSlotLive self.now j slot }
    {
        mask_of(&self.masks, slot).slots
    }

    /// Returns whether a program takes input. A search forgets no numbers of other programs.
    pub fn takes_input(&self) -> bool
        ensures { IsTrue result ↔ HasInput self.now }
    {
        self.takes_input
    }

    /// Returns whether a verifier may forget numbers that do not matter: the program takes input,
    /// and calls no function of its own. For other programs `tested` and `ends_plainly` say
    /// nothing.
    pub fn forgets_numbers(&self) -> bool
        ensures { IsTrue result ↔ MayForgetNumbers self.now }
    {
        self.forgets
    }

    /// The registers whose numbers matter from this slot on: some path tests them, or makes of them
    /// a number that it tests.
    pub fn tested(&self, slot: usize) -> RegisterMask
        ensures { MayForgetNumbers self.now → (r : TheReg) → HasRegister result r
            ↔ IsNumberTested self.now (InRegister r) slot }
    {
        mask_of(&self.tested, slot).registers
    }

    /// The stack slots of the call frame whose numbers matter.
    pub fn tested_slots(&self, slot: usize) -> SlotMask
        ensures { MayForgetNumbers self.now → (j : ℕ) → HasSlot result j
            ↔ IsNumberTested self.now (InSlot j) slot }
    {
        mask_of(&self.tested, slot).slots
    }

    /// Returns whether only plain code follows from a slot: arithmetic, forward jumps and exits of
    /// a program of version 1. None of it is refused if each live register is a number.
    pub fn ends_plainly(&self, slot: usize) -> bool
        ensures { MayForgetNumbers self.now → (IsTrue result ↔ EndsPlainly self.now slot) }
    {
        is_marked(&self.endings, slot)
    }

    /// Which numbers a verifier keeps once its search is long. Where it is known which numbers are
    /// tested, they are a part of those.
    pub fn kept_numbers(&self, alloc: Global) -> Result<KeptNumbers, AllocError>
        ensures { MayForgetNumbers self.now → IfOk result (KeepsTested self.now) }
    {
        kept_numbers(alloc, self.image, &self.tested, self.forgets)
    }
}
