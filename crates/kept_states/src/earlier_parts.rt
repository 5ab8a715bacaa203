//! What parts of a call frame were before they changed.

ghost use Rattle.std.specs.Prelude.{◌≡◌, IfOk};
ghost use Rattle.kept_states.specs.EarlierParts.{earlier_part, parts_left, number_at, number_change, packet_kind, part_at};

use crate::constants::{constant_in, constant_part};
use crate::differences::Differences;
use crate::earlier_numbers::EarlierNumbers;
use crate::part_changes::{Change, ShortPacket, ShortPlace};
use reg_state::{Kind, Scalar};
use stack_state::{AbstractFrame, StackSlot};
use state_index::Part;
use std::alloc::{AllocError, Global};
use std::marker::Model;

/// What parts were before they changed.
///
/// Contracts see the stacks, the top first.
#[derive(Drop)]
pub struct EarlierParts {
    numbers: EarlierNumbers,
    constants: Vec<u64>,
    packets: Vec<ShortPacket>,
    parts: Vec<Part>,
}

impl Model for EarlierParts {
    ghost use Rattle.std.specs.Prelude.{reverse};
    ghost use Rattle.kept_states.specs.EarlierParts.{PartStacks};

    ghost Value = { PartStacks };

    ghost view = { λ earlier. record {
      numbers = earlier.numbers;
      constants = reverse earlier.constants.items;
      packets = reverse earlier.packets.items;
      parts = reverse earlier.parts.items;
    } };
}

#[inline(always)]
fn part_at(place: ShortPlace, kind: Kind) -> Part
    ensures { result ≡ part_at place kind }
{
    match place {
        ShortPlace::Register(number) => Part::InRegister(number, kind),
        ShortPlace::Slot(index) => Part::InSlot(index, StackSlot::Spilled(kind)),
    }
}

#[inline(always)]
fn packet_kind(pointer: ShortPacket) -> Kind
    ensures { result ≡ packet_kind pointer }
{
    Kind::Packet {
        fixed: pointer.fixed,
        identity: pointer.identity,
        least: pointer.least,
        greatest: pointer.greatest,
        proved: pointer.proved,
    }
}

/// The number that is at a place of a frame, if there is one.
#[inline(always)]
fn number_at(frame: &AbstractFrame, place: ShortPlace) -> Option<Scalar>
    ensures { result ≡ number_at frame.now place }
{
    match place {
        ShortPlace::Register(number) => match frame.registers.get(usize::from(number)) {
            Some(Kind::Number(numbers)) => Some(*numbers),
            _ => None,
        },
        ShortPlace::Slot(index) => match frame.stack.slots().get(usize::from(index)) {
            Some(StackSlot::Spilled(Kind::Number(numbers))) => Some(*numbers),
            _ => None,
        },
    }
}

/// The change of a number at a place.
#[inline(always)]
fn number_change(place: ShortPlace, differ: Differences) -> Change
    ensures { result ≡ number_change place differ }
{
    match place {
        ShortPlace::Register(number) => Change::NumberInRegister(number, differ),
        ShortPlace::Slot(index) => Change::NumberInSlot(index, differ),
    }
}

impl EarlierParts {
    /// None.
    pub fn new(alloc: Global) -> Self {
        EarlierParts {
            numbers: EarlierNumbers::new(alloc),
            constants: Vec::new(alloc),
            packets: Vec::new(alloc),
            parts: Vec::new(alloc),
        }
    }

    /// Keeps a part as it is.
    #[inline(always)]
    fn put_whole(&mut self, was: &Part, frame: &AbstractFrame) -> Result<Change, AllocError>
        ensures was { IfOk result (λ c. earlier_part c self.new frame.now ≡ was.now) }
        ensures left { IfOk result (λ c. parts_left c self.new frame.now ≡ self.old) }
    {
        self.parts.push(*was)?;
        Ok(Change::WholePart)
    }

    /// Keeps what was at a place.
    #[inline(always)]
    fn put_kind(
        &mut self,
        place: ShortPlace,
        was: Kind,
        frame: &AbstractFrame,
    ) -> Result<Change, AllocError>
        ensures was { IfOk result (λ c. earlier_part c self.new frame.now ≡ part_at place was) }
        ensures left { IfOk result (λ c. parts_left c self.new frame.now ≡ self.old) }
    {
        match was {
            Kind::Number(numbers) => {
                if let Some(there) = number_at(frame, place) {
                    let differ = self.numbers.put(&numbers, &there)?;
                    return Ok(number_change(place, differ));
                }
            }
            Kind::Packet {
                fixed,
                identity,
                least,
                greatest,
                proved,
            } => {
                self.packets.push(ShortPacket {
                    fixed,
                    identity,
                    least,
                    greatest,
                    proved,
                })?;
                return Ok(Change::PacketAt(place));
            }
            _ => {}
        }
        self.put_whole(&part_at(place, was), frame)
    }

    /// Keeps what a part was before it became what it is in the frame.
    #[inline(always)]
    pub fn put(&mut self, was: &Part, frame: &AbstractFrame) -> Result<Change, AllocError>
        ensures was { IfOk result (λ c. earlier_part c self.new frame.now ≡ was.now) }
        ensures left { IfOk result (λ c. parts_left c self.new frame.now ≡ self.old) }
    {
        if let Some((number, value)) = constant_in(was) {
            self.constants.push(value)?;
            return Ok(Change::ConstantIn(number));
        }
        match was {
            Part::InRegister(number, Kind::Unset) => Ok(Change::UnsetRegister(*number)),
            Part::InSlot(index, StackSlot::Written(marks)) => {
                Ok(Change::WrittenSlot(*index, *marks))
            }
            Part::InRegister(number, kind) => {
                self.put_kind(ShortPlace::Register(*number), *kind, frame)
            }
            Part::InSlot(index, StackSlot::Spilled(kind)) => {
                self.put_kind(ShortPlace::Slot(*index), *kind, frame)
            }
        }
    }

    /// Takes back the number that was at a place, where there is one now.
    #[inline(always)]
    fn take_number(&mut self, place: ShortPlace, differ: Differences, frame: &AbstractFrame) -> Part
        ensures part { result
            ≡ earlier_part (number_change place differ) self.old frame.now }
        ensures left { self.new ≡ parts_left (number_change place differ) self.old frame.now }
    {
        match number_at(frame, place) {
            Some(there) => {
                let numbers = self.numbers.take(differ, &there);
                part_at(place, Kind::Number(numbers))
            }
            None => Part::InRegister(0, Kind::Unset),
        }
    }

    /// Takes back what a part of the frame was before it changed last.
    #[inline(always)]
    pub fn take(&mut self, change: Change, frame: &AbstractFrame) -> Part
        ensures part { result ≡ earlier_part change self.old frame.now }
        ensures left { self.new ≡ parts_left change self.old frame.now }
    {
        match change {
            Change::UnsetRegister(number) => Part::InRegister(number, Kind::Unset),
            Change::WrittenSlot(index, marks) => Part::InSlot(index, StackSlot::Written(marks)),
            Change::ConstantIn(number) => match self.constants.pop() {
                Some(value) => constant_part(number, value),
                None => Part::InRegister(0, Kind::Unset),
            },
            Change::NumberInRegister(number, differ) => {
                self.take_number(ShortPlace::Register(number), differ, frame)
            }
            Change::NumberInSlot(index, differ) => {
                self.take_number(ShortPlace::Slot(index), differ, frame)
            }
            Change::PacketAt(place) => match self.packets.pop() {
                Some(pointer) => part_at(place, packet_kind(pointer)),
                None => Part::InRegister(0, Kind::Unset),
            },
            Change::WholePart => match self.parts.pop() {
                Some(part) => part,
                None => Part::InRegister(0, Kind::Unset),
            },
        }
    }
}
