//! What is known of a stack slot, and what a spill or a fill of it gives.

ghost use Rattle.std.specs.Prelude.{◌≡◌, ℕ, ◌+◌, ◌-◌, ◌*◌, ◌^◌, ◌<◌, ◌≤◌, ◌↔◌, IsTrue};
ghost use Rattle.isa_model.specs.Code.Sizes.{size_bytes};
ghost use Rattle.reg_state.specs.Scalars.{Has};
ghost use Rattle.stack_state.specs.Slots.{marks_of, kind_in, mask_of, IsAny, AreAll, ArePart, AreSpilled, AreNumbers, IsSpill, IsFill, forgotten_slot};

use isa_model::{Size, Width};
use reg_state::{Domain, Kind, Scalar};

/// Says what is known of eight bytes of a call frame.
#[derive(Clone, Copy, PartialEq, Eq)]
pub enum StackSlot {
    /// Bit i says that byte i is a written number byte. Nothing is known of the other bytes.
    Written(u8),
    /// They are what an 8-byte store of a value of this kind wrote.
    Spilled(Kind),
}

impl StackSlot {
    /// The bytes of the slot that are written number bytes: bit i for byte i.
    pub fn marks(&self) -> u8
        ensures { result ≡ marks_of self.now }
    {
        match self {
            StackSlot::Written(marks) => *marks,
            StackSlot::Spilled(Kind::Number(_)) => 255,
            StackSlot::Spilled(_) => 0,
        }
    }

    /// The kind of the value that was spilled there, or Unset if none was.
    pub fn kind(&self) -> Kind
        ensures { result ≡ kind_in self.now }
    {
        match self {
            StackSlot::Written(_) => Kind::Unset,
            StackSlot::Spilled(kind) => *kind,
        }
    }
}

/// Marks only these bytes of a slot, which is written as a whole only if a value was spilled there.
#[inline(always)]
pub(crate) fn mark(slot: &mut StackSlot, marks: u8)
    ensures { slot.new ≡ StackSlot.Written marks }
{
    match slot {
        StackSlot::Written(old) => *old = marks,
        StackSlot::Spilled(_) => *slot = StackSlot::Written(marks),
    }
}

/// Marks for this many bytes of a slot, from byte `from` on.
pub(crate) fn mask(from: usize, bytes: usize) -> u8
    requires { from + bytes ≤ 8 }
    ensures { result ≡ mask_of from (from + bytes) }
{
    ((1u32 << (from + bytes)) - (1u32 << from)) as u8
}

/// The greatest number of this size.
fn greatest(size: Size) -> u64
    ensures { result + 1 ≡ 2 ^ (8 * size_bytes size) }
{
    match size {
        Size::U8 => 0xff,
        Size::U16 => 0xffff,
        Size::U32 => 0xffff_ffff,
        Size::U64 => u64::MAX,
    }
}

/// All numbers of this size.
pub(crate) fn all(size: Size) -> Scalar
    ensures { AreAll size result }
{
    Scalar::between(0, greatest(size))
}

/// The numbers that bytes of a spilled number, from byte `from` on, may spell.
fn part(numbers: Scalar, from: usize, size: Size) -> Scalar
    requires { from + size_bytes size ≤ 8 }
    ensures { ArePart numbers from size result }
{
    let bit = 8 * from as u64;
    match size {
        Size::U8 => numbers.part(bit, 8),
        Size::U16 => numbers.part(bit, 16),
        Size::U32 => numbers.part(bit, 32),
        Size::U64 => numbers,
    }
}

/// The numbers that bytes of a spilled value may spell.
fn spilled_numbers(kind: Kind, from: usize, size: Size) -> Scalar
    requires { from + size_bytes size ≤ 8 }
    ensures { AreSpilled kind from size result }
{
    match kind {
        Kind::Number(numbers) => part(numbers, from, size),
        _ => all(size),
    }
}

/// The numbers that marked bytes of the slot may spell.
pub(crate) fn numbers(slot: StackSlot, from: usize, size: Size) -> Scalar
    requires { from + size_bytes size ≤ 8 }
    ensures { AreNumbers slot from size result }
{
    match slot {
        StackSlot::Written(_) => all(size),
        StackSlot::Spilled(kind) => spilled_numbers(kind, from, size),
    }
}

/// Returns whether nothing is known of a number.
fn is_any(numbers: Scalar) -> bool
    ensures { IsTrue result ↔ IsAny numbers }
{
    numbers.covers(Scalar::any(Width::Full64))
}

/// Returns what a spill of the kind leaves.
pub(crate) fn spilled(kind: Kind) -> StackSlot
    ensures { IsSpill kind result }
{
    match kind {
        Kind::Unset => StackSlot::Written(0),
        Kind::Number(numbers) => {
            if is_any(numbers) {
                StackSlot::Written(255)
            } else {
                StackSlot::Spilled(kind)
            }
        }
        kind => StackSlot::Spilled(kind),
    }
}

/// The kind of the value that is read back whole, if it can be.
pub(crate) fn filled(slot: StackSlot) -> Option<Kind>
    ensures { IsFill slot result }
{
    match slot {
        StackSlot::Written(255) => Some(Kind::Number(Scalar::any(Width::Full64))),
        StackSlot::Written(_) => None,
        StackSlot::Spilled(Kind::Unset) => None,
        StackSlot::Spilled(kind) => Some(kind),
    }
}

/// The slot without a pointer to a map value of the map.
pub(crate) fn forgotten_slot(slot: StackSlot, map: u8) -> StackSlot
    ensures { result ≡ forgotten_slot map slot }
{
    match slot {
        StackSlot::Spilled(Kind::MapValue { index, .. } | Kind::MapValueOrNull { index, .. }) => {
            if index == map {
                StackSlot::Written(0)
            } else {
                slot
            }
        }
        slot => slot,
    }
}
