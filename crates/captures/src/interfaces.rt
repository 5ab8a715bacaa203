//! The interfaces that a section of a pcapng file describes.

ghost use Rattle.std.specs.Prelude.{◌≡◌, ◌∷◌, ◌++◌, ◌*◌, ◌/◌, ◌%◌, ◌^◌, ◌≤◌, [], length, nat_lt, option_map, slice_get, true, IfOk};
ghost use Rattle.captures.specs.Pcapng.{interface_in, max_interfaces, offset_by, scale_by, scale_of, time_at, units_per_second};

use super::forms::{NumberOrder, long_at, number_at, short_at};
use super::options::option_value;
use std::alloc::{AllocError, Global};
use std::marker::Model;

// The most interfaces of a section.
const MAX_INTERFACES: usize = 4096;

const NANOSECONDS: u64 = 1_000_000_000;

// The codes of options.
const TIME_SCALE: u16 = 9;

const TIME_OFFSET: u16 = 14;

/// Says how many units of its times a second has: a power of 10 or of 2.
#[derive(Clone, Copy)]
pub enum TimeScale {
    PowerOf10(u8),
    PowerOf2(u8),
}

/// Says what a section knows of an interface.
#[derive(Clone, Copy)]
pub struct Interface {
    pub link: u16,
    pub scale: TimeScale,
    /// How many seconds are added to its times, as two's complement.
    pub offset: u64,
    /// The most bytes of its packets that were captured, or 0.
    pub snap: u32,
}

impl TimeScale {
    /// The scale that a byte of the option if_tsresol says.
    pub fn of(byte: u8) -> TimeScale
        ensures { result ≡ scale_of byte }
    {
        if byte < 128 {
            TimeScale::PowerOf10(byte)
        } else {
            TimeScale::PowerOf2(byte - 128)
        }
    }

    /// Returns how many nanoseconds a number of units is, modulo 2^64.
    pub fn nanoseconds(self, units: u64) -> u64
        ensures { result ≡ units * 10 ^ 9 / units_per_second self % 2 ^ 64 }
    {
        match self {
            TimeScale::PowerOf10(power) => {
                if power <= 9 {
                    units.wrapping_mul(10_u64.pow(9 - u32::from(power)))
                } else if power <= 28 {
                    units / 10_u64.pow(u32::from(power) - 9)
                } else {
                    0
                }
            }
            TimeScale::PowerOf2(power) => {
                if power < 128 {
                    let whole = u128::from(units) * u128::from(NANOSECONDS);
                    ((whole >> power) % 0x1_0000_0000_0000_0000) as u64
                } else {
                    0
                }
            }
        }
    }
}

impl Interface {
    /// Returns the nanoseconds since the epoch that a number of units of the interface's times is,
    /// modulo 2^64.
    pub fn time_at(&self, units: u64) -> u64
        ensures { result ≡ time_at self.now units }
    {
        let offset = self.offset.wrapping_mul(NANOSECONDS);
        self.scale.nanoseconds(units).wrapping_add(offset)
    }
}

// The scale by the value of if_tsresol.
fn scale_by(value: Option<&[u8]>) -> TimeScale
    ensures { result ≡ scale_by (option_map (λ v. v.now) value.entry) }
{
    match value {
        Some([byte]) => TimeScale::of(*byte),
        Some(_) | None => TimeScale::PowerOf10(6),
    }
}

// The offset by the value of if_tsoffset.
fn offset_by(order: NumberOrder, value: Option<&[u8]>) -> u64
    ensures { result ≡ offset_by order (option_map (λ v. v.now) value.entry) }
{
    match value {
        Some(value) => {
            if value.len() == 8 {
                long_at(order, value, 0)
            } else {
                0
            }
        }
        None => 0,
    }
}

/// The interface that a block describes.
pub fn interface_in(order: NumberOrder, block: &[u8]) -> Interface
    requires { 20 ≤ length block.now }
    ensures { result ≡ interface_in order block.now }
{
    let options = &block[16..block.len() - 4];
    Interface {
        link: short_at(order, block, 8),
        scale: scale_by(option_value(order, TIME_SCALE, options)),
        offset: offset_by(order, option_value(order, TIME_OFFSET, options)),
        snap: number_at(order, block, 12),
    }
}

/// The interfaces that a section has described so far, in order.
///
/// Contracts see the list of them.
#[derive(Drop)]
pub struct Interfaces {
    table: Vec<Interface>,
    count: usize,
}

impl Model for Interfaces {
    ghost use Rattle.std.specs.Prelude.{◌≡◌, ◌≤◌, List, take, vec_len};
    ghost use Rattle.captures.specs.declared.interfaces.Interface.{Interface as AnInterface};
    ghost use Rattle.captures.specs.Pcapng.{max_interfaces};

    ghost Value = { List AnInterface };

    ghost view = { λ i. take i.count i.table.items };

    ghost invariant = { λ i. (vec_len i.table ≡ max_interfaces) × (i.count ≤ max_interfaces) };
}

impl Interfaces {
    /// None yet, with memory for all.
    pub fn new(alloc: Global) -> Result<Self, AllocError>
        ensures { IfOk result (λ i. i ≡ []) }
    {
        let none = Interface {
            link: 0,
            scale: TimeScale::PowerOf10(6),
            offset: 0,
            snap: 0,
        };
        let table = Vec::from_elem(alloc, none, MAX_INTERFACES)?;
        Ok(Interfaces { table, count: 0 })
    }

    /// Forgets all.
    pub fn clear(&mut self)
        ensures { self.new ≡ [] }
    {
        self.count = 0;
    }

    /// Adds one, if there is room for it.
    pub fn push(&mut self, interface: Interface) -> bool
        ensures added { result ≡ true → self.new ≡ self.old ++ (interface ∷ []) }
        ensures full { result ≡ nat_lt (length self.old) max_interfaces }
    {
        if self.count == MAX_INTERFACES {
            return false;
        }
        self.table[self.count] = interface;
        self.count += 1;
        true
    }

    /// The interface of a number.
    #[inline(always)]
    pub fn get(&self, number: usize) -> Option<Interface>
        ensures { result ≡ slice_get self.now number }
    {
        if number < self.count {
            Some(self.table[number])
        } else {
            None
        }
    }
}
