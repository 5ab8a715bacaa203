//! What a condition compares.

ghost use Rattle.std.specs.Prelude.{◌≡◌, ◌+ℤ◌, pos};
ghost use Rattle.reg_state.specs.Going.{exchanged};
ghost use Rattle.branch_refine.specs.Comparing as comparing_defs;
ghost use Rattle.branch_refine.specs.Comparing.{bytes_before, with_end, with_packet, null_by, with_number};

use isa_model::{Comparison, Cond, Operand, Width};
use reg_state::Kind;
use stack_state::State;

/// Says what a condition compares.
#[derive(Clone, Copy, PartialEq, Eq)]
pub enum Compared {
    /// Two numbers.
    Numbers,
    /// A packet pointer and the packet end. Where the test comes out as `shows` says, `bytes` bytes
    /// after the variable part of the identity are in the packet.
    Packet {
        identity: u32,
        shows: bool,
        bytes: u32,
    },
    /// A look-up's answer and 0: null where the test comes out as `null` says.
    OrNull {
        identity: u32,
        null: bool,
    },
    /// A pointer to a live map value and 0: the test does not come out as `null` says.
    Live {
        null: bool,
    },
    /// Anything else: no outcome is defined.
    Undefined,
}

/// Returns what the condition compares in the state.
pub fn compared_by(cond: Cond, state: &State) -> Compared
    ensures { result ≡ comparing_defs.compared_by state.now cond }
{
    let left = state.kind_of(cond.register);
    match cond.operand {
        Operand::Constant(number) => constant_by(cond.comparison, cond.width, left, number),
        Operand::Register(register) => {
            registers_by(cond.comparison, cond.width, left, state.kind_of(register))
        }
    }
}

fn constant_by(comparison: Comparison, width: Width, left: Kind, number: i32) -> Compared
    ensures { result ≡ comparing_defs.constant_by comparison width left number }
{
    match left {
        Kind::Number(_) => Compared::Numbers,
        left => match width {
            Width::Full64 => {
                if number == 0 {
                    zero_by(comparison, left)
                } else {
                    Compared::Undefined
                }
            }
            Width::Low32 => Compared::Undefined,
        },
    }
}

fn zero_by(comparison: Comparison, left: Kind) -> Compared
    ensures { result ≡ comparing_defs.zero_by comparison left }
{
    match comparison {
        Comparison::Equal => null_tested(true, left),
        Comparison::NotEqual => null_tested(false, left),
        _ => Compared::Undefined,
    }
}

fn null_tested(null: bool, left: Kind) -> Compared
    ensures { result ≡ null_by null left }
{
    match left {
        Kind::MapValueOrNull { identity, .. } => Compared::OrNull { identity, null },
        Kind::MapValue { .. } => Compared::Live { null },
        _ => Compared::Undefined,
    }
}

fn registers_by(comparison: Comparison, width: Width, left: Kind, right: Kind) -> Compared
    ensures { result ≡ comparing_defs.registers_by comparison width left right }
{
    match left {
        Kind::Number(_) => number_with(right),
        left => match width {
            Width::Full64 => pointers_by(comparison, left, right),
            Width::Low32 => Compared::Undefined,
        },
    }
}

fn number_with(right: Kind) -> Compared
    ensures { result ≡ with_number right }
{
    match right {
        Kind::Number(_) => Compared::Numbers,
        _ => Compared::Undefined,
    }
}

fn pointers_by(comparison: Comparison, left: Kind, right: Kind) -> Compared
    ensures { result ≡ comparing_defs.pointers_by comparison left right }
{
    match left {
        Kind::Packet {
            fixed,
            identity,
            ..
        } => packet_with(comparison, identity, fixed, right),
        Kind::PacketEnd => end_with(comparison, right),
        _ => Compared::Undefined,
    }
}

fn packet_with(comparison: Comparison, identity: u32, fixed: i32, right: Kind) -> Compared
    ensures { result ≡ with_end comparison identity fixed right }
{
    match right {
        Kind::PacketEnd => packet_by(comparison, identity, fixed),
        _ => Compared::Undefined,
    }
}

fn end_with(comparison: Comparison, right: Kind) -> Compared
    ensures { result ≡ with_packet comparison right }
{
    match right {
        Kind::Packet {
            fixed,
            identity,
            ..
        } => packet_by(mirrored(comparison), identity, fixed),
        _ => Compared::Undefined,
    }
}

/// The comparison that has the same outcome once its operands are exchanged.
fn mirrored(comparison: Comparison) -> Comparison
    ensures { result ≡ exchanged comparison }
{
    match comparison {
        Comparison::Greater => Comparison::Less,
        Comparison::GreaterEqual => Comparison::LessEqual,
        Comparison::Less => Comparison::Greater,
        Comparison::LessEqual => Comparison::GreaterEqual,
        Comparison::SignedGreater => Comparison::SignedLess,
        Comparison::SignedGreaterEqual => Comparison::SignedLessEqual,
        Comparison::SignedLess => Comparison::SignedGreater,
        Comparison::SignedLessEqual => Comparison::SignedGreaterEqual,
        comparison => comparison,
    }
}

fn packet_by(comparison: Comparison, identity: u32, fixed: i32) -> Compared
    ensures { result ≡ comparing_defs.packet_by comparison identity fixed }
{
    let (shows, bytes) = match comparison {
        Comparison::Greater => (false, before(fixed)),
        Comparison::GreaterEqual => (false, through(fixed)),
        Comparison::Less => (true, through(fixed)),
        Comparison::LessEqual => (true, before(fixed)),
        _ => {
            return Compared::Undefined;
        }
    };
    Compared::Packet {
        identity,
        shows,
        bytes,
    }
}

/// Returns how many bytes there are between the variable part and the pointer.
fn before(fixed: i32) -> u32
    ensures { result ≡ bytes_before fixed }
{
    if fixed > 0 { fixed as u32 } else { 0 }
}

/// Returns how many bytes there are between the variable part and the pointer, with the byte at it.
fn through(fixed: i32) -> u32
    ensures { result ≡ bytes_before (fixed +ℤ pos 1) }
{
    if fixed >= 0 { fixed as u32 + 1 } else { 0 }
}
