//! What packet tests and null tests show, at every copy of an identity.

use crate::tests::rows::{Holds, hold_all};
use arrayvec::ArrayVec;
use branch_refine::{Branch, Compared, compared_by, refine};
use isa_model::{Comparison, Cond, Operand, Reg, Width};
use reg_state::{Domain, Kind, Scalar};
use stack_state::{AbstractFrame, StackSlot, State};
use std::alloc::Global;

const FULL: Width = Width::Full64;

const R3: Operand = Operand::Register(Reg::R3);

const ZERO: Operand = Operand::Constant(0);

/// r2 compared with r3, or the other way round, and whether the comparison holds.
type Test = (Comparison, bool, bool);

/// Says how many bytes each test proves, if the pointer is 14 bytes after its variable part.
type Proved = (Test, u32);

const PACKET_TESTS: &[Proved] = &[
    ((Comparison::Greater, false, true), 0),
    ((Comparison::Greater, false, false), 14),
    ((Comparison::GreaterEqual, false, true), 0),
    ((Comparison::GreaterEqual, false, false), 15),
    ((Comparison::Less, false, true), 15),
    ((Comparison::Less, false, false), 0),
    ((Comparison::LessEqual, false, true), 14),
    ((Comparison::LessEqual, false, false), 0),
    ((Comparison::Greater, true, true), 15),
    ((Comparison::Greater, true, false), 0),
    ((Comparison::GreaterEqual, true, true), 14),
    ((Comparison::GreaterEqual, true, false), 0),
    ((Comparison::Less, true, true), 0),
    ((Comparison::Less, true, false), 14),
    ((Comparison::LessEqual, true, true), 0),
    ((Comparison::LessEqual, true, false), 15),
];

fn packet(fixed: i32, identity: u32, proved: u32) -> Kind {
    Kind::Packet {
        fixed,
        identity,
        least: 0,
        greatest: 60,
        proved,
    }
}

const MAP_VALUE: Kind = Kind::MapValue {
    index: 2,
    least: 0,
    greatest: 0,
};

/// A state with these kinds in r2 and r3, and the copies in r4, a stack slot, and r6 and a stack
/// slot of the caller.
fn in_call(tested: Kind, other: Kind, copies: [Kind; 4]) -> State {
    let mut caller = AbstractFrame::default();
    caller.registers[6] = copies[2];
    caller.stack.set(5, StackSlot::Spilled(copies[3]));
    let mut innermost = AbstractFrame::default();
    innermost.registers[2] = tested;
    innermost.registers[3] = other;
    innermost.registers[4] = copies[0];
    innermost.stack.set(7, StackSlot::Spilled(copies[1]));
    let mut callers = ArrayVec::new();
    callers.push(caller);
    State {
        slot: 3,
        callers,
        innermost,
    }
}

/// The copies, read from the same places.
fn copies_in(state: &State) -> [Kind; 4] {
    let mut copies = [Kind::Unset; 4];
    copies[0] = state.kind_of(Reg::R4);
    if let Some(kind) = state.innermost.stack.fill(7) {
        copies[1] = kind;
    }
    for caller in state.callers.as_slice() {
        let registers = &caller.registers;
        copies[2] = registers[6];
        copies[3] = caller.stack.slots()[5].kind();
    }
    copies
}

fn condition(comparison: Comparison, width: Width, register: Reg, operand: Operand) -> Cond {
    Cond {
        width,
        comparison,
        register,
        operand,
    }
}

/// The copies after a comparison, if there are members for which it has this result.
fn copies_after(cond: Cond, taken: bool, state: &State) -> Option<[Kind; 4]> {
    match refine(cond, taken, state) {
        Branch::Never => None,
        Branch::Goes(state) => Some(copies_in(&state)),
    }
}

/// The kind of a register or a stack slot.
enum Held {
    /// A packet pointer: its fixed part, its identity and how many bytes are proved.
    Packet(i32, u32, u32),
    /// A pointer to a map value, or null, by its identity.
    LookedUp(u32),
    MapValue,
    Zero,
    PacketEnd,
    Unset,
}

fn kind_of(held: &Held) -> Kind {
    match held {
        Held::Packet(fixed, identity, proved) => packet(*fixed, *identity, *proved),
        Held::LookedUp(identity) => Kind::MapValueOrNull {
            index: 2,
            identity: *identity,
        },
        Held::MapValue => MAP_VALUE,
        Held::Zero => Kind::Number(Scalar::constant(0)),
        Held::PacketEnd => Kind::PacketEnd,
        Held::Unset => Kind::Unset,
    }
}

/// The kinds of four copies.
type Copies = (Held, Held, Held, Held);

fn kinds_of(held: &Copies) -> [Kind; 4] {
    [
        kind_of(&held.0),
        kind_of(&held.1),
        kind_of(&held.2),
        kind_of(&held.3),
    ]
}

fn packet_test(test: Test, fixed: i32, copies: &Copies) -> Option<[Kind; 4]> {
    let (comparison, end_first, taken) = test;
    let register = if end_first { Reg::R3 } else { Reg::R2 };
    let operand = Operand::Register(if end_first { Reg::R2 } else { Reg::R3 });
    let state = in_call(packet(fixed, 3, 0), Kind::PacketEnd, kinds_of(copies));
    copies_after(
        condition(comparison, FULL, register, operand),
        taken,
        &state,
    )
}

const UNPROVED: Copies = (
    Held::Packet(0, 3, 0),
    Held::Packet(20, 3, 0),
    Held::Packet(4, 3, 0),
    Held::Packet(14, 3, 0),
);

fn proved(bytes: u32) -> [Kind; 4] {
    [
        packet(0, 3, bytes),
        packet(20, 3, bytes),
        packet(4, 3, bytes),
        packet(14, 3, bytes),
    ]
}

impl Holds for Proved {
    fn holds(&self, _: Global) -> bool {
        let (test, bytes) = self;
        packet_test(*test, 14, &UNPROVED) == Some(proved(*bytes))
    }
}

const IS_BEFORE: Test = (Comparison::Less, false, true);

const AT_OR_BEFORE: Test = (Comparison::LessEqual, false, true);

/// A pointer with more proved bytes; one of another identity; one without identity; and no packet
/// pointer.
const OTHERS: Copies = (
    Held::Packet(0, 3, 40),
    Held::Packet(14, 4, 2),
    Held::Packet(14, 0, 0),
    Held::MapValue,
);

const NONE: Held = Held::Packet(0, 3, 0);

const ONE: Held = Held::Packet(0, 3, 1);

const FAR: Held = Held::Packet(0, 3, 0x8000_0000);

/// A test of a pointer with this fixed part, the copies before it, and those after it.
type PacketTest = (Test, i32, Copies, Copies);

const COPIES: &[PacketTest] = &[
    (IS_BEFORE, 14, OTHERS, OTHERS),
    // A test that a pointer is at or before the packet end proves as many bytes as its fixed part
    // says, and one that it is before the packet end proves one more; none, if that is not above 0.
    (
        AT_OR_BEFORE,
        0,
        (NONE, NONE, NONE, NONE),
        (NONE, NONE, NONE, NONE),
    ),
    (IS_BEFORE, 0, (NONE, NONE, NONE, NONE), (ONE, ONE, ONE, ONE)),
    (
        IS_BEFORE,
        -1,
        (NONE, NONE, NONE, NONE),
        (NONE, NONE, NONE, NONE),
    ),
    (
        AT_OR_BEFORE,
        i32::MIN,
        (NONE, NONE, NONE, NONE),
        (NONE, NONE, NONE, NONE),
    ),
    (
        IS_BEFORE,
        i32::MAX,
        (NONE, NONE, NONE, NONE),
        (FAR, FAR, FAR, FAR),
    ),
];

impl Holds for PacketTest {
    fn holds(&self, _: Global) -> bool {
        let (test, fixed, before, after) = self;
        packet_test(*test, *fixed, before) == Some(kinds_of(after))
    }
}

const UNTESTED: Copies = (
    Held::LookedUp(5),
    Held::LookedUp(5),
    Held::LookedUp(5),
    Held::LookedUp(6),
);

const NULL: Copies = (Held::Zero, Held::Zero, Held::Zero, Held::LookedUp(6));

const NOT_NULL: Copies = (
    Held::MapValue,
    Held::MapValue,
    Held::MapValue,
    Held::LookedUp(6),
);

const SOME_NOT_NULL: Copies = (
    Held::MapValue,
    Held::LookedUp(5),
    Held::LookedUp(5),
    Held::MapValue,
);

/// The kind of r2, the copies, a comparison of r2 with 0 and whether it holds, and the copies after
/// it. Null tests decide every copy; a pointer to a map value is not null.
type NullTest = (Held, Copies, Comparison, bool, Option<Copies>);

const NULL_TESTS: &[NullTest] = &[
    (
        Held::LookedUp(5),
        UNTESTED,
        Comparison::Equal,
        true,
        Some(NULL),
    ),
    (
        Held::LookedUp(5),
        UNTESTED,
        Comparison::Equal,
        false,
        Some(NOT_NULL),
    ),
    (
        Held::LookedUp(5),
        UNTESTED,
        Comparison::NotEqual,
        true,
        Some(NOT_NULL),
    ),
    (
        Held::LookedUp(5),
        UNTESTED,
        Comparison::NotEqual,
        false,
        Some(NULL),
    ),
    (Held::MapValue, SOME_NOT_NULL, Comparison::Equal, true, None),
    (
        Held::MapValue,
        SOME_NOT_NULL,
        Comparison::Equal,
        false,
        Some(SOME_NOT_NULL),
    ),
    (
        Held::MapValue,
        SOME_NOT_NULL,
        Comparison::NotEqual,
        true,
        Some(SOME_NOT_NULL),
    ),
    (
        Held::MapValue,
        SOME_NOT_NULL,
        Comparison::NotEqual,
        false,
        None,
    ),
];

fn kinds_if(held: &Option<Copies>) -> Option<[Kind; 4]> {
    match held {
        Some(held) => Some(kinds_of(held)),
        None => None,
    }
}

impl Holds for NullTest {
    fn holds(&self, _: Global) -> bool {
        let (tested, copies, comparison, taken, after) = self;
        let state = in_call(kind_of(tested), Kind::Unset, kinds_of(copies));
        let cond = condition(*comparison, FULL, Reg::R2, ZERO);
        copies_after(cond, *taken, &state) == kinds_if(after)
    }
}

const POINTER: Held = Held::Packet(14, 3, 0);

const LOOKED_UP: Held = Held::LookedUp(5);

/// Comparisons of r2 with r3 or a number, and what both registers hold: none of them is defined.
type Undefined = (Comparison, Width, Operand, Held, Held);

const UNDEFINED: &[Undefined] = &[
    (Comparison::Equal, FULL, R3, POINTER, Held::PacketEnd),
    (Comparison::SignedLess, FULL, R3, POINTER, Held::PacketEnd),
    (Comparison::AnyBit, FULL, R3, Held::PacketEnd, POINTER),
    (Comparison::Less, Width::Low32, R3, POINTER, Held::PacketEnd),
    (Comparison::Less, FULL, R3, POINTER, POINTER),
    (Comparison::Less, FULL, R3, Held::PacketEnd, Held::PacketEnd),
    (Comparison::Equal, FULL, ZERO, POINTER, Held::Unset),
    (
        Comparison::Equal,
        Width::Low32,
        ZERO,
        Held::MapValue,
        Held::Unset,
    ),
    (Comparison::Greater, FULL, ZERO, LOOKED_UP, Held::Unset),
    (
        Comparison::Equal,
        FULL,
        Operand::Constant(1),
        LOOKED_UP,
        Held::Unset,
    ),
    (Comparison::Equal, FULL, R3, LOOKED_UP, LOOKED_UP),
    (Comparison::Equal, FULL, ZERO, Held::Unset, Held::Unset),
];

/// Says whether a comparison is not defined if r2 and r3 hold this, and all copies stay if it holds
/// and if it does not.
impl Holds for Undefined {
    fn holds(&self, _: Global) -> bool {
        let (comparison, width, operand, left, right) = self;
        let cond = condition(*comparison, *width, Reg::R2, *operand);
        let (left, right) = (kind_of(left), kind_of(right));
        let copies = [left, right, right, left];
        let state = in_call(left, right, copies);
        compared_by(cond, &state) == Compared::Undefined
            && copies_after(cond, true, &state) == Some(copies)
            && copies_after(cond, false, &state) == Some(copies)
    }
}

#[test]
fn pointers(rt: HostRuntime) {
    hold_all(&rt, "proved bytes", PACKET_TESTS);
    hold_all(&rt, "copies", COPIES);
    hold_all(&rt, "null tests", NULL_TESTS);
    hold_all(&rt, "not defined", UNDEFINED);
}
