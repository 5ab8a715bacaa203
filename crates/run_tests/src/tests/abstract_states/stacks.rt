//! What is known of the bytes of a call frame, on frames written by hand.

use crate::tests::rows::{Holds, hold_all};
use isa_model::{Size, Width};
use reg_state::{Domain, Kind, Scalar};
use stack_state::{StackSlot, StackState};
use std::alloc::Global;

/// A set of numbers.
enum Numbers {
    One(u64),
    /// Those of 32 bits.
    Short,
    Any,
}

fn numbers_of(numbers: &Numbers) -> Scalar {
    match numbers {
        Numbers::One(number) => Scalar::constant(*number),
        Numbers::Short => Scalar::between(0, 0xffff_ffff),
        Numbers::Any => Scalar::any(Width::Full64),
    }
}

/// Says what a stack slot holds. Pointers to a map or a map value, and look-ups, have the map's
/// index.
enum Held {
    Unset,
    Context,
    PacketEnd,
    Numbers(Numbers),
    Map(u8),
    MapValue(u8),
    LookedUp(u8),
}

fn kind_of(held: &Held) -> Kind {
    match held {
        Held::Unset => Kind::Unset,
        Held::Context => Kind::Context,
        Held::PacketEnd => Kind::PacketEnd,
        Held::Numbers(numbers) => Kind::Number(numbers_of(numbers)),
        Held::Map(index) => Kind::Map { index: *index },
        Held::MapValue(index) => Kind::MapValue {
            index: *index,
            least: 0,
            greatest: 0,
        },
        Held::LookedUp(index) => Kind::MapValueOrNull {
            index: *index,
            identity: 1,
        },
    }
}

/// Says what is done to a call frame.
enum Act {
    Spill(usize, Held),
    Store(usize, Size),
    StoreNumber(usize, Size, Numbers),
    ForgetMap(u8),
}

fn act_on(stack: &mut StackState, act: &Act) {
    match act {
        Act::Spill(stack_slot, held) => {
            if *stack_slot < 64 {
                stack.spill(*stack_slot, kind_of(held));
            }
        }
        Act::Store(at, size) => {
            if *at < 512 && *at % 8 + size.bytes() <= 8 {
                stack.store(*at, *size);
            }
        }
        Act::StoreNumber(at, size, numbers) => {
            if *at < 512 && *at % 8 + size.bytes() <= 8 {
                stack.store_number(*at, *size, numbers_of(numbers));
            }
        }
        Act::ForgetMap(map) => stack.forget_map(*map),
    }
}

fn after(acts: &[Act]) -> StackState {
    let mut stack = StackState::new();
    for act in acts {
        act_on(&mut stack, act);
    }
    stack
}

/// Says what is looked at in a call frame, and what is wanted there.
enum Look {
    /// The bytes of a stack slot that are written, if no kind is known of it.
    Written(usize, u8),
    Fill(usize, Held),
    NoFill(usize),
    Load(usize, Size, Numbers),
    NoLoad(usize, Size),
    IsBytes(usize, usize, bool),
}

fn is_shown(stack: &StackState, look: &Look) -> bool {
    match look {
        Look::Written(stack_slot, marks) => {
            stack.slots().get(*stack_slot) == Some(&StackSlot::Written(*marks))
        }
        Look::Fill(stack_slot, held) => {
            *stack_slot < 64 && stack.fill(*stack_slot) == Some(kind_of(held))
        }
        Look::NoFill(stack_slot) => *stack_slot < 64 && stack.fill(*stack_slot).is_none(),
        Look::Load(at, size, numbers) => {
            *at < 512
                && *at % 8 + size.bytes() <= 8
                && stack.load(*at, *size) == Some(numbers_of(numbers))
        }
        Look::NoLoad(at, size) => {
            *at < 512 && *at % 8 + size.bytes() <= 8 && stack.load(*at, *size).is_none()
        }
        Look::IsBytes(from, count, wanted) => {
            *from <= 512 && *count <= 512 - *from && stack.is_bytes(*from, *count) == *wanted
        }
    }
}

/// Says what is done to a call frame, and what is then known of it.
type Row = (&'static [Act], &'static [Look]);

impl Holds for Row {
    fn holds(&self, _: Global) -> bool {
        let (acts, looks) = self;
        let stack = after(*acts);
        for look in *looks {
            if !is_shown(&stack, look) {
                return false;
            }
        }
        true
    }
}

/// Tests which bytes of stack slot 2 are written after a store.
#[rattlefmt::skip]
const STORES: &[Row] = &[
    (&[Act::Store(16, Size::U8)], &[Look::Written(2, 0x01)]),
    (&[Act::Store(17, Size::U8)], &[Look::Written(2, 0x02)]),
    (&[Act::Store(18, Size::U8)], &[Look::Written(2, 0x04)]),
    (&[Act::Store(19, Size::U8)], &[Look::Written(2, 0x08)]),
    (&[Act::Store(20, Size::U8)], &[Look::Written(2, 0x10)]),
    (&[Act::Store(21, Size::U8)], &[Look::Written(2, 0x20)]),
    (&[Act::Store(22, Size::U8)], &[Look::Written(2, 0x40)]),
    (&[Act::Store(23, Size::U8)], &[Look::Written(2, 0x80)]),
    (&[Act::Store(16, Size::U16)], &[Look::Written(2, 0x03)]),
    (&[Act::Store(18, Size::U16)], &[Look::Written(2, 0x0c)]),
    (&[Act::Store(20, Size::U16)], &[Look::Written(2, 0x30)]),
    (&[Act::Store(22, Size::U16)], &[Look::Written(2, 0xc0)]),
    (&[Act::Store(16, Size::U32)], &[Look::Written(2, 0x0f)]),
    (&[Act::Store(20, Size::U32)], &[Look::Written(2, 0xf0)]),
    (&[Act::Store(16, Size::U64)], &[Look::Written(2, 0xff)]),
    (&[Act::Store(15, Size::U8)], &[Look::Written(2, 0)]),
    (&[Act::Store(24, Size::U64)], &[Look::Written(2, 0)]),
];

const POINTERS: &[Row] = &[
    (
        &[Act::Spill(3, Held::Context)],
        &[
            Look::Fill(3, Held::Context),
            Look::NoFill(2),
            Look::NoLoad(24, Size::U64),
            Look::NoLoad(28, Size::U32),
        ],
    ),
    (
        &[Act::Spill(3, Held::Context), Act::Store(25, Size::U8)],
        &[
            Look::Written(3, 2),
            Look::NoFill(3),
            Look::IsBytes(25, 1, true),
            Look::IsBytes(24, 2, false),
        ],
    ),
];

const SEVEN: Held = Held::Numbers(Numbers::One(7));

const NUMBERS: &[Row] = &[
    (
        &[Act::Spill(3, SEVEN), Act::Spill(4, Held::PacketEnd)],
        &[
            Look::Fill(3, SEVEN),
            Look::Load(24, Size::U64, Numbers::One(7)),
            Look::Load(24, Size::U8, Numbers::One(7)),
            Look::Load(26, Size::U16, Numbers::One(0)),
            // Bytes of two stack slots; the second has a pointer.
            Look::IsBytes(28, 8, false),
        ],
    ),
    (
        &[Act::Spill(3, SEVEN), Act::Spill(4, SEVEN)],
        &[
            Look::IsBytes(28, 8, true),
            Look::IsBytes(24, 16, true),
            Look::IsBytes(24, 17, false),
        ],
    ),
    (
        &[Act::Spill(3, SEVEN), Act::Store(24, Size::U32)],
        &[Look::Written(3, 255)],
    ),
];

const MOST: Held = Held::Numbers(Numbers::One(u64::MAX));

/// A number is spilled, and then some or all of its bytes are overwritten.
#[rattlefmt::skip]
const CHANGES: &[Row] = &[
    (
        &[Act::Spill(3, SEVEN), Act::StoreNumber(24, Size::U32, Numbers::One(5))],
        &[Look::Fill(3, Held::Numbers(Numbers::One(5)))],
    ),
    (
        &[Act::Spill(3, SEVEN), Act::StoreNumber(28, Size::U32, Numbers::One(1))],
        &[Look::Fill(3, Held::Numbers(Numbers::One(0x1_0000_0007)))],
    ),
    (
        &[Act::Spill(3, SEVEN), Act::StoreNumber(28, Size::U32, Numbers::One(0x3_0000_0001))],
        &[Look::Fill(3, Held::Numbers(Numbers::One(0x1_0000_0007)))],
    ),
    (
        &[Act::Spill(3, MOST), Act::StoreNumber(24, Size::U32, Numbers::One(0))],
        &[Look::Fill(3, Held::Numbers(Numbers::One(0xffff_ffff_0000_0000)))],
    ),
    (
        &[Act::Spill(3, MOST), Act::StoreNumber(31, Size::U8, Numbers::One(1))],
        &[Look::Fill(3, Held::Numbers(Numbers::One(0x01ff_ffff_ffff_ffff)))],
    ),
    (
        &[
            Act::Spill(3, Held::Numbers(Numbers::One(0x1122_3344))),
            Act::StoreNumber(26, Size::U16, Numbers::One(0x5566)),
        ],
        &[Look::Fill(3, Held::Numbers(Numbers::One(0x5566_3344)))],
    ),
    (
        &[Act::Spill(3, SEVEN), Act::StoreNumber(24, Size::U64, Numbers::One(9))],
        &[Look::Fill(3, Held::Numbers(Numbers::One(9)))],
    ),
];

#[rattlefmt::skip]
const HALVES: &[Row] = &[
    (&[Act::StoreNumber(24, Size::U32, Numbers::One(1))], &[Look::Written(3, 0x0f)]),
    (
        &[Act::Store(24, Size::U32), Act::StoreNumber(28, Size::U32, Numbers::One(1))],
        &[Look::Load(28, Size::U32, Numbers::One(1)), Look::Load(24, Size::U32, Numbers::Short)],
    ),
    (
        &[Act::Store(24, Size::U64), Act::StoreNumber(28, Size::U32, Numbers::Any)],
        &[Look::Written(3, 255)],
    ),
    (
        &[Act::Store(24, Size::U64), Act::StoreNumber(28, Size::U32, Numbers::Short)],
        &[Look::Written(3, 255)],
    ),
    (
        &[Act::Spill(3, Held::Context), Act::StoreNumber(25, Size::U8, Numbers::One(1))],
        &[Look::Written(3, 2)],
    ),
];

const ANY: Held = Held::Numbers(Numbers::Any);

const UNKNOWN: &[Row] = &[(
    &[Act::Spill(0, ANY), Act::Spill(63, Held::Unset)],
    &[
        Look::Written(0, 255),
        Look::Fill(0, ANY),
        Look::Written(63, 0),
    ],
)];

const FORGOTTEN: &[Row] = &[(
    &[
        Act::Spill(0, Held::MapValue(1)),
        Act::Spill(1, Held::LookedUp(1)),
        Act::Spill(2, Held::LookedUp(2)),
        Act::Spill(3, Held::Map(1)),
        Act::Store(32, Size::U16),
        Act::ForgetMap(1),
    ],
    &[
        Look::NoFill(0),
        Look::Written(1, 0),
        Look::Fill(2, Held::LookedUp(2)),
        Look::Fill(3, Held::Map(1)),
        Look::IsBytes(32, 2, true),
    ],
)];

#[test]
fn stacks(rt: HostRuntime) {
    hold_all(&rt, "each size at each offset", STORES);
    hold_all(&rt, "a pointer is read whole", POINTERS);
    hold_all(&rt, "a number is read in part", NUMBERS);
    hold_all(&rt, "a number changes in part", CHANGES);
    hold_all(&rt, "a half beside any half", HALVES);
    hold_all(&rt, "an unknown number is written bytes", UNKNOWN);
    hold_all(&rt, "a map is forgotten", FORGOTTEN);
}
