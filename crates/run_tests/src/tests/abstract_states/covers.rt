//! Which states cover which, on examples.

use super::samples::{Held, Put, Sample, state_of};
use crate::tests::rows::{Holds, hold_all};
use state_cover::covers;
use std::alloc::Global;

/// Two states, and whether the first covers the second.
type Row = (Sample, Sample, bool);

impl Holds for Row {
    fn holds(&self, _: Global) -> bool {
        let (a, b, wanted) = self;
        covers(&state_of(a), &state_of(b)) == *wanted
    }
}

const ONE_IDENTITY: Sample = Sample::Outer(
    3,
    &[
        Put::Register(2, Held::Packet(1, 0)),
        Put::Register(3, Held::Packet(1, 0)),
    ],
);

const SAME_IDENTITY: Sample = Sample::Outer(
    3,
    &[
        Put::Register(2, Held::Packet(4, 0)),
        Put::Register(3, Held::Packet(4, 0)),
    ],
);

const TWO_IDENTITIES: Sample = Sample::Outer(
    3,
    &[
        Put::Register(2, Held::Packet(4, 0)),
        Put::Register(3, Held::Packet(5, 0)),
    ],
);

const PROVED_14: Sample = Sample::Outer(3, &[Put::Register(2, Held::Packet(1, 14))]);

const PROVED_10: Sample = Sample::Outer(3, &[Put::Register(2, Held::Packet(2, 10))]);

const NOTHING: Sample = Sample::Outer(3, &[]);

const IN_LAST: Sample = Sample::Outer(3, &[Put::Register(9, Held::Context)]);

const IN_LAST_LATER: Sample = Sample::Outer(4, &[Put::Register(9, Held::Context)]);

const ANY_NUMBER: Sample = Sample::Outer(3, &[Put::Register(2, Held::AnyNumber)]);

const SEVEN: Sample = Sample::Outer(3, &[Put::Register(2, Held::Number(7))]);

const REGISTERS: &[Row] = &[
    // One identity in the covering state has one counterpart.
    (ONE_IDENTITY, SAME_IDENTITY, true),
    (ONE_IDENTITY, TWO_IDENTITIES, false),
    (TWO_IDENTITIES, ONE_IDENTITY, true),
    // A pointer with more proved bytes does not cover one with fewer.
    (PROVED_14, PROVED_10, false),
    (PROVED_10, PROVED_14, true),
    // Unset covers all kinds, and the states' slots have to be the same.
    (NOTHING, IN_LAST, true),
    (IN_LAST, NOTHING, false),
    (IN_LAST, IN_LAST, true),
    (IN_LAST_LATER, IN_LAST, false),
    // All numbers cover the number 7.
    (ANY_NUMBER, SEVEN, true),
    (SEVEN, ANY_NUMBER, false),
];

const BACK_TO_7: Sample = Sample::InCall(7, &[], &[]);

const BACK_TO_8: Sample = Sample::InCall(8, &[], &[]);

const SAME_IN_BOTH: Sample = Sample::InCall(
    7,
    &[Put::Register(6, Held::Packet(1, 0))],
    &[Put::Register(2, Held::Packet(1, 0))],
);

const OTHER_IN_BOTH: Sample = Sample::InCall(
    7,
    &[Put::Register(6, Held::Packet(1, 0))],
    &[Put::Register(2, Held::Packet(2, 0))],
);

const CALLS: &[Row] = &[
    // Return slots and depths have to be the same.
    (BACK_TO_7, BACK_TO_7, true),
    (BACK_TO_7, BACK_TO_8, false),
    (BACK_TO_7, NOTHING, false),
    // An identity has one counterpart in all call frames.
    (SAME_IN_BOTH, SAME_IN_BOTH, true),
    (SAME_IN_BOTH, OTHER_IN_BOTH, false),
    (OTHER_IN_BOTH, SAME_IN_BOTH, true),
];

const POINTER_IN_5: Sample = Sample::Outer(3, &[Put::Spill(5, Held::Context)]);

const SEVEN_IN_5: Sample = Sample::Outer(3, &[Put::Spill(5, Held::Number(7))]);

const HALF_WRITTEN: Sample = Sample::Outer(3, &[Put::Written(63, 0x0f)]);

const ALL_WRITTEN: Sample = Sample::Outer(3, &[Put::Written(63, 0xff)]);

const SEVEN_IN_63: Sample = Sample::Outer(3, &[Put::Spill(63, Held::Number(7))]);

const EIGHT_IN_63: Sample = Sample::Outer(3, &[Put::Spill(63, Held::Number(8))]);

const POINTER_IN_63: Sample = Sample::Outer(3, &[Put::Spill(63, Held::Context)]);

const ONE_IN_STACK: Sample = Sample::Outer(
    3,
    &[
        Put::Spill(0, Held::Packet(1, 0)),
        Put::Spill(9, Held::Packet(1, 0)),
    ],
);

const SAME_IN_STACK: Sample = Sample::Outer(
    3,
    &[
        Put::Spill(0, Held::Packet(4, 0)),
        Put::Spill(9, Held::Packet(4, 0)),
    ],
);

const TWO_IN_STACK: Sample = Sample::Outer(
    3,
    &[
        Put::Spill(0, Held::Packet(4, 0)),
        Put::Spill(9, Held::Packet(5, 0)),
    ],
);

const PROVED_14_IN_0: Sample = Sample::Outer(3, &[Put::Spill(0, Held::Packet(1, 14))]);

const PROVED_10_IN_0: Sample = Sample::Outer(3, &[Put::Spill(0, Held::Packet(1, 10))]);

const SAME_SPILL_AND_REGISTER: Sample = Sample::Outer(
    3,
    &[
        Put::Spill(8, Held::Packet(1, 0)),
        Put::Register(2, Held::Packet(1, 0)),
    ],
);

const OTHER_SPILL_AND_REGISTER: Sample = Sample::Outer(
    3,
    &[
        Put::Spill(8, Held::Packet(2, 0)),
        Put::Register(2, Held::Packet(1, 0)),
    ],
);

const STACKS: &[Row] = &[
    // A pointer covers no number, and a number no pointer.
    (POINTER_IN_5, POINTER_IN_5, true),
    (POINTER_IN_5, SEVEN_IN_5, false),
    (SEVEN_IN_5, POINTER_IN_5, false),
    // Fewer written bytes cover more, and written bytes cover a number, but no pointer.
    (NOTHING, HALF_WRITTEN, true),
    (HALF_WRITTEN, NOTHING, false),
    (HALF_WRITTEN, ALL_WRITTEN, true),
    (ALL_WRITTEN, HALF_WRITTEN, false),
    (ALL_WRITTEN, SEVEN_IN_63, true),
    (SEVEN_IN_63, ALL_WRITTEN, false),
    (SEVEN_IN_63, EIGHT_IN_63, false),
    (ALL_WRITTEN, POINTER_IN_63, false),
    // An identity has one counterpart in all stack slots.
    (ONE_IN_STACK, SAME_IN_STACK, true),
    (ONE_IN_STACK, TWO_IN_STACK, false),
    (TWO_IN_STACK, ONE_IN_STACK, true),
    // A pointer with more proved bytes does not cover one with fewer.
    (PROVED_14_IN_0, PROVED_10_IN_0, false),
    // An identity has one counterpart in registers and stack slots.
    (SAME_SPILL_AND_REGISTER, SAME_SPILL_AND_REGISTER, true),
    (SAME_SPILL_AND_REGISTER, OTHER_SPILL_AND_REGISTER, false),
    (OTHER_SPILL_AND_REGISTER, SAME_SPILL_AND_REGISTER, true),
];

const CALLED: Sample = Sample::InCall(0, &[], &[]);

const SEVEN_OF_CALLER: Sample = Sample::InCall(0, &[Put::Spill(2, Held::Number(7))], &[]);

const SEVEN_IN_3_OF_CALLER: Sample = Sample::InCall(0, &[Put::Spill(3, Held::Number(7))], &[]);

const STACKS_OF_CALLERS: &[Row] = &[
    (CALLED, SEVEN_OF_CALLER, true),
    (SEVEN_OF_CALLER, SEVEN_OF_CALLER, true),
    (SEVEN_OF_CALLER, CALLED, false),
    (SEVEN_OF_CALLER, SEVEN_IN_3_OF_CALLER, false),
    (NOTHING, CALLED, false),
];

#[test]
fn covering(rt: HostRuntime) {
    hold_all(&rt, "registers", REGISTERS);
    hold_all(&rt, "calls", CALLS);
    hold_all(&rt, "stacks", STACKS);
    hold_all(&rt, "stacks of callers", STACKS_OF_CALLERS);
}
