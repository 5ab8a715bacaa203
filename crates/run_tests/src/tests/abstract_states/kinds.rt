//! Which kinds cover which, on examples.

use crate::tests::rows::{Holds, hold_all};
use isa_model::Width;
use reg_state::{Domain, Kind, Scalar};
use std::alloc::Global;

const OWN: u32 = 7;

/// A kind of a register. A constant slice holds no `Kind`, which may hold a struct with ghost
/// fields.
enum Held {
    Unset,
    AnyNumber,
    /// A packet pointer with that many proved bytes.
    Packet(u32),
    Untested,
    MapValue,
}

fn kind_of(held: &Held) -> Kind {
    match held {
        Held::Unset => Kind::Unset,
        Held::AnyNumber => Kind::Number(Scalar::any(Width::Full64)),
        Held::Packet(proved) => Kind::Packet {
            fixed: 2,
            identity: OWN,
            least: 0,
            greatest: 255,
            proved: *proved,
        },
        Held::Untested => Kind::MapValueOrNull {
            index: 0,
            identity: OWN,
        },
        Held::MapValue => Kind::MapValue {
            index: 0,
            least: 0,
            greatest: 8,
        },
    }
}

/// Two kinds, the counterpart of the first one's identity, and whether the first covers the second.
type Covered = (Held, Held, u32, bool);

const COVERED: &[Covered] = &[
    // A number covers no pointer, and a pointer no number.
    (Held::AnyNumber, Held::Packet(0), OWN, false),
    (Held::Packet(0), Held::AnyNumber, OWN, false),
    (Held::Unset, Held::Packet(0), OWN, true),
    (Held::Unset, Held::AnyNumber, OWN, true),
    // A pointer with fewer proved bytes covers one with more, if that has the counterpart.
    (Held::Packet(14), Held::Packet(10), OWN, false),
    (Held::Packet(10), Held::Packet(14), OWN, true),
    (Held::Packet(14), Held::Packet(14), OWN, true),
    (Held::Packet(14), Held::Packet(14), OWN + 1, false),
    // A pointer to a map value does not cover one that may be null.
    (Held::MapValue, Held::Untested, OWN, false),
    (Held::MapValue, Held::MapValue, OWN, true),
    (Held::Untested, Held::Untested, OWN, true),
];

impl Holds for Covered {
    fn holds(&self, _: Global) -> bool {
        let (a, b, identity, wanted) = self;
        kind_of(a).covers(kind_of(b), *identity) == *wanted
    }
}

/// A kind, and its identity as what a look-up gave, and as a packet pointer.
type Identified = (Held, Option<u32>, Option<u32>);

const IDENTITIES: &[Identified] = &[
    (Held::Untested, Some(OWN), None),
    (Held::Packet(0), None, Some(OWN)),
];

impl Holds for Identified {
    fn holds(&self, _: Global) -> bool {
        let (held, null, packet) = self;
        let kind = kind_of(held);
        kind.null_identity() == *null && kind.packet_identity() == *packet
    }
}

#[test]
fn kinds(rt: HostRuntime) {
    hold_all(&rt, "covered", COVERED);
    hold_all(&rt, "identities", IDENTITIES);
}
