//! Limits of what is known of parts of call frames. The look-up of a state that covers another one
//! goes by them.
//!
//! No contract rests on them: they propose states, and `covers` decides.

use crate::parts::Part;
use ranges::{Low, Wide};
use reg_state::{Kind, Scalar};
use stack_state::StackSlot;
use std::alloc::AllocError;

/// Says how many measures a part has.
pub const MEASURES: usize = 9;

/// The kind of knowledge that there is of a part.
#[derive(Clone, Copy, Drop)]
enum Variant {
    Number,
    Context,
    Stack,
    Packet,
    PacketEnd,
    Map,
    MapValue,
    MapValueOrNull,
    Written,
}

/// Monotone measures of a part: if a covers b, each measure of a is at least that of b.
#[derive(Clone, Copy, Drop)]
pub struct PartLimits {
    /// The index of the part: frames come one after another, and in each of them registers before
    /// stack slots.
    pub part_index: u32,
    variant: Variant,
    measures: [u64; MEASURES],
}

/// Names a measure of a part.
#[derive(Clone, Copy, Drop)]
pub struct Measure {
    pub part_index: u32,
    pub index: usize,
}

/// Says what is known of a part in some states: limits that enclose those of each state, and the
/// least of each measure.
#[derive(Clone, Copy, Drop)]
pub struct PartSpan {
    pub limits: PartLimits,
    least: [u64; MEASURES],
}

/// A number for a signed one: the greater of two has the greater number.
fn rising(number: i64) -> u64 {
    number.cast_unsigned() ^ 0x8000_0000_0000_0000
}

/// The measures of what may be as little as one number and as great as another.
fn between(least: i32, greatest: i32) -> [u64; 2] {
    [!rising(i64::from(least)), rising(i64::from(greatest))]
}

/// The measures of what must be equal.
fn same(number: i32) -> [u64; 2] {
    between(number, number)
}

fn of_two(first: [u64; 2], second: [u64; 2]) -> [u64; MEASURES] {
    [first[0], first[1], second[0], second[1], 0, 0, 0, 0, 0]
}

fn of_number(numbers: &Scalar) -> [u64; MEASURES] {
    let wide: &Wide = &numbers.range.wide;
    let low: &Low = &numbers.range.low;
    let signed_low = between(low.signed_least, low.signed_greatest);
    [
        !wide.least,
        wide.greatest,
        !rising(wide.signed_least),
        rising(wide.signed_greatest),
        !u64::from(low.least),
        u64::from(low.greatest),
        signed_low[0],
        signed_low[1],
        // the bits that are not known: where they include those of another number, they are no less
        // in either order of the bits; the limits go by the order from the top already
        numbers.bits.mask.reverse_bits(),
    ]
}

/// The measures of a part of which this is known.
fn of_kind(part_index: u32, kind: &Kind) -> Option<PartLimits> {
    let (variant, measures) = match kind {
        Kind::Unset => return None,
        Kind::Number(numbers) => (Variant::Number, of_number(numbers)),
        Kind::Context => (Variant::Context, [0; MEASURES]),
        Kind::Stack { frame, offset } => {
            (
                Variant::Stack,
                of_two(same(i32::from(*frame)), same(*offset)),
            )
        }
        Kind::Packet {
            fixed,
            least,
            greatest,
            proved,
            ..
        } => {
            let mut measures = of_two(same(*fixed), between(*least, *greatest));
            measures[4] = !u64::from(*proved);
            (Variant::Packet, measures)
        }
        Kind::PacketEnd => (Variant::PacketEnd, [0; MEASURES]),
        Kind::Map { index } => (Variant::Map, of_two(same(i32::from(*index)), [0; 2])),
        Kind::MapValue {
            index,
            least,
            greatest,
        } => {
            let map = same(i32::from(*index));
            (Variant::MapValue, of_two(map, between(*least, *greatest)))
        }
        Kind::MapValueOrNull { index, .. } => {
            let map = same(i32::from(*index));
            (Variant::MapValueOrNull, of_two(map, [0; 2]))
        }
    };
    Some(PartLimits {
        part_index,
        variant,
        measures,
    })
}

/// A measure for each byte: 1 where it need not be written.
fn of_marks(part_index: u32, marks: u8) -> PartLimits {
    let free = u64::from(!marks);
    PartLimits {
        part_index,
        variant: Variant::Written,
        measures: [
            free & 1,
            free >> 1 & 1,
            free >> 2 & 1,
            free >> 3 & 1,
            free >> 4 & 1,
            free >> 5 & 1,
            free >> 6 & 1,
            free >> 7 & 1,
            1,
        ],
    }
}

/// Says how many indexes there are for the parts of a frame.
const FRAME_INDEXES: u32 = 1 << 9;

impl PartLimits {
    /// The measures of a part of the frame with this index, from 0 for the outermost one. A part
    /// that allows all has none.
    fn of(frame_index: u32, part: &Part) -> Option<Self> {
        let first = frame_index.wrapping_mul(FRAME_INDEXES);
        match part {
            Part::InRegister(number, kind) => of_kind(first.wrapping_add(u32::from(*number)), kind),
            Part::InSlot(index, stack_slot) => {
                let part_index = first.wrapping_add(16 + u32::from(*index));
                match stack_slot {
                    StackSlot::Written(marks) => Some(of_marks(part_index, *marks)),
                    StackSlot::Spilled(kind) => of_kind(part_index, kind),
                }
            }
        }
    }

    /// Returns whether a state with this part may cover one with the other part: `false` says that
    /// it does not.
    fn may_enclose(&self, other: &PartLimits) -> bool {
        if self.variant as u8 != other.variant as u8 {
            return matches!(self.variant, Variant::Written);
        }
        for index in 0..MEASURES {
            if self.measures[index] < other.measures[index] {
                return false;
            }
        }
        true
    }
}

impl PartSpan {
    /// Of one state.
    pub fn of(limits: &PartLimits) -> Self {
        PartSpan {
            limits: *limits,
            least: limits.measures,
        }
    }

    /// Takes in the limits of one more state, and says whether those of all still say anything.
    fn widen(&mut self, other: &PartLimits) -> bool {
        let variant = self.limits.variant;
        if variant as u8 != other.variant as u8 {
            return false;
        }
        for index in 0..MEASURES {
            let number = other.measures[index];
            self.least[index] = self.least[index].min(number);
            self.limits.measures[index] = self.limits.measures[index].max(number);
        }
        !matches!(variant, Variant::Written) || self.limits.measures != [1; MEASURES]
    }

    /// Returns whether the states differ in a measure.
    pub fn differs(&self, index: usize) -> bool {
        self.least.get(index) != self.limits.measures.get(index)
    }
}

/// Puts the limits of a frame's parts after those of the frames around it.
pub fn add_limits(
    limits: &mut Vec<PartLimits>,
    frame_index: u32,
    parts: &[Part],
) -> Result<(), AllocError> {
    for part in parts {
        if let Some(found) = PartLimits::of(frame_index, part) {
            limits.push(found)?;
        }
    }
    Ok(())
}

/// The limits from a part on, in the order of the parts.
pub fn from_part(limits: &[PartLimits], part_index: u32) -> &[PartLimits] {
    let mut rest = limits;
    for _skipped in 0..limits.len() {
        match rest {
            [first, others @ ..] if first.part_index < part_index => rest = others,
            _ => return rest,
        }
    }
    rest
}

/// Returns whether one of the states of the spans may cover one with the others as its limits:
/// `false` says that none does.
pub fn may_enclose(spans: &[PartSpan], others: &[PartLimits]) -> bool {
    let mut rest = others;
    for span in spans {
        let own = &span.limits;
        rest = from_part(rest, own.part_index);
        match rest.first() {
            Some(other) if other.part_index == own.part_index && own.may_enclose(other) => {}
            _ => return false,
        }
    }
    true
}

/// A measure of a part, from which on these are the limits; the greatest number where nothing is
/// known of it.
pub fn measured(limits: &[PartLimits], measure: Measure) -> u64 {
    match limits.first() {
        Some(own) if own.part_index == measure.part_index => {
            own.measures.get(measure.index).copied().unwrap_or(0)
        }
        _ => u64::MAX,
    }
}

/// Widens spans by the limits of one more state, and leaves out parts where they say nothing.
pub fn widen(spans: &mut Vec<PartSpan>, others: &[PartLimits]) {
    let mut rest = others;
    let mut kept = 0;
    for index in 0..spans.len() {
        let Some(own) = spans.get(index) else {
            break;
        };
        let mut wider = *own;
        let part_index = wider.limits.part_index;
        rest = from_part(rest, part_index);
        if let Some(other) = rest.first() {
            if other.part_index == part_index && wider.widen(other) {
                if let Some(room) = spans.get_mut(kept) {
                    *room = wider;
                }
                kept = kept.saturating_add(1);
            }
        }
    }
    spans.truncate(kept);
}
