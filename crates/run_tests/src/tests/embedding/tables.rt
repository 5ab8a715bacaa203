//! Proof tables of `r0 = 2; exit`.

use super::buffers::holds;
use super::images::{ENDLESS, OTHER, PASS};
use crate::tests::rows::{Holds, hold_all};
use calls::rechecks::{Rechecked, recheck_table};
use std::alloc::Global;

/// The successors of the first entry, and the second entry up to its r1: all bytes after that are
/// 0. In the second entry r0 is the number 2: value and mask, then the limits at 64 and at 32 bits.
const SECOND: [u8; 80] = *b"\x01\x01\0\0\0\
    \x01\0\0\0\x01\0\x01\0\0\
    \x01\x02\0\0\0\0\0\0\0\0\0\0\0\0\0\0\0\
    \x02\0\0\0\0\0\0\0\x02\0\0\0\0\0\0\0\x02\0\0\0\0\0\0\0\x02\0\0\0\0\0\0\0\
    \x02\0\0\0\x02\0\0\0\x02\0\0\0\x02\0\0\0\x02";

/// The table of the program, of two entries, with a byte changed.
fn table(index: usize, byte: u8) -> [u8; 372] {
    let mut bytes = [0; 372];
    bytes[..19].copy_from_slice(b"XPT1\x02\0\0\0\x02\0\0\0\0\0\x01\0\0\0\x02");
    bytes[155..235].copy_from_slice(&SECOND);
    bytes[index.min(371)] = byte;
    bytes
}

/// The status, the bound, and the rule with the entry.
type Tested = (u32, u32, u32, usize);

/// Rechecks the table, and returns what was tested with the size of the text.
fn rechecked(alloc: Global, image: &[u8], table: &[u8], why: &mut [u8]) -> (Tested, usize) {
    let mut out = Rechecked {
        said: 9,
        entry: 9,
        bound: 9,
        rule: 9,
    };
    let status = recheck_table(alloc, image, table, why, &mut out);
    ((status, out.bound, out.rule, out.entry), out.said)
}

/// An image, an index in the table, the byte that is put there, and what is returned and said, as
/// docs/REFUSALS.md shows it.
type Change = (&'static [u8], usize, u8, (Tested, &'static str));

const CHANGES: &[Change] = &[
    (&PASS, 0, 0x58, ((0, 2, 0, 0), "")),
    (&PASS, 8, 5, ((0, 5, 0, 0), "")),
    (
        &PASS,
        0,
        0x59,
        (
            (2, 0, 1, 0),
            "refused P1\nthe bytes do not begin with XPT1\n",
        ),
    ),
    (&PASS, 4, 3, ((2, 0, 2, 0), "")),
    (&PASS, 4, 1, ((2, 0, 3, 0), "")),
    (&PASS, 4, 0, ((2, 0, 4, 0), "")),
    (
        &PASS,
        166,
        9,
        (
            (2, 0, 5, 1),
            "refused P5 entry 1\na field of the entry has a value that is not allowed\nentry 1\n",
        ),
    ),
    (
        &PASS,
        8,
        1,
        (
            (2, 0, 8, 0),
            "refused P8 entry 0\nthe named entries do not cover its successors, or their numbers \
             are not smaller\nentry 0\nslot 0: r0 = 2\n\
             successor 0: entry 1 has number 1, not smaller than 1\n",
        ),
    ),
    (&PASS, 156, 2, ((2, 0, 8, 0), "")),
    (&OTHER, 0, 0x58, ((2, 0, 0, 0), "")),
    (&ENDLESS, 0, 0x58, ((2, 0, 8, 0), "")),
];

impl Holds for Change {
    fn holds(&self, alloc: Global) -> bool {
        let (image, index, byte, (wanted, text)) = self;
        let mut why = [7; 200];
        let room = if text.is_empty() { 0 } else { 200 };
        let (found, said) = rechecked(alloc, *image, &table(*index, *byte), &mut why[..room]);
        found == *wanted && (room == 0 || said == text.len()) && holds(&why, text.as_bytes())
    }
}

#[test]
fn rechecks(rt: HostRuntime) {
    hold_all(&rt, "changed tables", CHANGES);
}
