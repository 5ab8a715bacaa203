//! Calls that say what an image has, and write its text.

use super::buffers::holds;
use super::images::{MAPS, OTHER, PASS};
use crate::tests::rows::{Holds, hold_all};
use calls::buffers::TextSize;
use calls::describing::{Described, MapRow, describe_image};
use calls::disassembling::disassemble_image;
use std::alloc::Global;

/// The status, the slots, the map rows and the version.
type Has = (u32, usize, usize, u32);

/// A row: the type, the sizes of a key and of a value, and the most keys; all 7 if it is not
/// written.
type Row = (u32, u32, u32, u32);

fn described(alloc: Global, image: &[u8], rows: &mut [MapRow]) -> Has {
    let mut out = Described {
        slots: 9,
        maps: 9,
        version: 9,
    };
    let status = describe_image(alloc, image, rows, &mut out);
    (status, out.slots, out.maps, out.version)
}

fn is_row(row: MapRow, wanted: Row) -> bool {
    (row.kind, row.key_size, row.value_size, row.entries) == wanted
}

/// An image, the room for its map rows, and what is returned, with two rows.
type Description = (&'static [u8], usize, Has, (Row, Row));

const DESCRIPTIONS: &[Description] = &[
    (&MAPS, 2, (0, 2, 2, 1), ((1, 2, 3, 2), (2, 4, 4, 4))),
    (&MAPS, 1, (0, 2, 2, 1), ((1, 2, 3, 2), (7, 7, 7, 7))),
    (&PASS, 2, (0, 2, 0, 1), ((7, 7, 7, 7), (7, 7, 7, 7))),
    (&OTHER, 2, (2, 9, 9, 9), ((7, 7, 7, 7), (7, 7, 7, 7))),
];

impl Holds for Description {
    fn holds(&self, alloc: Global) -> bool {
        let (image, room, wanted, (first, second)) = self;
        let row = MapRow {
            kind: 7,
            key_size: 7,
            value_size: 7,
            entries: 7,
        };
        let mut rows = [row; 2];
        let found = described(alloc, *image, &mut rows[..(*room).min(2)]);
        found == *wanted && is_row(rows[0], *first) && is_row(rows[1], *second)
    }
}

/// An image, the room for its text, the status and the size of the text, and what is written.
type ImageText = (&'static [u8], usize, (u32, usize), &'static [u8]);

const TEXTS: &[ImageText] = &[
    (&PASS, 60, (0, 12), b"r0 = 2\nexit\n"),
    (&PASS, 4, (0, 12), b"r0 ="),
    (
        &MAPS,
        60,
        (0, 43),
        b"map hash 2 3 2\nmap array 4 4 4\nr0 = 2\nexit\n",
    ),
    (&OTHER, 60, (2, 9), b""),
];

impl Holds for ImageText {
    fn holds(&self, alloc: Global) -> bool {
        let (image, room, wanted, written) = self;
        let mut text = [7; 60];
        let mut out = TextSize { size: 9 };
        let status = disassemble_image(alloc, *image, &mut text[..(*room).min(60)], &mut out);
        (status, out.size) == *wanted && holds(&text, *written)
    }
}

#[test]
fn describes(rt: HostRuntime) {
    hold_all(&rt, "descriptions", DESCRIPTIONS);
    hold_all(&rt, "texts of images", TEXTS);
}
