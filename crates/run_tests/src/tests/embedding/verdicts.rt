//! Calls on texts and images, and those for actions and the version.

use super::buffers::holds;
use super::images::{ENDLESS, OTHER, PASS, UNGUARDED};
use crate::tests::rows::{Holds, hold_all};
use calls::assembling::{Assembled, assemble_text};
use calls::judging::{Verdict, verify_image};
use calls::naming::{number_of_action, write_version};
use std::alloc::Global;

/// The status, the size of the image, or of the message if there is none, the line and the column.
type Made = (u32, usize, usize, usize);

fn assembled(alloc: Global, text: &[u8], image: &mut [u8], why: &mut [u8]) -> Made {
    let mut out = Assembled {
        size: 9,
        line: 9,
        column: 9,
    };
    let status = assemble_text(alloc, text, image, why, &mut out);
    (status, out.size, out.line, out.column)
}

/// A text, the room for its image, and what is returned, with what is written of the image and of
/// why there is none.
type Text = (&'static [u8], usize, (Made, &'static [u8], &'static [u8]));

const TEXTS: &[Text] = &[
    (b"r0 = 2\nexit\n", 26, ((0, 24, 0, 0), &PASS, b"")),
    (
        b"r0 = 2\nexit\n",
        10,
        ((0, 24, 0, 0), b"XBP1\0\0\x02\0\xb7\0", b""),
    ),
    (
        b"r0 = 2\n r0 = r11\n",
        26,
        (
            (2, 70, 2, 2),
            b"",
            b"refused A2 line 2 column 2\nno form fits the statement\nline 2 column 2\n",
        ),
    ),
];

impl Holds for Text {
    fn holds(&self, alloc: Global) -> bool {
        let (text, room, (wanted, written, message)) = self;
        let mut image = [7; 26];
        let mut why = [7; 80];
        let found = assembled(alloc, *text, &mut image[..(*room).min(26)], &mut why);
        found == *wanted && holds(&image, *written) && holds(&why, *message)
    }
}

/// The status, and the bound, the slot, the size of the message and the number of the code, within
/// a limit.
type Judged = (u32, u32, usize, usize, u32);

fn verdict(alloc: Global, image: &[u8], limit: u32, why: &mut [u8]) -> Judged {
    let mut out = Verdict {
        said: 9,
        slot: 9,
        bound: 9,
        code: 9,
    };
    let status = verify_image(alloc, image, limit, why, &mut out);
    (status, out.bound, out.slot, out.said, out.code)
}

/// An image and a limit of explored instructions, and what is returned and said: `PASS` has two
/// instructions, and each is explored once. Without room for a message, what is known at the
/// instruction is not looked for.
type Judging = (&'static [u8], u32, (Judged, &'static str));

const IMAGES: &[Judging] = &[
    (&PASS, 1_000_000, ((0, 2, 0, 0, 0), "")),
    (&PASS, 0, ((1, 9, 9, 9, 9), "")),
    (&PASS, 1, ((6, 9, 9, 9, 9), "")),
    (&PASS, 2, ((0, 2, 0, 0, 0), "")),
    (&PASS, 1_000_001, ((1, 9, 9, 9, 9), "")),
    (&UNGUARDED, 1, ((6, 9, 9, 9, 9), "")),
    (
        &OTHER,
        1,
        (
            (2, 0, 0, 52, 201),
            "refused I1\nthe bytes do not begin with XBP1 or XBP2\n",
        ),
    ),
    (
        &UNGUARDED,
        1_000_000,
        (
            (2, 0, 1, 266, 9),
            "refused V9 slot 1\nthe packet bytes are not proved to be there\n\
             slot 1: r0 = *(u8 *)(r2 + 13)\nr2: packet pointer at 0, 0 bytes proved\n\
             needs bytes 13 to 13; 0 are proved: test before this, and after the last move of \
             r2: r5 = r2; r5 += 14; if r5 > packet end goto short\n",
        ),
    ),
    (
        &ENDLESS,
        1_000_000,
        (
            (2, 0, 1, 162, 18),
            "refused V18 slot 1\na path comes back to a state that it was in: the loop has no end\n\
             slot 1: goto -1\nchange a register in the loop that its test reads\nway: 1 -> 1\n",
        ),
    ),
    (&ENDLESS, 1_000_000, ((2, 0, 1, 100, 18), "")),
];

impl Holds for Judging {
    /// With room for a message if one is wanted.
    fn holds(&self, alloc: Global) -> bool {
        let (image, limit, (wanted, text)) = self;
        let mut why = [7; 300];
        let room = if text.is_empty() { 0 } else { 300 };
        let found = verdict(alloc, *image, *limit, &mut why[..room]);
        found == *wanted && holds(&why, text.as_bytes())
    }
}

/// The number of the action that the low 32 bits of r0 name, or 5 if they name none, and r0.
type Named = (u32, u64);

const ACTIONS: &[Named] = &[
    (0, 0),
    (1, 1),
    (2, 0x7_0000_0002),
    (3, 3),
    (4, 4),
    (5, 5),
    (5, 0xffff_ffff),
];

impl Holds for Named {
    fn holds(&self, _alloc: Global) -> bool {
        number_of_action(self.1) == self.0
    }
}

/// Returns whether the version is written, and nothing after it.
fn writes_version() -> bool {
    let mut version = [7; 6];
    write_version(&mut version) == 5 && holds(&version, b"0.1.0")
}

#[test]
fn judges(rt: HostRuntime) {
    hold_all(&rt, "texts", TEXTS);
    hold_all(&rt, "images", IMAGES);
    hold_all(&rt, "actions", ACTIONS);
    assert!(rt; writes_version());
}
