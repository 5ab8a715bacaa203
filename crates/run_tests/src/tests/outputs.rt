//! Images and texts that are written into outputs with too little room, and with just enough.

use super::programs::image_of;
use super::rows::holds_at;
use disassembler::disassemble;
use image::Image;
use std::alloc::Global;
use std::io::ErrorKind;

/// A text, whether the text of its image is written or the image's bytes, and what is written.
const WRITTEN: &[(&str, bool, &[u8])] = &[
    (
        "r0 = 2; exit",
        false,
        b"XBP1\0\0\x02\0\xb7\0\0\0\x02\0\0\0\x95\0\0\0\0\0\0\0",
    ),
    (
        "version 2; map array 4 16 1; r0 = 2 ll; exit",
        true,
        b"version 2\nmap array 4 16 1\nr0 = 0x2 ll\nexit\n",
    ),
    (
        "w1 = (s16)w2; r2 = atomic_fetch_and_64(r10 - 8, r2); if w1 s>= -4 goto +3; call pc-9",
        true,
        b"w1 = (s16)w2\nr2 = atomic_fetch_and_64(r10 - 8, r2)\nif w1 s>= -4 goto +3\ncall pc-9\n",
    ),
];

/// Returns why writing fails, if it does.
fn failure_of(image: &Image, is_text: bool, mut out: &mut [u8]) -> Option<ErrorKind> {
    let written = if is_text {
        disassemble(image, &mut out)
    } else {
        image.write(&mut out)
    };
    match written {
        Ok(()) => None,
        Err(error) => Some(error.kind()),
    }
}

/// Returns whether an output gets as many bytes as it has room for, and its failure is returned.
fn is_front(image: &Image, is_text: bool, whole: &[u8], room: usize) -> bool {
    let mut taken = [0; 99];
    let failure = match taken.get_mut(..room) {
        Some(out) => failure_of(image, is_text, out),
        None => None,
    };
    let wanted = if room < whole.len() {
        Some(ErrorKind::WriteZero)
    } else {
        None
    };
    failure == wanted && taken.get(..room) == whole.get(..room)
}

fn is_front_of_text(alloc: Global, text: &str, is_text: bool, whole: &[u8], room: usize) -> bool {
    match image_of(alloc, text) {
        Some(image) => is_front(&image, is_text, whole, room),
        None => false,
    }
}

#[test]
fn full_outputs(rt: HostRuntime) {
    for (index, (text, is_text, whole)) in WRITTEN.iter().enumerate() {
        for room in 0..=whole.len() {
            let is_so = is_front_of_text(rt.alloc(), *text, *is_text, *whole, room);
            holds_at(&rt, is_so, index, room);
        }
    }
}
