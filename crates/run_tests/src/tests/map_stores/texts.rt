//! Texts that fill maps, and texts that are refused.

use crate::tests::rows::holds_at;
use isa_model::{MapDef, MapType};
use map_texts::{fill_maps, write_maps};
use maps::Maps;
use std::alloc::Global;
use std::io;
use std::io::{ErrorKind, Read};
use std::test::Fail;

// A source that returns a few bytes at a time, and fails after them if it is to.
#[derive(Drop)]
struct Slow {
    text: &'static str,
    at: usize,
    chunk: usize,
    fails: bool,
}

impl Read for Slow {
    fn read(&mut self, buffer: &mut [u8]) -> io::Result<usize> {
        let text = self.text.as_bytes();
        if self.at >= text.len() {
            return if self.fails {
                Err(io::Error::from(ErrorKind::BrokenPipe))
            } else {
                Ok(0)
            };
        }
        let rest = &text[self.at..];
        let count = rest.len().min(buffer.len()).min(self.chunk);
        for i in 0..count {
            buffer[i] = rest[i];
        }
        self.at += count;
        Ok(count)
    }
}

// A hash map of two keys and an array of three.
const ROWS: &[MapDef] = &[
    MapDef {
        kind: MapType::Hash,
        key_size: 2,
        value_size: 1,
        entries: 2,
    },
    MapDef {
        kind: MapType::Array,
        key_size: 4,
        value_size: 2,
        entries: 3,
    },
];

// A text, the code of its refusal with line and column, and the lines of the maps after it.
const TEXTS: &[(&'static str, &str, usize, usize, &str)] = &[
    ("", "", 0, 0, ""),
    (
        "\n\n# a comment, of any length: ......................................................\n",
        "",
        0,
        0,
        "",
    ),
    ("map 0 0a0B 01", "", 0, 0, "map 0 0a0b 01\n"),
    (
        "map 0 0a0B 01\nmap 0 0A0b ff\n",
        "",
        0,
        0,
        "map 0 0a0b ff\n",
    ),
    (
        "0 PASS 60 4\nmap 1 02000000 aabb\nend 1\nfault F5 at 20\n",
        "",
        0,
        0,
        "map 1 02000000 aabb\n",
    ),
    ("nap 0 0a0b 01\n", "M1", 1, 1, ""),
    ("map\n", "M1", 1, 1, ""),
    ("map \n", "M1", 1, 5, ""),
    ("map x 0a0b 01\n", "M1", 1, 5, ""),
    ("map 0x 0a0b 01\n", "M1", 1, 6, ""),
    ("map 0\n", "M1", 1, 7, ""),
    ("map 0  01\n", "M1", 1, 7, ""),
    ("map 0 0a0g 01\n", "M1", 1, 10, ""),
    ("map 0 0a0 01\n", "M1", 1, 10, ""),
    ("map 0 0a0b\n", "M1", 1, 12, ""),
    ("map 0 0a0b 0\n", "M1", 1, 13, ""),
    ("map 0 0a0b 01 \n", "M1", 1, 14, ""),
    ("map 0 0a0b 01\r\n", "M1", 1, 14, ""),
    ("map 2 0a0b 01\n", "M2", 1, 5, ""),
    ("map 999999 0a\n", "M1", 1, 15, ""),
    (
        "map 0 0a0b 01\nmap 184467440 00 00",
        "M2",
        2,
        5,
        "map 0 0a0b 01\n",
    ),
    ("map 0 0a 01\n", "M3", 1, 7, ""),
    ("map 1 0a0b0c0d0e 01\n", "M3", 1, 7, ""),
    ("map 0 0a0b 0102\n", "M4", 1, 12, ""),
    (
        "map 0 0a0b 01\nmap 0 0a0c 01\nmap 0 0a0b 02\nmap 0 0a0d 01",
        "M5",
        4,
        7,
        "map 0 0a0b 02\nmap 0 0a0c 01\n",
    ),
    ("map 1 03000000 0000\n", "M5", 1, 7, ""),
    ("map 1 03000000 000\n", "M1", 1, 19, ""),
    ("map 1 03000000 00\n", "M4", 1, 16, ""),
    ("map 1 03000000 00000\n", "M6", 1, 20, ""),
    ("\nmap 1 03000000 0000000\n", "M6", 2, 20, ""),
    (
        "map 0 0a0b 01\nmap 0 0a0c 01",
        "M7",
        2,
        1,
        "map 0 0a0b 01\n",
    ),
];

// Whether a text that is read `chunk` bytes at a time does what its row says.
fn is_so(alloc: Global, row: &(&'static str, &str, usize, usize, &str), chunk: usize) -> bool {
    let (text, code, line, column, lines) = *row;
    let fails = code == "M7";
    let Ok(mut maps) = Maps::of_rows(alloc, ROWS) else {
        return false;
    };
    let mut source = Slow {
        text,
        at: 0,
        chunk,
        fails,
    };
    let told = match fill_maps(&mut maps, &mut source) {
        Ok(()) => code.is_empty(),
        Err(error) => error.kind.code() == code && error.line == line && error.column == column,
    };
    let mut written = Vec::new(alloc);
    if write_maps(&mut maps, &mut written).is_err() {
        return false;
    }
    told && are_listed(lines.as_bytes(), written.as_slice())
}

// Whether the lines are the first that were written, or those of an array the last.
fn are_listed(lines: &[u8], written: &[u8]) -> bool {
    written.starts_with(lines) || lines.starts_with(b"map 1") && written.ends_with(lines)
}

#[test]
fn texts(rt: HostRuntime) -> Result<(), Fail> {
    for (i, row) in TEXTS.iter().enumerate() {
        for chunk in [1, 7, 5000] {
            holds_at(&rt, is_so(rt.alloc(), row, chunk), i, chunk);
        }
    }
    Ok(())
}
