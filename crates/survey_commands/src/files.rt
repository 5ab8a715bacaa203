//! Reading as much of a file as an image can have.

use isa_model::{MAX_MAPS, MAX_SLOTS};
use std::alloc::Global;
use std::io::Read;
use std::rt::Files;
use std::{fs, io};

// One byte more than the longest image has. A longer file is refused whatever the rest of it is.
const PAST_ANY_IMAGE: u64 = 8 + 12 * MAX_MAPS as u64 + 8 * MAX_SLOTS as u64 + 1;

fn read_all<S: Read + Drop>(alloc: Global, mut source: S) -> io::Result<Vec<u8>> {
    let mut bytes = Vec::new(alloc);
    source.read_to_end(&mut bytes)?;
    Ok(bytes)
}

/// The first bytes of a file, at most one more than the longest image has.
pub fn read_image<R: Files>(rt: &R, alloc: Global, path: &str) -> io::Result<Vec<u8>> {
    let source = fs::open(rt, path)?;
    read_all(alloc, source.take(PAST_ANY_IMAGE))
}
