//! Which paths lead to a terminal, to a file on a disk, to a pipe, and to where nobody sees when
//! bytes come.

use std::fs;
use std::os::unix::fs::{FileTypeExt, MetadataExt};
use std::rt::Files;

/// The number that Linux gives to `/dev/null`: major 1, minor 3.
const NULL_DEVICE: u64 = 0x103;

/// Returns whether a path is a terminal. Linux gives consoles and serial lines the major number 4,
/// the terminal of a process and the system's console 5, and the pseudoterminals 136 to 143.
pub fn is_terminal<R: Files>(rt: &R, path: &str) -> bool {
    match fs::metadata(rt, path) {
        Ok(output) => {
            output.file_type().is_char_device()
                && matches!((output.rdev() >> 8) & 0xfff, 4 | 5 | 136..=143)
        }
        Err(_) => false,
    }
}

/// Returns whether a path is a file on a disk, so that a read of it waits for nobody.
pub fn is_plain_file<R: Files>(rt: &R, path: &str) -> bool {
    match fs::metadata(rt, path) {
        Ok(file) => file.is_file(),
        Err(_) => false,
    }
}

// Whether a path is the device that takes all bytes and keeps none.
fn is_null_device<R: Files>(rt: &R, path: &str) -> bool {
    match fs::metadata(rt, path) {
        Ok(output) => output.file_type().is_char_device() && output.rdev() == NULL_DEVICE,
        Err(_) => false,
    }
}

/// Returns whether nobody sees when bytes are written to a path. If the system does not have this
/// path, somebody may.
pub fn is_unwatched<R: Files>(rt: &R, path: &str) -> bool {
    is_plain_file(rt, path) || is_null_device(rt, path)
}

/// Returns whether a path is a pipe.
pub fn is_pipe<R: Files>(rt: &R, path: &str) -> bool {
    match fs::metadata(rt, path) {
        Ok(output) => output.file_type().is_fifo(),
        Err(_) => false,
    }
}
