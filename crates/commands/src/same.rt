//! Whether two paths lead to the same file or pipe.

ghost use Rattle.std.specs.Prelude.{◌≡◌, ◌≢◌, ◌↔◌, IsTrue};

use std::fs;
use std::fs::Metadata;
use std::os::unix::fs::{FileTypeExt, MetadataExt};
use std::rt::Files;

/// The numbers that identify a file to the system.
#[derive(Clone, Copy)]
struct FileNumbers {
    device: u64,
    inode: u64,
}

// Whether files with these numbers are the same. A file system without inode numbers returns 0.
fn is_one(one: FileNumbers, other: FileNumbers) -> bool
    ensures { IsTrue result
        ↔ ((one.device ≡ other.device) × (one.inode ≡ other.inode) × (one.inode ≢ 0)) }
{
    one.device == other.device && one.inode == other.inode && one.inode != 0
}

fn numbers_of(file: &Metadata) -> FileNumbers {
    FileNumbers {
        device: file.dev(),
        inode: file.ino(),
    }
}

/// Returns whether two paths lead to one file on a disk.
pub fn is_same_file<R: Files>(rt: &R, one: &str, other: &str) -> bool {
    match (fs::metadata(rt, one), fs::metadata(rt, other)) {
        (Ok(one), Ok(other)) => one.is_file() && is_one(numbers_of(&one), numbers_of(&other)),
        _ => false,
    }
}

/// Returns whether a path leads to the pipe that standard output is.
pub fn is_output_pipe<R: Files>(rt: &R, path: &str) -> bool {
    match (fs::metadata(rt, path), fs::metadata(rt, "/dev/stdout")) {
        (Ok(one), Ok(output)) => {
            one.file_type().is_fifo() && is_one(numbers_of(&one), numbers_of(&output))
        }
        _ => false,
    }
}
