//! Reads and writes that fail: of bytes, of records, and in runs over a stream.

mod broken;
mod buffers;
mod cases;
mod counts;
mod failures;
mod reads_and_writes;
mod records;
