//! The calls from C and Rust, on a few small images and with arguments that are not allowed.

mod buffers;
mod descriptions;
mod images;
mod runs;
mod sessions;
mod tables;
mod texts;
mod verdicts;
