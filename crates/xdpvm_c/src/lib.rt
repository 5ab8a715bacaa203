//! The calls of `calls`, exported for C and Rust.
//!
//! An export has no `requires`, since nothing makes a caller meet it. It is one call, and has that
//! call's clauses. `examples/embed/xdpvm.h` declares the same for C.
#![tactic(auto)]

pub mod images;
pub mod map_calls;
pub mod map_lines;
pub mod naming;
pub mod runs;
pub mod sessions;
pub mod verdicts;
