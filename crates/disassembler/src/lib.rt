//! Programs as canonical text: a line for version 2, then one for each map row, then one for each
//! instruction.
//!
//! Nothing here allocates memory: each line is made in a buffer of fixed size, and written at once.
#![tactic(auto)]

mod lines;
mod numbers;
mod parts;
mod text;
mod words;

pub use text::{disassemble, write_insn};
