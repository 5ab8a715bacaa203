//! Tests by calls inside the program: of programs as bytes and as texts, of steps of the verifier,
//! of map stores, of a clock, of reads and outputs that fail, and of the calls from C and Rust.
//!
//! They have a crate of their own, since a crate with tests is proved twice.
#![tactic(auto)]

#[cfg(test)]
mod tests;
