//! What calls of the crates' functions show and no command does: tokens, facts of control flow,
//! abstract states after some steps, instructions that are cut off, another clock, map stores,
//! reads and outputs that fail, and the calls from C and Rust. What the commands show is tested by
//! the cases in tests/programs.

mod abstract_states;
mod clocks;
mod cuts;
mod embedding;
mod flows;
mod lexemes;
mod map_stores;
mod outputs;
mod programs;
mod rows;
mod steps;
mod streams;
mod tables;
