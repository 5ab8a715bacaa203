//! Tests of operations on numbers, of the sets of numbers that the verifier knows in registers, and
//! of abstract states: a module for each subject, and what they share.

mod bits;
mod branches;
mod changes;
mod covers;
mod kinds;
mod limits;
mod low_halves;
mod narrower;
mod numbers;
mod operations;
mod pointers;
mod samples;
mod scalars;
mod splices;
mod stacks;
