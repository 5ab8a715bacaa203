//! The program `xdpvm_survey`, on any runtime and any outputs.
#![tactic(auto)]

mod begun;
mod executing;
mod failures;
mod files;
mod folders;
mod hits;
mod looks;
mod pages;
mod progress;
mod steps;
mod streams;
mod surveying;
mod tables;
mod writing;

pub use executing::{execute, execute_given};
