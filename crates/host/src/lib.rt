//! Runs a program over a stream of packet frames, and writes the report and the frames out.
//!
//! `isa_model`'s `specs/Reporting/Reports.antt` defines what is written, as pieces in their order;
//! `specs/Writing.antt` says what the outputs hold then, also where one of them failed.
#![tactic(auto)]

mod checked;
mod clocks;
mod closings;
mod count_lines;
mod counting;
mod counts;
mod end_counts;
mod endings;
mod engine;
mod errors;
mod forms;
mod invalid;
mod lines;
mod magics;
mod noting;
mod numbers;
mod on_machines;
mod reasons;
mod reports;
mod runners;
mod stops;
mod tallies;
mod traced;
mod verified;
mod versions;

pub use checked::{run_checked, run_checked_counted_from, run_checked_from};
pub use count_lines::counts_text;
pub use counts::{FrameCounts, MOST_REASONS, ReasonCount};
pub use end_counts::{ActionCounts, TrapCounts};
pub use errors::HostError;
pub use invalid::{InvalidFrame, InvalidFrames};
pub use noting::{Ran, run_noting_invalid};
pub use on_machines::run_on;
pub use reports::{NoReport, Report};
pub use stops::{FrameStop, Stops};
pub use tallies::Tally;
pub use traced::{Counted, Traced, tally_in};
pub use verified::{run, run_counted_from, run_from};
