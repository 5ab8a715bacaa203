//! What a program did with the packet frames of a stream: how often each instruction was run, and
//! one frame's run step by step. By the checked machine, so any image can be looked at.
#![tactic(auto)]

mod bytes;
mod clocks;
mod counting;
mod frame_steps;
mod hit_jsons;
mod hit_tables;
mod jsons;
mod ranks;
mod reads;
mod recording;
mod report_words;
mod slot_hits;
mod step_lines;
mod stream_hits;
mod verdicts;
mod versions;
mod words;
mod writes;

pub use frame_steps::{FrameFound, FrameSteps, steps};
pub use hit_jsons::hits_json;
pub use hit_tables::{hits_csv, hits_text};
pub use ranks::StepNumbers;
pub use recording::{StepTaken, operand_of};
pub use report_words::skip_words;
pub use slot_hits::SlotHits;
pub use step_lines::{FrameShown, skip_json, skip_text, write_json, write_text};
pub use stream_hits::{StreamHits, hits};
pub use verdicts::BoundVerdict;
