//! How a frame's run ended, in the words of a report.

use crate::FrameSteps;
use isa_model::{Action, End, Version};
use std::alloc::{AllocError, Global};

/// The reason of a frame that is dropped, by the program's version and answer; 0 if it is
/// forwarded.
fn reason_of(program: Version, answer: u64) -> u64 {
    if Action::of(answer).is_forwarded() {
        return 0;
    }
    match program {
        Version::One => 1,
        Version::Two => (answer >> 32).max(1),
    }
}

/// The field of the reason, in a stream that has reasons.
fn reason_words(
    alloc: Global,
    stream: Version,
    program: Version,
    answer: u64,
) -> Result<String, AllocError> {
    match stream {
        Version::One => Ok(String::new(alloc)),
        Version::Two => {
            let reason = reason_of(program, answer);
            format!(in alloc; " {reason}")
        }
    }
}

/// The report's line of a frame that was run within the limit, without its number.
pub fn end_words(
    alloc: Global,
    shown: &FrameSteps,
    program: Version,
    limit: u32,
) -> Result<String, AllocError> {
    let len = shown.len;
    match shown.stop.end {
        End::Exit(answer, steps) => {
            let action = Action::of(answer).name();
            let reason = reason_words(alloc, shown.stream, program, answer)?;
            format!(in alloc; "{action} {len} {steps}{reason}")
        }
        End::Trap(reason, steps) => {
            let reason = reason.name();
            format!(in alloc; "TRAP {reason} {len} {steps}")
        }
        End::Limit => format!(in alloc; "LIMIT {len} {limit}"),
    }
}

/// The report's line of a frame with a reason, without its number.
pub fn skip_words(alloc: Global, len: usize, reason: u32) -> Result<String, AllocError> {
    format!(in alloc; "SKIP {len} 0 {reason}")
}
