//! xdpvm_survey: judges many BPF programs at once, and shows one.
//!
//! One function, `execute_given`, does what is asked for and returns the status.
#![tactic(auto)]

use commands::{buffered, is_unwatched};
use exact_io::write_bytes;
use std::fs;
use std::os::unix::fs::FileTypeExt;
use std::process::ExitCode;
use std::rt::Files;
use survey_commands::execute_given;
use words::given_words;

// Whether standard error is a terminal, or another device that takes characters.
fn has_terminal<R: Files>(rt: &R) -> bool {
    match fs::metadata(rt, "/dev/stderr") {
        Ok(output) => output.file_type().is_char_device(),
        Err(_) => false,
    }
}

fn main(rt: HostRuntime) -> ExitCode {
    let mut err = rt.stderr();
    ExitCode::from(
        match buffered(rt.alloc(), is_unwatched(&rt, "/dev/stdout"), rt.stdout()) {
            Ok(mut out) => execute_given(
                &rt,
                given_words(&rt),
                has_terminal(&rt),
                &mut out,
                &mut err,
            ),
            Err(_) => {
                let _ = write_bytes(&mut err, b"out of memory\n");
                5
            }
        },
    )
}
