//! xdpvm: runs BPF programs of type XDP on streams of packet frames.
//!
//! One function does the work, `execute`, whose contract says what each command does and with
//! which status it ends. Those of `execute_given`, `buffered` and `piped` say what can be said of
//! the calls around it.
#![tactic(auto)]

mod codes;
mod executing;
mod proving;
mod requests;

use commands::{TaskOutcome, buffered, is_pipe, is_unwatched, piped};
use executing::execute_given;
use std::process::ExitCode;
use words::given_words;

// Where standard output is open.
const OUTPUT: &str = "/dev/stdout";

fn main(rt: HostRuntime) -> ExitCode {
    let mut err = rt.stderr();
    let output = if is_pipe(&rt, OUTPUT) {
        piped(rt.alloc(), rt.stdout())
    } else {
        buffered(rt.alloc(), is_unwatched(&rt, OUTPUT), rt.stdout())
    };
    ExitCode::from(match output {
        Ok(mut out) => execute_given(&rt, given_words(&rt), &mut out, &mut err),
        Err(_) => TaskOutcome::NoMemory.tell(&mut err),
    })
}
