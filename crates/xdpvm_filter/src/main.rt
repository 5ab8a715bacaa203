//! xdpvm_filter: runs a BPF program of type XDP, whose maps may be filled, on a stream of packet
//! frames, and counts.
//!
//! One function does the work, `execute`, whose contract says what is done and with which status it
//! ends. That of `execute_given` says what can be said of the call around it.
#![tactic(auto)]

pub use filtering::execute;
use filtering::{TaskOutcome, buffered, execute_given, is_pipe, is_unwatched, piped};
use std::process::ExitCode;
use words::given_words;

// Where standard output is open.
const OUTPUT: &str = "/dev/stdout";

fn main(rt: HostRuntime) -> ExitCode {
    let mut err = rt.stderr();
    let output = if is_pipe(&rt, OUTPUT) {
        piped(rt.alloc(), rt.stdout())
    } else {
        buffered(rt.alloc(), is_unwatched(&rt, OUTPUT), rt.stdout())
    };
    ExitCode::from(match output {
        Ok(mut out) => execute_given(&rt, given_words(&rt), &mut out, &mut err),
        Err(_) => TaskOutcome::NoMemory.tell(&mut err),
    })
}
