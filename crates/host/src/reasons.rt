//! Which packet frames are written out, and with what reason.
ghost use Rattle.std.specs.Prelude.{◌≡◌};
ghost use Rattle.isa_model.specs.Reporting.Reports.{is_sent, reason_of, end_reason};

use isa_model::{Action, End, Version};

/// Returns whether a frame is written out: after an exit, in `XPF1` by its action and in `XPF2`
/// always.
pub fn is_written(stream: Version, end: End) -> bool
    ensures { result ≡ is_sent stream end }
{
    match (stream, end) {
        (Version::One, End::Exit(answer, _)) => Action::of(answer).is_forwarded(),
        (Version::Two, End::Exit(_, _)) => true,
        (_, End::Trap(_, _)) => false,
        (_, End::Limit) => false,
    }
}

/// The reason why a frame is dropped, by the program's version and answer; 0 if it is forwarded.
pub fn reason_of(program: Version, answer: u64) -> u32
    ensures { result ≡ reason_of program answer }
{
    if Action::of(answer).is_forwarded() {
        return 0;
    }
    match program {
        Version::One => 1,
        Version::Two => {
            let reason = (answer >> 32) as u32;
            if reason == 0 { 1 } else { reason }
        }
    }
}

/// The reason with which a frame is written out, by how its run ended.
pub fn end_reason(program: Version, end: End) -> u32
    ensures { result ≡ end_reason program end }
{
    match end {
        End::Exit(answer, _) => reason_of(program, answer),
        End::Trap(_, _) => 0,
        End::Limit => 0,
    }
}
