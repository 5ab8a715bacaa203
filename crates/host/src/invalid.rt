//! The packet frames whose runs ended with INVALID: their answer names no action.
ghost use Rattle.std.specs.Prelude.{◌≡◌, []};
ghost use Rattle.isa_model.specs.Reporting.Frames.{action_of};
ghost use Rattle.host.specs.Stops.{is_invalid};
ghost use Rattle.host.specs.InvalidRuns.{invalid_of, with_invalid, with_invalid_end};

use isa_model::End;

/// Says which packet frame's run ended with INVALID, and what it answered.
#[derive(Clone, Copy)]
pub struct InvalidFrame {
    pub frame: u32,
    pub answer: u64,
}

/// The packet frames whose runs ended with INVALID.
#[derive(Clone, Copy)]
pub struct InvalidFrames {
    /// The first one; `None`: there are none.
    pub first: Option<InvalidFrame>,
    /// Says how many there are.
    pub count: u32,
}

// Whether a number names no action: two instructions a frame, and by `Action::of` six.
#[inline(always)]
fn is_invalid(answer: u64) -> bool
    ensures { result ≡ is_invalid (action_of answer) }
{
    match answer % 0x1_0000_0000 {
        0 | 1 | 2 | 3 | 4 => false,
        _ => true,
    }
}

impl InvalidFrames {
    /// No frames, as before the first run.
    pub fn new() -> Self
        ensures { result ≡ invalid_of [] }
    {
        InvalidFrames {
            first: None,
            count: 0,
        }
    }

    // Notes one more frame.
    #[cold]
    #[inline(never)]
    fn add(&mut self, found: InvalidFrame)
        ensures { self.new ≡ with_invalid self.old found }
    {
        if self.first.is_none() {
            self.first = Some(found);
        }
        self.count = self.count.saturating_add(1);
    }

    /// Notes the run of a frame, if it ended with INVALID.
    #[inline(always)]
    pub fn note(&mut self, number: u32, end: End)
        ensures { self.new ≡ with_invalid_end self.old number end }
    {
        match end {
            End::Exit(answer, _) => {
                if is_invalid(answer) {
                    self.add(InvalidFrame {
                        frame: number,
                        answer,
                    });
                }
            }
            End::Trap(_, _) | End::Limit => {}
        }
    }
}
