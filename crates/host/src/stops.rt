//! The packet frames whose runs ended without an action.

ghost use Rattle.std.specs.Prelude.{◌≡◌, ◌<◌, [], ◌∷◌, ◌++◌, length, slice_set, get_or};
ghost use Rattle.std.specs.List.{position};
ghost use Rattle.host.specs.Stops.{nothing_noted, is_noted, is_at, counting, with_first, note, noted_of};

use arrayvec::ArrayVec;
use checked_vm::RunEnd;
use isa_model::{Action, End, Value};

/// Says of how many slots a frame is kept at most: the first ones.
pub const MOST_STOPS: usize = 20;

/// The first frame by its number whose run stopped at a slot, and where it did.
#[derive(Clone, Copy)]
pub struct FrameStop {
    pub frame: u32,
    pub stop: RunEnd,
    /// Says how many frames stopped at that slot.
    pub count: u32,
}

impl Default for FrameStop {
    fn default() -> Self {
        FrameStop {
            frame: 0,
            stop: RunEnd {
                end: End::Limit,
                slot: 0,
                insn: None,
                registers: [Value::Unset; 11],
            },
            count: 0,
        }
    }
}

/// The frames whose runs trapped, were stopped at the limit, or answered a number that names no
/// action.
#[derive(Drop)]
pub struct Stops {
    /// The first one of each slot.
    pub first: ArrayVec<FrameStop, 20>,
    /// Says how many there are in all.
    pub count: u32,
}

// Whether a run ended without an action.
fn is_noted(end: End) -> bool
    ensures { result ≡ is_noted end }
{
    match end {
        End::Exit(answer, _) => matches!(Action::of(answer), Action::Invalid),
        End::Trap(_, _) | End::Limit => true,
    }
}

// The index of the frame that stopped at the slot.
fn index_at(stops: &[FrameStop], slot: usize) -> Option<usize>
    ensures { result ≡ position (is_at slot) stops.now }
{
    stops.iter().position(|found| found.stop.slot == slot)
}

// Counts one more frame with the one that has this index.
fn count_at(stops: &mut [FrameStop], index: usize)
    requires { index < length stops.old }
    ensures { (other : FrameStop) → stops.new
        ≡ slice_set stops.old index (counting (get_or stops.old index other)) }
{
    stops[index].count = stops[index].count.saturating_add(1);
}

// Counts a frame with the one that stopped at the same slot, or keeps it after the others, while
// there is room.
fn put_first(first: &mut ArrayVec<FrameStop, 20>, stopped: FrameStop)
    ensures { first.new.items ≡ with_first first.old.items stopped }
{
    match index_at(first.as_slice(), stopped.stop.slot) {
        Some(index) => count_at(first.as_mut_slice(), index),
        None => {
            if first.len() < MOST_STOPS {
                first.push(stopped);
            }
        }
    }
}

impl Stops {
    /// No frames, as before the first run.
    pub fn new() -> Self
        ensures { noted_of result ≡ nothing_noted }
    {
        Stops {
            first: ArrayVec::new(),
            count: 0,
        }
    }

    /// Notes the run of a frame, if it ended without an action.
    pub fn note(&mut self, number: u32, stop: RunEnd)
        ensures { noted_of self.new ≡ note (noted_of self.old) number stop }
    {
        if is_noted(stop.end) {
            let stopped = FrameStop {
                frame: number,
                stop,
                count: 1,
            };
            put_first(&mut self.first, stopped);
            self.count = self.count.saturating_add(1);
        }
    }
}
