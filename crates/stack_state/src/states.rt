//! Abstract states, and their registers.

ghost use Rattle.std.specs.Prelude.{◌≡◌, ◌≢◌, ◌<◌, [], ◌∷◌, ◌++◌, length, take};
ghost use Rattle.isa_model.specs.Code.Registers.{reg_number};
ghost use Rattle.stack_state.specs.Places.{kind_of, with_register};
ghost use Rattle.stack_state.specs.Starts.{start};

use crate::stacks::StackState;
use arrayvec::ArrayVec;
use isa_model::{MAX_CALL_FRAMES, Reg};
use reg_state::Kind;

/// The most call frames beside the innermost.
pub const MAX_CALLERS: usize = MAX_CALL_FRAMES - 1;

/// Says what is known of a call frame.
#[derive(Default, Drop)]
pub struct AbstractFrame {
    /// The slot of the code to which its exit leads; 0 in the first frame.
    pub return_slot: usize,
    /// r0 to r9: of the innermost frame as they are, of a caller's r6 to r9 as its call kept them.
    pub registers: [Kind; 10],
    pub stack: StackState,
}

impl AbstractFrame {
    /// A copy.
    #[inline(never)]
    pub fn copy(&self) -> Self
        ensures { result ≡ self.now }
    {
        AbstractFrame {
            return_slot: self.return_slot,
            registers: self.registers,
            stack: self.stack.copy(),
        }
    }

    /// Becomes a copy of the other one.
    pub fn copy_from(&mut self, other: &AbstractFrame)
        ensures { self.new ≡ other.now }
    {
        self.return_slot = other.return_slot;
        self.registers = other.registers;
        self.stack.copy_from(&other.stack);
    }
}

/// Keeps as many call frames. It is out of line, since it makes a blank frame of 5.9 kB.
#[cold]
#[inline(never)]
fn drop_others(frames: &mut ArrayVec<AbstractFrame, MAX_CALLERS>, count: usize)
    ensures { frames.new.items ≡ take count frames.old.items }
{
    frames.truncate(count);
}

/// Keeps as many call frames, or all if there are no more.
fn keep_first(frames: &mut ArrayVec<AbstractFrame, MAX_CALLERS>, count: usize)
    ensures { frames.new.items ≡ take count frames.old.items }
{
    if count < frames.len() {
        drop_others(frames, count);
    }
}

/// Adds a copy of a call frame. It is out of line, since it makes a blank frame of 5.9 kB.
#[inline(never)]
fn push_copy(frames: &mut ArrayVec<AbstractFrame, MAX_CALLERS>, frame: &AbstractFrame)
    requires { length frames.old.items < 7 }
    ensures { frames.new.items ≡ frames.old.items ++ frame.now ∷ [] }
{
    frames.push(frame.copy());
}

/// Says what is known of a run when it reaches an instruction.
#[derive(Drop)]
pub struct State {
    /// The slot of the code at which the instruction is.
    pub slot: usize,
    /// The live frames but for the innermost, the outermost first.
    pub callers: ArrayVec<AbstractFrame, MAX_CALLERS>,
    /// The frame in which the instruction runs.
    pub innermost: AbstractFrame,
}

/// The index of a register in a frame's list; r10 has none.
fn index_of(register: Reg) -> usize
    requires { register ≢ Reg.R10 }
    ensures number { result ≡ reg_number register }
    ensures below { result < 10 }
{
    match register {
        Reg::R10 => unreachable!(),
        _ => register.number(),
    }
}

impl State {
    /// Returns the state in which every run begins.
    #[tactic(auto, unfolding(crate::specs::Starts::start))]
    pub fn start() -> Self
        ensures { result ≡ start }
    {
        let mut registers = [Kind::Unset; 10];
        registers[1] = Kind::Context;
        State {
            slot: 0,
            callers: ArrayVec::new(),
            innermost: AbstractFrame {
                return_slot: 0,
                registers,
                stack: StackState::new(),
            },
        }
    }

    /// A copy.
    pub fn copy(&self) -> Self
        ensures { result ≡ self.now }
    {
        let mut copy = State {
            slot: self.slot,
            callers: ArrayVec::new(),
            innermost: self.innermost.copy(),
        };
        copy.copy_callers(self);
        copy
    }

    /// Becomes a copy of the other one. Only live frames are copied.
    pub fn copy_from(&mut self, other: &State)
        ensures { self.new ≡ other.now }
    {
        self.slot = other.slot;
        self.copy_callers(other);
        self.innermost.copy_from(&other.innermost);
    }

    /// Its callers become copies of the other one's.
    pub fn copy_callers(&mut self, other: &State)
        ensures { self.new ≡ record self.old { callers = other.now.callers } }
    {
        let count = other.callers.len();
        keep_first(&mut self.callers, count);
        let kept = self.callers.len();
        for index in 0..kept {
            self.callers[index].copy_from(&other.callers[index]);
        }
        for index in kept..count {
            push_copy(&mut self.callers, &other.callers[index]);
        }
    }

    /// Returns what is known of a register.
    pub fn kind_of(&self, register: Reg) -> Kind
        ensures { result ≡ kind_of self.now register }
    {
        match register {
            Reg::R10 => Kind::Stack {
                frame: self.callers.len() as u8,
                offset: 0,
            },
            _ => self.innermost.registers[index_of(register)],
        }
    }

    /// Sets what is known of a register of the innermost frame.
    pub fn set_register(&mut self, register: Reg, kind: Kind)
        requires { register ≢ Reg.R10 }
        ensures { self.new ≡ with_register self.old register kind }
    {
        self.innermost.registers[index_of(register)] = kind;
    }
}
