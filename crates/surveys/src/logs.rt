//! A log of a search: all that it explores, as text.

use crate::errors::LookError;
use crate::states::put_state;
use crate::tallies::SearchTally;
use crate::texts::insn_text;
use exact_io::write_bytes;
use explorer::{Halt, Kept, Listener, Refusal, verify_with};
use image::Image;
use isa_model::MAX_EXPLORED;
use stack_state::State;
use std::alloc::{AllocError, Global};
use std::io::Write;
use transfer::Ways;

/// A listener that writes what a search does.
#[derive(Drop)]
struct Log<'a, W: Write + Drop> {
    alloc: Global,
    image: &'a Image,
    /// The slot at which the log is written, if not at all slots.
    only: Option<usize>,
    /// Says how many states are written at most, and how many were wanted so far.
    most: u64,
    wanted: u64,
    out: W,
    tally: SearchTally,
    /// The slot of the state that arrived last.
    arrived: usize,
    /// The numbers in the log of the path's instructions.
    path: Vec<u64>,
    /// The numbers in the log of the instructions whose states were stored.
    stored_log_numbers: Vec<u64>,
}

/// Returns where a state comes from, if not from the instruction before it in the log.
fn from_text(alloc: Global, path: &[u64], explored: u64) -> Result<String, AllocError> {
    match path.last().copied() {
        Some(last) if last.saturating_add(1) != explored => format!(in alloc; " from #{last}"),
        _ => Ok(String::new(alloc)),
    }
}

impl<W: Write + Drop> Log<'_, W> {
    /// Returns whether the state that arrived at a slot is written. Where it is the first one that
    /// is not, for their number, a line says so.
    fn takes(&mut self, slot: usize) -> Result<bool, LookError> {
        if self.only.is_some() && self.only != Some(slot) {
            return Ok(false);
        }
        if self.wanted == self.most {
            let most = self.most;
            let text = format!(in self.alloc;
                "stopped after {most} states: --states N prints more\n"
            )?;
            write_bytes(&mut self.out, text.as_bytes())?;
        }
        self.wanted = self.wanted.saturating_add(1);
        Ok(self.wanted <= self.most)
    }

    /// The lines of an instruction: its number in the log, its slot, and the state that it is
    /// reached in.
    fn explored_text(&self, state: &State, is_stored: bool) -> Result<String, AllocError> {
        let (log_number, slot) = (self.tally.explored, state.slot);
        let from = from_text(self.alloc, self.path.as_slice(), log_number)?;
        let note = if is_stored { ", stored" } else { "" };
        let insn = insn_text(self.alloc, self.image, slot)?;
        let mut text = format!(in self.alloc; "#{log_number} slot {slot}{from}{note}: {insn}")?;
        put_state(self.alloc, state, &mut text)?;
        Ok(text)
    }

    /// The line for a state that a stored one covers, with the log's number of the stored one.
    fn covered_text(&self, index: usize, steps: u32) -> Result<String, AllocError> {
        let slot = self.arrived;
        let from = from_text(self.alloc, self.path.as_slice(), self.tally.explored)?;
        let by = self.stored_log_numbers.get(index).copied().unwrap_or(0);
        format!(in self.alloc; "slot {slot}{from}: covered by #{by}, at most {steps} to the exit\n")
    }

    /// Writes the lines of an instruction.
    fn write_explored(&mut self, state: &State, is_stored: bool) -> Result<(), LookError> {
        if self.takes(state.slot)? {
            let text = self.explored_text(state, is_stored)?;
            write_bytes(&mut self.out, text.as_bytes())?;
        }
        Ok(())
    }

    /// Keeps the number in the log of the instruction that is explored.
    fn keep_log_number(&mut self, is_stored: bool) -> Result<(), AllocError> {
        if is_stored {
            self.stored_log_numbers.push(self.tally.explored)?;
        }
        self.path.push(self.tally.explored)?;
        Ok(())
    }

    /// Writes how much was explored, and the bound if the program is accepted.
    fn write_end(&mut self, bound: Option<u32>) -> Result<(), LookError> {
        let (explored, stored) = (self.tally.explored, self.tally.stored);
        let mut text = format!(in self.alloc;
            "explored {explored} of {MAX_EXPLORED}, {stored} states stored"
        )?;
        if let Some(bound) = bound {
            let end = format!(in self.alloc; ", bound {bound}")?;
            text.push_str(end.as_str())?;
        }
        text.push('\n')?;
        write_bytes(&mut self.out, text.as_bytes())?;
        Ok(())
    }
}

impl<W: Write + Drop> Listener for Log<'_, W> {
    type Stop = LookError;

    ghost follows = { λ _ _ _ _ _. Unit {0} };

    fn arrives(&mut self, state: &State) -> Result<(), LookError> {
        self.arrived = state.slot;
        Ok(())
    }

    fn covered(&mut self, index: usize, number: u32) -> Result<(), LookError> {
        if self.takes(self.arrived)? {
            let text = self.covered_text(index, number)?;
            write_bytes(&mut self.out, text.as_bytes())?;
        }
        Ok(())
    }

    fn explores(
        &mut self,
        state: &State,
        stored: Option<usize>,
        kept: Option<&Kept>,
    ) -> Result<(), LookError> {
        self.write_explored(state, stored.is_some())?;
        self.keep_log_number(stored.is_some())?;
        self.tally.explore(stored, kept);
        Ok(())
    }

    fn stepped(&mut self, _ways: Ways) -> Result<(), LookError> {
        Ok(())
    }

    fn finished(&mut self, _number: u32) -> Result<(), LookError> {
        let _last = self.path.pop();
        Ok(())
    }

    fn begins_anew(&mut self) -> Result<(), LookError> {
        let explored = self.tally.explored;
        let text = format!(in self.alloc;
            "refused after {explored}, where numbers were forgotten: searched again, exactly\n"
        )?;
        write_bytes(&mut self.out, text.as_bytes())?;
        self.tally = SearchTally::default();
        self.path.clear();
        self.stored_log_numbers.clear();
        Ok(())
    }

    fn refused(&mut self, _refusal: Refusal, _slot: usize) {}
}

/// Writes what the search explores of a program while it does, all or at one slot: each instruction
/// with the state that it is reached in, and each state that a stored one covers. After so many of
/// them a line says that the rest is not written; the search goes on. At the end it says how much
/// was explored. For a program that is refused this is all up to the refusal, which is then
/// returned.
pub fn write_log<W: Write>(
    alloc: Global,
    image: &Image,
    only: Option<usize>,
    most: u64,
    out: &mut W,
) -> Result<(), LookError> {
    let mut log = Log {
        alloc,
        image,
        only,
        most,
        wanted: 0,
        out: &mut *out,
        tally: SearchTally::default(),
        arrived: 0,
        path: Vec::new(alloc),
        stored_log_numbers: Vec::new(alloc),
    };
    let copy = image.copy(alloc)?;
    match verify_with(alloc, copy, &mut log) {
        Ok(verified) => log.write_end(Some(verified.bound())),
        Err(Halt::Refused(refusal, slot)) => {
            log.write_end(None)?;
            Err(LookError::Refused(refusal, slot))
        }
        Err(Halt::Stopped(stop)) => Err(stop),
    }
}
