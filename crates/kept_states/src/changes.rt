//! A call frame that changes part by part, and what it was.

ghost use Rattle.std.specs.Prelude.{◌≡◌, ◌≤◌, [], IfOk, IsTrue, take, drop};
ghost use Rattle.state_index.specs.Parts.{all_written, with_part};
ghost use Rattle.kept_states.specs.Changes.{IsChanged, changes_of};

use crate::earlier_parts::EarlierParts;
use crate::held_places::HeldPlaces;
use crate::part_changes::Change;
use reg_state::Kind;
use stack_state::AbstractFrame;
use state_index::{Part, write};
use std::alloc::{AllocError, Global};

/// A call frame, and what its parts were before each change.
#[derive(Drop)]
pub struct ChangedFrame {
    pub frame: AbstractFrame,
    changes: Vec<Change>,
    earlier: EarlierParts,
}

/// Returns whether a part of the frame is this one.
#[inline(always)]
fn has_part(frame: &AbstractFrame, part: &Part) -> bool {
    match part {
        Part::InRegister(number, kind) => match frame.registers.get(usize::from(*number)) {
            Some(known) => *known == *kind,
            None => true,
        },
        Part::InSlot(index, slot) => match frame.stack.slots().get(usize::from(*index)) {
            Some(known) => *known == *slot,
            None => true,
        },
    }
}

/// The part of the frame that is where this one belongs.
#[inline(always)]
fn part_there(frame: &AbstractFrame, part: &Part) -> Part
    ensures { with_part (with_part frame.now part.now) result ≡ frame.now }
{
    match *part {
        Part::InRegister(number, _) => match frame.registers.get(usize::from(number)) {
            Some(known) => Part::InRegister(number, *known),
            None => *part,
        },
        Part::InSlot(index, _) => match frame.stack.slots().get(usize::from(index)) {
            Some(known) => Part::InSlot(index, *known),
            None => *part,
        },
    }
}

impl ChangedFrame {
    /// A blank frame.
    pub fn new(alloc: Global) -> Self
        ensures { result.changes.items ≡ [] }
    {
        ChangedFrame {
            frame: AbstractFrame::default(),
            changes: Vec::new(alloc),
            earlier: EarlierParts::new(alloc),
        }
    }

    /// Changes a part, and returns how many changes that took.
    #[inline(always)]
    fn change(&mut self, part: &Part) -> Result<usize, AllocError>
        ensures changes { IfOk result (λ n. IsChanged n self.old self.new) }
        ensures most { IfOk result (λ n. n ≤ 1) }
    {
        if has_part(&self.frame, part) {
            return Ok(0);
        }
        let was = part_there(&self.frame, part);
        write(&mut self.frame, part);
        let change = self.earlier.put(&was, &self.frame)?;
        self.changes.push(change)?;
        Ok(1)
    }

    /// Changes the parts of a state that are not any number, whose places it adds, and returns how
    /// many changes that took, and whether all are changed: if not, memory ran out.
    pub fn change_all(
        &mut self,
        parts: &[Part],
        any: &Kind,
        places: &mut HeldPlaces,
    ) -> (usize, bool)
        ensures { IsTrue result.1 → IsChanged result.0 self.old self.new }
    {
        let mut count: usize = 0;
        for index in 0..parts.len() {
            let part = &parts[index];
            if places.add(part, any) {
                match self.change(part) {
                    Ok(more) => count += more,
                    Err(_) => return (count, false),
                }
            }
        }
        (count, true)
    }

    /// Takes as many changes back.
    pub fn undo(&mut self, count: usize)
        ensures frame { self.new.frame
            ≡ all_written self.old.frame (take count (changes_of self.old)) }
        ensures changes { changes_of self.new ≡ drop count (changes_of self.old) }
    {
        for _change in 0..count {
            let Some(change) = self.changes.pop() else {
                return;
            };
            let was = self.earlier.take(change, &self.frame);
            write(&mut self.frame, &was);
        }
    }
}
