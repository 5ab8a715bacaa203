//! The parts of a kept frame: few, or in groups.

ghost use Rattle.std.specs.Prelude.{◌≡◌, ◌++◌, [], IfOk, IsTrue, OnOk, option_to_list};
ghost use Rattle.std.specs.List.{All};
ghost use Rattle.state_index.specs.Parts.{IsPartOf, all_written, register_part, slot_part};
ghost use Rattle.kept_states.specs.Groups.{whole, constant_of, others_of, few_of, groups_of};

use crate::constants::{constant_part, first_constant};
use crate::shared_parts::{
    OtherGroups, PART_WORDS, SharedParts, group_with, split_first, words_of,
};
use reg_state::Kind;
use stack_state::{AbstractFrame, StackSlot};
use state_index::{Part, is_register_part, is_slot_part, may_cover_part, write};
use std::alloc::{AllocError, Global};
use std::marker::Model;

/// A call frame with at most this many parts has them in no groups.
pub const FEW: usize = 4;

/// Puts a group after others.
fn push_group(
    alloc: Global,
    groups: &mut Vec<SharedParts>,
    parts: &[Part],
    others: &mut OtherGroups<'_>,
) -> Result<(), AllocError>
    ensures { OnOk result (whole groups.new.items ≡ whole groups.old.items ++ parts.now) }
{
    let group = group_with(alloc, parts, others)?;
    groups.push(group)?;
    Ok(())
}

/// The parts of a kept frame.
#[derive(Drop)]
pub enum KeptParts {
    /// All of them, if they are few.
    Few(Vec<Part>),
    /// Few as well: a constant, by the number of its register, which is the first of them, and the
    /// others.
    AfterConstant(u8, u64, Vec<Part>),
    /// All of them in groups, if they are more.
    Many(Vec<SharedParts>),
}

impl KeptParts {
    /// The parts, in groups if they are more than `most`. The groups of other states that have the
    /// same parts are shared. Of an innermost frame, a constant that comes first is kept by itself.
    pub fn of(
        alloc: Global,
        parts: &[Part],
        others: OtherGroups<'_>,
        most: usize,
        is_innermost: bool,
    ) -> Result<Self, AllocError>
        ensures { IfOk result (λ kept. few_of kept ++ whole (groups_of kept) ≡ parts.now) }
    {
        if parts.len() > most {
            return Ok(KeptParts::Many(cut(alloc, parts, others)?));
        }
        if is_innermost {
            if let Some((number, value, after)) = first_constant(parts) {
                let after = Vec::from_slice(alloc, after)?;
                return Ok(KeptParts::AfterConstant(number, value, after));
            }
        }
        Ok(KeptParts::Few(Vec::from_slice(alloc, parts)?))
    }

    /// The constant that is kept by itself, if there is one: it is the first part.
    #[inline(always)]
    pub fn constant(&self) -> Option<Part>
        ensures { result ≡ constant_of self.now }
    {
        match self {
            KeptParts::Few(_) => None,
            KeptParts::AfterConstant(number, value, _) => Some(constant_part(*number, *value)),
            KeptParts::Many(_) => None,
        }
    }

    /// The other parts that are in no group.
    #[inline(always)]
    pub fn others(&self) -> &[Part]
        ensures { result.now ≡ others_of self.now }
    {
        match self {
            KeptParts::Few(parts) => parts.as_slice(),
            KeptParts::AfterConstant(_, _, parts) => parts.as_slice(),
            KeptParts::Many(_) => &[],
        }
    }

    /// The groups.
    #[inline(always)]
    pub fn groups(&self) -> &[SharedParts]
        ensures { result.now ≡ groups_of self.now }
    {
        match self {
            KeptParts::Few(_) => &[],
            KeptParts::AfterConstant(..) => &[],
            KeptParts::Many(groups) => groups.as_slice(),
        }
    }

    /// Returns how many words the parts that are in no group take. A constant that is kept by
    /// itself counts as the part that it is: so how it is kept changes no verdict.
    pub fn few_words(&self) -> usize {
        let constant = match self {
            KeptParts::AfterConstant(..) => PART_WORDS,
            _ => 0,
        };
        words_of(self.others()).saturating_add(constant)
    }

    /// Writes the parts that are in no group where they belong.
    #[inline(always)]
    pub fn write_few(&self, frame: &mut AbstractFrame)
        ensures { frame.new ≡ all_written frame.old (few_of self.now) }
    {
        match self.constant() {
            Some(part) => write(frame, &part),
            None => {}
        }
        write_all(frame, self.others());
    }

    /// Returns whether what is known of the parts that are in no group may cover what a frame knows
    /// of them: false means that it does not.
    #[inline(always)]
    pub fn may_cover_few(&self, frame: &AbstractFrame) -> bool
        ensures { All (IsPartOf frame.now) (few_of self.now) → IsTrue result }
    {
        if let Some(part) = self.constant() {
            if !may_cover_part(&part, frame) {
                return false;
            }
        }
        may_cover_all(self.others(), frame)
    }
}

/// The parts in groups. Other states may share some of them.
fn cut(
    alloc: Global,
    parts: &[Part],
    others: OtherGroups<'_>,
) -> Result<Vec<SharedParts>, AllocError>
    ensures { IfOk result (λ groups. whole groups.items ≡ parts.now) }
{
    let mut groups = Vec::new(alloc);
    let mut others = others;
    let mut rest = parts;
    for _group in 0..parts.len() {
        let (first, more) = split_first(rest);
        push_group(alloc, &mut groups, first, &mut others)?;
        rest = more;
        if rest.is_empty() {
            return Ok(groups);
        }
    }
    push_group(alloc, &mut groups, rest, &mut others)?;
    Ok(groups)
}

/// The parts of a kept frame that are still to be read.
///
/// Contracts see the parts.
#[derive(Drop)]
pub struct Rest<'a> {
    parts: &'a [Part],
    groups: &'a [SharedParts],
}

impl<'a> Model for Rest<'a> {
    ghost use Rattle.std.specs.Prelude.{List, ◌++◌};
    ghost use Rattle.state_index.specs.declared.parts.Part.{Part};
    ghost use Rattle.kept_states.specs.Groups.{whole};

    ghost Value = { List Part };

    ghost view = { λ rest. rest.parts.now ++ whole rest.groups.now };
}

impl<'a> Rest<'a> {
    /// All parts but a constant that is kept by itself.
    pub fn of(parts: &'a KeptParts) -> Self
        ensures { result ≡ others_of parts.now ++ whole (groups_of parts.now) }
    {
        Rest {
            parts: parts.others(),
            groups: parts.groups(),
        }
    }

    /// Returns whether there are no parts; a wrong false is possible.
    pub fn is_empty(&self) -> bool
        ensures { IsTrue result → self.now ≡ [] }
    {
        self.parts.is_empty() && self.groups.is_empty()
    }

    /// Takes the next part, if it is found.
    #[inline(always)]
    fn next(&mut self) -> &'a [Part]
        ensures { self.old ≡ result.now ++ self.new }
    {
        if self.parts.is_empty() {
            let [group, others @ ..] = self.groups else {
                return &[];
            };
            self.parts = group.parts();
            self.groups = others;
        }
        match self.parts.split_at_checked(1) {
            Some((first, others)) => {
                self.parts = others;
                first
            }
            None => &[],
        }
    }

    /// Takes what is known of a register, if the next part says just that.
    #[inline(always)]
    pub fn is_register(&mut self, number: u8, kind: &Kind) -> bool
        ensures { IsTrue result
            → self.old ≡ option_to_list (register_part number kind.now) ++ self.new }
    {
        match kind {
            Kind::Unset => true,
            kind => match self.next() {
                [part] => is_register_part(part, number, kind),
                _ => false,
            },
        }
    }

    /// Takes what is known of a stack slot, if the next part says just that.
    #[inline(always)]
    pub fn is_slot(&mut self, index: u8, slot: &StackSlot) -> bool
        ensures { IsTrue result → self.old ≡ option_to_list (slot_part index slot.now) ++ self.new }
    {
        match slot {
            StackSlot::Written(0) => true,
            slot => match self.next() {
                [part] => is_slot_part(part, index, slot),
                _ => false,
            },
        }
    }
}

/// Writes parts where they belong.
pub fn write_all(frame: &mut AbstractFrame, parts: &[Part])
    ensures { frame.new ≡ all_written frame.old parts.now }
{
    for index in 0..parts.len() {
        write(frame, &parts[index]);
    }
}

/// Returns whether what is known of parts may cover what a frame knows of them: false means that it
/// does not.
pub fn may_cover_all(parts: &[Part], frame: &AbstractFrame) -> bool
    ensures { All (IsPartOf frame.now) parts.now → IsTrue result }
{
    for index in 0..parts.len() {
        if !may_cover_part(&parts[index], frame) {
            return false;
        }
    }
    true
}
