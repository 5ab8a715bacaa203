//! Groups of parts, which kept states share with one another.

ghost use Rattle.std.specs.Prelude.{◌≡◌, ◌++◌, IfOk, IfSome};

use state_index::{Part, are_same};
use std::alloc::{AllocError, Global};
use std::marker::Model;
use std::rc::Rc;

/// Says how many registers or stack slots a group has at most.
const GROUP_REGISTERS: u8 = 3;

const GROUP_SLOTS: u8 = 8;

/// Says how many words of 8 bytes a part takes, and a group besides its parts.
pub const PART_WORDS: usize = 10;

const GROUP_WORDS: usize = 9;

/// Returns how many words parts take.
pub fn words_of(parts: &[Part]) -> usize {
    parts.len().saturating_mul(PART_WORDS)
}

/// Adjacent parts of a frame. States that know the same there share the group.
///
/// Contracts see the parts.
#[derive(Drop)]
pub struct SharedParts {
    parts: Rc<Vec<Part>>,
}

impl Model for SharedParts {
    ghost use Rattle.std.specs.Prelude.{List};
    ghost use Rattle.state_index.specs.declared.parts.Part.{Part};

    ghost Value = { List Part };

    ghost view = { λ group. group.parts.value.items };
}

impl SharedParts {
    /// A group of its own.
    fn of(alloc: Global, parts: &[Part]) -> Result<Self, AllocError>
        ensures { IfOk result (λ group. group ≡ parts.now) }
    {
        let parts = Vec::from_slice(alloc, parts)?;
        match Rc::new(alloc, parts) {
            Ok(parts) => Ok(SharedParts { parts }),
            Err(_) => Err(AllocError),
        }
    }

    /// Returns the group once more, sharing its parts.
    fn share(&self) -> Result<Self, AllocError>
        ensures { IfOk result (λ group. group ≡ self.now) }
    {
        let parts = self.parts.clone()?;
        Ok(SharedParts { parts })
    }

    /// Returns how many words it takes in a state that has it: one, where another state shares it.
    pub fn own_words(&self) -> usize {
        match Rc::strong_count(&self.parts) {
            1 => GROUP_WORDS.saturating_add(words_of(self.parts())),
            _ => 1,
        }
    }

    /// Its parts.
    pub fn parts(&self) -> &[Part]
        ensures { result.now ≡ self.now }
    {
        self.parts.as_ref().as_slice()
    }
}

/// Returns which group a part belongs to: a number that it shares with the parts of its group only.
fn group_of(part: &Part) -> u8 {
    match part {
        Part::InRegister(number, _) => *number / GROUP_REGISTERS,
        Part::InSlot(index, _) => 16 + *index / GROUP_SLOTS % 8,
    }
}

/// Returns how many of the parts, from the first one on, are of one group.
fn first_group(parts: &[Part]) -> usize {
    let mut count: usize = 0;
    let mut first = 0;
    for part in parts {
        if count == 0 {
            first = group_of(part);
        }
        if group_of(part) != first {
            return count;
        }
        count = count.saturating_add(1);
    }
    count
}

/// The groups of two other states, some of which a state may share: those that are not passed yet.
#[derive(Clone, Copy)]
pub struct OtherGroups<'a> {
    pub first: &'a [SharedParts],
    pub second: &'a [SharedParts],
}

/// Returns which group parts are, if there are any.
#[inline(always)]
fn group_in(parts: &[Part]) -> u8 {
    match parts {
        [first, ..] => group_of(first),
        [] => 0,
    }
}

/// The groups from the one of this number on.
fn groups_from(groups: &[SharedParts], number: u8) -> &[SharedParts] {
    let mut rest = groups;
    for _group in 0..groups.len() {
        let [group, others @ ..] = rest else {
            return rest;
        };
        if group_in(group.parts()) >= number {
            return rest;
        }
        rest = others;
    }
    rest
}

/// The first of the groups once more, if it has just these parts.
fn shared_with(parts: &[Part], others: &[SharedParts]) -> Result<Option<SharedParts>, AllocError>
    ensures { IfOk result (λ found. IfSome found (λ group. group ≡ parts.now)) }
{
    let [group, ..] = others else {
        return Ok(None);
    };
    if !are_same(group.parts(), parts) {
        return Ok(None);
    }
    let group = group.share()?;
    Ok(Some(group))
}

/// A group that has these parts: one of the others, where one has just these.
pub fn group_with(
    alloc: Global,
    parts: &[Part],
    others: &mut OtherGroups<'_>,
) -> Result<SharedParts, AllocError>
    ensures { IfOk result (λ group. group ≡ parts.now) }
{
    let number = group_in(parts);
    others.first = groups_from(others.first, number);
    others.second = groups_from(others.second, number);
    if let Some(group) = shared_with(parts, others.first)? {
        return Ok(group);
    }
    if let Some(group) = shared_with(parts, others.second)? {
        return Ok(group);
    }
    SharedParts::of(alloc, parts)
}

/// The first group of parts, and those after it.
pub fn split_first(parts: &[Part]) -> (&[Part], &[Part])
    ensures { parts.now ≡ result.0.now ++ result.1.now }
{
    match parts.split_at_checked(first_group(parts)) {
        Some(split) => split,
        None => (parts, &[]),
    }
}
