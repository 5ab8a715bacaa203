//! Names of slots: where they are defined, and where they are used.

ghost use Rattle.std.specs.Prelude.{◌≡◌, ◌+◌, ◌-◌, map, Ok, Err, MatchResult};
ghost use Rattle.assembler.specs.Naming.{distance, aimed, aim, resolved, use_of};
ghost use Rattle.assembler.specs.Labels.{label_of, slot_in, with_label, Makes};

use super::errors::AsmErrorKind;
use super::refusals::Refusal;
use indexmap::IndexMap;
use isa_model::Insn;

/// The names that labels define, with their slots, in the order of their definitions.
pub type Labels<'a> = IndexMap<&'a [u8], u16>;

/// An instruction that jumps to a name or calls it: where it is, and where the name is in the text.
#[derive(Clone, Copy)]
pub struct Use<'a> {
    pub index: usize,
    pub slot: u16,
    pub name: &'a [u8],
    pub offset: usize,
}

// The slot of the name.
#[tactic(auto, using(crate::proofs::LabelLookups::lookup_label))]
fn slot_of(labels: &Labels<'_>, name: &[u8]) -> Option<u16>
    ensures { result ≡ slot_in (map label_of labels.now.entries) name.now }
{
    labels.get(name).copied()
}

/// Defines a name, unless it is defined.
pub fn define<'a>(labels: &mut Labels<'a>, name: &'a [u8], slot: u16) -> Result<(), AsmErrorKind>
    ensures { Makes (λ _. map label_of labels.new.entries) result
        (with_label (map label_of labels.old.entries) name.now slot) }
{
    match slot_of(labels, name) {
        Some(_) => Err(AsmErrorKind::DefinedTwice),
        None => match labels.insert(name, slot) {
            Ok(_) => Ok(()),
            Err(_) => Err(AsmErrorKind::Memory),
        },
    }
}

// The distance from a jump or a call at slot `from` to slot `to`: it counts from the slot after it.
fn distance(from: u16, to: u16) -> i32
    ensures { result ≡ distance from to }
{
    i32::from(to) - (i32::from(from) + 1)
}

// The jump or call with this distance, if its field can hold that.
#[tactic(auto, using(crate::proofs::NearDistances::nearness))]
fn aimed(insn: Insn, by: i32) -> Option<Insn>
    ensures { result ≡ aimed insn by }
{
    match insn {
        Insn::Jump(_) => match i16::try_from(by) {
            Ok(by) => Some(Insn::Jump(by)),
            Err(_) => None,
        },
        Insn::JumpIf(cond, _) => match i16::try_from(by) {
            Ok(by) => Some(Insn::JumpIf(cond, by)),
            Err(_) => None,
        },
        Insn::JumpLong(_) => Some(Insn::JumpLong(by)),
        Insn::CallLocal(_) => Some(Insn::CallLocal(by)),
        _ => Some(insn),
    }
}

// The instruction at a use, with its distance.
fn aim(labels: &Labels<'_>, used: &Use<'_>, insn: Insn) -> Result<Insn, AsmErrorKind>
    ensures { result ≡ aim
        (slot_in (map label_of labels.now.entries) used.now.name.now) used.now.slot insn }
{
    let Some(to) = slot_of(labels, used.name) else {
        return Err(AsmErrorKind::NotDefined);
    };
    match aimed(insn, distance(used.slot, to)) {
        Some(insn) => Ok(insn),
        None => Err(AsmErrorKind::TooFar),
    }
}

/// Puts the distances of names into the instructions that use them. The first use that is wrong is
/// refused, at its offset in the text.
pub fn resolve(insns: &mut Vec<Insn>, labels: &Labels<'_>, uses: &[Use<'_>]) -> Result<(), Refusal>
    ensures { MatchResult result
        (λ _. resolved (slot_in (map label_of labels.now.entries))
        (map use_of uses.now) insns.old.items ≡ Ok insns.new.items)
        (λ e. resolved (slot_in (map label_of labels.now.entries))
        (map use_of uses.now) insns.old.items ≡ Err e) }
{
    for used in uses {
        let Some(insn) = insns.get_mut(used.index) else {
            return Err(Refusal {
                kind: AsmErrorKind::NotDefined,
                offset: used.offset,
            });
        };
        match aim(labels, used, *insn) {
            Ok(aimed) => *insn = aimed,
            Err(kind) => return Err(Refusal {
                kind,
                offset: used.offset,
            }),
        }
    }
    Ok(())
}
