//! What is said of an entry whose step or successors are why a proof table is refused.

ghost use Rattle.std.specs.Prelude.{◌≡◌, IfOk, IfSome, length};
ghost use Rattle.std.specs.String.{string_bytes};
ghost use Rattle.table_entries.specs.Entries.{list_of};
ghost use Rattle.table_entries.specs.Tables.{entry_at};
ghost use Rattle.explanations.specs.Entries as spec;
ghost use Rattle.explanations.specs.Entries.{step_lines, count_line, states_of, TellsSuccessors, IsReasonAt, IsEntryReason};

use crate::differences::mismatch_lines;
use crate::lines::{answer_line, register_lines, stack_lines};
use crate::mismatches::mismatch_of;
use image::Image;
use isa_model::Insn;
use rechecking::TableError;
use stack_state::State;
use std::alloc::{AllocError, Global};
use table_entries::{EntryHead, NamedEntries, Table};
use transfer::{Ways, step_in_place};
use walks::Refusal;

/// Says what is known of an entry of a table that is refused.
#[derive(Drop)]
pub struct EntryReason {
    /// The slot of its step.
    pub slot: usize,
    /// The instruction that begins there.
    pub insn: Insn,
    /// Says what concerns that instruction, or in what the successors differ, in lines.
    pub text: String,
}

/// The registers and the stack slots that concern the instruction of a step that is refused.
fn step_lines(
    alloc: Global,
    image: &Image,
    insn: &Insn,
    refusal: transfer::Refusal,
    state: &State,
) -> Result<String, AllocError>
    ensures { IfOk result (λ text. string_bytes text
        ≡ step_lines image.now.maps state.now insn.now refusal) }
{
    let registers = register_lines(alloc, state, insn)?;
    let answer = answer_line(alloc, state, Refusal::Step(refusal))?;
    let stack = stack_lines(alloc, image.maps(), state, insn)?;
    format!(in alloc; "{registers}{answer}{stack}")
}

/// Explains where and why the step of an entry is refused.
fn step_reason(
    alloc: Global,
    image: &Image,
    table: &Table,
    index: usize,
    refusal: transfer::Refusal,
) -> Option<EntryReason>
    ensures { IfSome result (λ found. IsReasonAt image.now (entry_at image.now table.now)
        (TableError.Step index refusal) found.slot found.insn (string_bytes found.text)) }
{
    let mut state = State::start();
    table.read(image, index, &mut state)?;
    let insn = *image.at(state.slot)?;
    let text = step_lines(alloc, image, &insn, refusal, &state).ok()?;
    Some(EntryReason {
        slot: state.slot,
        insn,
        text,
    })
}

/// Returns why the entry that is named for the nth successor does not cover it. None: it does, or
/// memory ran out.
fn named_lines(
    alloc: Global,
    image: &Image,
    table: &Table,
    number: u32,
    nth: usize,
    index: u32,
    state: &State,
) -> Option<String>
    ensures { IfSome result (λ text. spec.TellsNamed (entry_at image.now table.now)
        number nth index state.now (string_bytes text)) }
{
    let mut room = State::start();
    let found = mismatch_of(image, table, number, index, state, &mut room)?;
    mismatch_lines(alloc, number, nth, index, &room, state, found).ok()
}

fn count_line(alloc: Global, successors: usize, named_count: usize) -> Option<String>
    ensures { IfSome result (λ text. string_bytes text ≡ count_line successors named_count) }
{
    format!(in alloc; "successors: {successors}; entries named: {named_count}\n").ok()
}

/// Returns why the entries that an entry names do not cover its successors.
fn successor_lines(
    alloc: Global,
    image: &Image,
    table: &Table,
    head: EntryHead,
    ways: Ways,
    state: &State,
    other: &State,
) -> Option<String>
    ensures { IfSome result (λ text. TellsSuccessors (entry_at image.now table.now) head.number
        (list_of head.named) (states_of ways state.now other.now) (string_bytes text)) }
{
    let number = head.number;
    let successors = ways_in(ways);
    let count = named_in(head.named);
    if successors != count {
        return count_line(alloc, successors, count);
    }
    match head.named {
        NamedEntries::None => None,
        NamedEntries::One(first) => named_lines(alloc, image, table, number, 0, first, state),
        NamedEntries::Two(first, second) => {
            match named_lines(alloc, image, table, number, 0, first, state) {
                Some(text) => Some(text),
                None => named_lines(alloc, image, table, number, 1, second, other),
            }
        }
    }
}

/// Returns how many successors a step has.
fn ways_in(ways: Ways) -> usize
    ensures { result ≡ spec.ways_in ways }
{
    match ways {
        Ways::None => 0,
        Ways::One => 1,
        Ways::Two => 2,
    }
}

/// Returns how many entries are named.
fn named_in(named: NamedEntries) -> usize
    ensures { result ≡ length (list_of named) }
{
    match named {
        NamedEntries::None => 0,
        NamedEntries::One(_) => 1,
        NamedEntries::Two(_, _) => 2,
    }
}

/// Explains where the named entries do not cover the successors of an entry.
fn successor_reason(
    alloc: Global,
    image: &Image,
    table: &Table,
    index: usize,
) -> Option<EntryReason>
    ensures { IfSome result (λ found. IsReasonAt image.now (entry_at image.now table.now)
        (TableError.Successor index) found.slot found.insn (string_bytes found.text)) }
{
    let mut state = State::start();
    let mut other = State::start();
    let head = table.read(image, index, &mut state)?;
    let slot = state.slot;
    let insn = *image.at(slot)?;
    let ways = step_in_place(image, &mut state, &mut other).ok()?;
    let text = successor_lines(alloc, image, table, head, ways, &state, &other)?;
    Some(EntryReason { slot, insn, text })
}

/// Returns what is known of the entry for which a table is refused: for P7 what concerns its
/// instruction, and for P8 how its successors differ from the entries that it names. None: the
/// refusal is not of an entry's step, or memory ran out.
pub fn entry_reason(
    alloc: Global,
    image: &Image,
    bytes: &[u8],
    error: TableError,
) -> Option<EntryReason>
    ensures { IfSome result (λ found. IsEntryReason image.now bytes.now error
        found.slot found.insn (string_bytes found.text)) }
{
    let Ok(table) = Table::of(alloc, image, bytes) else {
        return None;
    };
    match error {
        TableError::Step(index, refusal) => step_reason(alloc, image, &table, index, refusal),
        TableError::Successor(index) => successor_reason(alloc, image, &table, index),
        TableError::Flow(_, _) | TableError::Bytes(_) | TableError::Start => None,
    }
}
