//! How often each instruction was run, as a table for people and as CSV.

use crate::StreamHits;
use crate::verdicts::BoundVerdict;
use crate::words::insn_words;
use image::Image;
use isa_model::Insn;
use std::alloc::{AllocError, Global};
use survey_rows::{ColumnHead, Grid, RowCell, csv_text, grid_text};

/// The columns of CSV.
const CSV_NAMES: [&str; 5] = ["slot", "instruction", "runs", "jumped", "fell"];

/// The columns of the table; the first has a mark at instructions that were never run.
const TABLE_NAMES: [&str; 6] = ["", "slot", "runs", "jumped", "fell", "instruction"];

/// The count of a slot.
pub fn count_at(counts: &[u64], slot: usize) -> u64 {
    counts.get(slot).copied().unwrap_or(0)
}

/// Returns whether an instruction is a conditional jump.
pub fn is_conditional(insn: &Insn) -> bool {
    matches!(insn, Insn::JumpIf(_, _))
}

/// The cell of a count that only conditional jumps have.
fn way_cell(insn: &Insn, counts: &[u64], slot: usize) -> RowCell {
    if is_conditional(insn) {
        RowCell::Number(count_at(counts, slot))
    } else {
        RowCell::Nothing
    }
}

/// The row of an instruction in CSV.
fn csv_row(
    alloc: Global,
    hits: &StreamHits,
    slot: usize,
    insn: &Insn,
) -> Result<Vec<RowCell>, AllocError> {
    let slots = &hits.slots;
    let words = insn_words(alloc, insn)?;
    Ok(vec![in alloc;
        RowCell::Number(slot as u64),
        RowCell::Text(words),
        RowCell::Number(count_at(slots.runs.as_slice(), slot)),
        way_cell(insn, slots.jumped.as_slice(), slot),
        way_cell(insn, slots.fell.as_slice(), slot),
    ]?)
}

/// The row of an instruction in the table.
fn table_row(
    alloc: Global,
    hits: &StreamHits,
    slot: usize,
    insn: &Insn,
) -> Result<Vec<RowCell>, AllocError> {
    let slots = &hits.slots;
    let runs = count_at(slots.runs.as_slice(), slot);
    let mark = String::from_str(alloc, if runs == 0 { "-" } else { "" })?;
    let words = insn_words(alloc, insn)?;
    Ok(vec![in alloc;
        RowCell::Text(mark),
        RowCell::Number(slot as u64),
        RowCell::Number(runs),
        way_cell(insn, slots.jumped.as_slice(), slot),
        way_cell(insn, slots.fell.as_slice(), slot),
        RowCell::Text(words),
    ]?)
}

/// The heads of columns: texts are aligned at the left.
fn heads_of(alloc: Global, names: &[&'static str]) -> Result<Vec<ColumnHead>, AllocError> {
    let mut heads = Vec::with_capacity(alloc, names.len())?;
    for name in names {
        let is_left = name.is_empty() || *name == "instruction";
        heads.push(ColumnHead {
            name: *name,
            is_left,
            width: 0,
        })?;
    }
    Ok(heads)
}

/// The counts as CSV: a row for each instruction.
pub fn hits_csv(alloc: Global, image: &Image, hits: &StreamHits) -> Result<Vec<u8>, AllocError> {
    let mut rows = Vec::new(alloc);
    for slot in 0..image.slots() {
        if let Some(insn) = image.at(slot) {
            rows.push(csv_row(alloc, hits, slot, insn)?)?;
        }
    }
    let heads = heads_of(alloc, &CSV_NAMES)?;
    csv_text(alloc, &Grid { heads, rows }, true)
}

/// The table of the instructions.
fn table_text(alloc: Global, image: &Image, hits: &StreamHits) -> Result<String, AllocError> {
    let mut rows = Vec::new(alloc);
    for slot in 0..image.slots() {
        if let Some(insn) = image.at(slot) {
            rows.push(table_row(alloc, hits, slot, insn)?)?;
        }
    }
    let heads = heads_of(alloc, &TABLE_NAMES)?;
    grid_text(alloc, &Grid { heads, rows }, true)
}

/// The words of the bound, after the numbers of steps.
fn bound_words(alloc: Global, verdict: &BoundVerdict) -> Result<String, AllocError> {
    match verdict {
        BoundVerdict::Bound(bound) => {
            let bound = *bound;
            format!(in alloc; ", bound {bound}")
        }
        BoundVerdict::Refused(line) => {
            let line = line.as_str();
            format!(in alloc; ", no bound: {line}")
        }
        BoundVerdict::Unknown => String::from_str(alloc, ", bound unknown: out of memory"),
    }
}

/// The line of the runs' steps.
fn steps_line(
    alloc: Global,
    hits: &StreamHits,
    verdict: &BoundVerdict,
) -> Result<String, AllocError> {
    let bound = bound_words(alloc, verdict)?;
    match hits.step_numbers() {
        Some(numbers) => {
            let (least, median, greatest) = (numbers.least, numbers.median, numbers.greatest);
            format!(in alloc; "steps least {least}, median {median}, greatest {greatest}{bound}\n")
        }
        None => format!(in alloc; "no frame was run{bound}\n"),
    }
}

/// The counts for people: a row for each instruction, with `-` at those that were never run, and
/// below it how many frames there were, and how many steps their runs took.
pub fn hits_text(
    alloc: Global,
    image: &Image,
    hits: &StreamHits,
    verdict: &BoundVerdict,
) -> Result<String, AllocError> {
    let table = table_text(alloc, image, hits)?;
    let (ran, skipped) = (hits.ran, hits.skipped);
    let steps = steps_line(alloc, hits, verdict)?;
    format!(in alloc; "{table}frames {ran}, with a reason {skipped}\n{steps}")
}
