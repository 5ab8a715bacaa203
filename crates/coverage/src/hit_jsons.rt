//! How often each instruction was run, as one JSON object.

use crate::StreamHits;
use crate::hit_tables::{count_at, is_conditional};
use crate::jsons::{quoted, quoted_or_null};
use crate::verdicts::BoundVerdict;
use crate::words::insn_words;
use image::Image;
use isa_model::{Finish, Insn};
use std::alloc::{AllocError, Global};

/// The members for a conditional jump's two ways.
fn ways_json(
    alloc: Global,
    hits: &StreamHits,
    slot: usize,
    insn: &Insn,
) -> Result<String, AllocError> {
    if !is_conditional(insn) {
        return Ok(String::new(alloc));
    }
    let jumped = count_at(hits.slots.jumped.as_slice(), slot);
    let fell = count_at(hits.slots.fell.as_slice(), slot);
    format!(in alloc; ",\"jumped\":{jumped},\"fell\":{fell}")
}

/// The object of an instruction.
fn insn_json(
    alloc: Global,
    hits: &StreamHits,
    slot: usize,
    insn: &Insn,
) -> Result<String, AllocError> {
    let words = insn_words(alloc, insn)?;
    let text = quoted(alloc, words.as_str())?;
    let runs = count_at(hits.slots.runs.as_slice(), slot);
    let ways = ways_json(alloc, hits, slot, insn)?;
    format!(in alloc; "{{\"slot\":{slot},\"instruction\":{text},\"runs\":{runs}{ways}}}")
}

/// The objects of all instructions.
fn insns_json(alloc: Global, image: &Image, hits: &StreamHits) -> Result<String, AllocError> {
    let mut text = String::new(alloc);
    for slot in 0..image.slots() {
        if let Some(insn) = image.at(slot) {
            if !text.is_empty() {
                text.push(',')?;
            }
            let one = insn_json(alloc, hits, slot, insn)?;
            text.push_str(one.as_str())?;
        }
    }
    Ok(text)
}

/// The words of the report by which runs end, in the order of their counts.
const WORDS: [&str; 8] = [
    "ABORTED", "DROP", "PASS", "TX", "REDIRECT", "INVALID", "TRAP", "LIMIT",
];

/// How many runs ended by each word of the report.
fn ends_json(alloc: Global, ended: &[u64]) -> Result<String, AllocError> {
    let mut text = String::from_str(alloc, "{")?;
    for index in 0..WORDS.len() {
        let word = WORDS[index];
        let count = count_at(ended, index);
        let comma = if index == 0 { "" } else { "," };
        let member = format!(in alloc; "{comma}\"{word}\":{count}")?;
        text.push_str(member.as_str())?;
    }
    text.push('}')?;
    Ok(text)
}

/// The fault that ended the stream, or null.
fn fault_json(alloc: Global, finish: Finish) -> Result<String, AllocError> {
    match finish {
        Finish::End => quoted_or_null(alloc, None),
        Finish::Fault(fault, _) => quoted_or_null(alloc, Some(fault.code())),
    }
}

/// What `verify` says: the bound, and the line of a refusal.
fn verdict_json(alloc: Global, verdict: &BoundVerdict) -> Result<String, AllocError> {
    match verdict {
        BoundVerdict::Bound(bound) => {
            let bound = *bound;
            format!(in alloc; "\"bound\":{bound},\"refused\":null")
        }
        BoundVerdict::Refused(line) => {
            let line = quoted(alloc, line.as_str())?;
            format!(in alloc; "\"bound\":null,\"refused\":{line}")
        }
        BoundVerdict::Unknown => String::from_str(alloc, "\"bound\":null,\"refused\":null"),
    }
}

/// The least, the median and the greatest number of steps, or null.
fn steps_json(alloc: Global, hits: &StreamHits) -> Result<String, AllocError> {
    match hits.step_numbers() {
        Some(numbers) => {
            let (least, median, greatest) = (numbers.least, numbers.median, numbers.greatest);
            format!(in alloc; "{{\"least\":{least},\"median\":{median},\"greatest\":{greatest}}}")
        }
        None => quoted_or_null(alloc, None),
    }
}

/// The members on the frames.
fn frames_json(alloc: Global, path: &str, hits: &StreamHits) -> Result<String, AllocError> {
    let path = quoted(alloc, path)?;
    let (ran, skipped) = (hits.ran, hits.skipped);
    let fault = fault_json(alloc, hits.finish)?;
    format!(in alloc; "\"image\":{path},\"frames\":{ran},\"reasons\":{skipped},\"fault\":{fault}")
}

/// The members on the steps and the ends of the runs.
fn runs_json(
    alloc: Global,
    hits: &StreamHits,
    verdict: &BoundVerdict,
) -> Result<String, AllocError> {
    let verdict = verdict_json(alloc, verdict)?;
    let steps = steps_json(alloc, hits)?;
    let actions = ends_json(alloc, hits.ended.as_slice())?;
    format!(in alloc; "{verdict},\"steps\":{steps},\"actions\":{actions}")
}

/// The counts as one JSON object, in one line.
pub fn hits_json(
    alloc: Global,
    path: &str,
    image: &Image,
    hits: &StreamHits,
    verdict: &BoundVerdict,
) -> Result<String, AllocError> {
    let frames = frames_json(alloc, path, hits)?;
    let runs = runs_json(alloc, hits, verdict)?;
    let insns = insns_json(alloc, image, hits)?;
    format!(in alloc; "{{{frames},{runs},\"instructions\":[{insns}]}}\n")
}
