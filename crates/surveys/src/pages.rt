//! What a search came to, as a page: an HTML file that needs nothing else.

use crate::errors::LookError;
use crate::joins::CommonKind;
use crate::overviews::{KnownSlot, Overview, Seen, Together};
use crate::texts::insn_text;
use exact_io::write_bytes;
use explanations::kind_words;
use image::Image;
use isa_model::{MAX_EXPLORED, STACK_SIZE};
use reg_state::Kind;
use stack_state::StackSlot;
use std::alloc::{AllocError, Global};
use std::io::Write;

const STYLE: &str = "\
<style>
:root { color-scheme: light dark; --paper: #ffffff; --ink: #1b1f24; --quiet: #59636e; --rule: #d1d9e0; --never: #eceff2; --refused: #ffe3e0; }
@media (prefers-color-scheme: dark) {
  :root { --paper: #0f1318; --ink: #e6edf3; --quiet: #9aa6b2; --rule: #30363d; --never: #20262d; --refused: #4a1f1c; }
}
body { background: var(--paper); color: var(--ink); font: 15px/1.5 system-ui, sans-serif; margin: 2rem auto; max-width: 70rem; padding: 0 1rem; }
h1 { font-size: 1.4rem; }
.said { font: 13px/1.45 ui-monospace, monospace; white-space: pre-wrap; }
table { border-collapse: collapse; width: 100%; font: 13px/1.45 ui-monospace, monospace; }
th { border-bottom: 1px solid var(--rule); color: var(--quiet); font-weight: normal; text-align: left; }
th, td { padding: 0 .6rem; vertical-align: top; }
.count { text-align: right; white-space: nowrap; width: 1%; }
.quiet, pre { color: var(--quiet); }
summary { cursor: pointer; list-style: none; }
summary::-webkit-details-marker { display: none; }
pre { margin: 0 0 .3rem 1.5rem; white-space: pre-wrap; }
.never { background: var(--never); }
.refused { background: var(--refused); font-weight: bold; }
</style>
";

const HEAD: &str =
    "<p class=\"quiet\">Each instruction has how often the search explored it, and how many paths \
     ended there because a finished state covers the one that arrived. It opens to show what all \
     states that it was reached in know together.</p>\n<table><thead><tr>\
     <th class=\"count\">slot</th><th class=\"count\">explored</th>\
     <th class=\"count\">paths ended</th><th>instruction</th></tr></thead><tbody>\n";

const END: &str = "</tbody></table></body></html>\n";

/// Adds a text with the characters that mean something in HTML as what stands for them.
fn put_escaped(text: &str, out: &mut String) -> Result<(), AllocError> {
    for letter in text.chars() {
        match letter {
            '<' => out.push_str("&lt;")?,
            '>' => out.push_str("&gt;")?,
            '&' => out.push_str("&amp;")?,
            '"' => out.push_str("&quot;")?,
            _ => out.push(letter)?,
        }
    }
    Ok(())
}

/// What is known of a pointer into the packet, in words.
fn packet_words(
    alloc: Global,
    least: i32,
    greatest: i32,
    proved: Option<u32>,
) -> Result<String, AllocError> {
    match proved {
        Some(proved) => format!(in alloc;
            "packet pointer at {least} to {greatest}, {proved} bytes proved"
        ),
        None => format!(in alloc; "packet pointer at {least} to {greatest}"),
    }
}

/// What is known of a register, in words.
fn register_words(alloc: Global, callers: usize, known: CommonKind) -> Result<String, AllocError> {
    match known {
        CommonKind::Kind(kind) => kind_words(alloc, callers, kind),
        CommonKind::Packet {
            least,
            greatest,
            proved,
        } => packet_words(alloc, least, greatest, proved),
        CommonKind::Differs => String::from_str(alloc, "differs"),
    }
}

/// The line of a register; none if it may be unset.
fn register_line(
    alloc: Global,
    callers: usize,
    index: usize,
    known: CommonKind,
) -> Result<String, AllocError> {
    if known == CommonKind::Kind(Kind::Unset) {
        return Ok(String::new(alloc));
    }
    let words = register_words(alloc, callers, known)?;
    format!(in alloc; "r{index}: {words}\n")
}

/// What is known of a stack slot, in words.
fn stack_words(alloc: Global, callers: usize, known: StackSlot) -> Result<String, AllocError> {
    match known {
        StackSlot::Written(255) => String::from_str(alloc, "written"),
        StackSlot::Written(_) => String::from_str(alloc, "written in part"),
        StackSlot::Spilled(kind) => kind_words(alloc, callers, kind),
    }
}

/// The line of a stack slot.
fn stack_line(alloc: Global, callers: usize, slot: KnownSlot) -> Result<String, AllocError> {
    if slot.known == StackSlot::Written(0) {
        return Ok(String::new(alloc));
    }
    let words = stack_words(alloc, callers, slot.known)?;
    let below = STACK_SIZE.saturating_sub(slot.index.saturating_mul(8));
    match slot.calls_up {
        0 => format!(in alloc; "stack -{below}: {words}\n"),
        1 => format!(in alloc; "stack -{below}, 1 call up: {words}\n"),
        count => format!(in alloc; "stack -{below}, {count} calls up: {words}\n"),
    }
}

/// The lines of what states know together.
fn together_text(alloc: Global, together: &Together) -> Result<String, AllocError> {
    let mut text = String::new(alloc);
    for (index, known) in together.registers.iter().enumerate() {
        let line = register_line(alloc, together.callers, index, *known)?;
        put_escaped(line.as_str(), &mut text)?;
    }
    for slot in together.stack.iter() {
        let line = stack_line(alloc, together.callers, *slot)?;
        put_escaped(line.as_str(), &mut text)?;
    }
    Ok(text)
}

/// The cell of an instruction, which opens to show what is known there.
fn insn_cell(
    alloc: Global,
    image: &Image,
    slot: usize,
    seen: &Seen,
    is_open: bool,
) -> Result<String, AllocError> {
    let text = insn_text(alloc, image, slot)?;
    let mut insn = String::new(alloc);
    put_escaped(text.as_str().trim_end(), &mut insn)?;
    let known = match &seen.together {
        Some(together) => together_text(alloc, together)?,
        None => String::new(alloc),
    };
    if known.is_empty() {
        return Ok(insn);
    }
    let open = if is_open { " open" } else { "" };
    format!(in alloc; "<details{open}><summary>{insn}</summary><pre>{known}</pre></details>")
}

/// The row of an instruction.
fn row(
    alloc: Global,
    image: &Image,
    slot: usize,
    seen: &Seen,
    is_refused: bool,
) -> Result<String, AllocError> {
    let cell = insn_cell(alloc, image, slot, seen, is_refused)?;
    let (explored, covered) = (seen.explored, seen.covered);
    if explored == 0 && covered == 0 && !is_refused {
        return format!(in alloc;
            "<tr class=\"never\"><td class=\"count\">{slot}</td><td class=\"count\">never</td><td></td><td>{cell}</td></tr>\n"
        );
    }
    let (class, note) = if is_refused {
        (" class=\"refused\"", "<div>refused here</div>")
    } else {
        ("", "")
    };
    format!(in alloc;
        "<tr{class}><td class=\"count\">{slot}</td><td class=\"count\">{explored}</td><td class=\"count\">{covered}</td><td>{cell}{note}</td></tr>\n"
    )
}

/// The beginning of the page, up to what is said of the program.
fn opening(alloc: Global, name: &str) -> Result<String, AllocError> {
    let mut title = String::new(alloc);
    put_escaped(name, &mut title)?;
    format!(in alloc;
        "<!DOCTYPE html>\n<html lang=\"en\"><head><meta charset=\"utf-8\"><meta name=\"viewport\" content=\"width=device-width\"><title>{title}</title>\n{STYLE}</head><body>\n<h1>What the verifier explored of {title}</h1>\n"
    )
}

/// What is said above the table: the verdict with its reason, and how much was explored.
fn summary(alloc: Global, overview: &Overview, told: &str) -> Result<String, AllocError> {
    let mut said = String::new(alloc);
    put_escaped(told, &mut said)?;
    let (explored, stored) = (overview.tally.explored, overview.tally.stored);
    let again = match overview.before {
        Some(before) => format!(in alloc;
            " Before, {before} instructions were explored while numbers were forgotten; what is shown is the exact search after that."
        )?,
        None => String::new(alloc),
    };
    format!(in alloc;
        "<div class=\"said\">{said}</div>\n<p>{explored} of {MAX_EXPLORED} instructions were explored, and {stored} states stored.{again}</p>\n"
    )
}

/// Writes a page on what a search came to of a program that is called by the name. `told` is what
/// `verify` says of it.
pub fn write_page<W: Write>(
    alloc: Global,
    image: &Image,
    overview: &Overview,
    name: &str,
    told: &str,
    out: &mut W,
) -> Result<(), LookError> {
    let opening = opening(alloc, name)?;
    write_bytes(out, opening.as_bytes())?;
    let summary = summary(alloc, overview, told)?;
    write_bytes(out, summary.as_bytes())?;
    write_bytes(out, HEAD.as_bytes())?;
    let refused = match overview.ended {
        Ok(_) => None,
        Err((_, slot)) => Some(slot),
    };
    for (slot, seen) in overview.slots.iter().enumerate() {
        if image.at(slot).is_some() {
            let text = row(alloc, image, slot, seen, refused == Some(slot))?;
            write_bytes(out, text.as_bytes())?;
        }
    }
    write_bytes(out, END.as_bytes())?;
    Ok(())
}
