//! The message about a refused proof table, as a whole.

ghost use Rattle.std.specs.Prelude.{◌≡◌, ◌++◌, false, None, codes, IfSome, OnOk};
ghost use Rattle.std.specs.String.{string_bytes};
ghost use Rattle.explanations.specs.Entries.{IsEntryReason};
ghost use Rattle.rechecking.specs.Messages.{sentence_of};
ghost use Rattle.messages.specs.Messages.{insn_position};
ghost use Rattle.messages.specs.Texts.{entry_line, table_front, step_sentence, IsTableText};

use crate::lines::table_line;
use crate::rejections::{say_entry, say_insn};
use crate::texts::write_texts;
use crate::whole_texts::program_front;
use exact_io::write_bytes;
use explanations::{EntryReason, entry_reason};
use image::Image;
use rechecking::TableError;
use std::alloc::Global;
use std::io;
use table_entries::TableRefusal;
use walks::Refusal;

// Writes the entry at which a table is refused, if it is at one.
fn write_entry(text: &mut Vec<u8>, error: TableError) -> io::Result<()>
    ensures { OnOk result (text.new.items ≡ text.old.items ++ entry_line error) }
{
    match error {
        TableError::Bytes(TableRefusal::Entry(index))
        | TableError::Step(index, _)
        | TableError::Successor(index) => say_entry(text, index),
        _ => Ok(()),
    }
}

// Writes why a table is refused, and at which entry.
fn write_front(text: &mut Vec<u8>, error: TableError) -> io::Result<()>
    ensures { OnOk result (text.new.items
        ≡ text.old.items ++ ((sentence_of error ++ codes "\n") ++ entry_line error)) }
{
    write_texts(text, "", error.sentence(), "\n")?;
    write_entry(text, error)
}

// The line, and why a table is refused and at which entry; or why and where the control flow is.
// None: memory ran out.
fn table_front(alloc: Global, image: &Image, error: TableError) -> Option<Vec<u8>>
    ensures { IfSome result (λ text. text.items ≡ table_front image.now error) }
{
    if let TableError::Flow(flow, slot) = error {
        return program_front(alloc, image, Refusal::Flow(flow), slot);
    }
    let Ok(line) = table_line(alloc, error) else {
        return None;
    };
    let mut text = line.into_bytes();
    match write_front(&mut text, error) {
        Ok(()) => Some(text),
        Err(_) => None,
    }
}

// Writes why the step of an entry is refused.
fn write_sentence(text: &mut Vec<u8>, error: TableError) -> io::Result<()>
    ensures { OnOk result (text.new.items ≡ text.old.items ++ step_sentence error) }
{
    match error {
        TableError::Step(_, refusal) => write_texts(text, "", refusal.sentence(), "\n"),
        _ => Ok(()),
    }
}

// Writes the slot of the step, the instruction there, and what is known.
fn write_found(text: &mut Vec<u8>, found: &EntryReason, error: TableError) -> io::Result<()>
    ensures { OnOk result (text.new.items ≡ text.old.items
        ++ (insn_position found.now.slot found.now.insn
        ++ (step_sentence error ++ string_bytes found.now.text))) }
{
    say_insn(text, found.slot, &found.insn)?;
    write_sentence(text, error)?;
    write_bytes(text, found.text.as_bytes())
}

// What is known of the entry, if that is asked for.
fn found_of(
    alloc: Global,
    image: &Image,
    table: &[u8],
    error: TableError,
    asked: bool,
) -> Option<EntryReason>
    ensures found { IfSome result (λ found. IsEntryReason image.now table.now error
        found.slot found.insn (string_bytes found.text)) }
    ensures unasked { asked ≡ false → result ≡ None }
{
    if asked {
        entry_reason(alloc, image, table, error)
    } else {
        None
    }
}

/// Returns why a table of an image's program is refused, at which entry, and where that is asked
/// for, what is known there. None: memory ran out.
pub fn table_text(
    alloc: Global,
    image: &Image,
    table: &[u8],
    error: TableError,
    asked: bool,
) -> Option<Vec<u8>>
    ensures text { IfSome result (λ text. IsTableText image.now table.now error text.items) }
    ensures unasked { asked ≡ false → IfSome result (λ text. text.items
        ≡ table_front image.now error ++ step_sentence error) }
{
    let mut text = table_front(alloc, image, error)?;
    let Some(found) = found_of(alloc, image, table, error, asked) else {
        return match write_sentence(&mut text, error) {
            Ok(()) => Some(text),
            Err(_) => None,
        };
    };
    match write_found(&mut text, &found, error) {
        Ok(()) => Some(text),
        Err(_) => None,
    }
}
