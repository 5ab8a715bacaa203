//! The lines on standard output that say what is refused.

ghost use Rattle.std.specs.Prelude.{◌≡◌, ◌++◌, IfOk, codes, decimal};
ghost use Rattle.std.specs.String.{string_bytes};
ghost use Rattle.messages.specs.Lines.{image_line, verdict_line, table_line, text_line, maps_line};

use assembler::AsmError;
use image::ImageError;
use map_texts::MapTextError;
use rechecking::TableError;
use std::alloc::{AllocError, Global};
use table_entries::TableRefusal;
use walks::Refusal;

// The line for what is refused as a whole, with the code of the refusal.
fn whole_line(alloc: Global, code: &str) -> Result<String, AllocError>
    ensures { IfOk result (λ line. string_bytes line
        ≡ codes "refused " ++ (code.now ++ codes "\n")) }
{
    format!(in alloc; "refused {code}\n")
}

// The line for what is refused at a map, a slot or an entry; the unit says which, as ` slot `.
fn counted_line(alloc: Global, code: &str, unit: &str, index: usize) -> Result<String, AllocError>
    ensures { IfOk result (λ line. string_bytes line
        ≡ codes "refused " ++ (code.now ++ (unit.now ++ (decimal index ++ codes "\n")))) }
{
    format!(in alloc; "refused {code}{unit}{index}\n")
}

// The same line with the code of the refusal of the instruction there.
fn inner_line(
    alloc: Global,
    code: &str,
    unit: &str,
    index: usize,
    inner: &str,
) -> Result<String, AllocError>
    ensures { IfOk result (λ line. string_bytes line
        ≡ codes "refused " ++ (code.now ++ (unit.now ++ (decimal index
        ++ (codes " " ++ (inner.now ++ codes "\n")))))) }
{
    format!(in alloc; "refused {code}{unit}{index} {inner}\n")
}

/// The line for an image that is refused.
pub fn image_line(alloc: Global, error: ImageError) -> Result<String, AllocError>
    ensures { IfOk result (λ line. string_bytes line ≡ image_line error) }
{
    let code = error.code();
    match error {
        ImageError::Code(slot, error) => inner_line(alloc, code, " slot ", slot, error.code()),
        ImageError::MapRow(index) => counted_line(alloc, code, " map ", index),
        ImageError::UnknownMap(slot) | ImageError::ValuePointer(slot) => {
            counted_line(alloc, code, " slot ", slot)
        }
        _ => whole_line(alloc, code),
    }
}

/// The line for a program that is refused at a slot.
pub fn verdict_line(alloc: Global, refusal: Refusal, slot: usize) -> Result<String, AllocError>
    ensures { IfOk result (λ line. string_bytes line ≡ verdict_line refusal slot) }
{
    counted_line(alloc, refusal.code(), " slot ", slot)
}

/// The line for a table that is refused; for wrong control flow, the line for the program.
pub fn table_line(alloc: Global, error: TableError) -> Result<String, AllocError>
    ensures { IfOk result (λ line. string_bytes line ≡ table_line error) }
{
    let code = error.code();
    match error {
        TableError::Flow(_, slot) => counted_line(alloc, code, " slot ", slot),
        TableError::Bytes(TableRefusal::Entry(index)) | TableError::Successor(index) => {
            counted_line(alloc, code, " entry ", index)
        }
        TableError::Step(index, refusal) => {
            inner_line(alloc, code, " entry ", index, refusal.code())
        }
        TableError::Bytes(_) | TableError::Start => whole_line(alloc, code),
    }
}

/// The line for a text that is refused at a line and a column.
pub fn text_line(alloc: Global, error: AsmError) -> Result<String, AllocError>
    ensures { IfOk result (λ line. string_bytes line ≡ text_line error) }
{
    let code = error.kind.code();
    let line = error.line;
    let column = error.column;
    format!(in alloc; "refused {code} line {line} column {column}\n")
}

/// The line for a text of maps that is refused at a line and a column.
pub fn maps_line(alloc: Global, error: MapTextError) -> Result<String, AllocError>
    ensures { IfOk result (λ line. string_bytes line ≡ maps_line error) }
{
    let code = error.kind.code();
    let line = error.line;
    let column = error.column;
    format!(in alloc; "refused {code} line {line} column {column}\n")
}
