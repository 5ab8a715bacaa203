//! The call that tests a proof table.

ghost use Rattle.std.specs.Prelude.{◌≡◌, ◌≢◌, Err, IfOk};
ghost use Rattle.image.specs.Images.{image_bytes};
ghost use Rattle.bounds.specs.Bounds.{IsVerified};
ghost use Rattle.rechecking.specs.Refusing.{ShowsBound};
ghost use Rattle.calls.specs.Crossing.{IsVerdictStatus};
ghost use Rattle.calls.specs.declared.statuses.NotAccepted.TheVariants as NotAccepted;
ghost use Rattle.calls.specs.Tables.{ReturnsShownBound, only_bound, FillsTableRefusal, FillsTableError, IsRefusedTable, broken, is_table_memory};

use crate::buffers::fill;
use crate::statuses::{MEMORY, NotAccepted, OK, REFUSED};
use bounds::Verified;
use control_flow::FlowError;
use image::{Image, ImageError};
use messages::{image_text, table_text};
use rechecking::{TableError, recheck};
use std::alloc::Global;
use table_entries::TableRefusal;

/// Says what a table shows: the most steps of a run. If it is refused, the number of the rule that
/// it breaks, 6 for P6, and for P5, P7 and P8 the entry; 0 where the image or its control flow is
/// refused. `said` is how many bytes the text of a refusal has.
#[repr(C)]
#[derive(Clone, Copy, Drop)]
pub struct Rechecked {
    pub said: usize,
    pub entry: usize,
    pub bound: u32,
    pub rule: u32,
}

// Whether a refusal says only that memory ran out.
fn is_memory(error: TableError) -> bool
    ensures { result ≡ is_table_memory error }
{
    matches!(
        error,
        TableError::Bytes(TableRefusal::Memory) | TableError::Flow(FlowError::Memory, _)
    )
}

// The rule that a table breaks, and the entry that breaks it; with the size of the text.
fn broken(error: TableError, said: usize) -> Rechecked
    ensures is { result ≡ broken error said }
    ensures said { result.said ≡ said }
{
    let (rule, entry) = match error {
        TableError::Flow(_, _) => (0, 0),
        TableError::Bytes(TableRefusal::Magic) => (1, 0),
        TableError::Bytes(TableRefusal::Short) => (2, 0),
        TableError::Bytes(TableRefusal::Long) => (3, 0),
        TableError::Bytes(TableRefusal::Count) => (4, 0),
        TableError::Bytes(TableRefusal::Entry(index)) => (5, index),
        TableError::Start => (6, 0),
        TableError::Step(index, _) => (7, index),
        TableError::Successor(index) => (8, index),
        TableError::Bytes(TableRefusal::Memory) => (9, 0),
    };
    Rechecked {
        said,
        bound: 0,
        rule,
        entry,
    }
}

/// The program of an image, if a proof table shows that it is accepted, with the bound that the
/// table shows.
pub fn table_verified(alloc: Global, image: &[u8], table: &[u8]) -> Result<Verified, NotAccepted>
    ensures spelled { IfOk result (λ verified. image.now ≡ image_bytes verified.program) }
    ensures verified { IfOk result IsVerified }
    ensures shows { IfOk result
        (λ verified. ShowsBound verified.program table.now verified.bound) }
    ensures refused { result ≡ Err NotAccepted.Refused → IsRefusedTable image.now table.now }
{
    let program = match Image::parse(alloc, image) {
        Ok(program) => program,
        Err(ImageError::Memory) => return Err(NotAccepted::Memory),
        Err(_) => return Err(NotAccepted::Refused),
    };
    let shown = recheck(alloc, program, table);
    match shown {
        Ok(verified) => Ok(verified),
        Err(error) => {
            if is_memory(error) {
                Err(NotAccepted::Memory)
            } else {
                Err(NotAccepted::Refused)
            }
        }
    }
}

// Tests a table of a program, and writes why it is refused.
fn test(alloc: Global, program: Image, table: &[u8], why: &mut [u8], out: &mut Rechecked) -> u32
    ensures accepted { result ≡ OK → IsVerified (record {
      program = program;
      bound = out.new.bound;
    }) }
    ensures shows { result ≡ OK → ShowsBound program table.now out.new.bound }
    ensures alone { result ≡ OK → out.new ≡ only_bound out.new.bound }
    ensures refused { result ≡ REFUSED → FillsTableError program table.now why.old why.new out.new }
    ensures why_kept { result ≢ REFUSED → why.new ≡ why.old }
    ensures memory { result ≡ MEMORY → out.new ≡ out.old }
    ensures status { IsVerdictStatus result }
{
    let Ok(copy) = program.copy(alloc) else {
        return MEMORY;
    };
    match recheck(alloc, program, table) {
        Ok(verified) => {
            *out = Rechecked {
                said: 0,
                bound: verified.bound(),
                rule: 0,
                entry: 0,
            };
            OK
        }
        Err(error) => {
            if is_memory(error) {
                return MEMORY;
            }
            let Some(text) = table_text(alloc, &copy, table, error, !why.is_empty()) else {
                return MEMORY;
            };
            *out = broken(error, fill(why, text.as_slice()));
            REFUSED
        }
    }
}

/// Tests a proof table of an image's program, whoever made it: where it passes, the program is
/// accepted as by `verify_image`, within the bound that the table shows. Why it is refused is
/// written to `why`, as far as there is room; what is known of the entry is looked for only where
/// there is some.
pub fn recheck_table(
    alloc: Global,
    image: &[u8],
    table: &[u8],
    why: &mut [u8],
    out: &mut Rechecked,
) -> u32
    ensures accepted { result ≡ OK → ReturnsShownBound image.now table.now out.new }
    ensures refused { result ≡ REFUSED
        → FillsTableRefusal image.now table.now why.old why.new out.new }
    ensures why_kept { result ≢ REFUSED → why.new ≡ why.old }
    ensures memory { result ≡ MEMORY → out.new ≡ out.old }
    ensures status { IsVerdictStatus result }
{
    match Image::parse(alloc, image) {
        Ok(program) => test(alloc, program, table, why, out),
        Err(ImageError::Memory) => MEMORY,
        Err(error) => {
            let Some(text) = image_text(alloc, error) else {
                return MEMORY;
            };
            *out = Rechecked {
                said: fill(why, text.as_slice()),
                bound: 0,
                rule: 0,
                entry: 0,
            };
            REFUSED
        }
    }
}
