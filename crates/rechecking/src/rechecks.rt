//! Tests of proof tables: the bound that a table shows, or why it is refused.

ghost use Rattle.std.specs.Prelude.{◌≡◌, ℕ, Some, None, IfSome, IfOk, IfErr};
ghost use Rattle.isa_model.specs.Machine.MachineStates.{IsProgram};
ghost use Rattle.bounds.specs.Bounds.{IsVerified};
ghost use Rattle.control_flow.specs.Flows.{IsFlow};
ghost use Rattle.table_entries.specs.Tables.{entry_at};
ghost use Rattle.rechecking.specs.Checking.{HasStart, StartsClearly};
ghost use Rattle.rechecking.specs.Refusing.{ShowsBound, TableIsRefused};

use crate::entries::test_all;
use crate::errors::TableError;
use bounds::Verified;
use control_flow::Flow;
use image::Image;
use stack_state::State;
use state_cover::covers;
use std::alloc::Global;
use table_entries::{Growing, Table};

/// The number of entry 0, if that covers the start state: P6.
fn first_number(image: &Image, table: &Table) -> Option<u32>
    requires { IsProgram image.now }
    ensures some { (n : ℕ) → result ≡ Some n → HasStart image.now (entry_at image.now table.now) n }
    ensures none { result ≡ None → StartsClearly (entry_at image.now table.now) → ⊥ }
{
    let start = State::start();
    let mut room = State::start();
    let Some(head) = table.read(image, 0, &mut room) else {
        return None;
    };
    if covers(&room, &start) {
        Some(head.number)
    } else {
        None
    }
}

/// The bound that a table shows, with entries placed as they are tested. Nothing follows from None.
///
/// The next entry is read once, where it spells a successor of the one that is tested.
fn quick_bound(alloc: Global, image: &Image, bytes: &[u8]) -> Option<u32>
    requires { IsProgram image.now }
    ensures { IfSome result (ShowsBound image.now bytes.now) }
{
    let mut growing = Growing::begin(alloc, bytes)?;
    if !growing.reach(image, 0) {
        return None;
    }
    let number = first_number(image, growing.placed())?;
    match test_all(image, &mut growing) {
        Ok(true) => {
            if growing.is_whole() {
                Some(number)
            } else {
                None
            }
        }
        _ => None,
    }
}

/// The bound that a table shows, or why it is refused. All entries are placed first.
fn slow_bound(alloc: Global, image: &Image, bytes: &[u8]) -> Result<u32, TableError>
    requires flow { IsFlow image.now }
    requires program { IsProgram image.now }
    ensures shown { IfOk result (ShowsBound image.now bytes.now) }
    ensures refused { IfErr result (TableIsRefused image.now bytes.now) }
{
    let table = match Table::of(alloc, image, bytes) {
        Ok(table) => table,
        Err(refusal) => return Err(TableError::Bytes(refusal)),
    };
    let Some(number) = first_number(image, &table) else {
        return Err(TableError::Start);
    };
    let mut growing = Growing::of(table);
    match test_all(image, &mut growing) {
        Ok(true) => Ok(number),
        Ok(false) => unreachable!(),
        Err(error) => Err(error),
    }
}

/// The bound that a table shows, or why it is refused. `quick_bound` is tried first.
fn bound_of(alloc: Global, image: &Image, bytes: &[u8]) -> Result<u32, TableError>
    requires { IsFlow image.now }
    ensures shown { IfOk result (ShowsBound image.now bytes.now) }
    ensures refused { IfErr result (TableIsRefused image.now bytes.now) }
{
    image.recall();
    if let Some(number) = quick_bound(alloc, image, bytes) {
        return Ok(number);
    }
    slow_bound(alloc, image, bytes)
}

/// Tests a table of a program: where it passes, every run of the program meets no trap, and exits
/// within the number of the table's first entry, whoever made the table.
///
/// Control flow is tested first, then the bytes, then that the first entry covers the start state,
/// then each entry. Memory is taken for control flow and for 8 bytes an entry.
pub fn recheck(alloc: Global, image: Image, bytes: &[u8]) -> Result<Verified, TableError>
    ensures program { IfOk result (λ verified. verified.program ≡ image) }
    ensures verified { IfOk result IsVerified }

    // The bytes are a closed table, and the bound is its first entry's number.
    ensures closed { IfOk result (λ verified. ShowsBound image bytes.now verified.bound) }
    ensures refused { IfErr result (TableIsRefused image bytes.now) }
{
    match Flow::of(alloc, &image) {
        Ok(_flow) => {}
        Err((error, slot)) => return Err(TableError::Flow(error, slot)),
    }
    let bound = bound_of(alloc, &image, bytes)?;
    Ok(Verified::from_within(image, bound))
}
