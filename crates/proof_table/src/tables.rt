//! Whole tables, written entry by entry.

ghost use Rattle.std.specs.Prelude.{◌≡◌, ◌≤◌, ◌⊎◌, OnOk, OnErr, IfOk, IfErr};
ghost use Rattle.std.specs.Io.KnownBytes.{Appends};
ghost use Rattle.exact_io.specs.Transfers.{AppendsBeginning};
ghost use Rattle.proof_table.specs.Spelling.{head_bytes};
ghost use Rattle.proof_table.specs.Writing.{IsForTable, IsTableSize, GainsTable, GainsTableOf, BeginsTable, GainsEntries, BeginsEntries, SpellsEntry, Lacks, IsWriters, entries_for, table_length};
ghost use Rattle.proof_table.specs.Fitting.{entry_said};

use crate::entries::spell_entry;
use crate::fitting::entry_fits;
use crate::listing::{Explored, ExploredInsn, explore};
use bounds::Verified;
use byteorder::{ByteOrder, LittleEndian};
use control_flow::FlowError;
use exact_io::write_bytes;
use explorer::Refusal;
use image::Image;
use isa_model::MAX_EXPLORED;
use stack_state::State;
use std::alloc::Global;
use std::io::Write;
use table_entries::WriteTableError;

/// The bytes of the longest entry: one of 8 call frames, in which each register and each stack slot
/// is a number.
const LONGEST_ENTRY: usize = 39_024;

/// The bytes before the first entry.
const HEAD: u64 = 8;

fn head_bytes(count: u32) -> [u8; 8]
    ensures { result ≡ head_bytes count }
{
    let mut bytes = *b"XPT1\0\0\0\0";
    LittleEndian::write_u32(&mut bytes[4..], count);
    bytes
}

fn write_all<W: Write>(writer: &mut W, bytes: &[u8]) -> Result<(), WriteTableError>
    ensures ok { OnOk result (Appends (W.contents writer.old) (W.contents writer.new) bytes.now) }
    ensures err { OnErr result
        (AppendsBeginning (W.contents writer.old) (W.contents writer.new) bytes.now) }
    ensures cause { IfErr result IsWriters }
{
    match write_bytes(writer, bytes) {
        Ok(()) => Ok(()),
        Err(error) => Err(WriteTableError::Writer(error.kind())),
    }
}

/// Spells the entry of an explored instruction, in a buffer of its own; its state is restored into
/// `state`.
fn spell_explored(
    image: &Image,
    insn: &ExploredInsn,
    state: &mut State,
    buffer: &mut Vec<u8>,
) -> Result<(), WriteTableError>
    ensures ok { OnOk result (SpellsEntry image.now (entry_said (record {
      number = insn.now.number;
      state = insn.now.state;
      successors = insn.now.successors.items;
    })) buffer.new.items) }
    ensures err { IfErr result (Lacks image.now (entry_said (record {
      number = insn.now.number;
      state = insn.now.state;
      successors = insn.now.successors.items;
    }))) }
{
    insn.state.restore(state);
    if !entry_fits(image, insn.number, state, &insn.successors) {
        return Err(WriteTableError::Explored);
    }
    buffer.clear();
    match spell_entry(insn.number, state, &insn.successors, buffer) {
        Ok(()) => Ok(()),
        Err(_) => Err(WriteTableError::Memory),
    }
}

/// Writes the entries of the first explored instructions, `count` of them, each through the buffer.
fn write_entries<W: Write>(
    image: &Image,
    explored: &Explored,
    count: usize,
    buffer: &mut Vec<u8>,
    writer: &mut W,
) -> Result<(), WriteTableError>
    ensures ok { OnOk result
        (GainsEntries image.now explored.now count (W.contents writer.old)
        (W.contents writer.new)) }
    ensures err { OnErr result
        (BeginsEntries image.now count (W.contents writer.old) (W.contents writer.new)) }
{
    image.recall();
    let mut state = State::start();
    for index in 0..count {
        let Some(insn) = explored.insn(index) else {
            return Err(WriteTableError::Explored);
        };
        spell_explored(image, insn, &mut state, buffer)?;
        write_all(writer, buffer)?;
    }
    Ok(())
}

/// Why no table is written of a program that the verifier refuses.
fn error_of(refusal: Refusal) -> WriteTableError {
    match refusal {
        Refusal::Memory | Refusal::Flow(FlowError::Memory) => WriteTableError::Memory,
        _ => WriteTableError::Explored,
    }
}

/// A buffer for the bytes of one entry.
fn entry_buffer(alloc: Global) -> Result<Vec<u8>, WriteTableError> {
    match Vec::with_capacity(alloc, LONGEST_ENTRY) {
        Ok(buffer) => Ok(buffer),
        Err(_) => Err(WriteTableError::Memory),
    }
}

/// Explores a verified program again, for its table. That takes as much memory as it took before.
pub fn explore_again(alloc: Global, verified: &Verified) -> Result<Explored, WriteTableError>
    ensures { IfOk result (λ explored. IsForTable verified.now.program explored) }
{
    let image = verified.image();
    image.recall();
    let explored = match explore(alloc, image) {
        Ok(explored) => explored,
        Err((refusal, _)) => return Err(error_of(refusal)),
    };
    let count = explored.len();
    if count == 0 || count > MAX_EXPLORED as usize {
        return Err(WriteTableError::Explored);
    }
    Ok(explored)
}

/// Returns how many bytes a table has at most, by the number of its entries.
pub fn most_bytes(explored: &Explored) -> u64 {
    (explored.len() as u64)
        .saturating_mul(LONGEST_ENTRY as u64)
        .saturating_add(HEAD)
}

/// Returns how many bytes the table of a program has. Each entry is spelled for that, and none is
/// kept.
pub fn table_size(
    alloc: Global,
    verified: &Verified,
    explored: &Explored,
) -> Result<u64, WriteTableError>
    requires { IsForTable verified.now.program explored.now }
    ensures table { IfOk result (IsTableSize verified.now.program) }
    ensures length { IfOk result (λ size. size ≡ table_length (entries_for explored.now)) }
{
    let image = verified.image();
    let mut buffer = entry_buffer(alloc)?;
    let mut state = State::start();
    let mut size = HEAD;
    for at in 0..explored.len() {
        let Some(insn) = explored.insn(at) else {
            return Err(WriteTableError::Explored);
        };
        spell_explored(image, insn, &mut state, &mut buffer)?;
        size = size.saturating_add(buffer.len() as u64);
    }
    Ok(size)
}

/// Writes a table of a verified program: an entry for each of these instructions, which the
/// verifier explored, in its state, with its number and the entries of its successors.
///
/// Each entry is one write, so a writer to a file is to have a buffer. The writer's first error, of
/// any kind, is the failure; a write of no byte is the failure `ErrorKind::WriteZero`. Nothing is
/// tried again.
pub fn write_explored<W: Write>(
    alloc: Global,
    verified: &Verified,
    explored: &Explored,
    writer: &mut W,
) -> Result<(), WriteTableError>
    requires { IsForTable verified.now.program explored.now }

    // The table of these instructions, which is read as its entries, and says the number of the
    // start.
    ensures ok { OnOk result (GainsTableOf verified.now.program (entries_for explored.now)
        (W.contents writer.old) (W.contents writer.new)) }

    // A beginning of such a table.
    ensures err { OnErr result
        (BeginsTable verified.now.program (W.contents writer.old) (W.contents writer.new)) }
{
    let image = verified.image();
    image.recall();
    let count = explored.len();
    let mut buffer = entry_buffer(alloc)?;
    write_all(writer, &head_bytes(count as u32))?;
    write_entries(image, explored, count, &mut buffer, writer)
}

/// Writes a table of a verified program, which is explored again for it.
pub fn write_table<W: Write>(
    alloc: Global,
    verified: &Verified,
    writer: &mut W,
) -> Result<(), WriteTableError>
    ensures ok { OnOk result
        (GainsTable verified.now.program (W.contents writer.old) (W.contents writer.new)) }
    ensures err { OnErr result
        (BeginsTable verified.now.program (W.contents writer.old) (W.contents writer.new)) }
{
    verified.image().recall();
    let explored = explore_again(alloc, verified)?;
    write_explored(alloc, verified, &explored, writer)
}
