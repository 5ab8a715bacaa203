//! The code of an image: its instructions by slot.

ghost use Rattle.std.specs.Prelude.{◌≡◌, ◌/◌, false, length, IfOk, OnOk, OnErr};
ghost use Rattle.std.specs.Io.KnownBytes.{Appends};
ghost use Rattle.isa_model.specs.Code.Instructions.{slots};
ghost use Rattle.isa_model.specs.Code.Spelling.{spelling_of, InsnFits};
ghost use Rattle.exact_io.specs.Transfers.{AppendsBeginning};
ghost use Rattle.image.specs.Images.{code_bytes, IsCode};
ghost use Rattle.image.specs.Refusals.{ReturnsParsed, insn_at, code_from};

use crate::errors::ImageError;
use crate::named::map_refusal;
use exact_io::write_bytes;
use insn_codec::{decode, encode};
use isa_model::{Insn, MapDef, Operand, Place};
use std::alloc::{AllocError, Global};
use std::io;
use std::io::Write;

/// The instruction that begins at the slot, for these map rows; the bytes are those of the slot and
/// all after it.
fn insn_at(maps: &[MapDef], slot: usize, bytes: &[u8]) -> Result<Insn, ImageError>
    ensures { result ≡ insn_at maps.now slot bytes.now }
{
    let insn = match decode(bytes) {
        Ok((insn, _)) => insn,
        Err(error) => return Err(ImageError::Code(slot, error)),
    };
    match map_refusal(maps, slot, &insn) {
        None => Ok(insn),
        Some(error) => Err(error),
    }
}

// The numbers in an instruction are of their types.
fn numbers_fit(insn: Insn)
    ensures { InsnFits insn }
{
    match insn {
        Insn::Alu(_, _, _, Operand::Constant(_)) => {}
        Insn::LoadNumber(_, _) => {}
        Insn::LoadMap(_, _) | Insn::LoadMapValue(_, _, _) => {}
        Insn::CallHelper(_) => {}
        Insn::StoreConstant(_, Place { base: _, offset: _ }, _) => {}
        Insn::Load(_, _, Place { base: _, offset: _ })
        | Insn::LoadSx(_, _, Place { base: _, offset: _ })
        | Insn::Store(_, Place { base: _, offset: _ }, _)
        | Insn::Atomic(_, _, _, Place { base: _, offset: _ }, _)
        | Insn::Exchange(_, Place { base: _, offset: _ }, _)
        | Insn::CompareExchange(_, Place { base: _, offset: _ }, _) => {}
        _ => {}
    }
}

/// The instructions by slot, with none at second halves.
pub fn by_slot(alloc: Global, insns: &[Insn]) -> Result<Vec<Option<Insn>>, AllocError>
    ensures slots { IfOk result (λ v. v.items ≡ slots insns.now) }
    ensures code { IfOk result (λ v. IsCode false v.items) }
{
    let mut code = Vec::new(alloc);
    for insn in insns {
        numbers_fit(*insn);
        code.push(Some(*insn))?;
        if insn.slots() == 2 {
            code.push(None)?;
        }
    }
    Ok(code)
}

/// The instructions that bytes spell, by slot, with none at second halves; the maps that they name
/// have to be among these.
pub fn code_of(
    alloc: Global,
    maps: &[MapDef],
    bytes: &[u8],
) -> Result<Vec<Option<Insn>>, ImageError>
    ensures { ReturnsParsed (λ v. v.items) result
        (code_from maps.now (length bytes.now / 8) false 0 bytes.now) }
{
    let mut slots = Vec::new(alloc);
    let mut second_half = false;
    for slot in 0..bytes.len() / 8 {
        if second_half {
            slots.push(None)?;
            second_half = false;
        } else {
            let insn = insn_at(maps, slot, &bytes[8 * slot..])?;
            slots.push(Some(insn))?;
            second_half = insn.slots() == 2;
        }
    }
    Ok(slots)
}

fn write_insn<W: Write>(writer: &mut W, insn: &Insn) -> io::Result<()>
    ensures ok { OnOk result
        (Appends (W.contents writer.old) (W.contents writer.new) (spelling_of insn.now)) }
    ensures err { OnErr result
        (AppendsBeginning (W.contents writer.old) (W.contents writer.new) (spelling_of insn.now)) }
{
    let mut bytes = [0; 16];
    let length = encode(insn, &mut bytes);
    write_bytes(writer, &bytes[..length])
}

/// Writes the instructions one after the other.
pub fn write_code<W: Write>(writer: &mut W, slots: &[Option<Insn>]) -> io::Result<()>
    ensures ok { OnOk result
        (Appends (W.contents writer.old) (W.contents writer.new) (code_bytes slots.now)) }
    ensures err { OnErr result
        (AppendsBeginning (W.contents writer.old) (W.contents writer.new) (code_bytes slots.now)) }
{
    for slot in slots {
        if let Some(insn) = slot {
            write_insn(writer, insn)?;
        }
    }
    Ok(())
}
