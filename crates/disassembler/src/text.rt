//! The text of an image.

ghost use Rattle.std.specs.Prelude.{◌≡◌, OnOk, OnErr};
ghost use Rattle.std.specs.List.{flat_map};
ghost use Rattle.std.specs.Io.KnownBytes.{Appends};
ghost use Rattle.isa_model.specs.Text.CanonicalText.{line_of, row_line, rows_text, version_line, canonical_text};
ghost use Rattle.exact_io.specs.Transfers.{AppendsBeginning};
ghost use Rattle.disassembler.specs.SlotText.{slot_text, unversioned_text};

use super::lines::{line_of, line_of_row};
use exact_io::write_bytes;
use image::Image;
use isa_model::{Insn, MapDef};
use std::io;
use std::io::Write;

// Writes a map row's line.
fn write_row<W: Write>(out: &mut W, row: &MapDef) -> io::Result<()>
    ensures ok { OnOk result
        (Appends (W.contents out.old) (W.contents out.new) (row_line row.now)) }
    ensures err { OnErr result
        (AppendsBeginning (W.contents out.old) (W.contents out.new) (row_line row.now)) }
{
    write_bytes(out, line_of_row(row).as_str().as_bytes())
}

/// Writes an instruction's line, as `disassemble` does.
pub fn write_insn<W: Write>(out: &mut W, insn: &Insn) -> io::Result<()>
    ensures ok { OnOk result
        (Appends (W.contents out.old) (W.contents out.new) (line_of insn.now)) }
    ensures err { OnErr result
        (AppendsBeginning (W.contents out.old) (W.contents out.new) (line_of insn.now)) }
{
    write_bytes(out, line_of(insn).as_str().as_bytes())
}

// Writes the map rows' lines.
fn write_rows<W: Write>(out: &mut W, rows: &[MapDef]) -> io::Result<()>
    ensures ok { OnOk result
        (Appends (W.contents out.old) (W.contents out.new) (rows_text rows.now)) }
    ensures err { OnErr result
        (AppendsBeginning (W.contents out.old) (W.contents out.new) (rows_text rows.now)) }
{
    for row in rows {
        write_row(out, row)?;
    }
    Ok(())
}

// Writes the instructions' lines; a second half has none.
fn write_code<W: Write>(out: &mut W, slots: &[Option<Insn>]) -> io::Result<()>
    ensures ok { OnOk result
        (Appends (W.contents out.old) (W.contents out.new) (flat_map slot_text slots.now)) }
    ensures err { OnErr result
        (AppendsBeginning (W.contents out.old) (W.contents out.new)
        (flat_map slot_text slots.now)) }
{
    for slot in slots {
        if let Some(insn) = slot {
            write_insn(out, insn)?;
        }
    }
    Ok(())
}

// The line of the image's version; version 1 has none.
fn line_of_version(image: &Image) -> &'static str
    ensures { result.now ≡ version_line image.now.version }
{
    if image.version() == 2 {
        "version 2\n"
    } else {
        ""
    }
}

// Writes the line of the version.
fn write_version<W: Write>(image: &Image, out: &mut W) -> io::Result<()>
    ensures ok { OnOk result
        (Appends (W.contents out.old) (W.contents out.new) (version_line image.now.version)) }
    ensures err { OnErr result
        (AppendsBeginning (W.contents out.old) (W.contents out.new)
        (version_line image.now.version)) }
{
    write_bytes(out, line_of_version(image).as_bytes())
}

// Writes the lines after the one of the version.
fn write_program<W: Write>(image: &Image, out: &mut W) -> io::Result<()>
    ensures ok { OnOk result
        (Appends (W.contents out.old) (W.contents out.new) (unversioned_text image.now)) }
    ensures err { OnErr result
        (AppendsBeginning (W.contents out.old) (W.contents out.new) (unversioned_text image.now)) }
{
    write_rows(out, image.maps())?;
    write_code(out, image.code())?;
    Ok(())
}

/// Writes the canonical text of the image's program.
///
/// The writer's first error, of any kind, is the failure and is returned; a write of no byte is the
/// failure `ErrorKind::WriteZero`. Nothing is tried again.
pub fn disassemble<W: Write>(image: &Image, out: &mut W) -> io::Result<()>
    ensures ok { OnOk result
        (Appends (W.contents out.old) (W.contents out.new) (canonical_text image.now)) }
    ensures err { OnErr result
        (AppendsBeginning (W.contents out.old) (W.contents out.new) (canonical_text image.now)) }
{
    write_version(image, out)?;
    write_program(image, out)?;
    Ok(())
}
