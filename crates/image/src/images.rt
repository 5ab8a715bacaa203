//! The type of images, and how they are read, made and written.

ghost use Rattle.std.specs.Prelude.{◌≡◌, ◌⊎◌, None, Some, length, IfOk, MatchResult, OnOk, OnErr};
ghost use Rattle.std.specs.Option.{option_copied};
ghost use Rattle.std.specs.Io.KnownBytes.{Appends};
ghost use Rattle.isa_model.specs.Code.Versions.{version_number};
ghost use Rattle.isa_model.specs.Code.Instructions.{Program, fetch, slots};
ghost use Rattle.exact_io.specs.Transfers.{AppendsBeginning};
ghost use Rattle.image.specs.Images.{IsImage, image_bytes, program_of};
ghost use Rattle.image.specs.Refusals.{ReturnsParsed, size_refusal, version_read, program_read, refusal_of, parts_refusal};

use crate::code::{by_slot, code_of, write_code};
use crate::errors::ImageError;
use crate::head::{count_refusal, head_of, map_count, size_refusal, version_of};
use crate::named::maps_refusal;
use crate::rows::{room_refusal, rows_of, rows_refusal, write_rows};
use exact_io::write_bytes;
use insn_codec::decoding_laws;
use isa_model::{Insn, MAX_MAPS, MapDef, Version};
use std::alloc::{AllocError, Global};
use std::io;
use std::io::Write;
use std::marker::Model;

/// A program as it is stored: map rows, and the instructions by slot.
///
/// Contracts see its program.
#[derive(Drop)]
pub struct Image {
    version: Version,
    maps: Vec<MapDef>,
    slots: Vec<Option<Insn>>,
}

impl Model for Image {
    ghost Value = { Program };

    ghost view = { λ image. record {
      insns = image.slots.items;
      maps = image.maps.items;
      version = image.version;
    } };

    ghost invariant = { λ image. IsImage (record {
      insns = image.slots.items;
      maps = image.maps.items;
      version = image.version;
    }) };
}

// The rows and the code of an image whose sizes are right.
fn parts_of(alloc: Global, bytes: &[u8]) -> Result<(Vec<MapDef>, Vec<Option<Insn>>), ImageError>
    requires { size_refusal bytes.now ≡ None }
    ensures { ReturnsParsed (λ parts. record {
      insns = parts.1.items;
      maps = parts.0.items;
      version = version_read bytes.now;
    }) result (program_read bytes.now) }
{
    let count = map_count(bytes);
    let maps = rows_of(alloc, count, &bytes[8..])?;
    if let Some(error) = room_refusal(&maps) {
        return Err(error);
    }
    let slots = code_of(alloc, &maps, &bytes[8 + 12 * count..])?;
    Ok((maps, slots))
}

// What is wrong with map rows and code.
fn parts_refusal(maps: &[MapDef], code: &[Option<Insn>]) -> Option<ImageError>
    ensures { result ≡ parts_refusal maps.now code.now }
{
    if maps.len() > usize::from(MAX_MAPS) {
        return Some(ImageError::TooManyMaps);
    }
    if let Some(error) = count_refusal(code.len()) {
        return Some(error);
    }
    if let Some(error) = rows_refusal(maps) {
        return Some(error);
    }
    if let Some(error) = room_refusal(maps) {
        return Some(error);
    }
    maps_refusal(maps, code)
}

impl Image {
    /// The image with these bytes.
    ///
    /// Jump targets are not tested.
    pub fn parse(alloc: Global, bytes: &[u8]) -> Result<Self, ImageError>
        // The bytes of an image are accepted, and no others.
        ensures found { IfOk result (λ image. bytes.now ≡ image_bytes image) }
        ensures fits { IfOk result IsImage }
        ensures only { (p : Program) → IsImage p → bytes.now ≡ image_bytes p
            → MatchResult result (λ image. image ≡ p) (λ e. e ≡ ImageError.Memory) }

        // All others get the first refusal, running out of memory aside.
        ensures refused { MatchResult result (λ _. refusal_of bytes.now ≡ None)
            (λ e. (e ≡ ImageError.Memory) ⊎ (refusal_of bytes.now ≡ Some e)) }
    {
        decoding_laws();
        if let Some(error) = size_refusal(bytes) {
            return Err(error);
        }
        let (maps, slots) = parts_of(alloc, bytes)?;
        Ok(Image {
            version: version_of(bytes),
            maps,
            slots,
        })
    }

    /// The image of this version, these map rows and instructions.
    ///
    /// The refusals come in the order I4, I6, I5 row by row, I7, and then slot by slot I10, I11; I9
    /// is possible at any of these tests. Jump targets are not tested.
    pub fn of(
        alloc: Global,
        version: Version,
        maps: &[MapDef],
        insns: &[Insn],
    ) -> Result<Self, ImageError>
        ensures found { IfOk result
            (λ image. image ≡ program_of version maps.now insns.now) }
        ensures fits { IfOk result IsImage }

        // All that are no image get the first refusal, running out of memory aside.
        ensures refused { MatchResult result
            (λ _. parts_refusal maps.now (slots insns.now) ≡ None)
            (λ e. (e ≡ ImageError.Memory)
            ⊎ (parts_refusal maps.now (slots insns.now) ≡ Some e)) }
    {
        let slots = by_slot(alloc, insns)?;
        if let Some(error) = parts_refusal(maps, &slots) {
            return Err(error);
        }
        let mut rows = Vec::new(alloc);
        rows.extend_from_slice(maps)?;
        Ok(Image {
            version,
            maps: rows,
            slots,
        })
    }

    /// A copy of the image.
    pub fn copy(&self, alloc: Global) -> Result<Self, AllocError>
        ensures { IfOk result (λ copy. copy ≡ self.now) }
    {
        let maps = Vec::from_slice(alloc, &self.maps)?;
        let slots = Vec::from_slice(alloc, &self.slots)?;
        Ok(Image {
            version: self.version,
            maps,
            slots,
        })
    }

    /// Writes the bytes of the image.
    ///
    /// The writer's first error, of any kind, is the failure and is returned; a write of no byte is
    /// the failure `ErrorKind::WriteZero`. Nothing is tried again.
    pub fn write<W: Write>(&self, writer: &mut W) -> io::Result<()>
        ensures ok { OnOk result
            (Appends (W.contents writer.old) (W.contents writer.new) (image_bytes self.now)) }
        ensures err { OnErr result
            (AppendsBeginning (W.contents writer.old) (W.contents writer.new)
            (image_bytes self.now)) }
    {
        let (row_count, slot_count) = (self.maps.len() as u16, self.slots.len() as u16);
        let head = head_of(self.version, row_count, slot_count);
        write_bytes(writer, &head)?;
        write_rows(writer, &self.maps)?;
        write_code(writer, &self.slots)
    }

    /// 1 for an `XBP1` image, 2 for an `XBP2` one.
    pub fn version(&self) -> u8
        ensures { result ≡ version_number self.now.version }
    {
        self.version.number()
    }

    /// The map rows.
    pub fn maps(&self) -> &[MapDef]
        ensures { result.now ≡ self.now.maps }
    {
        &self.maps
    }

    /// Returns how many slots the code has.
    pub fn slots(&self) -> usize
        ensures count { result ≡ length self.now.insns }
        ensures fits { IsImage self.now }
    {
        self.slots.len()
    }

    /// Recalls that the program is an image's, for the proof of a caller that has no other clause
    /// that says so. It does nothing.
    pub fn recall(&self)
        ensures { IsImage self.now }
    {
        let _version = self.version;
    }

    /// The instructions by slot, with none at second halves.
    pub fn code(&self) -> &[Option<Insn>]
        ensures { result.now ≡ self.now.insns }
    {
        &self.slots
    }

    /// The instruction that begins at the slot: none at second halves and outside the code.
    pub fn at(&self, slot: usize) -> Option<&Insn>
        ensures { option_copied result ≡ fetch self.now slot }
    {
        self.slots.get(slot)?.as_ref()
    }
}
