//! The maps that instructions name.

ghost use Rattle.std.specs.Prelude.{◌≡◌};
ghost use Rattle.image.specs.Refusals.{holds_offset, map_refusal, maps_refusal};

use crate::errors::ImageError;
use isa_model::{Insn, MapDef, MapType};

// Whether the map is an array of one key, and the offset is within its value.
fn holds_offset(offset: u32, row: &MapDef) -> bool
    ensures { result ≡ holds_offset offset row.now }
{
    matches!(row.kind, MapType::Array) && row.entries == 1 && offset < row.value_size
}

/// Returns what is wrong with the map that the instruction at a slot names: that it has no row, or
/// that a pointer to its value may not be loaded.
pub fn map_refusal(maps: &[MapDef], slot: usize, insn: &Insn) -> Option<ImageError>
    ensures { result ≡ map_refusal maps.now slot insn.now }
{
    match *insn {
        Insn::LoadMap(_, map) if (map as usize) < maps.len() => None,
        Insn::LoadMap(_, _) => Some(ImageError::UnknownMap(slot)),
        Insn::LoadMapValue(_, map, offset) => match maps.get(map as usize) {
            None => Some(ImageError::UnknownMap(slot)),
            Some(row) if holds_offset(offset, row) => None,
            Some(_) => Some(ImageError::ValuePointer(slot)),
        },
        _ => None,
    }
}

/// The first refusal of a map that an instruction names, slot by slot.
pub fn maps_refusal(maps: &[MapDef], code: &[Option<Insn>]) -> Option<ImageError>
    ensures { result ≡ maps_refusal maps.now 0 code.now }
{
    for (slot, found) in code.iter().enumerate() {
        if let Some(insn) = found {
            if let Some(error) = map_refusal(maps, slot, insn) {
                return Some(error);
            }
        }
    }
    None
}
