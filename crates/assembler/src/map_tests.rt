//! Tests of map lines, loads of maps and version lines: which are not allowed where they are.

ghost use Rattle.std.specs.Prelude.{◌≡◌, ◌+◌, ◌*◌, sum_by, nat_le};
ghost use Rattle.image.specs.Images.{room_of};
ghost use Rattle.image.specs.Refusals.{is_array};
ghost use Rattle.isa_model.specs.declared.limits.TheConstants.{MAX_MAP_ROOM};
ghost use Rattle.assembler.specs.MapTests.{takes_row, objection_to_index, objection_to_value, objection_to_load, objection};

use super::errors::AsmErrorKind;
use super::readings::Statement;
use super::wrong::Objection;
use image::row_fits;
use isa_model::{Insn, MAX_MAP_ROOM, MAX_MAPS, MapDef, MapType};

// How many bytes a map's keys and values take.
fn room_of(row: &MapDef) -> u128
    ensures { result ≡ room_of row.now }
{
    u128::from(row.entries) * (u128::from(row.key_size) + u128::from(row.value_size))
}

// Whether there is room for one map more.
fn has_map_room(maps: &[MapDef], row: &MapDef) -> bool
    ensures { result ≡ nat_le (sum_by room_of maps.now + room_of row.now) MAX_MAP_ROOM }
{
    let Some(mut left) = u128::from(MAX_MAP_ROOM).checked_sub(room_of(row)) else {
        return false;
    };
    for other in maps {
        match left.checked_sub(room_of(other)) {
            Some(rest) => left = rest,
            None => return false,
        }
    }
    true
}

fn takes_row(insns: &[Insn], maps: &[MapDef], row: &MapDef) -> bool
    ensures { result ≡ takes_row insns.now maps.now row.now }
{
    insns.is_empty()
        && maps.len() < usize::from(MAX_MAPS)
        && row_fits(row)
        && has_map_room(maps, row)
}

fn objection_to_index(maps: &[MapDef], map: u32) -> Option<Objection>
    ensures { result ≡ objection_to_index maps.now map }
{
    if (map as usize) < maps.len() {
        None
    } else {
        Some(Objection {
            kind: AsmErrorKind::NoMap,
            token: 4,
        })
    }
}

fn is_array(kind: MapType) -> bool
    ensures { result ≡ is_array kind }
{
    match kind {
        MapType::Array => true,
        MapType::Hash => false,
    }
}

fn objection_to_value(row: Option<MapDef>, offset: u32) -> Option<Objection>
    ensures { result ≡ objection_to_value row offset }
{
    let Some(row) = row else {
        return Some(Objection {
            kind: AsmErrorKind::NoMap,
            token: 6,
        });
    };
    if is_array(row.kind) && row.entries == 1 {
        if offset < row.value_size {
            None
        } else {
            Some(Objection {
                kind: AsmErrorKind::PastValue,
                token: 10,
            })
        }
    } else {
        Some(Objection {
            kind: AsmErrorKind::NotOneValue,
            token: 6,
        })
    }
}

fn objection_to_load(maps: &[MapDef], insn: Insn) -> Option<Objection>
    ensures { result ≡ objection_to_load maps.now insn }
{
    match insn {
        Insn::LoadMap(_, map) => objection_to_index(maps, map),
        Insn::LoadMapValue(_, map, offset) => {
            objection_to_value(maps.get(map as usize).copied(), offset)
        }
        _ => None,
    }
}

/// Returns what is wrong with the statement after these instructions and map rows: a map line that
/// may not follow them, or the load of a map that they do not have; or a version line that is not
/// the first statement.
pub fn objection(
    first: bool,
    insns: &[Insn],
    maps: &[MapDef],
    statement: Statement,
) -> Option<Objection>
    ensures { result ≡ objection first insns.now maps.now statement }
{
    match statement {
        Statement::Empty => None,
        Statement::Version => {
            if first {
                None
            } else {
                Some(Objection {
                    kind: AsmErrorKind::LateVersion,
                    token: 0,
                })
            }
        }
        Statement::Row(row) => {
            if takes_row(insns, maps, &row) {
                None
            } else {
                Some(Objection {
                    kind: AsmErrorKind::MapLine,
                    token: 0,
                })
            }
        }
        Statement::Instruction(reading) => objection_to_load(maps, reading.insn),
    }
}
