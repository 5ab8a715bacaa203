//! The call that says what an image has: its version, its slots and its map rows.

ghost use Rattle.std.specs.Prelude.{◌≡◌, ◌≢◌};
ghost use Rattle.calls.specs.Crossing.{IsVerdictStatus};
ghost use Rattle.calls.specs.Verdicts.{IsNoImage};
ghost use Rattle.calls.specs.Listings.{DescribesImage, row_in_numbers, rows_filled, type_number};

use crate::statuses::{MEMORY, OK, REFUSED};
use image::{Image, ImageError};
use isa_model::{MapDef, MapType};
use std::alloc::Global;

/// A row of a map: its type, 1 for a hash map and 2 for an array, the sizes in bytes of a key and
/// of a value, and the most keys.
#[repr(C)]
#[derive(Clone, Copy, Drop)]
pub struct MapRow {
    pub kind: u32,
    pub key_size: u32,
    pub value_size: u32,
    pub entries: u32,
}

/// Says what an image has: how many slots, and how many map rows, and its version, 1 or 2.
#[repr(C)]
#[derive(Clone, Copy, Drop)]
pub struct Described {
    pub slots: usize,
    pub maps: usize,
    pub version: u32,
}

fn type_number(kind: MapType) -> u32
    ensures { result ≡ type_number kind }
{
    match kind {
        MapType::Hash => 1,
        MapType::Array => 2,
    }
}

fn row_in_numbers(row: MapDef) -> MapRow
    ensures { result ≡ row_in_numbers row }
{
    MapRow {
        kind: type_number(row.kind),
        key_size: u32::from(row.key_size),
        value_size: row.value_size,
        entries: row.entries,
    }
}

// Writes as many rows as there is room for.
fn fill_rows(room: &mut [MapRow], rows: &[MapDef])
    ensures { room.new ≡ rows_filled room.old rows.now }
{
    for i in 0..rows.len().min(room.len()) {
        room[i] = row_in_numbers(rows[i]);
    }
}

/// Says what an image has; its map rows are written as far as there is room. Its program is not
/// verified.
pub fn describe_image(alloc: Global, image: &[u8], rows: &mut [MapRow], out: &mut Described) -> u32
    ensures described { result ≡ OK → DescribesImage image.now rows.old rows.new out.new }
    ensures refused { result ≡ REFUSED → IsNoImage image.now }
    ensures rows_kept { result ≢ OK → rows.new ≡ rows.old }
    ensures out_kept { result ≢ OK → out.new ≡ out.old }
    ensures status { IsVerdictStatus result }
{
    let image = match Image::parse(alloc, image) {
        Ok(image) => image,
        Err(ImageError::Memory) => return MEMORY,
        Err(_) => return REFUSED,
    };
    fill_rows(rows, image.maps());
    *out = Described {
        slots: image.slots(),
        maps: image.maps().len(),
        version: u32::from(image.version()),
    };
    OK
}
