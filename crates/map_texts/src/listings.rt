//! The lines of what maps hold, written map by map and key by key. No memory is taken.
ghost use Rattle.std.specs.Prelude.{◌≡◌, ◌≤◌, length, map, take, OnOk, OnErr, [], ◌∷◌};
ghost use Rattle.std.specs.Io.KnownBytes.{Appends};
ghost use Rattle.exact_io.specs.Transfers.{AppendsBeginning};
ghost use Rattle.isa_model.specs.Code.Limits.{max_key_size, max_value_size};
ghost use Rattle.isa_model.specs.Reporting.Reports.{map_line};
ghost use Rattle.maps.specs.Listing.{listed_key_values};
ghost use Rattle.maps.specs.Maps.{rows_of, contents_of};
ghost use Rattle.map_texts.specs.Listings.{FitListing, ReadsBack, lines_of, text_of};

use super::key_values::{MapLine, put_key_value};
use exact_io::write_bytes;
use isa_model::MapDef;
use maps::{KEY_ROOM, Maps, Ordered};
use std::io;
use std::io::Write;

// Writes the lines of a map's keys and values.
fn write_key_values<W: Write>(
    index: usize,
    row: MapDef,
    key_values: &Ordered<'_>,
    writer: &mut W,
) -> io::Result<()>
    requires { FitListing row (listed_key_values key_values.now) }
    ensures ok { OnOk result (Appends (W.contents writer.old) (W.contents writer.new)
        (lines_of index (listed_key_values key_values.now))) }
    ensures err { OnErr result (AppendsBeginning (W.contents writer.old) (W.contents writer.new)
        (lines_of index (listed_key_values key_values.now))) }
{
    let size = row.key_size as usize;
    let mut line = MapLine::new();
    let mut key = [0u8; KEY_ROOM];
    for k in 0..row.entries as usize {
        match key_values.key_value(k, &mut key) {
            Some(value) => {
                put_key_value(&mut line, index, &key[..size], value);
                match write_bytes(writer, line.as_slice()) {
                    Ok(()) => {}
                    Err(error) => return Err(error),
                }
            }
            None => return Ok(()),
        }
    }
    Ok(())
}

/// Writes a line for each key of each map, as a report has them. `fill_maps` reads them. The maps
/// stay as they are.
///
/// The writer's first error, of any kind, is the failure and is returned; a write of no byte is the
/// failure `ErrorKind::WriteZero`. Nothing is tried again.
pub fn write_maps<W: Write>(maps: &mut Maps, writer: &mut W) -> io::Result<()>
    ensures ok { OnOk result (Appends (W.contents writer.old) (W.contents writer.new)
        (text_of (rows_of maps.old) (contents_of maps.old))) }
    ensures err { OnErr result (AppendsBeginning (W.contents writer.old) (W.contents writer.new)
        (text_of (rows_of maps.old) (contents_of maps.old))) }
    ensures read_back { ReadsBack (rows_of maps.old) (contents_of maps.old) }
    ensures stay { maps.new ≡ maps.old }
{
    for i in 0..maps.count() {
        let row = maps.row(i);
        let key_values = maps.order(i);
        match write_key_values(i, row, &key_values, writer) {
            Ok(()) => {}
            Err(error) => return Err(error),
        }
    }
    Ok(())
}
