//! Reads a text, and fills maps by its lines.

ghost use Rattle.std.specs.Prelude.{◌≡◌, ◌+◌, ◌*◌, ◌^◌, ◌<◌, ◌≤◌, length, take, drop, slice_range};
ghost use Rattle.isa_model.specs.Reporting.Streams.{ByEnd};
ghost use Rattle.maps.specs.Maps.{rows_of, contents_of};
ghost use Rattle.map_texts.specs.Fillings.{filled_by};
ghost use Rattle.map_texts.specs.Lines.{longest_line, most_line_size};
ghost use Rattle.map_texts.specs.Reading.{AreFilledFrom, filled_of};
ghost use Rattle.map_texts.specs.Progress.{TakesLines, Keeps, TakesBytes};

use super::errors::{MapTextError, MapTextErrorKind};
use super::fields::FIELD_ROOM;
use super::lines::{LineRoom, is_passed, take_line};
use super::longest::longest_line;
use maps::Maps;
use std::io::Read;

// Bytes of the buffer, of which the longest line fills about half.
const BUFFER_SIZE: usize = 16384;

// The most reads of a source.
const MOST_READS: u64 = 1 << 48;

// As many bytes of a line as say whether it is passed over.
const FRONT_SIZE: usize = 5;

/// Says where the first line begins that is not whole yet, and its number.
#[derive(Clone, Copy)]
pub struct Taken {
    pub start: usize,
    pub number: usize,
}

/// The part of a line that was read: how many bytes of it are kept, and the line's number.
#[derive(Clone, Copy)]
pub struct Pending {
    pub len: usize,
    pub number: usize,
}

// Does what all lines say that are whole.
fn take_lines(
    maps: &mut Maps,
    longest: usize,
    bytes: &[u8],
    number: usize,
    room: &mut LineRoom,
) -> Result<Taken, MapTextError>
    requires longest { longest ≡ longest_line (rows_of maps.old) }
    requires most { longest ≤ most_line_size }
    requires number { number + length bytes.now < 2 ^ 64 }
    ensures rows { rows_of maps.new ≡ rows_of maps.old }
    ensures taken { TakesLines (rows_of maps.old) number (contents_of maps.old)
        (contents_of maps.new) bytes.now result }
{
    let mut taken = Taken { start: 0, number };
    for at in 0..bytes.len() {
        if bytes[at] == b'\n' {
            match take_line(maps, longest, &bytes[taken.start..at], taken.number, room) {
                Ok(()) => {}
                Err(error) => return Err(error),
            }
            taken = Taken {
                start: at + 1,
                number: taken.number + 1,
            };
        }
    }
    Ok(taken)
}

// How much of a line that is not whole has to be kept: only the front of one that is passed over,
// and nothing of one that is too long.
fn kept_len(longest: usize, line: &[u8]) -> Option<usize>
    ensures { Keeps longest line.now result }
{
    if is_passed(line) {
        return Some(line.len().min(FRONT_SIZE));
    }
    if line.len() > longest {
        return None;
    }
    Some(line.len())
}

// Moves bytes to the front.
fn move_front(buffer: &mut [u8; BUFFER_SIZE], start: usize, len: usize)
    requires { start + len ≤ BUFFER_SIZE }
    ensures { take len buffer.new ≡ take len (drop start buffer.old) }
{
    if start == 0 {
        return;
    }
    for i in 0..len {
        buffer[i] = buffer[start + i];
    }
}

// Does what the lines say that are whole in the first `end` bytes of the buffer, and moves what
// follows them to its front.
fn take_bytes(
    maps: &mut Maps,
    longest: usize,
    buffer: &mut [u8; BUFFER_SIZE],
    end: usize,
    number: usize,
    room: &mut LineRoom,
) -> Result<Pending, MapTextError>
    requires longest { longest ≡ longest_line (rows_of maps.old) }
    requires most { longest ≤ most_line_size }
    requires end { end ≤ BUFFER_SIZE }
    requires number { number + BUFFER_SIZE < 2 ^ 64 }
    ensures rows { rows_of maps.new ≡ rows_of maps.old }
    ensures taken { TakesBytes (rows_of maps.old) number (contents_of maps.old)
        (contents_of maps.new) (take end buffer.old) buffer.new result }
{
    let taken = match take_lines(maps, longest, &buffer[..end], number, room) {
        Ok(taken) => taken,
        Err(error) => return Err(error),
    };
    match kept_len(longest, &buffer[taken.start..end]) {
        Some(len) => {
            move_front(buffer, taken.start, len);
            Ok(Pending {
                len,
                number: taken.number,
            })
        }
        None => { Err(MapTextError::at(MapTextErrorKind::LongLine, taken.number, longest + 1)) }
    }
}

/// Fills maps by the lines of the text that a source returns, one after another: each gives a key
/// its value, as an update with the flag ANY does.
///
/// The first line that is refused ends the call; those before it stay done. The source's first
/// error, of any kind, is the failure, and nothing is tried again; at most 2^48 reads are made. No
/// memory is taken.
pub fn fill_maps<R: Read>(maps: &mut Maps, source: &mut R) -> Result<(), MapTextError>
    ensures { AreFilledFrom (R.remaining source.old) maps.old maps.new result }
{
    let longest = longest_line(maps);
    let mut room = LineRoom::new();
    let mut buffer = [0; BUFFER_SIZE];
    let mut pending = Pending { len: 0, number: 1 };
    for _reads in 0..MOST_READS {
        let Pending { len, number } = pending;
        match source.read(&mut buffer[len..]) {
            Ok(count) => {
                if count == 0 {
                    return take_line(maps, longest, &buffer[..len], number, &mut room);
                }
                let end = len + count;
                match take_bytes(maps, longest, &mut buffer, end, number, &mut room) {
                    Ok(next) => pending = next,
                    Err(error) => return Err(error),
                }
            }
            Err(_) => return Err(MapTextError::at(MapTextErrorKind::ReadFailed, number, 1)),
        }
    }
    Err(MapTextError::at(MapTextErrorKind::ReadFailed, pending.number, 1))
}

/// Fills maps by the lines of a text in memory, as `fill_maps` does by those that a source returns.
///
/// The first line that is refused ends the call; those before it stay done. No memory is taken.
pub fn fill_maps_by(maps: &mut Maps, text: &[u8]) -> Result<(), MapTextError>
    ensures rows { rows_of maps.new ≡ rows_of maps.old }
    ensures filled { filled_of maps.new result
        ≡ filled_by (rows_of maps.old) (contents_of maps.old)
        (record { bytes = text.now; ending = ByEnd }) }
{
    let longest = longest_line(maps);
    let mut room = LineRoom::new();
    match take_lines(maps, longest, text, 1, &mut room) {
        Ok(taken) => {
            let line = &text[taken.start..];
            take_line(maps, longest, line, taken.number, &mut room)
        }
        Err(error) => Err(error),
    }
}
