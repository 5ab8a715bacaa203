//! The call that lists the maps of an open program.

ghost use Rattle.std.specs.Prelude.{◌≡◌, ◌≢◌, ◌↔◌, None, IfSome};
ghost use Rattle.map_texts.specs.Listings.{text_of};
ghost use Rattle.calls.specs.OpenSessions.{HoldsOpen};
ghost use Rattle.calls.specs.MapTexts.{IsListing, ListsMaps, ReadsBackMaps};

use crate::buffers::{TextSize, fill};
use crate::sessions::Session;
use crate::statuses::{MEMORY, OK, WRONG};
use machine::Machine;
use std::alloc::Global;

// The lines of a machine's maps. None: memory ran out.
fn lines_of(alloc: Global, machine: &mut Machine) -> Option<Vec<u8>>
    ensures lines { IfSome result
        (λ lines. lines.items ≡ text_of machine.old.program.maps machine.old.contents) }
    ensures read_back { ReadsBackMaps machine.old }
    ensures same { machine.new ≡ machine.old }
{
    let mut lines = Vec::new(alloc);
    match machine.list(&mut lines) {
        Ok(()) => Some(lines),
        Err(_) => None,
    }
}

/// Writes the lines of an open program's maps, as a report has them, as far as there is room.
/// `fill_session` reads them. It takes memory for all of them.
pub fn list_session(
    alloc: Global,
    session: &mut Session,
    buffer: &mut [u8],
    out: &mut TextSize,
) -> u32
    ensures listed { result ≡ OK → HoldsOpen session.old.held
        (ListsMaps buffer.old buffer.new out.new.size) }
    ensures read_back { result ≡ OK → HoldsOpen session.old.held ReadsBackMaps }
    ensures wrong { (result ≡ WRONG) ↔ (session.old.held ≡ None) }
    ensures session_kept { session.new.held ≡ session.old.held }
    ensures buffer_kept { result ≢ OK → buffer.new ≡ buffer.old }
    ensures out_kept { result ≢ OK → out.new ≡ out.old }
    ensures status { IsListing result }
{
    let Some(mut machine) = session.take(alloc) else {
        return WRONG;
    };
    let lines = lines_of(alloc, &mut machine);
    session.put(machine);
    let Some(lines) = lines else {
        return MEMORY;
    };
    *out = TextSize {
        size: fill(buffer, lines.as_slice()),
    };
    OK
}
