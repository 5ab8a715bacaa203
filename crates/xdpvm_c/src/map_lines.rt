//! Exports on the texts that fill the maps of an open program, and that list them.

ghost use Rattle.std.specs.Prelude.{◌≡◌, ◌≢◌, ◌↔◌, None};
ghost use Rattle.machine.specs.Texts.{FillsMaps};
ghost use Rattle.calls.specs.OpenSessions.{HoldsOpen, StaysOpen};
ghost use Rattle.calls.specs.MapTexts.{IsFilling, IsListing, ListsMaps, ReadsBackMaps, RefusesMaps, no_map_refusal};

use calls::Session;
use calls::buffers::TextSize;
use calls::filling::{MapRefusal, fill_session};
use calls::listing::list_session;
use calls::statuses::{OK, REFUSED, WRONG};
use std::alloc::Global;

/// Fills the maps of an open program by the lines of a text, each an update with the flag ANY, up
/// to the first line that is refused. What the lines before it did stays.
#[unsafe(no_mangle)]
pub extern "C" fn xdpvm_fill(
    alloc: Global,
    session: &mut Session,
    text: &[u8],
    out: &mut MapRefusal,
) -> u32
    ensures filled { result ≡ OK → StaysOpen session.old.held session.new.held
        (FillsMaps text.now None) }
    ensures alone { result ≡ OK → out.new ≡ no_map_refusal }
    ensures wrong { (result ≡ WRONG) ↔ (session.old.held ≡ None) }
    ensures refused { result ≡ REFUSED → StaysOpen session.old.held session.new.held
        (RefusesMaps text.now out.new) }
    ensures session_kept { result ≡ WRONG → session.new.held ≡ session.old.held }
    ensures out_kept { result ≡ WRONG → out.new ≡ out.old }
    ensures status { IsFilling result }
{
    fill_session(alloc, session, text, out)
}

/// Writes the lines of an open program's maps, as a report has them, as far as there is room.
/// `xdpvm_fill` reads them. It takes memory for all of them.
#[unsafe(no_mangle)]
pub extern "C" fn xdpvm_list(
    alloc: Global,
    session: &mut Session,
    buffer: &mut [u8],
    out: &mut TextSize,
) -> u32
    ensures listed { result ≡ OK → HoldsOpen session.old.held
        (ListsMaps buffer.old buffer.new out.new.size) }
    ensures read_back { result ≡ OK → HoldsOpen session.old.held ReadsBackMaps }
    ensures wrong { (result ≡ WRONG) ↔ (session.old.held ≡ None) }
    ensures session_kept { session.new.held ≡ session.old.held }
    ensures buffer_kept { result ≢ OK → buffer.new ≡ buffer.old }
    ensures out_kept { result ≢ OK → out.new ≡ out.old }
    ensures status { IsListing result }
{
    list_session(alloc, session, buffer, out)
}
