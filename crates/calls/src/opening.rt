//! Calls that open and close sessions.

ghost use Rattle.std.specs.Prelude.{◌≡◌, ◌≢◌, ◌↔◌, ◌⊎◌, is_some, None, Some};
ghost use Rattle.isa_model.specs.Reporting.Reports.{starting_contents};
ghost use Rattle.calls.specs.Crossing.{IsStatus};
ghost use Rattle.calls.specs.Verdicts.{IsRefusedImage};
ghost use Rattle.calls.specs.Tables.{IsRefusedTable};
ghost use Rattle.calls.specs.OpenSessions.{OpensSession, OpensByTable};

use crate::judging::verified_of;
use crate::rechecks::table_verified;
use crate::running::machine_of;
use crate::sessions::Session;
use crate::statuses::{MEMORY, NotAccepted, OK, REFUSED, WRONG};
use bounds::Verified;
use std::alloc::Global;

// Opens a session on an accepted program, with starting maps.
fn open(alloc: Global, verified: Verified, session: &mut Session) -> u32
    ensures opened { result ≡ OK → session.new.held ≡ Some (record {
      program = verified.program;
      bound = verified.bound;
      contents = starting_contents verified.program.maps;
    }) }
    ensures kept { result ≢ OK → session.new.held ≡ session.old.held }
    ensures status { (result ≡ OK) ⊎ (result ≡ MEMORY) }
{
    let Some(machine) = machine_of(alloc, verified) else {
        return MEMORY;
    };
    match Box::new(alloc, machine) {
        Ok(machine) => {
            session.put(machine);
            OK
        }
        Err(_) => MEMORY,
    }
}

// Whether a session holds a machine.
fn is_open(alloc: Global, session: &mut Session) -> bool
    ensures says { result ≡ is_some session.old.held }
    ensures same { session.new.held ≡ session.old.held }
{
    match session.take(alloc) {
        Some(machine) => {
            session.put(machine);
            true
        }
        None => false,
    }
}

/// Verifies an image, and opens a session on its program, with starting maps. Before the call the
/// session is closed: all zero bytes, or what `close_session` left.
pub fn open_image(alloc: Global, image: &[u8], session: &mut Session) -> u32
    ensures opened { result ≡ OK → OpensSession image.now session.new.held }
    ensures wrong { (result ≡ WRONG) ↔ (session.old.held ≢ None) }
    ensures refused { result ≡ REFUSED → IsRefusedImage image.now }
    ensures kept { result ≢ OK → session.new.held ≡ session.old.held }
    ensures status { IsStatus result }
{
    if is_open(alloc, session) {
        return WRONG;
    }
    match verified_of(alloc, image) {
        Ok(verified) => open(alloc, verified, session),
        Err(NotAccepted::Refused) => REFUSED,
        Err(NotAccepted::Memory) => MEMORY,
    }
}

/// Opens a session on the program of an image that a proof table shows to be safe, whoever made the
/// table: the session has the bound that the table shows.
pub fn open_with_table(alloc: Global, image: &[u8], table: &[u8], session: &mut Session) -> u32
    ensures opened { result ≡ OK → OpensByTable image.now table.now session.new.held }
    ensures wrong { (result ≡ WRONG) ↔ (session.old.held ≢ None) }
    ensures refused { result ≡ REFUSED → IsRefusedTable image.now table.now }
    ensures kept { result ≢ OK → session.new.held ≡ session.old.held }
    ensures status { IsStatus result }
{
    if is_open(alloc, session) {
        return WRONG;
    }
    match table_verified(alloc, image, table) {
        Ok(verified) => open(alloc, verified, session),
        Err(NotAccepted::Refused) => REFUSED,
        Err(NotAccepted::Memory) => MEMORY,
    }
}

/// Closes a session, and frees its memory. A closed one stays closed.
pub fn close_session(alloc: Global, session: &mut Session)
    ensures { session.new.held ≡ None }
{
    let _machine = session.take(alloc);
}
