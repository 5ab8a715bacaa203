//! The call that fills the maps of an open program by the lines of a text.

ghost use Rattle.std.specs.Prelude.{◌≡◌, ◌≢◌, ◌↔◌, None};
ghost use Rattle.machine.specs.Texts.{FillsMaps};
ghost use Rattle.map_texts.specs.Messages.{code_of};
ghost use Rattle.calls.specs.Numbers.{code_number};
ghost use Rattle.calls.specs.OpenSessions.{StaysOpen};
ghost use Rattle.calls.specs.MapTexts.{IsFilling, RefusesMaps, no_map_refusal, refused_line};

use crate::sessions::Session;
use crate::statuses::{OK, REFUSED, WRONG};
use map_texts::{MapTextError, MapTextErrorKind};
use std::alloc::Global;

/// Says why a text of maps is refused: the number of the code, 3 for M3, and the line and the
/// column, which count from 1. All are 0 where no line is refused.
#[repr(C)]
#[derive(Clone, Copy, Drop)]
pub struct MapRefusal {
    pub line: usize,
    pub column: usize,
    pub code: u32,
}

fn number_of(kind: MapTextErrorKind) -> u32
    ensures { result ≡ code_number (code_of kind) }
{
    match kind {
        MapTextErrorKind::NoForm => 1,
        MapTextErrorKind::NoMap => 2,
        MapTextErrorKind::KeySize => 3,
        MapTextErrorKind::ValueSize => 4,
        MapTextErrorKind::NoRoom => 5,
        MapTextErrorKind::LongLine => 6,
        MapTextErrorKind::ReadFailed => 7,
    }
}

fn refused_line(error: MapTextError) -> MapRefusal
    ensures { result ≡ refused_line error }
{
    MapRefusal {
        line: error.line,
        column: error.column,
        code: number_of(error.kind),
    }
}

/// Fills the maps of an open program by the lines of a text, each an update with the flag ANY, up
/// to the first line that is refused. What the lines before it did stays.
pub fn fill_session(alloc: Global, session: &mut Session, text: &[u8], out: &mut MapRefusal) -> u32
    ensures filled { result ≡ OK → StaysOpen session.old.held session.new.held
        (FillsMaps text.now None) }
    ensures alone { result ≡ OK → out.new ≡ no_map_refusal }
    ensures wrong { (result ≡ WRONG) ↔ (session.old.held ≡ None) }
    ensures refused { result ≡ REFUSED → StaysOpen session.old.held session.new.held
        (RefusesMaps text.now out.new) }
    ensures session_kept { result ≡ WRONG → session.new.held ≡ session.old.held }
    ensures out_kept { result ≡ WRONG → out.new ≡ out.old }
    ensures status { IsFilling result }
{
    let Some(mut machine) = session.take(alloc) else {
        return WRONG;
    };
    let filled = machine.fill(text);
    session.put(machine);
    match filled {
        Ok(()) => {
            *out = MapRefusal {
                line: 0,
                column: 0,
                code: 0,
            };
            OK
        }
        Err(error) => {
            *out = refused_line(error);
            REFUSED
        }
    }
}
