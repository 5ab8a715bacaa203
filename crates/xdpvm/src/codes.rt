//! What a code of a refusal means.

ghost use Rattle.xdpvm.specs.Serving.{ExplainsCode};

use commands::{TaskOutcome, say_line};
use messages::entry_of;
use std::io::Write;

const NO_CODE: &str =
    "error: there is no such code: codes are a letter and a number, as V9, or a trap reason\n";

/// Prints the entry of a code.
pub fn explain_code<'a, W: Write>(code: &'a str, out: &mut W) -> TaskOutcome<'a>
    ensures { ExplainsCode code.now (W.contents out.old) (W.contents out.new) result }
{
    match entry_of(code) {
        Some(text) => say_line(text, TaskOutcome::Done, out),
        None => TaskOutcome::WrongWords(NO_CODE),
    }
}
