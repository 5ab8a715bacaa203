//! What docs/REFUSALS.md says of each code that the programs print.

ghost use Rattle.std.specs.Prelude.{IfSome};
ghost use Rattle.messages.specs.Entries.{IsEntryOf};

mod images;
mod programs;
mod streams;
mod tables;
mod texts;
mod traps;
mod verdicts;

/// Returns the entry of a code, such as `V9`, or of a trap reason, in whole lines. None: nothing
/// has that code.
pub fn entry_of(code: &str) -> Option<&'static str>
    ensures { IfSome result (λ text. IsEntryOf code.now text.now) }
{
    if let Some(text) = texts::entry(code) {
        return Some(text);
    }
    if let Some(text) = images::entry(code) {
        return Some(text);
    }
    if let Some(text) = programs::entry(code) {
        return Some(text);
    }
    if let Some(text) = verdicts::entry(code) {
        return Some(text);
    }
    if let Some(text) = tables::entry(code) {
        return Some(text);
    }
    if let Some(text) = streams::entry(code) {
        return Some(text);
    }
    traps::entry(code)
}
