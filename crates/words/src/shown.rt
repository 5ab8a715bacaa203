//! Messages about arguments, with the control characters in them as escapes.

use std::alloc::{AllocError, Global};

// Adds a character as it is shown: a control character, which a terminal would obey, as an escape.
fn show(alloc: Global, shown: &mut String, character: char) -> Result<(), AllocError> {
    if character == '\n' || !character.is_control() {
        return shown.push(character);
    }
    let code = u32::from(character);
    let escape = format!(in alloc; "\\x{code:02x}")?;
    shown.push_str(escape.as_str())
}

/// A message in which each control character, such as one of an argument, is an escape such as
/// `\x1b`. The ends of its lines stay.
pub fn shown_lines(alloc: Global, text: &str) -> Result<String, AllocError> {
    let mut lines = String::new(alloc);
    for character in text.chars() {
        show(alloc, &mut lines, character)?;
    }
    Ok(lines)
}
