//! What is written to a buffer whose bytes are all 7 at first.

/// Returns whether a buffer begins with these bytes, and nothing is written right after them.
pub fn holds(buffer: &[u8], bytes: &[u8]) -> bool {
    let next = match buffer.get(bytes.len()) {
        Some(next) => *next,
        None => 7,
    };
    next == 7 && buffer.starts_with(bytes)
}
