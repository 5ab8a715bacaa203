//! Texts as JSON.

use serde_json::Value;
use std::alloc::{AllocError, Global};

/// A text as a JSON string, in quotes.
pub fn quoted(alloc: Global, text: &str) -> Result<String, AllocError> {
    let owned = String::from_str(alloc, text)?;
    Value::from(owned).to_string(alloc)
}

/// A text as a JSON string, or null.
pub fn quoted_or_null(alloc: Global, text: Option<&str>) -> Result<String, AllocError> {
    match text {
        Some(text) => quoted(alloc, text),
        None => String::from_str(alloc, "null"),
    }
}
