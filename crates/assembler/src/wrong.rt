//! Why a statement is refused.

use super::errors::AsmErrorKind;

/// Says why the tokens of a statement spell nothing.
#[derive(Clone, Copy)]
pub enum Wrong {
    /// No form fits.
    Form,
    /// The number at this token, or after the sign at it, is out of range.
    Range(usize),
}

/// Says what is wrong with a map line, a version line or the load of a map, and the index of the
/// token at which it is.
#[derive(Clone, Copy)]
pub struct Objection {
    pub kind: AsmErrorKind,
    pub token: usize,
}
