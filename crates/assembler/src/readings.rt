//! What statements are read as.

use isa_model::{Insn, MapDef};

/// An instruction. Where its target is a name, the distance in it is 0 for now, and `name` is the
/// index of the token that is the name.
#[derive(Clone, Copy)]
pub struct Reading {
    pub insn: Insn,
    pub name: Option<usize>,
}

/// Says what the tokens of a statement spell, without its label. A number too large for a map line
/// or for the load of a map counts as the most of its field.
#[derive(Clone, Copy)]
pub enum Statement {
    Empty,
    /// `version 2`.
    Version,
    /// A map line.
    Row(MapDef),
    Instruction(Reading),
}
