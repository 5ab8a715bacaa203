//! Programs from text.
//!
//! Bytes become tokens (`lexemes`), the tokens of a statement an instruction (`statements`), and
//! instructions with their names a program (`draft`, `assembly`). `specs/` has a definition for
//! each of these. The last of them, `assembled`, is the program that the whole text spells, or why
//! it spells none. The code returns just what the definitions say, or that memory ran out.
#![tactic(auto)]

mod assembly;
mod assignments;
mod code;
mod draft;
pub mod errors;
mod fronts;
mod gaps;
mod hints;
pub mod lexemes;
mod map_lines;
mod map_tests;
mod names;
mod numbers;
mod operands;
mod parts;
mod readings;
mod refusals;
mod settling;
mod showing;
mod signs;
mod statements;
pub mod tokens;
mod words;
mod wrong;

pub use assembly::assemble;
pub use errors::{AsmError, AsmErrorKind};
pub use gaps::{Gap, IdlePart, idle_part};
pub use lexemes::{lexeme_at, token_len};
pub use numbers::line_len;
pub use settling::is_text_settled;
pub use showing::shown;
pub use tokens::{Lexeme, Sign, Token, Word};
