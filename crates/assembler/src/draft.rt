//! A program while its text is read.

ghost use Rattle.std.specs.Prelude.{◌≡◌, ◌==◌, ◌≤◌, if◌then◌else◌, length, map, drop, slice_get, [], Ok, IfErr, IfSome, IsTrue, OnOk};
ghost use Rattle.assembler.specs.declared.tokens.Lexeme.TheVariants as Lexeme;
ghost use Rattle.assembler.specs.declared.errors.AsmErrorKind.TheVariants as AsmErrorKind;
ghost use Rattle.assembler.specs.declared.readings.Statement.TheVariants as Statement;
ghost use Rattle.assembler.specs.Labelled.{is_label, label_length, has_form};
ghost use Rattle.assembler.specs.Assembling.{start, at_end, ended, added, named, is_first, with_use, refused_by, refusal_of, offset_or, IsAsWanted};
ghost use Rattle.assembler.specs.Drafts.{span_of, progress_of, shortened, accept_short, ChangesNothing};
ghost use Rattle.assembler.specs.Naming.{use_of};

use super::code::AssembledCode;
use super::errors::AsmErrorKind;
use super::map_tests::objection;
use super::names::{Labels, Use, define};
use super::operands::is_name;
use super::parts::{token_in, zeroed};
use super::readings::{Reading, Statement};
use super::refusals::Refusal;
use super::statements::{fits_form, spelled_behind};
use super::wrong::{Objection, Wrong};
use crate::{Lexeme, Sign, Token, line_len, token_len};
use indexmap::IndexMap;
use isa_model::{MapDef, Version};
use std::alloc::Global;

// More tokens than a label and the longest form have, which are 15. Of a longer statement no more
// are kept: its others are read, and change nothing.
const MOST_TOKENS: usize = 16;

/// Says where a token begins in the text, and its bytes.
#[derive(Clone, Copy)]
pub struct Span<'a> {
    pub offset: usize,
    pub bytes: &'a [u8],
}

/// The statement so far, and the program before it.
#[derive(Drop)]
pub struct Draft<'a> {
    pub tokens: Vec<Token>,
    pub spans: Vec<Span<'a>>,
    pub version: Version,
    pub maps: Vec<MapDef>,
    pub code: AssembledCode,
    pub labels: Labels<'a>,
    pub uses: Vec<Use<'a>>,
}

// Whether a statement that begins with these tokens has a label: a name, and a colon after it.
fn is_label(first: Option<Token>, second: Option<Token>) -> bool
    ensures { result ≡ is_label first second }
{
    match (first, second) {
        (Some(Token::Named(word)), Some(Token::Signed(Sign::Colon))) => is_name(word),
        _ => false,
    }
}

impl<'a> Draft<'a> {
    /// The draft before the first token: version 1, and nothing else.
    pub fn new(alloc: Global) -> Self
        ensures { progress_of result ≡ start }
    {
        Draft {
            tokens: Vec::new(alloc),
            spans: Vec::new(alloc),
            version: Version::One,
            maps: Vec::new(alloc),
            code: AssembledCode::new(alloc),
            labels: IndexMap::new(alloc),
            uses: Vec::new(alloc),
        }
    }

    /// Takes the next lexeme of the text.
    pub fn accept(&mut self, lexeme: Lexeme, span: Span<'a>) -> Result<(), Refusal>
        ensures { IsAsWanted (λ _. progress_of self.new) result
            (accept_short (progress_of self.old) lexeme (span_of span.entry)) }
    {
        match lexeme {
            Lexeme::Blank => Ok(()),
            Lexeme::End => self.close(),
            Lexeme::Solid(token) => self.take(token, span),
        }
    }

    /// Returns how many bytes the text's first lexeme has, if it surely changes nothing: a blank,
    /// an end of an empty statement, or one of too many tokens.
    pub fn passes(&self, text: &[u8]) -> Option<usize>
        ensures { IfSome result (λ n. ChangesNothing (progress_of self.now) text.now n) }
    {
        match text.first()? {
            b' ' | b'\t' => Some(1),
            b'#' => Some(line_len(text)),
            b'\n' | b';' => { if self.is_between() { Some(1) } else { None } }
            _ => {
                if self.is_full() {
                    token_len(text)
                } else {
                    None
                }
            }
        }
    }

    // Whether the statement has no tokens so far.
    fn is_between(&self) -> bool
        ensures { IsTrue result
            → (self.now.tokens.items ≡ []) × (self.now.spans.items ≡ []) }
    {
        self.tokens.is_empty() && self.spans.is_empty()
    }

    fn take(&mut self, token: Token, span: Span<'a>) -> Result<(), Refusal>
        ensures exact { IsAsWanted (λ _. progress_of self.new) result
            (accept_short (progress_of self.old) (Lexeme.Solid token) (span_of span.entry)) }
        ensures offset { IfErr result
            (λ e. e.offset
            ≡ offset_or (slice_get (map span_of self.old.spans.items) 0) span.entry.offset) }
    {
        if self.is_full() {
            return Ok(());
        }
        let offset = self.offset_of(0, span.offset);
        match (self.spans.push(span), self.tokens.push(token)) {
            (Ok(()), Ok(())) => {
                self.shorten();
                Ok(())
            }
            _ => Err(Refusal {
                kind: AsmErrorKind::Memory,
                offset,
            }),
        }
    }

    // Whether as many tokens are kept as can matter.
    fn is_full(&self) -> bool
        ensures { IsTrue result → (length self.now.tokens.items ≡ MOST_TOKENS)
            × (length self.now.spans.items ≡ MOST_TOKENS) }
    {
        self.tokens.len() == MOST_TOKENS && self.spans.len() == MOST_TOKENS
    }

    // Keeps the first tokens only.
    fn shorten(&mut self)
        ensures { progress_of self.new ≡ shortened (progress_of self.old) }
    {
        if self.tokens.len() > MOST_TOKENS {
            self.tokens.truncate(MOST_TOKENS);
            self.spans.truncate(MOST_TOKENS);
        }
    }

    /// Ends the statement: an optional label, and nothing, a map line or an instruction; or a
    /// version line.
    pub fn close(&mut self) -> Result<(), Refusal>
        ensures { IsAsWanted (λ _. progress_of self.new) result (at_end (progress_of self.old)) }
    {
        let label_tokens = self.label_length();
        let statement = match spelled_behind(label_tokens, &self.tokens[label_tokens..]) {
            Ok(statement) => statement,
            Err(wrong) => return Err(self.refusal(wrong, label_tokens)),
        };
        let first = self.is_first();
        let code = &self.code;
        if let Some(objection) = objection(first, &code.insns, &self.maps, statement) {
            return Err(self.refused_by(objection, label_tokens));
        }
        self.define_before(label_tokens)?;
        self.end(statement, label_tokens)
    }

    // Ends a statement whose label has `label_tokens` tokens, with what it spells.
    fn end(&mut self, statement: Statement, label_tokens: usize) -> Result<(), Refusal>
        ensures { IsAsWanted (λ _. progress_of self.new) result
            (ended (progress_of self.old) label_tokens statement) }
    {
        match statement {
            Statement::Empty => {
                self.tokens.clear();
                self.spans.clear();
                Ok(())
            }
            Statement::Version => {
                self.version = Version::Two;
                self.tokens.clear();
                self.spans.clear();
                Ok(())
            }
            Statement::Row(row) => self.add_row(row),
            Statement::Instruction(reading) => self.add(reading, label_tokens),
        }
    }

    // Adds the row of the statement, a map line.
    fn add_row(&mut self, row: MapDef) -> Result<(), Refusal>
        ensures exact { IsAsWanted (λ _. progress_of self.new) result
            (ended (progress_of self.old) 0 (Statement.Row row)) }
        ensures offset { IfErr result
            (λ e. e.offset ≡ offset_or (slice_get (map span_of self.old.spans.items) 0) 0) }
    {
        let offset = self.offset_of(0, 0);
        match self.maps.push(row) {
            Ok(()) => {
                self.tokens.clear();
                self.spans.clear();
                Ok(())
            }
            Err(_) => Err(Refusal {
                kind: AsmErrorKind::Memory,
                offset,
            }),
        }
    }

    // Adds the instruction of the statement. Its tokens were read without the first `skipped` ones.
    fn add(&mut self, reading: Reading, skipped: usize) -> Result<(), Refusal>
        ensures exact { IsAsWanted (λ _. progress_of self.new) result
            (added (progress_of self.old) skipped reading) }
        ensures offset { IfErr result
            (λ e. e.offset ≡ offset_or (slice_get (map span_of self.old.spans.items) 0) 0) }
    {
        let offset = self.offset_of(0, 0);
        if let Some(index) = reading.name {
            self.note_use(index.saturating_add(skipped))?;
        }
        match self.code.push(reading.insn) {
            Ok(()) => {
                self.tokens.clear();
                self.spans.clear();
                Ok(())
            }
            Err(kind) => Err(Refusal { kind, offset }),
        }
    }

    // Notes that the next instruction uses the name at that token.
    fn note_use(&mut self, index: usize) -> Result<(), Refusal>
        ensures offset { IfErr result
            (λ e. (e.kind ≡ AsmErrorKind.Memory)
            × (e.offset ≡ offset_or (slice_get (map span_of self.old.spans.items) 0) 0)) }
        ensures rest { (self.new.tokens.items ≡ self.old.tokens.items)
            × (self.new.version ≡ self.old.version)
            × (self.new.spans.items ≡ self.old.spans.items) × (self.new.maps ≡ self.old.maps)
            × (self.new.code ≡ self.old.code) × (self.new.labels ≡ self.old.labels) }
        ensures noted { OnOk result
            (map use_of self.new.uses.items
            ≡ with_use (progress_of self.old)
            (slice_get (map span_of self.old.spans.items) index)) }
    {
        let offset = self.offset_of(0, 0);
        let Some(span) = self.spans.get(index).copied() else {
            return Ok(());
        };
        let used = Use {
            index: self.code.insns.len(),
            slot: self.code.next_slot(),
            name: span.bytes,
            offset: span.offset,
        };
        match self.uses.push(used) {
            Ok(()) => Ok(()),
            Err(_) => Err(Refusal {
                kind: AsmErrorKind::Memory,
                offset,
            }),
        }
    }

    // Whether only empty statements were read.
    fn is_first(&self) -> bool
        ensures { result ≡ is_first (progress_of self.now) }
    {
        self.labels.is_empty()
            && matches!(self.version, Version::One)
            && self.maps.is_empty()
            && self.code.insns.is_empty()
    }

    // How many tokens the statement's label has.
    fn label_length(&self) -> usize
        ensures exact { result ≡ label_length self.now.tokens.items }
        ensures within { result ≤ length self.now.tokens.items }
    {
        if is_label(token_in(&self.tokens, 0), token_in(&self.tokens, 1)) {
            2
        } else {
            0
        }
    }

    // Defines the label of the statement, of `label_tokens` tokens, if it has one.
    fn define_before(&mut self, label_tokens: usize) -> Result<(), Refusal>
        ensures { IsAsWanted (λ _. progress_of self.new) result
            (if label_tokens == 0 then Ok (progress_of self.old)
            else named (progress_of self.old)) }
    {
        if label_tokens > 0 {
            self.define_label()
        } else {
            Ok(())
        }
    }

    // The statement's first token is a name for the slot of the next instruction.
    fn define_label(&mut self) -> Result<(), Refusal>
        ensures { IsAsWanted (λ _. progress_of self.new) result (named (progress_of self.old)) }
    {
        let Some(span) = self.spans.get(0).copied() else {
            return Ok(());
        };
        match define(&mut self.labels, span.bytes, self.code.next_slot()) {
            Ok(()) => Ok(()),
            Err(kind) => Err(Refusal {
                kind,
                offset: span.offset,
            }),
        }
    }

    // Why the tokens without the first `skipped` ones spell nothing.
    fn refusal(&mut self, wrong: Wrong, skipped: usize) -> Refusal
        ensures { result ≡ refusal_of (progress_of self.old) skipped wrong }
    {
        let no_form = Refusal {
            kind: AsmErrorKind::NoForm,
            offset: self.offset_of(0, 0),
        };
        let Wrong::Range(at) = wrong else {
            return no_form;
        };
        let offset = self.offset_of(at.saturating_add(skipped), 0);
        if self.fits_without_numbers(skipped) {
            Refusal {
                kind: AsmErrorKind::OutOfRange,
                offset,
            }
        } else {
            no_form
        }
    }

    // The refusal for an objection, whose token is counted without the first `skipped` ones.
    fn refused_by(&self, objection: Objection, skipped: usize) -> Refusal
        ensures { result ≡ refused_by (progress_of self.now) skipped objection }
    {
        Refusal {
            kind: objection.kind,
            offset: self.offset_of(objection.token.saturating_add(skipped), 0),
        }
    }

    // Whether a form fits once all numbers are 0, which is in all ranges.
    fn fits_without_numbers(&mut self, skipped: usize) -> bool
        ensures { result ≡ has_form (drop skipped self.old.tokens.items) }
    {
        for token in self.tokens.iter_mut() {
            *token = zeroed(*token);
        }
        match self.tokens.get(skipped..) {
            Some(tokens) => fits_form(tokens),
            None => false,
        }
    }

    // Where the token at the index begins; else that offset.
    fn offset_of(&self, index: usize, otherwise: usize) -> usize
        ensures { result ≡ offset_or
            (slice_get (map span_of self.now.spans.items) index) otherwise }
    {
        match self.spans.get(index) {
            Some(span) => span.offset,
            None => otherwise,
        }
    }
}
