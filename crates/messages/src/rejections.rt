//! What is refused and why, and the message on standard error.

ghost use Rattle.std.specs.Prelude.{◌≡◌, ◌++◌, OnOk, OnErr, codes, decimal};
ghost use Rattle.std.specs.Io.KnownBytes.{Appends};
ghost use Rattle.isa_model.specs.Text.CanonicalText as canonical;
ghost use Rattle.exact_io.specs.Transfers.{AppendsBeginning};
ghost use Rattle.messages.specs.Messages.{sentence_of, code_of, code_line, form_line, hint_line, image_position, insn_position, text_position, position_of, entry_position, anew, entry_anew, step_position, table_position, maps_position, rejection_text};

use crate::forms::FileForm;
use crate::texts::write_texts;
use assembler::AsmError;
use disassembler::write_insn;
use exact_io::write_bytes;
use image::ImageError;
use isa_model::Insn;
use itoa::Buffer;
use map_texts::MapTextError;
use rechecking::TableError;
use std::io;
use std::io::Write;
use table_entries::{TableRefusal, WriteTableError};
use walks::Refusal;

/// Says what is refused, and why.
#[derive(Clone, Copy)]
pub enum Rejection {
    /// The bytes are not an image; of a file it is said what they look like.
    Image(ImageError, Option<FileForm>),
    /// The program is not accepted, at a slot. The instruction is the one that begins there.
    Program(Refusal, usize, Option<Insn>),
    /// The table is not accepted. If the step of an entry was tested, these are its slot and the
    /// instruction that begins there, unless memory ran out when the entry was read again.
    Table(TableError, Option<(usize, Insn)>),
    /// The program was accepted, and could not be explored again for its table.
    Explored,
    /// The text spells no program.
    Text(AsmError),
    /// The text does not fill the maps.
    Maps(MapTextError),
}

impl Rejection {
    fn sentence(self) -> &'static str
        ensures { result.now ≡ sentence_of self }
    {
        match self {
            Rejection::Image(error, _) => error.sentence(),
            Rejection::Program(refusal, _, _) => refusal.sentence(),
            Rejection::Table(error, _) => error.sentence(),
            Rejection::Explored => WriteTableError::Explored.sentence(),
            Rejection::Text(error) => error.kind.sentence(),
            Rejection::Maps(error) => error.kind.sentence(),
        }
    }

    /// Its code in docs/REFUSALS.md, such as `V9`.
    pub fn code(self) -> &'static str
        ensures { result.now ≡ code_of self }
    {
        match self {
            Rejection::Image(error, _) => error.code(),
            Rejection::Program(refusal, _, _) => refusal.code(),
            Rejection::Table(error, _) => error.code(),
            Rejection::Explored => WriteTableError::Explored.code(),
            Rejection::Text(error) => error.kind.code(),
            Rejection::Maps(error) => error.kind.code(),
        }
    }

    /// Writes the last line of a message: how to read the entry of the code.
    pub fn say_code<W: Write>(self, err: &mut W) -> io::Result<()>
        ensures ok { OnOk result
            (Appends (W.contents err.old) (W.contents err.new) (code_line self)) }
        ensures err { OnErr result
            (AppendsBeginning (W.contents err.old) (W.contents err.new) (code_line self)) }
    {
        write_texts(err, "xdpvm explain ", self.code(), " says more\n")
    }

    // Writes the position of what is refused.
    fn say_position<W: Write>(self, err: &mut W) -> io::Result<()>
        ensures ok { OnOk result
            (Appends (W.contents err.old) (W.contents err.new) (position_of self)) }
        ensures err { OnErr result
            (AppendsBeginning (W.contents err.old) (W.contents err.new) (position_of self)) }
    {
        match self {
            Rejection::Image(error, form) => say_image_position(err, error, form),
            Rejection::Program(_, slot, None) => say_slot(err, slot, "\n"),
            Rejection::Program(_, slot, Some(insn)) => say_insn(err, slot, &insn),
            Rejection::Table(error, position) => say_table_position(err, error, position),
            Rejection::Explored => Ok(()),
            Rejection::Text(error) => say_text_position(err, error.line, error.column),
            Rejection::Maps(error) => say_maps_position(err, error),
        }
    }

    /// Writes the sentence, and in the next line the position.
    pub fn say<W: Write>(self, err: &mut W) -> io::Result<()>
        ensures ok { OnOk result
            (Appends (W.contents err.old) (W.contents err.new) (rejection_text self)) }
        ensures err { OnErr result
            (AppendsBeginning (W.contents err.old) (W.contents err.new) (rejection_text self)) }
    {
        write_texts(err, "", self.sentence(), "\n")?;
        self.say_position(err)
    }
}

// Writes what a file that is not an image looks like, if that is said.
fn say_file_form<W: Write>(err: &mut W, form: Option<FileForm>) -> io::Result<()>
    ensures ok { OnOk result (Appends (W.contents err.old) (W.contents err.new)
        (form_line form)) }
    ensures err { OnErr result (AppendsBeginning (W.contents err.old) (W.contents err.new)
        (form_line form)) }
{
    let line = match form {
        Some(form) => form.line(),
        None => "",
    };
    write_bytes(err, line.as_bytes())
}

// Writes a unit, as `map` or `slot`, and an index.
fn say_index<W: Write>(err: &mut W, unit: &str, index: usize) -> io::Result<()>
    ensures ok { OnOk result (Appends (W.contents err.old) (W.contents err.new)
        (unit.now ++ (decimal index ++ codes "\n"))) }
    ensures err { OnErr result (AppendsBeginning (W.contents err.old) (W.contents err.new)
        (unit.now ++ (decimal index ++ codes "\n"))) }
{
    let mut buffer = Buffer::new();
    write_texts(err, unit, buffer.format(index as u64), "\n")
}

// Writes a hint where bytes are not an image.
fn say_hint<W: Write>(err: &mut W, error: ImageError) -> io::Result<()>
    ensures ok { OnOk result (Appends (W.contents err.old) (W.contents err.new)
        (hint_line error)) }
    ensures err { OnErr result (AppendsBeginning (W.contents err.old) (W.contents err.new)
        (hint_line error)) }
{
    write_texts(err, "", error.hint(), "\n")
}

// Writes a unit with an index, and a hint.
fn say_with_hint<W: Write>(
    err: &mut W,
    unit: &str,
    index: usize,
    error: ImageError,
) -> io::Result<()>
    ensures ok { OnOk result (Appends (W.contents err.old) (W.contents err.new)
        ((unit.now ++ (decimal index ++ codes "\n")) ++ hint_line error)) }
    ensures err { OnErr result (AppendsBeginning (W.contents err.old) (W.contents err.new)
        ((unit.now ++ (decimal index ++ codes "\n")) ++ hint_line error)) }
{
    say_index(err, unit, index)?;
    say_hint(err, error)
}

// Writes where bytes are not an image, and a hint.
fn say_image_position<W: Write>(
    err: &mut W,
    error: ImageError,
    form: Option<FileForm>,
) -> io::Result<()>
    ensures ok { OnOk result (Appends (W.contents err.old) (W.contents err.new)
        (image_position error form)) }
    ensures err { OnErr result (AppendsBeginning (W.contents err.old) (W.contents err.new)
        (image_position error form)) }
{
    match error {
        ImageError::Magic => say_file_form(err, form),
        ImageError::Memory => Ok(()),
        ImageError::MapRow(index) => say_with_hint(err, "map ", index, error),
        ImageError::Code(slot, _) | ImageError::UnknownMap(slot) | ImageError::ValuePointer(slot) =>
            say_with_hint(err, "slot ", slot, error),
        _ => say_hint(err, error),
    }
}

// Writes a slot, and then a text.
fn say_slot<W: Write>(err: &mut W, slot: usize, back: &str) -> io::Result<()>
    ensures ok { OnOk result (Appends (W.contents err.old) (W.contents err.new)
        (codes "slot " ++ (decimal slot ++ back.now))) }
    ensures err { OnErr result (AppendsBeginning (W.contents err.old) (W.contents err.new)
        (codes "slot " ++ (decimal slot ++ back.now))) }
{
    let mut buffer = Buffer::new();
    write_texts(err, "slot ", buffer.format(slot as u64), back)
}

/// Writes a slot, and the text of the instruction that begins there.
pub fn say_insn<W: Write>(err: &mut W, slot: usize, insn: &Insn) -> io::Result<()>
    ensures ok { OnOk result (Appends (W.contents err.old) (W.contents err.new)
        (insn_position slot insn.now)) }
    ensures err { OnErr result (AppendsBeginning (W.contents err.old) (W.contents err.new)
        (insn_position slot insn.now)) }
{
    say_slot(err, slot, ": ")?;
    write_insn(err, insn)
}

/// Writes the index of an entry.
pub fn say_entry<W: Write>(err: &mut W, index: usize) -> io::Result<()>
    ensures ok { OnOk result (Appends (W.contents err.old) (W.contents err.new)
        (entry_position index)) }
    ensures err { OnErr result (AppendsBeginning (W.contents err.old) (W.contents err.new)
        (entry_position index)) }
{
    let mut buffer = Buffer::new();
    write_texts(err, "entry ", buffer.format(index as u64), "\n")
}

// Writes the index of an entry that spells no state, and a hint.
fn say_entry_anew<W: Write>(err: &mut W, index: usize) -> io::Result<()>
    ensures ok { OnOk result (Appends (W.contents err.old) (W.contents err.new)
        (entry_anew index)) }
    ensures err { OnErr result (AppendsBeginning (W.contents err.old) (W.contents err.new)
        (entry_anew index)) }
{
    let mut buffer = Buffer::new();
    write_texts(
        err,
        "entry ",
        buffer.format(index as u64),
        "\nmake the table anew: xdpvm prove IMAGE TABLE\n",
    )
}

/// The hint where a table does not show a bound of the program.
pub fn anew() -> &'static str
    ensures { result.now ≡ anew }
{
    "make the table anew: xdpvm prove IMAGE TABLE\n"
}

// Writes the index of an entry, and where its step is, if that is known.
fn say_step<W: Write>(err: &mut W, index: usize, position: Option<(usize, Insn)>) -> io::Result<()>
    ensures ok { OnOk result (Appends (W.contents err.old) (W.contents err.new)
        (step_position index position)) }
    ensures err { OnErr result (AppendsBeginning (W.contents err.old) (W.contents err.new)
        (step_position index position)) }
{
    say_entry(err, index)?;
    match position {
        None => Ok(()),
        Some((slot, insn)) => say_insn(err, slot, &insn),
    }
}

// Writes where a table is refused, and why an entry's step is, if it is.
fn say_table_position<W: Write>(
    err: &mut W,
    error: TableError,
    position: Option<(usize, Insn)>,
) -> io::Result<()>
    ensures ok { OnOk result (Appends (W.contents err.old) (W.contents err.new)
        (table_position error position)) }
    ensures err { OnErr result (AppendsBeginning (W.contents err.old) (W.contents err.new)
        (table_position error position)) }
{
    match error {
        TableError::Bytes(TableRefusal::Entry(index)) => say_entry_anew(err, index),
        TableError::Step(index, refusal) => {
            say_step(err, index, position)?;
            write_texts(err, "", refusal.sentence(), "\n")
        }
        TableError::Successor(index) => say_step(err, index, position),
        TableError::Flow(_, _) | TableError::Bytes(_) | TableError::Start => {
            write_bytes(err, anew().as_bytes())
        }
    }
}

// Writes a line and a column.
fn say_text_position<W: Write>(err: &mut W, line: usize, column: usize) -> io::Result<()>
    ensures ok { OnOk result (Appends (W.contents err.old) (W.contents err.new)
        (text_position line column)) }
    ensures err { OnErr result (AppendsBeginning (W.contents err.old) (W.contents err.new)
        (text_position line column)) }
{
    let mut buffer = Buffer::new();
    write_texts(err, "line ", buffer.format(line as u64), " ")?;
    write_texts(err, "column ", buffer.format(column as u64), "\n")
}

// Writes a line and a column in a text of maps, and a hint.
fn say_maps_position<W: Write>(err: &mut W, error: MapTextError) -> io::Result<()>
    ensures ok { OnOk result (Appends (W.contents err.old) (W.contents err.new)
        (maps_position error)) }
    ensures err { OnErr result (AppendsBeginning (W.contents err.old) (W.contents err.new)
        (maps_position error)) }
{
    say_text_position(err, error.line, error.column)?;
    write_texts(err, "", error.kind.hint(), "\n")
}
