//! Images that are read, written as text, and made of a text. The parameter `out` is standard
//! output.

ghost use Rattle.std.specs.Prelude.{◌≡◌, ◌≢◌, ◌⊎◌, OnOk, IfOk, IfErr, Ok, Err, MatchResult};
ghost use Rattle.std.specs.String.{string_bytes};
ghost use Rattle.isa_model.specs.{Program};
ghost use Rattle.isa_model.specs.Text.CanonicalText.{canonical_text};
ghost use Rattle.image.specs.Images.{IsImage, image_bytes};
ghost use Rattle.commands.specs.Files.{LoadsNone, MakesNone, DisassemblesFile, StoresSome, RefusesTextFile, AssemblesFile};
ghost use Rattle.commands.specs.Judging.{StoresImage, RefusesImage};
ghost use Rattle.commands.specs.Texts.{spelled};
ghost use Rattle.assembler.specs.declared.errors.AsmErrorKind.TheVariants as AsmErrorKind;
ghost use Rattle.messages.specs.Lines.{size_line};
ghost use Rattle.commands.specs.Saying.{Says};
ghost use Rattle.assembler.specs.Assembling as spells;

use super::endings::Ending;
use super::outcomes::TaskOutcome;
use super::outputs::create_file;
use super::reading::{read_start, read_text};
use super::texts::KeptText;
use super::verdicts::{say_line, say_made};
use assembler::{AsmError, AsmErrorKind, assemble};
use disassembler::disassemble;
use image::{Image, ImageError};
use isa_model::{MAX_MAPS, MAX_SLOTS};
use messages::{Rejection, STANDARD_OUTPUT, file_form_of, image_line, text_line};
use std::alloc::{AllocError, Global};
use std::io::{ErrorKind, Write};
use std::rt::Files;
use words::AssemblyPaths;

// One byte more than the longest image has: its head, its map rows and its slots. A longer file is
// refused whatever the rest of it is.
const PAST_ANY_IMAGE: u64 = 8 + 12 * MAX_MAPS as u64 + 8 * MAX_SLOTS as u64 + 1;

/// The image in a file, or how the task ends without it.
pub fn load_image<'a, R: Files, W: Write>(
    rt: &R,
    alloc: Global,
    path: &'a str,
    out: &mut W,
) -> Result<Image, TaskOutcome<'a>>
    ensures ok { OnOk result (W.contents out.new ≡ W.contents out.old) }
    ensures fits { IfOk result IsImage }
    ensures none { IfErr result
        (λ ended. LoadsNone path.now (W.contents out.old) (W.contents out.new) ended) }
{
    let bytes = match read_start(rt, alloc, path, PAST_ANY_IMAGE) {
        Ok(bytes) => bytes,
        Err(error) => return Err(TaskOutcome::of_read(path, &error)),
    };
    image_of(alloc, bytes.as_slice(), out)
}

/// The image that bytes spell. If they spell none, writes why, and returns the task's outcome.
pub fn image_of<'a, W: Write>(
    alloc: Global,
    bytes: &[u8],
    out: &mut W,
) -> Result<Image, TaskOutcome<'a>>
    ensures ok { OnOk result (W.contents out.new ≡ W.contents out.old) }
    ensures found { IfOk result (λ image. bytes.now ≡ image_bytes image) }
    ensures fits { IfOk result IsImage }
    ensures only { (p : Program) → IsImage p → bytes.now ≡ image_bytes p
        → MatchResult result (λ image. image ≡ p) (λ ended. ended ≡ TaskOutcome.NoMemory) }
    ensures refused { IfErr result
        (λ ended. RefusesImage bytes.now (W.contents out.old) (W.contents out.new) ended) }
{
    match Image::parse(alloc, bytes) {
        Ok(image) => Ok(image),
        Err(ImageError::Memory) => Err(TaskOutcome::NoMemory),
        Err(error) => Err(say_made(
            image_line(alloc, error),
            TaskOutcome::Refused(Rejection::Image(error, Some(file_form_of(bytes)))),
            out,
        )),
    }
}

/// Writes the text of an image: it is read and parsed, and then its text is written to standard
/// output.
pub fn disassemble_file<'a, R: Files, W: Write>(
    rt: &R,
    alloc: Global,
    path: &'a str,
    out: &mut W,
) -> TaskOutcome<'a>
    ensures { DisassemblesFile path.now (W.contents out.old) (W.contents out.new) result }
{
    let image = match load_image(rt, alloc, path, out) {
        Ok(image) => image,
        Err(outcome) => return outcome,
    };
    say_text(&image, out)
}

/// Writes the text of an image.
pub fn say_text<'a, W: Write>(image: &Image, out: &mut W) -> TaskOutcome<'a>
    ensures { Says (W.contents out.old) (W.contents out.new)
        (canonical_text image.now) TaskOutcome.Done result }
{
    match disassemble(image, out) {
        Ok(()) => TaskOutcome::Done,
        Err(error) => TaskOutcome::CannotWrite(STANDARD_OUTPUT, Some(error.kind())),
    }
}

// How the task ends after an error in what was kept of a text: writes why it is refused, with the
// line and the column in the whole text. If there is no number for one of these, the file is too
// large.
fn refused_text<'a, W: Write>(
    alloc: Global,
    text: &KeptText,
    error: AsmError,
    path: &'a str,
    out: &mut W,
) -> Ending<'a>
    requires known { error.kind ≢ AsmErrorKind.Memory }
    requires refused { spells.assembled text.now.bytes.items ≡ Err error }
    ensures { RefusesTextFile text.now path.now (W.contents out.old) (W.contents out.new) result }
{
    let Some(placed) = text.placed(error) else {
        return Ending::plain(TaskOutcome::CannotRead(path, ErrorKind::FileTooLarge));
    };
    let outcome = say_made(
        text_line(alloc, placed),
        TaskOutcome::Refused(Rejection::Text(placed)),
        out,
    );
    Ending::of_text(alloc, text.bytes.as_slice(), error, outcome)
}

/// The image of a text that was read from the file at a path. If the text is refused, writes why,
/// with the line and the column, and returns how the task ends.
pub fn assembled<'a, W: Write>(
    alloc: Global,
    text: &KeptText,
    path: &'a str,
    out: &mut W,
) -> Result<Image, Ending<'a>>
    ensures ok { OnOk result (W.contents out.new ≡ W.contents out.old) }
    ensures round_trip { (p : Program) → IsImage p → text.now.bytes.items ≡ canonical_text p
        → MatchResult result (λ image. image ≡ p) (λ ended. ended.outcome ≡ TaskOutcome.NoMemory) }
    ensures found { IfOk result (λ image. spelled text.now ≡ Ok image) }
    ensures refused { IfErr result
        (λ ended. RefusesTextFile text.now path.now (W.contents out.old) (W.contents out.new)
        ended) }
{
    match assemble(alloc, text.bytes.as_slice()) {
        Ok(image) => Ok(image),
        Err(
            AsmError {
                kind: AsmErrorKind::Memory,
                ..
            },
        ) => Err(Ending::plain(TaskOutcome::NoMemory)),
        Err(error) => Err(refused_text(alloc, text, error, path, out)),
    }
}

/// The line that says how large an image is.
pub fn size_line(alloc: Global, image: &Image) -> Result<String, AllocError>
    ensures line { IfOk result (λ line. string_bytes line ≡ size_line image.now) }
    ensures fits { IsImage image.now }
{
    let maps = image.maps().len();
    let slots = image.slots();
    format!(in alloc; "ok maps {maps} slots {slots}\n")
}

/// Writes an image to a file that was opened by this path, and then a line to standard output.
pub fn store_image<'a, W1: Write, W2: Write>(
    image: &Image,
    line: &str,
    path: &'a str,
    out: &mut W1,
    file: &mut W2,
) -> TaskOutcome<'a>
    ensures { StoresImage image.now line.now path.now (W2.contents file.old) (W2.contents file.new)
        (W1.contents out.old) (W1.contents out.new) result }
{
    match image.write(file) {
        Ok(()) => say_line(line, TaskOutcome::Done, out),
        Err(error) => TaskOutcome::of_write(path, &error),
    }
}

// Writes the image of a text.
fn store_made<'a, R: Files, W: Write>(
    rt: &R,
    alloc: Global,
    image: &Image,
    paths: AssemblyPaths<'a>,
    out: &mut W,
) -> TaskOutcome<'a>
    ensures { MakesNone paths.entry.image.now (W.contents out.old) (W.contents out.new) result
        ⊎ StoresSome image.now paths.entry.image.now (W.contents out.old) (W.contents out.new)
        result }
{
    let Ok(line) = size_line(alloc, image) else {
        return TaskOutcome::NoMemory;
    };
    match create_file(rt, paths.image, &[paths.text]) {
        Ok(mut file) => store_image(image, line.as_str(), paths.image, out, &mut file),
        Err(outcome) => outcome,
    }
}

/// Makes the image of a text: the text is read and judged, then the image is written, and then
/// standard output says how large it is. If memory runs out, no file is made for the image.
pub fn assemble_file<'a, R: Files, W: Write>(
    rt: &R,
    alloc: Global,
    paths: AssemblyPaths<'a>,
    out: &mut W,
) -> Ending<'a>
    ensures { AssemblesFile paths.entry.text.now paths.entry.image.now (W.contents out.old)
        (W.contents out.new) result }
{
    let text = match read_text(rt, alloc, paths.text) {
        Ok(text) => text,
        Err(error) => return Ending::plain(TaskOutcome::of_read(paths.text, &error)),
    };
    match assembled(alloc, &text, paths.text, out) {
        Ok(image) => Ending::plain(store_made(rt, alloc, &image, paths, out)),
        Err(ending) => ending,
    }
}
