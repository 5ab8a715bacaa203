//! The log, the listing and the graph of one image.

ghost use Rattle.std.specs.Prelude.{IfOk};
ghost use Rattle.survey_commands.specs.Ends.{IsLookStatus};

use crate::failures::{SurveyError, no_slot_line};
use crate::files::read_image;
use control_flow::FlowError;
use exact_io::write_bytes;
use explorer::Refusal;
use image::{Image, ImageError};
use listeners::explain;
use messages::{Rejection, file_form_of, image_line, reason, verdict_line};
use std::alloc::{AllocError, Global};
use std::io;
use std::io::Write;
use std::rt::Files;
use surveys::{LookError, write_graph, write_listing, write_log};
use words::LogPart;

/// Says what is shown of an image.
#[derive(Clone, Copy, Drop)]
pub enum Look {
    /// The instructions that the search explores, or a part of them.
    Log(LogPart),
    Listing,
    Graph,
}

fn write_through<W: Write>(text: &str, out: &mut W) -> io::Result<()> {
    write_bytes(out, text.as_bytes())?;
    out.flush()
}

/// Writes a line to standard output, and all that waits before it, so that what standard error gets
/// comes after it.
pub fn say<W: Write>(alloc: Global, text: &str, out: &mut W) -> Result<(), SurveyError> {
    match write_through(text, out) {
        Ok(()) => Ok(()),
        Err(error) => Err(SurveyError::of_output(alloc, error.kind())),
    }
}

/// Says on standard error why bytes are not an image. After a failure nothing more is written.
fn tell_malformed<W: Write>(bytes: &[u8], error: ImageError, err: &mut W) -> io::Result<()> {
    let rejection = Rejection::Image(error, Some(file_form_of(bytes)));
    rejection.say(err)?;
    rejection.say_code(err)
}

/// Says that bytes are not an image, as `xdpvm verify` does.
pub fn say_malformed<W1: Write, W2: Write>(
    alloc: Global,
    bytes: &[u8],
    error: ImageError,
    out: &mut W1,
    err: &mut W2,
) -> Result<(), SurveyError> {
    let line = image_line(alloc, error)?;
    say(alloc, line.as_str(), out)?;
    let _ = tell_malformed(bytes, error, err);
    Ok(())
}

/// Says on standard error why a program is refused, the instruction, and what is known there. After
/// a failure nothing more is written.
pub fn tell<W: Write>(
    alloc: Global,
    image: &Image,
    refusal: Refusal,
    slot: usize,
    err: &mut W,
) -> io::Result<()> {
    let rejection = Rejection::Program(refusal, slot, image.at(slot).copied());
    rejection.say(err)?;
    let found = explain(alloc, image, refusal, slot, None);
    if let Some(known) = reason(alloc, image, refusal, slot, found) {
        write_bytes(err, known.as_bytes())?;
    }
    rejection.say_code(err)
}

fn write_look<W: Write>(
    alloc: Global,
    image: &Image,
    look: Look,
    out: &mut W,
) -> Result<(), LookError> {
    match look {
        Look::Log(part) => write_log(alloc, image, part.slot, part.states, out),
        Look::Listing => write_listing(alloc, image, out),
        Look::Graph => write_graph(alloc, image, out),
    }
}

/// Shows an image, and returns the status: 2 if it is refused. What `xdpvm verify` says of it is
/// said then, as far as standard error is told.
fn look_into<W1: Write, W2: Write>(
    alloc: Global,
    image: &Image,
    look: Look,
    is_told: bool,
    out: &mut W1,
    err: &mut W2,
) -> Result<u8, SurveyError>
    ensures { IfOk result IsLookStatus }
{
    match write_look(alloc, image, look, out) {
        Ok(()) => Ok(0),
        Err(LookError::Memory) => Err(SurveyError::Memory),
        Err(LookError::Refused(Refusal::Memory | Refusal::Flow(FlowError::Memory), _)) => Err(
            SurveyError::Memory,
        ),
        Err(LookError::Writer(kind)) => { Err(SurveyError::of_output(alloc, kind)) }
        Err(LookError::Refused(refusal, slot)) => {
            let line = verdict_line(alloc, refusal, slot)?;
            say(alloc, line.as_str(), out)?;
            if is_told {
                let _ = tell(alloc, image, refusal, slot, err);
            }
            Ok(2)
        }
    }
}

/// Says on standard error that the code has not got the slot whose log is wanted. Returns whether
/// standard error takes what is said.
fn say_slot<W: Write>(
    alloc: Global,
    image: &Image,
    look: Look,
    err: &mut W,
) -> Result<bool, AllocError> {
    if let Look::Log(
        LogPart {
            slot: Some(slot),
            ..
        },
    ) = look
    {
        let slots = image.slots();
        if slot >= slots {
            let line = no_slot_line(alloc, slot, slots)?;
            return Ok(write_bytes(err, line.as_bytes()).is_ok());
        }
    }
    Ok(true)
}

/// The image in a file. None: the bytes are no image, which is said.
pub fn image_in<R: Files + AllocGlobal, W1: Write, W2: Write>(
    rt: &R,
    path: &str,
    out: &mut W1,
    err: &mut W2,
) -> Result<Option<Image>, SurveyError> {
    let alloc = rt.alloc();
    let bytes = match read_image(rt, alloc, path) {
        Ok(bytes) => bytes,
        Err(error) => return Err(SurveyError::of_read(alloc, path, error.kind())),
    };
    match Image::parse(alloc, bytes.as_slice()) {
        Ok(image) => Ok(Some(image)),
        Err(ImageError::Memory) => Err(SurveyError::Memory),
        Err(error) => {
            say_malformed(alloc, bytes.as_slice(), error, out, err)?;
            Ok(None)
        }
    }
}

/// Shows the image in a file, and returns the status. Standard error is told of a slot that the
/// code has not got, and why an image is refused.
pub fn look_at<R: Files + AllocGlobal, W1: Write, W2: Write>(
    rt: &R,
    path: &str,
    look: Look,
    out: &mut W1,
    err: &mut W2,
) -> Result<u8, SurveyError>
    ensures { IfOk result IsLookStatus }
{
    let alloc = rt.alloc();
    match image_in(rt, path, out, err)? {
        Some(image) => {
            let is_told = say_slot(alloc, &image, look, err)?;
            look_into(alloc, &image, look, is_told, out, err)
        }
        None => Ok(2),
    }
}
