//! The page on what the search explores of an image.

ghost use Rattle.std.specs.Prelude.{IfOk};
ghost use Rattle.survey_commands.specs.Ends.{IsLookStatus};

use crate::failures::SurveyError;
use crate::looks::{image_in, tell};
use control_flow::FlowError;
use exact_io::write_bytes;
use explorer::Refusal;
use image::Image;
use messages::verdict_line;
use std::alloc::{AllocError, Global};
use std::io::Write;
use std::rt::Files;
use survey_rows::shown;
use surveys::{LookError, Overview, overview_of, write_page};

/// What `verify` says of a refused program on both outputs.
fn refused_text(
    alloc: Global,
    image: &Image,
    refusal: Refusal,
    slot: usize,
) -> Result<String, AllocError> {
    let line = verdict_line(alloc, refusal, slot)?;
    let mut bytes = Vec::from_slice(alloc, line.as_bytes())?;
    if tell(alloc, image, refusal, slot, &mut bytes).is_err() {
        return Err(AllocError);
    }
    match String::from_utf8(bytes) {
        Ok(text) => Ok(text),
        Err(_) => Err(AllocError),
    }
}

/// What `verify` says of a program, and the status.
fn told_of(alloc: Global, image: &Image, overview: &Overview) -> Result<(String, u8), SurveyError>
    ensures { IfOk result (λ told. IsLookStatus told.1) }
{
    match overview.ended {
        Ok(bound) => Ok((format!(in alloc; "ok bound {bound}\n")?, 0)),
        Err((Refusal::Memory | Refusal::Flow(FlowError::Memory), _)) => Err(SurveyError::Memory),
        Err((refusal, slot)) => Ok((refused_text(alloc, image, refusal, slot)?, 2)),
    }
}

/// Writes the page through to the output.
fn put_page<W: Write>(
    alloc: Global,
    image: &Image,
    overview: &Overview,
    path: &str,
    told: &str,
    out: &mut W,
) -> Result<(), SurveyError> {
    let name = shown(alloc, path)?;
    match write_page(alloc, image, overview, name.as_str(), told, out) {
        Ok(()) => {}
        Err(LookError::Writer(kind)) => {
            return Err(SurveyError::of_output(alloc, kind));
        }
        Err(_) => return Err(SurveyError::Memory),
    }
    match out.flush() {
        Ok(()) => Ok(()),
        Err(error) => Err(SurveyError::of_output(alloc, error.kind())),
    }
}

/// Writes the page of the image in a file, and returns the status: 2 if it is refused, of which
/// standard error is told too.
pub fn show_page<R: Files + AllocGlobal, W1: Write, W2: Write>(
    rt: &R,
    path: &str,
    out: &mut W1,
    err: &mut W2,
) -> Result<u8, SurveyError>
    ensures { IfOk result IsLookStatus }
{
    let alloc = rt.alloc();
    let Some(image) = image_in(rt, path, out, err)? else {
        return Ok(2);
    };
    let overview = overview_of(alloc, &image)?;
    let (told, status) = told_of(alloc, &image, &overview)?;
    put_page(alloc, &image, &overview, path, told.as_str(), out)?;
    if status == 2 {
        let _ = write_bytes(err, told.as_bytes());
    }
    Ok(status)
}
