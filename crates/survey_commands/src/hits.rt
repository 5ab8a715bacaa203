//! How often each instruction of an image is run over the frames of a stream.

ghost use Rattle.std.specs.Prelude.{◌≡◌, IfOk};
ghost use Rattle.survey_commands.specs.Ends.{IsHitsStatus, finish_status};
ghost use Rattle.survey_commands.specs.Runs.{CountsOf};

use crate::begun::{Begun, NotBegun, begin, judged, parsed_again};
use crate::failures::SurveyError;
use crate::streams::say_finish;
use coverage::{BoundVerdict, StreamHits, hits_csv, hits_json, hits_text};
use exact_io::write_bytes;
use image::Image;
use std::alloc::{AllocError, Global};
use std::io;
use std::io::Write;
use std::rt::{Clock, Files};
use words::{Format, RunAsked};

/// What was counted of an image.
#[derive(Drop)]
struct Counted {
    image: Image,
    verdict: BoundVerdict,
    hits: StreamHits,
}

/// The text of the counts.
fn text_of(
    alloc: Global,
    path: &str,
    format: Format,
    counted: &Counted,
) -> Result<Vec<u8>, AllocError> {
    let (image, hits, verdict) = (&counted.image, &counted.hits, &counted.verdict);
    match format {
        Format::Csv => hits_csv(alloc, image, hits),
        Format::Json => Ok(hits_json(alloc, path, image, hits, verdict)?.into_bytes()),
        Format::Table => Ok(hits_text(alloc, image, hits, verdict)?.into_bytes()),
    }
}

fn write_through<W: Write>(text: &[u8], out: &mut W) -> io::Result<()> {
    write_bytes(out, text)?;
    out.flush()
}

/// Runs the image on the stream, and counts.
fn count<R: Files + Clock + AllocGlobal, W1: Write, W2: Write>(
    rt: &R,
    asked: RunAsked<'_>,
    out: &mut W1,
    err: &mut W2,
) -> Result<Counted, NotBegun>
    ensures { IfOk result (CountsOf asked.entry.limit.steps) }
{
    let alloc = rt.alloc();
    let Begun {
        bytes,
        image,
        again,
        maps,
        source,
    } = begin(rt, alloc, asked, out, err)?;
    let verdict = judged(alloc, again, err)?;
    let hits = coverage::hits(alloc, image, maps, asked.limit.steps, source)?;
    match parsed_again(alloc, bytes.as_slice()) {
        Ok(image) => Ok(Counted {
            image,
            verdict,
            hits,
        }),
        Err(failure) => Err(NotBegun::Failed(failure)),
    }
}

/// Writes the counts, and says on standard error which fault ended the stream, if one did.
fn write_counted<R: Files + AllocGlobal, W1: Write, W2: Write>(
    rt: &R,
    asked: RunAsked<'_>,
    format: Format,
    counted: &Counted,
    out: &mut W1,
    err: &mut W2,
) -> Result<u8, SurveyError>
    ensures { IfOk result (λ status. status ≡ finish_status counted.now.hits.finish) }
{
    let alloc = rt.alloc();
    let text = text_of(alloc, asked.image, format, counted)?;
    match write_through(text.as_slice(), out) {
        Ok(()) => {}
        Err(error) => return Err(SurveyError::of_output(alloc, error.kind())),
    }
    if let BoundVerdict::Unknown = counted.verdict {
        return Err(SurveyError::Memory);
    }
    Ok(say_finish(rt, asked.frames, counted.hits.finish, err))
}

/// Prints how often each instruction is run over the frames of a stream, and returns the status: 2
/// where the image or the text of the maps is refused, 3 where a fault ended the stream, which is
/// said after the counts of the frames before it. Where memory runs out while the bound is looked
/// for, the counts are printed, and the failure is that of memory.
pub fn print_hits<R: Files + Clock + AllocGlobal, W1: Write, W2: Write>(
    rt: &R,
    asked: RunAsked<'_>,
    format: Format,
    out: &mut W1,
    err: &mut W2,
) -> Result<u8, SurveyError>
    ensures { IfOk result IsHitsStatus }
{
    match count(rt, asked, out, err) {
        Ok(counted) => write_counted(rt, asked, format, &counted, out, err),
        Err(ended) => ended.ended(),
    }
}
