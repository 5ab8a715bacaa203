//! What a run on a frame stream begins with: the image, what `verify` says of it, and the maps.

ghost use Rattle.std.specs.Prelude.{◌≡◌, IfOk};
ghost use Rattle.isa_model.specs.Code.Instructions.{Program};
ghost use Rattle.image.specs.Images.{IsImage, image_bytes};
ghost use Rattle.maps.specs.Maps.{rows_of};
ghost use Rattle.survey_commands.specs.Runs.{SaysOf};

use crate::failures::SurveyError;
use crate::files::read_image;
use crate::looks::{say, say_malformed};
use crate::streams::open_stream;
use control_flow::FlowError;
use coverage::BoundVerdict;
use exact_io::write_bytes;
use explorer::{Refusal, verify};
use frames::Buffered;
use image::{Image, ImageError};
use map_texts::{MapTextError, MapTextErrorKind, fill_maps};
use maps::Maps;
use messages::{Rejection, maps_line, verdict_line};
use std::alloc::{AllocError, Global};
use std::fs;
use std::io::{ErrorKind, Read, Write};
use std::rt::Files;
use words::RunAsked;

/// Why a run does not begin.
#[derive(Drop)]
pub enum NotBegun {
    /// The image or the text of its maps is refused, which was said.
    Refused,
    Failed(SurveyError),
}

impl From<AllocError> for NotBegun {
    ghost use Rattle.std.specs.Prelude.{◌≡◌};
    ghost use Rattle.survey_commands.specs.declared.failures.SurveyError.TheVariants.{Memory};
    ghost use Rattle.survey_commands.specs.declared.begun.NotBegun.TheVariants.{Failed};

    ghost from_gives = { λ _ e. e ≡ Failed Memory };

    fn from(_error: AllocError) -> NotBegun {
        NotBegun::Failed(SurveyError::Memory)
    }
}

impl NotBegun {
    /// The status, or the failure.
    pub fn ended(self) -> Result<u8, SurveyError>
        ensures { IfOk result (λ status. status ≡ 2) }
    {
        match self {
            NotBegun::Refused => Ok(2),
            NotBegun::Failed(failure) => Err(failure),
        }
    }
}

/// The image in a file, with its bytes. Standard output says of others why they are none, as of
/// every look at an image.
pub fn load<R: Files, W1: Write, W2: Write>(
    rt: &R,
    alloc: Global,
    path: &str,
    out: &mut W1,
    err: &mut W2,
) -> Result<(Vec<u8>, Image), NotBegun>
    ensures spelled { IfOk result (λ loaded. loaded.0.items ≡ image_bytes loaded.1) }
    ensures fits { IfOk result (λ loaded. IsImage loaded.1) }
{
    let bytes = match read_image(rt, alloc, path) {
        Ok(bytes) => bytes,
        Err(error) => {
            return Err(NotBegun::Failed(SurveyError::of_read(alloc, path, error.kind())));
        }
    };
    match Image::parse(alloc, bytes.as_slice()) {
        Ok(image) => Ok((bytes, image)),
        Err(ImageError::Memory) => Err(NotBegun::Failed(SurveyError::Memory)),
        Err(error) => match say_malformed(alloc, bytes.as_slice(), error, out, err) {
            Ok(()) => Err(NotBegun::Refused),
            Err(failure) => Err(NotBegun::Failed(failure)),
        },
    }
}

/// The image of bytes that were parsed before.
pub fn parsed_again(alloc: Global, bytes: &[u8]) -> Result<Image, SurveyError>
    ensures { (p : Program) → IsImage p → bytes.now ≡ image_bytes p
        → IfOk result (λ image. image ≡ p) }
{
    match Image::parse(alloc, bytes) {
        Ok(image) => Ok(image),
        Err(_) => Err(SurveyError::Memory),
    }
}

/// Says on standard error that an image is run that `verify` refuses.
fn say_refused<W: Write>(alloc: Global, line: &str, err: &mut W) -> Result<(), AllocError> {
    let text = format!(in alloc; "verify says: {line}; it is run with all checks\n")?;
    let _ = write_bytes(err, text.as_bytes());
    Ok(())
}

/// What `verify` says of an image. Standard error gets a line if it is refused.
pub fn judged<W: Write>(
    alloc: Global,
    image: Image,
    err: &mut W,
) -> Result<BoundVerdict, AllocError>
    ensures { IfOk result (SaysOf image) }
{
    match verify(alloc, image) {
        Ok(verified) => Ok(BoundVerdict::Bound(verified.bound())),
        Err((Refusal::Memory | Refusal::Flow(FlowError::Memory), _)) => Ok(BoundVerdict::Unknown),
        Err((refusal, slot)) => {
            let line = verdict_line(alloc, refusal, slot)?;
            let line = String::from_str(alloc, line.as_str().trim_end())?;
            say_refused(alloc, line.as_str(), err)?;
            Ok(BoundVerdict::Refused(line))
        }
    }
}

/// Says that a text does not fill the maps, as `xdpvm_filter` does.
fn text_refused<W1: Write, W2: Write>(
    alloc: Global,
    error: MapTextError,
    path: &str,
    out: &mut W1,
    err: &mut W2,
) -> NotBegun {
    if let MapTextErrorKind::ReadFailed = error.kind {
        return NotBegun::Failed(SurveyError::of_read(alloc, path, ErrorKind::Other));
    }
    let said = match maps_line(alloc, error) {
        Ok(line) => say(alloc, line.as_str(), out),
        Err(_) => Err(SurveyError::Memory),
    };
    match said {
        Ok(()) => {
            let rejection = Rejection::Maps(error);
            if rejection.say(err).is_ok() {
                let _ = rejection.say_code(err);
            }
            NotBegun::Refused
        }
        Err(failure) => NotBegun::Failed(failure),
    }
}

/// The maps after the lines of the text that a source returns.
fn filled<S: Read + Drop, W1: Write, W2: Write>(
    alloc: Global,
    maps: Maps,
    source: S,
    path: &str,
    out: &mut W1,
    err: &mut W2,
) -> Result<Maps, NotBegun>
    ensures { IfOk result (λ filled. rows_of filled ≡ rows_of maps) }
{
    let mut maps = maps;
    let mut source = source;
    match fill_maps(&mut maps, &mut source) {
        Ok(()) => Ok(maps),
        Err(error) => Err(text_refused(alloc, error, path, out, err)),
    }
}

/// The maps of a program before the first frame: new ones, filled by the text at the path, if one
/// is given.
pub fn maps_begun<R: Files, W1: Write, W2: Write>(
    rt: &R,
    alloc: Global,
    image: &Image,
    path: Option<&str>,
    out: &mut W1,
    err: &mut W2,
) -> Result<Maps, NotBegun>
    ensures { IfOk result (λ maps. rows_of maps ≡ image.now.maps) }
{
    let Ok(maps) = Maps::new(alloc, image) else {
        return Err(NotBegun::Failed(SurveyError::Memory));
    };
    match path {
        None => Ok(maps),
        Some(path) => match fs::open(rt, path) {
            Ok(source) => filled(alloc, maps, source, path, out, err),
            Err(error) => { Err(NotBegun::Failed(SurveyError::of_read(alloc, path, error.kind()))) }
        },
    }
}

/// What a run on a frame stream begins with: the bytes of the image, the image, the same once more
/// for its verdict, the maps before the first frame, and the stream.
#[derive(Drop)]
pub struct Begun<S> {
    pub bytes: Vec<u8>,
    pub image: Image,
    pub again: Image,
    pub maps: Maps,
    pub source: Buffered<S>,
}

/// Reads the image and what its maps begin with, and opens the stream.
pub fn begin<R: Files, W1: Write, W2: Write>(
    rt: &R,
    alloc: Global,
    asked: RunAsked<'_>,
    out: &mut W1,
    err: &mut W2,
) -> Result<Begun<<R as Files>::File>, NotBegun>
    ensures spelled { IfOk result (λ begun. begun.bytes.items ≡ image_bytes begun.image) }
    ensures fits { IfOk result (λ begun. IsImage begun.image) }
    ensures again { IfOk result (λ begun. begun.again ≡ begun.image) }
    ensures rows { IfOk result (λ begun. rows_of begun.maps ≡ begun.image.maps) }
{
    let (bytes, image) = load(rt, alloc, asked.image, out, err)?;
    let again = match parsed_again(alloc, bytes.as_slice()) {
        Ok(again) => again,
        Err(failure) => return Err(NotBegun::Failed(failure)),
    };
    let maps = maps_begun(rt, alloc, &image, asked.maps, out, err)?;
    let source = open_stream(rt, alloc, asked.frames)?;
    Ok(Begun {
        bytes,
        image,
        again,
        maps,
        source,
    })
}
