//! What a program's maps hold before the first frame.

ghost use Rattle.std.specs.Prelude.{◌≡◌, ◌≢◌, IfOk, IfErr, OnOk, Some, option_map};
ghost use Rattle.commands.specs.Statuses.{IsReadFailure};
ghost use Rattle.maps.specs.Maps.{contents_of, rows_of};
ghost use Rattle.map_texts.specs.Reading.{AreFilledFrom};
ghost use Rattle.filtering.specs.Filling.{BeginsWith, BeginsNot, RefusesMapText, SaysTextError};

use commands::{TaskOutcome, say_made};
use image::Image;
use map_texts::{MapTextError, MapTextErrorKind, fill_maps};
use maps::Maps;
use messages::{Rejection, maps_line};
use std::alloc::Global;
use std::io::{ErrorKind, Read, Write};
use std::rt::Files;
use std::{fs, io};

// A source that keeps why a read of it failed.
#[derive(Drop)]
struct Noted<S> {
    source: S,
    failure: Option<ErrorKind>,
}

impl<S: Read> Read for Noted<S> {
    ghost remaining = { λ r. S.remaining r.source };

    fn read(&mut self, buffer: &mut [u8]) -> io::Result<usize> {
        match self.source.read(buffer) {
            Ok(count) => Ok(count),
            Err(error) => {
                self.failure = Some(error.kind());
                Err(error)
            }
        }
    }
}

// How the task ends where the text at the path could not be read, for this cause if it is known.
fn unread<'a>(path: &'a str, cause: Option<ErrorKind>) -> TaskOutcome<'a>
    ensures known { (kind : ErrorKind) → cause ≡ Some kind → kind ≢ ErrorKind.OutOfMemory
        → result ≡ TaskOutcome.CannotRead path.entry kind }
    ensures failed { IsReadFailure path.now result }
{
    let kind = cause.unwrap_or(ErrorKind::Other);
    TaskOutcome::of_read(path, &io::Error::from(kind))
}

// How the task ends if a text does not fill the maps; a text that could not be read failed for this
// cause.
fn text_refused<'a, W: Write>(
    alloc: Global,
    error: MapTextError,
    path: &'a str,
    cause: Option<ErrorKind>,
    out: &mut W,
) -> TaskOutcome<'a>
    ensures { SaysTextError error path.now (W.contents out.old) (W.contents out.new) result }
{
    match error.kind {
        MapTextErrorKind::ReadFailed => unread(path, cause),
        _ => say_made(
            maps_line(alloc, error),
            TaskOutcome::Refused(Rejection::Maps(error)),
            out,
        ),
    }
}

/// The maps after the lines of the text that a source returns, or how the task ends where the text
/// is refused, which standard output says, or cannot be read.
pub fn filled<'a, S: Read + Drop, W: Write>(
    alloc: Global,
    maps: Maps,
    source: S,
    path: &'a str,
    out: &mut W,
) -> Result<Maps, TaskOutcome<'a>>
    ensures ok { OnOk result (W.contents out.new ≡ W.contents out.old) }
    ensures fills { IfOk result (λ filled. AreFilledFrom (S.remaining source) maps filled (Ok tt)) }
    ensures refuses { IfErr result (λ ended. RefusesMapText (S.remaining source) maps path.now
        (W.contents out.old) (W.contents out.new) ended) }
{
    let mut maps = maps;
    let mut source = Noted {
        source,
        failure: None,
    };
    match fill_maps(&mut maps, &mut source) {
        Ok(()) => Ok(maps),
        Err(error) => Err(text_refused(alloc, error, path, source.failure, out)),
    }
}

/// The maps of a program before the first frame: new ones, filled by the text at the path, if one
/// is given. Or how the task ends without them.
pub fn maps_begun<'a, R: Files, W: Write>(
    rt: &R,
    alloc: Global,
    image: &Image,
    path: Option<&'a str>,
    out: &mut W,
) -> Result<Maps, TaskOutcome<'a>>
    ensures ok { OnOk result (W.contents out.new ≡ W.contents out.old) }
    ensures rows { IfOk result (λ maps. rows_of maps ≡ image.now.maps) }
    ensures begins { IfOk result (λ maps. BeginsWith image.now
        (option_map (λ text. text.now) path.entry) (contents_of maps)) }
    ensures none { IfErr result (λ ended. BeginsNot image.now
        (option_map (λ text. text.now) path.entry) (W.contents out.old) (W.contents out.new)
        ended) }
{
    let Ok(maps) = Maps::new(alloc, image) else {
        return Err(TaskOutcome::NoMemory);
    };
    match path {
        None => Ok(maps),
        Some(text) => match fs::open(rt, text) {
            Ok(source) => filled(alloc, maps, source, text, out),
            Err(error) => Err(TaskOutcome::of_read(text, &error)),
        },
    }
}
