//! What the commands of xdpvm_survey that run an image on a frame stream ask for.

ghost use Rattle.std.specs.Prelude.{◌≡◌, ◌≤◌, MatchOption};
ghost use Rattle.isa_model.specs.Code.Limits.{max_steps};

use super::survey_asked::{Format, RunAsked, SurveyAsked};
use super::survey_reading::{number_in, wrong};
use super::tasks::{StepLimit, WordsError};
use clap::ArgMatches;
use isa_model::MAX_STEPS;
use std::alloc::Global;

const NO_FORMAT: &str = "error: the value of --format is not text, csv or json\n";

const NO_LIMIT: &str = "error: the value of --limit is no number from 1 to 1000000\n";

const NO_FRAME: &str = "error: the value of --frame is no number of a frame\n";

// The format that a word names; without a word, text.
fn format_of(word: Option<&str>) -> Option<Format> {
    match word {
        None | Some("text") => Some(Format::Table),
        Some("csv") => Some(Format::Csv),
        Some("json") => Some(Format::Json),
        Some(_) => None,
    }
}

fn format_in(alloc: Global, matches: &ArgMatches<'_>) -> Result<Format, WordsError> {
    match format_of(matches.get_str("format")) {
        Some(format) => Ok(format),
        None => Err(wrong(alloc, NO_FORMAT)),
    }
}

// A limit of so many steps, if a run may have it.
fn limit_of(steps: u64) -> Option<StepLimit>
    ensures { MatchOption result ((1 ≤ steps) → (steps ≤ max_steps) → ⊥)
        (λ limit. limit.steps ≡ steps) }
{
    if steps < 1 || steps > u64::from(MAX_STEPS) {
        return None;
    }
    Some(StepLimit {
        steps: steps as u32,
    })
}

// The limit that is given, or the greatest.
fn limit_in(alloc: Global, matches: &ArgMatches<'_>) -> Result<StepLimit, WordsError> {
    let steps = number_in(alloc, matches, "limit", NO_LIMIT)?.unwrap_or(u64::from(MAX_STEPS));
    match limit_of(steps) {
        Some(limit) => Ok(limit),
        None => Err(wrong(alloc, NO_LIMIT)),
    }
}

// The number of the frame.
fn frame_in(alloc: Global, matches: &ArgMatches<'_>) -> Result<u32, WordsError> {
    match matches.get_str("frame") {
        None => Err(wrong(alloc, NO_FRAME)),
        Some(text) => match text.parse::<u32>() {
            Ok(number) => Ok(number),
            Err(_) => Err(wrong(alloc, NO_FRAME)),
        },
    }
}

// The image and the frames, and how they are run.
fn run_in<'a>(alloc: Global, matches: &ArgMatches<'a>) -> Result<RunAsked<'a>, WordsError> {
    let limit = limit_in(alloc, matches)?;
    match (matches.get_str("image"), matches.get_str("frames")) {
        (Some(image), Some(frames)) => Ok(RunAsked {
            image,
            frames,
            maps: matches.get_str("maps"),
            limit,
        }),
        _ => Err(WordsError::Wrong(String::new(alloc))),
    }
}

/// The counts that are asked for.
pub fn hits_in<'a>(alloc: Global, matches: &ArgMatches<'a>) -> Result<SurveyAsked<'a>, WordsError> {
    let asked = run_in(alloc, matches)?;
    Ok(SurveyAsked::Hits(asked, format_in(alloc, matches)?))
}

/// The steps that are asked for.
pub fn steps_in<'a>(
    alloc: Global,
    matches: &ArgMatches<'a>,
) -> Result<SurveyAsked<'a>, WordsError> {
    let asked = run_in(alloc, matches)?;
    let frame = frame_in(alloc, matches)?;
    Ok(SurveyAsked::Steps(asked, frame, matches.get_flag("json")))
}
