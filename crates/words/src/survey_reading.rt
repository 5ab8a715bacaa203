//! What the arguments of xdpvm_survey ask for.

use super::shown::shown_lines;
use super::survey_asked::{Format, LogPart, Survey, SurveyAsked};
use super::survey_line::program;
use super::survey_run_reading::{hits_in, steps_in};
use super::tasks::WordsError;
use clap::ArgMatches;
use clap::error::ErrorKind;
use std::alloc::{AllocError, Global};
use survey_rows::Column;

// The messages for arguments that clap accepts and the program does not.
const NO_FORMAT: &str = "error: the value of --format is not table, csv or json\n";

const NO_COLUMN: &str = "error: the value of --sort is no column\n";

const NO_ONLY: &str = "error: the value of --only is not refused\n";

const NO_SLOT: &str = "error: the value of --slot is no number\n";

const NO_STATES: &str = "error: the value of --states is no number\n";

const NO_PAGE: &str =
    "error: --html writes a page on the whole search: it goes without --slot and --states\n";

const NO_MOST: &str = "error: the value of --most is no number of bytes\n";

const NO_TABLES: &str = "error: --most says how large a table of --tables may be\n";

/// How many states a log prints where no other number is given.
const STATES: u64 = 10_000;

/// Says what is wrong with the arguments.
pub fn wrong(alloc: Global, text: &str) -> WordsError {
    match String::from_str(alloc, text) {
        Ok(text) => WordsError::Wrong(text),
        Err(_) => WordsError::Memory,
    }
}

// The format that a word names; without a word, `table`.
fn format_of(word: Option<&str>) -> Option<Format> {
    match word {
        None | Some("table") => Some(Format::Table),
        Some("csv") => Some(Format::Csv),
        Some("json") => Some(Format::Json),
        Some(_) => None,
    }
}

fn format_in(alloc: Global, matches: &ArgMatches<'_>) -> Result<Format, WordsError> {
    match format_of(matches.get_str("format")) {
        Some(format) => Ok(format),
        None => Err(wrong(alloc, NO_FORMAT)),
    }
}

fn sort_in(alloc: Global, matches: &ArgMatches<'_>) -> Result<Option<Column>, WordsError> {
    match matches.get_str("sort") {
        None => Ok(None),
        Some(name) => match Column::named(name) {
            Some(column) => Ok(Some(column)),
            None => Err(wrong(alloc, NO_COLUMN)),
        },
    }
}

fn only_in(alloc: Global, matches: &ArgMatches<'_>) -> Result<bool, WordsError> {
    match matches.get_str("only") {
        None => Ok(false),
        Some("refused") => Ok(true),
        Some(_) => Err(wrong(alloc, NO_ONLY)),
    }
}

/// The number that an option gives, or what is said of one that is none.
pub fn number_in(
    alloc: Global,
    matches: &ArgMatches<'_>,
    name: &str,
    none: &str,
) -> Result<Option<u64>, WordsError> {
    match matches.get_str(name) {
        None => Ok(None),
        Some(text) => match text.parse::<u64>() {
            Ok(number) => Ok(Some(number)),
            Err(_) => Err(wrong(alloc, none)),
        },
    }
}

fn slot_in(alloc: Global, matches: &ArgMatches<'_>) -> Result<Option<usize>, WordsError> {
    match matches.get_str("slot") {
        None => Ok(None),
        Some(text) => match text.parse::<usize>() {
            Ok(slot) => Ok(Some(slot)),
            Err(_) => Err(wrong(alloc, NO_SLOT)),
        },
    }
}

// What part of the log is asked for.
fn part_in(alloc: Global, matches: &ArgMatches<'_>) -> Result<LogPart, WordsError> {
    let slot = slot_in(alloc, matches)?;
    let states = number_in(alloc, matches, "states", NO_STATES)?.unwrap_or(STATES);
    Ok(LogPart { slot, states })
}

// The log that is asked for, or the page.
fn log_in<'a>(
    alloc: Global,
    image: &'a str,
    matches: &ArgMatches<'a>,
) -> Result<SurveyAsked<'a>, WordsError> {
    if !matches.get_flag("html") {
        return Ok(SurveyAsked::Log(image, part_in(alloc, matches)?));
    }
    if matches.get_str("slot").is_some() || matches.get_str("states").is_some() {
        return Err(wrong(alloc, NO_PAGE));
    }
    Ok(SurveyAsked::Page(image))
}

// The most bytes of a table; they are said of tables that are asked for.
fn most_in(alloc: Global, matches: &ArgMatches<'_>) -> Result<Option<u64>, WordsError> {
    let most = number_in(alloc, matches, "most", NO_MOST)?;
    if most.is_some() && matches.get_str("tables").is_none() {
        return Err(wrong(alloc, NO_TABLES));
    }
    Ok(most)
}

fn survey_in<'a>(alloc: Global, matches: &ArgMatches<'a>) -> Result<Survey<'a>, WordsError> {
    let format = format_in(alloc, matches)?;
    let sort = sort_in(alloc, matches)?;
    let only_refused = only_in(alloc, matches)?;
    let most = most_in(alloc, matches)?;
    let paths = match matches.get_strs("paths") {
        Some(paths) => Vec::from_slice(alloc, paths)?,
        None => Vec::new(alloc),
    };
    Ok(Survey {
        paths,
        format,
        sort,
        only_refused,
        has_header: !matches.get_flag("no-header"),
        earlier: matches.get_str("compare"),
        tables: matches.get_str("tables"),
        most,
    })
}

// What a command asks for.
fn look_in<'a>(
    alloc: Global,
    name: &str,
    matches: &ArgMatches<'a>,
) -> Result<SurveyAsked<'a>, WordsError> {
    let Some(image) = matches.get_str("image") else {
        return Err(WordsError::Wrong(String::new(alloc)));
    };
    match name {
        "hits" => hits_in(alloc, matches),
        "steps" => steps_in(alloc, matches),
        "log" => log_in(alloc, image, matches),
        _ if matches.get_flag("dot") => Ok(SurveyAsked::Graph(image)),
        _ => Ok(SurveyAsked::Listing(image)),
    }
}

// What clap says of the arguments.
fn error_text(alloc: Global, error: &clap::Error) -> Result<String, AllocError> {
    let text = format!(in alloc; "{error}")?;
    shown_lines(alloc, text.as_str())
}

// Why clap did not accept the arguments, or the help that they ask for.
fn words_error_of(alloc: Global, error: &clap::Error) -> WordsError {
    match error.kind() {
        ErrorKind::OutOfMemory => WordsError::Memory,
        _ => match error_text(alloc, error) {
            Ok(text) => WordsError::Wrong(text),
            Err(_) => WordsError::Memory,
        },
    }
}

/// Returns what the arguments ask for. The first word is the program's name.
pub fn read_survey_words<'a>(
    alloc: Global,
    words: &'a [String],
) -> Result<SurveyAsked<'a>, WordsError> {
    let matches = match program(alloc)?.try_get_matches_from(words) {
        Ok(matches) => matches,
        Err(error) => return Err(words_error_of(alloc, &error)),
    };
    match matches.subcommand() {
        Some((name, given)) => look_in(alloc, name, given),
        None => Ok(SurveyAsked::Survey(survey_in(alloc, &matches)?)),
    }
}
