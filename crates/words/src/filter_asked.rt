//! What the arguments of xdpvm_filter ask for.

ghost use Rattle.std.specs.Prelude.{◌≡◌, ◌⊎◌, true, false, None, map, option_map, IfErr};
ghost use Rattle.std.specs.String.{string_bytes};
ghost use Rattle.clap.specs.Words.{found_of, kind_of, rows_of};
ghost use Rattle.words.specs.FilterAsked.{FilterAsksFor, FilterTellsOf, IsUnshown, HasText, TellsConverted, TellsJudging, TellsKind, TellsNumber, asked_by, convert_request_in, converted_in, filter_request_in, is_given, judging_by, judging_in, kind_in, kind_named, number_in, number_of, show_request_in};

use super::asked::{NO_LIMIT, is_all_digits, limit_of, message_of, paths_in, value_in};
use super::filter_commands::{FilterCommand, command_in};
use super::filter_line::line_of;
use super::filter_tasks::{
    ConvertTask, FilterTask, FilterWordsError, FramesKind, Judging, OperatorTask,
};
use super::tasks::StepLimit;
use clap::ArgMatches;
use clap::error::ErrorKind;
use isa_model::MAX_STEPS;
use std::alloc::Global;

// The messages for arguments that clap accepts and the program does not.
const TWO_WAYS: &str = "error: --table and --checked exclude each other\n";

const UNUSED_LIMIT: &str = "error: --limit is of use only with --checked\n";

const NO_KIND: &str = "error: the value of --to is not pcap, pcapng, frames or text\n";

const NO_INTERFACE: &str = "error: the value of --interface is not a number from 0 to 4294967295\n";

const NO_QUEUE: &str = "error: the value of --queue is not a number from 0 to 4294967295\n";

// Whether an option is given that takes no value.
fn is_given(matches: &ArgMatches<'_>, name: &str) -> bool
    ensures { result ≡ is_given name.now (rows_of (found_of matches.now)) }
{
    match value_in(matches, name) {
        Some(text) => text == "true",
        None => false,
    }
}

// With every access tested: the limit that is given, or the greatest.
fn checked_by<'a>(limit: Option<&str>) -> Result<Judging<'a>, &'static str>
    ensures { TellsJudging (judging_by true None (option_map (λ text. text.now) limit.entry))
        result }
{
    match limit {
        None => Ok(Judging::Checked(StepLimit { steps: MAX_STEPS })),
        Some(text) => match limit_of(text) {
            Some(limit) => Ok(Judging::Checked(limit)),
            None => Err(NO_LIMIT),
        },
    }
}

// Without: the table that is given takes the place of the verifier.
fn judged_by<'a>(table: Option<&'a str>, limit: Option<&str>) -> Result<Judging<'a>, &'static str>
    ensures { TellsJudging (judging_by false (option_map (λ path. path.now) table.entry)
        (option_map (λ text. text.now) limit.entry)) result }
{
    if limit.is_some() {
        return Err(UNUSED_LIMIT);
    }
    match table {
        Some(table) => Ok(Judging::Shown(table)),
        None => Ok(Judging::Verified),
    }
}

// What is done before the run, or the message why these options do not go together.
fn judging_by<'a>(
    is_checked: bool,
    table: Option<&'a str>,
    limit: Option<&str>,
) -> Result<Judging<'a>, &'static str>
    ensures { TellsJudging (judging_by is_checked (option_map (λ path. path.now) table.entry)
        (option_map (λ text. text.now) limit.entry)) result }
{
    if !is_checked {
        return judged_by(table, limit);
    }
    match table {
        Some(_) => Err(TWO_WAYS),
        None => checked_by(limit),
    }
}

// What is done before the run, by the options that are given.
fn judging_in<'a>(matches: &ArgMatches<'a>) -> Result<Judging<'a>, &'static str>
    ensures { TellsJudging (judging_in (rows_of (found_of matches.now))) result }
{
    let is_checked = is_given(matches, "checked");
    let table = value_in(matches, "table");
    judging_by(is_checked, table, value_in(matches, "limit"))
}

// The error for arguments that the program does not accept, with this message.
fn wrong(alloc: Global, message: &str) -> FilterWordsError
    ensures { IsUnshown result }
{
    match String::from_str(alloc, message) {
        Ok(text) => FilterWordsError::Wrong(text),
        Err(_) => FilterWordsError::Memory,
    }
}

// The run of a command line that clap accepts.
fn filter_in<'a>(
    alloc: Global,
    matches: &ArgMatches<'a>,
) -> Result<OperatorTask<'a>, FilterWordsError>
    ensures tells { FilterTellsOf (filter_request_in (rows_of (found_of matches.now))) result }
    ensures unshown { IfErr result IsUnshown }
{
    let Some(paths) = paths_in(matches) else {
        return Err(wrong(alloc, ""));
    };
    match judging_in(matches) {
        Ok(judging) => Ok(OperatorTask::Filter(FilterTask {
            paths,
            judging,
            maps: value_in(matches, "maps"),
            maps_out: value_in(matches, "maps-out"),
            report: value_in(matches, "report"),
        })),
        Err(message) => Err(wrong(alloc, message)),
    }
}

// What frames become by this name.
fn kind_named(name: &str) -> Option<FramesKind>
    ensures { result ≡ kind_named name.now }
{
    match name {
        "pcap" => Some(FramesKind::Pcap),
        "pcapng" => Some(FramesKind::Pcapng),
        "frames" => Some(FramesKind::Stream),
        "text" => Some(FramesKind::Text),
        _ => None,
    }
}

// What frames become, if that is said, or the message why it is nothing.
fn kind_in(matches: &ArgMatches<'_>) -> Result<Option<FramesKind>, &'static str>
    ensures { TellsKind (kind_in (rows_of (found_of matches.now))) result }
{
    match value_in(matches, "to") {
        None => Ok(None),
        Some(name) => match kind_named(name) {
            Some(kind) => Ok(Some(kind)),
            None => Err(NO_KIND),
        },
    }
}

// A number: decimal digits, of 32 bits.
fn number_of(text: &str) -> Option<u32>
    ensures { result ≡ number_of text.now }
{
    if text.is_empty() || !is_all_digits(text.as_bytes()) {
        return None;
    }
    match text.parse::<u32>() {
        Ok(number) => Some(number),
        Err(_) => None,
    }
}

// The number of an option, if it is given, or this message if its value is none.
fn number_in(
    matches: &ArgMatches<'_>,
    name: &str,
    message: &'static str,
) -> Result<Option<u32>, &'static str>
    ensures { TellsNumber (number_in name.now (rows_of (found_of matches.now))) result }
{
    match value_in(matches, name) {
        None => Ok(None),
        Some(text) => match number_of(text) {
            Some(number) => Ok(Some(number)),
            None => Err(message),
        },
    }
}

// What is done with the frames of a file for an output, by the options that are given, or the
// message why it is nothing.
fn converted_in<'a>(
    frames: &'a str,
    out: &'a str,
    matches: &ArgMatches<'a>,
) -> Result<ConvertTask<'a>, &'static str>
    ensures { TellsConverted
        (converted_in frames.now out.now (rows_of (found_of matches.now))) result }
{
    let kind = kind_in(matches)?;
    let interface = number_in(matches, "interface", NO_INTERFACE)?;
    let queue = number_in(matches, "queue", NO_QUEUE)?;
    Ok(ConvertTask {
        frames,
        out,
        kind,
        has_reasons: is_given(matches, "reasons"),
        interface,
        queue,
    })
}

// The frames of a command line that clap accepts, and what they become.
fn convert_in<'a>(
    alloc: Global,
    matches: &ArgMatches<'a>,
) -> Result<OperatorTask<'a>, FilterWordsError>
    ensures tells { FilterTellsOf (convert_request_in (rows_of (found_of matches.now))) result }
    ensures unshown { IfErr result IsUnshown }
{
    let (Some(frames), Some(out)) = (value_in(matches, "in"), value_in(matches, "out")) else {
        return Err(wrong(alloc, ""));
    };
    match converted_in(frames, out, matches) {
        Ok(task) => Ok(OperatorTask::Convert(task)),
        Err(message) => Err(wrong(alloc, message)),
    }
}

// The frames of a command line that clap accepts, which are printed.
fn show_in<'a>(
    alloc: Global,
    matches: &ArgMatches<'a>,
) -> Result<OperatorTask<'a>, FilterWordsError>
    ensures tells { FilterTellsOf (show_request_in (rows_of (found_of matches.now))) result }
    ensures unshown { IfErr result IsUnshown }
{
    let Some(frames) = value_in(matches, "in") else {
        return Err(wrong(alloc, ""));
    };
    Ok(OperatorTask::Convert(ConvertTask {
        frames,
        out: "-",
        kind: Some(FramesKind::Text),
        has_reasons: false,
        interface: None,
        queue: None,
    }))
}

// The task of a command line that clap accepts.
fn task_in<'a>(
    alloc: Global,
    command: FilterCommand,
    matches: &ArgMatches<'a>,
) -> Result<OperatorTask<'a>, FilterWordsError>
    ensures tells { FilterTellsOf (asked_by command (rows_of (found_of matches.now))) result }
    ensures unshown { IfErr result IsUnshown }
{
    match command {
        FilterCommand::Filter => filter_in(alloc, matches),
        FilterCommand::Convert => convert_in(alloc, matches),
        FilterCommand::Show => show_in(alloc, matches),
    }
}

// Why a command line was not accepted, or the text that it asks for.
fn filter_error_of(alloc: Global, error: &clap::Error) -> FilterWordsError
    ensures memory { kind_of error.now ≡ ErrorKind.OutOfMemory → result ≡ FilterWordsError.Memory }
    ensures shown { HasText result → (kind_of error.now ≡ ErrorKind.DisplayHelp)
        ⊎ (kind_of error.now ≡ ErrorKind.DisplayVersion) }
{
    match (error.kind(), message_of(alloc, error)) {
        (ErrorKind::OutOfMemory, _) | (_, Err(_)) => FilterWordsError::Memory,
        (ErrorKind::DisplayHelp | ErrorKind::DisplayVersion, Ok(text)) => {
            FilterWordsError::Shown(text)
        }
        (_, Ok(text)) => FilterWordsError::Wrong(text),
    }
}

/// Returns what the arguments of xdpvm_filter ask for. The first word is the program's name.
pub fn read_filter_words<'a>(
    alloc: Global,
    words: &'a [String],
) -> Result<OperatorTask<'a>, FilterWordsError>
    ensures { FilterAsksFor (map string_bytes words.now) result }
{
    let (command, line) = command_in(words);
    let matches = match line_of(alloc, command)?.try_get_matches_from(line) {
        Ok(matches) => matches,
        Err(error) => return Err(filter_error_of(alloc, &error)),
    };
    task_in(alloc, command, &matches)
}
