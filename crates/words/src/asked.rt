//! What the arguments on the command line ask for.

ghost use Rattle.std.specs.Prelude.{◌≡◌, map, option_map};
ghost use Rattle.std.specs.List.{list_all};
ghost use Rattle.std.specs.Char.{is_ascii_digit};
ghost use Rattle.std.specs.String.{string_bytes};
ghost use Rattle.clap.specs.Words.{first_of, found_of, kind_of, rows_of};
ghost use Rattle.words.specs.Requests.{files_of, table_files_of, request_of};
ghost use Rattle.words.specs.Asked.{AsksFor, TellsOf, assembly_of, files_in, limit_in, limit_of, table_files_in, request_by, run_of, trace_of};

use super::command_line::program;
use super::shown::shown_lines;
use super::tasks::{AssemblyPaths, RunPaths, StepLimit, TablePaths, Task, WordsError};
use clap::ArgMatches;
use clap::error::ErrorKind;
use isa_model::MAX_STEPS;
use std::alloc::{AllocError, Global};

/// The message for a limit that is none.
pub const NO_LIMIT: &str = "error: the value of --limit is not a number from 1 to 1000000\n";

/// Whether each byte is a decimal digit.
pub fn is_all_digits(text: &[u8]) -> bool
    ensures { result ≡ list_all is_ascii_digit text.now }
{
    text.iter().all(|b| b.is_ascii_digit())
}

/// A limit: decimal digits, from 1 to 1,000,000.
pub fn limit_of(text: &str) -> Option<StepLimit>
    ensures { option_map (λ limit. limit.steps) result ≡ limit_of text.now }
{
    if text.is_empty() || !is_all_digits(text.as_bytes()) {
        return None;
    }
    match text.parse::<u32>() {
        Ok(steps) if steps >= 1 && steps <= MAX_STEPS => Some(StepLimit { steps }),
        _ => None,
    }
}

/// The value of an argument.
pub fn value_in<'a>(matches: &ArgMatches<'a>, name: &str) -> Option<&'a str>
    ensures { option_map (λ value. value.now) result
        ≡ first_of name.now (rows_of (found_of matches.now)) }
{
    matches.get_str(name)
}

/// The image, the frames, and the frames out.
pub fn paths_in<'a>(matches: &ArgMatches<'a>) -> Option<RunPaths<'a>>
    ensures { option_map files_of result ≡ files_in (rows_of (found_of matches.now)) }
{
    Some(RunPaths {
        image: value_in(matches, "image")?,
        frames: value_in(matches, "frames")?,
        out: value_in(matches, "out")?,
    })
}

// The limit that is given, or the greatest.
fn limit_in(matches: &ArgMatches<'_>) -> Option<StepLimit>
    ensures { option_map (λ limit. limit.steps) result ≡ limit_in (rows_of (found_of matches.now)) }
{
    match value_in(matches, "limit") {
        None => Some(StepLimit { steps: MAX_STEPS }),
        Some(text) => limit_of(text),
    }
}

// If a proof table is given, it is rechecked in place of verifying the program.
fn run_in<'a>(matches: &ArgMatches<'a>) -> Option<Task<'a>>
    ensures { option_map request_of result ≡ run_of (rows_of (found_of matches.now)) }
{
    Some(Task::Run(paths_in(matches)?, value_in(matches, "table")))
}

fn table_paths_in<'a>(matches: &ArgMatches<'a>) -> Option<TablePaths<'a>>
    ensures { option_map table_files_of result ≡ table_files_in (rows_of (found_of matches.now)) }
{
    Some(TablePaths {
        image: value_in(matches, "image")?,
        table: value_in(matches, "table")?,
    })
}

fn trace_in<'a>(matches: &ArgMatches<'a>) -> Option<Task<'a>>
    ensures { option_map request_of result ≡ trace_of (rows_of (found_of matches.now)) }
{
    Some(Task::Trace(paths_in(matches)?, limit_in(matches)?))
}

fn assembly_in<'a>(matches: &ArgMatches<'a>) -> Option<Task<'a>>
    ensures { option_map request_of result ≡ assembly_of (rows_of (found_of matches.now)) }
{
    Some(Task::Assemble(AssemblyPaths {
        text: value_in(matches, "text")?,
        image: value_in(matches, "image")?,
    }))
}

// What the command of this name asks for with these arguments.
fn task_of<'a>(name: &str, matches: &ArgMatches<'a>) -> Option<Task<'a>>
    ensures { option_map request_of result ≡ request_by name.now (rows_of (found_of matches.now)) }
{
    match name {
        "run" => run_in(matches),
        "verify" => Some(Task::Verify(value_in(matches, "image")?)),
        "trace" => trace_in(matches),
        "asm" => assembly_in(matches),
        "dis" => Some(Task::Disassemble(value_in(matches, "image")?)),
        "prove" => Some(Task::Prove(table_paths_in(matches)?)),
        "recheck" => Some(Task::Recheck(table_paths_in(matches)?)),
        "explain" => Some(Task::Explain(value_in(matches, "code")?)),
        _ => None,
    }
}

// The task, if the command of this name is given with arguments that it takes.
fn wanted_task<'a>(
    alloc: Global,
    name: &str,
    matches: &ArgMatches<'a>,
) -> Result<Task<'a>, WordsError>
    ensures { TellsOf (request_by name.now (rows_of (found_of matches.now))) result }
{
    match task_of(name, matches) {
        Some(task) => Ok(task),
        None => Err(WordsError::Wrong(String::from_str(alloc, NO_LIMIT)?)),
    }
}

// A message of clap without its tip to put two hyphens before an argument: one that looks like an
// option is not meant as a file.
fn without_tip(alloc: Global, message: String) -> Result<String, AllocError> {
    if let Some((front, tip)) = message.as_str().split_once("\n\n  tip: to pass '") {
        if let Some((_, back)) = tip.split_once("\n\nUsage: ") {
            return format!(in alloc; "{front}\n\nUsage: {back}");
        }
    }
    Ok(message)
}

/// Returns what clap prints for a command line that it did not accept, or for help or the version;
/// control characters of arguments are shown as escapes.
pub fn message_of(alloc: Global, error: &clap::Error) -> Result<String, AllocError> {
    let message = without_tip(alloc, format!(in alloc; "{error}")?)?;
    shown_lines(alloc, message.as_str())
}

// Why a command line was not accepted.
fn words_error_of(alloc: Global, error: &clap::Error) -> WordsError
    ensures { kind_of error.now ≡ ErrorKind.OutOfMemory → result ≡ WordsError.Memory }
{
    match error.kind() {
        ErrorKind::OutOfMemory => WordsError::Memory,
        _ => match message_of(alloc, error) {
            Ok(message) => WordsError::Wrong(message),
            Err(_) => WordsError::Memory,
        },
    }
}

/// Returns what the arguments ask for. The first word is the program's name.
pub fn read_words<'a>(alloc: Global, words: &'a [String]) -> Result<Task<'a>, WordsError>
    ensures { AsksFor (map string_bytes words.now) result }
{
    let matches = match program(alloc)?.try_get_matches_from(words) {
        Ok(matches) => matches,
        Err(error) => return Err(words_error_of(alloc, &error)),
    };
    match matches.subcommand() {
        Some((name, given)) => wanted_task(alloc, name, given),
        None => Err(WordsError::Wrong(String::new(alloc))),
    }
}
