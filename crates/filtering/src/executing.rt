//! What the program does for its arguments, and the status that it ends with.

ghost use Rattle.std.specs.Prelude.{◌≡◌, ◌≤◌, map, MatchResult};
ghost use Rattle.std.specs.String.{string_bytes};
ghost use Rattle.exact_io.specs.Waiting.{held};
ghost use Rattle.words.specs.FilterRequests.{convert_request_of, filter_request_of, operator_request_of};
ghost use Rattle.exact_io.specs.Replacing.{written};
ghost use Rattle.commands.specs.Saying.{AppendsPart};
ghost use Rattle.commands.specs.Statuses.{status_of};
ghost use Rattle.filtering.specs.Executing.{ConvertsWhole, FiltersWords, FiltersWhole, SaysNoTask, SaysOnOutput, ServesRequest, TellsUnread, other_form, told_converted};

use super::conversions::{Conversion, convert_files};
use super::files::filter_files;
use super::opening::is_dash;
use commands::{Ending, TaskOutcome, say_line};
use exact_io::PromptWriter;
use isa_model::Fault;
use messages::{FileForm, write_texts};
use std::alloc::Global;
use std::io::Write;
use std::rt::{Clock, Files};
use words::{
    ConvertTask, FilterTask, FilterWordsError, NOT_UNICODE, OperatorTask, WordsError,
    read_filter_words,
};

const USAGE: &str =
    "usage: xdpvm_filter IMAGE FRAMES OUT\n       xdpvm_filter convert IN OUT\n       \
     xdpvm_filter show IN\n";

// The message for an output of frames that are written again.
const UNNAMED: &str =
    "error: the name of OUT does not say what it is to be: let it end in .pcap, .pcapng, .frames \
     or .txt, or give --to KIND\n";

// Does what the task says: a refusal and the counts are said on standard output.
fn serve_output<R: Files + Clock, W1: Write + Drop, W2: Write>(
    rt: &R,
    alloc: Global,
    task: FilterTask<'_>,
    out: &mut PromptWriter<W1>,
    err: &mut W2,
) -> u8
    ensures { SaysOnOutput W1.contents (filter_request_of task.entry) out.old out.new
        (W2.contents err.old) (W2.contents err.new) result }
{
    filter_files(rt, alloc, task, out).flushed(out).tell(err)
}

// Does what the task says: a refusal and the counts are said on standard output, or on standard
// error, if the frames out go to standard output.
fn serve_filter<R: Files + Clock, W1: Write + Drop, W2: Write>(
    rt: &R,
    alloc: Global,
    task: FilterTask<'_>,
    out: &mut PromptWriter<W1>,
    err: &mut W2,
) -> u8
    ensures { FiltersWhole W1.contents (filter_request_of task.entry) out.old out.new
        (W2.contents err.old) (W2.contents err.new) result }
{
    if is_dash(task.paths.out) {
        filter_files(rt, alloc, task, err).tell(err)
    } else {
        serve_output(rt, alloc, task, out, err)
    }
}

// What the file is, if the task ended since it is neither a frame stream nor a capture.
fn other_form(outcome: TaskOutcome<'_>) -> Option<FileForm>
    ensures { result ≡ other_form outcome.entry }
{
    match outcome {
        TaskOutcome::Faulted(fault, form) => match fault {
            Fault::BadMagic => Some(form),
            _ => None,
        },
        _ => None,
    }
}

// Says how the task ended for which frames were written again, and returns the status. Of a file
// that is neither a frame stream nor a capture it is said what it is.
fn tell_converted<W: Write>(ending: Ending<'_>, err: &mut W) -> u8
    ensures status { result ≡ status_of ending.entry.outcome }
    ensures said { AppendsPart (W.contents err.old) (W.contents err.new)
        (told_converted ending.entry) }
{
    match other_form(ending.outcome) {
        Some(form) => {
            let _ = write_texts(err, Fault::BadMagic.sentence(), form.stream_line(), "");
            3
        }
        None => ending.tell(err),
    }
}

// Writes frames again. Standard error is said what went wrong, or what a capture does not say.
fn serve_conversion<R: Files + Clock, W1: Write + Drop, W2: Write>(
    rt: &R,
    alloc: Global,
    task: ConvertTask<'_>,
    out: &mut PromptWriter<W1>,
    err: &mut W2,
) -> u8
    ensures { ConvertsWhole W1.contents (written R.File.contents) (convert_request_of task.entry)
        out.old out.new (W2.contents err.old) (W2.contents err.new) result }
{
    match convert_files(rt, alloc, task, out) {
        Conversion::Ended(ending) => tell_converted(ending, err),
        Conversion::Unnamed => {
            let _ = write_texts(err, UNNAMED, USAGE, "");
            1
        }
    }
}

// Does what the task says.
fn serve<R: Files + Clock, W1: Write + Drop, W2: Write>(
    rt: &R,
    alloc: Global,
    task: OperatorTask<'_>,
    out: &mut PromptWriter<W1>,
    err: &mut W2,
) -> u8
    ensures { ServesRequest W1.contents (written R.File.contents) (operator_request_of task.entry)
        out.old out.new (W2.contents err.old) (W2.contents err.new) result }
{
    match task {
        OperatorTask::Filter(task) => serve_filter(rt, alloc, task, out, err),
        OperatorTask::Convert(task) => serve_conversion(rt, alloc, task, out, err),
    }
}

// Says why the arguments ask for nothing, or what they ask for in its place.
fn say_no_task<W1: Write + Drop, W2: Write>(
    error: FilterWordsError,
    out: &mut PromptWriter<W1>,
    err: &mut W2,
) -> u8
    ensures { SaysNoTask W1.contents error out.old out.new (W2.contents err.old)
        (W2.contents err.new) result }
{
    match error {
        FilterWordsError::Shown(text) => {
            let outcome = say_line(text.as_str(), TaskOutcome::Done, out);
            Ending::plain(outcome).flushed(out).tell(err)
        }
        FilterWordsError::Wrong(text) => {
            let _ = write_texts(err, text.as_str(), USAGE, "");
            1
        }
        FilterWordsError::Memory => TaskOutcome::NoMemory.tell(err),
    }
}

// Says why the arguments could not be read.
fn say_unread<W: Write>(error: WordsError, err: &mut W) -> u8
    ensures { TellsUnread error (W.contents err.old) (W.contents err.new) result }
{
    match error {
        WordsError::Wrong(text) => {
            let _ = write_texts(err, text.as_str(), USAGE, "");
            1
        }
        WordsError::NotUnicode => {
            let _ = write_texts(err, NOT_UNICODE, USAGE, "");
            1
        }
        WordsError::Memory => TaskOutcome::NoMemory.tell(err),
    }
}

/// Does what the arguments ask for, and returns the program's status: 0 done, 1 invalid arguments,
/// 2 refused, 3 the frame stream has a fault, 4 a file or an output failed, 5 out of memory.
///
/// `filter_asked` says what the arguments ask for, on which files. `FiltersFiles` says what a run
/// does: the report and the frames out are exactly those of the image's program, of the contents of
/// the maps and of the frames; the counts are that report's. `ConvertsFiles` says what becomes of
/// frames that are written again. No contract can say what a file holds.
///
/// The first word is the program's name. `out` is standard output with its buffer, and `err` is
/// standard error.
pub fn execute<R: Files + Clock + AllocGlobal, W1: Write + Drop, W2: Write>(
    rt: &R,
    words: &[String],
    out: &mut PromptWriter<W1>,
    err: &mut W2,
) -> u8
    ensures executes { FiltersWords W1.contents (written R.File.contents)
        (map string_bytes words.now) out.old out.new (W2.contents err.old) (W2.contents err.new)
        result }
    ensures statuses { result ≤ 5 }
{
    let alloc = rt.alloc();
    match read_filter_words(alloc, words) {
        Ok(task) => serve(rt, alloc, task, out, err),
        Err(error) => say_no_task(error, out, err),
    }
}

/// Does what the program's arguments ask for, and returns its status; if they could not be read,
/// standard error says why.
pub fn execute_given<R: Files + Clock + AllocGlobal, W1: Write + Drop, W2: Write>(
    rt: &R,
    given: Result<Vec<String>, WordsError>,
    out: &mut PromptWriter<W1>,
    err: &mut W2,
) -> u8
    ensures { MatchResult given
        (λ words. FiltersWords W1.contents (written R.File.contents) (map string_bytes words.items)
        out.old out.new (W2.contents err.old) (W2.contents err.new) result)
        (λ error. (out.new ≡ out.old)
        × TellsUnread error (W2.contents err.old) (W2.contents err.new) result) }
{
    match given {
        Ok(words) => execute(rt, words.as_slice(), out, err),
        Err(error) => say_unread(error, err),
    }
}
