//! What the program does for its arguments, and the status that it ends with.

ghost use Rattle.std.specs.Prelude.{◌≤◌, IfOk};
ghost use Rattle.survey_commands.specs.Ends.{IsStatusOf};

use crate::failures::SurveyError;
use crate::hits::print_hits;
use crate::looks::{Look, look_at};
use crate::pages::show_page;
use crate::steps::print_steps;
use crate::surveying::survey;
use exact_io::PromptWriter;
use std::io::Write;
use std::rt::{Clock, Files};
use words::{SurveyAsked, WordsError, read_survey_words};

/// Does what is asked for, and returns the status.
fn serve<R: Files + Clock + AllocGlobal + Clone + Drop, W1: Write, W2: Write>(
    rt: &R,
    asked: &SurveyAsked<'_>,
    has_progress: bool,
    out: &mut W1,
    err: &mut W2,
) -> Result<u8, SurveyError>
    ensures ends { IfOk result (IsStatusOf asked.now) }
    ensures most { IfOk result (λ status. status ≤ 5) }
{
    match asked {
        SurveyAsked::Survey(wanted) => survey(rt, wanted, has_progress, out, err),
        SurveyAsked::Log(path, part) => look_at(rt, *path, Look::Log(*part), out, err),
        SurveyAsked::Page(path) => show_page(rt, *path, out, err),
        SurveyAsked::Listing(path) => look_at(rt, *path, Look::Listing, out, err),
        SurveyAsked::Graph(path) => look_at(rt, *path, Look::Graph, out, err),
        SurveyAsked::Hits(run, format) => print_hits(rt, *run, *format, out, err),
        SurveyAsked::Steps(run, frame, is_json) => print_steps(
            rt, *run, *frame, *is_json, out, err,
        ),
    }
}

/// Flushes standard output after a task that has not failed. If the flush fails, that is how the
/// task ended.
fn flushed<R: AllocGlobal, W: Write + Drop>(
    rt: &R,
    ended: Result<u8, SurveyError>,
    out: &mut PromptWriter<W>,
) -> Result<u8, SurveyError>
    requires { IfOk ended (λ status. status ≤ 5) }
    ensures { IfOk result (λ status. status ≤ 5) }
{
    let status = ended?;
    match out.flush() {
        Ok(()) => Ok(status),
        Err(error) => Err(SurveyError::of_output(rt.alloc(), error.kind())),
    }
}

/// Does what the arguments ask for, and returns the program's status: 0 all images are accepted, 1
/// invalid arguments, 2 one is refused, 3 a stream had a fault, 4 a file or an output failed, 5 out
/// of memory. With
/// `has_progress` the progress of a survey is written to standard error.
pub fn execute<R: Files + Clock + AllocGlobal + Clone + Drop, W1: Write + Drop, W2: Write>(
    rt: &R,
    words: &[String],
    has_progress: bool,
    out: &mut PromptWriter<W1>,
    err: &mut W2,
) -> u8
    ensures { result ≤ 5 }
{
    let asked = match read_survey_words(rt.alloc(), words) {
        Ok(asked) => asked,
        Err(error) => return SurveyError::of_words(error).tell(err),
    };
    let ended = serve(rt, &asked, has_progress, out, err);
    match flushed(rt, ended, out) {
        Ok(status) => status,
        Err(failure) => failure.tell(err),
    }
}

/// Does what the program's arguments ask for, and returns its status; if they could not be read,
/// standard error says why.
pub fn execute_given<R: Files + Clock + AllocGlobal + Clone + Drop, W1: Write + Drop, W2: Write>(
    rt: &R,
    given: Result<Vec<String>, WordsError>,
    has_progress: bool,
    out: &mut PromptWriter<W1>,
    err: &mut W2,
) -> u8
    ensures { result ≤ 5 }
{
    match given {
        Ok(words) => execute(rt, words.as_slice(), has_progress, out, err),
        Err(error) => SurveyError::of_words(error).tell(err),
    }
}
