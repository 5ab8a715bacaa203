//! Why the program ends early, and its message then.

ghost use Rattle.std.specs.Prelude.{◌≡◌, ◌≢◌, ◌≤◌, []};
ghost use Rattle.survey_commands.specs.Failures.{IsUnread, IsUnwritten, failure_status};

use exact_io::write_bytes;
use messages::{STANDARD_OUTPUT, say_failed_write, say_unread, write_texts};
use std::alloc::{AllocError, Global};
use std::io::{ErrorKind, Write};
use survey_rows::shown;
use words::{NOT_UNICODE, WordsError};

const USAGE: &str =
    "usage: xdpvm_survey IMAGE|FOLDER .. | log IMAGE | dis IMAGE | hits IMAGE FRAMES | steps IMAGE \
     FRAMES --frame K\n";

/// The status where a file or an output failed.
const FILE_FAILED: u8 = 4;

/// Says why the program ends early.
#[derive(Drop)]
pub enum SurveyError {
    /// No command was given in full. The text says what is wrong, or is the help.
    Words(String),
    /// An argument is not UTF-8.
    NotUnicode,
    /// The file at the path cannot be read.
    Unread(String, ErrorKind),
    /// The file or output of this name cannot be written.
    Unwritten(String, ErrorKind),
    /// A file is not what it has to be, as the text says.
    File(String),
    Memory,
}

impl From<AllocError> for SurveyError {
    ghost use Rattle.std.specs.Prelude.{◌≡◌, ◌≤◌};
    ghost use Rattle.survey_commands.specs.declared.failures.SurveyError.TheVariants.{Memory};

    ghost from_gives = { λ _ e. e ≡ Memory };

    fn from(_error: AllocError) -> SurveyError {
        SurveyError::Memory
    }
}

/// The line for a folder without images.
pub fn empty_line(alloc: Global, path: &str) -> Result<String, AllocError> {
    let path = shown(alloc, path)?;
    format!(in alloc; "{path} has no image: no name in it ends in .image\n")
}

/// The line for an image whose table is larger than is wanted.
pub fn large_line(alloc: Global, path: &str, bytes: u64, most: u64) -> Result<String, AllocError> {
    let path = shown(alloc, path)?;
    format!(in alloc; "{path}: no table, it would have {bytes} bytes (--most {most})\n")
}

/// The line for a slot that the code does not have.
pub fn no_slot_line(alloc: Global, slot: usize, slots: usize) -> Result<String, AllocError> {
    let last = slots.saturating_sub(1);
    format!(in alloc; "there is no slot {slot}: the code has slots 0 to {last}\n")
}

/// The line for a folder with names that are not UTF-8.
pub fn unnamed_line(alloc: Global, path: &str) -> Result<String, AllocError> {
    let path = shown(alloc, path)?;
    format!(in alloc; "cannot read all of {path}: a name in it is not UTF-8\n")
}

// What is said of arguments: the text on them, or where it is empty the usage.
fn words_text(text: &str) -> &str
    ensures text { text.now ≢ [] → result.now ≡ text.now }
    ensures usage { text.now ≡ [] → result.now ≡ USAGE.now }
{
    if text.is_empty() { USAGE } else { text }
}

impl SurveyError {
    /// No command was given in full, or memory ran out before that was known.
    pub fn of_words(error: WordsError) -> Self {
        match error {
            WordsError::Wrong(text) => SurveyError::Words(text),
            WordsError::NotUnicode => SurveyError::NotUnicode,
            WordsError::Memory => SurveyError::Memory,
        }
    }

    /// A read of the file failed.
    pub fn of_read(alloc: Global, path: &str, kind: ErrorKind) -> Self
        ensures { IsUnread path.now kind result }
    {
        match String::from_str(alloc, path) {
            Ok(path) if kind != ErrorKind::OutOfMemory => SurveyError::Unread(path, kind),
            _ => SurveyError::Memory,
        }
    }

    /// A write to the file or output of this name failed, or it could not be made.
    pub fn of_write(alloc: Global, name: &str, kind: ErrorKind) -> Self
        ensures { IsUnwritten name.now kind result }
    {
        match String::from_str(alloc, name) {
            Ok(name) if kind != ErrorKind::OutOfMemory => SurveyError::Unwritten(name, kind),
            _ => SurveyError::Memory,
        }
    }

    /// Standard output failed.
    pub fn of_output(alloc: Global, kind: ErrorKind) -> Self
        ensures { IsUnwritten STANDARD_OUTPUT.now kind result }
    {
        SurveyError::of_write(alloc, STANDARD_OUTPUT, kind)
    }

    /// Says on standard error what went wrong, and returns the status. A failure of standard error
    /// is not reported.
    pub fn tell<W: Write>(self, err: &mut W) -> u8
        ensures status { result ≡ failure_status self }
        ensures most { result ≤ 5 }
    {
        match self {
            SurveyError::Words(text) => {
                let _ = write_bytes(err, words_text(text.as_str()).as_bytes());
                1
            }
            SurveyError::NotUnicode => {
                let _ = write_texts(err, NOT_UNICODE, USAGE, "");
                1
            }
            SurveyError::Unread(path, kind) => {
                let _ = say_unread(err, path.as_str(), kind);
                FILE_FAILED
            }
            SurveyError::Unwritten(name, kind) => {
                let _ = say_failed_write(err, name.as_str(), Some(kind));
                FILE_FAILED
            }
            SurveyError::File(line) => {
                let _ = write_bytes(err, line.as_bytes());
                FILE_FAILED
            }
            SurveyError::Memory => {
                let _ = write_bytes(err, b"out of memory\n");
                5
            }
        }
    }
}
