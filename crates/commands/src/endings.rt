//! How a task ended, with the lines at the end of its message.

ghost use Rattle.std.specs.Prelude.{◌≡◌, None, true, OnOk, OnErr};
ghost use Rattle.std.specs.Io.KnownBytes.{Appends};
ghost use Rattle.exact_io.specs.Transfers.{AppendsBeginning};
ghost use Rattle.commands.specs.Statuses.{status_of, is_unsaid};
ghost use Rattle.commands.specs.Saying.{AppendsPart};
ghost use Rattle.commands.specs.Known.{ShowsKept, outcome_text, told_of};
ghost use Rattle.commands.specs.Flushing.{Flushes};
ghost use Rattle.commands.specs.Streams.{at_end};

use super::outcomes::TaskOutcome;
use assembler::{AsmError, shown};
use exact_io::{PromptWriter, write_bytes};
use messages::{Rejection, STANDARD_OUTPUT};
use std::alloc::Global;
use std::io;
use std::io::Write;

/// Says how a task ended, and the lines at the end of its message, if there are any.
#[derive(Drop)]
pub struct Ending<'a> {
    pub outcome: TaskOutcome<'a>,
    /// Of a refused program, the registers and stack slots that concern the instruction, and
    /// the last jumps on the path to it; of a refused entry of a proof table, what is known of its
    /// step; of a refused text, its line and a hint; of a run, which packet frames' runs ended with
    /// INVALID; of a trace, where the runs stopped that ended without an action.
    pub why: Option<String>,
}

impl<'a> Ending<'a> {
    /// A task that ended with this outcome, about which nothing more is known.
    pub fn plain(outcome: TaskOutcome<'a>) -> Self
        ensures outcome { result.outcome ≡ outcome.entry }
        ensures why { result.why ≡ None }
    {
        Ending { outcome, why: None }
    }

    /// A task that runs or traces a program on a stream ended with this outcome. The lines on its
    /// frames are told if all of the output was flushed.
    pub fn after_stream(outcome: TaskOutcome<'a>, lines: Option<String>) -> Self
        ensures outcome { result.outcome ≡ outcome.entry }
        ensures why { result.why ≡ at_end outcome.entry lines }
    {
        let why = match outcome {
            TaskOutcome::Done | TaskOutcome::Faulted(_, _) => lines,
            _ => None,
        };
        Ending { outcome, why }
    }

    /// Returns how a task ended for which this text was refused with an error in its bytes that
    /// were kept: its line is shown with a hint. If memory runs out, or standard output failed,
    /// nothing is shown.
    pub fn of_text(alloc: Global, text: &[u8], error: AsmError, outcome: TaskOutcome<'a>) -> Self
        ensures outcome { result.outcome ≡ outcome.entry }
        ensures known { ShowsKept text.now error result }
    {
        let why = match outcome {
            TaskOutcome::Refused(Rejection::Text(_)) => shown(alloc, text, error).ok(),
            _ => None,
        };
        Ending { outcome, why }
    }

    /// Flushes standard output after a task. If the flush fails, that failure becomes the task's
    /// outcome: it says why standard output failed, even if an earlier write had failed too. If the
    /// task wrote nothing to standard output, it is left unchanged.
    pub fn flushed<W: Write + Drop>(self, out: &mut PromptWriter<W>) -> Self
        ensures { Flushes W.contents out.old out.new self.entry result }
    {
        if self.outcome.is_silent() {
            return self;
        }
        match out.flush() {
            Ok(()) => self,
            Err(error) => {
                Ending::plain(TaskOutcome::CannotWrite(STANDARD_OUTPUT, Some(error.kind())))
            }
        }
    }

    // Says what went wrong, and then what is known.
    fn say_known<W: Write>(&self, err: &mut W) -> io::Result<()>
        ensures ok { OnOk result (Appends (W.contents err.old) (W.contents err.new)
            (outcome_text self.now.outcome self.now.why)) }
        ensures err { OnErr result (AppendsBeginning (W.contents err.old) (W.contents err.new)
            (outcome_text self.now.outcome self.now.why)) }
        ensures unsaid { is_unsaid self.now.outcome ≡ true → self.now.why ≡ None
            → W.contents err.new ≡ W.contents err.old }
    {
        self.outcome.say(err)?;
        match &self.why {
            Some(why) => write_bytes(err, why.as_bytes()),
            None => Ok(()),
        }
    }

    // Says what went wrong, what is known, and of a refusal how to read the entry of its code.
    fn say<W: Write>(&self, err: &mut W) -> io::Result<()>
        ensures ok { OnOk result
            (Appends (W.contents err.old) (W.contents err.new) (told_of self.now)) }
        ensures err { OnErr result
            (AppendsBeginning (W.contents err.old) (W.contents err.new) (told_of self.now)) }
        ensures unsaid { is_unsaid self.now.outcome ≡ true → self.now.why ≡ None
            → W.contents err.new ≡ W.contents err.old }
    {
        self.say_known(err)?;
        match self.outcome {
            TaskOutcome::Refused(rejection) => rejection.say_code(err),
            _ => Ok(()),
        }
    }

    /// Says on standard error what went wrong and what is known, and returns the program's status.
    /// A failure of standard error is not reported.
    pub fn tell<W: Write>(self, err: &mut W) -> u8
        ensures status { result ≡ status_of self.entry.outcome }
        ensures said { AppendsPart (W.contents err.old) (W.contents err.new)
            (told_of self.entry) }
        ensures unsaid { is_unsaid self.entry.outcome ≡ true → self.entry.why ≡ None
            → W.contents err.new ≡ W.contents err.old }
    {
        let _ = self.say(err);
        self.outcome.status()
    }
}
