//! What the program does for its arguments, and the status that it ends with.

ghost use Rattle.std.specs.Prelude.{◌≡◌, ◌≢◌, ◌≤◌, map, MatchResult};
ghost use Rattle.std.specs.String.{string_bytes};
ghost use Rattle.exact_io.specs.Waiting.{held};
ghost use Rattle.commands.specs.Flushing.{IsFlushed};
ghost use Rattle.xdpvm.specs.Executing.{ExecutesWords, TellsWordsError, TellsBehind, IsTold, TellsDone, TellsFault};

use super::requests::serve;
use commands::TaskOutcome;
use exact_io::PromptWriter;
use std::io::Write;
use std::rt::{Clock, Files};
use words::{WordsError, read_words};

/// Does what the arguments ask for, and returns the program's status: 0 done, 1 invalid arguments,
/// 2 refused, 3 the frame stream has a fault, 4 a file or an output failed, 5 out of memory.
///
/// `asked` says which command the arguments ask for, on which files and with which limit, and
/// `Executes` what that command writes to standard output. With `run` this is the report of the
/// image's program on the packet frames of a stream, with `trace` the checked report, with other
/// commands the verdict, the text, or the sizes of an image. No contract can say what a file holds.
///
/// The first word is the program's name. `out` is standard output with its buffer, and `err` is
/// standard error. At status 0, 2 and 3 all output has been written through the buffer. At status 1
/// and 5 nothing is written to standard output. At 0 nothing is written to standard error, except
/// by `trace`, which names the packet frames whose runs ended without an action, by `run`, which
/// names the first that ended with INVALID and says how many there are, and by `prove`, which says
/// before it writes a large table how many bytes that has. At 2 standard error says what was
/// refused, why and where; for a program and for an entry of a proof table also what is known
/// there, for a text also the line and a hint. At 3 it says why the frame stream ended early.
#[tactic(auto, using(crate::proofs::ExecutingLaws::statuses))]
pub fn execute<R: Files + Clock + AllocGlobal, W1: Write + Drop, W2: Write>(
    rt: &R,
    words: &[String],
    out: &mut PromptWriter<W1>,
    err: &mut W2,
) -> u8
    ensures executes { ExecutesWords W1.contents (map string_bytes words.now) out.old out.new
        (W2.contents err.old) (W2.contents err.new) result }
    ensures statuses { result ≤ 5 }
    ensures wrong_words { result ≡ 1 → held W1.contents out.new ≡ held W1.contents out.old }
    ensures no_memory { result ≡ 5 → held W1.contents out.new ≡ held W1.contents out.old }
    ensures handed_on { result ≤ 3 → result ≢ 1 → IsFlushed out.new }
    ensures done { result ≡ 0 → TellsBehind (map string_bytes words.now)
        (TellsDone (map string_bytes words.now)) (W2.contents err.old) (W2.contents err.new) }
    ensures refused { result ≡ 2 → TellsBehind (map string_bytes words.now) IsTold
        (W2.contents err.old) (W2.contents err.new) }
    ensures faulted { result ≡ 3 → TellsBehind (map string_bytes words.now) TellsFault
        (W2.contents err.old) (W2.contents err.new) }
{
    let alloc = rt.alloc();
    match read_words(alloc, words) {
        Ok(task) => serve(rt, alloc, task, out, err).flushed(out).tell(err),
        Err(error) => TaskOutcome::of_words(&error).tell(err),
    }
}

/// Does what the program's arguments ask for, and returns its status; if they could not be read,
/// standard error says why.
pub fn execute_given<R: Files + Clock + AllocGlobal, W1: Write + Drop, W2: Write>(
    rt: &R,
    given: Result<Vec<String>, WordsError>,
    out: &mut PromptWriter<W1>,
    err: &mut W2,
) -> u8
    ensures { MatchResult given
        (λ words. ExecutesWords W1.contents (map string_bytes words.items) out.old out.new
        (W2.contents err.old) (W2.contents err.new) result)
        (λ error. TellsWordsError error out.old out.new
        (W2.contents err.old) (W2.contents err.new) result) }
{
    match given {
        Ok(words) => execute(rt, words.as_slice(), out, err),
        Err(error) => TaskOutcome::of_words(&error).tell(err),
    }
}
