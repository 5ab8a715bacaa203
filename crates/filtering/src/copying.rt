//! Frames that are copied to a file: as their records, as a text, or as a capture.

ghost use Rattle.std.specs.Prelude.{◌≡◌, ℕ, List, Option, IfOk, OnOk, unwrap_or};
ghost use Rattle.std.specs.Io.KnownBytes.{Keeps};
ghost use Rattle.exact_io.specs.Waiting.{behind, held};
ghost use Rattle.captures.specs.declared.frame_forms.FrameForm.TheVariants.{Records};
ghost use Rattle.filtering.specs.Copying.{CapturesAll, Copies, CopiesSome, DeliversCopy, all_frames};

use super::sending::SentOutput;
use captures::{
    CaptureForm, CaptureKind, CaptureWriter, Followed, FrameForm, Loss, Placing, StreamEnd,
    copy_frames,
};
use commands::TaskOutcome;
use exact_io::PromptWriter;
use frames::{Source, Unwritten};
use std::io::Write;

// Flushes an output after frames were copied to it. Returns how their stream ended, or how the task
// ends.
fn delivered<'a, O: SentOutput>(
    name: &'a str,
    ended: Result<StreamEnd, Unwritten>,
    sent: &mut O,
) -> Result<StreamEnd, TaskOutcome<'a>>
    ensures delivers { DeliversCopy name.now (O.cause sent.new) ended (O.contents sent.old)
        (O.got sent.new) result }
    ensures whole { OnOk result (O.IsDelivered sent.new) }
{
    match ended {
        Ok(ended) => match sent.deliver() {
            Ok(()) => Ok(ended),
            Err(error) => Err(TaskOutcome::CannotWrite(name, Some(error.kind()))),
        },
        Err(_) => {
            let _ = sent.deliver();
            Err(TaskOutcome::CannotWrite(name, sent.cause()))
        }
    }
}

/// Copies the frames of a stream to an output of this name. Returns how the stream ended, or how
/// the task ends.
pub fn copied<'a, S: Source + Drop, O: SentOutput>(
    form: FrameForm,
    placing: Placing,
    source: S,
    name: &'a str,
    sent: &mut O,
) -> Result<StreamEnd, TaskOutcome<'a>>
    ensures copies { Copies form placing
        record { bytes = S.remaining source; may_fail = S.may_fail } name.now (O.cause sent.new)
        (O.contents sent.old) (O.got sent.new) result }
    ensures whole { OnOk result (O.IsDelivered sent.new) }
{
    let ended = copy_frames(form, placing, source, sent);
    delivered(name, ended, sent)
}

// Copies the frames of a stream as `copied` does. They become a capture.
fn captured<'a, S: Source + Drop, W: Write + Drop, T: Followed>(
    placing: Placing,
    source: S,
    name: &'a str,
    sent: &mut CaptureWriter<W, T>,
) -> Result<StreamEnd, TaskOutcome<'a>>
    ensures copies { CopiesSome Records placing
        record { bytes = S.remaining source; may_fail = S.may_fail } name.now result }
    ensures captures { IfOk result (CapturesAll T.form placing
        record { bytes = S.remaining source; may_fail = S.may_fail } (T.handed sent.old.trail)
        T.origin T.before (W.contents (behind sent.new.output)) sent.new.written.lost) }
{
    copied(FrameForm::Records, placing, source, name, sent)
}

/// Copies the frames of a stream to an output of this name as a capture of this kind, with all
/// frames, also those with a reason. Returns how the stream ended, or how the task ends, and what
/// the capture does not say.
pub fn copied_to_capture<'a, S: Source + Drop, W: Write + Drop, T: Followed>(
    placing: Placing,
    source: S,
    kind: CaptureKind,
    name: &'a str,
    output: PromptWriter<W>,
    trail: T,
) -> (Result<StreamEnd, TaskOutcome<'a>>, Loss)
    requires form { unwrap_or T.form (all_frames kind) ≡ all_frames kind }
    requires before { Keeps T.before (held W.contents output) }
    requires origin { Keeps T.origin (T.handed trail) }
    ensures copies { CopiesSome Records placing
        record { bytes = S.remaining source; may_fail = S.may_fail } name.now result.0 }
    ensures kind { result.1.kind ≡ kind }
    ensures captures { IfOk result.0 (λ end. (got : Option (List ℕ)) × CapturesAll T.form placing
        record { bytes = S.remaining source; may_fail = S.may_fail } (T.handed trail)
        T.origin T.before got result.1.counts end) }
{
    let form = CaptureForm {
        kind,
        has_reasons: true,
    };
    let mut sent = CaptureWriter::new(output, form, trail);
    let ended = captured(placing, source, name, &mut sent);
    let loss = Loss {
        kind,
        counts: sent.lost(),
    };
    (ended, loss)
}
