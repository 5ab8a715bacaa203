//! The end of a run: what the maps hold, and the lines of counts.

ghost use Rattle.std.specs.Prelude.{◌≡◌, false, option_map};
ghost use Rattle.host.specs.Counts.{totals_of};
ghost use Rattle.commands.specs.Statuses.{is_silent};
ghost use Rattle.commands.specs.Streams.{outcome_at};
ghost use Rattle.captures.specs.Losing.{TellsUnsaid};
ghost use Rattle.filtering.specs.Finishing.{WritesEnd, SaysCounts};

use super::delivering::store_maps;
use super::opening::Named;
use captures::{Unsaid, unsaid_text};
use commands::{Ending, TaskOutcome, say_made};
use host::{Counted, FrameCounts, Tally, counts_text};
use messages::FileForm;
use std::alloc::Global;
use std::io::Write;

// How a task ends after a stream of this file form with this tally.
fn outcome_at<'a>(form: FileForm, tally: &Tally) -> TaskOutcome<'a>
    ensures outcome { result ≡ outcome_at form tally.now.fault }
    ensures loud { is_silent result ≡ false }
{
    match tally.fault {
        None => TaskOutcome::Done,
        Some((fault, _)) => TaskOutcome::Faulted(fault, form),
    }
}

// Says the counts, and then how the stream ended.
fn say_counts<'a, W: Write>(
    alloc: Global,
    counts: &FrameCounts,
    tally: &Tally,
    form: FileForm,
    lines: &mut W,
) -> TaskOutcome<'a>
    ensures { SaysCounts (totals_of counts.now) tally.now form (W.contents lines.old)
        (W.contents lines.new) result }
{
    say_made(
        counts_text(alloc, counts, tally),
        outcome_at(form, tally),
        lines,
    )
}

/// Writes what the maps hold after the last frame to their output, if that is wanted, and then says
/// the counts.
pub fn finish<'a, W1: Write + Drop, W2: Write>(
    alloc: Global,
    counted: Counted,
    form: FileForm,
    maps_out: Option<Named<'a, W1>>,
    lines: &mut W2,
) -> TaskOutcome<'a>
    ensures { WritesEnd counted form (option_map (λ output. output.path.now) maps_out.entry)
        (W2.contents lines.old) (W2.contents lines.new) result }
{
    let Counted { traced, counts } = counted;
    let tally = traced.tally;
    let mut maps = traced.maps;
    match maps_out {
        Some(Named { path, mut file }) => match store_maps(&mut maps, path, &mut file) {
            Ok(()) => say_counts(alloc, &counts, &tally, form, lines),
            Err(outcome) => outcome,
        },
        None => say_counts(alloc, &counts, &tally, form, lines),
    }
}

/// How a task ended, with the lines of where a capture is damaged and of what is not kept of the
/// frames, if there is memory for them.
pub fn ending_with<'a>(alloc: Global, outcome: TaskOutcome<'a>, unsaid: Unsaid) -> Ending<'a>
    ensures outcome { result.outcome ≡ outcome.entry }
    ensures why { TellsUnsaid unsaid result.why }
{
    Ending {
        outcome,
        why: unsaid_text(alloc, unsaid).ok(),
    }
}
