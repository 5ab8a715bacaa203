//! Runs of accepted programs over streams.
ghost use Rattle.std.specs.Prelude.{◌≡◌, ◌≢◌};
ghost use Rattle.maps.specs.Maps.{rows_of, contents_of};
ghost use Rattle.host.specs.Accepted.{ReportsRun, ReportsRunFrom, ShowsLast};
ghost use Rattle.host.specs.Counts.{ShowsCounted};

use super::clocks::FrameClock;
use super::closings::end_report;
use super::counting::Counting;
use super::counts::FrameCounts;
use super::engine::run_frames;
use super::errors::HostError;
use super::reports::Report;
use super::runners::Runner;
use super::stops::Stops;
use super::tallies::Tally;
use super::traced::{Counted, Traced, tally_in};
use super::versions::version_of;
use bounds::Verified;
use frames::Source;
use isa_model::{End, FrameHead};
use machine::Machine;
use maps::Maps;
use std::alloc::Global;
use std::io::Write;

// A machine whose every run exits; nothing is noted.
impl Runner for Machine {
    ghost use Rattle.host.specs.Stops.{no_notes};
    ghost use Rattle.host.specs.OnMachines.{bounded_of};

    ghost Notes = { Unit {0} };

    ghost bounded = { λ machine. bounded_of machine };

    ghost contents = { λ machine. machine.contents };

    ghost noted = { λ machine. tt };

    ghost notes = { λ machine. no_notes };

    #[inline(always)]
    fn run_packet(&mut self, _number: u32, head: FrameHead, body: &mut [u8]) -> End {
        let mut clock = FrameClock { time: head.time };
        let exit = self.run(head, body, &mut clock);
        End::Exit(exit.r0, exit.steps)
    }

    fn pass_over(&mut self) {}
}

/// Runs an accepted program on the packet frames of the stream that a source returns, from these
/// maps on. The report is written to one writer, and the frames that are sent on to the other. The
/// maps are returned as the last frame left them; after a failure they are dropped.
///
/// What is written is exactly the report of the program, the maps' contents and those frames; in
/// every frame's run the step by step meaning of the program meets no trap, and it exits within the
/// bound. Nothing is required of the source: its stream may be damaged, cut off, without an end, or
/// fail in the middle; at most 4,294,967,295 frames are run. A frame with a reason is not run, and
/// is sent on unchanged. Where contracts know the source's bytes, the frames are those that the
/// bytes spell, from the first on; where they do not, as with a file, they are those of some bytes.
///
/// Every answer of a frame's clock is the frame's time. Memory is taken before the first byte is
/// written, and none after that. Nothing is tried again, and after a failure nothing is written to
/// either output.
pub fn run_from<R: Source + Drop, W1: Write, W2: Write>(
    alloc: Global,
    verified: Verified,
    maps: Maps,
    source: R,
    report: &mut W1,
    out: &mut W2,
) -> Result<Traced, HostError>
    requires { rows_of maps ≡ verified.program.maps }
    ensures report_untouched { result ≡ Err HostError.Memory
        → W1.contents report.new ≡ W1.contents report.old }
    ensures out_untouched { result ≡ Err HostError.Memory
        → W2.contents out.new ≡ W2.contents out.old }
    ensures reports { result ≢ Err HostError.Memory
        → ReportsRunFrom verified (contents_of maps)
        record { bytes = R.remaining source; may_fail = R.may_fail } (ShowsLast verified.program)
        record { report = W1.contents report.old; sent = W2.contents out.old }
        record { report = W1.contents report.new; sent = W2.contents out.new } result }
{
    maps.say_fits();
    let bound = verified.bound();
    let program_version = version_of(verified.image().version());
    let Ok(mut machine) = Machine::new(alloc, verified, maps) else {
        return Err(HostError::Memory);
    };
    match run_frames(&mut machine, bound, program_version, source, report, out) {
        Ok(ended) => end_report(ended, machine.into_maps(), Stops::new(), report),
        Err(error) => Err(error),
    }
}

/// Runs an accepted program as `run_from` does, and counts the packet frames by how they ended. The
/// report may be written nowhere: then no line of it is made.
pub fn run_counted_from<R: Source + Drop, L: Report, W: Write>(
    alloc: Global,
    verified: Verified,
    maps: Maps,
    source: R,
    report: &mut L,
    out: &mut W,
) -> Result<Counted, HostError>
    requires { rows_of maps ≡ verified.program.maps }
    ensures report_untouched { result ≡ Err HostError.Memory
        → L.written report.new ≡ L.written report.old }
    ensures out_untouched { result ≡ Err HostError.Memory
        → W.contents out.new ≡ W.contents out.old }
    ensures reports { result ≢ Err HostError.Memory
        → ReportsRunFrom verified (contents_of maps)
        record { bytes = R.remaining source; may_fail = R.may_fail }
        (ShowsCounted verified (contents_of maps))
        record { report = L.written report.old; sent = W.contents out.old }
        record { report = L.written report.new; sent = W.contents out.new } result }
{
    maps.say_fits();
    let bound = verified.bound();
    let program_version = version_of(verified.image().version());
    let Ok(machine) = Machine::new(alloc, verified, maps) else {
        return Err(HostError::Memory);
    };
    let mut runner = Counting {
        runner: machine,
        program: program_version,
        counts: FrameCounts::new(),
    };
    let ended = match run_frames(&mut runner, bound, program_version, source, report, out) {
        Ok(ended) => ended,
        Err(error) => return Err(error),
    };
    let Counting { runner, counts, .. } = runner;
    match end_report(ended, runner.into_maps(), Stops::new(), report) {
        Ok(traced) => Ok(Counted { traced, counts }),
        Err(error) => Err(error),
    }
}

/// Runs an accepted program as `run_from` does, from new maps on.
pub fn run<R: Source + Drop, W1: Write, W2: Write>(
    alloc: Global,
    verified: Verified,
    source: R,
    report: &mut W1,
    out: &mut W2,
) -> Result<Tally, HostError>
    ensures report_untouched { result ≡ Err HostError.Memory
        → W1.contents report.new ≡ W1.contents report.old }
    ensures out_untouched { result ≡ Err HostError.Memory
        → W2.contents out.new ≡ W2.contents out.old }
    ensures reports { result ≢ Err HostError.Memory → ReportsRun verified
        record { bytes = R.remaining source; may_fail = R.may_fail }
        record { report = W1.contents report.old; sent = W2.contents out.old }
        record { report = W1.contents report.new; sent = W2.contents out.new } result }
{
    let Ok(maps) = Maps::new(alloc, verified.image()) else {
        return Err(HostError::Memory);
    };
    tally_in(run_from(alloc, verified, maps, source, report, out))
}
