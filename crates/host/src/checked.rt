//! Runs on the checked machine over streams.
ghost use Rattle.std.specs.Prelude.{◌≡◌, ◌≢◌, ◌≤◌, IfOk, IfErr};
ghost use Rattle.isa_model.specs.Code.Limits.{max_steps};
ghost use Rattle.isa_model.specs.Reporting.Reports.{checked_report, checked_report_from};
ghost use Rattle.maps.specs.Maps.{rows_of, contents_of};
ghost use Rattle.host.specs.Counts.{ShowsTracedCounted};
ghost use Rattle.host.specs.Reported.{Reports};
ghost use Rattle.host.specs.Stops.{noted_of, nothing_noted, ShowsTraced, ShowsTracedFrom};

use super::clocks::FrameClock;
use super::closings::end_report;
use super::counting::Counting;
use super::counts::FrameCounts;
use super::engine::run_frames;
use super::errors::HostError;
use super::reports::Report;
use super::runners::Runner;
use super::stops::Stops;
use super::traced::{Counted, Traced};
use super::versions::version_of;
use checked_vm::Checked;
use frames::Source;
use image::Image;
use isa_model::{End, FrameHead};
use maps::Maps;
use std::alloc::Global;
use std::io::Write;

// A checked machine, the limit of steps of a run on one packet frame, and what was noted of the
// frames so far.
#[derive(Drop)]
struct CheckedRunner {
    machine: Checked,
    limit: u32,
    stops: Stops,
    ghost some: { 1 ≤ limit },
    ghost most: { limit ≤ max_steps },
}

impl CheckedRunner {
    // A machine with these maps, of which no frames are noted.
    fn new(alloc: Global, image: Image, maps: Maps, limit: u32) -> Result<Self, HostError>
        requires rows { rows_of maps ≡ image.maps }
        requires some { 1 ≤ limit }
        requires most { limit ≤ max_steps }
        ensures machine { IfOk result (λ runner. runner.machine
            ≡ record { program = image; contents = contents_of maps }) }
        ensures limit { IfOk result (λ runner. runner.limit ≡ limit) }
        ensures stops { IfOk result (λ runner. noted_of runner.stops ≡ nothing_noted) }
        ensures memory { IfErr result (λ error. error ≡ HostError.Memory) }
    {
        match Checked::with_maps(alloc, image, maps) {
            Ok(machine) => Ok(CheckedRunner {
                machine,
                limit,
                stops: Stops::new(),
            }),
            Err(_) => Err(HostError::Memory),
        }
    }

    // The maps, and what was noted.
    fn into_parts(self) -> (Maps, Stops)
        ensures rows { rows_of result.0 ≡ self.machine.program.maps }
        ensures contents { contents_of result.0 ≡ self.machine.contents }
        ensures stops { result.1 ≡ self.stops }
    {
        let CheckedRunner {
            machine,
            limit: _,
            stops,
        } = self;
        (machine.into_maps(), stops)
    }
}

impl Runner for CheckedRunner {
    ghost use Rattle.host.specs.Stops.{Noted, noted_of, checked_notes};

    ghost Notes = { Noted };

    ghost bounded = { λ r. record { program = r.machine.program; bound = r.limit } };

    ghost contents = { λ r. r.machine.contents };

    ghost noted = { λ r. noted_of r.stops };

    ghost notes = { λ r. checked_notes r.machine.program r.limit };

    fn run_packet(&mut self, number: u32, head: FrameHead, body: &mut [u8]) -> End {
        let mut clock = FrameClock { time: head.time };
        let stop = self.machine.run_to_stop(head, body, &mut clock, self.limit);
        self.stops.note(number, stop);
        stop.end
    }

    fn pass_over(&mut self) {}
}

/// Runs an image's program, with every access tested, on the frames of the stream that a source
/// returns, from these maps on, at most `limit` steps a frame. The report is written to one writer,
/// and the frames that are sent on to the other.
///
/// A frame with a reason is not run, and is sent on unchanged. The result says how many runs ended
/// without an action, and where the first 20 of them stopped, and has the maps as the last frame
/// left them; after a failure they are dropped.
///
/// Every answer of a frame's clock is the frame's time. Memory is taken before the first byte is
/// written, and none after that. Nothing is tried again, and after a failure nothing is written to
/// either output.
pub fn run_checked_from<R: Source + Drop, W1: Write, W2: Write>(
    alloc: Global,
    image: Image,
    maps: Maps,
    limit: u32,
    source: R,
    report: &mut W1,
    out: &mut W2,
) -> Result<Traced, HostError>
    requires rows { rows_of maps ≡ image.maps }
    requires some { 1 ≤ limit }
    requires most { limit ≤ max_steps }
    ensures report_untouched { result ≡ Err HostError.Memory
        → W1.contents report.new ≡ W1.contents report.old }
    ensures out_untouched { result ≡ Err HostError.Memory
        → W2.contents out.new ≡ W2.contents out.old }
    ensures reports { result ≢ Err HostError.Memory
        → Reports record { bytes = R.remaining source; may_fail = R.may_fail }
        (checked_report_from image limit (contents_of maps))
        (ShowsTracedFrom image limit (contents_of maps))
        record { report = W1.contents report.old; sent = W2.contents out.old }
        record { report = W1.contents report.new; sent = W2.contents out.new } result }
{
    let program_version = version_of(image.version());
    let mut runner = match CheckedRunner::new(alloc, image, maps, limit) {
        Ok(runner) => runner,
        Err(error) => return Err(error),
    };
    match run_frames(&mut runner, limit, program_version, source, report, out) {
        Ok(ended) => {
            let (maps, stops) = runner.into_parts();
            end_report(ended, maps, stops, report)
        }
        Err(error) => Err(error),
    }
}

/// Runs an image's program as `run_checked_from` does, and counts the packet frames by how they
/// ended. The report may be written nowhere: then no line of it is made.
pub fn run_checked_counted_from<R: Source + Drop, L: Report, W: Write>(
    alloc: Global,
    image: Image,
    maps: Maps,
    limit: u32,
    source: R,
    report: &mut L,
    out: &mut W,
) -> Result<Counted, HostError>
    requires rows { rows_of maps ≡ image.maps }
    requires some { 1 ≤ limit }
    requires most { limit ≤ max_steps }
    ensures report_untouched { result ≡ Err HostError.Memory
        → L.written report.new ≡ L.written report.old }
    ensures out_untouched { result ≡ Err HostError.Memory
        → W.contents out.new ≡ W.contents out.old }
    ensures reports { result ≢ Err HostError.Memory
        → Reports record { bytes = R.remaining source; may_fail = R.may_fail }
        (checked_report_from image limit (contents_of maps))
        (ShowsTracedCounted image limit (contents_of maps))
        record { report = L.written report.old; sent = W.contents out.old }
        record { report = L.written report.new; sent = W.contents out.new } result }
{
    let program_version = version_of(image.version());
    let mut runner = match CheckedRunner::new(alloc, image, maps, limit) {
        Ok(runner) => Counting {
            runner,
            program: program_version,
            counts: FrameCounts::new(),
        },
        Err(error) => return Err(error),
    };
    let ended = match run_frames(&mut runner, limit, program_version, source, report, out) {
        Ok(ended) => ended,
        Err(error) => return Err(error),
    };
    let Counting { runner, counts, .. } = runner;
    let (maps, stops) = runner.into_parts();
    match end_report(ended, maps, stops, report) {
        Ok(traced) => Ok(Counted { traced, counts }),
        Err(error) => Err(error),
    }
}

/// Runs an image's program as `run_checked_from` does, from new maps on.
pub fn run_checked<R: Source + Drop, W1: Write, W2: Write>(
    alloc: Global,
    image: Image,
    limit: u32,
    source: R,
    report: &mut W1,
    out: &mut W2,
) -> Result<Traced, HostError>
    requires some { 1 ≤ limit }
    requires most { limit ≤ max_steps }
    ensures report_untouched { result ≡ Err HostError.Memory
        → W1.contents report.new ≡ W1.contents report.old }
    ensures out_untouched { result ≡ Err HostError.Memory
        → W2.contents out.new ≡ W2.contents out.old }
    ensures reports { result ≢ Err HostError.Memory
        → Reports record { bytes = R.remaining source; may_fail = R.may_fail }
        (checked_report image limit) (ShowsTraced image limit)
        record { report = W1.contents report.old; sent = W2.contents out.old }
        record { report = W1.contents report.new; sent = W2.contents out.new } result }
{
    let Ok(maps) = Maps::new(alloc, &image) else {
        return Err(HostError::Memory);
    };
    run_checked_from(alloc, image, maps, limit, source, report, out)
}
