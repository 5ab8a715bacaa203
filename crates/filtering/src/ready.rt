//! A program that is ready to run on a frame stream, and its runs.

ghost use Rattle.std.specs.Prelude.{◌≡◌, ◌≢◌};
ghost use Rattle.maps.specs.Maps.{contents_of, rows_of};
ghost use Rattle.filtering.specs.Running.{RunsReady, program_of};

use bounds::Verified;
use frames::Source;
use host::{Counted, HostError, Report, run_checked_counted_from, run_counted_from};
use image::Image;
use maps::Maps;
use std::alloc::Global;
use std::io::Write;
use words::StepLimit;

/// A program that is ready to run.
#[derive(Drop)]
pub enum Ready {
    /// It has a bound, within which every run exits.
    Bounded(Verified),
    /// Every access is tested while it runs, with this limit of steps.
    Tested(Image, StepLimit),
}

impl Ready {
    /// The program's image.
    pub fn image(&self) -> &Image
        ensures { result.now ≡ program_of self.now }
    {
        match self {
            Ready::Bounded(verified) => verified.image(),
            Ready::Tested(image, _) => image,
        }
    }
}

/// Runs a program on the frames of a stream, from these maps on. The report goes to one output, and
/// the frames that are sent on to the other.
pub fn run_ready<S: Source + Drop, L: Report, W: Write>(
    alloc: Global,
    ready: Ready,
    maps: Maps,
    source: S,
    report: &mut L,
    sent: &mut W,
) -> Result<Counted, HostError>
    requires { rows_of maps ≡ (program_of ready).maps }
    ensures report_untouched { result ≡ Err HostError.Memory
        → L.written report.new ≡ L.written report.old }
    ensures sent_untouched { result ≡ Err HostError.Memory
        → W.contents sent.new ≡ W.contents sent.old }
    ensures runs { result ≢ Err HostError.Memory → RunsReady ready (contents_of maps)
        record { bytes = S.remaining source; may_fail = S.may_fail }
        record { report = L.written report.old; sent = W.contents sent.old }
        record { report = L.written report.new; sent = W.contents sent.new } result }
{
    match ready {
        Ready::Bounded(verified) => run_counted_from(alloc, verified, maps, source, report, sent),
        Ready::Tested(image, limit) => {
            run_checked_counted_from(alloc, image, maps, limit.steps, source, report, sent)
        }
    }
}
