//! Runs of accepted programs over streams, of which the frames are noted that ended with INVALID.
ghost use Rattle.std.specs.Prelude.{◌≡◌, ◌≢◌};
ghost use Rattle.maps.specs.Maps.{rows_of, contents_of};
ghost use Rattle.host.specs.Accepted.{ReportsRunFrom};
ghost use Rattle.host.specs.InvalidRuns.{ShowsInvalid, ReportsNoted, tally_ran};

use super::closings::end_report;
use super::engine::run_frames;
use super::errors::HostError;
use super::invalid::InvalidFrames;
use super::runners::Runner;
use super::stops::Stops;
use super::tallies::Tally;
use super::traced::Traced;
use super::versions::version_of;
use bounds::Verified;
use frames::Source;
use isa_model::{End, FrameHead};
use machine::Machine;
use maps::Maps;
use std::alloc::Global;
use std::io::Write;

/// Says what the report's last line shows, and which packet frames' runs ended with INVALID.
#[derive(Clone, Copy)]
pub struct Ran {
    pub tally: Tally,
    pub invalid: InvalidFrames,
}

impl Ran {
    /// The tally of a run over a stream, if it came to its last line.
    pub fn tally_in(ended: Result<Ran, HostError>) -> Result<Tally, HostError>
        ensures { result ≡ tally_ran ended }
    {
        match ended {
            Ok(ran) => Ok(ran.tally),
            Err(error) => Err(error),
        }
    }
}

/// A machine whose every run exits, and the frames so far whose runs ended with INVALID.
#[derive(Drop)]
pub struct NotingMachine {
    machine: Machine,
    invalid: InvalidFrames,
}

impl Runner for NotingMachine {
    ghost use Rattle.host.specs.declared.invalid.InvalidFrames.{InvalidFrames};
    ghost use Rattle.host.specs.InvalidRuns.{invalid_notes};
    ghost use Rattle.host.specs.OnMachines.{bounded_of};

    ghost Notes = { InvalidFrames };

    ghost bounded = { λ noting. bounded_of noting.machine };

    ghost contents = { λ noting. noting.machine.contents };

    ghost noted = { λ noting. noting.invalid };

    ghost notes = { λ noting. invalid_notes (bounded_of noting.machine) };

    #[inline(always)]
    fn run_packet(&mut self, number: u32, head: FrameHead, body: &mut [u8]) -> End {
        let end = self.machine.run_packet(number, head, body);
        self.invalid.note(number, end);
        end
    }

    fn pass_over(&mut self) {}
}

// Runs an accepted program from these maps on, and notes which frames' runs ended with INVALID.
fn run_noting_from<R: Source + Drop, W1: Write, W2: Write>(
    alloc: Global,
    verified: Verified,
    maps: Maps,
    source: R,
    report: &mut W1,
    out: &mut W2,
) -> Result<Ran, HostError>
    requires { rows_of maps ≡ verified.program.maps }
    ensures report_untouched { result ≡ Err HostError.Memory
        → W1.contents report.new ≡ W1.contents report.old }
    ensures out_untouched { result ≡ Err HostError.Memory
        → W2.contents out.new ≡ W2.contents out.old }
    ensures reports { result ≢ Err HostError.Memory
        → ReportsRunFrom verified (contents_of maps)
        record { bytes = R.remaining source; may_fail = R.may_fail }
        (ShowsInvalid verified (contents_of maps))
        record { report = W1.contents report.old; sent = W2.contents out.old }
        record { report = W1.contents report.new; sent = W2.contents out.new } result }
{
    maps.say_fits();
    let bound = verified.bound();
    let program_version = version_of(verified.image().version());
    let Ok(machine) = Machine::new(alloc, verified, maps) else {
        return Err(HostError::Memory);
    };
    let mut runner = NotingMachine {
        machine,
        invalid: InvalidFrames::new(),
    };
    let ended = match run_frames(&mut runner, bound, program_version, source, report, out) {
        Ok(ended) => ended,
        Err(error) => return Err(error),
    };
    let NotingMachine { machine, invalid } = runner;
    match end_report(ended, machine.into_maps(), Stops::new(), report) {
        Ok(traced) => Ok(Ran {
            tally: traced.tally,
            invalid,
        }),
        Err(error) => Err(error),
    }
}

/// Runs an accepted program as `run` does, and notes which packet frames' runs ended with INVALID.
/// A program of version 2 has no such frames.
pub fn run_noting_invalid<R: Source + Drop, W1: Write, W2: Write>(
    alloc: Global,
    verified: Verified,
    source: R,
    report: &mut W1,
    out: &mut W2,
) -> Result<Ran, HostError>
    ensures report_untouched { result ≡ Err HostError.Memory
        → W1.contents report.new ≡ W1.contents report.old }
    ensures out_untouched { result ≡ Err HostError.Memory
        → W2.contents out.new ≡ W2.contents out.old }
    ensures reports { result ≢ Err HostError.Memory → ReportsNoted verified
        record { bytes = R.remaining source; may_fail = R.may_fail }
        record { report = W1.contents report.old; sent = W2.contents out.old }
        record { report = W1.contents report.new; sent = W2.contents out.new } result }
{
    let Ok(maps) = Maps::new(alloc, verified.image()) else {
        return Err(HostError::Memory);
    };
    run_noting_from(alloc, verified, maps, source, report, out)
}
