//! Runs over streams on a machine that is open, whose maps go on from one stream to the next.
ghost use Rattle.std.specs.Prelude.{◌≡◌, ◌≢◌, [], ◌∷◌, ◌++◌, IfOk};
ghost use Rattle.isa_model.specs.Reporting.Reports.{ToReport, maps_pieces, last_line};
ghost use Rattle.host.specs.OnMachines.{ReportsOn};
ghost use Rattle.host.specs.Tallies.{tally_of};
ghost use Rattle.host.specs.Writing.{WritesReport};

use super::closings::tally_of;
use super::endings::StreamEnded;
use super::engine::run_frames;
use super::errors::HostError;
use super::reports::Report;
use super::tallies::Tally;
use super::versions::version_of;
use frames::Source;
use machine::Machine;
use std::io::Write;

// Writes the lines of the maps of a machine, which stays as it is, and then the last line.
fn end_report_on<W: Write>(
    ended: StreamEnded,
    machine: &mut Machine,
    report: &mut W,
) -> Result<Tally, HostError>
    ensures writes { WritesReport (W.contents report.old) (W.contents report.new) result
        (maps_pieces 0 machine.old.program.maps machine.old.contents
        ++ ToReport (last_line ended.frames ended.finish) ∷ []) }
    ensures tally { IfOk result (λ tally. tally ≡ tally_of ended.frames ended.finish) }
    ensures stays { machine.new ≡ machine.old }
    ensures made { result ≢ Err HostError.Memory }
{
    match machine.list(report) {
        Ok(()) => {}
        Err(_) => return Err(HostError::Report),
    }
    match report.put_finish(ended.frames, ended.finish) {
        Ok(()) => Ok(tally_of(ended)),
        Err(_) => Err(HostError::Report),
    }
}

/// Runs the program of a machine that is open on the packet frames of the stream that a source
/// returns, from what its maps hold on. The report is written to one writer, and the frames that
/// are sent on to the other. The maps go on from there: the machine holds what the last frame left.
///
/// After a failed output the machine holds what the last of the frames left that were taken, which
/// is the one whose line or record failed, or the stream's last one where a line after it failed.
/// As with `run_from`, nothing is required of the source, and no memory is taken.
pub fn run_on<R: Source + Drop, W1: Write, W2: Write>(
    machine: &mut Machine,
    source: R,
    report: &mut W1,
    out: &mut W2,
) -> Result<Tally, HostError>
    ensures program { machine.new.program ≡ machine.old.program }
    ensures bound { machine.new.bound ≡ machine.old.bound }
    ensures reports { ReportsOn machine.old machine.new.contents
        record { bytes = R.remaining source; may_fail = R.may_fail }
        record { report = W1.contents report.old; sent = W2.contents out.old }
        record { report = W1.contents report.new; sent = W2.contents out.new } result }
    ensures made { result ≢ Err HostError.Memory }
{
    let bound = machine.bound();
    let program_version = version_of(machine.version());
    match run_frames(machine, bound, program_version, source, report, out) {
        Ok(ended) => end_report_on(ended, machine, report),
        Err(error) => Err(error),
    }
}
