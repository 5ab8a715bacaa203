//! The end of a report: the lines of maps, and the last line.
ghost use Rattle.std.specs.Prelude.{◌≡◌, ◌≢◌, [], ◌∷◌, ◌++◌, IfOk};
ghost use Rattle.isa_model.specs.Reporting.Reports.{ToReport, maps_pieces, last_line};
ghost use Rattle.maps.specs.Maps.{rows_of, contents_of};
ghost use Rattle.host.specs.Stops.{noted_of};
ghost use Rattle.host.specs.Tallies.{tally_of};
ghost use Rattle.host.specs.Writing.{WritesReport};

use super::endings::StreamEnded;
use super::errors::HostError;
use super::reports::Report;
use super::stops::Stops;
use super::tallies::Tally;
use super::traced::Traced;
use isa_model::Finish;
use maps::Maps;

/// Returns what the last line shows.
pub fn tally_of(ended: StreamEnded) -> Tally
    ensures { result ≡ tally_of ended.frames ended.finish }
{
    Tally {
        frames: ended.frames,
        fault: match ended.finish {
            Finish::End => None,
            Finish::Fault(fault, offset) => Some((fault, offset)),
        },
    }
}

/// Puts the lines of maps, and then the last line. Returns the maps as they were, and what was
/// noted of the frames.
pub fn end_report<L: Report>(
    ended: StreamEnded,
    mut maps: Maps,
    stops: Stops,
    report: &mut L,
) -> Result<Traced, HostError>
    ensures writes { WritesReport (L.written report.old) (L.written report.new) result
        (maps_pieces 0 (rows_of maps) (contents_of maps)
        ++ ToReport (last_line ended.frames ended.finish) ∷ []) }
    ensures tally { IfOk result (λ traced. traced.tally ≡ tally_of ended.frames ended.finish) }
    ensures stops { IfOk result (λ traced. noted_of traced.stops ≡ noted_of stops) }
    ensures maps { IfOk result (λ traced. traced.maps ≡ maps) }
    ensures made { result ≢ Err HostError.Memory }
{
    match report.put_maps(&mut maps) {
        Ok(()) => {}
        Err(_) => return Err(HostError::Report),
    }
    match report.put_finish(ended.frames, ended.finish) {
        Ok(()) => Ok(Traced {
            tally: tally_of(ended),
            stops,
            maps,
        }),
        Err(_) => Err(HostError::Report),
    }
}
