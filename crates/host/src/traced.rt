//! The result of a trace, which the loop over a stream returns for every machine.

ghost use Rattle.std.specs.Prelude.{◌≡◌};
ghost use Rattle.host.specs.Tallies.{tallied};

use super::counts::FrameCounts;
use super::errors::HostError;
use super::stops::Stops;
use super::tallies::Tally;
use maps::Maps;

/// Says what the report's last line shows, the packet frames whose runs ended without an action,
/// and the maps as the last frame left them. Of a run over a stream without checks no frames are
/// noted.
#[derive(Drop)]
pub struct Traced {
    pub tally: Tally,
    pub stops: Stops,
    pub maps: Maps,
}

/// Says what a run over a stream shows, and how many of its packet frames ended in each way.
#[derive(Drop)]
pub struct Counted {
    pub traced: Traced,
    pub counts: FrameCounts,
}

/// The tally of a run over a stream, if it came to its last line.
pub fn tally_in(ended: Result<Traced, HostError>) -> Result<Tally, HostError>
    ensures { result ≡ tallied ended }
{
    match ended {
        Ok(traced) => Ok(traced.tally),
        Err(error) => Err(error),
    }
}
