//! The search for a bound, up to a limit of the caller's.

ghost use Rattle.std.specs.Prelude.{◌≡◌, ◌≢◌, ◌≤◌, Err, IfOk, IfErr};
ghost use Rattle.isa_model.specs.Code.Limits.{max_explored};
ghost use Rattle.bounds.specs.Bounds.{IsVerified};
ghost use Rattle.walks.specs.Refused.{IsRefused};
ghost use Rattle.walks.specs.Accepting.{AcceptsAll, BoundsAll};
ghost use Rattle.walks.specs.Counts.{HasNumber};
ghost use Rattle.stack_state.specs.Starts.{start};
ghost use Rattle.listeners.specs.Limited.{IfRefuses};
ghost use Rattle.listeners.specs.declared.limited.NoBound.TheVariants as NoBound;

use crate::rejections::{Rejected, Unverified, verify_followed};
use bounds::Verified;
use explorer::{Kept, Listener, Nobody};
use image::Image;
use isa_model::MAX_EXPLORED;
use stack_state::State;
use std::alloc::Global;

/// Says why a search up to a limit has no bound.
#[derive(Drop)]
pub enum NoBound {
    /// The program is refused.
    Refused(Rejected),
    /// More instructions than the limit would have to be explored.
    Limit,
}

/// The limit is reached.
#[derive(Drop)]
struct Reached;

/// Counts down the instructions that may still be explored.
#[derive(Drop)]
struct Countdown {
    left: u32,
}

impl Listener for Countdown {
    type Stop = Reached;

    ghost follows = { λ _ _ _ _ _. Unit {0} };

    fn arrives(&mut self, _state: &State) -> Result<(), Reached> {
        Ok(())
    }

    fn covered(&mut self, _index: usize, _number: u32) -> Result<(), Reached> {
        Ok(())
    }

    fn explores(
        &mut self,
        _state: &State,
        _stored: Option<usize>,
        _kept: Option<&Kept>,
    ) -> Result<(), Reached> {
        if self.left == 0 {
            return Err(Reached);
        }
        self.left -= 1;
        Ok(())
    }

    fn finished(&mut self, _number: u32) -> Result<(), Reached> {
        Ok(())
    }

    fn begins_anew(&mut self) -> Result<(), Reached> {
        Ok(())
    }
}

/// Verifies a program as `verify` does, but explores no more instructions than the limit, in all.
/// If the limit suffices, the result has each clause of `verify`'s. With a limit of `MAX_EXPLORED`
/// or more the result is that of `verify`. A refusal comes with its path, as that of
/// [`verify_followed`].
pub fn verify_within(alloc: Global, image: Image, limit: u32) -> Result<Verified, NoBound>
    ensures program { IfOk result (λ verified. verified.program ≡ image) }
    ensures verified { IfOk result IsVerified }
    ensures refused { IfErr result (λ stop. IfRefuses stop (IsRefused image)) }
    ensures number { IfOk result (λ verified. HasNumber image start verified.bound) }
    ensures accepts { IfErr result (λ stop. IfRefuses stop (λ e _. AcceptsAll image e)) }
    ensures bounds { IfOk result (λ verified. BoundsAll image verified.bound) }
    ensures whole { max_explored ≤ limit → result ≢ Err NoBound.Limit }
{
    if limit >= MAX_EXPLORED {
        return match verify_followed(alloc, image, &mut Nobody) {
            Ok(verified) => Ok(verified),
            Err(Unverified::Rejected(rejected)) => Err(NoBound::Refused(rejected)),
            Err(Unverified::Stopped(never)) => match never {},
        };
    }
    let mut countdown = Countdown { left: limit };
    match verify_followed(alloc, image, &mut countdown) {
        Ok(verified) => Ok(verified),
        Err(Unverified::Rejected(rejected)) => Err(NoBound::Refused(rejected)),
        Err(Unverified::Stopped(_)) => Err(NoBound::Limit),
    }
}
