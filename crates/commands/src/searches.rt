//! Verifying a program while a terminal shows how far the verifier is.

ghost use Rattle.std.specs.Prelude.{◌≡◌, IfOk, IfErr};
ghost use Rattle.bounds.specs.Bounds.{IsVerified};
ghost use Rattle.stack_state.specs.Starts.{start};
ghost use Rattle.walks.specs.Accepting.{AcceptsAll, BoundsAll};
ghost use Rattle.walks.specs.Counts.{HasNumber};
ghost use Rattle.walks.specs.Refused.{IsRefused};

use super::screens::Screen;
use explorer::{Kept, Listener, Refusal, Verified};
use image::Image;
use listeners::{Rejected, Unverified, verify_followed};
use stack_state::State;
use std::alloc::Global;
use std::convert::Infallible;
use std::rt::{Clock, Files};
use transfer::Ways;

/// After how many explored instructions the clock is read.
const PERIOD: u32 = 4096;

/// Counts explored instructions for a terminal.
#[derive(Drop)]
struct Counter<'a, R: Files + Clock> {
    explored: u32,
    screen: Screen<'a, R>,
}

impl<R: Files + Clock> Counter<'_, R> {
    #[cold]
    #[inline(never)]
    fn show(&mut self) {
        if self.screen.is_due() {
            self.screen
                .show(u64::from(self.explored), "instructions explored");
        }
    }
}

impl<R: Files + Clock> Listener for Counter<'_, R> {
    type Stop = Infallible;

    ghost follows = { λ _ _ _ _ _. Unit {0} };

    #[inline(always)]
    fn arrives(&mut self, _state: &State) -> Result<(), Infallible> {
        Ok(())
    }

    #[inline(always)]
    fn covered(&mut self, _index: usize, _number: u32) -> Result<(), Infallible> {
        Ok(())
    }

    #[inline(always)]
    fn explores(
        &mut self,
        _state: &State,
        _stored: Option<usize>,
        _kept: Option<&Kept>,
    ) -> Result<(), Infallible> {
        self.explored = self.explored.wrapping_add(1);
        if self.explored % PERIOD == 0 {
            self.show();
        }
        Ok(())
    }

    #[inline(always)]
    fn stepped(&mut self, _ways: Ways) -> Result<(), Infallible> {
        Ok(())
    }

    #[inline(always)]
    fn finished(&mut self, _number: u32) -> Result<(), Infallible> {
        Ok(())
    }

    #[inline(always)]
    fn begins_anew(&mut self) -> Result<(), Infallible> {
        Ok(())
    }

    #[inline(always)]
    fn refused(&mut self, _refusal: Refusal, _slot: usize) {}
}

/// Verifies a program as `verify` does. If that takes over a second and standard error is a
/// terminal, the terminal shows how many instructions are explored, and is cleared at the end. A
/// refusal comes with the path there, if the search came to its limit.
pub fn verify_watched<R: Files + Clock>(
    rt: &R,
    alloc: Global,
    image: Image,
) -> Result<Verified, Rejected>
    ensures program { IfOk result (λ verified. verified.program ≡ image) }
    ensures verified { IfOk result IsVerified }
    ensures refused { IfErr result (λ r. IsRefused image r.refusal r.slot) }
    ensures number { IfOk result (λ verified. HasNumber image start verified.bound) }
    ensures accepts { IfErr result (λ r. AcceptsAll image r.refusal) }
    ensures bounds { IfOk result (λ verified. BoundsAll image verified.bound) }
{
    let mut counter = Counter {
        explored: 0,
        screen: Screen::new(rt, alloc),
    };
    match verify_followed(alloc, image, &mut counter) {
        Ok(verified) => Ok(verified),
        Err(Unverified::Rejected(rejected)) => Err(rejected),
        Err(Unverified::Stopped(never)) => match never {},
    }
}
