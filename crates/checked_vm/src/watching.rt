//! What looks on at a run.

ghost use Rattle.std.specs.Prelude.{List, ◌∷◌, [], ◌++◌, Option};
ghost use Rattle.isa_model.specs.declared.instructions.Insn.{Insn};
ghost use Rattle.isa_model.specs.Machine.States.{State};
ghost use Rattle.checked_vm.specs.Machine.{state_of};

use crate::core_state::Core;
use isa_model::Insn;

/// Sees each state in which a step of a run begins.
pub trait Watcher {
    /// Says whether it has seen these states, one after another, of a program with this code.
    ghost has_seen: { Self → List (Option Insn) → List State → Type 0 };

    /// Sees a state, before the step that begins in it: its slot, registers, call frames and maps,
    /// and the packet.
    fn see(&mut self, insns: &[Option<Insn>], core: &Core, packet: &[u8])
        ensures { (states : List State) → has_seen self.old insns.now states
            → has_seen self.new insns.now (states ++ state_of core.now packet.now ∷ []) };
}

/// Looks at nothing.
#[derive(Clone, Copy)]
pub struct Unwatched;

impl Watcher for Unwatched {
    ghost has_seen = { λ watcher insns states. Unit {0} };

    #[inline(always)]
    fn see(&mut self, _insns: &[Option<Insn>], _core: &Core, _packet: &[u8]) {}
}
