//! What one state calls the identities of another.

ghost use Rattle.std.specs.Prelude.{◌≡◌, length};
ghost use Rattle.std.specs.List.{zip};
ghost use Rattle.reg_state.specs.KindCover.{IsCalled};
ghost use Rattle.stack_state.specs.Meaning.{frames_of};
ghost use Rattle.state_cover.specs.Names.{identity_of, is_named, spilled_kinds, frame_places, places, first_named, name_of, packet_name, null_name};

use reg_state::Kind;
use stack_state::{AbstractFrame, FRAME_SLOTS, StackSlot, State};

/// The two sorts of identities, which are numbered apart.
#[derive(Clone, Copy)]
pub(crate) enum NameSort {
    Packet,
    Null,
}

impl NameSort {
    fn identity_of(self, kind: Kind) -> Option<u32>
        ensures { result ≡ identity_of self kind }
    {
        match self {
            NameSort::Packet => kind.packet_identity(),
            NameSort::Null => kind.null_identity(),
        }
    }

    fn is_named(self, identity: u32, kind: Kind) -> bool
        ensures { result ≡ is_named self identity kind }
    {
        match self.identity_of(kind) {
            Some(named) => named == identity,
            None => false,
        }
    }

    // The kinds of both sides at the first place where the left registers use the identity.
    fn find_in_registers(
        self,
        identity: u32,
        left: &[Kind; 10],
        right: &[Kind; 10],
    ) -> Option<(Kind, Kind)>
        ensures { result ≡ first_named self identity (zip left.now right.now) }
    {
        for index in 0..10 {
            let kind = left[index];
            let opposite = right[index];
            if self.is_named(identity, kind) {
                return Some((kind, opposite));
            }
        }
        None
    }

    // The same of what is spilled.
    fn find_in_slots(
        self,
        identity: u32,
        left: &[StackSlot; FRAME_SLOTS],
        right: &[StackSlot; FRAME_SLOTS],
    ) -> Option<(Kind, Kind)>
        ensures { result
            ≡ first_named self identity (zip (spilled_kinds left.now) (spilled_kinds right.now)) }
    {
        for index in 0..FRAME_SLOTS {
            let kind = left[index].kind();
            let opposite = right[index].kind();
            if self.is_named(identity, kind) {
                return Some((kind, opposite));
            }
        }
        None
    }

    fn find_in_frame(
        self,
        identity: u32,
        left: &AbstractFrame,
        right: &AbstractFrame,
    ) -> Option<(Kind, Kind)>
        ensures { result ≡ first_named self identity (frame_places left.now right.now) }
    {
        if let Some(kinds) = self.find_in_registers(identity, &left.registers, &right.registers) {
            return Some(kinds);
        }
        self.find_in_slots(identity, left.stack.slots(), right.stack.slots())
    }

    fn find_in_frames(
        self,
        identity: u32,
        left: &[AbstractFrame],
        right: &[AbstractFrame],
    ) -> Option<(Kind, Kind)>
        requires { length left.now ≡ length right.now }
        ensures { result ≡ first_named self identity (places left.now right.now) }
    {
        for index in 0..left.len() {
            if let Some(kinds) = self.find_in_frame(identity, &left[index], &right[index]) {
                return Some(kinds);
            }
        }
        None
    }

    // The same, over all call frames.
    fn find(self, identity: u32, a: &State, b: &State) -> Option<(Kind, Kind)>
        requires { length a.now.callers.items ≡ length b.now.callers.items }
        ensures { result ≡ first_named self identity (places (frames_of a.now) (frames_of b.now)) }
    {
        let left = a.callers.as_slice();
        let right = b.callers.as_slice();
        if let Some(kinds) = self.find_in_frames(identity, left, right) {
            return Some(kinds);
        }
        self.find_in_frame(identity, &a.innermost, &b.innermost)
    }

    // The counterpart of an identity, or the identity itself if there is none.
    #[tactic(auto, unfolding(crate::specs::Names::name_of))]
    fn name_of(self, identity: u32, a: &State, b: &State) -> u32
        requires { length a.now.callers.items ≡ length b.now.callers.items }
        ensures { result ≡ name_of self a.now b.now identity }
    {
        match self.find(identity, a, b) {
            Some((_, opposite)) => self.identity_of(opposite).unwrap_or(identity),
            None => identity,
        }
    }
}

/// Returns what b calls the identity that a kind of a names; any identity, if it names none.
pub(crate) fn name_in(kind: Kind, a: &State, b: &State) -> u32
    requires { length a.now.callers.items ≡ length b.now.callers.items }
    ensures { IsCalled (packet_name a.now b.now) (null_name a.now b.now) kind result }
{
    match kind {
        Kind::Packet { identity, .. } => {
            if identity == 0 {
                return 0;
            }
            NameSort::Packet.name_of(identity, a, b)
        }
        Kind::MapValueOrNull { identity, .. } => NameSort::Null.name_of(identity, a, b),
        _ => 0,
    }
}
