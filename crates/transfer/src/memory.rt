//! Access to memory: loads and stores by what the base points to, and their refusals.

ghost use Rattle.std.specs.Prelude.{◌≡◌};
ghost use Rattle.transfer.specs.Accesses.{LoadsKind, LoadsSigned, StoresKind};
ghost use Rattle.transfer.specs.Refusing.{access_refusal};

use crate::bytes::value_size;
use crate::context::context_load;
use crate::packets::{packet_load, packet_load_signed, packet_store};
use crate::refusals::Refusal;
use crate::stacks::{stack_load, stack_load_signed, stack_store};
use crate::values::{value_load, value_load_signed, value_store};
use isa_model::{MapDef, SignedSize, Size};
use reg_state::Kind;
use stack_state::State;

/// Returns why there is no access through a base of this kind, where no other test decides.
fn access_refusal(base: Kind) -> Refusal
    ensures { result ≡ access_refusal base }
{
    match base {
        Kind::Context => Refusal::ContextAccess,
        Kind::MapValueOrNull { .. } => Refusal::NullNotTested,
        _ => Refusal::NotMemory,
    }
}

/// The result of a load.
pub fn load(
    maps: &[MapDef],
    state: &State,
    size: Size,
    base: Kind,
    by: i16,
) -> Result<Kind, Refusal>
    ensures { LoadsKind maps.now state.now size base by result }
{
    match base {
        Kind::Context => context_load(size, by),
        Kind::Stack { frame, offset } => stack_load(state, frame, offset, by, size),
        Kind::Packet {
            fixed,
            least,
            proved,
            ..
        } => packet_load(size, fixed, least, proved, by),
        Kind::MapValue {
            index,
            least,
            greatest,
        } => value_load(size, value_size(maps, index), least, greatest, by),
        _ => Err(access_refusal(base)),
    }
}

/// The result of a sign-extending load.
pub fn load_signed(
    maps: &[MapDef],
    state: &State,
    size: SignedSize,
    base: Kind,
    by: i16,
) -> Result<Kind, Refusal>
    ensures { LoadsSigned maps.now state.now size base by result }
{
    match base {
        Kind::Stack { frame, offset } => stack_load_signed(state, frame, offset, by, size),
        Kind::Packet {
            fixed,
            least,
            proved,
            ..
        } => packet_load_signed(size, fixed, least, proved, by),
        Kind::MapValue {
            index,
            least,
            greatest,
        } => value_load_signed(size, value_size(maps, index), least, greatest, by),
        _ => Err(access_refusal(base)),
    }
}

/// Stores a value.
pub fn store(
    maps: &[MapDef],
    state: &mut State,
    size: Size,
    base: Kind,
    by: i16,
    source: Kind,
) -> Result<(), Refusal>
    ensures { StoresKind maps.now state.old size base by source state.new result }
{
    match base {
        Kind::Stack { frame, offset } => stack_store(state, frame, offset, by, size, source),
        Kind::Packet {
            fixed,
            least,
            proved,
            ..
        } => packet_store(size, fixed, least, proved, by, source),
        Kind::MapValue {
            index,
            least,
            greatest,
        } => value_store(size, value_size(maps, index), least, greatest, by, source),
        _ => Err(access_refusal(base)),
    }
}
