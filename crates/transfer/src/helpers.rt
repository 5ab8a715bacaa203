//! Calls of helpers: the kinds of their arguments, the bytes that these point to, and the answers.

ghost use Rattle.std.specs.Prelude.{◌≡◌, ◌≤◌, ◌<◌, ◌^◌, ◌↔◌, ◌+ℤ◌, pos, IsTrue};
ghost use Rattle.isa_model.specs.Code.Helpers.{helper_numbered};
ghost use Rattle.transfer.specs.HelperCalls.{called_map, points_to_bytes, is_number, judged, key_arguments, update_arguments, KeyIsKnown, ValueIsKnown, AnswersNumber, AnswersValue, without_values, LeavesIf, StepsHelper, CallsHelper};

use crate::bytes::are_known;
use crate::jumps::is_untested;
use crate::refusals::Refusal;
use isa_model::{Helper, MapDef, MapType, Reg, Width};
use reg_state::{Domain, Kind, Scalar};
use stack_state::State;

/// The map that a call names.
#[derive(Clone, Copy)]
pub struct CalledMap {
    pub index: u8,
    pub row: MapDef,
}

// ---- the kinds of the arguments

fn called_map(maps: &[MapDef], kind: Kind) -> Result<CalledMap, Refusal>
    ensures { result ≡ called_map maps.now kind }
{
    match kind {
        Kind::Map { index } => match maps.get(usize::from(index)) {
            Some(row) => Ok(CalledMap { index, row: *row }),
            None => Err(Refusal::HelperArgument),
        },
        _ => Err(Refusal::HelperArgument),
    }
}

fn points_to_bytes(kind: Kind) -> bool
    ensures { result ≡ points_to_bytes kind }
{
    match kind {
        Kind::Stack { .. } | Kind::Packet { .. } | Kind::MapValue { .. } => true,
        _ => false,
    }
}

fn is_number(kind: Kind) -> bool
    ensures { result ≡ is_number kind }
{
    matches!(kind, Kind::Number(_))
}

/// The arguments of a look-up and of a delete: a map and a key.
fn key_arguments(maps: &[MapDef], state: &State) -> Result<CalledMap, Refusal>
    ensures { result ≡ key_arguments maps.now state.now }
{
    let map = state.kind_of(Reg::R1);
    let key = state.kind_of(Reg::R2);
    if is_untested(map) || is_untested(key) {
        return Err(Refusal::NullNotTested);
    }
    if !points_to_bytes(key) {
        return Err(Refusal::HelperArgument);
    }
    called_map(maps, map)
}

/// The arguments of an update: a map, a key, a value and flags.
fn update_arguments(maps: &[MapDef], state: &State) -> Result<CalledMap, Refusal>
    ensures { result ≡ update_arguments maps.now state.now }
{
    let map = state.kind_of(Reg::R1);
    let key = state.kind_of(Reg::R2);
    let value = state.kind_of(Reg::R3);
    let flags = state.kind_of(Reg::R4);
    if is_untested(map) || is_untested(key) || is_untested(value) || is_untested(flags) {
        return Err(Refusal::NullNotTested);
    }
    if !points_to_bytes(key) || !points_to_bytes(value) || !is_number(flags) {
        return Err(Refusal::HelperArgument);
    }
    called_map(maps, map)
}

// ---- the bytes that they point to

fn key_is_known(maps: &[MapDef], state: &State, map: CalledMap) -> bool
    ensures { IsTrue result ↔ KeyIsKnown maps.now state.now map }
{
    are_known(
        maps,
        state,
        state.kind_of(Reg::R2),
        u32::from(map.row.key_size),
    )
}

fn value_is_known(maps: &[MapDef], state: &State, map: CalledMap) -> bool
    ensures { IsTrue result ↔ ValueIsKnown maps.now state.now map }
{
    are_known(maps, state, state.kind_of(Reg::R3), map.row.value_size)
}

// ---- the helpers

/// The answer is some number.
fn answer_number(state: &mut State)
    ensures { AnswersNumber state.old state.new }
{
    state.answer(Kind::Number(Scalar::any(Width::Full64)));
}

/// The answer is a pointer to a value of the map, or null.
fn answer_value(state: &mut State, map: CalledMap)
    ensures { AnswersValue state.old map state.new }
{
    let identity = state.fresh_null_identity();
    state.answer(Kind::MapValueOrNull {
        index: map.index,
        identity,
    });
}

/// A hash map loses a key. It is not known which one, so all pointers to its values are forgotten.
fn forget_values(state: &mut State, map: CalledMap)
    ensures { state.new ≡ without_values map.row.kind map.index state.old }
{
    match map.row.kind {
        MapType::Hash => state.forget_map(map.index),
        MapType::Array => {}
    }
}

fn look_up(maps: &[MapDef], state: &mut State) -> Result<(), Refusal>
    ensures { LeavesIf (key_arguments maps.now state.old) (KeyIsKnown maps.now state.old)
        (AnswersValue state.old) state.new result }
{
    let map = key_arguments(maps, state)?;
    if !key_is_known(maps, state, map) {
        return Err(Refusal::HelperBytes);
    }
    answer_value(state, map);
    Ok(())
}

fn update(maps: &[MapDef], state: &mut State) -> Result<(), Refusal>
    ensures { LeavesIf (update_arguments maps.now state.old)
        (λ m. KeyIsKnown maps.now state.old m × ValueIsKnown maps.now state.old m)
        (λ m. AnswersNumber state.old) state.new result }
{
    let map = update_arguments(maps, state)?;
    if !key_is_known(maps, state, map) || !value_is_known(maps, state, map) {
        return Err(Refusal::HelperBytes);
    }
    answer_number(state);
    Ok(())
}

fn delete(maps: &[MapDef], state: &mut State) -> Result<(), Refusal>
    ensures { LeavesIf (key_arguments maps.now state.old) (KeyIsKnown maps.now state.old)
        (λ m. AnswersNumber (without_values m.row.kind m.index state.old)) state.new result }
{
    let map = key_arguments(maps, state)?;
    if !key_is_known(maps, state, map) {
        return Err(Refusal::HelperBytes);
    }
    forget_values(state, map);
    answer_number(state);
    Ok(())
}

fn help(maps: &[MapDef], helper: Option<Helper>, state: &mut State) -> Result<(), Refusal>
    ensures { StepsHelper maps.now state.old helper state.new result }
{
    match helper {
        Some(Helper::MapLookupElem) => look_up(maps, state),
        Some(Helper::MapUpdateElem) => update(maps, state),
        Some(Helper::MapDeleteElem) => delete(maps, state),
        Some(Helper::KtimeGetNs) => {
            answer_number(state);
            Ok(())
        }
        None => Err(Refusal::HelperArgument),
    }
}

/// The call of the helper with this number.
pub fn call_helper(maps: &[MapDef], number: i32, state: &mut State) -> Result<(), Refusal>
    ensures { CallsHelper maps.now state.old number state.new result }
{
    help(maps, Helper::numbered(number), state)
}
