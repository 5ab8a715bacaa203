//! The step of an instruction in a state, form by form.

ghost use Rattle.std.specs.Prelude.{false, ◌≡◌, ◌+◌, ◌<◌, ◌^◌, length};
ghost use Rattle.std.specs.List.{list_any};
ghost use Rattle.std.specs.Option.{option_to_list};
ghost use Rattle.isa_model.specs.Code.Instructions.{Program, slots_filled, writes, is_frame_pointer};
ghost use Rattle.transfer.specs.Refusing.{is_unset_in, reads_unset};
ghost use Rattle.transfer.specs.Exact.{OperandKind, IsSetter, ResultKind, SetsOrRefuses, StepsForm, GoesOn, StoresAt, SwapsAtPlace, ComparesAtPlace};
ghost use Rattle.transfer.specs.HelperCalls.{CallsHelper};
ghost use Rattle.transfer.specs.Values.{NamesFit};
ghost use Rattle.transfer.specs.Beside.{keeps_callers};

use crate::Ways;
use crate::arithmetic::{arithmetic, constant, negated, reordered, sign_extended};
use crate::atomics::{compare_and_swap, swap};
use crate::exits::{call, exit};
use crate::helpers::call_helper;
use crate::jumps::jump_if;
use crate::memory::{load, load_signed, store};
use crate::refusals::Refusal;
use crate::values::{map_pointer, value_pointer};
use isa_model::numbers::unsigned;
use isa_model::{Insn, MapDef, Operand, Place, Reg, Size, Version, Width, destination};
use reg_state::Kind;
use stack_state::State;

// ---- the tests of the registers

fn is_unset(state: &State, register: Option<Reg>) -> bool
    ensures { result ≡ list_any (is_unset_in state.now) (option_to_list register) }
{
    match register {
        None => false,
        Some(register) => matches!(state.kind_of(register), Kind::Unset),
    }
}

/// Returns whether a register that an instruction reads may be unset.
pub fn reads_unset(state: &State, insn: &Insn) -> bool
    ensures { result ≡ reads_unset state.now insn.now }
{
    let (first, second, third, fourth) = insn.read();
    is_unset(state, first)
        || is_unset(state, second)
        || is_unset(state, third)
        || is_unset(state, fourth)
}

// ---- registers set

/// The kind of an operand; a constant is sign-extended to the width.
fn operand(state: &State, width: Width, source: Operand) -> Kind
    ensures { OperandKind state.now width source result }
{
    match source {
        Operand::Constant(k) => constant(unsigned(width, k)),
        Operand::Register(register) => state.kind_of(register),
    }
}

/// The kind that a form puts into its register, or the refusal.
fn result_kind(maps: &[MapDef], state: &State, insn: &Insn) -> Result<Kind, Refusal>
    requires named { NamesFit insn.now }
    requires setter { IsSetter insn.now }
    ensures { ResultKind maps.now state.now insn.now result }
{
    match *insn {
        Insn::Alu(width, op, d, source) => {
            arithmetic(
                state,
                op,
                width,
                state.kind_of(d),
                operand(state, width, source),
            )
        }
        Insn::Neg(width, d) => negated(width, state.kind_of(d)),
        Insn::MovSx(extension, _, source) => sign_extended(extension, state.kind_of(source)),
        Insn::ByteSwap(order, span, d) => reordered(order, span, state.kind_of(d)),
        Insn::LoadNumber(_, number) => Ok(constant(number)),
        Insn::LoadMap(_, index) => Ok(map_pointer(index)),
        Insn::LoadMapValue(_, index, offset) => Ok(value_pointer(index, offset)),
        Insn::Load(size, _, place) => {
            load(maps, state, size, state.kind_of(place.base), place.offset)
        }
        Insn::LoadSx(size, _, place) => {
            load_signed(maps, state, size, state.kind_of(place.base), place.offset)
        }
        _ => unreachable!(),
    }
}

/// Sets the register that a form writes, and goes on to the next instruction.
fn set(maps: &[MapDef], state: &mut State, insn: &Insn) -> Result<Ways, Refusal>
    requires writable { is_frame_pointer (writes insn.now) ≡ false }
    requires slot { state.old.slot + slots_filled insn.now < 2 ^ 63 }
    requires named { NamesFit insn.now }
    requires setter { IsSetter insn.now }
    ensures { SetsOrRefuses maps.now state.old insn.now result state.new }
{
    let kind = result_kind(maps, state, insn)?;
    let Some(register) = insn.written() else {
        unreachable!()
    };
    state.set_register(register, kind);
    state.slot += insn.slots();
    Ok(Ways::One)
}

// ---- memory

/// Stores a value, and goes on to the next instruction.
fn store_at(
    maps: &[MapDef],
    state: &mut State,
    size: Size,
    place: Place,
    source: Kind,
) -> Result<Ways, Refusal>
    requires { state.old.slot + 1 < 2 ^ 63 }
    ensures { GoesOn state.old (StoresAt maps.now state.old size place source) result state.new }
{
    let base = state.kind_of(place.base);
    let next = state.slot + 1;
    store(maps, state, size, base, place.offset, source)?;
    state.slot = next;
    Ok(Ways::One)
}

/// An atomic instruction that puts the old number into a register, if one is given.
fn swap_at(
    maps: &[MapDef],
    state: &mut State,
    width: Width,
    place: Place,
    source: Reg,
    register: Option<Reg>,
) -> Result<Ways, Refusal>
    requires writable { is_frame_pointer register ≡ false }
    requires slot { state.old.slot + 1 < 2 ^ 63 }
    ensures { GoesOn state.old
        (SwapsAtPlace maps.now state.old width place source register) result state.new }
{
    let base = state.kind_of(place.base);
    let kind = state.kind_of(source);
    let next = state.slot + 1;
    swap(
        maps,
        state,
        kind,
        base,
        place.offset,
        width.size(),
        register,
    )?;
    state.slot = next;
    Ok(Ways::One)
}

/// CMPXCHG.
fn compare_at(
    maps: &[MapDef],
    state: &mut State,
    width: Width,
    place: Place,
    source: Reg,
) -> Result<Ways, Refusal>
    requires slot { state.old.slot + 1 < 2 ^ 63 }
    ensures { GoesOn state.old
        (ComparesAtPlace maps.now state.old width place source) result state.new }
{
    let base = state.kind_of(place.base);
    let kind = state.kind_of(source);
    let next = state.slot + 1;
    compare_and_swap(maps, state, kind, base, place.offset, width.size())?;
    state.slot = next;
    Ok(Ways::One)
}

// ---- helpers

/// Calls a helper, and goes on to the next instruction.
fn help(maps: &[MapDef], number: i32, state: &mut State) -> Result<Ways, Refusal>
    requires { state.old.slot + 1 < 2 ^ 63 }
    ensures { GoesOn state.old (CallsHelper maps.now state.old number) result state.new }
{
    let next = state.slot + 1;
    call_helper(maps, number, state)?;
    state.slot = next;
    Ok(Ways::One)
}

// ---- all forms

/// Returns whether a form leaves all callers as they are: it sets a register, or jumps always.
pub fn keeps_callers(insn: &Insn) -> bool
    ensures { result ≡ keeps_callers insn.now }
{
    match insn {
        Insn::Alu(..)
        | Insn::Neg(..)
        | Insn::MovSx(..)
        | Insn::ByteSwap(..)
        | Insn::LoadNumber(..)
        | Insn::LoadMap(..)
        | Insn::LoadMapValue(..)
        | Insn::Load(..)
        | Insn::LoadSx(..)
        | Insn::Jump(_)
        | Insn::JumpLong(_) => true,
        Insn::StoreConstant(..)
        | Insn::Store(..)
        | Insn::Atomic(..)
        | Insn::Exchange(..)
        | Insn::CompareExchange(..)
        | Insn::JumpIf(..)
        | Insn::CallLocal(_)
        | Insn::CallHelper(_)
        | Insn::Exit => false,
    }
}

/// Returns what an instruction does, once the tests of its registers pass.
pub fn perform(
    insn: &Insn,
    slots: usize,
    maps: &[MapDef],
    version: Version,
    state: &mut State,
    other: &mut State,
) -> Result<Ways, Refusal>
    requires writable { is_frame_pointer (writes insn.now) ≡ false }
    requires slot { state.old.slot + slots_filled insn.now < 2 ^ 63 }
    requires named { NamesFit insn.now }
    ensures { (p : Program) → length p.insns ≡ slots → p.maps ≡ maps.now → p.version ≡ version
        → StepsForm p state.old insn.now result state.new other.new }
{
    match *insn {
        Insn::StoreConstant(size, place, k) => {
            store_at(
                maps,
                state,
                size,
                place,
                constant(unsigned(Width::Full64, k)),
            )
        }
        Insn::Store(size, place, register) => {
            let source = state.kind_of(register);
            store_at(maps, state, size, place, source)
        }
        Insn::Atomic(width, _, _, place, source) | Insn::Exchange(width, place, source) => {
            swap_at(maps, state, width, place, source, insn.written())
        }
        Insn::CompareExchange(width, place, source) => {
            compare_at(maps, state, width, place, source)
        }
        Insn::Jump(by) => {
            state.slot = destination(state.slot, i32::from(by), slots);
            Ok(Ways::One)
        }
        Insn::JumpLong(by) => {
            state.slot = destination(state.slot, by, slots);
            Ok(Ways::One)
        }
        Insn::JumpIf(cond, by) => jump_if(cond, i32::from(by), slots, state, other),
        Insn::CallLocal(by) => call(by, slots, state),
        Insn::Exit => exit(version, state),
        Insn::CallHelper(number) => help(maps, number, state),
        Insn::Alu(..)
        | Insn::Neg(..)
        | Insn::MovSx(..)
        | Insn::ByteSwap(..)
        | Insn::LoadNumber(..)
        | Insn::LoadMap(..)
        | Insn::LoadMapValue(..)
        | Insn::Load(..)
        | Insn::LoadSx(..) => set(maps, state, insn),
    }
}
