//! What a refused instruction needs, or what helps: a line for each case.

ghost use Rattle.std.specs.Prelude.{◌≡◌, ◌+ℤ◌, IfOk, slice_get};
ghost use Rattle.std.specs.Option.{option_copied};
ghost use Rattle.std.specs.String.{string_bytes};
ghost use Rattle.isa_model.specs.Code.Helpers.{helper_numbered};
ghost use Rattle.transfer.specs.HelperCalls.{points_to_bytes};
ghost use Rattle.explanations.specs.Cases as spec;
ghost use Rattle.explanations.specs.Cases.{needs_words, last_byte, span_words, behind_words, frame_line, test_words, packet_line, before_line, access_end, after_line, packet_case, map_value_line, is_map, key_line, update_line, argument_line, value_size, exit_line, hint_line};

use crate::pointers::{access, memory_line, offset_line, operand_line};
use isa_model::{Helper, Insn, MapDef, Place, Reg, Size};
use reg_state::Kind;
use stack_state::State;
use std::alloc::{AllocError, Global};
use transfer::Refusal as StepRefusal;
use walks::Refusal;

fn needs_words(alloc: Global, first: i64, last: i64) -> Result<String, AllocError>
    ensures { IfOk result (λ text. string_bytes text ≡ needs_words first last) }
{
    format!(in alloc; "needs bytes {first} to {last}")
}

// The first byte of an access, where its base is at this offset.
fn first_byte(base: i32, place: Place) -> i64
    ensures { result ≡ base +ℤ place.offset }
{
    i64::from(base) + i64::from(place.offset)
}

// The last byte of an access, where its base is at this offset.
fn last_byte(base: i32, place: Place, size: Size) -> i64
    ensures { result ≡ last_byte base place.offset size }
{
    i64::from(base) + i64::from(place.offset) + (size.bytes() as i64) - 1
}

// The bytes of an access, where its base is at one of these offsets.
fn span_words(
    alloc: Global,
    least: i32,
    greatest: i32,
    place: Place,
    size: Size,
) -> Result<String, AllocError>
    ensures { IfOk result (λ text. string_bytes text
        ≡ span_words least greatest place.offset size) }
{
    let first = first_byte(least, place);
    let last = last_byte(greatest, place, size);
    needs_words(alloc, first, last)
}

// Words for the point from which the packet's bytes are counted.
fn behind_words(identity: u32) -> &'static str
    ensures { result.now ≡ behind_words identity }
{
    if identity == 0 { "" } else { " after the part" }
}

// The row of a map.
fn row_at(maps: &[MapDef], index: u8) -> Option<MapDef>
    ensures { result ≡ slice_get maps.now index }
{
    maps.get(usize::from(index)).copied()
}

// How large the values of a map are.
fn value_size(maps: &[MapDef], index: u8) -> u32
    ensures { result ≡ value_size maps.now index }
{
    match row_at(maps, index) {
        Some(row) => row.value_size,
        None => 0,
    }
}

// Which bytes of a call frame an access needs, and which bytes there are.
fn frame_line(alloc: Global, span: &str, bytes: usize) -> Result<String, AllocError>
    ensures { IfOk result (λ text. string_bytes text ≡ frame_line span.now bytes) }
{
    format!(in alloc;
        "{span}, and the first at a multiple of {bytes}; a frame has bytes -512 to -1\n"
    )
}

// A test for the packet's bytes up to this offset from a base register.
fn test_words(alloc: Global, base: usize, until: i64) -> Result<String, AllocError>
    ensures { IfOk result (λ text. string_bytes text ≡ test_words base until) }
{
    format!(in alloc; "r5 = r{base}; r5 += {until}; if r5 > packet end goto short")
}

// Which bytes of the packet are needed, and the test that is missing.
fn packet_line(
    alloc: Global,
    span: &str,
    behind: &str,
    proved: u32,
    base: usize,
    test: &str,
) -> Result<String, AllocError>
    ensures { IfOk result (λ text. string_bytes text
        ≡ packet_line span.now behind.now proved base test.now) }
{
    format!(in alloc;
        "{span}{behind}; {proved} are proved: test before this, and after the last move of \
         r{base}: {test}\n"
    )
}

// Which bytes are needed, where the first is before the point from which they are counted.
fn before_line(alloc: Global, span: &str, identity: u32) -> Result<String, AllocError>
    ensures { IfOk result (λ text. string_bytes text ≡ before_line span.now identity) }
{
    if identity == 0 {
        format!(in alloc; "{span}: none are before the packet's beginning: correct the offset\n")
    } else {
        format!(in alloc;
            "{span} after the part: read what is before it through a copy that was made earlier\n"
        )
    }
}

// How far after its base register an access ends.
fn access_end(place: Place, size: Size) -> i64
    ensures { result ≡ access_end place size }
{
    i64::from(place.offset) + (size.bytes() as i64)
}

// Which bytes of the packet are needed, where none is before the point from which they are counted.
fn after_line(
    alloc: Global,
    span: &str,
    identity: u32,
    proved: u32,
    place: Place,
    size: Size,
) -> Result<String, AllocError>
    ensures { IfOk result (λ text. string_bytes text
        ≡ after_line span.now identity proved place size) }
{
    let behind = behind_words(identity);
    let base = place.base.number();
    let test = test_words(alloc, base, access_end(place, size))?;
    packet_line(alloc, span, behind, proved, base, test.as_str())
}

// Which bytes of the packet an access needs, where its base has this fixed part.
fn packet_case(
    alloc: Global,
    fixed: i32,
    identity: u32,
    proved: u32,
    place: Place,
    size: Size,
) -> Result<String, AllocError>
    ensures { IfOk result (λ text. string_bytes text
        ≡ packet_case fixed identity proved place size) }
{
    let span = span_words(alloc, fixed, fixed, place, size)?;
    if first_byte(fixed, place) < 0 {
        return before_line(alloc, span.as_str(), identity);
    }
    after_line(alloc, span.as_str(), identity, proved, place, size)
}

// Which bytes of a map value are needed, and how many there are.
fn map_value_line(alloc: Global, span: &str, bytes: u32) -> Result<String, AllocError>
    ensures { IfOk result (λ text. string_bytes text ≡ map_value_line span.now bytes) }
{
    format!(in alloc; "{span}; the value has {bytes}: correct the offset, or limit it (r2 &= 7)\n")
}

// Which bytes a refused access needs, and which bytes there are.
fn access_line(
    alloc: Global,
    maps: &[MapDef],
    kind: Kind,
    place: Place,
    size: Size,
) -> Result<String, AllocError>
    ensures { IfOk result (λ text. string_bytes text
        ≡ spec.access_line maps.now kind place size) }
{
    match kind {
        Kind::Stack { offset, .. } => {
            let span = span_words(alloc, offset, offset, place, size)?;
            frame_line(alloc, span.as_str(), size.bytes())
        }
        Kind::Packet {
            fixed,
            identity,
            proved,
            ..
        } => packet_case(alloc, fixed, identity, proved, place, size),
        Kind::MapValue {
            index,
            least,
            greatest,
        } => {
            let span = span_words(alloc, least, greatest, place, size)?;
            map_value_line(alloc, span.as_str(), value_size(maps, index))
        }
        _ => Ok(String::new(alloc)),
    }
}

// Which bytes the access of an instruction needs, and which bytes there are.
fn place_line(
    alloc: Global,
    maps: &[MapDef],
    state: &State,
    insn: &Insn,
) -> Result<String, AllocError>
    ensures { IfOk result (λ text. string_bytes text
        ≡ spec.place_line maps.now state.now insn.now) }
{
    match access(insn) {
        Some((size, place)) => access_line(alloc, maps, state.kind_of(place.base), place, size),
        None => Ok(String::new(alloc)),
    }
}

fn is_map(kind: Kind) -> bool
    ensures { result ≡ is_map kind }
{
    matches!(kind, Kind::Map { .. })
}

fn points_to_bytes(kind: Kind) -> bool
    ensures { result ≡ points_to_bytes kind }
{
    match kind {
        Kind::Stack { .. } | Kind::Packet { .. } | Kind::MapValue { .. } => true,
        _ => false,
    }
}

// What a look-up and a delete need, by the kind of r1.
fn key_line(map: Kind) -> &'static str
    ensures { result.now ≡ key_line map }
{
    if is_map(map) {
        "r2 has to point to the key: into a frame, the packet or a value\n"
    } else {
        "r1 has to be a map: r1 = map_by_idx(0)\n"
    }
}

// What an update needs, by the kinds of r1, r2 and r3.
fn update_line(map: Kind, key: Kind, value: Kind) -> &'static str
    ensures { result.now ≡ update_line map key value }
{
    if !(is_map(map) && points_to_bytes(key)) {
        key_line(map)
    } else if points_to_bytes(value) {
        "r4 has to be a number, the flags: r4 = 0\n"
    } else {
        "r3 has to point to the value: into a frame, the packet or a value\n"
    }
}

// Which argument of a helper is wrong.
fn argument_line(state: &State, helper: Helper) -> &'static str
    ensures { result.now ≡ argument_line state.now helper }
{
    let map = state.kind_of(Reg::R1);
    match helper {
        Helper::MapLookupElem | Helper::MapDeleteElem => key_line(map),
        Helper::MapUpdateElem => {
            update_line(map, state.kind_of(Reg::R2), state.kind_of(Reg::R3))
        }
        Helper::KtimeGetNs => "helper 5, the time, has no arguments\n",
    }
}

// Which helpers there are, or which argument is wrong.
fn helper_line(alloc: Global, state: &State, insn: &Insn) -> Result<String, AllocError>
    ensures { IfOk result (λ text. string_bytes text ≡ spec.helper_line state.now insn.now) }
{
    let Insn::CallHelper(number) = *insn else {
        return Ok(String::new(alloc));
    };
    match Helper::numbered(number) {
        None => format!(in alloc;
            "helper {number} is not known: there are 1 look-up, 2 update, 3 delete and 5 time\n"
        ),
        Some(helper) => String::from_str(alloc, argument_line(state, helper)),
    }
}

// The sizes of a map's keys and values.
fn sizes_line(alloc: Global, maps: &[MapDef], state: &State) -> Result<String, AllocError>
    ensures { IfOk result (λ text. string_bytes text ≡ spec.sizes_line maps.now state.now) }
{
    let Kind::Map { index } = state.kind_of(Reg::R1) else {
        return Ok(String::new(alloc));
    };
    match row_at(maps, index) {
        Some(row) => {
            let key_bytes = row.key_size;
            let value_bytes = row.value_size;
            format!(in alloc;
                "a key of map {index} has {key_bytes} bytes, a value {value_bytes}: \
                 write all of them to the stack first, and point to the lowest\n"
            )
        }
        None => Ok(String::new(alloc)),
    }
}

// What r0 has to be at an exit, by how many callers there are.
fn exit_line(callers: usize) -> &'static str
    ensures { result.now ≡ exit_line callers }
{
    if callers == 0 {
        "r0 has to be a number: 0 ABORTED, 1 DROP, 2 PASS, 3 TX\n"
    } else {
        "a function hands back no pointer to its own stack bytes\n"
    }
}

// What helps, whatever the state is.
fn hint_line(refusal: StepRefusal) -> &'static str
    ensures { result.now ≡ hint_line refusal }
{
    match refusal {
        StepRefusal::ReadOnlyRegister => "copy it and change the copy: r2 = r10\n",
        StepRefusal::StackBytes =>
            "write the bytes first; read a stored pointer whole, with 8 bytes, and one to a value \
             before a delete\n",
        StepRefusal::ContextAccess =>
            "load 4 bytes: r2 = *(u32 *)(r1 + 0) is the packet, + 4 its end, + 12 the interface, \
             + 16 the queue\n",
        StepRefusal::NullNotTested =>
            "test it first, as by if r0 == 0 goto .., and use it where it is not 0\n",
        StepRefusal::PointerStored =>
            "store it with 8 bytes into the function's own stack: *(u64 *)(r10 - 8) = r1\n",
        StepRefusal::Comparison =>
            "compare a packet pointer with the packet end by < <= > >=, a value pointer with 0, \
             at 64 bits\n",
        StepRefusal::TooManyFrames =>
            "write the function's instructions in place of the call; in place of a recursion, \
             a loop\n",
        StepRefusal::PacketAtomic => "load, compute and store instead\n",
        _ => "",
    }
}

/// Returns what a refused instruction needs, or what helps.
pub fn case_line(
    alloc: Global,
    maps: &[MapDef],
    state: &State,
    insn: &Insn,
    refusal: Refusal,
) -> Result<String, AllocError>
    ensures { IfOk result (λ text. string_bytes text
        ≡ spec.case_line maps.now state.now insn.now refusal) }
{
    match refusal {
        Refusal::Step(
            StepRefusal::StackPlace | StepRefusal::PacketBytes | StepRefusal::MapValueBytes,
        ) => place_line(alloc, maps, state, insn),
        Refusal::Step(StepRefusal::PointerOperand) => {
            String::from_str(alloc, operand_line(state, insn))
        }
        Refusal::Step(StepRefusal::PointerOffset) => {
            String::from_str(alloc, offset_line(state, insn))
        }
        Refusal::Step(StepRefusal::NotMemory) => String::from_str(alloc, memory_line(state, insn)),
        Refusal::Step(StepRefusal::HelperArgument) => helper_line(alloc, state, insn),
        Refusal::Step(StepRefusal::HelperBytes) => sizes_line(alloc, maps, state),
        Refusal::Step(StepRefusal::ExitValue) => {
            String::from_str(alloc, exit_line(state.callers.len()))
        }
        Refusal::Step(refused) => String::from_str(alloc, hint_line(refused)),
        Refusal::Repeats => {
            String::from_str(alloc, "change a register in the loop that its test reads\n")
        }
        _ => Ok(String::new(alloc)),
    }
}
