//! Instructions that do to a pointer what is not defined, and what helps.

ghost use Rattle.std.specs.Prelude.{◌≡◌};
ghost use Rattle.isa_model.specs.Code.Sizes.{unsigned_size};
ghost use Rattle.explanations.specs.Pointers.{access, is_packet_end, is_end_in, computes_with_end, operand_by, operand_at, operand_line, offset_by, offset_line, memory_by, memory_line};

use isa_model::{Insn, Operand, Place, SignedSize, Size};
use reg_state::Kind;
use stack_state::State;

// What a sign-extending load reads.
fn unsigned_size(signed_size: SignedSize) -> Size
    ensures { result ≡ unsigned_size signed_size }
{
    match signed_size {
        SignedSize::S8 => Size::U8,
        SignedSize::S16 => Size::U16,
        SignedSize::S32 => Size::U32,
    }
}

/// The size and the place of an access.
pub fn access(insn: &Insn) -> Option<(Size, Place)>
    ensures { result ≡ access insn.now }
{
    match *insn {
        Insn::Load(size, _, place) => Some((size, place)),
        Insn::LoadSx(signed_size, _, place) => Some((unsigned_size(signed_size), place)),
        Insn::StoreConstant(size, place, _) => Some((size, place)),
        Insn::Store(size, place, _) => Some((size, place)),
        Insn::Atomic(width, _, _, place, _) => Some((width.size(), place)),
        Insn::Exchange(width, place, _) => Some((width.size(), place)),
        Insn::CompareExchange(width, place, _) => Some((width.size(), place)),
        _ => None,
    }
}

fn is_packet_end(kind: Kind) -> bool
    ensures { result ≡ is_packet_end kind }
{
    matches!(kind, Kind::PacketEnd)
}

fn is_end_in(state: &State, source: Operand) -> bool
    ensures { result ≡ is_end_in state.now source }
{
    match source {
        Operand::Register(register) => is_packet_end(state.kind_of(register)),
        Operand::Constant(_) => false,
    }
}

// Whether the instruction computes with the packet end.
fn computes_with_end(state: &State, insn: &Insn) -> bool
    ensures { result ≡ computes_with_end state.now insn.now }
{
    match *insn {
        Insn::Alu(_, _, register, source) => {
            is_packet_end(state.kind_of(register)) || is_end_in(state, source)
        }
        _ => false,
    }
}

// What helps instead of an operation on a value of this kind.
fn operand_by(kind: Kind) -> &'static str
    ensures { result.now ≡ operand_by kind }
{
    match kind {
        Kind::Context =>
            "the context takes no arithmetic: load with an offset: r2 = *(u32 *)(r1 + 12)\n",
        _ => "stack, packet and value pointers move by += and -= of a number, at 64 bits\n",
    }
}

fn operand_at(state: &State, insn: &Insn) -> &'static str
    ensures { result.now ≡ operand_at state.now insn.now }
{
    match *insn {
        Insn::Alu(_, _, register, _) => operand_by(state.kind_of(register)),
        _ => operand_by(Kind::Unset),
    }
}

/// Returns what helps instead of an operation that is not defined for a pointer.
pub fn operand_line(state: &State, insn: &Insn) -> &'static str
    ensures { result.now ≡ operand_line state.now insn.now }
{
    if computes_with_end(state, insn) {
        "no length is computed: compare with the packet end: \
         r5 = packet; r5 += 14; if r5 > packet end goto short\n"
    } else {
        operand_at(state, insn)
    }
}

// What helps where a pointer would move too far, by what it points to.
fn offset_by(kind: Kind) -> &'static str
    ensures { result.now ≡ offset_by kind }
{
    match kind {
        Kind::Stack { .. } =>
            "a frame pointer moves by constants: keep what a number selects in a map's value\n",
        _ => "limit the number first (r3 &= 1023): a pointer moves by at most 536870912 bytes\n",
    }
}

/// Returns what helps where a pointer would move too far.
pub fn offset_line(state: &State, insn: &Insn) -> &'static str
    ensures { result.now ≡ offset_line state.now insn.now }
{
    match *insn {
        Insn::Alu(_, _, register, _) => offset_by(state.kind_of(register)),
        _ => "",
    }
}

// What reaches memory, in place of a value of this kind.
fn memory_by(kind: Kind) -> &'static str
    ensures { result.now ≡ memory_by kind }
{
    match kind {
        Kind::Map { .. } =>
            "a map is no memory: look a key up (call 1), and use r0 where it is not 0\n",
        Kind::PacketEnd =>
            "read through the packet pointer, the load at r1 + 0, and compare it with this\n",
        Kind::Number(_) => "a number is no address, and 0 is a look-up that found nothing: \
             use a pointer, or the other branch\n",
        _ => "memory is reached by r1 of the start, r10, a packet or a value pointer\n",
    }
}

/// Returns what reaches memory, in place of the base of a refused access.
pub fn memory_line(state: &State, insn: &Insn) -> &'static str
    ensures { result.now ≡ memory_line state.now insn.now }
{
    match access(insn) {
        Some((_, place)) => memory_by(state.kind_of(place.base)),
        None => "",
    }
}
