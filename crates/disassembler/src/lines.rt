//! The lines of canonical text, one function for each form.

ghost use Rattle.std.specs.Prelude.{◌≡◌, ◌≤◌, length, true, false};
ghost use Rattle.isa_model.specs.Text.CanonicalText.{line_of, row_line};
ghost use Rattle.disassembler.specs.Parts.{fetch_insn_text};

use super::numbers::{TextLine, push_distance, push_hex, push_number, push_signed};
use super::parts::{push_memory, push_operand, push_place, push_reg};
use super::words::{
    atomic_sign, comparison_sign, extension_width, extension_word, fetch_word, map_type_word,
    op_sign, order_word, signed_word, size_word, span_word, width_word,
};
use isa_model::{
    AluOp, AtomicOp, ByteOrder, Cond, Extension, Insn, MapDef, Operand, Place, Reg, SignedSize,
    Size, SwapWidth, Width,
};

#[tactic(auto, unfolding(isa_model::specs::Text::CanonicalText::line_of))]
fn alu_line(width: Width, op: AluOp, destination: Reg, operand: Operand) -> TextLine
    ensures { result.bytes ≡ line_of (Insn.Alu width op destination operand) }
{
    let mut line = TextLine::new();
    push_reg(&mut line, width, destination);
    line.push_str(" ");
    line.push_str(op_sign(op));
    line.push_str(" ");
    push_operand(&mut line, width, operand);
    line.push_str("\n");
    line
}

#[tactic(auto, unfolding(isa_model::specs::Text::CanonicalText::line_of))]
fn negation_line(width: Width, destination: Reg) -> TextLine
    ensures { result.bytes ≡ line_of (Insn.Neg width destination) }
{
    let mut line = TextLine::new();
    push_reg(&mut line, width, destination);
    line.push_str(" = -");
    push_reg(&mut line, width, destination);
    line.push_str("\n");
    line
}

#[tactic(auto, unfolding(isa_model::specs::Text::CanonicalText::line_of))]
fn extension_line(extension: Extension, destination: Reg, source: Reg) -> TextLine
    ensures { result.bytes ≡ line_of (Insn.MovSx extension destination source) }
{
    let width = extension_width(extension);
    let mut line = TextLine::new();
    push_reg(&mut line, width, destination);
    line.push_str(" = (");
    line.push_str(extension_word(extension));
    line.push_str(")");
    push_reg(&mut line, width, source);
    line.push_str("\n");
    line
}

#[tactic(auto, unfolding(isa_model::specs::Text::CanonicalText::line_of))]
fn swap_line(order: ByteOrder, span: SwapWidth, destination: Reg) -> TextLine
    ensures { result.bytes ≡ line_of (Insn.ByteSwap order span destination) }
{
    let mut line = TextLine::new();
    push_reg(&mut line, Width::Full64, destination);
    line.push_str(" = ");
    line.push_str(order_word(order));
    line.push_str(span_word(span));
    line.push_str(" ");
    push_reg(&mut line, Width::Full64, destination);
    line.push_str("\n");
    line
}

#[tactic(auto, unfolding(isa_model::specs::Text::CanonicalText::line_of))]
fn number_line(destination: Reg, number: u64) -> TextLine
    ensures { result.bytes ≡ line_of (Insn.LoadNumber destination number) }
{
    let mut line = TextLine::new();
    push_reg(&mut line, Width::Full64, destination);
    line.push_str(" = 0x");
    push_hex(&mut line, number);
    line.push_str(" ll\n");
    line
}

#[tactic(auto, unfolding(isa_model::specs::Text::CanonicalText::line_of))]
fn map_load_line(destination: Reg, map: u32) -> TextLine
    ensures { result.bytes ≡ line_of (Insn.LoadMap destination map) }
{
    let mut line = TextLine::new();
    push_reg(&mut line, Width::Full64, destination);
    line.push_str(" = map_by_idx(");
    push_number(&mut line, u64::from(map));
    line.push_str(")\n");
    line
}

#[tactic(auto, unfolding(isa_model::specs::Text::CanonicalText::line_of))]
fn map_value_line(destination: Reg, map: u32, offset: u32) -> TextLine
    ensures { result.bytes ≡ line_of (Insn.LoadMapValue destination map offset) }
{
    let mut line = TextLine::new();
    push_reg(&mut line, Width::Full64, destination);
    line.push_str(" = map_val(map_by_idx(");
    push_number(&mut line, u64::from(map));
    line.push_str(")) + ");
    push_number(&mut line, u64::from(offset));
    line.push_str("\n");
    line
}

#[tactic(auto, unfolding(isa_model::specs::Text::CanonicalText::line_of))]
fn load_line(size: Size, destination: Reg, place: Place) -> TextLine
    ensures { result.bytes ≡ line_of (Insn.Load size destination place) }
{
    let mut line = TextLine::new();
    push_reg(&mut line, Width::Full64, destination);
    line.push_str(" = ");
    push_memory(&mut line, size_word(size), place);
    line.push_str("\n");
    line
}

#[tactic(auto, unfolding(isa_model::specs::Text::CanonicalText::line_of))]
fn signed_load_line(size: SignedSize, destination: Reg, place: Place) -> TextLine
    ensures { result.bytes ≡ line_of (Insn.LoadSx size destination place) }
{
    let mut line = TextLine::new();
    push_reg(&mut line, Width::Full64, destination);
    line.push_str(" = ");
    push_memory(&mut line, signed_word(size), place);
    line.push_str("\n");
    line
}

#[tactic(auto, unfolding(isa_model::specs::Text::CanonicalText::line_of))]
fn constant_store_line(size: Size, place: Place, number: i32) -> TextLine
    ensures { result.bytes ≡ line_of (Insn.StoreConstant size place number) }
{
    let mut line = TextLine::new();
    push_memory(&mut line, size_word(size), place);
    line.push_str(" = ");
    push_signed(&mut line, number);
    line.push_str("\n");
    line
}

#[tactic(auto, unfolding(isa_model::specs::Text::CanonicalText::line_of))]
fn store_line(size: Size, place: Place, source: Reg) -> TextLine
    ensures { result.bytes ≡ line_of (Insn.Store size place source) }
{
    let mut line = TextLine::new();
    push_memory(&mut line, size_word(size), place);
    line.push_str(" = ");
    push_reg(&mut line, Width::Full64, source);
    line.push_str("\n");
    line
}

#[tactic(auto, unfolding(isa_model::specs::Text::CanonicalText::line_of))]
fn atomic_line(width: Width, op: AtomicOp, place: Place, source: Reg) -> TextLine
    ensures { result.bytes ≡ line_of (Insn.Atomic width op false place source) }
{
    let mut line = TextLine::new();
    line.push_str("lock ");
    push_memory(&mut line, size_word(width.size()), place);
    line.push_str(" ");
    line.push_str(atomic_sign(op));
    line.push_str(" ");
    push_reg(&mut line, Width::Full64, source);
    line.push_str("\n");
    line
}

// `r1 = WORD64(r10 - 8, r1)`: an atomic instruction whose source register gets the old
// number.
fn fetch_line(word: &str, width: Width, place: Place, source: Reg) -> TextLine
    requires { length word.now ≤ 17 }
    ensures { result.bytes ≡ fetch_insn_text word.now width place source }
{
    let mut line = TextLine::new();
    push_reg(&mut line, Width::Full64, source);
    line.push_str(" = ");
    line.push_str(word);
    line.push_str(width_word(width));
    line.push_str("(");
    push_place(&mut line, place);
    line.push_str(", ");
    push_reg(&mut line, Width::Full64, source);
    line.push_str(")\n");
    line
}

#[tactic(auto, unfolding(isa_model::specs::Text::CanonicalText::line_of))]
fn compare_exchange_line(width: Width, place: Place, source: Reg) -> TextLine
    ensures { result.bytes ≡ line_of (Insn.CompareExchange width place source) }
{
    let mut line = TextLine::new();
    line.push_str("r0 = cmpxchg_");
    line.push_str(width_word(width));
    line.push_str("(");
    push_place(&mut line, place);
    line.push_str(", r0, ");
    push_reg(&mut line, Width::Full64, source);
    line.push_str(")\n");
    line
}

#[tactic(auto, unfolding(isa_model::specs::Text::CanonicalText::line_of))]
fn jump_line(distance: i16) -> TextLine
    ensures { result.bytes ≡ line_of (Insn.Jump distance) }
{
    let mut line = TextLine::new();
    line.push_str("goto ");
    push_distance(&mut line, i32::from(distance));
    line.push_str("\n");
    line
}

#[tactic(auto, unfolding(isa_model::specs::Text::CanonicalText::line_of))]
fn long_jump_line(distance: i32) -> TextLine
    ensures { result.bytes ≡ line_of (Insn.JumpLong distance) }
{
    let mut line = TextLine::new();
    line.push_str("gotol ");
    push_distance(&mut line, distance);
    line.push_str("\n");
    line
}

#[tactic(auto, unfolding(isa_model::specs::Text::CanonicalText::line_of))]
fn condition_line(condition: Cond, distance: i16) -> TextLine
    ensures { result.bytes ≡ line_of (Insn.JumpIf condition distance) }
{
    let mut line = TextLine::new();
    line.push_str("if ");
    push_reg(&mut line, condition.width, condition.register);
    line.push_str(" ");
    line.push_str(comparison_sign(condition.comparison));
    line.push_str(" ");
    push_operand(&mut line, condition.width, condition.operand);
    line.push_str(" goto ");
    push_distance(&mut line, i32::from(distance));
    line.push_str("\n");
    line
}

#[tactic(auto, unfolding(isa_model::specs::Text::CanonicalText::line_of))]
fn call_line(distance: i32) -> TextLine
    ensures { result.bytes ≡ line_of (Insn.CallLocal distance) }
{
    let mut line = TextLine::new();
    line.push_str("call pc");
    push_distance(&mut line, distance);
    line.push_str("\n");
    line
}

#[tactic(auto, unfolding(isa_model::specs::Text::CanonicalText::line_of))]
fn helper_line(number: i32) -> TextLine
    ensures { result.bytes ≡ line_of (Insn.CallHelper number) }
{
    let mut line = TextLine::new();
    line.push_str("call ");
    push_signed(&mut line, number);
    line.push_str("\n");
    line
}

#[tactic(auto, unfolding(isa_model::specs::Text::CanonicalText::line_of))]
fn exit_line() -> TextLine
    ensures { result.bytes ≡ line_of Insn.Exit }
{
    let mut line = TextLine::new();
    line.push_str("exit\n");
    line
}

/// The line of an instruction.
#[tactic(auto, unfolding(isa_model::specs::Text::CanonicalText::line_of))]
pub fn line_of(insn: &Insn) -> TextLine
    ensures { result.bytes ≡ line_of insn.now }
{
    match *insn {
        Insn::Alu(width, op, destination, operand) => alu_line(width, op, destination, operand),
        Insn::Neg(width, destination) => negation_line(width, destination),
        Insn::MovSx(extension, destination, source) => {
            extension_line(extension, destination, source)
        }
        Insn::ByteSwap(order, span, destination) => swap_line(order, span, destination),
        Insn::LoadNumber(destination, number) => number_line(destination, number),
        Insn::LoadMap(destination, map) => map_load_line(destination, map),
        Insn::LoadMapValue(destination, map, offset) => map_value_line(destination, map, offset),
        Insn::Load(size, destination, place) => load_line(size, destination, place),
        Insn::LoadSx(size, destination, place) => signed_load_line(size, destination, place),
        Insn::StoreConstant(size, place, number) => constant_store_line(size, place, number),
        Insn::Store(size, place, source) => store_line(size, place, source),
        Insn::Atomic(width, op, false, place, source) => atomic_line(width, op, place, source),
        Insn::Atomic(width, op, true, place, source) => fetch_line(
            fetch_word(op),
            width,
            place,
            source,
        ),
        Insn::Exchange(width, place, source) => fetch_line("xchg_", width, place, source),
        Insn::CompareExchange(width, place, source) => compare_exchange_line(width, place, source),
        Insn::Jump(distance) => jump_line(distance),
        Insn::JumpLong(distance) => long_jump_line(distance),
        Insn::JumpIf(condition, distance) => condition_line(condition, distance),
        Insn::CallHelper(number) => helper_line(number),
        Insn::CallLocal(distance) => call_line(distance),
        Insn::Exit => exit_line(),
    }
}

/// The line of a map row.
#[tactic(auto, unfolding(isa_model::specs::Text::CanonicalText::row_line))]
pub fn line_of_row(row: &MapDef) -> TextLine
    ensures { result.bytes ≡ row_line row.now }
{
    let mut line = TextLine::new();
    line.push_str("map ");
    line.push_str(map_type_word(row.kind));
    line.push_str(" ");
    push_number(&mut line, u64::from(row.key_size));
    line.push_str(" ");
    push_number(&mut line, u64::from(row.value_size));
    line.push_str(" ");
    push_number(&mut line, u64::from(row.entries));
    line.push_str("\n");
    line
}
