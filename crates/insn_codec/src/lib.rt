//! Instructions from bytes and into bytes. RFC 9669, section 3.
#![tactic(auto)]

mod decoding;
mod encoding;
pub mod errors;
mod fields;
mod forms;
mod slots;

ghost use Rattle.std.specs.Prelude.{◌≡◌, ◌*◌, ◌++◌, ◌<◌, take, drop, ℕ, List, Ok, IfOk};
ghost use Rattle.isa_model.specs.declared.instructions.Insn.{Insn};
ghost use Rattle.isa_model.specs.Code.Instructions.{slots_filled};
ghost use Rattle.isa_model.specs.Code.EachByte.{EachByte};
ghost use Rattle.isa_model.specs.Code.Spelling.{spelling_of, InsnFits};
ghost use Rattle.insn_codec.specs.Decoding.{decoded, sized};

pub use errors::CodecError;
use isa_model::Insn;

#[tactic(auto, unfolding(crate::specs::Decoding::decoded))]
fn decode_front(bytes: &[u8]) -> Result<(Insn, usize), CodecError>
    ensures { result ≡ sized (decoded bytes.now) }
{
    if bytes.len() < 8 {
        return Err(CodecError::Short);
    }
    let (head, rest) = bytes.split_at(8);
    let insn = decoding::insn_of(&slots::read(head), rest)?;
    Ok((insn, 8 * insn.slots()))
}

/// The instruction that a front of the bytes spells, and how many bytes that front has.
pub fn decode(bytes: &[u8]) -> Result<(Insn, usize), CodecError>
    // What is decoded is spelled so.
    ensures found { IfOk result (λ f. take f.1 bytes.now ≡ spelling_of f.0) }
    ensures fits { IfOk result (λ f. InsnFits f.0) }

    // What is spelled so is decoded, whatever follows it.
    ensures only { (i : Insn) (rest : List ℕ) → InsnFits i → bytes.now ≡ spelling_of i ++ rest
        → result ≡ Ok (i, 8 * slots_filled i) }

    // Which refusal it is.
    ensures exact { result ≡ sized (decoded bytes.now) }
{
    decode_front(bytes)
}

/// Writes the instruction's spelling to the front of the bytes, and returns its length.
pub fn encode(insn: &Insn, out: &mut [u8; 16]) -> usize
    ensures length { result ≡ 8 * slots_filled insn.now }
    ensures bytes { out.new ≡ spelling_of insn.now ++ drop result out.old }
{
    out[..8].copy_from_slice(&slots::bytes_of(&encoding::first_slot(insn)));
    match encoding::next_imm(insn) {
        Some(next_imm) => {
            slots::write_second(next_imm, &mut out[8..]);
            16
        }
        None => 8,
    }
}

/// The laws of decoding, for proofs about lists of instructions.
pub fn decoding_laws()
    ensures found { (bytes : List ℕ) (i : Insn) → EachByte bytes → decoded bytes ≡ Ok i
        → take (8 * slots_filled i) bytes ≡ spelling_of i }
    ensures fits { (bytes : List ℕ) (i : Insn) → EachByte bytes → decoded bytes ≡ Ok i
        → InsnFits i }
    ensures again { (i : Insn) (rest : List ℕ) → InsnFits i
        → decoded (spelling_of i ++ rest) ≡ Ok i }
{}
