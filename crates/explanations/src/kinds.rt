//! What is known of the value of a register or a stack slot, as text.

ghost use Rattle.std.specs.Prelude.{◌≡◌, IfOk};
ghost use Rattle.std.specs.String.{string_bytes};
ghost use Rattle.explanations.specs.Kinds.{calls_up, part_words, proved_words, packet_words, map_value_words, kind_words};

use crate::numbers::number_words;
use reg_state::Kind;
use std::alloc::{AllocError, Global};

/// Returns how many calls up from the innermost call frame a call frame is.
pub fn calls_up(alloc: Global, count: usize) -> Result<String, AllocError>
    ensures { IfOk result (λ text. string_bytes text ≡ calls_up count) }
{
    match count {
        0 => Ok(String::new(alloc)),
        1 => String::from_str(alloc, ", 1 call up"),
        _ => format!(in alloc; ", {count} calls up"),
    }
}

/// The variable part of a pointer into the packet, where it has one.
fn part_words(alloc: Global, identity: u32, least: i32, greatest: i32) -> Result<String, AllocError>
    ensures { IfOk result (λ text. string_bytes text ≡ part_words identity least greatest) }
{
    if identity == 0 {
        return Ok(String::new(alloc));
    }
    format!(in alloc; " after part {identity} of {least} to {greatest}")
}

/// From where on the proved bytes are counted.
fn proved_words(identity: u32) -> &'static str
    ensures { result.now ≡ proved_words identity }
{
    if identity == 0 {
        return "bytes proved";
    }
    "bytes after the part proved"
}

/// A pointer into the packet.
fn packet_words(
    alloc: Global,
    fixed: i32,
    part: &str,
    proved: u32,
    behind: &str,
) -> Result<String, AllocError>
    ensures { IfOk result (λ text. string_bytes text
        ≡ packet_words fixed part.now proved behind.now) }
{
    format!(in alloc; "packet pointer at {fixed}{part}, {proved} {behind}")
}

/// A pointer into a value of a map.
fn map_value_words(alloc: Global, map: u8, least: i32, greatest: i32) -> Result<String, AllocError>
    ensures { IfOk result (λ text. string_bytes text ≡ map_value_words map least greatest) }
{
    if least < greatest {
        return format!(in alloc; "value of map {map} at {least} to {greatest}");
    }
    format!(in alloc; "value of map {map} at {least}")
}

/// Returns what is known of a value, where the innermost frame has this index.
pub fn kind_words(alloc: Global, innermost: usize, kind: Kind) -> Result<String, AllocError>
    ensures { IfOk result (λ text. string_bytes text ≡ kind_words innermost kind) }
{
    match kind {
        Kind::Unset => String::from_str(alloc, "unset"),
        Kind::Number(numbers) => number_words(alloc, numbers),
        Kind::Context => String::from_str(alloc, "context"),
        Kind::Stack { frame, offset } => {
            let up = calls_up(alloc, innermost.saturating_sub(usize::from(frame)))?;
            format!(in alloc; "frame pointer at {offset}{up}")
        }
        Kind::Packet {
            fixed,
            identity,
            least,
            greatest,
            proved,
        } => {
            let part = part_words(alloc, identity, least, greatest)?;
            packet_words(alloc, fixed, part.as_str(), proved, proved_words(identity))
        }
        Kind::PacketEnd => String::from_str(alloc, "packet end"),
        Kind::Map { index } => format!(in alloc; "map {index}"),
        Kind::MapValue {
            index,
            least,
            greatest,
        } => map_value_words(alloc, index, least, greatest),
        Kind::MapValueOrNull { index, .. } => {
            format!(in alloc; "value of map {index}, null not tested")
        }
    }
}
