//! What a part of a call frame was before it changed, as far as it is not on a stack.

use crate::differences::Differences;

/// A register or a stack slot of a call frame.
#[derive(Clone, Copy, Drop)]
pub enum ShortPlace {
    Register(u8),
    Slot(u8),
}

/// A pointer into the packet.
#[derive(Clone, Copy, Drop)]
pub struct ShortPacket {
    pub fixed: i32,
    pub identity: u32,
    pub least: i32,
    pub greatest: i32,
    pub proved: u32,
}

/// Says what a part was before it changed; what does not fit is on a stack.
#[derive(Clone, Copy, Drop)]
pub enum Change {
    UnsetRegister(u8),
    WrittenSlot(u8, u8),
    ConstantIn(u8),
    NumberInRegister(u8, Differences),
    NumberInSlot(u8, Differences),
    PacketAt(ShortPlace),
    WholePart,
}
