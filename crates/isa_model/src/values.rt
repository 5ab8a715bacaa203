//! What registers hold in the meaning, tagged values; call frames, and what their bytes are, cells.

use crate::limits::STACK_SIZE;

/// Says what a pointer points into. The serials of call frames and of map values are never used
/// again, so a pointer to one that has ended is dead for ever.
#[derive(Clone, Copy)]
pub enum Region {
    /// The context, `struct xdp_md`.
    Context,
    /// The packet's bytes.
    Packet,
    /// The end of the packet, to which `data_end` points: offset 0 is after its last byte.
    PacketEnd,
    /// A map itself, by index.
    Map(u32),
    /// A call frame, by serial.
    CallFrame(u64),
    /// A value of a map, by the map's index and the value's serial.
    MapValue(u32, u64),
}

/// Says what a register holds.
#[derive(Clone, Copy)]
pub enum Value {
    Unset,
    Num(u64),
    /// A region, and an offset in bytes.
    Ptr(Region, i64),
}

/// Says what a byte of a call frame holds. A pointer lies there as its eight pieces, 0 to 7.
#[derive(Clone, Copy)]
pub enum Cell {
    Unwritten,
    Byte(u8),
    /// A pointer's region and offset, and which piece of it this is.
    Piece(Region, i64, u8),
}

/// A live call frame. Its cells are at offsets -512 to -1 from its frame pointer.
#[derive(Clone, Copy)]
pub struct CallFrame {
    pub serial: u64,
    pub cells: [Cell; STACK_SIZE],
    /// The slot to which it returns; 0 in the first call frame.
    pub return_slot: usize,
    /// The caller's r6 to r9; unset in the first call frame.
    pub saved: [Value; 4],
}
