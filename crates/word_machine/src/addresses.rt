//! Addresses: the upper half says which region; in the low half, 2 ^ 31 is the region's offset 0.

ghost use Rattle.std.specs.Prelude.{◌≡◌, ◌-◌, ◌<◌, ◌≤◌, ◌^◌};
ghost use Rattle.word_machine.specs.Addresses.{base, region_of, packet_index, block_map, block_index, first_frame, frames_index};

use isa_model::{MAX_CALL_FRAMES, STACK_SIZE};

// How many addresses a region has.
const REGION_SIZE: u64 = 0x1_0000_0000;

// How many of them are before the region's offset 0.
const REGION_MIDDLE: u64 = 0x8000_0000;

// How many bytes a call frame has.
const FRAME_BYTES: u64 = STACK_SIZE as u64;

// How many addresses there are for each byte of a call frame, since each call frame has a region of
// its own.
const ADDRESSES_PER_BYTE: u64 = REGION_SIZE / FRAME_BYTES;

/// The number of the region of the context.
pub const CONTEXT_REGION: u64 = 1;

/// The number of the region of the packet.
pub const PACKET_REGION: u64 = 2;

/// The number of the region of the first map.
pub const FIRST_MAP_REGION: u64 = 16;

/// The number of the region of the values of the first map.
pub const FIRST_VALUES_REGION: u64 = 32;

/// The number of the region of the first call frame.
pub const FIRST_FRAME_REGION: u64 = 48;

/// The address of the context.
pub const CONTEXT: u64 = CONTEXT_REGION * REGION_SIZE + REGION_MIDDLE;

/// The address of the packet.
pub const PACKET: u64 = PACKET_REGION * REGION_SIZE + REGION_MIDDLE;

/// The end of the first call frame.
pub const FRAME_END: u64 = FIRST_FRAME_REGION * REGION_SIZE + REGION_MIDDLE;

/// The address of the first byte of the first call frame, the least of all bytes of call frames.
pub const FRAMES: u64 = FRAME_END - FRAME_BYTES;

/// Says how many bytes all call frames have.
pub const FRAMES_SIZE: usize = MAX_CALL_FRAMES * STACK_SIZE;

/// The address of a region's offset 0.
#[inline(always)]
pub fn base(region: u64) -> u64
    requires { region < 2 ^ 31 }
    ensures { result ≡ base region }
{
    region * REGION_SIZE + REGION_MIDDLE
}

/// The number of the region of an address.
#[inline(always)]
pub fn region_of(address: u64) -> u64
    ensures { result ≡ region_of address }
{
    address / REGION_SIZE
}

/// The index of the byte of the packet to which an address leads.
#[inline(always)]
pub fn packet_index(address: u64) -> usize
    ensures { result ≡ packet_index address }
{
    (address % 0x1_0000) as usize
}

/// The map to whose block of values an address leads.
#[inline(always)]
pub fn block_map(address: u64) -> usize
    requires { 32 ≤ region_of address }
    ensures { result ≡ block_map address }
{
    (region_of(address) - FIRST_VALUES_REGION) as usize
}

/// The index of the byte in that block.
#[inline(always)]
pub fn block_index(address: u64) -> usize
    ensures { result ≡ block_index address }
{
    (address % REGION_MIDDLE) as usize
}

/// The index of the byte in the block of all call frames.
#[inline(always)]
pub fn frames_index(address: u64) -> usize
    requires { first_frame ≤ address }
    ensures { result ≡ frames_index (address - first_frame) }
{
    let past = address - FRAMES;
    (past / ADDRESSES_PER_BYTE + past % FRAME_BYTES) as usize
}
