//! The machine's memory: the block of call frames, the blocks of maps, and what callers left.

ghost use Rattle.std.specs.Prelude.{◌≡◌, ◌+◌, ◌-◌, ◌*◌, ◌/◌, ◌%◌, ◌<◌, ◌≤◌, ℕ, List, [], length, vec_capacity, IfOk};
ghost use Rattle.isa_model.specs.Code.Limits.{max_packet, max_call_frames, max_value_size};
ghost use Rattle.isa_model.specs.Code.Numbers.{alu, bytes_of, number_from};
ghost use Rattle.isa_model.specs.Code.Sizes.{size_bytes, width_size};
ghost use Rattle.flatmem.specs.Bytes.{bytes_at};
ghost use Rattle.maps.specs.Maps.{map_at};
ghost use Rattle.word_machine.specs.Addresses.{frames_size, region_of, block_map, block_index};
ghost use Rattle.word_machine.specs.Words.{IsInside, CanLoad, spot_of, get, word_from, number_at, context_word};
ghost use Rattle.word_machine.specs.Machine.{words_of, seen, WritesBytes};

use crate::addresses::{
    CONTEXT, CONTEXT_REGION, FRAMES, FRAMES_SIZE, PACKET, PACKET_REGION, block_index, block_map,
    frames_index, packet_index, region_of,
};
use crate::room::{Room, zeros};
use crate::sizes;
use isa_model::{AluOp, MAX_CALL_FRAMES, Size, Width};
use maps::Maps;
use std::alloc::{AllocError, Global};

/// Says what a caller left: its r6 to r9, and the slot to which the exit of the called function
/// leads.
#[derive(Clone, Copy)]
pub struct Saved {
    pub back: usize,
    pub kept: [u64; 4],
}

/// All that a program reads and writes, except its registers and the packet.
#[derive(Drop)]
pub struct Memory {
    /// The bytes of all call frames.
    pub frames: Vec<u8>,
    pub saved: Vec<Saved>,
    pub interface: u32,
    pub queue: u32,
    pub maps: Maps,
    /// Says where the call of a helper keeps a copy of a value, or of a key whose bytes are in a
    /// map value.
    pub room: Room,
}

impl Memory {
    /// Call frames of zeros with these maps, and no caller. All memory that a run needs is taken
    /// here.
    pub fn new(alloc: Global, maps: Maps) -> Result<Self, AllocError>
        ensures frames { IfOk result (λ memory. length memory.frames.items ≡ frames_size) }
        ensures saved { IfOk result (λ memory. memory.saved.items ≡ []) }
        ensures capacity { IfOk result (λ memory. vec_capacity memory.saved ≡ max_call_frames) }
        ensures exact { IfOk result (λ memory. vec_capacity memory.frames ≡ frames_size) }
        ensures maps { IfOk result (λ memory. memory.maps ≡ maps) }
    {
        let frames = zeros(alloc, FRAMES_SIZE)?;
        let saved = Vec::with_capacity(alloc, MAX_CALL_FRAMES)?;
        let room = Room::new(alloc)?;
        Ok(Memory {
            frames,
            saved,
            interface: 0,
            queue: 0,
            maps,
            room,
        })
    }
}

/// The bytes at an address.
#[inline(always)]
pub fn bytes<'a>(
    frames: &'a [u8],
    maps: &'a Maps,
    packet: &'a [u8],
    address: u64,
    count: usize,
) -> &'a [u8]
    requires some { 0 < count }
    requires inside { IsInside (seen frames.now maps.now packet.now) (spot_of address) count }
    ensures bytes { result.now
        ≡ get (seen frames.now maps.now packet.now) (spot_of address) count }
    ensures size { length result.now ≡ count }
{
    if region_of(address) == PACKET_REGION {
        let at = packet_index(address);
        &packet[at..at + count]
    } else if address >= FRAMES {
        let at = frames_index(address);
        &frames[at..at + count]
    } else {
        let block = maps.block(block_map(address));
        let at = block_index(address);
        &block[at..at + count]
    }
}

// A copy of the bytes of a map value at an address. It is out of line, since keys are most often
// elsewhere.
#[cold]
#[inline(never)]
fn bytes_of_map<'a>(maps: &Maps, room: &'a mut Room, address: u64, count: usize) -> &'a [u8]
    requires values { 32 ≤ region_of address }
    requires map { block_map address < length maps.now }
    requires most { count ≤ max_value_size }
    requires inside { block_index address + count
        ≤ length (map_at maps.now (block_map address)).block }
    ensures bytes { result.now ≡ bytes_at (map_at maps.now (block_map address)).block
        (block_index address) count }
    ensures size { length result.now ≡ count }
{
    let block = maps.block(block_map(address));
    let at = block_index(address);
    room.keep(&block[at..at + count]);
    room.front(count)
}

/// The bytes at an address, without a borrow of the maps: bytes of a map are copied to the room.
#[inline(always)]
pub fn bytes_apart<'a>(
    frames: &'a [u8],
    maps: &Maps,
    packet: &'a [u8],
    room: &'a mut Room,
    address: u64,
    count: usize,
) -> &'a [u8]
    requires some { 0 < count }
    requires most { count ≤ max_value_size }
    requires inside { IsInside (seen frames.now maps.now packet.now) (spot_of address) count }
    ensures bytes { result.now
        ≡ get (seen frames.now maps.now packet.now) (spot_of address) count }
    ensures size { length result.now ≡ count }
{
    if region_of(address) == PACKET_REGION {
        let at = packet_index(address);
        &packet[at..at + count]
    } else if address >= FRAMES {
        let at = frames_index(address);
        &frames[at..at + count]
    } else {
        bytes_of_map(maps, room, address, count)
    }
}

/// A field of the context.
#[inline(always)]
pub fn field(memory: &Memory, packet: &[u8], address: u64) -> u64
    requires { length packet.now ≤ max_packet }
    ensures { result ≡ context_word (words_of 0 [] memory.now packet.now 0) address }
{
    if address == CONTEXT {
        PACKET
    } else if address == CONTEXT + 4 {
        PACKET + packet.len() as u64
    } else if address == CONTEXT + 12 {
        u64::from(memory.interface)
    } else {
        u64::from(memory.queue)
    }
}

/// The number of this size at an address.
#[inline(always)]
pub fn get(size: Size, memory: &Memory, packet: &[u8], address: u64) -> u64
    requires { IsInside (words_of 0 [] memory.now packet.now 0) (spot_of address)
        (size_bytes size) }
    ensures { result ≡ number_at (words_of 0 [] memory.now packet.now 0) size address }
{
    if region_of(address) == PACKET_REGION {
        sizes::get(size, packet, packet_index(address))
    } else if address >= FRAMES {
        sizes::get(size, memory.frames.as_slice(), frames_index(address))
    } else {
        let block = memory.maps.block(block_map(address));
        sizes::get(size, block, block_index(address))
    }
}

/// Writes a number of this size at an address.
#[inline(always)]
pub fn put(size: Size, memory: &mut Memory, packet: &mut [u8], address: u64, number: u64)
    requires { IsInside (words_of 0 [] memory.old packet.old 0) (spot_of address)
        (size_bytes size) }
    ensures { WritesBytes (spot_of address) (bytes_of size number)
        memory.old memory.new packet.old packet.new }
{
    if region_of(address) == PACKET_REGION {
        sizes::put(size, packet, packet_index(address), number);
    } else if address >= FRAMES {
        let frames = memory.frames.as_mut_slice();
        sizes::put(size, frames, frames_index(address), number);
    } else {
        let block = memory.maps.block_mut(block_map(address));
        sizes::put(size, block, block_index(address), number);
    }
}

/// Writes what an operation makes of the number at an address and another one. Returns the number
/// that was there.
#[inline(always)]
pub fn amend(
    op: AluOp,
    width: Width,
    memory: &mut Memory,
    packet: &mut [u8],
    address: u64,
    by: u64,
) -> u64
    requires { IsInside (words_of 0 [] memory.old packet.old 0) (spot_of address)
        (size_bytes (width_size width)) }
    ensures was { result
        ≡ number_at (words_of 0 [] memory.old packet.old 0) (width_size width) address }
    ensures becomes { WritesBytes (spot_of address)
        (bytes_of (width_size width) (alu op width result by))
        memory.old memory.new packet.old packet.new }
{
    if region_of(address) == PACKET_REGION {
        sizes::amend(op, width, packet, packet_index(address), by)
    } else if address >= FRAMES {
        sizes::amend(
            op,
            width,
            memory.frames.as_mut_slice(),
            frames_index(address),
            by,
        )
    } else {
        let block = memory.maps.block_mut(block_map(address));
        sizes::amend(op, width, block, block_index(address), by)
    }
}

/// Returns what a load finds at an address: a number in memory, or a field of the context.
#[inline(always)]
pub fn load(size: Size, memory: &Memory, packet: &[u8], address: u64) -> u64
    requires loads { CanLoad (words_of 0 [] memory.now packet.now 0) size address }
    requires short { length packet.now ≤ max_packet }
    ensures { result ≡ word_from (words_of 0 [] memory.now packet.now 0) size address }
{
    match size {
        Size::U32 if region_of(address) == CONTEXT_REGION => field(memory, packet, address),
        _ => get(size, memory, packet, address),
    }
}
