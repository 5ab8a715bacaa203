//! Calls of helpers.

ghost use Rattle.std.specs.Prelude.{◌≡◌, ◌≢◌, ◌+◌, ◌-◌, ◌/◌, ◌≤◌, ℕ, [], length, slice_index, take, vec_capacity};
ghost use Rattle.std.specs.FinMap as finmap;
ghost use Rattle.maps.specs.declared.calls.Answer.TheVariants.{Number, Value};
ghost use Rattle.word_machine.specs.Addresses.{region_of};
ghost use Rattle.isa_model.specs.Code.Helpers.{helper_numbered};
ghost use Rattle.word_machine.specs.Helping.{CallFits, Calls, asks, NamesKey, HasPlaces, NamesValue, UpdatesMap, DeletesFromMap, found_at, key_named, named};
ghost use Rattle.word_machine.specs.Machine.{words_of, KeepsRest};
ghost use Rattle.word_machine.specs.Ops.{constant_of, HasConstant};

use crate::addresses::{FIRST_MAP_REGION, FIRST_VALUES_REGION, base, region_of};
use crate::memory::{Memory, bytes, bytes_apart};
use crate::ops::Op;
use isa_model::{Clock, Helper};
use maps::{Answer, KEY_ROOM, Request, call};

// The map to which r1 points.
#[inline(always)]
fn map_named(regs: &[u64; 11]) -> usize
    ensures { result ≡ region_of (slice_index regs.now 1) - 16 }
{
    region_of(regs[1]).saturating_sub(FIRST_MAP_REGION) as usize
}

// The number that is answered, where it is no place.
#[inline(always)]
fn number(answer: Answer) -> u64
    requires { (place : ℕ) → answer ≢ Value place }
    ensures { answer ≡ Number result }
{
    match answer {
        Answer::Number(n) => n,
        Answer::Value(_) => unreachable!(),
    }
}

// The address of the value of the key to which r2 points, or 0. A key whose bytes are in a map
// value is copied first.
fn lookup<C: Clock>(regs: &[u64; 11], memory: &mut Memory, packet: &[u8], clock: &mut C) -> u64
    requires key { NamesKey (words_of 0 regs.now memory.old packet.now 0) }
    requires places { HasPlaces (words_of 0 regs.now memory.old packet.now 0) }
    ensures found { result ≡ found_at (words_of 0 regs.now memory.old packet.now 0)
        (finmap.get (named (words_of 0 regs.now memory.old packet.now 0)).places
        (key_named (words_of 0 regs.now memory.old packet.now 0))) }
    ensures maps { memory.new.maps ≡ memory.old.maps }
    ensures frames { memory.new.frames ≡ memory.old.frames }
    ensures kept { vec_capacity memory.new.saved ≡ vec_capacity memory.old.saved }
    ensures rest { KeepsRest memory.old memory.new }
    ensures clock { (k : ℕ) → C.at clock.new k ≡ C.at clock.old k }
{
    let size = usize::from(memory.maps.row(map_named(regs)).key_size);
    let frames = memory.frames.as_slice();
    let key = bytes_apart(
        frames,
        &memory.maps,
        packet,
        &mut memory.room,
        regs[2],
        size,
    );
    let request = Request {
        helper: Helper::MapLookupElem,
        map: map_named(regs),
        key,
        value: &[],
        flags: 0,
    };
    match call(&mut memory.maps, &request, clock) {
        Answer::Value(place) => {
            let map = map_named(regs);
            let size = u64::from(memory.maps.row(map).value_size);
            base(FIRST_VALUES_REGION + map as u64) + place as u64 * size
        }
        Answer::Number(n) => n,
    }
}

// Writes the value to which r3 points for the key to which r2 does: 0, or an error.
#[cold]
#[inline(never)]
fn update<C: Clock>(regs: &[u64; 11], memory: &mut Memory, packet: &[u8], clock: &mut C) -> u64
    requires key { NamesKey (words_of 0 regs.now memory.old packet.now 0) }
    requires value { NamesValue (words_of 0 regs.now memory.old packet.now 0) }
    ensures updates { UpdatesMap (words_of 0 regs.now memory.old packet.now 0)
        result memory.new.maps }
    ensures frames { memory.new.frames ≡ memory.old.frames }
    ensures kept { vec_capacity memory.new.saved ≡ vec_capacity memory.old.saved }
    ensures rest { KeepsRest memory.old memory.new }
    ensures clock { (k : ℕ) → C.at clock.new k ≡ C.at clock.old k }
{
    let map = map_named(regs);
    let row = memory.maps.row(map);
    let mut key = [0u8; KEY_ROOM];
    let size = usize::from(row.key_size);
    let frames = memory.frames.as_slice();
    flatmem::copy(
        bytes(frames, &memory.maps, packet, regs[2], size),
        &mut key,
        0,
    );
    let value_size = row.value_size as usize;
    memory
        .room
        .keep(bytes(frames, &memory.maps, packet, regs[3], value_size));
    let value = memory.room.front(value_size);
    let request = Request {
        helper: Helper::MapUpdateElem,
        map,
        key: &key[..size],
        value,
        flags: regs[4],
    };
    let answer = call(&mut memory.maps, &request, clock);
    memory.maps.say_fits();
    number(answer)
}

// Removes the key to which r2 points: 0, or an error.
#[cold]
#[inline(never)]
fn delete<C: Clock>(regs: &[u64; 11], memory: &mut Memory, packet: &[u8], clock: &mut C) -> u64
    requires { NamesKey (words_of 0 regs.now memory.old packet.now 0) }
    ensures deletes { DeletesFromMap (words_of 0 regs.now memory.old packet.now 0)
        result memory.new.maps }
    ensures frames { memory.new.frames ≡ memory.old.frames }
    ensures kept { vec_capacity memory.new.saved ≡ vec_capacity memory.old.saved }
    ensures rest { KeepsRest memory.old memory.new }
    ensures clock { (k : ℕ) → C.at clock.new k ≡ C.at clock.old k }
{
    let map = map_named(regs);
    let mut key = [0u8; KEY_ROOM];
    let size = usize::from(memory.maps.row(map).key_size);
    let frames = memory.frames.as_slice();
    flatmem::copy(
        bytes(frames, &memory.maps, packet, regs[2], size),
        &mut key,
        0,
    );
    let request = Request {
        helper: Helper::MapDeleteElem,
        map,
        key: &key[..size],
        value: &[],
        flags: 0,
    };
    let answer = call(&mut memory.maps, &request, clock);
    memory.maps.say_fits();
    number(answer)
}

// The clock's answer.
fn time<C: Clock>(memory: &mut Memory, clock: &mut C) -> u64
    ensures first { result ≡ C.at clock.old 0 }
    ensures memory { memory.new ≡ memory.old }
    ensures clock { (k : ℕ) → C.at clock.new k ≡ C.at clock.old (1 + k) }
{
    let request = Request {
        helper: Helper::KtimeGetNs,
        map: 0,
        key: &[],
        value: &[],
        flags: 0,
    };
    number(call(&mut memory.maps, &request, clock))
}

/// Calls a helper.
#[inline(never)]
pub fn help<C: Clock>(
    o: &Op,
    regs: &mut [u64; 11],
    memory: &mut Memory,
    packet: &[u8],
    clock: &mut C,
)
    requires constant { HasConstant o.now }
    requires fits { CallFits (words_of 0 regs.old memory.old packet.now 0)
        (helper_numbered (constant_of o.now)) }
    ensures kept { vec_capacity memory.new.saved ≡ vec_capacity memory.old.saved }
    ensures clock { (k : ℕ) → C.at clock.new k
        ≡ C.at clock.old (asks (helper_numbered (constant_of o.now)) + k) }
    ensures calls { (at asked : ℕ) (answers : ℕ → ℕ) → (C.at clock.old 0 ≡ answers asked)
        → Calls answers (words_of at regs.old memory.old packet.now asked)
        (helper_numbered (constant_of o.now))
        (words_of (at + 1) regs.new memory.new packet.now
        (asked + asks (helper_numbered (constant_of o.now)))) }
{
    regs[0] = match o.imm {
        1 => lookup(regs, memory, packet, clock),
        2 => update(regs, memory, packet, clock),
        3 => delete(regs, memory, packet, clock),
        _ => time(memory, clock),
    };
}
