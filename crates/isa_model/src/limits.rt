//! The limits of programs, maps, packets and runs, each once. `specs/Code/Limits` has them as
//! numbers of the meaning, and `specs/Worked/LimitExamples` compares the two.

/// The most slots of a program. Linux, `BPF_MAXINSNS`.
pub const MAX_SLOTS: u16 = 4096;

/// The most map rows of a program.
pub const MAX_MAPS: u16 = 16;

/// The most bytes of a hash map's key.
pub const MAX_KEY_SIZE: u16 = 64;

/// The most bytes of a map's value.
pub const MAX_VALUE_SIZE: u32 = 4096;

/// The most keys of a map.
pub const MAX_MAP_ENTRIES: u32 = 65_536;

/// The most bytes of all keys and values together, each map with as many keys as it can have.
pub const MAX_MAP_ROOM: u64 = 16_777_216;

/// Says how many bytes of stack a call frame has. Linux, `MAX_BPF_STACK`.
pub const STACK_SIZE: usize = 512;

/// The most live call frames. Linux, `MAX_CALL_FRAMES`.
pub const MAX_CALL_FRAMES: usize = 8;

/// The greatest offset of a pointer, and the least one with its sign changed. Linux,
/// `BPF_MAX_VAR_OFF`.
pub const OFFSET_LIMIT: i128 = 0x2000_0000;

/// The most bytes of a packet, whatever stream it comes from.
pub const MAX_PACKET: usize = 9216;

/// The most bytes of a packet of a stream of the first version.
pub const MAX_SHORT_PACKET: usize = 4096;

/// The most steps that a run may take.
pub const MAX_STEPS: u32 = 1_000_000;

/// The most instructions that the verifier explores. Linux, `BPF_COMPLEXITY_LIMIT_INSNS`.
pub const MAX_EXPLORED: u32 = 1_000_000;
