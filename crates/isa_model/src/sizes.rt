//! How many bits an instruction works on, and byte orders. RFC 9669, sections 3.3, 4.1, 4.2, 5.1
//! and 5.2.

ghost use Rattle.std.specs.Prelude.{◌≡◌, ◌≤◌};
ghost use Rattle.isa_model.specs.Code.Sizes.{size_bytes, width_size, width_bits};

/// The class of an arithmetic instruction or of a jump: 32 bits (ALU, JMP32) or 64 (ALU64, JMP).
#[derive(Clone, Copy)]
pub enum Width {
    Low32,
    Full64,
}

impl Width {
    /// 32 or 64.
    pub fn bits(self) -> u32
        ensures { result ≡ width_bits self }
    {
        match self {
            Width::Low32 => 32,
            Width::Full64 => 64,
        }
    }

    /// Returns what an atomic instruction of this width reads and writes.
    pub fn size(self) -> Size
        ensures { result ≡ width_size self }
    {
        match self {
            Width::Low32 => Size::U32,
            Width::Full64 => Size::U64,
        }
    }
}

/// Says how many bytes a load reads or a store writes: 1, 2, 4 or 8.
#[derive(Clone, Copy)]
pub enum Size {
    U8,
    U16,
    U32,
    U64,
}

impl Size {
    /// 1, 2, 4 or 8.
    pub fn bytes(self) -> usize
        ensures value { result ≡ size_bytes self }
        ensures most { result ≤ 8 }
    {
        match self {
            Size::U8 => 1,
            Size::U16 => 2,
            Size::U32 => 4,
            Size::U64 => 8,
        }
    }
}

/// The sizes that a sign-extending load (MEMSX) has.
#[derive(Clone, Copy)]
pub enum SignedSize {
    S8,
    S16,
    S32,
}

/// The sign extensions of MOVSX: from the low 8, 16 or 32 bits, to 32 bits (ALU) or to 64 (ALU64).
#[derive(Clone, Copy)]
pub enum Extension {
    Low8,
    Low16,
    Full8,
    Full16,
    Full32,
}

/// Says how many of the low bits a byte swap instruction (END) takes.
#[derive(Clone, Copy)]
pub enum SwapWidth {
    B16,
    B32,
    B64,
}

/// Says what a byte swap instruction does with the low bytes: `le` keeps their order, `be` and
/// `bswap` reverse it. On a little-endian machine `be` and `bswap` give the same number; they are
/// spelled apart.
#[derive(Clone, Copy)]
pub enum ByteOrder {
    Little,
    Big,
    Swap,
}
