//! The tokens of program text: words, numbers and signs.

use isa_model::{AtomicOp, ByteOrder, MapType, Reg, SignedSize, Size, SwapWidth, Width};

/// Says what a word stands for in a statement. In a label or a name only its bytes count.
#[derive(Clone, Copy)]
pub enum Word {
    /// `r0` to `r10`, `w0` to `w10`.
    Register(Width, Reg),
    /// `u8` to `u64`.
    Unsigned(Size),
    /// `s8` to `s32`.
    SignExtended(SignedSize),
    /// `le16` to `bswap64`.
    Swapped(ByteOrder, SwapWidth),
    /// `atomic_fetch_add_64` and the like.
    Fetch(AtomicOp, Width),
    /// `xchg_64`, `xchg_32`.
    Exchange(Width),
    /// `cmpxchg_64`, `cmpxchg_32`.
    CompareExchange(Width),
    If,
    Goto,
    GotoLong,
    Call,
    /// `pc`, the only word that cannot name a slot.
    Pc,
    Exit,
    Lock,
    /// `ll`, after the number of a wide load.
    Wide,
    /// `map`, which begins a map line.
    Map,
    /// `hash`, `array`.
    MapType(MapType),
    /// `map_by_idx`.
    MapByIndex,
    /// `map_val`.
    MapValue,
    /// `version`, which begins a version line.
    Version,
    Other,
}

/// Signs: those from `Equal` on compare, and those from `Assign` to `ArshAssign` assign.
#[derive(Clone, Copy)]
pub enum Sign {
    Open,
    Close,
    Star,
    Comma,
    Colon,
    Plus,
    Minus,
    Assign,
    AddAssign,
    SubAssign,
    MulAssign,
    DivAssign,
    SignedDivAssign,
    ModAssign,
    SignedModAssign,
    OrAssign,
    AndAssign,
    XorAssign,
    LshAssign,
    RshAssign,
    ArshAssign,
    Equal,
    NotEqual,
    Greater,
    GreaterEqual,
    Less,
    LessEqual,
    Ampersand,
    SignedGreater,
    SignedGreaterEqual,
    SignedLess,
    SignedLessEqual,
}

/// A token: a word, a number or a sign.
#[derive(Clone, Copy)]
pub enum Token {
    Named(Word),
    /// A number; once it is 2^64 or more, further digits do not change it.
    Number(u128),
    Signed(Sign),
}

/// Says what a text begins with: a token, or what is between two of them.
#[derive(Clone, Copy)]
pub enum Lexeme {
    /// A blank or a comment.
    Blank,
    /// The end of a statement.
    End,
    Solid(Token),
}
