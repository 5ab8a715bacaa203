//! Why bytes are no image.

ghost use Rattle.std.specs.Prelude.{◌≡◌, Some};
ghost use Rattle.image.specs.Messages.{code_of, hint_of, sentence_of};

use insn_codec::CodecError;
use std::alloc::{AllocError, AllocFailed};
use std::error::Error;
use std::fmt;

/// Says why the bytes are no image: the first of these that is found, in the order I2, I1, I4, I6
/// for the 8 bytes of the head, I2, I3 for the whole length, I5 row by row, I7, and then slot by
/// slot I8, I10, I11. I9 is possible at any of these tests.
#[derive(Clone, Copy, Debug)]
pub enum ImageError {
    /// Another magic than `XBP1` and `XBP2`.
    Magic,
    /// Fewer bytes than the head has, or than its counts say.
    Short,
    /// More bytes than the counts in the head say.
    Long,
    /// More map rows than `MAX_MAPS`.
    TooManyMaps,
    /// The map row of an index has another type than a hash or an array, or a size or a count of
    /// keys that is out of its limits.
    MapRow(usize),
    /// No slots, or more than `MAX_SLOTS`.
    SlotCount,
    /// The keys and values of all maps together have more than `MAX_MAP_ROOM` bytes.
    MapRoom,
    /// The codec refuses the instruction that begins at a slot.
    Code(usize, CodecError),
    /// The instruction that begins at a slot names a map that has no row.
    UnknownMap(usize),
    /// The instruction that begins at a slot points into the value of a map that is no array of one
    /// key, or past its value.
    ValuePointer(usize),
    /// Out of memory.
    Memory,
}

impl ImageError {
    /// Its code in docs/REFUSALS.md, such as `I1`, without the codec's own.
    pub fn code(self) -> &'static str
        ensures { result.now ≡ code_of self }
    {
        match self {
            ImageError::Code(_slot, error) => "I8",
            ImageError::Magic => "I1",
            ImageError::Short => "I2",
            ImageError::Long => "I3",
            ImageError::TooManyMaps => "I4",
            ImageError::MapRow(_index) => "I5",
            ImageError::SlotCount => "I6",
            ImageError::MapRoom => "I7",
            ImageError::Memory => "I9",
            ImageError::UnknownMap(_slot) => "I10",
            ImageError::ValuePointer(_slot) => "I11",
        }
    }

    /// Returns what is wrong, in a sentence.
    pub fn sentence(self) -> &'static str
        ensures { result.now ≡ sentence_of self }
    {
        match self {
            ImageError::Code(_slot, error) => error.sentence(),
            ImageError::Magic => "the bytes do not begin with XBP1 or XBP2",
            ImageError::Short => "the image is shorter than its head, or than its counts say",
            ImageError::Long => "the image is longer than its counts say",
            ImageError::TooManyMaps => "the image has more than 16 map rows",
            ImageError::MapRow(_index) =>
                "a map row has an unknown type, or a size that is out of its limits",
            ImageError::SlotCount => "the image has no slots, or more than 4096",
            ImageError::MapRoom =>
                "the maps together have more than 16777216 bytes of keys and values",
            ImageError::Memory => "out of memory",
            ImageError::UnknownMap(_slot) => "the instruction names a map that has no row",
            ImageError::ValuePointer(_slot) =>
                "the map is no array of one entry, or the offset is not within its value",
        }
    }

    /// The hint, in a line without its line feed; empty for another magic and for memory.
    pub fn hint(self) -> &'static str
        ensures { result.now ≡ hint_of self }
    {
        match self {
            ImageError::Code(_slot, error) => error.hint(),
            ImageError::Magic => "",
            ImageError::Short => "the file was cut: make it again",
            ImageError::Long => "remove what follows the last slot, or make it again",
            ImageError::TooManyMaps =>
                "join maps with the same sizes of keys and values, or remove unused ones",
            ImageError::MapRow(_index) => "type 1 hash, 2 array; keys to 64 bytes, arrays 4; \
                 values to 4096, entries to 65536",
            ImageError::SlotCount =>
                "the least program is r0 = 2 and exit; a longer one needs fewer instructions",
            ImageError::MapRoom => "take fewer entries, or smaller values",
            ImageError::Memory => "",
            ImageError::UnknownMap(_slot) =>
                "maps are counted from 0: add the row, or correct the index",
            ImageError::ValuePointer(_slot) =>
                "look the value up by helper 1, or correct the offset",
        }
    }
}

/// Writes the sentence, without the slot or the row.
impl fmt::Display for ImageError {
    ghost output = { λ error. Some (sentence_of error) };

    fn fmt<W: fmt::Write>(&self, f: &mut fmt::Formatter<W>) -> fmt::Result {
        f.write_str(self.sentence())
    }
}

impl Error for ImageError {}

impl From<AllocError> for ImageError {
    ghost use Rattle.image.specs.declared.errors.ImageError.TheVariants.{Memory};

    ghost from_gives = { λ _ e. e ≡ Memory };

    fn from(_error: AllocError) -> ImageError {
        ImageError::Memory
    }
}

impl<T: Drop> From<AllocFailed<T>> for ImageError {
    ghost use Rattle.image.specs.declared.errors.ImageError.TheVariants.{Memory};

    ghost from_gives = { λ _ e. e ≡ Memory };

    fn from(_error: AllocFailed<T>) -> ImageError {
        ImageError::Memory
    }
}
