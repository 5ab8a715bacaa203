//! The 8 bytes at the front of an image.

ghost use Rattle.std.specs.Prelude.{◌≡◌, ◌≤◌, ◌++◌, length};
ghost use Rattle.byteorder.specs.Endian.{little_bytes};
ghost use Rattle.image.specs.Images.{magic};
ghost use Rattle.image.specs.Refusals.{count_refusal, map_count, size_refusal, version_read};

use crate::errors::ImageError;
use byteorder::{ByteOrder, LittleEndian};
use isa_model::{MAX_MAPS, MAX_SLOTS, Version};

/// The first test of the head and of the whole length that fails.
pub fn size_refusal(bytes: &[u8]) -> Option<ImageError>
    ensures { result ≡ size_refusal bytes.now }
{
    if bytes.len() < 8 {
        return Some(ImageError::Short);
    }
    if !bytes.starts_with(b"XBP1") && !bytes.starts_with(b"XBP2") {
        return Some(ImageError::Magic);
    }
    let maps = LittleEndian::read_u16(&bytes[4..]);
    let slots = LittleEndian::read_u16(&bytes[6..]);
    if maps > MAX_MAPS {
        return Some(ImageError::TooManyMaps);
    }
    if slots == 0 || slots > MAX_SLOTS {
        return Some(ImageError::SlotCount);
    }
    let size = 8 + 12 * usize::from(maps) + 8 * usize::from(slots);
    if bytes.len() < size {
        return Some(ImageError::Short);
    }
    if bytes.len() > size {
        return Some(ImageError::Long);
    }
    None
}

/// The version that the magic names.
pub fn version_of(bytes: &[u8]) -> Version
    ensures { result ≡ version_read bytes.now }
{
    if bytes.starts_with(b"XBP1") {
        Version::One
    } else if bytes.starts_with(b"XBP2") {
        Version::Two
    } else {
        Version::One
    }
}

/// The map count in the head.
pub fn map_count(bytes: &[u8]) -> usize
    requires { 8 ≤ length bytes.now }
    ensures { result ≡ map_count bytes.now }
{
    usize::from(LittleEndian::read_u16(&bytes[4..]))
}

/// Returns why an image may not have this number of slots.
pub fn count_refusal(slots: usize) -> Option<ImageError>
    ensures { result ≡ count_refusal slots }
{
    if slots == 0 || slots > usize::from(MAX_SLOTS) {
        Some(ImageError::SlotCount)
    } else {
        None
    }
}

/// The head of an image: its version, and how many map rows and slots it has.
pub fn head_of(version: Version, maps: u16, slots: u16) -> [u8; 8]
    ensures { result ≡ magic version ++ (little_bytes 2 maps ++ little_bytes 2 slots) }
{
    let mut head = match version {
        Version::One => *b"XBP1\0\0\0\0",
        Version::Two => *b"XBP2\0\0\0\0",
    };
    LittleEndian::write_u16(&mut head[4..], maps);
    LittleEndian::write_u16(&mut head[6..], slots);
    head
}
