//! The images of the tests, of which docs/FORMATS.md shows the first, and the head of a packet
//! frame.

use calls::running::Head;

/// `r0 = 2; exit`.
pub const PASS: [u8; 24] = *b"XBP1\0\0\x02\0\xb7\0\0\0\x02\0\0\0\x95\0\0\0\0\0\0\0";

/// `r0 = *(u32 *)(r1 + 12); exit`: the interface.
pub const INTERFACE: [u8; 24] = *b"XBP1\0\0\x02\0\x61\x10\x0c\0\0\0\0\0\x95\0\0\0\0\0\0\0";

/// `r2 = *(u32 *)(r1 + 0); r0 = *(u8 *)(r2 + 13); r0 = 2; exit`.
pub const UNGUARDED: [u8; 40] = *b"XBP1\0\0\x04\0\
    \x61\x12\0\0\0\0\0\0\x71\x20\x0d\0\0\0\0\0\xb7\0\0\0\x02\0\0\0\x95\0\0\0\0\0\0\0";

/// `r0 = 0; loop: goto loop`.
pub const ENDLESS: [u8; 24] = *b"XBP1\0\0\x02\0\xb7\0\0\0\0\0\0\0\x05\0\xff\xff\0\0\0\0";

/// Bytes that are not an image.
pub const OTHER: [u8; 8] = *b"XBP3\0\0\x02\0";

/// `r0 = 2; exit`, with a hash map of at most two keys of 2 bytes, with values of 3, and an array
/// of four values of 4 bytes.
pub const MAPS: [u8; 48] = *b"XBP1\x02\0\x02\0\
    \x01\0\x02\0\x03\0\0\0\x02\0\0\0\x02\0\x04\0\x04\0\0\0\x04\0\0\0\
    \xb7\0\0\0\x02\0\0\0\x95\0\0\0\0\0\0\0";

/// Time 1000, interface 7, queue 2.
pub const HEAD: Head = Head {
    time: 1000,
    interface: 7,
    queue: 2,
};

/// The stream of one packet frame of two bytes.
pub const ONE_FRAME: &[u8] = b"XPF1\xe8\x03\0\0\0\0\0\0\x01\0\0\0\0\0\0\0\x02\0\0\0\xca\xfe";
