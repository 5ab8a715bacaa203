//! The front and the end of a slice, and numbers in it.

ghost use Rattle.std.specs.Prelude.{◌≡◌, ◌+◌, ◌-◌, ◌≤◌, ◌++◌, IsTrue, length, take, drop};
ghost use Rattle.byteorder.specs.Endian.{little_number};

use flatmem::{get16, get32, get64};

/// Returns what follows the first bytes.
#[inline(always)]
pub fn skip(bytes: &[u8], count: usize) -> &[u8]
    requires { count ≤ length bytes.now }
    ensures { result.now ≡ drop count bytes.now }
{
    &bytes[count..]
}

/// Returns what comes before the last bytes, as many as are given.
#[inline(always)]
pub fn before<'a>(bytes: &'a [u8], last: &[u8]) -> &'a [u8]
    requires { length last.now ≤ length bytes.now }
    ensures { result.now ≡ take (length bytes.now - length last.now) bytes.now }
{
    &bytes[..bytes.len() - last.len()]
}

/// Returns whether the bytes begin with others: eight are compared at once.
pub fn begins_with(bytes: &[u8], front: &[u8]) -> bool
    ensures { IsTrue result → bytes.now ≡ front.now ++ drop (length front.now) bytes.now }
{
    if bytes.len() < front.len() {
        return false;
    }
    let words = front.len() / 8;
    for word in 0..words {
        if u64_at(bytes, 8 * word) != u64_at(front, 8 * word) {
            return false;
        }
    }
    for at in 8 * words..front.len() {
        if bytes[at] != front[at] {
            return false;
        }
    }
    true
}

/// The number in the two bytes at an index, the lowest first.
#[inline(always)]
pub fn u16_at(bytes: &[u8], at: usize) -> u16
    requires { at + 2 ≤ length bytes.now }
    ensures { result ≡ little_number 2 (drop at bytes.now) }
{
    get16(bytes, at)
}

/// The number in the four bytes at an index, the lowest first.
#[inline(always)]
pub fn u32_at(bytes: &[u8], at: usize) -> u32
    requires { at + 4 ≤ length bytes.now }
    ensures { result ≡ little_number 4 (drop at bytes.now) }
{
    get32(bytes, at)
}

/// The number in the eight bytes at an index, the lowest first.
#[inline(always)]
pub fn u64_at(bytes: &[u8], at: usize) -> u64
    requires { at + 8 ≤ length bytes.now }
    ensures { result ≡ little_number 8 (drop at bytes.now) }
{
    get64(bytes, at)
}
