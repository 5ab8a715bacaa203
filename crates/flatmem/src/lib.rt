//! Little-endian numbers in lent bytes, at any index, without a test at run time: the caller proves
//! that the bytes are there.
//!
//! A raw pointer is made in each call, and none is kept. It points to an array of bytes, whose
//! alignment is 1.
#![tactic(auto)]

ghost use Rattle.std.specs.Prelude.{◌≡◌, ◌+◌, ◌≤◌, ◌++◌, length, take, drop, slice_index, slice_set, ◌<◌, [], ◌∷◌};
ghost use Rattle.std.specs.Int.{w16, w32, w64, from_le_bytes, to_le_bytes};
ghost use Rattle.flatmem.specs.Bytes.{bytes_at, with_bytes};

// N bytes from `at` on, read as one array.
#[inline(always)]
fn window<const N: usize>(bytes: &[u8], at: usize) -> [u8; N]
    requires { at + N ≤ length bytes.now }
    ensures { result ≡ take N (drop at bytes.now) }
{
    unsafe { *(bytes.as_ptr().add(at) as *const [u8; N]) }
}

// Writes these N bytes from `at` on, as one array.
#[inline(always)]
fn put_window<const N: usize>(bytes: &mut [u8], at: usize, written: [u8; N])
    requires { at + N ≤ length bytes.old }
    ensures { bytes.new ≡ take at bytes.old ++ (written.entry ++ drop (at + N) bytes.old) }
{
    unsafe { *(bytes.as_mut_ptr().add(at) as *mut [u8; N]) = written };
}

/// The number in the byte at `at`.
#[inline(always)]
pub fn get8(bytes: &[u8], at: usize) -> u8
    requires { at + 1 ≤ length bytes.now }
    ensures { result ≡ slice_index bytes.now at }
{
    let byte = window::<1>(bytes, at);
    byte[0]
}

/// The number in the two bytes at `at`.
#[inline(always)]
pub fn get16(bytes: &[u8], at: usize) -> u16
    requires { at + 2 ≤ length bytes.now }
    ensures { result ≡ from_le_bytes w16 (bytes_at bytes.now at 2) }
{
    u16::from_le_bytes(window(bytes, at))
}

/// The number in the four bytes at `at`.
#[inline(always)]
pub fn get32(bytes: &[u8], at: usize) -> u32
    requires { at + 4 ≤ length bytes.now }
    ensures { result ≡ from_le_bytes w32 (bytes_at bytes.now at 4) }
{
    u32::from_le_bytes(window(bytes, at))
}

/// The number in the eight bytes at `at`.
#[inline(always)]
pub fn get64(bytes: &[u8], at: usize) -> u64
    requires { at + 8 ≤ length bytes.now }
    ensures { result ≡ from_le_bytes w64 (bytes_at bytes.now at 8) }
{
    u64::from_le_bytes(window(bytes, at))
}

/// Writes a number into the byte at `at`.
#[inline(always)]
pub fn put8(bytes: &mut [u8], at: usize, number: u8)
    requires { at + 1 ≤ length bytes.old }
    ensures { bytes.new ≡ with_bytes bytes.old at (number ∷ []) }
{
    put_window(bytes, at, [number]);
}

/// Writes a number into the two bytes at `at`.
#[inline(always)]
pub fn put16(bytes: &mut [u8], at: usize, number: u16)
    requires { at + 2 ≤ length bytes.old }
    ensures { bytes.new ≡ with_bytes bytes.old at (to_le_bytes w16 number) }
{
    put_window(bytes, at, number.to_le_bytes());
}

/// Writes a number into the four bytes at `at`.
#[inline(always)]
pub fn put32(bytes: &mut [u8], at: usize, number: u32)
    requires { at + 4 ≤ length bytes.old }
    ensures { bytes.new ≡ with_bytes bytes.old at (to_le_bytes w32 number) }
{
    put_window(bytes, at, number.to_le_bytes());
}

/// Writes a number into the eight bytes at `at`.
#[inline(always)]
pub fn put64(bytes: &mut [u8], at: usize, number: u64)
    requires { at + 8 ≤ length bytes.old }
    ensures { bytes.new ≡ with_bytes bytes.old at (to_le_bytes w64 number) }
{
    put_window(bytes, at, number.to_le_bytes());
}

/// Writes the bytes of `from` into `to` from `at` on.
pub fn copy(from: &[u8], to: &mut [u8], at: usize)
    requires { at + length from.now ≤ length to.old }
    ensures { to.new ≡ with_bytes to.old at from.now }
{
    for i in 0..from.len() {
        put8(to, at + i, get8(from, i));
    }
}
