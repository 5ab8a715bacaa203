//! Writes bytes to a buffer of the caller.

ghost use Rattle.std.specs.Prelude.{◌≡◌, length};
ghost use Rattle.calls.specs.Crossing.{filled};

/// Writes as many of the bytes as the buffer has room for, and returns how many there are.
pub fn fill(buffer: &mut [u8], bytes: &[u8]) -> usize
    ensures count { result ≡ length bytes.now }
    ensures filled { buffer.new ≡ filled buffer.old bytes.now }
{
    let copied = bytes.len().min(buffer.len());
    buffer[..copied].copy_from_slice(&bytes[..copied]);
    bytes.len()
}

/// Says how many bytes a text has that was written to a buffer as far as there was room.
#[repr(C)]
#[derive(Clone, Copy, Drop)]
pub struct TextSize {
    pub size: usize,
}
