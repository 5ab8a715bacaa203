//! Puts pieces one after the other to the front of a buffer.

ghost use Rattle.std.specs.Prelude.{◌≡◌, ◌+◌, ◌++◌, ◌≤◌, length, take};

/// Puts a piece after the first `at` bytes, and returns how many bytes there are then.
#[inline(always)]
pub fn put(buffer: &mut [u8], at: usize, piece: &[u8]) -> usize
    requires { at + length piece.now ≤ length buffer.old }
    ensures front { take result buffer.new ≡ take at buffer.old ++ piece.now }
    ensures size { result ≡ at + length piece.now }
    ensures length { length buffer.new ≡ length buffer.old }
{
    let end = at + piece.len();
    buffer[at..end].copy_from_slice(piece);
    end
}
