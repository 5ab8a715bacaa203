//! Whether the first bytes of a table are enough to refuse it.

ghost use Rattle.std.specs.Prelude.{◌≡◌, ◌≤◌, IsTrue, false, Ok, length};
ghost use Rattle.table_entries.specs.Tables.{count_in};
ghost use Rattle.table_entries.specs.Settled.{IsTableSettled, IsTableOpen};

use crate::passing::{Passing, pass_entry};
use crate::refusals::TableRefusal;
use crate::slices::skip;
use crate::stops::StopReason;
use crate::tables::count_in;
use image::Image;

// The same, once it is known how many entries the table has.
fn is_body_settled(image: &Image, count: usize, front: &[u8]) -> bool
    requires long { 8 ≤ length front.now }
    requires counted { count_in front.now ≡ Ok count }
    ensures settled { IsTrue result → IsTableSettled image.now front.now }
    ensures open { result ≡ false → IsTableOpen image.now front.now }
{
    let mut rest = skip(front, 8);
    let mut passing = Passing::new();
    for index in 0..count {
        match pass_entry(image, rest, &mut passing) {
            Ok((_, after)) => rest = after,
            Err(StopReason::Short) => return false,
            Err(StopReason::Meaningless) => return true,
        }
    }
    !rest.is_empty()
}

/// Returns whether every table that begins with these bytes is refused, for the same. If not, the
/// bytes end too early, or where the last entry does.
pub fn is_settled(image: &Image, front: &[u8]) -> bool
    ensures settled { IsTrue result → IsTableSettled image.now front.now }
    ensures open { result ≡ false → IsTableOpen image.now front.now }
{
    match count_in(front) {
        Ok(count) => is_body_settled(image, count, front),
        Err(TableRefusal::Short) => false,
        Err(_) => true,
    }
}
