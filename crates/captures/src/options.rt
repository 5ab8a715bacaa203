//! The options of a block of a pcapng file.

ghost use Rattle.std.specs.Prelude.{◌≡◌, option_map};
ghost use Rattle.captures.specs.Pcapng.{option_value};

use super::forms::{NumberOrder, short_at};

/// The value of the first option with this code, before the end of options.
pub fn option_value<'a>(order: NumberOrder, code: u16, options: &'a [u8]) -> Option<&'a [u8]>
    ensures { option_map (λ v. v.now) result ≡ option_value order code options.now }
{
    let mut rest = options;
    while rest.len() >= 4 {
        let kind = short_at(order, rest, 0);
        let size = usize::from(short_at(order, rest, 2));
        if kind == 0 {
            return None;
        }
        if kind == code {
            let end = rest.len().min(4 + size);
            return Some(&rest[4..end]);
        }
        let next = rest.len().min(4 + (size + 3) / 4 * 4);
        rest = rest.split_at(next).1;
    }
    None
}
