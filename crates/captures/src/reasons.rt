//! The reason that the comments of a packet say.

ghost use Rattle.std.specs.Prelude.{◌≡◌};
ghost use Rattle.std.specs.List.{list_all};
ghost use Rattle.std.specs.Char.{is_ascii_digit};
ghost use Rattle.captures.specs.Pcapng.{option_reason, reason_in, reason_number, reason_said};

use super::forms::{NumberOrder, short_at};
use std::str::from_utf8;

// The code of the option opt_comment.
const COMMENT: u16 = 1;

fn is_all_digits(text: &[u8]) -> bool
    ensures { result ≡ list_all is_ascii_digit text.now }
{
    text.iter().all(|b| b.is_ascii_digit())
}

// The number of one to ten decimal digits, if it has 32 bits.
fn reason_number(digits: &[u8]) -> Option<u32>
    ensures { result ≡ reason_number digits.now }
{
    if digits.is_empty() || digits.len() > 10 || !is_all_digits(digits) {
        return None;
    }
    match from_utf8(digits) {
        Ok(text) => match text.parse::<u32>() {
            Ok(number) => Some(number),
            Err(_) => None,
        },
        Err(_) => None,
    }
}

// The reason that a comment says, if it says one.
fn reason_said(comment: &[u8]) -> Option<u32>
    ensures { result ≡ reason_said comment.now }
{
    if !comment.starts_with(b"reason ") {
        return None;
    }
    reason_number(&comment[7..])
}

// The reason that an option says, if it is a comment that says one.
fn option_reason(code: u16, value: &[u8]) -> Option<u32>
    ensures { result ≡ option_reason code value.now }
{
    if code == COMMENT {
        reason_said(value)
    } else {
        None
    }
}

/// The first reason that a comment among these options says, or 0.
pub fn reason_in(order: NumberOrder, options: &[u8]) -> u32
    ensures { result ≡ reason_in order options.now }
{
    let mut rest = options;
    while rest.len() >= 4 {
        let kind = short_at(order, rest, 0);
        let size = usize::from(short_at(order, rest, 2));
        if kind == 0 {
            return 0;
        }
        let end = rest.len().min(4 + size);
        if let Some(reason) = option_reason(kind, &rest[4..end]) {
            return reason;
        }
        let next = rest.len().min(4 + (size + 3) / 4 * 4);
        rest = rest.split_at(next).1;
    }
    0
}
