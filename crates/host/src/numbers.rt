//! The buffer in which a line of the report is made, and numbers in it.
ghost use Rattle.std.specs.Prelude.{◌≡◌, ◌+◌, ◌/◌, ◌%◌, ◌<◌, ◌≤◌, [], ◌∷◌, ◌++◌, length, decimal};
ghost use Rattle.arrayvec.specs.ArrayVec.{array_vec_len};

use arrayvec::ArrayVec;
use itoa::Buffer;

/// A line of the report; none has more than 72 bytes.
pub type ReportLine = ArrayVec<u8, 96>;

/// Appends a text.
#[inline(always)]
pub fn push_text(line: &mut ReportLine, text: &str)
    requires { array_vec_len line.old + length text.now ≤ 96 }
    ensures items { line.new.items ≡ line.old.items ++ text.now }
    ensures len { array_vec_len line.new ≡ array_vec_len line.old + length text.now }
{
    let _ = line.try_extend_from_slice(text.as_bytes());
}

// Appends two digits.
#[inline(always)]
fn push_pair(line: &mut ReportLine, number: u64)
    requires room { array_vec_len line.old + 2 ≤ 96 }
    requires two { number < 100 }
    ensures items { line.new.items
        ≡ line.old.items ++ (48 + number / 10) ∷ (48 + number % 10) ∷ [] }
    ensures len { array_vec_len line.new ≡ array_vec_len line.old + 2 }
{
    line.push(b'0' + (number / 10) as u8);
    line.push(b'0' + (number % 10) as u8);
}

// Appends a number below 100 in decimal.
#[inline(always)]
#[tactic(auto, using(std::proofs::lemmas::Fmt::decimal_digit, itoa::proofs::Decimal::decimal_two))]
fn push_first(line: &mut ReportLine, number: u64)
    requires room { array_vec_len line.old + 2 ≤ 96 }
    requires two { number < 100 }
    ensures items { line.new.items ≡ line.old.items ++ decimal number }
    ensures len { array_vec_len line.new ≤ array_vec_len line.old + 2 }
{
    if number < 10 {
        line.push(b'0' + number as u8);
    } else {
        push_pair(line, number);
    }
}

// Appends a number below 10,000 in decimal.
#[inline(always)]
#[tactic(auto, using(itoa::proofs::Decimal::decimal_pair))]
fn push_short(line: &mut ReportLine, number: u64)
    requires room { array_vec_len line.old + 4 ≤ 96 }
    requires four { number < 10000 }
    ensures items { line.new.items ≡ line.old.items ++ decimal number }
    ensures len { array_vec_len line.new ≤ array_vec_len line.old + 4 }
{
    if number < 100 {
        push_first(line, number);
    } else {
        push_first(line, number / 100);
        push_pair(line, number % 100);
    }
}

// Appends a number of any digits in decimal.
#[cold]
#[inline(never)]
fn push_long(line: &mut ReportLine, number: u64)
    requires { array_vec_len line.old + 20 ≤ 96 }
    ensures items { line.new.items ≡ line.old.items ++ decimal number }
    ensures len { array_vec_len line.new ≤ array_vec_len line.old + 20 }
{
    let mut buffer = Buffer::new();
    push_text(line, buffer.format(number));
}

/// Appends a number in decimal. Most have at most four digits; the number of a packet frame has
/// more.
#[inline(always)]
#[tactic(auto, using(itoa::proofs::Decimal::decimal_four))]
pub fn push_number(line: &mut ReportLine, number: u64)
    requires { array_vec_len line.old + 20 ≤ 96 }
    ensures items { line.new.items ≡ line.old.items ++ decimal number }
    ensures len { array_vec_len line.new ≤ array_vec_len line.old + 20 }
{
    if number < 10_000 {
        push_short(line, number);
    } else if number < 100_000_000 {
        let four = number % 10_000;
        push_short(line, number / 10_000);
        push_pair(line, four / 100);
        push_pair(line, four % 100);
    } else {
        push_long(line, number);
    }
}
