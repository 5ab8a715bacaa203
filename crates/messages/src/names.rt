//! How messages show the name of a file.

ghost use Rattle.std.specs.Prelude.{◌≡◌, ◌++◌, ◌<◌, drop, length, slice_index, OnOk, OnErr};
ghost use Rattle.std.specs.Io.KnownBytes.{Appends};
ghost use Rattle.std.specs.List.{list_all};
ghost use Rattle.exact_io.specs.Transfers.{AppendsBeginning};
ghost use Rattle.messages.specs.Names.{is_control, is_upper_control, hex_digit, escaped, shown_byte, shown_from, is_plain, shown_name, dash_line};

use exact_io::write_bytes;
use std::io;
use std::io::Write;

// The first byte of a control character that is not in ASCII.
const UPPER_LEAD: u8 = 0xc2;

fn is_control(byte: u8) -> bool
    ensures { result ≡ is_control byte }
{
    byte < b' ' || byte == 127
}

fn is_upper_control(byte: u8) -> bool
    ensures { result ≡ is_upper_control byte }
{
    byte >= 128 && byte < 160
}

fn hex_digit(n: u8) -> u8
    requires { n < 16 }
    ensures { result ≡ hex_digit n }
{
    if n < 10 { 48 + n } else { 87 + n }
}

fn escaped(byte: u8) -> [u8; 4]
    ensures { result ≡ escaped byte }
{
    [b'\\', b'x', hex_digit(byte / 16), hex_digit(byte % 16)]
}

// Writes a byte as it is shown, between these two.
fn write_shown<W: Write>(out: &mut W, before: u8, byte: u8, after: u8) -> io::Result<()>
    ensures ok { OnOk result
        (Appends (W.contents out.old) (W.contents out.new) (shown_byte before byte after)) }
    ensures err { OnErr result (AppendsBeginning (W.contents out.old) (W.contents out.new)
        (shown_byte before byte after)) }
{
    if byte == UPPER_LEAD && is_upper_control(after) {
        return Ok(());
    }
    if is_control(byte) || (before == UPPER_LEAD && is_upper_control(byte)) {
        let escape = escaped(byte);
        write_bytes(out, &escape[..])
    } else {
        write_bytes(out, &[byte])
    }
}

fn is_plain(byte: u8) -> bool
    ensures { result ≡ is_plain byte }
{
    !is_control(byte) && byte != UPPER_LEAD
}

fn are_plain(bytes: &[u8]) -> bool
    ensures { result ≡ list_all is_plain bytes.now }
{
    bytes.iter().all(|byte| is_plain(*byte))
}

// The first byte; 0 if there is none.
fn first_of(bytes: &[u8]) -> u8
    ensures { result ≡ slice_index bytes.now 0 }
{
    bytes.first().copied().unwrap_or(0)
}

// The bytes after the first one.
fn without_first(bytes: &[u8]) -> &[u8]
    requires { 0 < length bytes.now }
    ensures value { result.now ≡ drop 1 bytes.now }
    ensures less { length result.now < length bytes.now }
{
    &bytes[1..]
}

// Writes the bytes of a name, each as it is shown.
fn write_escaped<W: Write>(out: &mut W, bytes: &[u8]) -> io::Result<()>
    ensures ok { OnOk result
        (Appends (W.contents out.old) (W.contents out.new) (shown_from 0 bytes.now)) }
    ensures err { OnErr result
        (AppendsBeginning (W.contents out.old) (W.contents out.new) (shown_from 0 bytes.now)) }
{
    let mut before = 0;
    let mut rest = bytes;
    'shown: while !rest.is_empty() {
        let byte = first_of(rest);
        let after = without_first(rest);
        write_shown(out, before, byte, first_of(after))?;
        before = byte;
        rest = after;
    }
    Ok(())
}

/// Writes a name as it is shown.
pub fn write_name<W: Write>(out: &mut W, name: &str) -> io::Result<()>
    ensures ok { OnOk result
        (Appends (W.contents out.old) (W.contents out.new) (shown_name name.now)) }
    ensures err { OnErr result
        (AppendsBeginning (W.contents out.old) (W.contents out.new) (shown_name name.now)) }
{
    let bytes = name.as_bytes();
    if are_plain(bytes) {
        write_bytes(out, bytes)
    } else {
        write_escaped(out, bytes)
    }
}

/// Writes a text, a name as it is shown, and another text.
pub fn write_named<W: Write>(out: &mut W, front: &str, name: &str, back: &str) -> io::Result<()>
    ensures ok { OnOk result
        (Appends (W.contents out.old) (W.contents out.new)
        (front.now ++ (shown_name name.now ++ back.now))) }
    ensures err { OnErr result
        (AppendsBeginning (W.contents out.old) (W.contents out.new)
        (front.now ++ (shown_name name.now ++ back.now))) }
{
    write_bytes(out, front.as_bytes())?;
    write_name(out, name)?;
    write_bytes(out, back.as_bytes())
}

/// The hint for a name that other programs take for standard input.
pub fn dash_line(name: &str) -> &'static str
    ensures { result.now ≡ dash_line name.now }
{
    if name == "-" {
        "standard input is /dev/stdin\n"
    } else {
        ""
    }
}
