//! Small texts at the end of a buffer.
ghost use Rattle.std.specs.Prelude.{◌≡◌, ◌<◌, ◌++◌, OnOk, decimal, false};
ghost use Rattle.std.specs.Fmt.{digits, digit_glyph};
ghost use Rattle.kh_print.specs.Parts.{separator};

use itoa::Buffer;
use kh_term::{NoMemory, push_byte, push_bytes};

// Adds the comma between two parts, where there was a part before.
pub fn push_separator(out: &mut Vec<u8>, first: bool) -> Result<(), NoMemory>
    ensures { OnOk result (out.new.items ≡ out.old.items ++ separator first) }
{
    if first {
        return Ok(());
    }
    push_byte(out, b',')
}

// Adds a small number in decimal digits.
pub fn push_decimal(out: &mut Vec<u8>, number: u8) -> Result<(), NoMemory>
    ensures { OnOk result (out.new.items ≡ out.old.items ++ decimal number) }
{
    let mut buffer = Buffer::new();
    push_bytes(out, buffer.format(number).as_bytes())
}

// A hexadecimal digit, in lower case.
fn hex_digit(digit: u8) -> u8
    requires { digit < 16 }
    ensures { result ≡ digit_glyph false digit }
{
    if digit < 10 {
        b'0' + digit
    } else {
        b'a' + (digit - 10)
    }
}

// Adds a byte in its least number of hexadecimal digits.
pub fn push_hex(out: &mut Vec<u8>, byte: u8) -> Result<(), NoMemory>
    ensures { OnOk result (out.new.items ≡ out.old.items ++ digits 16 false byte) }
{
    if byte < 16 {
        return push_byte(out, hex_digit(byte));
    }
    push_byte(out, hex_digit(byte / 16))?;
    push_byte(out, hex_digit(byte % 16))
}
