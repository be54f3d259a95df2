//! The text of a binary.
ghost use Rattle.std.specs.Prelude.{◌≡◌, ◌++◌, OnOk, map, decimal, codes};
ghost use Rattle.std.specs.List.{flat_map, list_all};
ghost use Rattle.kh_text_defs.specs.Shown.{is_printable, text_byte, with_commas, shown_bytes};

use crate::pieces::{push_decimal, push_separator};
use kh_term::{NoMemory, push_byte, push_bytes};

// Whether all bytes are printable.
fn all_printable(bytes: &[u8]) -> bool
    ensures { result ≡ list_all is_printable bytes.now }
{
    bytes.iter().all(|byte| 32 <= *byte && *byte < 127)
}

// Adds a byte of a text in double quotes.
fn push_text_byte(out: &mut Vec<u8>, byte: u8) -> Result<(), NoMemory>
    ensures { OnOk result (out.new.items ≡ out.old.items ++ text_byte byte) }
{
    match byte {
        b'\\' => push_bytes(out, b"\\\\"),
        b'"' => push_bytes(out, b"\\\""),
        _ => push_byte(out, byte),
    }
}

// Adds the bytes of a text in double quotes.
fn push_escaped(out: &mut Vec<u8>, bytes: &[u8]) -> Result<(), NoMemory>
    ensures { OnOk result (out.new.items ≡ out.old.items ++ flat_map text_byte bytes.now) }
{
    for byte in bytes {
        push_text_byte(out, *byte)?;
    }
    Ok(())
}

// Adds the numbers of bytes, with commas between them.
fn push_numbers(out: &mut Vec<u8>, bytes: &[u8]) -> Result<(), NoMemory>
    ensures { OnOk result (out.new.items ≡ out.old.items ++ with_commas (map decimal bytes.now)) }
{
    let mut first = true;
    for byte in bytes {
        push_separator(out, first)?;
        push_decimal(out, *byte)?;
        first = false;
    }
    Ok(())
}

// Adds what stands inside the brackets of a binary.
fn push_inside(out: &mut Vec<u8>, bytes: &[u8]) -> Result<(), NoMemory>
    ensures { OnOk result (out.new.items ≡ out.old.items ++ shown_bytes bytes.now) }
{
    if bytes.is_empty() {
        return Ok(());
    }
    if !all_printable(bytes) {
        return push_numbers(out, bytes);
    }
    push_byte(out, b'"')?;
    push_escaped(out, bytes)?;
    push_byte(out, b'"')
}

// Adds a binary.
pub fn push_binary(out: &mut Vec<u8>, bytes: &[u8]) -> Result<(), NoMemory>
    ensures { OnOk result (out.new.items ≡ out.old.items
        ++ (codes "<<" ++ shown_bytes bytes.now ++ codes ">>")) }
{
    push_bytes(out, b"<<")?;
    push_inside(out, bytes)?;
    push_bytes(out, b">>")
}
