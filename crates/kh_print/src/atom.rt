//! The text of an atom.
ghost use Rattle.std.specs.Prelude.{◌≡◌, ◌++◌, OnOk, codes, false};
ghost use Rattle.std.specs.Fmt.{digits};
ghost use Rattle.std.specs.List.{flat_map};
ghost use Rattle.kh_text_defs.specs.Shown.{quoted_byte, shown_atom};

use crate::pieces::push_hex;
use kh_term::{NoMemory, push_byte, push_bytes};
use kh_text_defs::is_plain;

// Adds a byte as its code, `\x{H}`.
fn push_code(out: &mut Vec<u8>, byte: u8) -> Result<(), NoMemory>
    ensures { OnOk result (out.new.items ≡ out.old.items
        ++ (codes "\\x{" ++ digits 16 false byte ++ codes "}")) }
{
    push_bytes(out, b"\\x{")?;
    push_hex(out, byte)?;
    push_byte(out, b'}')
}

// Adds a byte of a quoted atom, escaped where it has to be.
fn push_quoted_byte(out: &mut Vec<u8>, byte: u8) -> Result<(), NoMemory>
    ensures { OnOk result (out.new.items ≡ out.old.items ++ quoted_byte byte) }
{
    match byte {
        b'\\' => push_bytes(out, b"\\\\"),
        b'\'' => push_bytes(out, b"\\'"),
        b'\n' => push_bytes(out, b"\\n"),
        b'\r' => push_bytes(out, b"\\r"),
        b'\t' => push_bytes(out, b"\\t"),
        0..=31 | 127 => push_code(out, byte),
        _ => push_byte(out, byte),
    }
}

// Adds the bytes of a quoted atom.
fn push_quoted(out: &mut Vec<u8>, text: &[u8]) -> Result<(), NoMemory>
    ensures { OnOk result (out.new.items ≡ out.old.items ++ flat_map quoted_byte text.now) }
{
    for byte in text {
        push_quoted_byte(out, *byte)?;
    }
    Ok(())
}

// Adds an atom, in quotes where it needs them.
pub fn push_atom(out: &mut Vec<u8>, text: &[u8]) -> Result<(), NoMemory>
    ensures { OnOk result (out.new.items ≡ out.old.items ++ shown_atom text.now) }
{
    if is_plain(text) {
        return push_bytes(out, text);
    }
    push_byte(out, b'\'')?;
    push_quoted(out, text)?;
    push_byte(out, b'\'')
}
