//! Small pieces of packed bytes at the end of a buffer.
ghost use Rattle.std.specs.Prelude.{◌≡◌, ◌<◌, ◌^◌, ◌++◌, ◌∷◌, OnOk, length};
ghost use Rattle.std.specs.Int.{to_be_bytes, w32};
ghost use Rattle.kh_term.specs.Packed.{integer_len, integer_bytes, short_text};

use byteorder::{BigEndian, ByteOrder};
use kh_term::{NoMemory, integer_len, push_byte, push_bytes};

// Adds a tag and a count.
pub fn push_head(out: &mut Vec<u8>, tag: u8, count: usize) -> Result<(), NoMemory>
    requires { count < 2 ^ 32 }
    ensures { OnOk result (out.new.items ≡ out.old.items ++ tag ∷ to_be_bytes w32 count) }
{
    let mut bytes = [0; 4];
    BigEndian::write_u32(&mut bytes, count as u32);
    push_byte(out, tag)?;
    push_bytes(out, &bytes)
}

// Adds a short text: its length in one byte, and the text.
pub fn push_short(out: &mut Vec<u8>, text: &[u8]) -> Result<(), NoMemory>
    requires { length text.now < 256 }
    ensures { OnOk result (out.new.items ≡ out.old.items ++ short_text text.now) }
{
    push_byte(out, text.len() as u8)?;
    push_bytes(out, text)
}

// Adds the length of an integer and its bytes.
pub fn push_integer(out: &mut Vec<u8>, number: i128) -> Result<(), NoMemory>
    ensures { OnOk result
        (out.new.items ≡ out.old.items ++ integer_len number ∷ integer_bytes number) }
{
    let len = integer_len(number);
    let mut bytes = [0; 16];
    BigEndian::write_int128(&mut bytes, number, len as usize);
    push_byte(out, len as u8)?;
    push_bytes(out, &bytes[..len as usize])
}
