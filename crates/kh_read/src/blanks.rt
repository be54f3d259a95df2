//! How far blanks go.
ghost use Rattle.std.specs.Prelude.{◌≡◌, false};
ghost use Rattle.kh_read.specs.Skipped.{first_mark, passed};

use crate::between::is_space;

// Whether a comment stands behind a byte, where the byte is blank.
fn passed(comment: bool, byte: u8) -> Option<bool>
    ensures { result ≡ passed comment byte }
{
    if comment {
        return Some(byte != b'\n');
    }
    if is_space(byte) {
        return Some(false);
    }
    if byte == b'%' {
        return Some(true);
    }
    None
}

/// The place of the first byte that isn't blank.
#[tactic(auto, unfolding(crate::specs::Skipped::first_mark))]
pub fn first_mark(bytes: &[u8]) -> Option<usize>
    ensures { result ≡ first_mark false 0 bytes.now }
{
    let mut comment = false;
    for place in 0..bytes.len() {
        match passed(comment, bytes[place]) {
            Some(next) => comment = next,
            None => return Some(place),
        }
    }
    None
}
