//! Integers.
ghost use Rattle.std.specs.Prelude.{◌≡◌, IsTrue};
ghost use Rattle.std.specs.Str.Parse.{digits_value};
ghost use Rattle.kh_read.specs.Form.{are_digits};
ghost use Rattle.kh_read.specs.Reading.{Gives, integer_at};

use crate::error::ReadError;
use crate::scan::digits;

// The number that digits write.
fn magnitude(digits: &[u8]) -> u64
    requires { IsTrue (are_digits digits.now) }
    ensures { result ≡ digits_value 10 digits.now }
{
    match std::str::from_utf8(digits) {
        Ok(text) => match text.parse::<u64>() {
            Ok(number) => number,
            Err(_) => unreachable!(),
        },
        Err(_) => unreachable!(),
    }
}

/// Reads an integer of 1 to 18 digits, behind which a byte stands.
#[tactic(auto, unfolding(crate::specs::Reading::integer_at))]
pub fn integer(bytes: &[u8]) -> Result<(i128, &[u8]), ReadError>
    ensures { Gives (λ x. (x.0, x.1.now)) result (integer_at bytes.now) }
{
    match bytes {
        [b'-', rest @ ..] => {
            let (text, rest) = digits(rest)?;
            Ok((-i128::from(magnitude(text)), rest))
        }
        _ => {
            let (text, rest) = digits(bytes)?;
            Ok((i128::from(magnitude(text)), rest))
        }
    }
}
