//! Integers in the midst of their digits.
ghost use Rattle.std.specs.Prelude.{◌≡◌, ◌^◌, ◌<◌, IsTrue};
ghost use Rattle.kh_term.specs.WellFormed.{fits_128};
ghost use Rattle.kh_read.specs.Steps.{signed, is_byte, byte_of};

/// An integer of 128 bits by its sign and its magnitude.
#[derive(Clone, Copy)]
pub struct Whole {
    pub negative: bool,
    pub magnitude: u128,
    pub ghost fits: { IsTrue (fits_128 (signed negative magnitude)) },
}

impl Whole {
    /// The integer.
    #[tactic(auto, using(crate::proofs::Wholes::wholes))]
    pub fn value(self) -> i128
        ensures { result ≡ signed self.negative self.magnitude }
    {
        match i128::try_from(self.magnitude) {
            Ok(number) if self.negative => -number,
            Ok(number) => number,
            Err(_) => i128::MIN,
        }
    }

    /// The byte that an integer of a segment is.
    pub fn byte(self) -> u8
        ensures { result ≡ byte_of self.magnitude }
    {
        if self.magnitude < 256 {
            self.magnitude as u8
        } else {
            0
        }
    }
}

/// Whether it is a byte.
pub fn is_byte(negative: bool, magnitude: u128) -> bool
    ensures { result ≡ is_byte negative magnitude }
{
    if negative {
        magnitude == 0
    } else {
        magnitude < 256
    }
}

/// Whether it has 128 bits.
#[tactic(auto, using(crate::proofs::Wholes::wholes))]
pub fn is_in_range(negative: bool, magnitude: u128) -> bool
    ensures { result ≡ fits_128 (signed negative magnitude) }
{
    if negative {
        magnitude <= 1 << 127
    } else {
        magnitude < 1 << 127
    }
}
