//! What a byte does in a token of few bytes, and in a float.
ghost use Rattle.std.specs.Prelude.{◌≡◌, ◌∷◌, [], IfOk, IfErr};
ghost use Rattle.kh_text_defs.specs.declared.mode.Mode.TheVariants.{Script};
ghost use Rattle.kh_text_defs.specs.Blanks.{may_follow};
ghost use Rattle.kh_text_defs.specs.Spelled.{unsupported};
ghost use Rattle.kh_read.specs.State.{After, Angle, Fraction, Mark, Minus, Signed, Size};
ghost use Rattle.kh_read.specs.Steps.{more_digits, step_place, step_point};
ghost use Rattle.kh_read.specs.Views.{frames_of, place_of, setting, Gives, GivesNext};
ghost use Rattle.kh_read.specs.declared.state.Stop.TheVariants.{NoMemory};

use crate::begin::with_digit;
use crate::between::{is_space, step_between};
use crate::places::{Frame, Place};
use crate::state::{Next, State, Stop, enter, go};
use kh_term::{Term, int, word};
use kh_text_defs::Mode;
use sqlite_items::Items;
use std::alloc::Global;

/// Whether a byte may stand behind the dot of a form.
pub fn may_follow(byte: u8) -> bool
    ensures { result ≡ may_follow (byte ∷ []) }
{
    is_space(byte) || byte == b'%'
}

/// Behind a minus sign.
#[tactic(auto, unfolding(crate::specs::Steps::step_place))]
pub fn step_minus(frames: Items<Frame>, first: usize, at: (usize, u8)) -> Result<State, Stop>
    ensures { Gives result
        (step_place (setting Script) (Minus first) (frames_of frames) at.0 at.1) }
{
    if at.1.is_ascii_digit() {
        return with_digit(frames, first, true, u128::from(at.1 - b'0'));
    }
    Err(Stop::Syntax)
}

/// The second byte of `<<`.
#[tactic(auto, unfolding(crate::specs::Steps::step_place))]
pub fn step_angle(alloc: Global, frames: Items<Frame>, at: (usize, u8)) -> Result<State, Stop>
    ensures { Gives result (step_place (setting Script) Angle (frames_of frames) at.0 at.1) }
{
    if at.1 == b'<' {
        return enter(frames, Frame::Binary(false, Vec::new(alloc), false));
    }
    Err(Stop::Syntax)
}

/// Behind an integer and a dot.
#[tactic(auto, unfolding(crate::specs::Steps::step_point))]
pub fn step_point(frames: Items<Frame>, number: i128, byte: u8) -> Result<Next, Stop>
    ensures { GivesNext result (step_point (frames_of frames) number byte) }
{
    if byte.is_ascii_digit() {
        return Ok(Next::Go(go(Place::Fraction, frames)));
    }
    if frames.is_empty() && may_follow(byte) {
        return Ok(Next::Done(int(number)));
    }
    Err(Stop::Syntax)
}

// What a listing holds that isn't supported.
fn unsupported(alloc: Global) -> Result<Term, Stop>
    ensures term { IfOk result (λ t. t.node ≡ unsupported) }
    ensures err { IfErr result (λ e. e ≡ NoMemory) }
{
    Ok(word(alloc, "$unsupported")?)
}

/// Behind digits of what isn't supported.
pub fn more_digits(
    alloc: Global,
    mode: Mode,
    here: Place,
    frames: Items<Frame>,
    at: (usize, u8),
) -> Result<State, Stop>
    ensures { Gives result
        (more_digits (setting mode) (place_of here) (After unsupported) (frames_of frames) at) }
{
    if at.1.is_ascii_digit() {
        return Ok(go(here, frames));
    }
    step_between(alloc, mode, Place::After(unsupported(alloc)?), frames, at)
}

/// Behind digits of a size.
#[tactic(auto, unfolding(crate::specs::Steps::step_place))]
pub fn step_size(
    alloc: Global,
    mode: Mode,
    frames: Items<Frame>,
    at: (usize, u8),
) -> Result<State, Stop>
    ensures { Gives result (step_place (setting mode) Size (frames_of frames) at.0 at.1) }
{
    if at.1.is_ascii_digit() {
        return Ok(go(Place::Size, frames));
    }
    step_between(alloc, mode, Place::AfterSegment, frames, at)
}

/// In a fraction.
#[tactic(auto, unfolding(crate::specs::Steps::step_place))]
pub fn step_fraction(
    alloc: Global,
    mode: Mode,
    frames: Items<Frame>,
    at: (usize, u8),
) -> Result<State, Stop>
    ensures { Gives result (step_place (setting mode) Fraction (frames_of frames) at.0 at.1) }
{
    if at.1 == b'e' || at.1 == b'E' {
        return Ok(go(Place::Mark, frames));
    }
    more_digits(alloc, mode, Place::Fraction, frames, at)
}

/// Behind the mark of an exponent.
#[tactic(auto, unfolding(crate::specs::Steps::step_place))]
pub fn step_exponent_mark(frames: Items<Frame>, at: (usize, u8)) -> Result<State, Stop>
    ensures { Gives result (step_place (setting Script) Mark (frames_of frames) at.0 at.1) }
{
    if at.1 == b'+' || at.1 == b'-' {
        return Ok(go(Place::Signed, frames));
    }
    step_signed(frames, at)
}

/// Behind the sign of an exponent.
#[tactic(auto, unfolding(crate::specs::Steps::step_place))]
pub fn step_signed(frames: Items<Frame>, at: (usize, u8)) -> Result<State, Stop>
    ensures { Gives result (step_place (setting Script) Signed (frames_of frames) at.0 at.1) }
{
    if at.1.is_ascii_digit() {
        return Ok(go(Place::Exponent, frames));
    }
    Err(Stop::Syntax)
}
