//! What a byte does at any place.
ghost use Rattle.std.specs.Prelude.{◌≡◌, true};
ghost use Rattle.kh_read.specs.Steps.{step, step_place};
ghost use Rattle.kh_read.specs.Views.{ends_no_form, frames_of, place_of, setting, state_of, Gives, GivesNext};

use crate::after::step_arrow;
use crate::between::step_between;
use crate::binaries::step_close;
use crate::inside::{step_digits, step_sharp, step_utf, step_word};
use crate::marks::{
    may_follow, more_digits, step_angle, step_exponent_mark, step_fraction, step_minus, step_point,
    step_signed, step_size,
};
use crate::places::{Frame, Place};
use crate::quotes::step_quote;
use crate::state::{Next, State, Stop, go};
use kh_text_defs::Mode;
use sqlite_items::Items;
use std::alloc::Global;

// A byte of a token, or behind one.
#[tactic(auto, using(crate::proofs::Befores::sharp_any_mode), unfolding(crate::specs::Steps::step_place))]
fn token(
    alloc: Global,
    mode: Mode,
    here: Place,
    frames: Items<Frame>,
    at: (usize, u8),
) -> Result<State, Stop>
    requires { ends_no_form (place_of here) ≡ true }
    ensures { Gives result
        (step_place (setting mode) (place_of here) (frames_of frames) at.0 at.1) }
{
    match here {
        Place::Minus(first) => step_minus(frames, first, at),
        Place::Digits(first, whole) => step_digits(alloc, mode, frames, (first, whole), at),
        Place::Word(word) => step_word(alloc, mode, frames, word, at),
        Place::Quote(quoting, inner) => step_quote(alloc, mode, frames, quoting, inner, at.1),
        Place::Angle => step_angle(alloc, frames, at),
        Place::Sharp(count) => step_sharp(alloc, frames, count, at.1),
        Place::Arrow(key) => step_arrow(frames, key, at.1),
        Place::Close => step_close(alloc, frames, at.1),
        Place::Fraction => step_fraction(alloc, mode, frames, at),
        Place::Mark => step_exponent_mark(frames, at),
        Place::Signed => step_signed(frames, at),
        Place::Exponent => more_digits(alloc, mode, Place::Exponent, frames, at),
        Place::Size => step_size(alloc, mode, frames, at),
        Place::Count => more_digits(alloc, mode, Place::Count, frames, at),
        Place::Utf(count) => step_utf(frames, count, at.1),
        here => step_between(alloc, mode, here, frames, at),
    }
}

// A byte that isn't in a comment.
#[tactic(auto, unfolding(crate::specs::Steps::step_place))]
fn step_place(
    alloc: Global,
    mode: Mode,
    here: Place,
    frames: Items<Frame>,
    at: (usize, u8),
) -> Result<Next, Stop>
    ensures { GivesNext result
        (step_place (setting mode) (place_of here) (frames_of frames) at.0 at.1) }
{
    match here {
        Place::Dotted(term) if may_follow(at.1) => Ok(Next::Done(term)),
        Place::Dotted(_) => Err(Stop::Syntax),
        Place::Point(number) => step_point(frames, number, at.1),
        here => Ok(Next::Go(token(alloc, mode, here, frames, at)?)),
    }
}

/// What a byte does.
#[tactic(auto, unfolding(crate::specs::Steps::step))]
pub fn step(alloc: Global, mode: Mode, state: State, at: (usize, u8)) -> Result<Next, Stop>
    ensures { GivesNext result (step (setting mode) (state_of state) at.0 at.1) }
{
    if !state.comment {
        return step_place(alloc, mode, state.place, state.frames, at);
    }
    if at.1 == b'\n' {
        return Ok(Next::Go(go(state.place, state.frames)));
    }
    Ok(Next::Go(state))
}
