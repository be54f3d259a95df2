//! What a byte does between tokens.
ghost use Rattle.std.specs.Prelude.{◌≡◌, true};
ghost use Rattle.kh_text_defs.specs.Blanks.{is_space};
ghost use Rattle.kh_read.specs.Steps.{step_between, step_fun, step_mark};
ghost use Rattle.kh_read.specs.Views.{digit_to, frames_of, place_of, setting, Gives};

use crate::after::{step_after, step_after_arity, step_after_name};
use crate::before::{step_before, step_reference};
use crate::binaries::{step_after_byte, step_after_segment, step_after_text};
use crate::places::{Frame, Place};
use crate::state::{State, Stop, go};
use kh_term::{Term, word};
use kh_text_defs::Mode;
use sqlite_items::Items;
use std::alloc::Global;

/// Whether a byte is a tab, a newline, a carriage return or a space.
pub fn is_space(byte: u8) -> bool
    ensures { result ≡ is_space byte }
{
    byte == b'\t' || byte == b'\n' || byte == b'\r' || byte == b' '
}

// A byte that goes on with a place, where it is a digit.
fn digit_to(frames: Items<Frame>, next: Place, byte: u8) -> Result<State, Stop>
    ensures { Gives result (digit_to (place_of next) (frames_of frames) byte) }
{
    if byte.is_ascii_digit() {
        return Ok(go(next, frames));
    }
    Err(Stop::Syntax)
}

// Behind the word `fun` of a listing.
fn step_fun(alloc: Global, frames: Items<Frame>, byte: u8) -> Result<State, Stop>
    ensures { Gives result (step_fun true (frames_of frames) byte) }
{
    if byte.is_ascii_lowercase() || byte == b'\'' {
        return step_reference(alloc, frames, byte);
    }
    step_after(alloc, frames, word(alloc, "fun")?, byte)
}

// A byte that is neither a space nor begins a comment.
#[tactic(auto, using(crate::proofs::Befores::any_mode), unfolding(crate::specs::Steps::step_mark))]
fn step_mark(
    alloc: Global,
    mode: Mode,
    here: Place,
    frames: Items<Frame>,
    at: (usize, u8),
) -> Result<State, Stop>
    ensures { Gives result (step_mark (setting mode) (place_of here) (frames_of frames) at.0 at.1) }
{
    let (place, byte) = at;
    match here {
        Place::Before => step_before(alloc, frames, place, byte),
        Place::After(term) => step_after(alloc, frames, term, byte),
        Place::AfterName(name) => step_after_name(frames, name, byte),
        Place::AfterArity(arity) => step_after_arity(frames, arity, byte),
        Place::AfterByte(number) => step_after_byte(mode, frames, number, byte),
        Place::AfterText(points) => step_after_text(mode, frames, points, byte),
        Place::AfterSegment => step_after_segment(frames, byte),
        Place::SizeMark => digit_to(frames, Place::Size, byte),
        Place::CountMark => digit_to(frames, Place::Count, byte),
        Place::UtfMark if byte == b'u' => Ok(go(Place::Utf(1), frames)),
        Place::Fun => step_fun(alloc, frames, byte),
        _ => Err(Stop::Syntax),
    }
}

/// A byte between tokens.
#[tactic(auto, unfolding(crate::specs::Steps::step_between))]
pub fn step_between(
    alloc: Global,
    mode: Mode,
    here: Place,
    frames: Items<Frame>,
    at: (usize, u8),
) -> Result<State, Stop>
    ensures { Gives result
        (step_between (setting mode) (place_of here) (frames_of frames) at.0 at.1) }
{
    if is_space(at.1) {
        return Ok(go(here, frames));
    }
    if at.1 == b'%' {
        return Ok(State {
            comment: true,
            place: here,
            frames,
        });
    }
    step_mark(alloc, mode, here, frames, at)
}
