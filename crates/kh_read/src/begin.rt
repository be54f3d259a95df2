//! What a byte does where a value has to come.
ghost use Rattle.std.specs.Prelude.{◌≡◌, ◌∷◌, [], ◌||◌, ◌==◌, false, IsTrue, not};
ghost use Rattle.std.specs.Char.{is_ascii_digit, is_ascii_lowercase};
ghost use Rattle.kh_text_defs.specs.declared.mode.Mode.TheVariants.{Script};
ghost use Rattle.kh_text_defs.specs.Spelled.{within_limits};
ghost use Rattle.kh_read.specs.State.{Quote, Plain, Go};
ghost use Rattle.kh_read.specs.Steps.{at, with_digit, begin_name, begin_integer, begin_term, begin_segment};
ghost use Rattle.kh_read.specs.Views.{frames_of, use_of, state_of, setting, text_begun, Gives};

use crate::places::{Frame, Inner, Place, Quoting, Use};
use crate::state::{MAX_LEVELS, State, Stop, go, open, takes_segment};
use crate::whole::{Whole, is_byte, is_in_range};
use crate::word::Word;
use kh_term::Terms;
use sqlite_items::Items;
use std::alloc::Global;

// A text in quotes begins.
fn quote(alloc: Global, frames: Items<Frame>, purpose: Use) -> State
    ensures { Go (state_of result)
        ≡ at (Quote (record { use_ = use_of purpose; points = [] }) Plain) (frames_of frames) }
{
    let points = Vec::new(alloc);
    go(
        Place::Quote(Quoting { purpose, points }, Inner::Plain),
        frames,
    )
}

/// The bytes that begin an atom.
pub fn begin_name(alloc: Global, frames: Items<Frame>, byte: u8) -> Result<State, Stop>
    ensures { Gives result (begin_name (frames_of frames) byte) }
{
    if byte.is_ascii_lowercase() {
        return Ok(go(Place::Word(Word::begin(alloc, byte)?), frames));
    }
    if byte == b'\'' {
        return Ok(quote(alloc, frames, Use::Name(255)));
    }
    Err(Stop::Syntax)
}

/// One more digit of an integer.
pub fn with_digit(
    frames: Items<Frame>,
    first: usize,
    negative: bool,
    magnitude: u128,
) -> Result<State, Stop>
    ensures { Gives result
        (with_digit (within_limits Script) (frames_of frames) first negative magnitude) }
{
    if takes_segment(&frames) {
        if is_byte(negative, magnitude) {
            return Ok(go(
                Place::Digits(
                    first,
                    Whole {
                        negative,
                        magnitude,
                    },
                ),
                frames,
            ));
        }
        return Err(Stop::Syntax);
    }
    if is_in_range(negative, magnitude) {
        return Ok(go(
            Place::Digits(
                first,
                Whole {
                    negative,
                    magnitude,
                },
            ),
            frames,
        ));
    }
    Err(Stop::Number(first))
}

/// The bytes that begin an integer.
pub fn begin_integer(frames: Items<Frame>, place: usize, byte: u8) -> Result<State, Stop>
    ensures { Gives result (begin_integer (within_limits Script) (frames_of frames) place byte) }
{
    if byte == b'-' {
        return Ok(go(Place::Minus(place), frames));
    }
    if byte.is_ascii_digit() {
        return with_digit(frames, place, false, u128::from(byte - b'0'));
    }
    Err(Stop::Syntax)
}

// A text in double quotes begins, where a level is left.
#[tactic(auto, using(crate::proofs::Frames::stacks))]
fn begin_text(alloc: Global, frames: Items<Frame>) -> Result<State, Stop>
    ensures { Gives result (text_begun (frames_of frames)) }
{
    if frames.len() < MAX_LEVELS {
        return Ok(quote(alloc, frames, Use::List));
    }
    Err(Stop::Deep)
}

// A bracket, a text in double quotes, or another mark that begins a term.
#[tactic(auto, unfolding(crate::specs::Steps::begin_term))]
fn begin_marked(alloc: Global, frames: Items<Frame>, place: usize, byte: u8) -> Result<State, Stop>
    requires integer { IsTrue (not (byte == 45 || is_ascii_digit byte)) }
    requires atom { IsTrue (not (is_ascii_lowercase byte || byte == 39)) }
    ensures { Gives result (begin_term (setting Script) (frames_of frames) place byte) }
{
    match byte {
        b'[' => open(frames, Frame::List(Terms::new(alloc))),
        b'{' => open(frames, Frame::Tuple(Terms::new(alloc))),
        b'"' => begin_text(alloc, frames),
        b'<' => Ok(go(Place::Angle, frames)),
        b'#' => Ok(go(Place::Sharp(0), frames)),
        _ => Err(Stop::Syntax),
    }
}

/// The bytes that begin a term.
#[tactic(auto, unfolding(crate::specs::Steps::begin_term))]
pub fn begin_term(
    alloc: Global,
    frames: Items<Frame>,
    place: usize,
    byte: u8,
) -> Result<State, Stop>
    ensures { Gives result (begin_term (setting Script) (frames_of frames) place byte) }
{
    if byte == b'-' || byte.is_ascii_digit() {
        return begin_integer(frames, place, byte);
    }
    if byte.is_ascii_lowercase() || byte == b'\'' {
        return begin_name(alloc, frames, byte);
    }
    begin_marked(alloc, frames, place, byte)
}

/// The bytes that begin a segment of a binary.
pub fn begin_segment(
    alloc: Global,
    frames: Items<Frame>,
    place: usize,
    byte: u8,
) -> Result<State, Stop>
    ensures { Gives result (begin_segment (within_limits Script) (frames_of frames) place byte) }
{
    if byte == b'"' {
        return Ok(quote(alloc, frames, Use::Segment));
    }
    begin_integer(frames, place, byte)
}
