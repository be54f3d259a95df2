//! What a byte does inside tokens.
ghost use Rattle.std.specs.Prelude.{◌≡◌, ◌+◌, ◌*◌, IsTrue};
ghost use Rattle.std.specs.Char.{is_ascii_digit};
ghost use Rattle.kh_text_defs.specs.declared.mode.Mode.TheVariants.{Script};
ghost use Rattle.kh_read.specs.Steps.{digit_of, step_digits, step_sharp, step_utf, step_word, takes_fraction, with_digit, word_ended};
ghost use Rattle.kh_text_defs.specs.Spelled.{within_limits};
ghost use Rattle.kh_read.specs.Views.{frames_of, place_of, setting, Gives};

use crate::begin::with_digit;
use crate::between::step_between;
use crate::ended::{integer_ended, name_ended};
use crate::places::{Frame, Place};
use crate::state::{State, Stop, go, open, takes_arity, takes_name, takes_segment};
use crate::whole::Whole;
use crate::word::Word;
use kh_text_defs::{Mode, is_word_byte};
use sqlite_items::Items;
use std::alloc::Global;

// The greatest magnitude that may have a digit more without a look at its value.
const MOST_WITH_A_DIGIT: u128 = (1 << 124) - 1;

// One more digit of an integer.
fn next_digit(frames: Items<Frame>, first: usize, whole: Whole, byte: u8) -> Result<State, Stop>
    requires { IsTrue (is_ascii_digit byte) }
    ensures { Gives result
        (with_digit (within_limits Script) (frames_of frames)
        first whole.negative (whole.magnitude * 10 + digit_of byte)) }
{
    if whole.magnitude > MOST_WITH_A_DIGIT {
        if takes_segment(&frames) {
            return Err(Stop::Syntax);
        }
        return Err(Stop::Number(first));
    }
    let magnitude = whole.magnitude * 10 + u128::from(byte - b'0');
    with_digit(frames, first, whole.negative, magnitude)
}

// Whether a dot may begin a fraction there.
fn takes_fraction(mode: Mode, frames: &Items<Frame>) -> bool
    ensures { result ≡ takes_fraction (within_limits mode) (frames_of frames.now) }
{
    mode == Mode::Listing && !takes_segment(frames) && !takes_arity(frames)
}

/// Behind digits of an integer.
#[tactic(auto, unfolding(crate::specs::Steps::step_digits))]
pub fn step_digits(
    alloc: Global,
    mode: Mode,
    frames: Items<Frame>,
    number: (usize, Whole),
    at: (usize, u8),
) -> Result<State, Stop>
    ensures { Gives result
        (step_digits (setting mode) (frames_of frames)
        (number.0, number.1.negative, number.1.magnitude) at.0 at.1) }
{
    let (first, whole) = number;
    if at.1.is_ascii_digit() {
        return next_digit(frames, first, whole, at.1);
    }
    if at.1 == b'.' && takes_fraction(mode, &frames) {
        return Ok(go(Place::Point(whole.value()), frames));
    }
    let here = integer_ended(&frames, whole);
    step_between(alloc, mode, here, frames, at)
}

// A word was read.
fn word_ended(mode: Mode, frames: &Items<Frame>, word: Word) -> Place
    ensures { place_of result
        ≡ word_ended (within_limits mode) (frames_of frames.now) word.bytes.items }
{
    if !takes_name(frames) && mode == Mode::Listing && word.bytes.as_slice() == b"fun".as_slice() {
        return Place::Fun;
    }
    name_ended(frames, word.atom())
}

/// Behind bytes of a word.
#[tactic(auto, unfolding(crate::specs::Steps::step_word))]
pub fn step_word(
    alloc: Global,
    mode: Mode,
    frames: Items<Frame>,
    word: Word,
    at: (usize, u8),
) -> Result<State, Stop>
    ensures { Gives result
        (step_word (setting mode) (frames_of frames) word.bytes.items at.0 at.1) }
{
    if is_word_byte(at.1) {
        if word.bytes.len() < 255 {
            return Ok(go(Place::Word(word.grow(at.1)?), frames));
        }
        return Err(Stop::Syntax);
    }
    let here = word_ended(mode, &frames, word);
    step_between(alloc, mode, here, frames, at)
}

/// Behind `#` and so many bytes of `fun`.
#[tactic(auto, unfolding(crate::specs::Steps::step_sharp))]
pub fn step_sharp(alloc: Global, frames: Items<Frame>, count: u8, byte: u8) -> Result<State, Stop>
    ensures { Gives result (step_sharp (setting Script) (frames_of frames) count byte) }
{
    match (count, byte) {
        (0, b'{') => open(frames, Frame::Key(Vec::new(alloc))),
        (0, b'f') => Ok(go(Place::Sharp(1), frames)),
        (1, b'u') => Ok(go(Place::Sharp(2), frames)),
        (2, b'n') => Ok(go(Place::Sharp(3), frames)),
        (3.., b'{') => open(frames, Frame::Module),
        _ => Err(Stop::Syntax),
    }
}

/// Behind so many bytes of `utf8`.
#[tactic(auto, unfolding(crate::specs::Steps::step_utf))]
pub fn step_utf(frames: Items<Frame>, count: u8, byte: u8) -> Result<State, Stop>
    ensures { Gives result (step_utf (frames_of frames) count byte) }
{
    match (count, byte) {
        (1, b't') => Ok(go(Place::Utf(2), frames)),
        (2, b'f') => Ok(go(Place::Utf(3), frames)),
        (0 | 3.., b'8') => Ok(go(Place::AfterSegment, frames)),
        _ => Err(Stop::Syntax),
    }
}
