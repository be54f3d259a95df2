//! What a byte does in a binary.
ghost use Rattle.std.specs.Prelude.{◌≡◌, IfOk, IfErr};
ghost use Rattle.kh_read.specs.Steps.{next_segment, step_after_byte, step_after_segment, step_after_text, step_close, binary_term};
ghost use Rattle.kh_read.specs.Views.{frames_of, Gives};
ghost use Rattle.kh_read.specs.declared.state.Stop.TheVariants.{NoMemory};

use crate::places::{Frame, Place};
use crate::points::{with_latin, with_utf8};
use crate::state::{State, Stop, enter, go, pop, reach};
use kh_term::{Bytes, Term, bin, word};
use kh_text_defs::Mode;
use sqlite_items::Items;
use std::alloc::Global;

// Behind a segment.
fn next_segment(frames: Items<Frame>, bytes: Vec<u8>, sized: bool, byte: u8) -> Result<State, Stop>
    ensures { Gives result (next_segment bytes.items sized (frames_of frames) byte) }
{
    match byte {
        b',' => enter(frames, Frame::Binary(true, bytes, sized)),
        b'>' => reach(frames, Frame::Binary(true, bytes, sized), Place::Close),
        _ => Err(Stop::Syntax),
    }
}

/// A byte of a binary was read.
#[tactic(auto, unfolding(crate::specs::Steps::step_after_byte))]
pub fn step_after_byte(
    mode: Mode,
    frames: Items<Frame>,
    number: u8,
    byte: u8,
) -> Result<State, Stop>
    ensures { Gives result (step_after_byte mode (frames_of frames) number byte) }
{
    let mut frames = frames;
    match pop(&mut frames) {
        Some(Frame::Binary(_, bytes, sized)) => {
            if byte == b':' && mode == Mode::Listing {
                return reach(frames, Frame::Binary(true, bytes, true), Place::SizeMark);
            }
            let mut bytes = bytes;
            bytes.push(number)?;
            next_segment(frames, bytes, sized, byte)
        }
        _ => Err(Stop::Syntax),
    }
}

/// A text of a binary was read.
#[tactic(auto, unfolding(crate::specs::Steps::step_after_text))]
pub fn step_after_text(
    mode: Mode,
    frames: Items<Frame>,
    points: Vec<u32>,
    byte: u8,
) -> Result<State, Stop>
    ensures { Gives result (step_after_text mode (frames_of frames) points.items byte) }
{
    let mut frames = frames;
    let (bytes, sized) = match pop(&mut frames) {
        Some(Frame::Binary(_, bytes, sized)) => (bytes, sized),
        _ => return Err(Stop::Syntax),
    };
    if byte == b'/' && mode == Mode::Listing {
        return match with_utf8(bytes, points.as_slice())? {
            Some(bytes) => reach(frames, Frame::Binary(true, bytes, sized), Place::UtfMark),
            None => Err(Stop::Syntax),
        };
    }
    match with_latin(bytes, points.as_slice())? {
        Some(bytes) => next_segment(frames, bytes, sized, byte),
        None => Err(Stop::Syntax),
    }
}

/// A segment without bytes of its own was read.
#[tactic(auto, unfolding(crate::specs::Steps::step_after_segment))]
pub fn step_after_segment(frames: Items<Frame>, byte: u8) -> Result<State, Stop>
    ensures { Gives result (step_after_segment (frames_of frames) byte) }
{
    let mut frames = frames;
    match pop(&mut frames) {
        Some(Frame::Binary(_, bytes, sized)) => next_segment(frames, bytes, sized, byte),
        _ => Err(Stop::Syntax),
    }
}

// What a binary is.
fn binary_term(alloc: Global, bytes: Vec<u8>, sized: bool) -> Result<Term, Stop>
    ensures term { IfOk result (λ t. t.node ≡ binary_term bytes.items sized) }
    ensures err { IfErr result (λ e. e ≡ NoMemory) }
{
    if sized {
        return Ok(word(alloc, "$unsupported")?);
    }
    Ok(bin(Bytes::new(bytes)))
}

/// The second byte of `>>`.
#[tactic(auto, unfolding(crate::specs::Steps::step_close))]
pub fn step_close(alloc: Global, frames: Items<Frame>, byte: u8) -> Result<State, Stop>
    ensures { Gives result (step_close (frames_of frames) byte) }
{
    let mut frames = frames;
    match (pop(&mut frames), byte) {
        (Some(Frame::Binary(_, bytes, sized)), b'>') => {
            Ok(go(Place::After(binary_term(alloc, bytes, sized)?), frames))
        }
        _ => Err(Stop::Syntax),
    }
}
