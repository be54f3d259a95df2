//! States in the midst of a form.
ghost use Rattle.std.specs.Prelude.{◌≡◌, ◌∷◌, [], MatchOption, OnOk, length};
ghost use Rattle.kh_read.specs.State.{Before, Go};
ghost use Rattle.kh_read.specs.Steps.{at, opened, takes_name, takes_segment, takes_arity};
ghost use Rattle.kh_read.specs.Views.{frame_of, frames_of, place_of, state_of, Gives};
ghost use Rattle.kh_read.specs.declared.state.Stop.TheVariants.{NoMemory};

use crate::places::{Frame, Place};
use kh_term::Term;
use sqlite_items::Items;
use std::alloc::{AllocError, AllocFailed};

/// How many levels may be open at a time.
pub const MAX_LEVELS: usize = 200;

/// A place, whether a comment stands there, and what stands open round it, innermost last.
#[derive(Drop)]
pub struct State {
    pub comment: bool,
    pub place: Place,
    pub frames: Items<Frame>,
}

/// What comes of a byte: reading goes on, or the form has ended before it.
#[derive(Drop)]
pub enum Next {
    Go(State),
    Done(Term),
}

/// Why reading stops.
#[derive(Clone, Copy, Debug, PartialEq, Eq)]
pub enum Stop {
    Syntax,
    /// An integer that begins there leaves its range.
    Number(usize),
    Deep,
    Large,
    NoMemory,
}

impl From<AllocError> for Stop {
    ghost from_gives = { λ _ e. e ≡ NoMemory };

    fn from(_error: AllocError) -> Stop {
        Stop::NoMemory
    }
}

impl<T: Drop> From<AllocFailed<T>> for Stop {
    ghost from_gives = { λ _ e. e ≡ NoMemory };

    fn from(_error: AllocFailed<T>) -> Stop {
        Stop::NoMemory
    }
}

impl From<kh_term::NoMemory> for Stop {
    ghost from_gives = { λ _ e. e ≡ NoMemory };

    fn from(_error: kh_term::NoMemory) -> Stop {
        Stop::NoMemory
    }
}

/// A state at a place, outside comments.
pub fn go(place: Place, frames: Items<Frame>) -> State
    ensures { Go (state_of result) ≡ at (place_of place) (frames_of frames) }
{
    State {
        comment: false,
        place,
        frames,
    }
}

/// Takes the innermost frame.
pub fn pop(frames: &mut Items<Frame>) -> Option<Frame>
    ensures { MatchOption result ((frames_of frames.old ≡ []) × (frames_of frames.new ≡ []))
        (λ f. frames_of frames.old ≡ frame_of f ∷ frames_of frames.new) }
{
    frames.pop()
}

/// A value has to come in a frame.
pub fn enter(frames: Items<Frame>, frame: Frame) -> Result<State, Stop>
    ensures { Gives result (at Before (frame_of frame ∷ frames_of frames)) }
{
    reach(frames, frame, Place::Before)
}

/// A place in a frame.
#[tactic(auto, using(crate::proofs::Frames::stacks))]
pub fn reach(frames: Items<Frame>, frame: Frame, place: Place) -> Result<State, Stop>
    ensures { Gives result (at (place_of place) (frame_of frame ∷ frames_of frames)) }
{
    let mut frames = frames;
    frames.push(frame)?;
    Ok(go(place, frames))
}

/// A value has to come in a frame that opens a level, where one is left.
#[tactic(auto, using(crate::proofs::Frames::stacks))]
pub fn open(frames: Items<Frame>, frame: Frame) -> Result<State, Stop>
    ensures { Gives result (opened 200 (frame_of frame) (frames_of frames)) }
{
    if frames.len() < MAX_LEVELS {
        return enter(frames, frame);
    }
    Err(Stop::Deep)
}

/// Whether a name of a closure or of `fun m:f/1` has to come.
pub fn takes_name(frames: &Items<Frame>) -> bool
    ensures { result ≡ takes_name (frames_of frames.now) }
{
    match frames.as_slice() {
        [.., Frame::Module] => true,
        [.., Frame::Name(_)] => true,
        [.., Frame::Reference] => true,
        [.., Frame::ReferenceName] => true,
        _ => false,
    }
}

/// Whether the arity of a closure has to come.
pub fn takes_arity(frames: &Items<Frame>) -> bool
    ensures { result ≡ takes_arity (frames_of frames.now) }
{
    match frames.as_slice() {
        [.., Frame::Arity(_, _)] => true,
        _ => false,
    }
}

/// Whether a segment of a binary has to come.
pub fn takes_segment(frames: &Items<Frame>) -> bool
    ensures { result ≡ takes_segment (frames_of frames.now) }
{
    match frames.as_slice() {
        [.., Frame::Binary(_, _, _)] => true,
        _ => false,
    }
}
