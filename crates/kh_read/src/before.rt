//! What a byte does in a bracket where a value has to come.
ghost use Rattle.std.specs.Prelude.{◌≡◌, ◌∷◌, [], ◌==◌, ◌&&◌, length};
ghost use Rattle.kh_term.specs.MapOf.{trees_of};
ghost use Rattle.kh_text_defs.specs.declared.mode.Mode.TheVariants.{Script};
ghost use Rattle.kh_text_defs.specs.Spelled.{within_limits};
ghost use Rattle.kh_read.specs.State.{InList, InTuple, InKey, InOpening, InCaptured, InBinary, InReference};
ghost use Rattle.kh_read.specs.Steps.{begin_name, begin_integer, begin_term, step_before};
ghost use Rattle.kh_read.specs.Views.{frame_of, frames_of, setting, Gives};

use crate::after::close_closure;
use crate::begin::{begin_integer, begin_name, begin_segment, begin_term};
use crate::places::{Frame, Place};
use crate::state::{State, Stop, enter, go, pop, reach};
use kh_term::{Atom, Pairs, Term, Terms, map, nil, tuple};
use sqlite_items::Items;
use std::alloc::Global;

// A term has to come in this frame.
#[tactic(auto, using(crate::proofs::Frames::stacks))]
fn term_in(
    alloc: Global,
    frames: Items<Frame>,
    frame: Frame,
    place: usize,
    byte: u8,
) -> Result<State, Stop>
    ensures { Gives result
        (begin_term (setting Script) (frame_of frame ∷ frames_of frames) place byte) }
{
    let mut frames = frames;
    frames.push(frame)?;
    begin_term(alloc, frames, place, byte)
}

// A name has to come in this frame.
#[tactic(auto, using(crate::proofs::Frames::stacks))]
fn name_in(alloc: Global, frames: Items<Frame>, frame: Frame, byte: u8) -> Result<State, Stop>
    ensures { Gives result (begin_name (frame_of frame ∷ frames_of frames) byte) }
{
    let mut frames = frames;
    frames.push(frame)?;
    begin_name(alloc, frames, byte)
}

// An arity has to come in this frame.
#[tactic(auto, using(crate::proofs::Frames::stacks))]
fn arity_in(frames: Items<Frame>, frame: Frame, place: usize, byte: u8) -> Result<State, Stop>
    ensures { Gives result
        (begin_integer (within_limits Script) (frame_of frame ∷ frames_of frames) place byte) }
{
    let mut frames = frames;
    frames.push(frame)?;
    begin_integer(frames, place, byte)
}

/// The module of `fun m:f/1`.
pub fn step_reference(alloc: Global, frames: Items<Frame>, byte: u8) -> Result<State, Stop>
    ensures { Gives result (begin_name (InReference ∷ frames_of frames) byte) }
{
    name_in(alloc, frames, Frame::Reference, byte)
}

#[tactic(auto, using(crate::proofs::Befores::befores))]
fn before_element(
    alloc: Global,
    frames: Items<Frame>,
    parts: Terms,
    place: usize,
    byte: u8,
) -> Result<State, Stop>
    ensures { Gives result
        (step_before (setting Script) (InList parts.nodes ∷ frames_of frames) place byte) }
{
    if parts.len() == 0 && byte == b']' {
        return Ok(go(Place::After(nil()), frames));
    }
    term_in(alloc, frames, Frame::List(parts), place, byte)
}

#[tactic(auto, using(crate::proofs::Befores::befores))]
fn before_part(
    alloc: Global,
    frames: Items<Frame>,
    parts: Terms,
    place: usize,
    byte: u8,
) -> Result<State, Stop>
    ensures { Gives result
        (step_before (setting Script) (InTuple parts.nodes ∷ frames_of frames) place byte) }
{
    if parts.len() == 0 && byte == b'}' {
        return Ok(go(Place::After(tuple(Terms::new(alloc))), frames));
    }
    term_in(alloc, frames, Frame::Tuple(parts), place, byte)
}

#[tactic(auto, using(crate::proofs::Befores::befores, crate::proofs::Frames::length_trees))]
fn before_key(
    alloc: Global,
    frames: Items<Frame>,
    pairs: Vec<(Term, Term)>,
    place: usize,
    byte: u8,
) -> Result<State, Stop>
    ensures { Gives result
        (step_before (setting Script) (InKey (trees_of pairs.items)
        ∷ frames_of frames) place byte) }
{
    if pairs.len() == 0 && byte == b'}' {
        return Ok(go(Place::After(map(Pairs::new(alloc))), frames));
    }
    term_in(alloc, frames, Frame::Key(pairs), place, byte)
}

#[tactic(auto, unfolding(crate::specs::Steps::step_before))]
fn before_opening(
    alloc: Global,
    frames: Items<Frame>,
    head: (Atom, Atom, i128),
    byte: u8,
) -> Result<State, Stop>
    ensures { Gives result
        (step_before (setting Script) (InOpening head.0 head.1 head.2 ∷ frames_of frames) 0 byte) }
{
    if byte != b'[' {
        return Err(Stop::Syntax);
    }
    enter(
        frames,
        Frame::Captured(head.0, head.1, head.2, Terms::new(alloc)),
    )
}

// Whether a bracket closes at once.
fn closes(parts: &Terms, byte: u8, mark: u8) -> bool
    ensures { result ≡ (length parts.now.nodes == 0 && byte == mark) }
{
    parts.len() == 0 && byte == mark
}

// A captured value has to come.
fn captured_in(
    alloc: Global,
    frames: Items<Frame>,
    head: (Atom, Atom, i128),
    env: Terms,
    at: (usize, u8),
) -> Result<State, Stop>
    ensures { Gives result
        (begin_term (setting Script) (InCaptured head.0 head.1 head.2 env.nodes
        ∷ frames_of frames) at.0 at.1) }
{
    let frame = Frame::Captured(head.0, head.1, head.2, env);
    term_in(alloc, frames, frame, at.0, at.1)
}

#[tactic(auto, using(crate::proofs::Befores::befores))]
fn before_captured(
    alloc: Global,
    frames: Items<Frame>,
    head: (Atom, Atom, i128),
    env: Terms,
    at: (usize, u8),
) -> Result<State, Stop>
    ensures { Gives result
        (step_before (setting Script) (InCaptured head.0 head.1 head.2 env.nodes
        ∷ frames_of frames) at.0 at.1) }
{
    if closes(&env, at.1, b']') {
        return enter(frames, Frame::Closing(head.0, head.1, head.2, env));
    }
    captured_in(alloc, frames, head, env, at)
}

#[tactic(auto, using(crate::proofs::Frames::stacks), unfolding(crate::specs::Steps::step_before))]
fn before_segment(
    alloc: Global,
    frames: Items<Frame>,
    inside: (bool, Vec<u8>, bool),
    place: usize,
    byte: u8,
) -> Result<State, Stop>
    ensures { Gives result
        (step_before (setting Script) (InBinary inside.0 inside.1.items inside.2
        ∷ frames_of frames) place byte) }
{
    let (begun, bytes, sized) = inside;
    let frame = Frame::Binary(begun, bytes, sized);
    if !begun && byte == b'>' {
        return reach(frames, frame, Place::Close);
    }
    let mut frames = frames;
    frames.push(frame)?;
    begin_segment(alloc, frames, place, byte)
}

/// A value has to come, or a bracket closes at once.
#[tactic(auto, using(crate::proofs::Befores::befores), unfolding(crate::specs::Steps::step_before))]
pub fn step_before(
    alloc: Global,
    frames: Items<Frame>,
    place: usize,
    byte: u8,
) -> Result<State, Stop>
    ensures { Gives result (step_before (setting Script) (frames_of frames) place byte) }
{
    let mut frames = frames;
    match pop(&mut frames) {
        None => begin_term(alloc, frames, place, byte),
        Some(Frame::List(parts)) => before_element(alloc, frames, parts, place, byte),
        Some(Frame::Tuple(parts)) => before_part(alloc, frames, parts, place, byte),
        Some(Frame::Key(pairs)) => before_key(alloc, frames, pairs, place, byte),
        Some(Frame::Opening(home, name, arity)) => before_opening(
            alloc,
            frames,
            (home, name, arity),
            byte,
        ),
        Some(Frame::Captured(home, name, arity, env)) => {
            before_captured(alloc, frames, (home, name, arity), env, (place, byte))
        }
        Some(Frame::Closing(home, name, arity, env)) => close_closure(
            frames,
            (home, name, arity),
            env,
            byte,
        ),
        Some(Frame::Binary(begun, bytes, sized)) => {
            before_segment(alloc, frames, (begun, bytes, sized), place, byte)
        }
        Some(Frame::Arity(home, name)) => arity_in(frames, Frame::Arity(home, name), place, byte),
        Some(Frame::Tail(parts)) => term_in(alloc, frames, Frame::Tail(parts), place, byte),
        Some(Frame::Value(pairs, key)) => term_in(
            alloc,
            frames,
            Frame::Value(pairs, key),
            place,
            byte,
        ),
        Some(Frame::Module) => name_in(alloc, frames, Frame::Module, byte),
        Some(Frame::Name(home)) => name_in(alloc, frames, Frame::Name(home), byte),
        Some(Frame::Reference) => name_in(alloc, frames, Frame::Reference, byte),
        Some(Frame::ReferenceName) => name_in(alloc, frames, Frame::ReferenceName, byte),
    }
}
