//! What a byte does behind a value.
ghost use Rattle.std.specs.Prelude.{◌≡◌, ◌∷◌, [], true};
ghost use Rattle.kh_term.specs.MapOf.{trees_of};
ghost use Rattle.kh_read.specs.State.{InList, InTail, InTuple, InKey, InValue, InCaptured, InClosing};
ghost use Rattle.kh_read.specs.Steps.{close_closure, step_after, step_after_name, step_after_arity, step_arrow};
ghost use Rattle.kh_read.specs.Views.{frame_of, frames_of, Gives};

use crate::places::{Frame, Place};
use crate::state::{State, Stop, enter, go, pop, reach};
use kh_term::{
    Atom, Origin, Term, Terms, closure, is_large, list, list_with_tail, map, pairs_of, tuple,
};
use sqlite_items::Items;
use std::alloc::Global;

#[tactic(auto, unfolding(crate::specs::Steps::step_after))]
fn after_form(frames: Items<Frame>, term: Term, byte: u8) -> Result<State, Stop>
    requires { frames_of frames ≡ [] }
    ensures { Gives result (step_after true [] term.node byte) }
{
    if byte != b'.' {
        return Err(Stop::Syntax);
    }
    if is_large(&term) {
        return Err(Stop::Large);
    }
    Ok(go(Place::Dotted(term), frames))
}

#[tactic(auto, unfolding(crate::specs::Steps::step_after))]
fn after_element(
    alloc: Global,
    frames: Items<Frame>,
    parts: Terms,
    term: Term,
    byte: u8,
) -> Result<State, Stop>
    ensures { Gives result
        (step_after true (InList parts.nodes ∷ frames_of frames) term.node byte) }
{
    let mut parts = parts;
    parts.push(term)?;
    match byte {
        b',' => enter(frames, Frame::List(parts)),
        b'|' => enter(frames, Frame::Tail(parts)),
        b']' => Ok(go(Place::After(list(alloc, parts)?), frames)),
        _ => Err(Stop::Syntax),
    }
}

#[tactic(auto, unfolding(crate::specs::Steps::step_after))]
fn after_tail(
    alloc: Global,
    frames: Items<Frame>,
    parts: Terms,
    term: Term,
    byte: u8,
) -> Result<State, Stop>
    ensures { Gives result
        (step_after true (InTail parts.nodes ∷ frames_of frames) term.node byte) }
{
    if byte != b']' {
        return Err(Stop::Syntax);
    }
    Ok(go(Place::After(list_with_tail(alloc, parts, term)?), frames))
}

#[tactic(auto, unfolding(crate::specs::Steps::step_after))]
fn after_part(frames: Items<Frame>, parts: Terms, term: Term, byte: u8) -> Result<State, Stop>
    ensures { Gives result
        (step_after true (InTuple parts.nodes ∷ frames_of frames) term.node byte) }
{
    let mut parts = parts;
    parts.push(term)?;
    match byte {
        b',' => enter(frames, Frame::Tuple(parts)),
        b'}' => Ok(go(Place::After(tuple(parts)), frames)),
        _ => Err(Stop::Syntax),
    }
}

#[tactic(auto, unfolding(crate::specs::Steps::step_after))]
fn after_key(
    frames: Items<Frame>,
    pairs: Vec<(Term, Term)>,
    term: Term,
    byte: u8,
) -> Result<State, Stop>
    ensures { Gives result
        (step_after true (InKey (trees_of pairs.items) ∷ frames_of frames) term.node byte) }
{
    if byte != b'=' {
        return Err(Stop::Syntax);
    }
    reach(frames, Frame::Key(pairs), Place::Arrow(term))
}

#[tactic(auto, using(crate::proofs::Frames::pairs_more), unfolding(crate::specs::Steps::step_after))]
fn after_value(
    alloc: Global,
    frames: Items<Frame>,
    pairs: Vec<(Term, Term)>,
    pair: (Term, Term),
    byte: u8,
) -> Result<State, Stop>
    ensures { Gives result
        (step_after true (InValue (trees_of pairs.items) pair.0.node
        ∷ frames_of frames) pair.1.node byte) }
{
    let mut pairs = pairs;
    pairs.push(pair)?;
    match byte {
        b',' => enter(frames, Frame::Key(pairs)),
        b'}' => Ok(go(Place::After(map(pairs_of(alloc, pairs)?)), frames)),
        _ => Err(Stop::Syntax),
    }
}

#[tactic(auto, unfolding(crate::specs::Steps::step_after))]
fn after_captured(
    frames: Items<Frame>,
    head: (Atom, Atom, i128),
    env: Terms,
    term: Term,
    byte: u8,
) -> Result<State, Stop>
    ensures { Gives result
        (step_after true (InCaptured head.0 head.1 head.2 env.nodes
        ∷ frames_of frames) term.node byte) }
{
    let mut env = env;
    env.push(term)?;
    match byte {
        b',' => enter(frames, Frame::Captured(head.0, head.1, head.2, env)),
        b']' => enter(frames, Frame::Closing(head.0, head.1, head.2, env)),
        _ => Err(Stop::Syntax),
    }
}

/// A term was read.
#[tactic(auto, unfolding(crate::specs::Steps::step_after))]
pub fn step_after(alloc: Global, frames: Items<Frame>, term: Term, byte: u8) -> Result<State, Stop>
    ensures { Gives result (step_after true (frames_of frames) term.node byte) }
{
    let mut frames = frames;
    match pop(&mut frames) {
        None => after_form(frames, term, byte),
        Some(Frame::List(parts)) => after_element(alloc, frames, parts, term, byte),
        Some(Frame::Tail(parts)) => after_tail(alloc, frames, parts, term, byte),
        Some(Frame::Tuple(parts)) => after_part(frames, parts, term, byte),
        Some(Frame::Key(pairs)) => after_key(frames, pairs, term, byte),
        Some(Frame::Value(pairs, key)) => after_value(alloc, frames, pairs, (key, term), byte),
        Some(Frame::Captured(home, name, arity, env)) => {
            after_captured(frames, (home, name, arity), env, term, byte)
        }
        Some(_) => Err(Stop::Syntax),
    }
}

/// A name was read.
#[tactic(auto, unfolding(crate::specs::Steps::step_after_name))]
pub fn step_after_name(frames: Items<Frame>, name: Atom, byte: u8) -> Result<State, Stop>
    ensures { Gives result (step_after_name (frames_of frames) name byte) }
{
    let mut frames = frames;
    match (pop(&mut frames), byte) {
        (Some(Frame::Module), b',') => enter(frames, Frame::Name(name)),
        (Some(Frame::Name(home)), b',') => enter(frames, Frame::Arity(home, name)),
        (Some(Frame::Reference), b':') => enter(frames, Frame::ReferenceName),
        (Some(Frame::ReferenceName), b'/') => Ok(go(Place::CountMark, frames)),
        _ => Err(Stop::Syntax),
    }
}

/// The arity of a closure was read.
#[tactic(auto, unfolding(crate::specs::Steps::step_after_arity))]
pub fn step_after_arity(frames: Items<Frame>, arity: i128, byte: u8) -> Result<State, Stop>
    ensures { Gives result (step_after_arity (frames_of frames) arity byte) }
{
    let mut frames = frames;
    match (pop(&mut frames), byte) {
        (Some(Frame::Arity(home, name)), b',') => enter(frames, Frame::Opening(home, name, arity)),
        _ => Err(Stop::Syntax),
    }
}

/// The second byte of the arrow behind a key.
#[tactic(auto, unfolding(crate::specs::Steps::step_arrow))]
pub fn step_arrow(frames: Items<Frame>, key: Term, byte: u8) -> Result<State, Stop>
    ensures { Gives result (step_arrow (frames_of frames) key.node byte) }
{
    let mut frames = frames;
    match (pop(&mut frames), byte) {
        (Some(Frame::Key(pairs)), b'>') => enter(frames, Frame::Value(pairs, key)),
        _ => Err(Stop::Syntax),
    }
}

/// A closure's end.
pub fn close_closure(
    frames: Items<Frame>,
    head: (Atom, Atom, i128),
    env: Terms,
    byte: u8,
) -> Result<State, Stop>
    ensures { Gives result
        (close_closure (InClosing head.0 head.1 head.2 env.nodes ∷ frames_of frames) byte) }
{
    if byte != b'}' {
        return Err(Stop::Syntax);
    }
    let arity = match u8::try_from(head.2) {
        Ok(arity) => arity,
        Err(_) => return Err(Stop::Syntax),
    };
    if env.len() > usize::from(arity) {
        return Err(Stop::Syntax);
    }
    let origin = Origin {
        module: head.0,
        name: head.1,
        arity,
    };
    Ok(go(Place::After(closure(origin, env)), frames))
}
