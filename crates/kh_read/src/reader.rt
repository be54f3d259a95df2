//! Reading a form byte by byte.
ghost use Rattle.kh_read.specs.Steps.{at_end, fresh, read_on};
ghost use Rattle.kh_read.specs.Views.{frames_of, place_of, setting, GivesReading};

use crate::machine::step;
use crate::places::Place;
use crate::state::{Next, State, Stop};
use kh_term::{Term, int};
use kh_text_defs::Mode;
use sqlite_items::Items;
use std::alloc::Global;

/// What reading came to.
#[derive(Drop)]
pub enum Reading {
    /// A form, with the place behind its dot.
    Ended(Term, usize),
    /// The bytes end inside it.
    Cut,
    /// Why reading stops, and at which byte.
    Halted(Stop, usize),
}

// What the end of the input makes of a state.
fn at_end(state: State, place: usize) -> Reading
    ensures { GivesReading result (at_end (place_of state.place) (frames_of state.frames) place) }
{
    let State {
        comment: _,
        place: here,
        frames,
    } = state;
    match here {
        Place::Dotted(term) => Reading::Ended(term, place),
        Place::Point(number) if frames.is_empty() => Reading::Ended(int(number), place),
        _here => Reading::Cut,
    }
}

/// Reads the form at the front of bytes.
#[tactic(auto, unfolding(crate::specs::Steps::read_on))]
pub fn read(alloc: Global, mode: Mode, bytes: &[u8]) -> Reading
    ensures { GivesReading result (read_on (setting mode) fresh 0 bytes.now) }
{
    let mut state = State {
        comment: false,
        place: Place::Before,
        frames: Items::new(alloc),
    };
    for place in 0..bytes.len() {
        match step(alloc, mode, state, (place, bytes[place])) {
            Ok(Next::Go(next)) => state = next,
            Ok(Next::Done(term)) => return Reading::Ended(term, place),
            Err(stop) => return Reading::Halted(stop, place),
        }
    }
    at_end(state, bytes.len())
}
