//! The end of a text in quotes, of a word and of an integer.
ghost use Rattle.std.specs.Prelude.{◌≡◌};
ghost use Rattle.kh_read.specs.Steps.{integer_ended, name_ended};
ghost use Rattle.kh_read.specs.Views.{frames_of, place_of, quote_closed, quoting_of, Gives};

use crate::places::{Frame, Place, Quoting, Use};
use crate::points::{points_term, with_utf8};
use crate::state::{State, Stop, go, takes_arity, takes_name, takes_segment};
use crate::whole::Whole;
use kh_term::{Atom, atom, int};
use sqlite_items::Items;
use std::alloc::Global;

/// A name was read.
pub fn name_ended(frames: &Items<Frame>, name: Atom) -> Place
    ensures { place_of result ≡ name_ended (frames_of frames.now) name }
{
    if takes_name(frames) {
        return Place::AfterName(name);
    }
    Place::After(atom(name))
}

/// An integer was read.
pub fn integer_ended(frames: &Items<Frame>, whole: Whole) -> Place
    ensures { place_of result
        ≡ integer_ended (frames_of frames.now) whole.negative whole.magnitude }
{
    if takes_segment(frames) {
        return Place::AfterByte(whole.byte());
    }
    if takes_arity(frames) {
        return Place::AfterArity(whole.value());
    }
    Place::After(int(whole.value()))
}

/// The quote that ends a text.
#[tactic(auto, using(crate::proofs::ShortWords::points_atom))]
pub fn quote_ended(alloc: Global, frames: Items<Frame>, quoting: Quoting) -> Result<State, Stop>
    ensures { Gives result (quote_closed (frames_of frames) (quoting_of quoting)) }
{
    match quoting.purpose {
        Use::List => {
            let term = points_term(alloc, quoting.points.as_slice())?;
            Ok(go(Place::After(term), frames))
        }
        Use::Segment => Ok(go(Place::AfterText(quoting.points), frames)),
        Use::Name(_) => {
            let bytes = match with_utf8(Vec::new(alloc), quoting.points.as_slice())? {
                Some(bytes) => bytes,
                None => return Err(Stop::Syntax),
            };
            match Atom::new(bytes) {
                Some(name) => {
                    let place = name_ended(&frames, name);
                    Ok(go(place, frames))
                }
                None => Err(Stop::Syntax),
            }
        }
    }
}
