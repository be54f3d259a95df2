//! The law of listings.
ghost use Rattle.kh_listing.specs.Laws.{HasOutcome, HasOneOutcome};

/// The forms of a listing become one thing: their module, or the number of the first form at fault.
pub fn one_outcome()
    ensures some { HasOutcome }
    ensures one { HasOneOutcome }
{}
