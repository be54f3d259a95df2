//! The laws of conditions: what a clause states of every one. The functions have no code.
ghost use Rattle.kh_cond.specs.Laws.{NotTurns, EmptyAllHolds, EmptyAnyFails, MissingNeedsNoSearch, UnderscoreMatchesAll, PlainPatternMatchesOne, EachMatchesItself, SpellsAtMostOne, ShortIsSpelling, PatternSpellsAtMostOne, ShortPatternIsSpelling, WatchingSpellsAtMostOne, ShortWatchingIsSpelling, ShortIsNoLarger, ShortPatternIsNoLarger, ShortWatchingIsNoLarger};

/// `if_not` turns each judgement round.
pub fn not_turns()
    ensures { NotTurns }
{}

/// An empty `if_all` holds of every view, of a missing one too.
pub fn empty_all_holds()
    ensures { EmptyAllHolds }
{}

/// An empty `if_any` holds of none.
pub fn empty_any_fails()
    ensures { EmptyAnyFails }
{}

/// What holds of a missing node doesn't depend on what is found.
pub fn missing_needs_no_search()
    ensures { MissingNeedsNoSearch }
{}

/// The atom `_` matches all data.
pub fn underscore_matches_all()
    ensures { UnderscoreMatchesAll }
{}

/// A pattern in which `_` stands for no term matches no other term than itself.
pub fn plain_pattern_matches_one()
    ensures { PlainPatternMatchesOne }
{}

/// Each term matches itself.
pub fn each_matches_itself()
    ensures { EachMatchesItself }
{}

/// A term spells at most one condition.
pub fn spells_at_most_one()
    ensures { SpellsAtMostOne }
{}

/// The short spelling of a condition that a term spells is a spelling of it.
pub fn short_is_spelling()
    ensures { ShortIsSpelling }
{}

/// A term spells at most one pattern.
pub fn pattern_spells_at_most_one()
    ensures { PatternSpellsAtMostOne }
{}

/// The short spelling of a pattern that a term spells is a spelling of it.
pub fn short_pattern_is_spelling()
    ensures { ShortPatternIsSpelling }
{}

/// A term spells at most one list of watched paths.
pub fn watching_spells_at_most_one()
    ensures { WatchingSpellsAtMostOne }
{}

/// The short spelling of watched paths that a term spells is a spelling of them.
pub fn short_watching_is_spelling()
    ensures { ShortWatchingIsSpelling }
{}

/// The short spelling of a condition is no larger than any spelling of it: see `specs/NoLarger.antt`.
pub fn short_is_no_larger()
    ensures { ShortIsNoLarger }
{}

/// The short spelling of a pattern is no larger than any spelling of it.
pub fn short_pattern_is_no_larger()
    ensures { ShortPatternIsNoLarger }
{}

/// The short spelling of watched paths is no larger than any spelling of them.
pub fn short_watching_is_no_larger()
    ensures { ShortWatchingIsNoLarger }
{}
