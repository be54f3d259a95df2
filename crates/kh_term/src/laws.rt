//! The laws of terms: what a clause states of every term. The functions have no code.
ghost use Rattle.kh_term.specs.Laws.{OrderIsTotal, EqualIsSame, NamesCompareAsTerms, PathsCompareAsTerms, DepthIsAtMostSize, SizeIsAtMostTwicePacked, PackedIsAtMost515TimesSize, WidthIsAtMostPacked, MapsKeepTheLast, PathsReadBack, OriginsReadBack, OnePackedSpelling};

/// The order of terms is a total one.
pub fn order_is_total()
    ensures { OrderIsTotal }
{}

/// Two terms compare equal exactly where they are the same.
pub fn equal_is_same()
    ensures { EqualIsSame }
{}

/// Names compare as their terms do.
pub fn names_compare_as_terms()
    ensures { NamesCompareAsTerms }
{}

/// Paths compare as their terms do.
pub fn paths_compare_as_terms()
    ensures { PathsCompareAsTerms }
{}

/// A term is no deeper than it is large.
pub fn depth_is_at_most_size()
    ensures { DepthIsAtMostSize }
{}

/// A term's size is at most twice the number of its packed bytes.
pub fn size_is_at_most_twice_packed()
    ensures { SizeIsAtMostTwicePacked }
{}

/// The packed bytes of a term are at most 515 times its size.
pub fn packed_is_at_most_515_times_size()
    ensures { PackedIsAtMost515TimesSize }
{}

/// A term is no wider than its packed bytes are long.
pub fn width_is_at_most_packed()
    ensures { WidthIsAtMostPacked }
{}

/// A map of pairs in any order has at each key the value beside the last pair with that key.
pub fn maps_keep_the_last()
    ensures { MapsKeepTheLast }
{}

/// A term stands for a path exactly where it is the list of the path's names.
pub fn paths_read_back()
    ensures { PathsReadBack }
{}

/// A term stands for an origin exactly where it is the origin's triple.
pub fn origins_read_back()
    ensures { OriginsReadBack }
{}

/// Each term has packed bytes of its own, and none are the front of another's.
pub fn one_packed_spelling()
    ensures { OnePackedSpelling }
{}
