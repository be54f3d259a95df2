//! The laws of maps and of lists of bytes: what a clause states of every term. The functions have no code.
ghost use Rattle.kh_bif_data.specs.Laws.{FoundIsWhatWasPut, OnlyTheKeyIsRemoved, TheSecondMapCounts, OneMapOfEachLookUp, IolistsHaveTheirBytes};

/// At the key that was put stands its value, and at each other what stood there.
pub fn found_is_what_was_put()
    ensures { FoundIsWhatWasPut }
{}

/// At the key that was removed nothing stands, and at each other what stood there.
pub fn only_the_key_is_removed()
    ensures { OnlyTheKeyIsRemoved }
{}

/// Of two maps the second counts, where it has the key.
pub fn the_second_map_counts()
    ensures { TheSecondMapCounts }
{}

/// Maps in which each key has the same value are the same.
pub fn one_map_of_each_look_up()
    ensures { OneMapOfEachLookUp }
{}

/// A term gives exactly the bytes that are computed, so at most one list of them.
pub fn iolists_have_their_bytes()
    ensures { IolistsHaveTheirBytes }
{}
