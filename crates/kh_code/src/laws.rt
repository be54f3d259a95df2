//! The law of loading.
ghost use Rattle.kh_code.specs.Laws.{LoadingChangesOneName};

/// A name finds the module that was loaded last under it. Loading finds every other name what it found, and leaves the
/// order of the names.
pub fn loading_changes_one_name()
    ensures { LoadingChangesOneName }
{}
