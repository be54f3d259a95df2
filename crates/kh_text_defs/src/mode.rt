/// Which texts are read: those of a script, or those of a listing too.
#[derive(Clone, Copy, Debug, PartialEq, Eq)]
pub enum Mode {
    /// A script has integers, atoms, binaries, lists, tuples, maps and closures.
    Script,
    /// A listing has floats, binaries of sized segments, `fun m:f/1` and `/utf8` too.
    Listing,
}
