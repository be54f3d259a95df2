use kh_term::Path;

/// A form of a script.
#[derive(Drop)]
pub enum Form {
    /// Set the data of the node at a path.
    Put(Path, i128),
    /// Give the data of the node at a path.
    Get(Path),
}
