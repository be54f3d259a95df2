use thiserror::Error;

/// Why no form was read. Places count from the beginning of the bytes.
#[derive(Clone, Copy, Debug, PartialEq, Eq, Error)]
pub enum ReadError {
    /// The first byte with which the bytes begin no form.
    #[error("a syntax fault at byte {0}")]
    Syntax(usize),
    /// The bytes begin a form and end inside it.
    #[error("an unfinished form")]
    Incomplete,
    /// The first byte of an integer that has more than 128 bits.
    #[error("an integer out of range at byte {0}")]
    Number(usize),
    /// The byte that opens a level too many.
    #[error("a term that is too deep at byte {0}")]
    TooDeep(usize),
    /// The first byte of a form whose term is too large.
    #[error("a term that is too large at byte {0}")]
    TooLarge(usize),
    #[error("out of memory")]
    NoMemory,
}
