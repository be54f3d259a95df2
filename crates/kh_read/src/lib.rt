//! Reading the forms of a script.
#![tactic(auto)]

mod after;
mod answer;
mod before;
mod begin;
mod between;
mod binaries;
mod blanks;
mod ended;
mod error;
mod fault;
mod follow;
mod form;
mod inside;
mod laws;
mod machine;
mod marks;
mod number;
mod path;
mod places;
mod points;
mod quotes;
mod read;
mod reader;
mod scan;
mod state;
#[cfg(test)]
mod tests;
pub mod text;
#[cfg(test)]
mod text_tests;
mod whole;
mod word;

pub use error::ReadError;
pub use form::Form;
pub use laws::{forms_are_read, one_term, readings_are_exact, readings_stay};
pub use read::{a_form_takes_bytes, at_most_one_form, later_bytes_change_nothing, read_form};
