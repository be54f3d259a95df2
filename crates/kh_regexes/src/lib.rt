//! Regular expressions as the store asks for them: a list of prepared texts, and a search of each by its place.
#![tactic(auto)]

mod compile;
mod compiled;
mod error;
mod patterns;
mod plain;
mod regexes;
#[cfg(test)]
mod tests;

pub use error::PrepareError;
pub use patterns::Patterns;
pub use plain::PlainPatterns;
pub use regexes::RegexPatterns;
