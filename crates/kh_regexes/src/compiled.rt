//! A text that is compiled.
ghost use Rattle.kh_regexes.specs.Search.{SearchesItsText};

use regex::bytes::Regex;

/// A compiled text, which searches as the text does.
#[derive(Drop)]
pub struct Compiled {
    pub regex: Regex,
    pub ghost of_text: { SearchesItsText regex },
}
