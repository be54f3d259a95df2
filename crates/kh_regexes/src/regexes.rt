//! The engine of the program, over the toolchain's `regex`.
ghost use Rattle.std.specs.Prelude.{◌≡◌, [], None, IfOk};
ghost use Rattle.kh_regexes.specs.Engine.{Engine};

use crate::compile::{compile, is_found};
use crate::compiled::Compiled;
use crate::{Patterns, PrepareError};
use kh_term::NoMemory;
use std::alloc::Global;
use std::marker::Model;

/// The engine over the toolchain's `regex`: texts are searched unanchored, over bytes. A text is refused where it is no regular
/// expression, where its program would pass 10 MiB, or where it is nested too deep.
#[derive(Drop)]
pub struct RegexPatterns {
    alloc: Global,
    all: Vec<Compiled>,
    refusals: u64,
    refused: Option<String>,
}

impl Model for RegexPatterns {
    ghost use Rattle.std.specs.Prelude.{◌<◌, ◌^◌, length, map, option_map, string_bytes};
    ghost use Rattle.regex.specs.Bytes.{regex_source};
    ghost use Rattle.kh_regexes.specs.Engine.{Engine};

    ghost Value = { Engine };

    ghost view = { λ e. record {
      texts = map (λ c. regex_source c.regex) e.all.items;
      refusals = e.refusals;
      refused = option_map string_bytes e.refused;
    } };

    ghost invariant = { λ e. length e.all.items < 2 ^ 32 };
}

impl RegexPatterns {
    /// An engine without texts.
    pub fn new(alloc: Global) -> Result<RegexPatterns, NoMemory>
        ensures { IfOk result (λ e. e ≡ record { texts = []; refusals = 0; refused = None }) }
    {
        Ok(RegexPatterns {
            alloc,
            all: Vec::new(alloc),
            refusals: 0,
            refused: None,
        })
    }
}

impl Patterns for RegexPatterns {
    ghost use Rattle.kh_regexes.specs.Search as by_text;

    ghost texts = { λ e. e.texts };

    ghost refusals = { λ e. e.refusals };

    ghost refused = { λ e. e.refused };

    ghost search = { by_text.search };

    fn count(&self) -> u32 {
        self.all.len() as u32
    }

    fn prepare(&mut self, text: &str) -> Result<(), PrepareError> {
        let kept = String::from_str(self.alloc, text)?;
        match compile(self.alloc, text) {
            Ok(compiled) => {
                self.all.push(compiled)?;
                Ok(())
            }
            Err(PrepareError::Refused) => {
                self.refusals = self.refusals.saturating_add(1);
                self.refused = Some(kept);
                Err(PrepareError::Refused)
            }
            Err(PrepareError::NoMemory) => Err(PrepareError::NoMemory),
        }
    }

    #[tactic(auto, using(crate::proofs::Places::looked))]
    fn find(&self, text: &str) -> Option<u32> {
        let mut place = 0;
        for compiled in &self.all {
            if compiled.regex.as_str().as_bytes() == text.as_bytes() {
                return Some(place);
            }
            place += 1;
        }
        None
    }

    fn matches(&mut self, id: u32, subject: &[u8]) -> Result<bool, NoMemory> {
        is_found(self.alloc, &self.all[id as usize], subject)
    }

    #[tactic(auto, using(crate::proofs::Places::firsts))]
    fn cut(&mut self, count: u32) {
        self.all.truncate(count as usize);
    }
}
