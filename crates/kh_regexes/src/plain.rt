//! An engine for tests and models, which searches texts as plain bytes.
ghost use Rattle.std.specs.Prelude.{◌≡◌, ◌<◌, ◌≤◌, ◌-◌, ◌^◌, ◌++◌, ◌∷◌, [], length, take, Ok, None, Some, true, false, IfOk};
ghost use Rattle.kh_counts.specs.Counts.{Rose};
ghost use Rattle.kh_regexes.specs.Engine.{MatchPrepared, text_at};
ghost use Rattle.kh_regexes.specs.Plain.{number_behind, is_listed, stands_in};

use crate::{Patterns, PrepareError};
use kh_term::NoMemory;
use std::alloc::Global;
use std::marker::Model;

/// An engine that searches the bytes of a text and refuses the listed calls of `prepare`, numbered from 0. A call that answers
/// `NoMemory` leaves the number to the next one.
#[derive(Drop)]
pub struct PlainPatterns {
    alloc: Global,
    all: Vec<String>,
    refusals: u64,
    refused: Option<String>,
    /// The number of the next call; none past 2^64 - 1.
    next: Option<u64>,
    listed: Vec<u64>,
}

impl Model for PlainPatterns {
    ghost use Rattle.std.specs.Prelude.{◌<◌, ◌^◌, length, map, option_map, string_bytes};
    ghost use Rattle.kh_regexes.specs.Plain.{Plain};

    ghost Value = { Plain };

    ghost view = { λ e. record {
      texts = map string_bytes e.all.items;
      refusals = e.refusals;
      refused = option_map string_bytes e.refused;
      next = e.next;
      listed = e.listed.items;
    } };

    ghost invariant = { λ e. length e.all.items < 2 ^ 32 };
}

impl PlainPatterns {
    /// An engine without texts that will refuse these calls.
    pub fn new(alloc: Global, refused: Vec<u64>) -> Result<PlainPatterns, NoMemory>
        ensures { IfOk result (λ e.
            e ≡ record { texts = []; refusals = 0; refused = None; next = Some 0; listed = refused.items }) }
    {
        Ok(PlainPatterns {
            alloc,
            all: Vec::new(alloc),
            refusals: 0,
            refused: None,
            next: Some(0),
            listed: refused,
        })
    }

    // Whether the next call is listed.
    fn refuses_next(&self) -> bool
        ensures { result ≡ is_listed self.now.listed self.now.next }
    {
        match self.next {
            Some(number) => self.listed.contains(&number),
            None => false,
        }
    }
}

// The number behind this one.
fn number_behind(number: Option<u64>) -> Option<u64>
    ensures { result ≡ number_behind number }
{
    match number {
        Some(n) => n.checked_add(1),
        None => None,
    }
}

// Whether the bytes of a text stand somewhere in the subject.
#[tactic(auto, using(crate::proofs::Places::left, crate::proofs::Places::whole_rest))]
fn stands_in(text: &[u8], subject: &[u8]) -> bool
    ensures { result ≡ stands_in text.now subject.now }
{
    for at in 0..subject.len() {
        if subject[at..].starts_with(text) {
            return true;
        }
    }
    text.is_empty()
}

impl Patterns for PlainPatterns {
    ghost use Rattle.kh_regexes.specs.Plain as plain;

    ghost texts = { λ e. e.texts };

    ghost refusals = { λ e. e.refusals };

    ghost refused = { λ e. e.refused };

    ghost search = { plain.stands_in };

    fn count(&self) -> u32 {
        self.all.len() as u32
    }

    fn prepare(&mut self, text: &str) -> Result<(), PrepareError>
        requires { length self.old.texts < 2 ^ 32 - 1 }
        ensures texts { MatchPrepared result (self.new.texts ≡ self.old.texts ++ text.now ∷ [])
            (self.new.texts ≡ self.old.texts) (self.new.texts ≡ self.old.texts) }
        ensures refusals { MatchPrepared result (self.new.refusals ≡ self.old.refusals)
            (Rose self.old.refusals self.new.refusals) (self.new.refusals ≡ self.old.refusals) }
        ensures refused { MatchPrepared result (self.new.refused ≡ self.old.refused)
            (self.new.refused ≡ Some text.now) (self.new.refused ≡ self.old.refused) }
        ensures never_falls { self.old.refusals ≤ self.new.refusals }
        ensures number { MatchPrepared result (self.new.next ≡ number_behind self.old.next)
            (self.new.next ≡ number_behind self.old.next) (self.new.next ≡ self.old.next) }
        ensures listed { self.new.listed ≡ self.old.listed }
        ensures refuses { MatchPrepared result (is_listed self.old.listed self.old.next ≡ false)
            (is_listed self.old.listed self.old.next ≡ true) (Unit {0}) }
        ensures calm { self.old.listed ≡ [] → self.new.refusals ≡ self.old.refusals }
    {
        let kept = String::from_str(self.alloc, text)?;
        if self.refuses_next() {
            self.next = number_behind(self.next);
            self.refusals = self.refusals.saturating_add(1);
            self.refused = Some(kept);
            return Err(PrepareError::Refused);
        }
        self.all.push(kept)?;
        self.next = number_behind(self.next);
        Ok(())
    }

    #[tactic(auto, using(crate::proofs::Places::looked))]
    fn find(&self, text: &str) -> Option<u32> {
        let mut place = 0;
        for kept in &self.all {
            if kept.as_bytes() == text.as_bytes() {
                return Some(place);
            }
            place += 1;
        }
        None
    }

    fn matches(&mut self, id: u32, subject: &[u8]) -> Result<bool, NoMemory>
        requires { id < length self.old.texts }
        ensures found { result ≡ Ok (stands_in (text_at self.old.texts id) subject.now) }
        ensures engine { self.new ≡ self.old }
    {
        Ok(stands_in(self.all[id as usize].as_bytes(), subject))
    }

    #[tactic(auto, using(crate::proofs::Places::firsts))]
    fn cut(&mut self, count: u32)
        requires { count ≤ length self.old.texts }
        ensures { self.new ≡ record self.old { texts = take count self.old.texts } }
    {
        self.all.truncate(count as usize);
    }
}
