//! The keys and values of a map.
ghost use Rattle.std.specs.Prelude.{◌≡◌, [], ◌∷◌, ◌++◌, length, slice_get, if◌then◌else◌, IfOk, IfSome, OnOk, OnErr, IsTrue};
ghost use Rattle.std.specs.Option.{option_copied};
ghost use Rattle.kh_term.specs.Lookup.{rises_after};
ghost use Rattle.kh_term.specs.WellFormed.{IsTerm, ArePairs};

use crate::comparing::tree_cmp;
use crate::memory::NoMemory;
use crate::term::{Pairs, Term};
use crate::tree::TermTree;
use sqlite_items::Items;
use std::alloc::Global;

impl Pairs {
    /// No key.
    pub fn new(alloc: Global) -> Pairs
        ensures { result.nodes ≡ [] }
    {
        Pairs {
            nodes: Items::new(alloc),
        }
    }

    /// The number of keys.
    pub fn len(&self) -> usize
        ensures { result ≡ length self.now.nodes }
    {
        self.nodes.len()
    }

    /// The keys with their values, by rising keys.
    pub fn as_slice(&self) -> &[(TermTree, TermTree)]
        ensures pairs { result.now ≡ self.now.nodes }
        ensures fit { ArePairs self.now.nodes }
    {
        self.nodes.as_slice()
    }

    /// The key and the value at a place, counted from 0.
    #[tactic(auto, using(crate::specs::Lemmas::Fits::parts))]
    pub fn get(&self, at: usize) -> Option<&(TermTree, TermTree)>
        ensures pair { option_copied result ≡ slice_get self.now.nodes at }
        ensures key_fits { IfSome result (λ pair. IsTerm pair.now.0) }
        ensures value_fits { IfSome result (λ pair. IsTerm pair.now.1) }
    {
        match self.nodes.get(at) {
            Some(pair) => Some(pair),
            None => None,
        }
    }

    /// Whether a key is above all keys.
    #[tactic(auto, using(crate::proofs::Rising::lasts))]
    pub fn rises(&self, key: &Term) -> bool
        ensures { result ≡ rises_after self.now.nodes key.now.node }
    {
        match self.nodes.as_slice().last() {
            None => true,
            Some(pair) => tree_cmp(&pair.0, &key.node).is_lt(),
        }
    }

    /// Adds a key that is above all others, with its value.
    pub fn push_rising(&mut self, key: Term, value: Term) -> Result<(), NoMemory>
        requires { IsTrue (rises_after self.old.nodes key.node) }
        ensures ok { OnOk result
            (self.new.nodes ≡ self.old.nodes ++ (key.node, value.node) ∷ []) }
        ensures err { OnErr result (self.new ≡ self.old) }
    {
        let Term { node: key } = key;
        let Term { node: value } = value;
        self.nodes.push((key, value))?;
        Ok(())
    }

    /// Adds a key with its value, where it is above all others. Answers whether it is; else nothing is added.
    pub fn push(&mut self, key: Term, value: Term) -> Result<bool, NoMemory>
        ensures answer { IfOk result (λ added. added ≡ rises_after self.old.nodes key.node) }
        ensures ok { OnOk result (self.new.nodes ≡ (if rises_after self.old.nodes key.node
            then self.old.nodes ++ (key.node, value.node) ∷ [] else self.old.nodes)) }
        ensures err { OnErr result (self.new ≡ self.old) }
    {
        if !self.rises(&key) {
            return Ok(false);
        }
        self.push_rising(key, value)?;
        Ok(true)
    }
}
