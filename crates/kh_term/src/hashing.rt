//! Texts, names and origins as keys of hash maps.
ghost use Rattle.std.specs.Prelude.{◌++◌};
ghost use Rattle.std.specs.Cmp.Rules.{hashing};
ghost use Rattle.std.proofs.Common.{rules};
ghost use Rattle.std.specs.Hash as fed;
ghost use Rattle.kh_term.specs.Name.{name_rank, name_text};
ghost use Rattle.kh_term.specs.Lemmas.Alike.{names_alike, origins_alike};

use crate::bytes::{Atom, Bytes};
use crate::name::{Name, Origin};
use std::hash::{Hash, Hasher};

impl Hash for Atom {
    ghost hash_input = { fed.slice fed.u8 };

    ghost respects_eq = { Prim.search (hashing, rules) };

    fn hash<H: Hasher>(&self, state: &mut H) {
        self.as_slice().hash(state);
    }
}

impl Hash for Bytes {
    ghost hash_input = { fed.slice fed.u8 };

    ghost respects_eq = { Prim.search (hashing, rules) };

    fn hash<H: Hasher>(&self, state: &mut H) {
        self.as_slice().hash(state);
    }
}

impl Hash for Name {
    ghost hash_input = { λ n. fed.u8 (name_rank n) ++ fed.slice fed.u8 (name_text n) };

    ghost respects_eq = { names_alike };

    fn hash<H: Hasher>(&self, state: &mut H) {
        match self {
            Name::Atom(text) => {
                state.write_u8(0);
                text.hash(state);
            }
            Name::Bin(bytes) => {
                state.write_u8(1);
                bytes.hash(state);
            }
        }
    }
}

impl Hash for Origin {
    ghost hash_input = { λ o. fed.slice fed.u8 o.module ++ fed.slice fed.u8 o.name ++ fed.u8 o.arity };

    ghost respects_eq = { origins_alike };

    fn hash<H: Hasher>(&self, state: &mut H) {
        self.module.hash(state);
        self.name.hash(state);
        self.arity.hash(state);
    }
}
