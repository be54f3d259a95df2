ghost use Rattle.std.specs.Prelude.{◌≡◌, ◌↔◌, IfOk, IsSome, IfSome, IsTrue, ℕ, List, nat_eq, refl, Some};
ghost use Rattle.std.specs.Str.{is_utf8};
ghost use Rattle.kh_term.specs.Text.{is_atom_text, are_bytes};
ghost use Rattle.std.specs.Ordering.{nat_cmp};
ghost use Rattle.std.specs.Cmp.{partial_equiv_from_equiv};
ghost use Rattle.std.specs.Cmp.Lexicographic.{pointwise, slice_cmp, nat_list_eq_equiv, nat_list_cmp_total, texts_ties, texts_po};

use crate::limits::MOST_NAME_BYTES;
use crate::memory::NoMemory;
use std::alloc::Global;
use std::cmp::Ordering;
use std::marker::Model;

// Each byte is below 256.
fn are_in_range(bytes: &[u8])
    ensures { IsTrue (are_bytes bytes.now) }
{}

/// Any bytes, as a binary has them.
#[derive(Debug, Drop)]
pub struct Bytes {
    bytes: Vec<u8>,
}

impl Model for Bytes {
    ghost use Rattle.std.specs.Prelude.{List, ℕ, IsTrue};
    ghost use Rattle.kh_term.specs.Text.{are_bytes};

    ghost Value = { List ℕ };

    ghost view = { λ b. b.bytes.items };

    ghost invariant = { λ b. IsTrue (are_bytes b.bytes.items) };
}

impl Bytes {
    /// The binary of these bytes, which takes no memory.
    pub fn new(bytes: Vec<u8>) -> Bytes
        ensures { result ≡ bytes.items }
    {
        are_in_range(bytes.as_slice());
        Bytes { bytes }
    }

    /// The bytes.
    pub fn as_slice(&self) -> &[u8]
        ensures bytes { result.now ≡ self.now }
        ensures fits { IsTrue (are_bytes self.now) }
    {
        self.bytes.as_slice()
    }

    /// A copy.
    pub fn copy(&self, alloc: Global) -> Result<Bytes, NoMemory>
        ensures { IfOk result (λ b. b ≡ self.now) }
    {
        let bytes = Vec::from_slice(alloc, self.bytes.as_slice())?;
        Ok(Bytes { bytes })
    }
}

/// Whether bytes are UTF-8.
pub fn is_valid_utf8(bytes: &[u8]) -> bool
    ensures { result ≡ is_utf8 bytes.now }
{
    match std::str::from_utf8(bytes) {
        Ok(_) => true,
        Err(_) => false,
    }
}

/// The text of an atom: UTF-8 of at most 255 bytes.
#[derive(Debug, Drop)]
pub struct Atom {
    text: Vec<u8>,
}

impl Model for Atom {
    ghost use Rattle.std.specs.Prelude.{List, ℕ, IsTrue};
    ghost use Rattle.kh_term.specs.Text.{is_atom_text};

    ghost Value = { List ℕ };

    ghost view = { λ a. a.text.items };

    ghost invariant = { λ a. IsTrue (is_atom_text a.text.items) };
}

impl Atom {
    /// The atom of this text, where it is one.
    pub fn new(text: Vec<u8>) -> Option<Atom>
        ensures accepts { IsSome result ↔ IsTrue (is_atom_text text.items) }
        ensures value { IfSome result (λ a. a ≡ text.items) }
    {
        if text.len() > MOST_NAME_BYTES {
            return None;
        }
        if !is_valid_utf8(text.as_slice()) {
            return None;
        }
        Some(Atom { text })
    }

    /// The bytes of the text, which are UTF-8.
    pub fn as_slice(&self) -> &[u8]
        ensures text { result.now ≡ self.now }
        ensures fits { IsTrue (is_atom_text self.now) }
    {
        self.text.as_slice()
    }

    /// A copy.
    pub fn copy(&self, alloc: Global) -> Result<Atom, NoMemory>
        ensures { IfOk result (λ a. a ≡ self.now) }
    {
        let text = Vec::from_slice(alloc, self.text.as_slice())?;
        Ok(Atom { text })
    }
}

impl PartialEq for Bytes {
    ghost eq = { pointwise nat_eq };

    ghost laws = { partial_equiv_from_equiv nat_list_eq_equiv };

    fn eq(&self, other: &Self) -> bool {
        self.as_slice() == other.as_slice()
    }
}

impl Eq for Bytes {
    ghost laws = { nat_list_eq_equiv };
}

impl PartialOrd for Bytes {
    ghost partial_cmp = { λ x y. Some (slice_cmp nat_cmp x y) };

    ghost laws = { texts_po };

    fn partial_cmp(&self, other: &Self) -> Option<Ordering> {
        Some(self.cmp(other))
    }
}

/// By the bytes, a prefix first.
impl Ord for Bytes {
    ghost cmp = { slice_cmp nat_cmp };

    ghost total = { nat_list_cmp_total };

    ghost matches_partial_cmp = { λ x y. refl };

    ghost matches_eq = { texts_ties };

    fn cmp(&self, other: &Self) -> Ordering {
        self.as_slice().cmp(&other.as_slice())
    }
}

impl PartialEq for Atom {
    ghost eq = { pointwise nat_eq };

    ghost laws = { partial_equiv_from_equiv nat_list_eq_equiv };

    fn eq(&self, other: &Self) -> bool {
        self.as_slice() == other.as_slice()
    }
}

impl Eq for Atom {
    ghost laws = { nat_list_eq_equiv };
}

impl PartialOrd for Atom {
    ghost partial_cmp = { λ x y. Some (slice_cmp nat_cmp x y) };

    ghost laws = { texts_po };

    fn partial_cmp(&self, other: &Self) -> Option<Ordering> {
        Some(self.cmp(other))
    }
}

/// By the bytes, a prefix first.
impl Ord for Atom {
    ghost cmp = { slice_cmp nat_cmp };

    ghost total = { nat_list_cmp_total };

    ghost matches_partial_cmp = { λ x y. refl };

    ghost matches_eq = { texts_ties };

    fn cmp(&self, other: &Self) -> Ordering {
        self.as_slice().cmp(&other.as_slice())
    }
}
