ghost use Rattle.std.specs.Prelude.{◌≡◌, ◌||◌, codes, IfOk, Some, refl};
ghost use Rattle.std.specs.Ordering.{eq_by_cmp};
ghost use Rattle.std.specs.Cmp.{partial_equiv_from_equiv, eq_by_cmp_equiv, po};
ghost use Rattle.std.specs.Str.{bytes_eq};
ghost use Rattle.kh_term.specs.Name.{is_name, has_name_length, name_cmp, name_total, origin_cmp, origin_total};

use crate::bytes::{Atom, Bytes};
use crate::limits::MOST_NAME_BYTES;
use crate::memory::NoMemory;
use std::alloc::Global;
use std::cmp::Ordering;

/// The name of a node.
#[derive(Debug, Drop)]
pub enum Name {
    Atom(Atom),
    Bin(Bytes),
}

/// Where a function was written: its module, its name and its whole arity.
#[derive(Debug, Drop)]
pub struct Origin {
    pub module: Atom,
    pub name: Atom,
    pub arity: u8,
}

impl Name {
    /// A copy.
    pub fn copy(&self, alloc: Global) -> Result<Name, NoMemory>
        ensures { IfOk result (λ name. name ≡ self.now) }
    {
        match self {
            Name::Atom(text) => Ok(Name::Atom(text.copy(alloc)?)),
            Name::Bin(bytes) => Ok(Name::Bin(bytes.copy(alloc)?)),
        }
    }

    /// Whether it may name a node: it has 1 to 255 bytes and is neither `.` nor `^`.
    pub fn is_name(&self) -> bool
        ensures { result ≡ is_name self.now }
    {
        match self {
            Name::Atom(text) => has_name_length(text.as_slice()) && !is_reserved(text.as_slice()),
            Name::Bin(bytes) => has_name_length(bytes.as_slice()),
        }
    }
}

impl Origin {
    /// A copy.
    pub fn copy(&self, alloc: Global) -> Result<Origin, NoMemory>
        ensures { IfOk result (λ origin. origin ≡ self.now) }
    {
        let module = self.module.copy(alloc)?;
        let name = self.name.copy(alloc)?;
        Ok(Origin {
            module,
            name,
            arity: self.arity,
        })
    }
}

fn has_name_length(text: &[u8]) -> bool
    ensures { result ≡ has_name_length text.now }
{
    1 <= text.len() && text.len() <= MOST_NAME_BYTES
}

// Whether it is the text of `.` or `^`.
fn is_reserved(text: &[u8]) -> bool
    ensures { result ≡ (bytes_eq text.now (codes ".") || bytes_eq text.now (codes "^")) }
{
    match text {
        b"." => true,
        b"^" => true,
        _ => false,
    }
}

impl PartialEq for Name {
    ghost eq = { eq_by_cmp name_cmp };

    ghost laws = { partial_equiv_from_equiv (eq_by_cmp_equiv name_total) };

    fn eq(&self, other: &Self) -> bool {
        self.cmp(other).is_eq()
    }
}

impl Eq for Name {
    ghost laws = { eq_by_cmp_equiv name_total };
}

impl PartialOrd for Name {
    ghost partial_cmp = { λ x y. Some (name_cmp x y) };

    ghost laws = { po name_total (λ x y. refl) };

    fn partial_cmp(&self, other: &Self) -> Option<Ordering> {
        Some(self.cmp(other))
    }
}

/// Atoms before binaries, each by their bytes, a prefix first.
impl Ord for Name {
    ghost cmp = { name_cmp };

    ghost total = { name_total };

    ghost matches_partial_cmp = { λ x y. refl };

    ghost matches_eq = { λ x y. refl };

    fn cmp(&self, other: &Self) -> Ordering {
        match (self, other) {
            (Name::Atom(text), Name::Atom(other)) => text.cmp(other),
            (Name::Atom(_), Name::Bin(_)) => Ordering::Less,
            (Name::Bin(_), Name::Atom(_)) => Ordering::Greater,
            (Name::Bin(bytes), Name::Bin(other)) => bytes.cmp(other),
        }
    }
}

impl PartialEq for Origin {
    ghost eq = { eq_by_cmp origin_cmp };

    ghost laws = { partial_equiv_from_equiv (eq_by_cmp_equiv origin_total) };

    fn eq(&self, other: &Self) -> bool {
        self.cmp(other).is_eq()
    }
}

impl Eq for Origin {
    ghost laws = { eq_by_cmp_equiv origin_total };
}

impl PartialOrd for Origin {
    ghost partial_cmp = { λ x y. Some (origin_cmp x y) };

    ghost laws = { po origin_total (λ x y. refl) };

    fn partial_cmp(&self, other: &Self) -> Option<Ordering> {
        Some(self.cmp(other))
    }
}

/// By module, name and arity.
impl Ord for Origin {
    ghost cmp = { origin_cmp };

    ghost total = { origin_total };

    ghost matches_partial_cmp = { λ x y. refl };

    ghost matches_eq = { λ x y. refl };

    fn cmp(&self, other: &Self) -> Ordering {
        match self.module.cmp(&other.module) {
            Ordering::Equal => match self.name.cmp(&other.name) {
                Ordering::Equal => self.arity.cmp(&other.arity),
                order => order,
            },
            order => order,
        }
    }
}
