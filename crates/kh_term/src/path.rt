ghost use Rattle.std.specs.Prelude.{◌≡◌, ◌↔◌, ◌≤◌, IsTrue, IsSome, IfSome, IfOk, Some, List, length, take, refl};
ghost use Rattle.std.specs.Ordering.{eq_by_cmp};
ghost use Rattle.std.specs.Cmp.{partial_equiv_from_equiv, eq_by_cmp_equiv, po};
ghost use Rattle.std.specs.List.{list_all};
ghost use Rattle.kh_term.specs.Name.{is_name, is_path, path_cmp, path_total};

use crate::limits::MOST_NAMES;
use crate::memory::NoMemory;
use crate::name::Name;
use std::alloc::Global;
use std::cmp::Ordering;
use std::marker::Model;

/// The names from the root to a node, at most 32.
#[derive(Drop)]
pub struct Path {
    names: Vec<Name>,
}

impl Model for Path {
    ghost use Rattle.std.specs.Prelude.{List, IsTrue};
    ghost use Rattle.kh_term.specs.declared.name.Name.{Name};

    ghost Value = { List Name };

    ghost use Rattle.kh_term.specs.Name.{is_path};

    ghost view = { λ path. path.names.items };

    ghost invariant = { λ path. IsTrue (is_path path.names.items) };
}

// Whether each may name a node.
fn are_names(names: &[Name]) -> bool
    ensures { result ≡ list_all is_name names.now }
{
    names.iter().all(|name| name.is_name())
}

impl Path {
    /// The path of these names, where it is one.
    pub fn new(names: Vec<Name>) -> Option<Path>
        ensures accepts { IsSome result ↔ IsTrue (is_path names.items) }
        ensures value { IfSome result (λ path. path ≡ names.items) }
    {
        if names.len() > MOST_NAMES {
            return None;
        }
        if !are_names(names.as_slice()) {
            return None;
        }
        Some(Path { names })
    }

    /// The number of names, at most 32.
    pub fn len(&self) -> usize
        ensures len { result ≡ length self.now }
        ensures short { result ≤ MOST_NAMES }
    {
        self.names.len()
    }

    /// The names, from the root on.
    pub fn names(&self) -> &[Name]
        ensures names { result.now ≡ self.now }
        ensures fits { IsTrue (is_path self.now) }
    {
        self.names.as_slice()
    }

    /// The path of the first so many names.
    pub fn front(&self, alloc: Global, len: usize) -> Result<Path, NoMemory>
        requires { len ≤ length self.now }
        ensures { IfOk result (λ path. path ≡ take len self.now) }
    {
        let (front, _) = self.names.as_slice().split_at(len);
        let names = copy_names(alloc, front)?;
        Ok(Path { names })
    }

    /// A copy.
    pub fn copy(&self, alloc: Global) -> Result<Path, NoMemory>
        ensures { IfOk result (λ path. path ≡ self.now) }
    {
        let names = copy_names(alloc, self.names.as_slice())?;
        Ok(Path { names })
    }
}

fn copy_names(alloc: Global, names: &[Name]) -> Result<Vec<Name>, NoMemory>
    ensures { IfOk result (λ copies. copies.items ≡ names.now) }
{
    let mut copies = Vec::new(alloc);
    for name in names {
        copies.push(name.copy(alloc)?)?;
    }
    Ok(copies)
}

impl PartialEq for Path {
    ghost eq = { eq_by_cmp path_cmp };

    ghost laws = { partial_equiv_from_equiv (eq_by_cmp_equiv path_total) };

    fn eq(&self, other: &Self) -> bool {
        self.cmp(other).is_eq()
    }
}

impl Eq for Path {
    ghost laws = { eq_by_cmp_equiv path_total };
}

impl PartialOrd for Path {
    ghost partial_cmp = { λ x y. Some (path_cmp x y) };

    ghost laws = { po path_total (λ x y. refl) };

    fn partial_cmp(&self, other: &Self) -> Option<Ordering> {
        Some(self.cmp(other))
    }
}

/// Name by name, a prefix first.
impl Ord for Path {
    ghost cmp = { path_cmp };

    ghost total = { path_total };

    ghost matches_partial_cmp = { λ x y. refl };

    ghost matches_eq = { λ x y. refl };

    fn cmp(&self, other: &Self) -> Ordering {
        self.names.as_slice().cmp(&other.names.as_slice())
    }
}
