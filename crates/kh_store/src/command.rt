//! Commands as they are logged.
ghost use Rattle.std.specs.Prelude.{◌≡◌, ◌↔◌, ℤ, List, [], map, codes, IsTrue, IfOk, IfSome, IfNone};
ghost use Rattle.std.specs.List.{list_all};
ghost use Rattle.kh_term.specs.declared.name.Name.{Name};
ghost use Rattle.kh_term.specs.declared.tree.TermTree.TheVariants as tree;
ghost use Rattle.kh_term.specs.Make.{name_tree, path_tree};
ghost use Rattle.kh_store.specs.Machine.{word};
ghost use Rattle.kh_store.specs.Command.{put_parts, put_command, put_bytes, is_atom, is_atom_path, IsPut};

use kh_pack::{UnpackError, pack, unpack};
use kh_term::{
    Name, NoMemory, Pairs, Path, Term, TermTree, Terms, int, map, path_term, tuple, word,
};
use std::alloc::Global;

/// The bytes of a put as it is logged.
pub fn pack_put(alloc: Global, path: &Path, number: i128) -> Result<Vec<u8>, NoMemory>
    ensures bytes { IfOk result (λ bytes. bytes.items ≡ put_bytes path.now number) }
    ensures put { IsTrue (is_atom_path path.now)
        → IfOk result (λ bytes. IsPut bytes.items path.now number) }
{
    let _fits = path.names();
    let term = put_term(alloc, path, number)?;
    pack(alloc, &term)
}

// The term of a put.
fn put_term(alloc: Global, path: &Path, number: i128) -> Result<Term, NoMemory>
    ensures { IfOk result (λ term. term.node ≡ put_command path.now number) }
{
    let put = word(alloc, "put")?;
    let place = path_term(alloc, path)?;
    let mut parts = Terms::new(alloc);
    parts.push(put)?;
    parts.push(place)?;
    parts.push(int(number))?;
    parts.push(map(Pairs::new(alloc)))?;
    Ok(tuple(parts))
}

/// The put that these bytes are; None where they are none.
pub fn read_put(alloc: Global, bytes: &[u8]) -> Result<Option<(Path, i128)>, NoMemory>
    ensures found { IfOk result (λ read. IfSome read (λ put. IsPut bytes.now put.0 put.1)) }
    ensures none { IfOk result (λ read. IfNone read
        ((path : List Name) (number : ℤ) → IsPut bytes.now path number → ⊥)) }
{
    match unpack(alloc, bytes, 0) {
        Ok((term, end)) => {
            if end < bytes.len() {
                return Ok(None);
            }
            put_of(alloc, &term.node)
        }
        Err(UnpackError::NotPacked(_)) => Ok(None),
        Err(UnpackError::NoMemory) => Err(NoMemory),
    }
}

// The put that a tree is the command of, if it is one.
fn put_of(alloc: Global, node: &TermTree) -> Result<Option<(Path, i128)>, NoMemory>
    ensures found { IfOk result (λ read. IfSome read
        (λ put. (node.now ≡ put_command put.0 put.1) × IsTrue (is_atom_path put.0))) }
    ensures none { IfOk result (λ read. IfNone read
        ((path : List Name) (number : ℤ) → node.now ≡ put_command path number
        → IsTrue (is_atom_path path) → ⊥)) }
{
    match node {
        TermTree::Tuple(parts) => put_in(alloc, parts.as_slice()),
        _ => Ok(None),
    }
}

// The put whose command has these parts, if there is one.
fn put_in(alloc: Global, parts: &[TermTree]) -> Result<Option<(Path, i128)>, NoMemory>
    ensures found { IfOk result (λ read. IfSome read
        (λ put. (parts.now ≡ put_parts put.0 put.1) × IsTrue (is_atom_path put.0))) }
    ensures none { IfOk result (λ read. IfNone read
        ((path : List Name) (number : ℤ) → parts.now ≡ put_parts path number
        → IsTrue (is_atom_path path) → ⊥)) }
{
    match parts {
        [first, place, number, last] => {
            if !is_put(first) {
                return Ok(None);
            }
            if !is_empty_map(last) {
                return Ok(None);
            }
            match integer_of(number) {
                None => Ok(None),
                Some(number) => match path_of(alloc, place)? {
                    None => Ok(None),
                    Some(path) => Ok(Some((path, number))),
                },
            }
        }
        _ => Ok(None),
    }
}

// Whether a tree is the atom `put`.
fn is_put(node: &TermTree) -> bool
    ensures { IsTrue result ↔ (node.now ≡ word (codes "put")) }
{
    match node {
        TermTree::Atom(text) => text.as_slice() == b"put".as_slice(),
        _ => false,
    }
}

// Whether a tree is the empty map.
fn is_empty_map(node: &TermTree) -> bool
    ensures { IsTrue result ↔ (node.now ≡ tree.Map []) }
{
    match node {
        TermTree::Map(pairs) => pairs.is_empty(),
        _ => false,
    }
}

// Whether a tree is nil.
fn is_nil(node: &TermTree) -> bool
    ensures { IsTrue result ↔ (node.now ≡ tree.Nil) }
{
    match node {
        TermTree::Nil => true,
        _ => false,
    }
}

// The integer that a tree is, if it is one.
fn integer_of(node: &TermTree) -> Option<i128>
    ensures found { IfSome result (λ number. node.now ≡ tree.Int number) }
    ensures none { IfNone result ((number : ℤ) → node.now ≡ tree.Int number → ⊥) }
{
    match node {
        TermTree::Int(number) => Some(*number),
        _ => None,
    }
}

// The path that a tree is, where it has 1 to 32 names, each an atom.
fn path_of(alloc: Global, node: &TermTree) -> Result<Option<Path>, NoMemory>
    ensures found { IfOk result (λ read. IfSome read
        (λ path. (node.now ≡ path_tree path) × IsTrue (is_atom_path path))) }
    ensures none { IfOk result (λ read. IfNone read
        ((path : List Name) → node.now ≡ path_tree path → IsTrue (is_atom_path path) → ⊥)) }
{
    match node {
        TermTree::List(parts, tail) => {
            if !is_nil(tail.get()) {
                return Ok(None);
            }
            path_in(alloc, parts.as_slice())
        }
        _ => Ok(None),
    }
}

// The path that trees are the names of, where it has 1 to 32, each an atom.
fn path_in(alloc: Global, parts: &[TermTree]) -> Result<Option<Path>, NoMemory>
    ensures found { IfOk result (λ read. IfSome read
        (λ path. (parts.now ≡ map name_tree path) × IsTrue (is_atom_path path))) }
    ensures none { IfOk result (λ read. IfNone read
        ((path : List Name) → parts.now ≡ map name_tree path → IsTrue (is_atom_path path) → ⊥)) }
{
    if parts.is_empty() {
        return Ok(None);
    }
    match names_of(alloc, parts)? {
        None => Ok(None),
        Some(names) => Ok(Path::new(names)),
    }
}

// The names that trees are, where each is an atom.
fn names_of(alloc: Global, parts: &[TermTree]) -> Result<Option<Vec<Name>>, NoMemory>
    ensures found { IfOk result (λ read. IfSome read
        (λ names. (parts.now ≡ map name_tree names.items)
        × IsTrue (list_all is_atom names.items))) }
    ensures none { IfOk result (λ read. IfNone read
        ((names : List Name) → parts.now ≡ map name_tree names → IsTrue (list_all is_atom names)
        → ⊥)) }
{
    let mut names = Vec::new(alloc);
    for part in parts {
        match name_of(alloc, part)? {
            None => return Ok(None),
            Some(name) => names.push(name)?,
        }
    }
    Ok(Some(names))
}

// The name that a tree is, where it is an atom.
fn name_of(alloc: Global, node: &TermTree) -> Result<Option<Name>, NoMemory>
    ensures found { IfOk result (λ read. IfSome read
        (λ name. (node.now ≡ name_tree name) × IsTrue (is_atom name))) }
    ensures none { IfOk result (λ read. IfNone read
        ((name : Name) → node.now ≡ name_tree name → IsTrue (is_atom name) → ⊥)) }
{
    match node {
        TermTree::Atom(text) => Ok(Some(Name::Atom(text.copy(alloc)?))),
        _ => Ok(None),
    }
}
