//! One command on the tree, and its reply.
ghost use Rattle.std.specs.Prelude.{◌≡◌, IfOk, is_some, unwrap_or, codes, [], ◌∷◌};
ghost use Rattle.kh_term.specs.declared.tree.TermTree.TheVariants as tree;
ghost use Rattle.kh_term.specs.Make.{path_tree};
ghost use Rattle.kh_read.specs.declared.form.Form.TheVariants as form;
ghost use Rattle.kh_store.specs.Machine.{word, ok_with, node_not_found, answer_of, store_full, is_logged, reply_to, after};

use crate::tree::Tree;
use kh_read::Form;
use kh_term::{NoMemory, Path, Term, int, map_of_one, pair, path_term, triple, word};
use std::alloc::Global;

/// What came of a command.
#[derive(Drop)]
pub struct Applied {
    pub reply: Term,
    /// The tree that it leaves, where it is one that is logged.
    pub tree: Option<Tree>,
}

impl Tree {
    /// What comes of a form.
    pub fn apply(&self, alloc: Global, form: Form) -> Result<Applied, NoMemory>
        ensures reply { IfOk result (λ applied. applied.reply.node ≡ reply_to form self.now) }
        ensures logged { IfOk result (λ applied. is_some applied.tree ≡ is_logged form self.now) }
        ensures after { IfOk result (λ applied. unwrap_or applied.tree self.now ≡ after form
            self.now) }
    {
        match form {
            Form::Put(path, number) => self.apply_put(alloc, path, number),
            Form::Get(path) => {
                let reply = answer(alloc, self.get(&path), &path)?;
                Ok(Applied { reply, tree: None })
            }
        }
    }

    // Sets the data of a node, where there is room.
    fn apply_put(&self, alloc: Global, path: Path, number: i128) -> Result<Applied, NoMemory>
        ensures reply { IfOk result (λ applied. applied.reply.node ≡ reply_to
            (form.Put path number) self.now) }
        ensures logged { IfOk result (λ applied. is_some applied.tree ≡ is_logged
            (form.Put path number) self.now) }
        ensures after { IfOk result (λ applied. unwrap_or applied.tree self.now ≡ after
            (form.Put path number) self.now) }
    {
        match self.with_put(path, number)? {
            Some(tree) => Ok(Applied {
                reply: word(alloc, "ok")?,
                tree: Some(tree),
            }),
            None => Ok(Applied {
                reply: store_full(alloc)?,
                tree: None,
            }),
        }
    }
}

/// `{error,store_full}`
pub fn store_full(alloc: Global) -> Result<Term, NoMemory>
    ensures { IfOk result (λ term. term.node ≡ store_full) }
{
    let error = word(alloc, "error")?;
    let full = word(alloc, "store_full")?;
    Ok(pair(alloc, error, full)?)
}

// `{ok,Value}`
fn ok_with(alloc: Global, value: Term) -> Result<Term, NoMemory>
    ensures { IfOk result (λ term. term.node ≡ ok_with value.node) }
{
    pair(alloc, word(alloc, "ok")?, value)
}

// The map of a path, as errors give it.
fn node_path(alloc: Global, path: &Path) -> Result<Term, NoMemory>
    ensures { IfOk result (λ term. term.node ≡ tree.Map
        ((word (codes "node_path"), path_tree path.now) ∷ [])) }
{
    let key = word(alloc, "node_path")?;
    let value = path_term(alloc, path)?;
    Ok(map_of_one(alloc, key, value)?)
}

// `{error,{khepri,node_not_found,#{node_path => Path}}}`
fn node_not_found(alloc: Global, path: &Path) -> Result<Term, NoMemory>
    ensures { IfOk result (λ term. term.node ≡ node_not_found path.now) }
{
    let error = word(alloc, "error")?;
    let khepri = word(alloc, "khepri")?;
    let what = word(alloc, "node_not_found")?;
    let place = node_path(alloc, path)?;
    let detail = triple(alloc, khepri, what, place)?;
    Ok(pair(alloc, error, detail)?)
}

// The answer to a `get`, by what is at the path.
fn answer(alloc: Global, found: Option<Option<i128>>, path: &Path) -> Result<Term, NoMemory>
    ensures { IfOk result (λ term. term.node ≡ answer_of found path.now) }
{
    match found {
        None => node_not_found(alloc, path),
        Some(None) => ok_with(alloc, word(alloc, "undefined")?),
        Some(Some(number)) => ok_with(alloc, int(number)),
    }
}
