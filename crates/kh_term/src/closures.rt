//! Functions with their captured values.
ghost use Rattle.std.specs.Prelude.{◌≡◌, IfOk, IfSome, is_some};
ghost use Rattle.kh_term.specs.declared.tree.TermTree.{out-TermTree};
ghost use Rattle.kh_term.specs.Parts.{closure_origin, closure_tree, is_closure};

use crate::copying::copy_of_all;
use crate::memory::NoMemory;
use crate::name::Origin;
use crate::term::{Closure, Term, Terms};
use crate::tree::TermTree;
use std::alloc::Global;

impl Closure {
    /// A copy of the function that a term is; none where it is no function.
    #[tactic(auto, using(crate::proofs::Layers::nils, crate::specs::Lemmas::Fits::parts))]
    pub fn of_term(alloc: Global, term: &Term) -> Result<Option<Closure>, NoMemory>
        ensures found { IfOk result
            (λ found. is_some found ≡ is_closure (out-TermTree term.now.node)) }
        ensures same { IfOk result
            (λ found. IfSome found (λ closure. closure_tree closure ≡ term.now.node)) }
    {
        match &term.node {
            TermTree::Closure(origin, env) => {
                let Origin {
                    module,
                    name,
                    arity,
                } = origin.copy(alloc)?;
                let env = copy_of_all(alloc, env.as_slice())?;
                Ok(Some(Closure {
                    module,
                    name,
                    arity,
                    env,
                }))
            }
            TermTree::Int(_)
            | TermTree::Atom(_)
            | TermTree::Bin(_)
            | TermTree::Nil
            | TermTree::List(_, _)
            | TermTree::Tuple(_)
            | TermTree::Map(_) => Ok(None),
        }
    }

    /// The term of this function.
    #[tactic(auto, using(crate::specs::Lemmas::Fits::terms))]
    pub fn into_term(self) -> Term
        ensures { result.node ≡ closure_tree self }
    {
        let Closure {
            module,
            name,
            arity,
            env,
        } = self;
        let _module = module.as_slice();
        let _name = name.as_slice();
        let Terms { nodes } = env;
        let origin = Origin {
            module,
            name,
            arity,
        };
        Term {
            node: TermTree::Closure(origin, nodes),
        }
    }

    /// Where the function was written.
    pub fn origin(&self, alloc: Global) -> Result<Origin, NoMemory>
        ensures { IfOk result (λ origin. origin ≡ closure_origin self.now) }
    {
        let module = self.module.copy(alloc)?;
        let name = self.name.copy(alloc)?;
        Ok(Origin {
            module,
            name,
            arity: self.arity,
        })
    }

    /// A copy.
    pub fn copy(&self, alloc: Global) -> Result<Closure, NoMemory>
        ensures { IfOk result (λ closure. closure ≡ self.now) }
    {
        let module = self.module.copy(alloc)?;
        let name = self.name.copy(alloc)?;
        let env = self.env.copy(alloc)?;
        Ok(Closure {
            module,
            name,
            arity: self.arity,
            env,
        })
    }
}
