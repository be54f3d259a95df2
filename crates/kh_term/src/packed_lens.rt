//! How long the packed bytes of a term are.
ghost use Rattle.std.specs.Prelude.{◌≡◌, ◌<◌, ◌^◌, length};
ghost use Rattle.kh_term.specs.Packed.{packed_of, all_packed_of, pairs_packed_of, behind_sign, integer_len, least_len};

use crate::term::Term;
use crate::tree::TermTree;

/// The number of packed bytes of a term.
pub fn packed_len(term: &Term) -> u64
    requires { length (packed_of term.now.node) < 2 ^ 64 }
    ensures { result ≡ length (packed_of term.now.node) }
{
    tree_packed_len(&term.node)
}

// The lengths that an integer may have, but for the greatest.
const SHORTER: [u32; 15] = [1, 2, 3, 4, 5, 6, 7, 8, 9, 10, 11, 12, 13, 14, 15];

/// The least number of bytes, 1 to 16, that holds an integer in two's complement.
pub fn integer_len(number: i128) -> u32
    ensures { result ≡ integer_len number }
{
    least_len(behind_sign(number))
}

fn behind_sign(number: i128) -> u128
    ensures { result ≡ behind_sign number }
{
    if number < 0 {
        (-(number + 1)) as u128
    } else {
        number as u128
    }
}

fn least_len(behind: u128) -> u32
    ensures { result ≡ least_len behind }
{
    for length in SHORTER {
        if behind < 1 << (8 * length - 1) {
            return length;
        }
    }
    16
}

/// The number of packed bytes of a part of a term.
#[cycle(packed_len)]
#[tactic(auto, using(crate::proofs::Lengths::lengths))]
pub fn tree_packed_len(tree: &TermTree) -> u64
    requires { length (packed_of tree.now) < 2 ^ 64 }
    ensures { result ≡ length (packed_of tree.now) }
{
    match tree {
        TermTree::Int(number) => 2 + integer_len(*number) as u64,
        TermTree::Atom(text) => 2 + text.as_slice().len() as u64,
        TermTree::Bin(bytes) => 5 + bytes.as_slice().len() as u64,
        TermTree::Nil => 1,
        TermTree::List(parts, tail) => 5 + all_len(parts.as_slice()) + tree_packed_len(tail.get()),
        TermTree::Tuple(parts) => 5 + all_len(parts.as_slice()),
        TermTree::Map(pairs) => 5 + pairs_len(pairs.as_slice()),
        TermTree::Closure(origin, env) => {
            let texts = origin.module.as_slice().len() as u64 + origin.name.as_slice().len() as u64;
            5 + texts + all_len(env.as_slice())
        }
    }
}

#[cycle(packed_len)]
#[tactic(auto, using(crate::proofs::Lengths::lengths))]
fn all_len(trees: &[TermTree]) -> u64
    requires { length (all_packed_of trees.now) < 2 ^ 64 }
    ensures { result ≡ length (all_packed_of trees.now) }
{
    let mut all = 0;
    for tree in trees {
        all += tree_packed_len(tree);
    }
    all
}

#[cycle(packed_len)]
#[tactic(auto, using(crate::proofs::Lengths::lengths))]
fn pairs_len(pairs: &[(TermTree, TermTree)]) -> u64
    requires { length (pairs_packed_of pairs.now) < 2 ^ 64 }
    ensures { result ≡ length (pairs_packed_of pairs.now) }
{
    let mut all = 0;
    for pair in pairs {
        let key = tree_packed_len(&pair.0);
        let value = tree_packed_len(&pair.1);
        all += key + value;
    }
    all
}
