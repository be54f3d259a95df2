//! Terms: the values that the store keeps, reads, prints and packs.
#![tactic(auto)]

mod bytes;
mod closures;
mod comparing;
mod copying;
mod depths;
mod hashing;
mod kinds;
mod laws;
mod limits;
mod lookup;
mod make;
mod mapping;
mod memory;
mod name;
mod names;
mod ordered;
mod packed_lens;
mod pairs;
mod path;
mod plural;
mod pushing;
mod sizes;
mod steps;
mod term;
#[cfg(test)]
mod tests;
mod text;
mod tree;
mod view;
mod widths;

pub use bytes::{Atom, Bytes};
pub use comparing::{compare, tree_cmp};
pub use copying::{copy_of, copy_of_all, copy_of_pairs};
pub use depths::{depth, tree_depth};
pub use kinds::{Class, Kind, Weight};
pub use laws::{
    depth_is_at_most_size, equal_is_same, maps_keep_the_last, names_compare_as_terms,
    one_packed_spelling, order_is_total, origins_read_back, packed_is_at_most_515_times_size,
    paths_compare_as_terms, paths_read_back, size_is_at_most_twice_packed, width_is_at_most_packed,
};
pub use limits::{
    MOST_ARITY, MOST_DEPTH, MOST_NAME_BYTES, MOST_NAMES, MOST_SIZE, MOST_TEXT_BYTES, holds_closure,
    is_large, is_small, tree_holds_closure,
};
pub use lookup::{place_of_key, value_of_key};
pub use make::{
    atom, bin, closure, int, list, list_with_tail, map, map_of_one, nil, pair, path_term,
    term_of_name, triple, tuple, word,
};
pub use mapping::pairs_of;
pub use memory::NoMemory;
pub use name::{Name, Origin};
pub use names::{name_of, names_of, origin_of, origin_term, path_of};
pub use packed_lens::{integer_len, packed_len, tree_packed_len};
pub use path::Path;
pub use plural::{Names, Paths, Several, Texts};
pub use pushing::{push_byte, push_bytes};
pub use sizes::{size, tree_size};
pub use steps::Steps;
pub use term::{Closure, Pairs, Term, Terms};
pub use text::Text;
pub use tree::{TermTree, TreePairs, Trees};
pub use view::NodeView;
pub use widths::{tree_width, widest};
