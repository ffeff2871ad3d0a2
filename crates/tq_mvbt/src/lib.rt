//! A multiversion B-tree: it stores the keys that live at each version. After Becker, Gschwind, Ohler, Seeger and
//! Widmayer 1996, with this project's own numbers.
//!
//! `Tree::insert` and `Tree::delete` each have a version of their own, and the tree is read at every version up to the
//! last one. The invariant of every tree is `IsTree` in `specs/TreeState.antt`; the law `trees_tile` states what it
//! means for keys and versions. A change first reserves all nodes that it can need, and then cannot fail.
//! `docs/design/tree.md` describes nodes, splits and links.
//!
//! Open `src/tree.rt` first, then `src/replace.rt`.
#![tactic(auto)]

mod entry;
mod laws;
mod node;
mod numbers;
mod region;
mod replace;
mod root;
mod steps;
mod tree;
mod update;

pub use laws::trees_tile;
pub use node::{Link, Node};
pub use numbers::NodeNos;
pub use region::Region;
pub use tree::Tree;
