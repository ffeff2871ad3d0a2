//! An arena: a list of nodes that keep their numbers, with counted reads.
//!
//! The first node has the number 0, the next one 1. Only `Arena::reserve` allocates, so a caller that reserves first
//! can add and change several nodes without an error in between. Each `Arena::read` is counted by a `Meter`. Contracts
//! see an arena as `Contents` in `specs/Contents.antt`. What a node is, the arena does not know.
//!
//! Open `src/arena.rt` first.
#![tactic(auto)]

mod arena;
mod meter;

pub use arena::{Arena, NodeNo};
pub use meter::Meter;
