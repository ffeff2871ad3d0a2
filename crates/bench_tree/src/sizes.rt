//! The size of a tree.

ghost use Rattle.std.specs.Prelude.{◌<◌, length};

use std::alloc::AllocError;
use tq_arena::{Meter, NodeNo};
use tq_mvbt::{Node, Tree};

/// The counts of a tree: its nodes up to its last leaf.
#[derive(Drop)]
pub struct Sizes {
    pub nodes: usize,
    pub leaves: usize,
    pub entries: usize,
    pub bytes: usize,
}

impl Sizes {
    /// Counts a tree's nodes and entries.
    pub fn of(tree: &Tree) -> Result<Sizes, AllocError> {
        let mut meter = Meter::new();
        let regions = tree.leaf_regions(&mut meter)?;
        let leaves = regions.len();
        let Some(last) = regions.last() else {
            return Ok(Sizes {
                nodes: 0,
                leaves,
                entries: 0,
                bytes: 0,
            });
        };
        let nodes = last.node.0 as usize + 1;
        Ok(Sizes {
            nodes,
            leaves,
            entries: entries_up_to(tree, last.node.0),
            bytes: nodes * size_of::<Node>(),
        })
    }
}

// The number of entries of the nodes up to the one with this number.
fn entries_up_to(tree: &Tree, last: u32) -> usize
    requires { last < length tree.now.nodes }
{
    let mut meter = Meter::new();
    let mut entries: usize = 0;
    for number in 0..last {
        entries = entries.saturating_add(tree.node(NodeNo(number), &mut meter).len() as usize);
    }
    entries.saturating_add(tree.node(NodeNo(last), &mut meter).len() as usize)
}
