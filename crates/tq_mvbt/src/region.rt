//! The regions of the leaves.

ghost use Rattle.std.specs.Prelude.{◌≡◌, ◌+◌, ◌<◌, ◌≤◌, length, min, All, IfOk};
ghost use Rattle.tq_mvbt.specs.Links.{linked_numbers};
ghost use Rattle.tq_mvbt.specs.Regions.{region_for, regions_from};

use crate::node::{Link, Node};
use crate::numbers::NodeNos;
use std::alloc::{AllocError, Global};
use tq_arena::{Arena, Meter, NodeNo};

/// The region of a leaf: its keys `low <= k < high` at the versions `born <= v < died`.
#[derive(Drop, Debug)]
pub struct Region {
    /// The number of the leaf.
    pub node: NodeNo,
    /// The least key.
    pub low: u128,
    /// The key after the last one.
    pub high: u128,
    /// The first version.
    pub born: u32,
    /// The first version after the last one; none for a current leaf.
    pub died: Option<u32>,
    /// The leaves that it replaced, at most two.
    pub links: NodeNos,
}

// The numbers of the linked leaves.
fn linked_leaves(alloc: Global, links: &[Link]) -> Result<NodeNos, AllocError>
    ensures { IfOk result (λ numbers. numbers ≡ linked_numbers links.now) }
{
    let mut numbers = Vec::new(alloc);
    for link in links {
        numbers.push(link.node)?;
    }
    Ok(NodeNos::of(numbers))
}

// The region of a leaf.
fn region_at(alloc: Global, number: u32, node: &Node) -> Result<Region, AllocError>
    ensures { IfOk result (λ region. region ≡ region_for number node.now) }
{
    Ok(Region {
        node: NodeNo(number),
        low: node.low(),
        high: node.high(),
        born: node.born(),
        died: node.died(),
        links: linked_leaves(alloc, node.links())?,
    })
}

// The regions of the leaves in the order of their numbers. Each node is read once.
pub(crate) fn regions(
    alloc: Global,
    nodes: &Arena<Node>,
    meter: &mut Meter,
) -> Result<Vec<Region>, AllocError>
    ensures regions { IfOk result (λ rs. rs.items ≡ regions_from 0 nodes.now.nodes) }
    ensures in_range { IfOk result (λ rs. All (λ r. r.node.0 < length nodes.now.nodes) rs.items) }
    ensures counted { IfOk result (λ rs. min (meter.old + length rs.items) u64.MAX ≤ meter.new) }
{
    let mut found = Vec::new(alloc);
    for i in 0..nodes.len() {
        let node = nodes.read(NodeNo(i), meter);
        if node.is_leaf() {
            found.push(region_at(alloc, i, node)?)?;
        }
    }
    Ok(found)
}
