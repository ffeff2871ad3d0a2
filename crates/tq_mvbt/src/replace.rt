//! Version splits: a node with too many entries, or too few live ones, is replaced by others.

ghost use Rattle.std.specs.Prelude.{◌≡◌, ◌+◌, ◌<◌, ◌≤◌, ◌⊎◌, length};
ghost use Rattle.tq_mvbt.specs.Shape.{IsSomeForest};
ghost use Rattle.tq_mvbt.specs.Links.{KeepsLinks};
ghost use Rattle.tq_mvbt.specs.Unsettled.{IsForestBy, IsSettling, NeedsChange, HasManyLive, HasFewLive, IsPart, IsPartOf, IsWithinParent, IsCurrentNode, IsRightFirst, AreAdjacent, Grows, StaysForest};

use crate::node::Node;
use crate::steps::{count_live, edit, push_nodes, retire};
use arrayvec::ArrayVec;
use smallvec::SmallVec;
use std::alloc::Global;
use tq_arena::{Arena, Meter, NodeNo};

// Where a node is: its parent and its level.
#[derive(Clone, Copy)]
struct Place {
    parent: u32,
    level: u32,
}

// Replaces the node by one or two; its last `last` entries began at the version. Returns the number of entries that the
// parent got.
fn renew(
    alloc: Global,
    nodes: &mut Arena<Node>,
    number: u32,
    last: usize,
    place: Place,
    version: u32,
) -> usize
    requires small { version < 4294967295 }
    requires room { 2 ≤ nodes.old.room }
    requires forest { IsForestBy version nodes.old.nodes }
    requires settling { IsSettling version place.level last nodes.old.nodes number }
    requires ample { HasManyLive nodes.old.nodes number }
    requires part { IsPartOf nodes.old.nodes place.level number place.parent }
    ensures forest { StaysForest version nodes.old.nodes nodes.new.nodes }
    ensures settling { IsSettling version (place.level + 1) result nodes.new.nodes place.parent }
    ensures grows { Grows version (place.level + 1) nodes.old.nodes nodes.new.nodes }
    ensures links { KeepsLinks place.level version nodes.old.nodes nodes.new.nodes }
    ensures room { nodes.old.room ≤ nodes.new.room + 2 }
    ensures len { length nodes.new.nodes ≤ length nodes.old.nodes + 2 }
{
    let mut copied = ArrayVec::new();
    let mut links = SmallVec::new(alloc);
    let (low, high) = retire(nodes, number, last, version, &mut copied, &mut links);
    let added = push_nodes(nodes, place.level, low, high, version, &mut copied, &links);
    edit(nodes, place.parent, low, high, version, &added);
    added.len()
}

// Replaces the node and its sibling by one or two; the node's last `last` entries began at the version. Returns the
// number of entries that the parent got.
fn merge(
    alloc: Global,
    nodes: &mut Arena<Node>,
    number: u32,
    last: usize,
    sibling: u32,
    place: Place,
    version: u32,
) -> usize
    requires small { version < 4294967295 }
    requires room { 2 ≤ nodes.old.room }
    requires forest { IsForestBy version nodes.old.nodes }
    requires settling { IsSettling version place.level last nodes.old.nodes number }
    requires thin { HasFewLive nodes.old.nodes number }
    requires part { IsPartOf nodes.old.nodes place.level number place.parent }
    requires beside { AreAdjacent nodes.old.nodes number sibling }
    requires under { IsWithinParent nodes.old.nodes sibling place.parent }
    requires standing { IsCurrentNode place.level nodes.old.nodes sibling }
    ensures forest { StaysForest version nodes.old.nodes nodes.new.nodes }
    ensures settling { IsSettling version (place.level + 1) result nodes.new.nodes place.parent }
    ensures grows { Grows version (place.level + 1) nodes.old.nodes nodes.new.nodes }
    ensures links { KeepsLinks place.level version nodes.old.nodes nodes.new.nodes }
    ensures room { nodes.old.room ≤ nodes.new.room + 2 }
    ensures len { length nodes.new.nodes ≤ length nodes.old.nodes + 2 }
{
    let mut copied = ArrayVec::new();
    let mut links = SmallVec::new(alloc);
    let (low, high) = retire(nodes, number, last, version, &mut copied, &mut links);
    let (its_low, its_high) = retire(nodes, sibling, 0, version, &mut copied, &mut links);
    let low = low.min(its_low);
    let high = high.max(its_high);
    let added = push_nodes(nodes, place.level, low, high, version, &mut copied, &links);
    edit(nodes, place.parent, low, high, version, &added);
    added.len()
}

// The parent's key next to the node's range: the one above it, or the one below it if the parent has none above.
fn adjacent_key(node: &Node, above: &Node) -> u128
    requires { IsPart node.now above.now }
    ensures low { above.now.low ≤ result }
    ensures high { result < above.now.high }
    ensures side { (result ≡ node.now.high) ⊎ (result + 1 ≡ node.now.low) }
    ensures right { node.now.high < above.now.high → result ≡ node.now.high }
{
    if node.high() < above.high() {
        node.high()
    } else {
        node.low() - 1
    }
}

// The adjacent node under the same parent, on the right if there is one.
fn sibling_of(nodes: &Arena<Node>, number: u32, place: Place) -> u32
    requires level { place.level < 4294967295 }
    requires forest { IsSomeForest nodes.now.nodes }
    requires part { IsPartOf nodes.now.nodes place.level number place.parent }
    ensures beside { AreAdjacent nodes.now.nodes number result }
    ensures under { IsWithinParent nodes.now.nodes result place.parent }
    ensures standing { IsCurrentNode place.level nodes.now.nodes result }
    ensures right { IsRightFirst nodes.now.nodes number place.parent result }
{
    let mut meter = Meter::new();
    let node = nodes.read(NodeNo(number), &mut meter);
    let above = nodes.read(NodeNo(place.parent), &mut meter);
    above.child_at(adjacent_key(node, above)).unwrap()
}

// Replaces the node, alone or with its sibling, by one or two. Returns the number of entries that the parent got.
pub(crate) fn replace(
    alloc: Global,
    nodes: &mut Arena<Node>,
    number: u32,
    last: usize,
    parent: u32,
    level: u32,
    version: u32,
) -> usize
    requires small { version < 4294967295 }
    requires level { level < 4294967295 }
    requires room { 2 ≤ nodes.old.room }
    requires forest { IsForestBy version nodes.old.nodes }
    requires settling { IsSettling version level last nodes.old.nodes number }
    requires needed { NeedsChange nodes.old.nodes number 5 }
    requires part { IsPartOf nodes.old.nodes level number parent }
    ensures forest { StaysForest version nodes.old.nodes nodes.new.nodes }
    ensures settling { IsSettling version (level + 1) result nodes.new.nodes parent }
    ensures grows { Grows version (level + 1) nodes.old.nodes nodes.new.nodes }
    ensures links { KeepsLinks level version nodes.old.nodes nodes.new.nodes }
    ensures room { nodes.old.room ≤ nodes.new.room + 2 }
    ensures len { length nodes.new.nodes ≤ length nodes.old.nodes + 2 }
{
    let place = Place { parent, level };
    if count_live(nodes, number) >= 8 {
        return renew(alloc, nodes, number, last, place, version);
    }
    let sibling = sibling_of(nodes, number, place);
    merge(alloc, nodes, number, last, sibling, place, version)
}
