//! Roots, and the directory that names the root of each version.

ghost use Rattle.std.specs.Prelude.{◌≡◌, ◌+◌, ◌-◌, ◌<◌, ◌≤◌, length, All, slice_get, IfSome, IfNone};
ghost use Rattle.std.specs.List.Sorted.{IsNonDecreasingBy};
ghost use Rattle.tq_mvbt.specs.Shape.{IsSomeForest, IsFound, IsFilled};
ghost use Rattle.tq_mvbt.specs.Links.{KeepsLinks};
ghost use Rattle.tq_mvbt.specs.Unsettled.{IsForestBy, IsSettling, NeedsChange, Grows, HeightChanges};
ghost use Rattle.tq_mvbt.specs.Directory.{root_of, IsTop};

use crate::node::Node;
use crate::steps::{child_of, fits, push_node, push_nodes, retire};
use arrayvec::ArrayVec;
use smallvec::SmallVec;
use std::alloc::Global;
use tq_arena::Arena;

/// One more than the greatest key.
pub(crate) const TOP: u128 = 79228162514264337593543950336;

/// The root from a version on, and the number of levels of the tree then.
#[derive(Clone, Copy, Debug)]
pub struct Root {
    pub from: u32,
    pub node: u32,
    pub levels: u32,
}

// The last root that begins at the version or earlier.
pub(crate) fn find_root(roots: &[Root], version: u32) -> Root
    requires some { 0 < length roots.now }
    requires first { IfSome (slice_get roots.now 0) (λ r. r.from ≡ 0) }
    requires ordered { IsNonDecreasingBy (λ r. r.from) roots.now }
    ensures { result ≡ root_of roots.now version }
{
    let after = roots.partition_point(|root| root.from <= version);
    roots[after - 1]
}

// The current leaf whose range holds the key, below a current node.
pub(crate) fn leaf_of(nodes: &Arena<Node>, top: u32, levels: u32, key: u128) -> u32
    requires forest { IsSomeForest nodes.now.nodes }
    requires found { IsFound nodes.now.nodes levels key top }
    ensures { IsFound nodes.now.nodes 0 key result }
{
    let mut number = top;
    let mut level = levels;
    'levels: while level > 0 {
        number = child_of(nodes, number, level, key);
        level -= 1;
    }
    number
}

// Replaces a root with too many entries or too few live ones. Returns the new root.
fn replace_root(
    alloc: Global,
    nodes: &mut Arena<Node>,
    root: Root,
    last: usize,
    version: u32,
) -> Root
    requires small { version < 4294967295 }
    requires levels { 1 ≤ root.levels }
    requires few_levels { root.levels < 4294967295 }
    requires room { 3 ≤ nodes.old.room }
    requires forest { IsForestBy version nodes.old.nodes }
    requires settling { IsSettling version (root.levels - 1) last nodes.old.nodes root.node }
    requires full_leaf { root.levels ≡ 1 → NeedsChange nodes.old.nodes root.node 0 }
    requires unfit_index { 2 ≤ root.levels → NeedsChange nodes.old.nodes root.node 2 }
    requires whole { IsTop version nodes.old.nodes root }
    ensures height { HeightChanges version root.levels result.levels nodes.old.nodes nodes.new.nodes }
    ensures from { result.from ≡ version }
    ensures top { IsTop version nodes.new.nodes result }
    ensures filled { All IsFilled nodes.new.nodes }
    ensures grows { Grows version root.levels nodes.old.nodes nodes.new.nodes }
    ensures links { KeepsLinks (root.levels - 1) version nodes.old.nodes nodes.new.nodes }
    ensures len { length nodes.new.nodes ≤ length nodes.old.nodes + 3 }
{
    let level = root.levels - 1;
    let mut copied = ArrayVec::new();
    let mut links = SmallVec::new(alloc);
    retire(nodes, root.node, last, version, &mut copied, &mut links);
    if level > 0 && copied.len() == 1 {
        return Root {
            from: version,
            node: copied[0].child,
            levels: level,
        };
    }
    let added = push_nodes(nodes, level, 0, TOP, version, &mut copied, &links);
    if added.len() == 1 {
        return Root {
            from: version,
            node: added[0].child,
            levels: root.levels,
        };
    }
    let top = push_node(
        nodes,
        root.levels,
        0,
        TOP,
        version,
        &added,
        &SmallVec::new(alloc),
    );
    Root {
        from: version,
        node: top.child,
        levels: root.levels + 1,
    }
}

// Replaces the root if it must be. Returns the new root, if there is one.
pub(crate) fn settle_root(
    alloc: Global,
    nodes: &mut Arena<Node>,
    root: Root,
    last: usize,
    version: u32,
) -> Option<Root>
    requires small { version < 4294967295 }
    requires levels { 1 ≤ root.levels }
    requires few_levels { root.levels < 4294967295 }
    requires room { 3 ≤ nodes.old.room }
    requires forest { IsForestBy version nodes.old.nodes }
    requires settling { IsSettling version (root.levels - 1) last nodes.old.nodes root.node }
    requires whole { IsTop version nodes.old.nodes root }
    ensures same { IfNone result (nodes.new.nodes ≡ nodes.old.nodes) }
    ensures height { IfSome result (λ r. HeightChanges version root.levels r.levels nodes.old.nodes nodes.new.nodes) }
    ensures from { IfSome result (λ r. r.from ≡ version) }
    ensures top { IfSome result (IsTop version nodes.new.nodes) }
    ensures filled { All IsFilled nodes.new.nodes }
    ensures grows { Grows version root.levels nodes.old.nodes nodes.new.nodes }
    ensures links { KeepsLinks (root.levels - 1) version nodes.old.nodes nodes.new.nodes }
    ensures len { length nodes.new.nodes ≤ length nodes.old.nodes + 3 }
{
    let least = if root.levels == 1 { 0 } else { 2 };
    if fits(nodes, root.node, least) {
        return None;
    }
    Some(replace_root(alloc, nodes, root, last, version))
}
