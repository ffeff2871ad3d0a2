//! The tree and its calls.

ghost use Rattle.std.specs.Prelude.{◌≡◌, ◌≢◌, ℕ, ◌+◌, ◌<◌, ◌≤◌, ◌++◌, ◌^◌, true, false, length, min, slice_get, Some, OnOk, OnErr, IfOk, All, vec_len, vec_capacity};
ghost use Rattle.std.specs.Option.{option_to_list};
ghost use Rattle.tq_mvbt.specs.Shape.{with_life};
ghost use Rattle.tq_mvbt.specs.Directory.{root_of};
ghost use Rattle.tq_mvbt.specs.Regions.{regions_from};
ghost use Rattle.tq_mvbt.specs.TreeState.{lives_of, HasLife, IsTree, IsRootAt};

use crate::node::Node;
use crate::region::{Region, regions};
use crate::root::{Root, TOP, find_root, leaf_of, settle_root};
use crate::update::update;
use smallvec::SmallVec;
use std::alloc::{AllocError, Global};
use std::marker::Model;
use tq_arena::{Arena, Meter, NodeNo};

/// A multiversion tree over the keys below 2^96 and the versions up to 16,777,216.
#[derive(Drop)]
pub struct Tree {
    alloc: Global,
    version: u32,
    nodes: Arena<Node>,
    roots: Vec<Root>,
}

impl Model for Tree {
    ghost use Rattle.tq_mvbt.specs.TreeState.{TreeState, IsTree};

    ghost Value = { TreeState };

    ghost view = { λ t. record { version = t.version; nodes = t.nodes.nodes; roots = t.roots.items } };

    ghost invariant = { λ t. IsTree t.version t.nodes.nodes t.roots.items };
}

impl Tree {
    /// A tree without keys: one leaf, from version 0 on. It keeps the allocator.
    pub fn new(alloc: Global) -> Result<Tree, AllocError>
        ensures tree { IfOk result (λ t. IsTree t.version t.nodes t.roots) }
        ensures version { IfOk result (λ t. t.version ≡ 0) }
        ensures lives { IfOk result (λ t. (k v : ℕ) → lives_of t.nodes k v ≡ false) }
    {
        let mut nodes = Arena::new(alloc);
        nodes.reserve(1)?;
        let mut roots = Vec::with_capacity(alloc, 1)?;
        let leaf = nodes.push_reserved(Node::begin(0, 0, TOP, 0, &[], &SmallVec::new(alloc)));
        roots.push_reserved(Root {
            from: 0,
            node: leaf.0,
            levels: 1,
        });
        Ok(Tree {
            alloc,
            version: 0,
            nodes,
            roots,
        })
    }

    /// The version of the last change, 0 before the first one.
    pub fn version(&self) -> u32
        ensures version { result ≡ self.now.version }
        ensures tree { IsTree self.now.version self.now.nodes self.now.roots }
    {
        self.version
    }

    /// Whether the key lives now.
    pub fn alive(&self, key: u128) -> bool
        ensures { result ≡ lives_of self.now.nodes key self.now.version }
    {
        let root = find_root(&self.roots, self.version);
        if key >= TOP {
            return false;
        }
        let leaf = leaf_of(&self.nodes, root.node, root.levels - 1, key);
        let mut meter = Meter::new();
        self.nodes
            .read(NodeNo(leaf), &mut meter)
            .child_at(key)
            .is_some()
    }

    /// The root of the tree at the version: a node over all keys that is alive then.
    pub fn root_at(&self, version: u32) -> NodeNo
        ensures root { result.0 ≡ (root_of self.now.roots version).node }
        ensures stands { version < 4294967295 → IsRootAt self.now.nodes version (root_of self.now.roots version) }
    {
        NodeNo(find_root(&self.roots, version).node)
    }

    /// The number of levels of the tree at the version, from 1 to 10.
    pub fn levels(&self, version: u32) -> u32
        ensures levels { result ≡ (root_of self.now.roots version).levels }
        ensures some { version < 4294967295 → 1 ≤ result }
        ensures few { version < 4294967295 → result ≤ 10 }
    {
        find_root(&self.roots, version).levels
    }

    /// The node with the number; the meter counts one read.
    pub fn node(&self, number: NodeNo, meter: &mut Meter) -> &Node
        requires { number.0 < length self.now.nodes }
        ensures node { slice_get self.now.nodes number.0 ≡ Some result.now }
        ensures counted { meter.new ≡ min (meter.old + 1) u64.MAX }
    {
        self.nodes.read(number, meter)
    }

    /// Begins the key's life at the version. After `AllocError` the tree is unchanged.
    pub fn insert(&mut self, key: u128, version: u32) -> Result<(), AllocError>
        requires later { self.old.version < version }
        requires small { version ≤ 16777216 }
        requires key { key < 2 ^ 96 }
        requires never { (v : ℕ) → lives_of self.old.nodes key v ≡ false }
        ensures tree { OnOk result (IsTree self.new.version self.new.nodes self.new.roots) }
        ensures version { OnOk result (self.new.version ≡ version) }
        ensures life { OnOk result (HasLife self.new.nodes key version 4294967295) }
        ensures others { OnOk result ((k v : ℕ) → k ≢ key → lives_of self.new.nodes k v ≡ lives_of self.old.nodes k v) }
        ensures roots { OnOk result ((v : ℕ) → v < version → root_of self.new.roots v ≡ root_of self.old.roots v) }
        ensures err { OnErr result (self.new ≡ self.old) }
    {
        apply(
            self.alloc,
            &mut self.nodes,
            &mut self.roots,
            &mut self.version,
            key,
            version,
            true,
        )
    }

    /// Ends the key's life at the version, from which on it is dead. After `AllocError` the tree is unchanged.
    pub fn delete(&mut self, key: u128, version: u32) -> Result<(), AllocError>
        requires later { self.old.version < version }
        requires small { version ≤ 16777216 }
        requires key { key < 2 ^ 96 }
        requires alive { lives_of self.old.nodes key self.old.version ≡ true }
        ensures tree { OnOk result (IsTree self.new.version self.new.nodes self.new.roots) }
        ensures version { OnOk result (self.new.version ≡ version) }
        ensures life { OnOk result ((born : ℕ) → HasLife self.old.nodes key born 4294967295 → HasLife self.new.nodes key born version) }
        ensures others { OnOk result ((k v : ℕ) → k ≢ key → lives_of self.new.nodes k v ≡ lives_of self.old.nodes k v) }
        ensures roots { OnOk result ((v : ℕ) → v < version → root_of self.new.roots v ≡ root_of self.old.roots v) }
        ensures err { OnErr result (self.new ≡ self.old) }
    {
        apply(
            self.alloc,
            &mut self.nodes,
            &mut self.roots,
            &mut self.version,
            key,
            version,
            false,
        )
    }

    /// The regions of the leaves in the order of their numbers; the meter counts at least one read for each leaf.
    /// `AllocError` if an allocation failed.
    pub fn leaf_regions(&self, meter: &mut Meter) -> Result<Vec<Region>, AllocError>
        ensures regions { IfOk result (λ rs. rs.items ≡ regions_from 0 self.now.nodes) }
        ensures in_range { IfOk result (λ rs. All (λ r. r.node.0 < length self.now.nodes) rs.items) }
        ensures counted { IfOk result (λ rs. min (meter.old + length rs.items) u64.MAX ≤ meter.new) }
    {
        regions(self.alloc, &self.nodes, meter)
    }
}

// Appends the new root, if there is one.
fn push_root(roots: &mut Vec<Root>, next: Option<Root>)
    requires { vec_len roots.old < vec_capacity roots.old }
    ensures { roots.new.items ≡ roots.old.items ++ option_to_list next }
{
    if let Some(root) = next {
        roots.push_reserved(root);
    }
}

// Begins or ends the key's life at the version.
fn apply(
    alloc: Global,
    nodes: &mut Arena<Node>,
    roots: &mut Vec<Root>,
    last_version: &mut u32,
    key: u128,
    version: u32,
    alive: bool,
) -> Result<(), AllocError>
    requires tree { IsTree last_version.old nodes.old.nodes roots.old.items }
    requires later { last_version.old < version }
    requires small { version ≤ 16777216 }
    requires key { key < 79228162514264337593543950336 }
    requires never { alive ≡ true → (v : ℕ) → lives_of nodes.old.nodes key v ≡ false }
    ensures tree { OnOk result (IsTree version nodes.new.nodes roots.new.items) }
    ensures version { OnOk result (last_version.new ≡ version) }
    ensures lives { OnOk result ((k v : ℕ) → k < 79228162514264337593543950336 → v < 4294967295 → lives_of nodes.new.nodes k v ≡ with_life (lives_of nodes.old.nodes) key version alive k v) }
    ensures others { OnOk result ((k v : ℕ) → k ≢ key → lives_of nodes.new.nodes k v ≡ lives_of nodes.old.nodes k v) }
    ensures past { OnOk result ((v : ℕ) → v < version → root_of roots.new.items v ≡ root_of roots.old.items v) }
    ensures nodes { OnErr result (nodes.new.nodes ≡ nodes.old.nodes) }
    ensures roots { OnErr result (roots.new.items ≡ roots.old.items) }
    ensures same_version { OnErr result (last_version.new ≡ last_version.old) }
{
    let root = find_root(roots, *last_version);
    nodes.reserve(2 * root.levels + 1)?;
    roots.reserve(1)?;
    let last = update(
        alloc,
        nodes,
        root.node,
        root.levels - 1,
        key,
        version,
        alive,
    );
    let next = settle_root(alloc, nodes, root, last, version);
    push_root(roots, next);
    *last_version = version;
    Ok(())
}
