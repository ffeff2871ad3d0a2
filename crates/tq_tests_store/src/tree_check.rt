//! A tree's leaves, compared with a plain list of lives.

ghost use Rattle.std.specs.Prelude.{◌<◌, length, All};

use crate::lives::{Count, Known, Life, NONE, count_at, is_before};
use crate::words::TOP;
use std::alloc::AllocError;
use tq_arena::Meter;
use tq_mvbt::{Node, Region, Tree};

/// The comparisons: entries of leaves, versions, and trees.
#[derive(Clone, Copy)]
pub(crate) struct Counts {
    entries: Count,
    versions: Count,
    trees: Count,
}

// The life of a leaf's entry.
fn entry_at(leaf: &Node, place: u32) -> Life
    requires { place < length leaf.now.entries }
{
    Life {
        key: leaf.key(place),
        born: leaf.born_of(place),
        dead: leaf.dead_of(place),
    }
}

// How many entries of the leaf are alive at the version.
fn live_at(leaf: &Node, version: u32) -> usize {
    let mut live: usize = 0;
    for place in 0..leaf.len() {
        if entry_at(leaf, place).holds(version) {
            live = live.saturating_add(1);
        }
    }
    live
}

// Whether the entry's end is the life's, or is left out because the leaf ends before.
fn prints_end(region: &Region, entry: &Life, life: &Life) -> bool {
    if entry.dead == life.dead {
        return true;
    }
    match (region.died, entry.dead, life.dead) {
        (Some(_), None, None) => true,
        (Some(end), None, Some(gone)) => end <= gone,
        _ => false,
    }
}

// Whether the life meets the leaf's region.
fn meets(region: &Region, life: &Life) -> bool {
    region.low <= life.key
        && life.key < region.high
        && is_before(life.born, region.died)
        && is_before(region.born, life.dead)
}

// Whether the entry is that of a life which meets the leaf's region.
fn is_printed(region: &Region, entry: &Life, lives: &[Life]) -> bool {
    match lives.get((entry.key % 4294967296) as usize) {
        Some(life) => {
            entry.key == life.key
                && entry.born == life.born
                && prints_end(region, entry, life)
                && meets(region, life)
        }
        None => false,
    }
}

// Compares each entry of the leaf with its key's life, up to the end of the leaf.
fn check_entries(region: &Region, leaf: &Node, lives: &[Life], entries: &mut Count) {
    for place in 0..leaf.len() {
        entries.add(is_printed(region, &entry_at(leaf, place), lives));
    }
}

// Whether the leaves of the version have all keys between them, and list all that are alive then, each leaf enough.
fn is_tiled(tree: &Tree, regions: &[Region], lives: &[Life], version: u32) -> bool
    requires { All (λ r. r.node.0 < length tree.now.nodes) regions.now }
{
    let mut keys: u128 = 0;
    let mut listed: usize = 0;
    let mut enough = true;
    for region in regions {
        if version < region.born || !is_before(version, region.died) {
            continue;
        }
        let live = live_at(tree.node(region.node, &mut Meter::new()), version);
        enough = enough && (live >= 5 || tree.levels(version) == 1);
        listed = listed.saturating_add(live);
        keys = keys.wrapping_add(region.high.wrapping_sub(region.low));
    }
    enough && keys == TOP && listed == count_at(lives, version)
}

// Whether there are few nodes: the last leaf's number is at most about half the number of keys.
fn are_few(regions: &[Region], lives: &[Life]) -> bool {
    match regions.last() {
        Some(last) => last.node.0 as u64 <= lives.len() as u64 / 2 + 20,
        None => false,
    }
}

/// No comparisons.
pub(crate) const NOTHING: Counts = Counts {
    entries: NONE,
    versions: NONE,
    trees: NONE,
};

impl Counts {
    // Compares the leaves with the lives, one by one, and at thirty versions up to the last one.
    fn check_leaves(&mut self, known: &Known, regions: &[Region], version: u32)
        requires { All (λ r. r.node.0 < length known.now.grower.tree.nodes) regions.now }
    {
        let tree = &known.grower.tree;
        for region in regions {
            let leaf = tree.node(region.node, &mut Meter::new());
            check_entries(region, leaf, &known.lives, &mut self.entries);
        }
        for part in 0..30u64 {
            let sample = (version as u64 * part / 29) as u32;
            self.versions
                .add(is_tiled(tree, regions, &known.lives, sample));
        }
    }

    /// Compares the tree with the lives.
    pub(crate) fn check(&mut self, known: &Known, version: u32) -> Result<(), AllocError> {
        let mut meter = Meter::new();
        let regions = known.grower.tree.leaf_regions(&mut meter)?;
        let read = meter.count() >= regions.len() as u64;
        self.trees.add(read && are_few(&regions, &known.lives));
        self.check_leaves(known, &regions, version);
        Ok(())
    }

    /// Prints the numbers of comparisons.
    pub(crate) fn print(&self, out: &mut String) -> Result<(), AllocError> {
        self.entries.print("entries of leaves", out)?;
        self.versions.print("versions", out)?;
        self.trees.print("trees", out)
    }
}
