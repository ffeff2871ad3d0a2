//! An update: a key's life begins or ends, and the nodes on its path are replaced from the leaf upwards if they must
//! be.

ghost use Rattle.std.specs.Prelude.{◌≡◌, ◌+◌, ◌*◌, ◌<◌, ◌≤◌, [], length};
ghost use Rattle.tq_mvbt.specs.Shape.{IsFound};
ghost use Rattle.tq_mvbt.specs.Links.{AreUntouched, UpdatesLinks};
ghost use Rattle.tq_mvbt.specs.Unsettled.{IsForestBy, IsReady, IsSettling, Grows, KeyChanges};

use crate::entry::{Entry, NOW};
use crate::node::Node;
use crate::replace::replace;
use crate::steps::{add, child_of, edit, fits};
use std::alloc::Global;
use tq_arena::Arena;

// Adds the key to its leaf from the version on, or ends it there. Returns the number of entries that the leaf got.
fn set_life(nodes: &mut Arena<Node>, leaf: u32, key: u128, version: u32, alive: bool) -> usize
    requires small { version < 4294967295 }
    requires key { key < 79228162514264337593543950336 }
    requires ready { IsReady version key alive nodes.old.nodes }
    requires found { IsFound nodes.old.nodes 0 key leaf }
    ensures keyed { KeyChanges version key alive nodes.old.nodes nodes.new.nodes }
    ensures settling { IsSettling version 0 result nodes.new.nodes leaf }
    ensures grows { Grows version 0 nodes.old.nodes nodes.new.nodes }
    ensures links { AreUntouched version nodes.old.nodes → AreUntouched version nodes.new.nodes }
    ensures room { nodes.new.room ≡ nodes.old.room }
    ensures len { length nodes.new.nodes ≡ length nodes.old.nodes }
{
    if !alive {
        edit(nodes, leaf, key, key + 1, version, &[]);
        return 0;
    }
    let entry = Entry {
        low: key,
        high: key + 1,
        born: version,
        dead: NOW,
        child: 0,
    };
    add(nodes, leaf, entry);
    1
}

// Begins or ends the key's life below the node, and replaces each node below it that must be. Returns the number of
// entries that the node itself got. The node can then have too many entries or too few live ones.
pub(crate) fn update(
    alloc: Global,
    nodes: &mut Arena<Node>,
    number: u32,
    level: u32,
    key: u128,
    version: u32,
    alive: bool,
) -> usize
    requires small { version < 4294967295 }
    requires key { key < 79228162514264337593543950336 }
    requires ready { IsReady version key alive nodes.old.nodes }
    requires found { IsFound nodes.old.nodes level key number }
    requires room { 2 * level ≤ nodes.old.room }
    ensures keyed { KeyChanges version key alive nodes.old.nodes nodes.new.nodes }
    ensures forest { IsForestBy version nodes.new.nodes }
    ensures settling { IsSettling version level result nodes.new.nodes number }
    ensures grows { Grows version level nodes.old.nodes nodes.new.nodes }
    ensures links { UpdatesLinks level version nodes.old.nodes nodes.new.nodes }
    ensures room { nodes.old.room ≤ nodes.new.room + 2 * level }
    ensures len { length nodes.new.nodes ≤ length nodes.old.nodes + 2 * level }
{
    if level == 0 {
        return set_life(nodes, number, key, version, alive);
    }
    let child = child_of(nodes, number, level, key);
    let last = update(alloc, nodes, child, level - 1, key, version, alive);
    if fits(nodes, child, 5) {
        return 0;
    }
    replace(alloc, nodes, child, last, number, level - 1, version)
}
