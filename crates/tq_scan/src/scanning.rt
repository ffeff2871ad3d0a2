//! The scan of a part of a window.

ghost use Rattle.std.specs.Prelude.{◌≡◌, ◌+◌, ◌-◌, ◌*◌, ◌/◌, ◌<◌, ◌≤◌, ◌++◌, slice_get, length, min, count_by, OnOk, IfOk, IsPermutation};
ghost use Rattle.std.specs.List.Sorted.{IsNonDecreasing, IsNonDecreasingBy};
ghost use Rattle.tq_mvbt.specs.TreeState.{height_of};
ghost use Rattle.tq_scan.specs.Windows.{IsInside};
ghost use Rattle.tq_scan.specs.Lists.{ListsJust, ListsOnce, IsLonger};
ghost use Rattle.tq_scan.specs.Scans.{FoundIn, IsMetLeaf, numbers, alive_at};
ghost use Rattle.tq_scan.specs.Reports.{keys_at, keys_of};
ghost use Rattle.tq_scan.specs.Follows.{followed_at};
ghost use Rattle.tq_scan.specs.Rows.{IsRowOf};

use crate::found::{Found, Keys};
use crate::keys::push_keys;
use crate::leaves::{last_leaves, push_linked};
use crate::window::{Part, Window};
use std::alloc::{AllocError, Global};
use tq_arena::{Meter, NodeNo};
use tq_mvbt::{NodeNos, Tree, trees_tile};

fn sort_keys(keys: &mut Vec<u128>) -> Result<(), AllocError>
    ensures same { IsPermutation keys.old.items keys.new.items }
    ensures len { length keys.new.items ≡ length keys.old.items }
    ensures sorted { OnOk result (IsNonDecreasing keys.new.items) }
{
    keys.sort()
}

// Sorts nodes by number.
fn sort_nodes(nodes: &mut Vec<NodeNo>) -> Result<(), AllocError>
    ensures same { IsPermutation nodes.old.items nodes.new.items }
    ensures len { length nodes.new.items ≡ length nodes.old.items }
    ensures sorted { OnOk result (IsNonDecreasingBy (λ n. n.0) nodes.new.items) }
{
    nodes.sort_by_key(|node| node.0)?;
    Ok(())
}

// Reads the leaf, and appends the keys that it reports and the leaves to which its followed links lead.
fn read_leaf(
    tree: &Tree,
    number: NodeNo,
    window: &Window,
    part: &Part,
    keys: &mut Vec<u128>,
    leaves: &mut Vec<NodeNo>,
    meter: &mut Meter,
) -> Result<(), AllocError>
    requires { number.0 < length tree.now.nodes }
    ensures keys { OnOk result (keys.new.items ≡ keys.old.items ++ keys_at window.now part.now (slice_get tree.now.nodes number.0)) }
    ensures leaves { OnOk result (leaves.new.items ≡ leaves.old.items ++ followed_at part.now (slice_get tree.now.nodes number.0)) }
    ensures counted { meter.new ≡ min (meter.old + 1) u64.MAX }
{
    let leaf = tree.node(number, meter);
    push_keys(keys, leaf, window, part)?;
    push_linked(leaves, leaf, part)
}

// The keys that the leaves report. Leaves that are reached along links are appended to the list; each leaf is read
// once.
fn read_leaves(
    alloc: Global,
    tree: &Tree,
    window: &Window,
    part: &Part,
    leaves: &mut Vec<NodeNo>,
    meter: &mut Meter,
) -> Result<Vec<u128>, AllocError>
    requires inside { IsInside window.now part.now }
    requires row { IsRowOf tree.now.nodes part.now 0 leaves.old.items }
    ensures leaves { IfOk result (λ keys. ListsOnce (IsMetLeaf tree.now.nodes part.now) (numbers leaves.new.items)) }
    ensures longer { IfOk result (λ keys. IsLonger leaves.old.items leaves.new.items) }
    ensures keys { IfOk result (λ keys. keys.items ≡ keys_of window.now part.now tree.now.nodes leaves.new.items) }
    ensures at_least { IfOk result (λ keys. min (meter.old + length leaves.new.items) u64.MAX ≤ meter.new) }
    ensures at_most { IfOk result (λ keys. meter.new ≤ meter.old + length leaves.new.items) }
{
    trees_tile();
    let _version = tree.version();
    let mut keys = Vec::new(alloc);
    let mut place = 0;
    'leaves: while place < leaves.len() {
        let number = leaves[place];
        read_leaf(tree, number, window, part, &mut keys, leaves, meter)?;
        place += 1;
    }
    Ok(keys)
}

/// The keys of the tree that are found in the part, and the leaves whose region meets it, both in ascending order. It
/// descends once, to the leaves at the part's last version, and goes back from there along links. The meter counts each
/// leaf once. On each level above the leaves it counts at least one read, and at most one for each leaf that is alive
/// at the part's last version. A window of one version meets at most two leaves more than a fifth of its keys.
/// `AllocError` if an allocation failed.
pub fn scan(
    alloc: Global,
    tree: &Tree,
    window: &Window,
    part: &Part,
    meter: &mut Meter,
) -> Result<Found, AllocError>
    requires { IsInside window.now part.now }
    ensures keys { IfOk result (λ found. ListsJust (FoundIn tree.now.nodes window.now part.now) found.keys) }
    ensures leaves { IfOk result (λ found. ListsJust (IsMetLeaf tree.now.nodes part.now) (numbers found.leaves)) }
    ensures at_least { IfOk result (λ found. min (meter.old + length found.leaves + (height_of tree.now.roots part.now.last - 1)) u64.MAX ≤ meter.new) }
    ensures at_most { IfOk result (λ found. meter.new ≤ meter.old + length found.leaves + (height_of tree.now.roots part.now.last - 1) * count_by (alive_at tree.now.nodes part.now.last) found.leaves) }
    ensures one_version { IfOk result (λ found. window.now.first ≡ window.now.last → length found.leaves ≤ length found.keys / 5 + 2) }
{
    trees_tile();
    let _version = tree.version();
    let mut leaves = last_leaves(alloc, tree, part, meter)?;
    let mut keys = read_leaves(alloc, tree, window, part, &mut leaves, meter)?;
    sort_keys(&mut keys)?;
    sort_nodes(&mut leaves)?;
    Ok(Found {
        keys: Keys::of(keys),
        leaves: NodeNos::of(leaves),
    })
}

/// `scan` without sorting: each key and each leaf once, in any order. `AllocError` if an allocation failed.
pub fn scan_unsorted(
    alloc: Global,
    tree: &Tree,
    window: &Window,
    part: &Part,
    meter: &mut Meter,
) -> Result<Found, AllocError>
    requires { IsInside window.now part.now }
    ensures keys { IfOk result (λ found. ListsOnce (FoundIn tree.now.nodes window.now part.now) found.keys) }
    ensures leaves { IfOk result (λ found. ListsOnce (IsMetLeaf tree.now.nodes part.now) (numbers found.leaves)) }
    ensures at_least { IfOk result (λ found. min (meter.old + length found.leaves + (height_of tree.now.roots part.now.last - 1)) u64.MAX ≤ meter.new) }
    ensures at_most { IfOk result (λ found. meter.new ≤ meter.old + length found.leaves + (height_of tree.now.roots part.now.last - 1) * count_by (alive_at tree.now.nodes part.now.last) found.leaves) }
    ensures one_version { IfOk result (λ found. window.now.first ≡ window.now.last → length found.leaves ≤ length found.keys / 5 + 2) }
{
    trees_tile();
    let _version = tree.version();
    let mut leaves = last_leaves(alloc, tree, part, meter)?;
    let keys = read_leaves(alloc, tree, window, part, &mut leaves, meter)?;
    Ok(Found {
        keys: Keys::of(keys),
        leaves: NodeNos::of(leaves),
    })
}
