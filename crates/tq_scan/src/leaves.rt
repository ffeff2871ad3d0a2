//! The descent from the root to the leaves at a part's last version, and the links from a leaf.

ghost use Rattle.std.specs.Prelude.{◌≡◌, ◌+◌, ◌-◌, ◌*◌, ◌<◌, ◌≤◌, ◌++◌, length, min, All, IfOk, OnOk, IfSome, slice_get};
ghost use Rattle.tq_mvbt.specs.TreeState.{height_of};
ghost use Rattle.tq_scan.specs.Windows.{IsSmall};
ghost use Rattle.tq_scan.specs.Follows.{is_met_child, met_children, children_of, is_met_link, is_followed, followed};
ghost use Rattle.tq_scan.specs.Rows.{IsMetNode, IsRowOf};

use crate::keys::is_before;
use crate::window::Part;
use smallvec::SmallVec;
use std::alloc::{AllocError, Global};
use tq_arena::{Meter, NodeNo};
use tq_mvbt::{Link, Node, Tree};

// The nodes of one level that a scan still has to read. A scan for one key has one node on each level, and one for a
// short range of keys a few, so eight are stored inline. Longer ranges need an allocation.
type Row = SmallVec<NodeNo, 8>;

// Whether the entry's child is alive at the part's last version and has keys of the part.
fn leads_to_part(node: &Node, place: u32, part: &Part) -> bool
    requires { place < length node.now.entries }
    ensures { IfSome (slice_get node.now.entries place) (λ e. result ≡ is_met_child part.now e) }
{
    node.key(place) < part.high
        && part.low < node.high_of(place)
        && node.born_of(place) <= part.last
        && is_before(part.last, node.dead_of(place))
}

// Appends the children that a scan visits.
fn push_children(row: &mut Row, node: &Node, part: &Part) -> Result<(), AllocError>
    requires { 0 < node.now.level }
    ensures { OnOk result (row.new.items ≡ row.old.items ++ met_children part.now node.now) }
{
    for place in 0..node.len() {
        if leads_to_part(node, place, part) {
            row.push(node.child(place))?;
        }
    }
    Ok(())
}

// The children that a scan visits from the nodes of a level; each of these nodes is read once.
fn next_row(
    alloc: Global,
    tree: &Tree,
    part: &Part,
    level: u32,
    row: &[NodeNo],
    meter: &mut Meter,
) -> Result<Row, AllocError>
    requires index { 0 < level }
    requires each { All (IsMetNode tree.now.nodes part.now level) row.now }
    ensures children { IfOk result (λ next. next.items ≡ children_of part.now tree.now.nodes row.now) }
    ensures at_least { IfOk result (λ next. min (meter.old + length row.now) u64.MAX ≤ meter.new) }
    ensures at_most { IfOk result (λ next. meter.new ≤ meter.old + length row.now) }
{
    let mut next = SmallVec::new(alloc);
    for number in row {
        push_children(&mut next, tree.node(*number, meter), part)?;
    }
    Ok(next)
}

// The leaves that are alive at the part's last version and have keys of the part.
pub(crate) fn last_leaves(
    alloc: Global,
    tree: &Tree,
    part: &Part,
    meter: &mut Meter,
) -> Result<Vec<NodeNo>, AllocError>
    requires { IsSmall part.now }
    ensures leaves { IfOk result (λ leaves. IsRowOf tree.now.nodes part.now 0 leaves.items) }
    ensures at_least { IfOk result (λ leaves. min (meter.old + (height_of tree.now.roots part.now.last - 1)) u64.MAX ≤ meter.new) }
    ensures at_most { IfOk result (λ leaves. meter.new ≤ meter.old + (height_of tree.now.roots part.now.last - 1) * length leaves.items) }
{
    let _version = tree.version();
    let levels = tree.levels(part.last);
    let mut row: Row = SmallVec::new(alloc);
    row.push(tree.root_at(part.last))?;
    for passed in 1..levels {
        row = next_row(alloc, tree, part, levels - passed, &row, meter)?;
    }
    Ok(row.into_vec()?)
}

// Whether the linked leaf has a point in the part: the leaf was born after the part's first version, and the linked
// leaf has keys of the part.
pub(crate) fn meets(leaf: &Node, link: &Link, part: &Part) -> bool
    ensures { result ≡ is_met_link part.now leaf.now link.now }
{
    part.first < leaf.born() && link.low < part.high && part.low < link.high
}

// Whether a scan follows the link: the linked leaf has a point in the part, and the greater of its low key and the
// part's lies in the leaf's range.
pub(crate) fn follows(leaf: &Node, link: &Link, part: &Part) -> bool
    ensures { result ≡ is_followed part.now leaf.now link.now }
{
    let low = link.low.max(part.low);
    meets(leaf, link, part) && leaf.low() <= low && low < leaf.high()
}

// Appends the leaves to which the leaf's followed links lead.
pub(crate) fn push_linked(
    leaves: &mut Vec<NodeNo>,
    leaf: &Node,
    part: &Part,
) -> Result<(), AllocError>
    ensures { OnOk result (leaves.new.items ≡ leaves.old.items ++ followed part.now leaf.now) }
{
    for link in leaf.links() {
        if follows(leaf, link, part) {
            leaves.push(link.node)?;
        }
    }
    Ok(())
}
