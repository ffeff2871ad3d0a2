//! Printing of trees.

ghost use Rattle.std.specs.Prelude.{◌<◌, length, All};

use crate::words::TOP;
use std::alloc::AllocError;
use std::fmt::Write;
use tq_arena::{Meter, NodeNo};
use tq_mvbt::{Link, Node, Region, Tree};
use tq_tests_script::print_nothing;

// A number, after the given text.
fn push_number(before: &str, number: u32, out: &mut String) -> Result<(), AllocError> {
    write!(out, "{before}{number}")
}

/// Prints a number, and what it counts.
pub(crate) fn print_number(what: &str, number: u64, out: &mut String) -> Result<(), AllocError> {
    writeln!(out, "{what}: {number}")
}

/// Prints whether something holds.
pub(crate) fn print_whether(holds: bool, out: &mut String) -> Result<(), AllocError> {
    out.push_str(if holds { "yes\n" } else { "no\n" })
}

/// Prints the key: its upper part, and its row.
pub(crate) fn print_key(key: u128, out: &mut String) -> Result<(), AllocError> {
    match key {
        0 => out.push_str("least"),
        TOP => out.push_str("top"),
        _ => write!(out, "{}:{}", key / 4294967296, key % 4294967296),
    }
}

/// Prints the keys from `low` up to `high`.
pub(crate) fn print_range(low: u128, high: u128, out: &mut String) -> Result<(), AllocError> {
    out.push_str(": keys ")?;
    print_key(low, out)?;
    out.push_str(" to ")?;
    print_key(high, out)
}

// Prints the first version, and the end.
fn print_life(born: u32, died: Option<u32>, out: &mut String) -> Result<(), AllocError> {
    push_number(", from version ", born, out)?;
    match died {
        Some(end) => push_number(" until ", end, out),
        None => out.push_str(" on"),
    }
}

// Prints the keys and the versions of a node or an entry.
fn print_bounds(
    (low, high): (u128, u128),
    born: u32,
    died: Option<u32>,
    out: &mut String,
) -> Result<(), AllocError> {
    print_range(low, high, out)?;
    print_life(born, died, out)
}

/// Prints the numbers of nodes.
pub(crate) fn print_numbers(numbers: &[NodeNo], out: &mut String) -> Result<(), AllocError> {
    for NodeNo(number) in numbers {
        push_number(" ", *number, out)?;
    }
    Ok(())
}

// Prints a link of a leaf.
fn print_link(link: &Link, out: &mut String) -> Result<(), AllocError> {
    let NodeNo(node) = link.node;
    push_number("    links node ", node, out)?;
    print_range(link.low, link.high, out)?;
    out.push('\n')
}

fn print_links(leaf: &Node, out: &mut String) -> Result<(), AllocError> {
    for link in leaf.links() {
        print_link(link, out)?;
    }
    Ok(())
}

// Prints the region of a leaf, and the numbers of the leaves that it links.
fn print_region(region: &Region, out: &mut String) -> Result<(), AllocError> {
    let NodeNo(node) = region.node;
    push_number("node ", node, out)?;
    print_bounds((region.low, region.high), region.born, region.died, out)?;
    out.push_str(", links:")?;
    print_numbers(region.links.get(), out)?;
    out.push('\n')
}

// Prints the leaves, each with its region and its links.
fn print_each(
    tree: &Tree,
    regions: &[Region],
    meter: &mut Meter,
    out: &mut String,
) -> Result<(), AllocError>
    requires { All (λ r. r.node.0 < length tree.now.nodes) regions.now }
{
    for region in regions {
        print_region(region, out)?;
        print_links(tree.node(region.node, meter), out)?;
    }
    Ok(())
}

/// Prints the leaves, their number, and whether each was read.
pub(crate) fn print_leaves(tree: &Tree, out: &mut String) -> Result<(), AllocError> {
    let mut meter = Meter::new();
    let regions = tree.leaf_regions(&mut meter)?;
    let count = regions.len() as u64;
    let read = meter.count() >= count;
    print_each(tree, &regions, &mut meter, out)?;
    print_number("leaves", count, out)?;
    print_whether(read, out)
}

// Prints the child at the place of an index node.
fn print_child(node: &Node, place: u32, out: &mut String) -> Result<(), AllocError>
    requires in_range { place < length node.now.entries }
    requires index { 0 < node.now.level }
{
    let NodeNo(child) = node.child(place);
    let range = (node.key(place), node.high_of(place));
    push_number("    child ", child, out)?;
    print_bounds(range, node.born_of(place), node.dead_of(place), out)?;
    out.push('\n')
}

fn print_children(node: &Node, out: &mut String) -> Result<(), AllocError> {
    if node.is_leaf() {
        return Ok(());
    }
    for place in 0..node.len() {
        print_child(node, place, out)?;
    }
    Ok(())
}

// Prints the node's kind, its region, and its numbers of entries and links.
fn print_node(node: &Node, out: &mut String) -> Result<(), AllocError> {
    out.push_str(if node.is_leaf() { "leaf" } else { "index node" })?;
    print_bounds((node.low(), node.high()), node.born(), node.died(), out)?;
    out.push('\n')?;
    print_number("links", node.links().len() as u64, out)?;
    print_number("entries", node.len() as u64, out)
}

/// Prints the root of the version, its children, and the number of reads.
pub(crate) fn print_root_node(
    tree: &Tree,
    version: u32,
    out: &mut String,
) -> Result<(), AllocError> {
    if version == u32::MAX {
        return print_nothing(out);
    }
    let mut meter = Meter::new();
    let node = tree.node(tree.root_at(version), &mut meter);
    print_node(node, out)?;
    print_children(node, out)?;
    print_number("reads", meter.count(), out)
}
