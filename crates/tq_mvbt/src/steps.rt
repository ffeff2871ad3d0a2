//! Steps on the nodes of an arena: finding, editing, ending and adding nodes.

ghost use Rattle.std.specs.Prelude.{◌≡◌, ◌+◌, ◌-◌, ◌<◌, ◌≤◌, ◌++◌, IsTrue, true, ◌↔◌, length, count_by, slice_get, IfSome, filter, IsPermutation};
ghost use Rattle.std.specs.List.Sorted.{IsNonDecreasingBy};
ghost use Rattle.arrayvec.specs.ArrayVec.{array_vec_len};
ghost use Rattle.smallvec.specs.SmallVec.{small_vec_len, HasRoomFor};
ghost use Rattle.tq_mvbt.specs.Points.{is_live};
ghost use Rattle.tq_mvbt.specs.Shape.{IsSomeForest, IsFound};
ghost use Rattle.tq_mvbt.specs.Links.{links_to};
ghost use Rattle.tq_mvbt.specs.Steps.{edited, retired, fresh, with_entry, Changes, HasRoom, Puts, PutsTwo, PutsNodes};

use crate::entry::{Entry, NOW};
use crate::node::{Links, Node};
use arrayvec::ArrayVec;
use tq_arena::{Arena, Meter, NodeNo};

// The child on the path to the key.
pub(crate) fn child_of(nodes: &Arena<Node>, number: u32, level: u32, key: u128) -> u32
    requires forest { IsSomeForest nodes.now.nodes }
    requires index { 0 < level }
    requires found { IsFound nodes.now.nodes level key number }
    ensures { IsFound nodes.now.nodes (level - 1) key result }
{
    let mut meter = Meter::new();
    let node = nodes.read(NodeNo(number), &mut meter);
    node.child_at(key).unwrap()
}

// Ends the live entries of the range and appends the added ones.
pub(crate) fn edit(
    nodes: &mut Arena<Node>,
    number: u32,
    low: u128,
    high: u128,
    version: u32,
    added: &[Entry],
)
    requires { HasRoom nodes.old.nodes number (length added.now) }
    ensures { Changes nodes.old nodes.new number (edited low high version added.now) }
{
    nodes.change(NodeNo(number)).edit(low, high, version, added);
}

// Appends an entry that lives now.
pub(crate) fn add(nodes: &mut Arena<Node>, number: u32, entry: Entry)
    requires room { HasRoom nodes.old.nodes number 1 }
    requires live { is_live entry ≡ true }
    ensures { Changes nodes.old nodes.new number (with_entry entry) }
{
    nodes.change(NodeNo(number)).add(entry);
}

// Whether the node has at most 32 entries, and at least `least` live ones.
pub(crate) fn fits(nodes: &Arena<Node>, number: u32, least: usize) -> bool
    requires { number < length nodes.now.nodes }
    ensures { IfSome (slice_get nodes.now.nodes number) (λ n. IsTrue result ↔ ((length n.entries ≤ 32) × (least ≤ count_by is_live n.entries))) }
{
    let mut meter = Meter::new();
    nodes.read(NodeNo(number), &mut meter).fits(least)
}

// The number of the node's entries that live now.
pub(crate) fn count_live(nodes: &Arena<Node>, number: u32) -> usize
    requires { number < length nodes.now.nodes }
    ensures { IfSome (slice_get nodes.now.nodes number) (λ n. result ≡ count_by is_live n.entries) }
{
    let mut meter = Meter::new();
    nodes.read(NodeNo(number), &mut meter).count_live()
}

// Ends the node, removes its last `last` entries, copies the live ones, and links the node if it is a leaf. Returns the
// node's range.
pub(crate) fn retire(
    nodes: &mut Arena<Node>,
    number: u32,
    last: usize,
    version: u32,
    copied: &mut ArrayVec<Entry, 40>,
    links: &mut Links,
) -> (u128, u128)
    requires stands { number < length nodes.old.nodes }
    requires last { IfSome (slice_get nodes.old.nodes number) (λ n. last ≤ length n.entries) }
    requires room { IfSome (slice_get nodes.old.nodes number) (λ n. array_vec_len copied.old + count_by is_live n.entries ≤ 40) }
    requires room_for_link { HasRoomFor links.old 1 }
    ensures nodes { Changes nodes.old nodes.new number (retired version last) }
    ensures copied { IfSome (slice_get nodes.old.nodes number) (λ n. copied.new.items ≡ copied.old.items ++ filter is_live n.entries) }
    ensures links { IfSome (slice_get nodes.old.nodes number) (λ n. links.new.items ≡ links.old.items ++ links_to number n) }
    ensures links_len { small_vec_len links.new ≤ small_vec_len links.old + 1 }
    ensures links_capacity { links.new.capacity ≡ links.old.capacity }
    ensures range { IfSome (slice_get nodes.old.nodes number) (λ n. (result.0 ≡ n.low) × (result.1 ≡ n.high)) }
{
    let node = nodes.change(NodeNo(number));
    node.copy_live(copied);
    node.push_link(number, links);
    let range = (node.low(), node.high());
    node.retire(version, last);
    range
}

// Adds a node with the entries, and returns the entry for it.
pub(crate) fn push_node(
    nodes: &mut Arena<Node>,
    level: u32,
    low: u128,
    high: u128,
    version: u32,
    copied: &[Entry],
    links: &Links,
) -> Entry
    requires room { 0 < nodes.old.room }
    requires few { length copied.now ≤ 34 }
    requires few_links { small_vec_len links.now ≤ 2 }
    ensures { Puts nodes.old nodes.new (fresh level low high version copied.now links.now.items) result }
{
    let number = nodes.push_reserved(Node::begin(level, low, high, version, copied, links));
    Entry {
        low,
        high,
        born: version,
        dead: NOW,
        child: number.0,
    }
}

// Sorts entries by their low keys.
fn sort_entries(entries: &mut [Entry])
    ensures same { IsPermutation entries.old entries.new }
    ensures len { length entries.new ≡ length entries.old }
    ensures sorted { IsNonDecreasingBy (λ e. e.low) entries.new }
{
    entries.sort_unstable_by_key(|entry| entry.low);
}

// Sorts copied entries by their low keys.
fn sort_copied(copied: &mut ArrayVec<Entry, 40>)
    ensures same { IsPermutation copied.old.items copied.new.items }
    ensures len { array_vec_len copied.new ≡ array_vec_len copied.old }
    ensures sorted { IsNonDecreasingBy (λ e. e.low) copied.new.items }
{
    sort_entries(copied.as_mut_slice());
}

// Adds two nodes that share the entries, the smaller half in the lower one, and returns the entries for them.
fn push_two(
    nodes: &mut Arena<Node>,
    level: u32,
    low: u128,
    high: u128,
    version: u32,
    copied: &mut ArrayVec<Entry, 40>,
    links: &Links,
) -> ArrayVec<Entry, 2>
    requires room { 2 ≤ nodes.old.room }
    requires many { 25 ≤ array_vec_len copied.old }
    requires few_links { small_vec_len links.now ≤ 2 }
    ensures { PutsTwo nodes.old nodes.new level low high version copied.old.items result.items links.now.items }
{
    sort_copied(copied);
    let (lower, upper) = copied.as_slice().split_at(copied.len() / 2);
    let middle = upper[0].low;
    let mut added = ArrayVec::new();
    added.push(push_node(nodes, level, low, middle, version, lower, links));
    added.push(push_node(nodes, level, middle, high, version, upper, links));
    added
}

// Adds one node with the entries, or two if there are 25 or more, and returns the entries for them.
pub(crate) fn push_nodes(
    nodes: &mut Arena<Node>,
    level: u32,
    low: u128,
    high: u128,
    version: u32,
    copied: &mut ArrayVec<Entry, 40>,
    links: &Links,
) -> ArrayVec<Entry, 2>
    requires room { 2 ≤ nodes.old.room }
    requires few_links { small_vec_len links.now ≤ 2 }
    ensures { PutsNodes nodes.old nodes.new level low high version copied.old.items result.items links.now.items }
{
    if copied.len() >= 25 {
        return push_two(nodes, level, low, high, version, copied, links);
    }
    let mut added = ArrayVec::new();
    added.push(push_node(nodes, level, low, high, version, copied, links));
    added
}
