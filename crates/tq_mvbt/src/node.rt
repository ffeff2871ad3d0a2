//! Nodes: a range of keys, a life in versions, and entries.

ghost use Rattle.std.specs.Prelude.{◌≡◌, ◌+◌, ◌<◌, ◌≤◌, ◌++◌, ◌-◌, length, filter, count_by, slice_get, Some, IsTrue, true, ◌↔◌, IfSome, MatchOption};
ghost use Rattle.arrayvec.specs.ArrayVec.{array_vec_len};
ghost use Rattle.smallvec.specs.SmallVec.{small_vec_len, HasRoomFor};
ghost use Rattle.tq_mvbt.specs.Points.{is_live, leads, IsChild, end_of};

use crate::entry::{self, Entry, NOW};
use arrayvec::ArrayVec;
use smallvec::SmallVec;
use std::marker::Model;
use tq_arena::NodeNo;

/// The most entries of a node between two updates.
pub(crate) const CAPACITY: usize = 32;

/// A leaf that another leaf replaced: its number, and its keys `low <= k < high`.
#[derive(Clone, Copy, PartialEq, Eq, Default, Debug)]
pub struct Link {
    pub node: NodeNo,
    pub low: u128,
    pub high: u128,
}

/// The links of a leaf. A change replaces at most two leaves, so both links fit inline and nothing is allocated.
pub(crate) type Links = SmallVec<Link, 2>;

/// A node of the tree, with the number of its entries that live now. During an update it can have two entries too many.
#[derive(Drop)]
pub struct Node {
    level: u32,
    low: u128,
    high: u128,
    born: u32,
    died: u32,
    live: usize,
    entries: ArrayVec<Entry, 34>,
    links: Links,
}

impl Model for Node {
    ghost use Rattle.std.specs.Prelude.{◌≡◌, count_by};
    ghost use Rattle.tq_mvbt.specs.NodeState.{NodeState};
    ghost use Rattle.tq_mvbt.specs.Points.{is_live};

    ghost Value = { NodeState };

    ghost view = { λ n. record { level = n.level; low = n.low; high = n.high; born = n.born; died = n.died; entries = n.entries.items; links = n.links.items } };

    ghost invariant = { λ n. n.live ≡ count_by is_live n.entries.items };
}

impl Node {
    ghost use Rattle.tq_mvbt.specs.Steps.{edited, retired, fresh, with_entry};
    ghost use Rattle.tq_mvbt.specs.Links.{links_to};

    /// Whether the node is a leaf; the others are index nodes.
    pub fn is_leaf(&self) -> bool
        ensures { IsTrue result ↔ (self.now.level ≡ 0) }
    {
        self.level == 0
    }

    /// The least key of the node's range.
    pub fn low(&self) -> u128
        ensures { result ≡ self.now.low }
    {
        self.low
    }

    /// The key after the last of the node's range.
    pub fn high(&self) -> u128
        ensures { result ≡ self.now.high }
    {
        self.high
    }

    /// The first version of the node's life.
    pub fn born(&self) -> u32
        ensures { result ≡ self.now.born }
    {
        self.born
    }

    /// The first version after the node's life; none for a current node.
    pub fn died(&self) -> Option<u32>
        ensures { result ≡ end_of self.now.died }
    {
        ended(self.died)
    }

    /// The number of entries.
    pub fn len(&self) -> u32
        ensures { result ≡ length self.now.entries }
    {
        self.entries.len() as u32
    }

    /// The key of a leaf's entry number i, or the least key of an index entry's child.
    pub fn key(&self, i: u32) -> u128
        requires { i < length self.now.entries }
        ensures { IfSome (slice_get self.now.entries i) (λ e. result ≡ e.low) }
    {
        self.entries[i as usize].low
    }

    /// The key after that of a leaf's entry, or after the last of an index entry's child.
    pub fn high_of(&self, i: u32) -> u128
        requires { i < length self.now.entries }
        ensures { IfSome (slice_get self.now.entries i) (λ e. result ≡ e.high) }
    {
        self.entries[i as usize].high
    }

    /// The version at which the entry's key, or its child, began to live.
    pub fn born_of(&self, i: u32) -> u32
        requires { i < length self.now.entries }
        ensures { IfSome (slice_get self.now.entries i) (λ e. result ≡ e.born) }
    {
        self.entries[i as usize].born
    }

    /// The first version at which the entry's key was dead, or its child replaced; none if the entry has not ended.
    pub fn dead_of(&self, i: u32) -> Option<u32>
        requires { i < length self.now.entries }
        ensures { IfSome (slice_get self.now.entries i) (λ e. result ≡ end_of e.dead) }
    {
        ended(self.entries[i as usize].dead)
    }

    /// The number of an index entry's child.
    pub fn child(&self, i: u32) -> NodeNo
        requires in_range { i < length self.now.entries }
        requires index { 0 < self.now.level }
        ensures { IfSome (slice_get self.now.entries i) (λ e. result.0 ≡ e.child) }
    {
        NodeNo(self.entries[i as usize].child)
    }

    /// The leaves that this leaf replaced, at most two: those whose life ended when its own began. An index node has
    /// none.
    pub fn links(&self) -> &[Link]
        ensures { result.now ≡ self.now.links }
    {
        &self.links
    }

    // A node that begins at the version.
    pub(crate) fn begin(
        level: u32,
        low: u128,
        high: u128,
        version: u32,
        copied: &[Entry],
        links: &Links,
    ) -> Node
        requires few { length copied.now ≤ 34 }
        requires few_links { small_vec_len links.now ≤ 2 }
        ensures { result ≡ fresh level low high version copied.now links.now.items }
    {
        let mut entries = ArrayVec::new();
        append(&mut entries, copied);
        Node {
            level,
            low,
            high,
            born: version,
            died: NOW,
            live: entry::count_live(copied),
            entries,
            links: copy_links(links),
        }
    }

    // Ends the live entries of the range and appends the added ones.
    pub(crate) fn edit(&mut self, low: u128, high: u128, version: u32, added: &[Entry])
        requires { length self.old.entries + length added.now ≤ 34 }
        ensures { self.new ≡ edited low high version added.now self.old }
    {
        entry::end_range(self.entries.as_mut_slice(), low, high, version);
        append(&mut self.entries, added);
        self.live = entry::count_live(&self.entries);
    }

    // Appends an entry that lives now.
    pub(crate) fn add(&mut self, entry: Entry)
        requires room { length self.old.entries < 34 }
        requires live { is_live entry ≡ true }
        ensures { self.new ≡ with_entry entry self.old }
    {
        self.entries.push(entry);
        self.live += 1;
    }

    // Ends the node at the version, and removes its last `last` entries.
    pub(crate) fn retire(&mut self, version: u32, last: usize)
        requires { last ≤ length self.old.entries }
        ensures { self.new ≡ retired version last self.old }
    {
        let len = self.entries.len();
        self.entries.truncate(len - last);
        self.live = entry::count_live(&self.entries);
        self.died = version;
    }

    // Appends a link to this node with its number, if it is a leaf.
    pub(crate) fn push_link(&self, number: u32, links: &mut Links)
        requires { HasRoomFor links.old 1 }
        ensures links { links.new.items ≡ links.old.items ++ links_to number self.now }
        ensures len { small_vec_len links.new ≤ small_vec_len links.old + 1 }
        ensures capacity { links.new.capacity ≡ links.old.capacity }
    {
        if self.level == 0 {
            links.push_reserved(Link {
                node: NodeNo(number),
                low: self.low,
                high: self.high,
            });
        }
    }

    // The number of entries that live now.
    pub(crate) fn count_live(&self) -> usize
        ensures { result ≡ count_by is_live self.now.entries }
    {
        self.live
    }

    // Whether the node has at most 32 entries, and at least `least` live ones.
    pub(crate) fn fits(&self, least: usize) -> bool
        ensures { IsTrue result ↔ ((length self.now.entries ≤ 32) × (least ≤ count_by is_live self.now.entries)) }
    {
        self.entries.len() <= CAPACITY && least <= self.live
    }

    // Appends the live entries.
    pub(crate) fn copy_live(&self, copied: &mut ArrayVec<Entry, 40>)
        requires { array_vec_len copied.old + count_by is_live self.now.entries ≤ 40 }
        ensures { copied.new.items ≡ copied.old.items ++ filter is_live self.now.entries }
    {
        entry::copy_live(&self.entries, copied);
    }

    // The child of the live entry whose range holds the key.
    pub(crate) fn child_at(&self, key: u128) -> Option<u32>
        ensures none { MatchOption result (count_by (leads key) self.now.entries ≡ 0) (λ _. 0 < count_by (leads key) self.now.entries) }
        ensures child { IfSome result (IsChild self.now.entries key) }
    {
        entry::child_at(&self.entries, key)
    }
}

// The version, or none for the mark of what lives now.
fn ended(version: u32) -> Option<u32>
    ensures { result ≡ end_of version }
{
    if version == NOW { None } else { Some(version) }
}

// A copy of the links, inline.
fn copy_links(links: &Links) -> Links
    requires { small_vec_len links.now ≤ 2 }
    ensures { result.items ≡ links.now.items }
{
    let mut copied = SmallVec::new(*links.allocator());
    for link in links.as_slice() {
        copied.push_reserved(*link);
    }
    copied
}

// Appends the entries.
fn append(entries: &mut ArrayVec<Entry, 34>, added: &[Entry])
    requires { array_vec_len entries.old + length added.now ≤ 34 }
    ensures { entries.new.items ≡ entries.old.items ++ added.now }
{
    for entry in added {
        entries.push(*entry);
    }
}
