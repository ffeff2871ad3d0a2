//! Nodes that keep their numbers.

ghost use Rattle.std.specs.Prelude.{◌≡◌, ◌+◌, ◌<◌, ◌≤◌, ◌++◌, ◌∷◌, [], length, min, slice_get, Some, OnOk, OnErr};
ghost use Rattle.std.specs.Borrow.{Lends, sem};
ghost use Rattle.tq_arena.specs.Contents.{with_node};
ghost use Rattle.tq_arena.specs.contracts.arena.Arena.{the_row};

use crate::meter::Meter;
use std::alloc::{AllocError, Global};
use std::marker::Model;

/// The number of a node in its arena.
#[derive(Clone, Copy, PartialEq, Eq, Debug, Default)]
pub struct NodeNo(pub u32);

/// Nodes in the order of their numbers, at most 4,294,967,295 of them.
#[derive(Drop)]
pub struct Arena<N> {
    nodes: Vec<N>,
}

impl<N> Model for Arena<N> {
    ghost use Rattle.std.specs.Prelude.{◌-◌, ◌≤◌, min, vec_len, vec_capacity};
    ghost use Rattle.tq_arena.specs.Contents.{Contents, contents_code};

    ghost Value = { Contents N };

    ghost coded = { contents_code N.code };

    ghost view = { λ a. record {
      nodes = a.nodes.items;
      room = min (vec_capacity a.nodes - vec_len a.nodes) (4294967295 - vec_len a.nodes);
    } };

    ghost invariant = { λ a. vec_len a.nodes ≤ 4294967295 };
}

impl<N> Arena<N> {
    /// An arena without nodes. It allocates nothing before the first `reserve`.
    pub fn new(alloc: Global) -> Arena<N>
        ensures { result.nodes ≡ [] }
    {
        Arena {
            nodes: Vec::new(alloc),
        }
    }

    /// The number of nodes.
    pub fn len(&self) -> u32
        ensures { result ≡ length self.now.nodes }
    {
        self.nodes.len() as u32
    }

    /// The number of further nodes for which memory is reserved.
    pub fn room(&self) -> u32
        ensures { result ≡ self.now.room }
    {
        let len = self.nodes.len();
        (self.nodes.capacity() - len).min(4294967295 - len) as u32
    }

    /// Reserves memory for at least `count` more nodes. After `AllocError` the arena is unchanged.
    pub fn reserve(&mut self, count: u32) -> Result<(), AllocError>
        requires { length self.old.nodes + count ≤ 4294967295 }
        ensures nodes { self.new.nodes ≡ self.old.nodes }
        ensures ok { OnOk result (count ≤ self.new.room) }
        ensures err { OnErr result (self.new ≡ self.old) }
    {
        self.nodes.reserve(count as usize)
    }

    /// Adds a node and returns its number, the next one; allocates nothing.
    pub fn push_reserved(&mut self, node: N) -> NodeNo
        requires { 0 < self.old.room }
        ensures number { result.0 ≡ length self.old.nodes }
        ensures nodes { self.new.nodes ≡ self.old.nodes ++ node ∷ [] }
        ensures room { self.new.room + 1 ≡ self.old.room }
    {
        let number = self.len();
        self.nodes.push_reserved(node);
        NodeNo(number)
    }

    /// The node with the number; the meter counts one read.
    pub fn read(&self, number: NodeNo, meter: &mut Meter) -> &N
        requires { number.0 < length self.now.nodes }
        ensures node { slice_get self.now.nodes number.0 ≡ Some result.now }
        ensures counted { meter.new ≡ min (meter.old + 1) u64.MAX }
    {
        meter.add_read();
        &self.nodes[number.0 as usize]
    }

    /// The node with the number, for changes in place. It counts no read.
    pub fn change(&mut self, number: NodeNo) -> &mut N
        requires { number.0 < length self.old.nodes }
        ensures* writes_back { sem 𝓛 (Lends (the_row N.row) N.row self.entry result (with_node self.old number.0)) }
        ensures node { slice_get self.old.nodes number.0 ≡ Some result.now }
    {
        &mut self.nodes[number.0 as usize]
    }
}
