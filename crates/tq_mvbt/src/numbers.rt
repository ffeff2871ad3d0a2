//! A list of node numbers for public types.

use std::marker::Model;
use tq_arena::NodeNo;

/// A list of node numbers.
#[derive(Drop, Debug)]
pub struct NodeNos {
    items: Vec<NodeNo>,
}

impl Model for NodeNos {
    ghost use Rattle.std.specs.Prelude.{List};
    ghost use Rattle.tq_arena.specs.declared.arena.NodeNo.{NodeNo};

    ghost Value = { List NodeNo };

    ghost view = { λ n. n.items.items };
}

impl NodeNos {
    ghost use Rattle.std.specs.Prelude.{◌≡◌};

    /// Wraps the list; allocates nothing.
    pub fn of(items: Vec<NodeNo>) -> NodeNos
        ensures { result ≡ items.items }
    {
        NodeNos { items }
    }

    /// The numbers; allocates nothing.
    pub fn get(&self) -> &[NodeNo]
        ensures { result.now ≡ self.now }
    {
        &self.items
    }
}
