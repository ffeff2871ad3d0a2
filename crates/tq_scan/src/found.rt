//! The result of a scan.

use std::marker::Model;
use tq_mvbt::NodeNos;

/// A list of keys.
#[derive(Drop, Debug)]
pub struct Keys {
    items: Vec<u128>,
}

impl Model for Keys {
    ghost use Rattle.std.specs.Prelude.{ℕ, List};

    ghost Value = { List ℕ };

    ghost view = { λ k. k.items.items };
}

impl Keys {
    ghost use Rattle.std.specs.Prelude.{◌≡◌};

    /// Wraps the list; allocates nothing.
    pub fn of(items: Vec<u128>) -> Keys
        ensures { result ≡ items.items }
    {
        Keys { items }
    }

    /// The keys; allocates nothing.
    pub fn get(&self) -> &[u128]
        ensures { result.now ≡ self.now }
    {
        &self.items
    }
}

/// The keys that are found in a part of a window, and the leaves whose region meets the part.
#[derive(Drop, Debug)]
pub struct Found {
    /// The keys; in ascending order after `scan`.
    pub keys: Keys,
    /// The numbers of the leaves; in ascending order after `scan`.
    pub leaves: NodeNos,
}
